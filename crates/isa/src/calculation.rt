//! What a calculation makes of the contents of two registers.
ghost use Rattle.std.specs.Prelude.{◌≡◌, ◌%◌, min};
ghost use Rattle.base.specs.Words.{bits, field, word};
ghost use Rattle.alu.specs.Blocks.{product};
ghost use Rattle.isa.specs.Calculated.{immediate, blockwise, calculated, outcome};

use crate::operation::reach_of;
use alu::{
    Add, Divide, Fixed, Half, Multiply, Remainder, ShiftLeft, ShiftRight, ShiftRightSigned,
    SquareRoot, Subtract, SwapHalves,
};
use base::{FieldFunction, Width, zip_fields};
use codec::{Instruction, Mnemonic};

/// The part of a shift amount that counts: at most five bits.
fn immediate(reach: Width, amount: u8) -> u64
    ensures { result ≡ immediate (bits reach) amount }
{
    u64::from(amount) % u64::from(reach.bits().min(32))
}

/// Each block shifted by an amount.
fn shift_by<F: FieldFunction + Copy>(shift: F, reach: Width, amount: u8, a: u64) -> u64
    ensures { result ≡ word (bits reach) (λ i. F.FieldFunction.meaning shift (field (bits reach) i a) (immediate (bits reach) amount)) }
{
    let by = Fixed {
        function: shift,
        second: immediate(reach, amount),
    };
    zip_fields(reach, &by, a, a)
}

/// Each block the product of its even or of its odd subfields.
fn product(half: Half, reach: Width, a: u64, b: u64) -> u64
    ensures { result ≡ word (bits reach) (λ i. product half (bits reach) (field (bits reach) i a) (field (bits reach) i b)) }
{
    zip_fields(reach, &Multiply { half, reach }, a, b)
}

/// Bitwise functions work on the whole word, the others block by block.
fn blockwise(mnemonic: Mnemonic, amount: u8, reach: Width, a: u64, b: u64) -> u64
    ensures { result ≡ blockwise mnemonic amount (bits reach) a b }
{
    // One match: the mnemonic is data, and a table of functions would be such a match too.
    match mnemonic {
        Mnemonic::Vand => a & b,
        Mnemonic::Vor => a | b,
        Mnemonic::Vxor => a ^ b,
        Mnemonic::Vnot => !a,
        Mnemonic::Vmov => a,
        Mnemonic::Vadd => zip_fields(reach, &Add(reach), a, b),
        Mnemonic::Vsub => zip_fields(reach, &Subtract(reach), a, b),
        Mnemonic::Vmuleu => product(Half::Even, reach, a, b),
        Mnemonic::Vmulou => product(Half::Odd, reach, a, b),
        Mnemonic::Vsqeu => product(Half::Even, reach, a, a),
        Mnemonic::Vsqou => product(Half::Odd, reach, a, a),
        Mnemonic::Vrtth => zip_fields(reach, &SwapHalves(reach), a, b),
        Mnemonic::Vsll => zip_fields(reach, &ShiftLeft(reach), a, b),
        Mnemonic::Vsrl => zip_fields(reach, &ShiftRight(reach), a, b),
        Mnemonic::Vsra => zip_fields(reach, &ShiftRightSigned(reach), a, b),
        Mnemonic::Vslli => shift_by(ShiftLeft(reach), reach, amount, a),
        Mnemonic::Vsrli => shift_by(ShiftRight(reach), reach, amount, a),
        Mnemonic::Vsrai => shift_by(ShiftRightSigned(reach), reach, amount, a),
        Mnemonic::Vdiv => zip_fields(reach, &Divide, a, b),
        Mnemonic::Vmod => zip_fields(reach, &Remainder, a, b),
        Mnemonic::Vsqrt => zip_fields(reach, &SquareRoot, a, b),
        Mnemonic::Vld | Mnemonic::Vsd | Mnemonic::Vbez | Mnemonic::Vbnez | Mnemonic::Vnop => 0,
    }
}

/// The result of an instruction.
fn calculated(i: &Instruction, a: u64, b: u64) -> u64
    ensures { result ≡ calculated i.now a b }
{
    let reach = reach_of(i.mnemonic.kind().span, i.ww);
    blockwise(i.mnemonic, i.amount, reach, a, b)
}

/// The result of a decoded word; an illegal one has none.
pub(crate) fn result_of(meant: Option<Instruction>, a: u64, b: u64) -> u64
    ensures { result ≡ outcome meant a b }
{
    meant.map_or(0, |i| calculated(&i, a, b))
}
