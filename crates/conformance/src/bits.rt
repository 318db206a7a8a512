//! The calculations of both sets, bit by bit and subfield by subfield, with no code of those that they are compared with.
ghost use Rattle.std.specs.Prelude.{◌<◌};

use crate::subfield::{Subfield, bit, gathered};
use codec::{Instruction, Mnemonic};

/// What rA, rB and rD hold before a word.
#[derive(Clone, Copy)]
pub struct Registers {
    pub a: u64,
    pub b: u64,
    pub d: u64,
}

/// What rD holds after an instruction. One that calculates nothing leaves it as it is.
pub fn execute(i: &Instruction, before: &Registers) -> u64 {
    let Some(new) = result(i, before) else {
        return before.d;
    };
    gathered(64, |place| {
        let chosen = if is_written(place / 8, i.ppp) {
            new
        } else {
            before.d
        };
        bit(chosen, place)
    })
}

/// The bytes that `ppp` names. The most significant bit stands for byte 0.
pub fn mask(ppp: u8) -> u8 {
    (0..8).fold(0, |mask, byte| mask << 1 | u8::from(is_written(byte, ppp)))
}

/// Whether `ppp` names this byte. Byte 0 is the most significant.
fn is_written(byte: u32, ppp: u8) -> bool {
    match ppp {
        0 => true,
        1 => byte < 4,
        2 => byte >= 4,
        3 => byte % 2 == 0,
        4 => byte % 2 == 1,
        _ => false,
    }
}

/// The whole result, before PPP chooses from it.
fn result(i: &Instruction, before: &Registers) -> Option<u64> {
    let size = 3 + u32::from(i.ww % 4);
    let amount = amount(i);
    let new = match i.mnemonic {
        Mnemonic::Vld | Mnemonic::Vsd | Mnemonic::Vbez | Mnemonic::Vbnez | Mnemonic::Vnop => {
            return None;
        }
        Mnemonic::Vand => before.on_bits(|p, q| p && q),
        Mnemonic::Vor => before.on_bits(|p, q| p || q),
        Mnemonic::Vxor => before.on_bits(|p, q| p != q),
        Mnemonic::Vnot => before.on_bits(|p, _| !p),
        Mnemonic::Vmov => before.on_bits(|p, _| p),
        Mnemonic::Vadd => before.on_subfields(size, Subfield::plus),
        Mnemonic::Vsub => before.on_subfields(size, Subfield::minus),
        Mnemonic::Vmuleu => before.on_subfields(size + 1, even_product),
        Mnemonic::Vmulou => before.on_subfields(size + 1, odd_product),
        Mnemonic::Vsqeu => before.on_subfields(size + 1, |x, _| even_product(x, x)),
        Mnemonic::Vsqou => before.on_subfields(size + 1, |x, _| odd_product(x, x)),
        Mnemonic::Vrtth => before.on_subfields(size, |x, _| x.halves_swapped()),
        Mnemonic::Vsll => before.on_subfields(size, |x, y| x.shifted_left(y.low_bits(size))),
        Mnemonic::Vsrl => before.on_subfields(
            size,
            |x, y| x.shifted_right(y.low_bits(size), false),
        ),
        Mnemonic::Vsra => before.on_subfields(
            size,
            |x, y| x.shifted_right(y.low_bits(size), x.bit(0)),
        ),
        Mnemonic::Vslli => before.on_subfields(size, |x, _| x.shifted_left(amount)),
        Mnemonic::Vsrli => before.on_subfields(size, |x, _| x.shifted_right(amount, false)),
        Mnemonic::Vsrai => before.on_subfields(size, |x, _| x.shifted_right(amount, x.bit(0))),
        Mnemonic::Vdiv => before.on_subfields(size, |x, y| x.divided(y).quotient),
        Mnemonic::Vmod => before.on_subfields(size, |x, y| x.divided(y).remainder),
        Mnemonic::Vsqrt => before.on_subfields(size, |x, _| x.root()),
    };
    Some(new)
}

impl Registers {
    /// What a function makes of the bits of rA and rB at each place.
    fn on_bits<F: Fn(bool, bool) -> bool>(&self, on_bit: F) -> u64
        requires { F.IsAlwaysCallable on_bit }
    {
        gathered(64, |i| on_bit(bit(self.a, i), bit(self.b, i)))
    }

    /// What a function makes of the subfields of rA and rB, each result in their place. A subfield has 2 to the power of
    /// `size` bits.
    fn on_subfields<F: Fn(&Subfield, &Subfield) -> Subfield>(
        &self,
        size: u32,
        on_subfield: F,
    ) -> u64
        requires fits { size < 32 }
        requires callable { F.IsAlwaysCallable on_subfield }
    {
        let width = 1 << size;
        (0..64u32 >> size).fold(0, |register, k| {
            let start = k << size;
            let x = Subfield::read(self.a, start, width);
            let y = Subfield::read(self.b, start, width);
            on_subfield(&x, &y).write(register, start)
        })
    }
}

/// The product of the even subfields of two pairs.
fn even_product(x: &Subfield, y: &Subfield) -> Subfield {
    x.first_half().times(&y.first_half())
}

/// The product of the odd subfields of two pairs.
fn odd_product(x: &Subfield, y: &Subfield) -> Subfield {
    x.second_half().times(&y.second_half())
}

/// How far a shift by an amount goes: the low 3, 4, 5 or, once more, 5 bits of it.
fn amount(i: &Instruction) -> u32 {
    let amount = u32::from(i.amount);
    match i.ww {
        0 => amount % 8,
        1 => amount % 16,
        _ => amount % 32,
    }
}
