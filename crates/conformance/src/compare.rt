//! What the instruction sets answer, beside what the manual's patterns say. What is worked out here from a pattern, and how
//! the two are compared, shares with the instruction sets the types of the answers, and no code.

use crate::bits::{Registers, execute, mask};
use crate::manual::Manual;
use base::{Fault, merge};
use codec::{Class, Instruction, Mnemonic};
use isa::{InstructionSet, Operation};

/// What an illegal word is held to: an instruction that does nothing.
const NOTHING: Instruction = Instruction {
    mnemonic: Mnemonic::Vnop,
    rd: 0,
    ra: 0,
    rb: 0,
    amount: 0,
    ppp: 0,
    ww: 0,
    address: 0,
};

impl Manual {
    /// Whether a record that may have no word is answered rightly: by a word that says just that, or by refusal 11.
    pub fn encodes_rightly(&self, instruction: &Instruction) -> bool {
        match self.table.encode(instruction) {
            Ok(word) => self
                .decode(word)
                .is_some_and(|found| is_same(instruction, &found)),
            Err(fault) => fault == Fault::NoSuchInstruction && fault.number() == 11,
        }
    }

    /// The contents of rD after the word, by the instruction set.
    pub fn written(&self, word: u32, before: &Registers) -> u64 {
        let result = self.table.result(word, before.a, before.b);
        merge(self.table.operation(word).mask, result, before.d)
    }

    /// Whether all answers on a word are what its pattern says: its instruction, what it asks for (where it is illegal,
    /// what VNOP asks for), what it leaves in rD, and that its instruction is encoded back.
    pub fn answers_alike(&self, word: u32, before: &Registers) -> bool {
        let found = self.decode(word);
        decodes_alike(self.table.decode(word), found)
            && asks_alike(&self.table.operation(word), &found.unwrap_or(NOTHING))
            && self.written(word, before) == found.map_or(before.d, |i| execute(&i, before))
            && found.is_none_or(|i| self.table.encode(&i) == Ok(word))
    }
}

/// Whether both decoders read a word alike.
fn decodes_alike(meant: Option<Instruction>, found: Option<Instruction>) -> bool {
    match (meant, found) {
        (Some(meant), Some(found)) => is_same(&meant, &found),
        (None, None) => true,
        _ => false,
    }
}

// Field by field: `==` on these records is the sets' own code, and encoding asks it too.
/// Whether two records have the same mnemonic and the same numbers.
fn is_same(a: &Instruction, b: &Instruction) -> bool {
    a.mnemonic as u8 == b.mnemonic as u8
        && a.rd == b.rd
        && a.ra == b.ra
        && a.rb == b.rb
        && a.amount == b.amount
        && a.ppp == b.ppp
        && a.ww == b.ww
        && a.address == b.address
}

/// Whether all that a word asks for is what its pattern says.
fn asks_alike(asked: &Operation, i: &Instruction) -> bool {
    let class = class(i.mnemonic);
    let calculates = class as u8 == Class::Calculate as u8;
    asked.class as u8 == class as u8
        && asked.rd == i.rd
        && asked.ra == i.ra
        && asked.rb == i.rb
        && asked.reads_a == calculates
        && asked.reads_b == (calculates && reads_two(i.mnemonic))
        && asked.address == i.address
        && asked.mask == (if calculates { mask(i.ppp) } else { 0 })
        && asked.reach.bits() == reach(i)
}

fn class(mnemonic: Mnemonic) -> Class {
    match mnemonic {
        Mnemonic::Vld => Class::Load,
        Mnemonic::Vsd => Class::Store,
        Mnemonic::Vbez => Class::BranchZero,
        Mnemonic::Vbnez => Class::BranchNotZero,
        Mnemonic::Vnop => Class::Nothing,
        _ => Class::Calculate,
    }
}

fn reads_two(mnemonic: Mnemonic) -> bool {
    !matches!(
        mnemonic,
        Mnemonic::Vnot
            | Mnemonic::Vmov
            | Mnemonic::Vsqeu
            | Mnemonic::Vsqou
            | Mnemonic::Vrtth
            | Mnemonic::Vslli
            | Mnemonic::Vsrli
            | Mnemonic::Vsrai
            | Mnemonic::Vsqrt
    )
}

/// How far a block of the result looks.
fn reach(i: &Instruction) -> u32 {
    let width = 8u32 << (i.ww % 4);
    match i.mnemonic {
        Mnemonic::Vand | Mnemonic::Vor | Mnemonic::Vxor | Mnemonic::Vnot | Mnemonic::Vmov => 8,
        Mnemonic::Vmuleu | Mnemonic::Vmulou | Mnemonic::Vsqeu | Mnemonic::Vsqou => {
            width.wrapping_mul(2)
        }
        Mnemonic::Vld | Mnemonic::Vsd | Mnemonic::Vbez | Mnemonic::Vbnez | Mnemonic::Vnop => 8,
        _ => width,
    }
}
