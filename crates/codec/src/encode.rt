//! From an instruction to its word.
ghost use Rattle.std.specs.Prelude.{◌≡◌, ◌<◌};
ghost use Rattle.codec.specs.Assembled.{lead, assembled};
ghost use Rattle.codec.specs.Encoded.{Alone, Encoded};

use crate::instruction::{Class, Instruction, Mnemonic};
use crate::table::Table;
use base::Fault;

/// The opcode of a class, and the function of a calculation, in their places.
fn lead(class: Class, function: u8) -> u32
    ensures value { result ≡ lead class function }
    ensures below { result < 0xF000_0001 }
{
    match class {
        Class::Nothing => 0xF000_0000,
        Class::Calculate => (0b101010 << 26) + u32::from(function),
        Class::Load => 0b100000 << 26,
        Class::Store => 0b100001 << 26,
        Class::BranchZero => 0b100010 << 26,
        Class::BranchNotZero => 0b100011 << 26,
    }
}

/// The parts of an instruction in their places.
fn assemble(i: &Instruction, function: u8) -> u32
    ensures { result ≡ assembled function i.now }
{
    lead(i.mnemonic.kind().class, function)
        + (u32::from(i.rd % 32) << 21)
        + (u32::from(i.ra % 32) << 16)
        + (u32::from(i.rb % 32) + u32::from(i.amount % 32) << 11)
        + (u32::from(i.ppp % 8) << 8)
        + (u32::from(i.ww % 4) << 6)
        + u32::from(i.address)
}

impl Table {
    /// The only function number that can stand for a mnemonic.
    fn function(self, mnemonic: Mnemonic) -> u8
        ensures { Alone self mnemonic result }
    {
        let place = self.rows().iter().position(|row| *row == Some(mnemonic));
        place.unwrap_or(0) as u8
    }

    /// The word that decodes to the instruction. Refused where there is none.
    pub fn encode(self, i: &Instruction) -> Result<u32, Fault>
        ensures { Encoded self i.now result }
    {
        let word = assemble(i, self.function(i.mnemonic));
        if self.decode(word) == Some(*i) {
            Ok(word)
        } else {
            Err(Fault::NoSuchInstruction)
        }
    }
}
