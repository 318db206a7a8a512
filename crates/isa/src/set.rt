//! Instruction sets by their meaning; both sets of words are such sets.
ghost use Rattle.std.specs.Prelude.{◌≡◌};
ghost use Rattle.isa.specs.Sets.{Set, Lawful, set_of};
ghost use Rattle.isa.specs.Laws;

use crate::calculation::result_of;
use crate::operation::Operation;
use codec::{NOP, Table};

/// What every word asks for and makes of two contents. No word and no contents are refused.
pub trait InstructionSet {
    ghost meaning: { Self → Set };

    /// What a word asks for.
    fn operation(&self, word: u32) -> Operation
        ensures { result ≡ (meaning self.now).operation word };

    /// What a word makes of the contents of rA and rB.
    fn result(&self, word: u32, a: u64, b: u64) -> u64
        ensures { result ≡ (meaning self.now).result word a b };

    ghost lawful: { (s : Self) → Lawful (meaning s) };
}

/// Gold has selective writing and shifts by an amount, Cardinal division and roots.
impl InstructionSet for Table {
    ghost meaning = { set_of };

    ghost lawful = { Laws.lawful };

    fn operation(&self, word: u32) -> Operation {
        Operation::from(self.decode(word).unwrap_or(NOP))
    }

    fn result(&self, word: u32, a: u64, b: u64) -> u64 {
        // An arm for each set: so `result` is small enough to be inlined, and a loop over one word decodes it once.
        match self {
            Table::Gold => result_of(Table::Gold.decode(word), a, b),
            Table::Cardinal => result_of(Table::Cardinal.decode(word), a, b),
        }
    }
}
