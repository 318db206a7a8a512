//! Banks by their meaning.
ghost use Rattle.std.specs.Prelude.{◌≡◌, ◌≤◌};
ghost use Rattle.bank.specs.Store.{Store, Fixed, size, open_at, read_at, write_answer, write_at};

use base::Fault;

/// The most words that a bank has.
pub const MAX_WORDS: usize = 65536;

/// Words of 64 bits, each with a mark that says whether it is open to writes.
pub trait Bank {
    // The words and their marks.
    ghost meaning: { Self → Store };

    // What no write to the bank changes. Contracts say so by an equation: a name for it would be no shorter.
    ghost fixed: { Self → Fixed };

    /// How many words there are.
    fn size(&self) -> usize
        ensures value { result ≡ size (meaning self.now) }
        ensures few { result ≤ 65536 };

    /// Whether the word at an address is there and open to writes.
    fn is_open(&self, address: usize) -> bool
        ensures { result ≡ open_at (meaning self.now) address };

    /// The word at an address. Refused with `Address`.
    fn read(&self, address: usize) -> Result<u64, Fault>
        ensures { result ≡ read_at (meaning self.now) address };

    /// Replaces the word at an address, and no other. Refused with `Address`, then with `Closed`.
    fn write(&mut self, address: usize, value: u64) -> Result<(), Fault>
        ensures answer { result ≡ write_answer (meaning self.old) address }
        ensures after { meaning self.new ≡ write_at (meaning self.old) address value }
        ensures stays { fixed self.new ≡ fixed self.old };
}
