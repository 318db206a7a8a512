//! A bank over words that the caller lends.
ghost use Rattle.std.specs.Prelude.{◌≡◌, take, drop};
ghost use Rattle.bank.specs.Store.{Lent, all_open};

use crate::store::{Bank, MAX_WORDS};
use base::Fault;

/// The first 65,536 of the words that the caller lends, or as many as there are. All are open.
#[derive(Drop)]
pub struct WordBank<'a> {
    words: &'a mut [u64],
}

impl<'a> WordBank<'a> {
    pub fn new(words: &'a mut [u64]) -> Self
        ensures value { result.words.now ≡ words.old }
        ensures lent { result.words.ghost_name ≡ words.entry.ghost_name }
    {
        WordBank { words }
    }

    /// The words of the bank.
    fn words(&self) -> &[u64]
        ensures { result.now ≡ take 65536 self.now.words.now }
    {
        &self.words[..self.words.len().min(MAX_WORDS)]
    }
}

impl<'a> Bank for WordBank<'a> {
    ghost meaning = { λ b. all_open (take 65536 b.words.now) };

    ghost fixed = { λ b. Lent b.words.ghost_name (drop 65536 b.words.now) };

    fn size(&self) -> usize {
        self.words().len()
    }

    fn is_open(&self, address: usize) -> bool {
        address < self.size()
    }

    fn read(&self, address: usize) -> Result<u64, Fault> {
        let word = self.words().get(address).ok_or(Fault::Address)?;
        Ok(*word)
    }

    fn write(&mut self, address: usize, value: u64) -> Result<(), Fault> {
        // Asked by `read`: the slice may be longer than the bank.
        self.read(address)?;
        self.words[address] = value;
        Ok(())
    }
}
