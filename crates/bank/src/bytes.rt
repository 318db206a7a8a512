//! A bank over bytes that the caller lends.
ghost use Rattle.std.specs.Prelude.{◌≡◌, ℕ, ◌+◌, ◌*◌, ◌<◌, ◌≤◌, ◌⊎◌, map, slice_index};
ghost use Rattle.std.specs.Int.{w64, from_be_bytes};
ghost use Rattle.bank.specs.Bytes.{words_of, rest_of, bytes_after};
ghost use Rattle.bank.specs.Store.{Lent, all_open, write_answer, write_at};

use crate::store::{Bank, MAX_WORDS};
use base::Fault;

/// Bytes that the caller lends, eight to a word, most significant first: the whole words, at most 65,536. All are open.
#[derive(Drop)]
pub struct ByteBank<'a> {
    bytes: &'a mut [u8],
}

impl<'a> ByteBank<'a> {
    pub fn new(bytes: &'a mut [u8]) -> Self
        ensures value { result.bytes.now ≡ bytes.old }
        ensures lent { result.bytes.ghost_name ≡ bytes.entry.ghost_name }
    {
        ByteBank { bytes }
    }

    /// The bytes of each word.
    fn words(&self) -> &[[u8; 8]]
        ensures { map (from_be_bytes w64) result.now ≡ words_of self.now.bytes.now }
    {
        let (words, _) = self.bytes.as_chunks();
        &words[..words.len().min(MAX_WORDS)]
    }
}

impl<'a> Bank for ByteBank<'a> {
    ghost meaning = { λ b. all_open (words_of b.bytes.now) };

    ghost fixed = { λ b. Lent b.bytes.ghost_name (rest_of b.bytes.now) };

    fn size(&self) -> usize {
        self.words().len()
    }

    fn is_open(&self, address: usize) -> bool {
        address < self.size() // as in `WordBank`: a trait for both would be longer than the line
    }

    fn read(&self, address: usize) -> Result<u64, Fault> {
        let word = self.words().get(address).ok_or(Fault::Address)?;
        Ok(u64::from_be_bytes(*word))
    }

    #[tactic(auto, using(crate::proofs::Groups::word_within, crate::proofs::Groups::bytes_kept))]
    fn write(&mut self, address: usize, value: u64) -> Result<(), Fault>
        ensures answer { result ≡ write_answer (all_open (words_of self.old.bytes.now)) address }
        ensures after { all_open (words_of self.new.bytes.now) ≡ write_at (all_open (words_of self.old.bytes.now)) address value }
        ensures stays { Lent self.new.bytes.ghost_name (rest_of self.new.bytes.now) ≡ Lent self.old.bytes.ghost_name (rest_of self.old.bytes.now) }
        ensures bytes { self.new.bytes.now ≡ bytes_after self.old.bytes.now address value }
        ensures untouched { (k : ℕ) → (k < 8 * address) ⊎ (8 * address + 8 ≤ k) → slice_index self.new.bytes.now k ≡ slice_index self.old.bytes.now k }
    {
        self.read(address)?;
        // By place: the contract of `as_chunks_mut` does not say what the bytes end as.
        let at = 8 * address;
        self.bytes[at..at + 8].copy_from_slice(&value.to_be_bytes());
        Ok(())
    }
}
