//! Trials over any bank: writes that stay above it until they are kept.
ghost use Rattle.std.specs.Prelude.{◌≡◌};
ghost use Rattle.bank.specs.Store.{write_answer, write_at};
ghost use Rattle.bank.specs.Steps.{settled};
ghost use Rattle.bank.specs.Trials.{state, fixed_over, standing, open_answer, opened, wrote, end_answer, kept, dropped, ended, SameBelow, Undone, Done};

use crate::store::Bank;
use crate::token::{End, Token, Unspent};
use base::Fault;

/// How many words a trial can change: those at the addresses under it.
pub const TRIAL_WORDS: usize = 1024;

/// Writes to a bank what a trial wrote over it.
fn settle<B: Bank>(bank: &mut B, overlay: &[Option<u64>; TRIAL_WORDS])
    ensures after { B.Bank.meaning bank.new ≡ settled overlay.now (B.Bank.meaning bank.old) }
    ensures stays { B.Bank.fixed bank.new ≡ B.Bank.fixed bank.old }
{
    for (address, word) in overlay.iter().enumerate() {
        if let Some(word) = word {
            let _ = bank.write(address, *word); // a word that is closed below is left
        }
    }
}

/// A bank over another. It has the words below, and open are those that are open below and lie under 1,024. While a trial
/// is open, writes stay here; with none open they go straight below.
// Clauses name the fields: under an `impl Model` a caller would not know what stands below once the bank is let go.
#[derive(Drop)]
pub struct TrialBank<'a, B> {
    below: &'a mut B,
    ticket: Option<u32>,
    overlay: [Option<u64>; TRIAL_WORDS], // in one `Option` with the ticket, opening would copy 16 KiB and take twice as long
}

impl<'a, B: Bank> TrialBank<'a, B> {
    /// With no trial open.
    pub fn new(below: &'a mut B) -> Self
        ensures value { state B.Bank.meaning result ≡ standing (B.Bank.meaning below.old) }
        ensures lent { result.below.ghost_name ≡ below.entry.ghost_name }
        ensures under { B.Bank.fixed result.below.now ≡ B.Bank.fixed below.old }
    {
        TrialBank {
            below,
            ticket: None,
            overlay: [None; TRIAL_WORDS],
        }
    }

    /// The open trial's ticket.
    pub fn ticket(&self) -> Option<u32>
        ensures { result ≡ (state B.Bank.meaning self.now).ticket }
    {
        self.ticket // none while no trial is open
    }

    /// The bank below, to be looked at.
    pub fn below(&self) -> &B
        ensures { result.now ≡ self.now.below.now }
    {
        &*self.below
    }

    /// Opens a trial. Refused with `TrialOpen`.
    pub fn open(&mut self, ticket: u32) -> Result<Token, Fault>
        ensures answer { result ≡ open_answer (state B.Bank.meaning self.old) ticket }
        ensures after { state B.Bank.meaning self.new ≡ opened (state B.Bank.meaning self.old) ticket }
        ensures same_below { SameBelow B.Bank.fixed self.old self.new }
    {
        if self.ticket.is_some() {
            return Err(Fault::TrialOpen);
        }
        self.ticket = Some(ticket);
        self.overlay = [None; TRIAL_WORDS];
        Ok(Token::new(ticket))
    }

    /// Spends the open trial's token; any other comes back.
    fn spend(&self, token: Token) -> Result<(), Unspent>
        ensures { result ≡ end_answer (state B.Bank.meaning self.now) token }
    {
        if self.ticket != Some(token.ticket()) {
            return Err(Unspent {
                fault: Fault::NoSuchTrial,
                token,
            });
        }
        token.spend();
        Ok(())
    }

    /// Ends the token's trial and leaves below the words that it showed. Refused with `NoSuchTrial`.
    pub fn keep(&mut self, token: Token) -> Result<(), Unspent>
        ensures answer { result ≡ end_answer (state B.Bank.meaning self.old) token }
        ensures after { state B.Bank.meaning self.new ≡ kept (state B.Bank.meaning self.old) token.ticket }
        ensures done { Done (state B.Bank.meaning self.old) token.ticket result (state B.Bank.meaning self.new) }
        ensures same_below { SameBelow B.Bank.fixed self.old self.new }
    {
        self.spend(token)?;
        settle(self.below, &self.overlay);
        self.ticket = None;
        Ok(())
    }

    /// Ends the token's trial and leaves below what stood there at its opening. Refused with `NoSuchTrial`.
    pub fn drop(&mut self, token: Token) -> Result<(), Unspent>
        ensures answer { result ≡ end_answer (state B.Bank.meaning self.old) token }
        ensures after { state B.Bank.meaning self.new ≡ dropped (state B.Bank.meaning self.old) token.ticket }
        ensures undone { Undone (state B.Bank.meaning self.old) token.ticket result (state B.Bank.meaning self.new) }
        ensures same_below { SameBelow B.Bank.fixed self.old self.new }
    {
        self.spend(token)?;
        self.ticket = None; // the overlay counts no more
        Ok(())
    }

    /// Keeps or drops the token's trial.
    pub fn end(&mut self, token: Token, end: End) -> Result<(), Unspent>
        ensures answer { result ≡ end_answer (state B.Bank.meaning self.old) token }
        ensures after { state B.Bank.meaning self.new ≡ ended (state B.Bank.meaning self.old) token.ticket end }
        ensures same_below { SameBelow B.Bank.fixed self.old self.new }
    {
        // One match: how a trial ends is data of the caller's.
        match end {
            End::Keep => self.keep(token),
            End::Drop => self.drop(token),
        }
    }
}

#[tactic(auto, using(crate::proofs::Calls::through))]
impl<'a, B: Bank> Bank for TrialBank<'a, B> {
    ghost meaning = { λ t. (state B.Bank.meaning t).shown };

    ghost fixed = { λ t. fixed_over B.Bank.meaning B.Bank.fixed t };

    fn size(&self) -> usize {
        self.below.size()
    }

    fn is_open(&self, address: usize) -> bool {
        address < TRIAL_WORDS && self.below.is_open(address)
    }

    fn read(&self, address: usize) -> Result<u64, Fault> {
        let word = self.below.read(address)?;
        if self.ticket.is_some() && self.is_open(address) {
            Ok(self.overlay[address].unwrap_or(word))
        } else {
            Ok(word)
        }
    }

    fn write(&mut self, address: usize, value: u64) -> Result<(), Fault>
        ensures answer { result ≡ write_answer (state B.Bank.meaning self.old).shown address }
        ensures after { (state B.Bank.meaning self.new).shown ≡ write_at (state B.Bank.meaning self.old).shown address value }
        ensures stays { fixed_over B.Bank.meaning B.Bank.fixed self.new ≡ fixed_over B.Bank.meaning B.Bank.fixed self.old }
        ensures whole { state B.Bank.meaning self.new ≡ wrote (state B.Bank.meaning self.old) address value }
    {
        self.below.read(address)?;
        if !self.is_open(address) {
            return Err(Fault::Closed);
        }
        match self.ticket {
            Some(_) => self.overlay[address] = Some(value),
            None => self.below.write(address, value)?,
        }
        Ok(())
    }
}
