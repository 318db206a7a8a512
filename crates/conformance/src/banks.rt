//! Banks and trials beside a bank that is written another way: all its words in a vector, copied whole when a trial opens.
ghost use Rattle.std.specs.Prelude.{◌≡◌};
ghost use Rattle.bank.specs.Trials.{SameBelow};

use crate::generator::Generator;
use bank::{Bank, End, TrialBank, Unspent};
use base::Fault;
use std::alloc::AllocError;

/// How many calls are made between the opening of a trial and its end.
const CALLS: u32 = 40;

/// How many trials are gone through over each bank, and as many in a trial that is dropped.
const ROUNDS: u32 = 50;

/// How many calls a survey makes beside those that open and end trials.
pub const SURVEY_CALLS: u32 = CALLS * (1 + 4 * ROUNDS);

/// The words of a bank, and how many of them are open.
#[derive(Drop)]
pub struct Model {
    pub words: Vec<u64>,
    pub open: usize,
}

impl Model {
    fn read(&self, address: usize) -> Result<u64, Fault> {
        self.words.get(address).copied().ok_or(Fault::Address)
    }

    fn is_open(&self, address: usize) -> bool {
        address < self.open && address < self.words.len()
    }

    fn write(&mut self, address: usize, value: u64) -> Result<(), Fault> {
        let word = self.words.get_mut(address).ok_or(Fault::Address)?;
        if address >= self.open {
            return Err(Fault::Closed);
        }
        *word = value;
        Ok(())
    }
}

/// An answer with the number of its refusal, so that answers are not compared by `==` on faults.
fn numbered<T>(answer: Result<T, Fault>) -> Result<T, u8> {
    answer.map_err(Fault::number)
}

/// How many differences were found.
#[derive(Clone, Copy, Default)]
pub struct Differences {
    pub count: u32,
}

impl Differences {
    /// Counts one where two answers are not alike.
    pub fn note(&mut self, alike: bool) {
        if !alike {
            self.count = self.count.saturating_add(1);
        }
    }

    /// Counts the places from `from` on at which two lists differ.
    pub fn compare_lists<T: PartialEq>(&mut self, a: &[T], b: &[T], from: usize) {
        for (x, y) in a.iter().zip(b).skip(from) {
            self.note(*x == *y);
        }
    }

    /// Counts the words of a bank that are not these.
    fn compare<B: Bank>(&mut self, bank: &B, words: &[u64]) {
        for (address, word) in words.iter().enumerate() {
            self.note(bank.read(address) == Ok(*word));
        }
    }
}

/// A bank's model, the numbers that choose the calls, and what was found.
#[derive(Drop)]
pub struct Survey<'a> {
    pub model: Model,
    numbers: &'a mut Generator,
    pub found: Differences,
}

impl<'a> Survey<'a> {
    pub fn new(model: Model, numbers: &'a mut Generator) -> Self {
        Survey {
            model,
            numbers,
            found: Differences::default(),
        }
    }

    /// Makes one call, and counts it where the model answers it differently.
    fn call<B: Bank>(&mut self, bank: &mut B)
        ensures stays { B.Bank.fixed bank.new ≡ B.Bank.fixed bank.old }
    {
        let model = &mut self.model;
        let address = self.numbers.address(model.words.len());
        // The call is drawn by lot: an enum of the four would be made of the number by the same match.
        let alike = match self.numbers.below(4) {
            0 => bank.size() == model.words.len(),
            1 => bank.is_open(address) == model.is_open(address),
            2 => numbered(bank.read(address)) == numbered(model.read(address)),
            _ => {
                let value = self.numbers.next();
                numbered(bank.write(address, value)) == numbered(model.write(address, value))
            }
        };
        self.found.note(alike);
    }

    /// Makes calls.
    fn call_all<B: Bank>(&mut self, bank: &mut B)
        ensures stays { B.Bank.fixed bank.new ≡ B.Bank.fixed bank.old }
    {
        for _ in 0..CALLS {
            self.call(bank);
        }
    }

    /// A trial from its opening to its end, kept or dropped by chance, with calls before and in it.
    fn go_through<B: Bank>(&mut self, trial: &mut TrialBank<'_, B>) -> Result<(), AllocError>
        ensures same_below { SameBelow B.Bank.fixed trial.old trial.new }
    {
        self.call_all(trial);
        let saved = self.model.words.clone()?;
        let Ok(token) = trial.open(self.numbers.below(3)) else {
            self.found.note(false);
            return Ok(());
        };
        self.call_all(trial);
        self.found.compare(trial.below(), &saved);
        let end = self.numbers.end();
        trial.end(token, end).unwrap();
        if let End::Drop = end {
            self.model.words = saved;
        }
        self.found.compare(trial.below(), &self.model.words);
        Ok(())
    }

    /// Trials over any bank.
    fn go_through_over<B: Bank>(&mut self, bank: &mut B) -> Result<(), AllocError>
        ensures stays { B.Bank.fixed bank.new ≡ B.Bank.fixed bank.old }
    {
        self.go_through(&mut TrialBank::new(bank))
    }

    /// Trials in a trial that is dropped: the bank below does not change, and stands as it did.
    fn nest<B: Bank>(&mut self, lower: &mut TrialBank<'_, B>) -> Result<(), AllocError> {
        let saved = self.model.words.clone()?;
        let Ok(token) = lower.open(0) else {
            self.found.note(false);
            return Ok(());
        };
        let upper = self.go_through_over(lower);
        self.found.compare(lower, &self.model.words);
        self.found.compare(lower.below(), &saved);
        lower.drop(token).unwrap();
        self.found.compare(lower, &saved);
        self.model.words = saved;
        upper
    }

    /// Holds a bank, and trials over it, against the model.
    pub fn hold<B: Bank>(&mut self, bank: &mut B) -> Result<(), AllocError> {
        self.call_all(bank);
        let mut trial = TrialBank::new(bank);
        self.model.open = self.model.open.min(1024);
        for _ in 0..ROUNDS {
            self.go_through(&mut trial)?;
            self.nest(&mut trial)?;
        }
        Ok(())
    }
}

/// Gives the token of a trial to another trial bank: it comes back with 13, and ends its own trial then.
pub fn misplace<A: Bank, B: Bank>(
    here: &mut TrialBank<'_, A>,
    there: &mut TrialBank<'_, B>,
) -> u32 {
    let Ok(token) = here.open(1) else {
        return 1;
    };
    let Err(Unspent { fault, token }) = there.keep(token) else {
        return 1;
    };
    here.drop(token).unwrap();
    u32::from(fault != Fault::NoSuchTrial || fault.number() != 13)
}
