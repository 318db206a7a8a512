//! A haze over the row, tried before it is made: dropped, kept, and kept in one trial that stands over another.
ghost use Rattle.std.specs.Prelude.{◌≡◌};
ghost use Rattle.bank.specs.Trials.{SameBelow, state};

use crate::tiles::PIXELS;
use bank::{Bank, End, TrialBank};
use base::Fault;
use std::array;

/// A haze, and the ticket of the trial that tries it.
#[derive(Clone, Copy)]
pub struct Attempt {
    pub ticket: u32,
    pub haze: u64,
}

/// What a trial shows, and what stands below it meanwhile.
#[derive(Clone, Copy)]
pub struct View {
    pub shown: [u64; PIXELS],
    pub below: [u64; PIXELS],
}

impl<B: Bank> From<&TrialBank<'_, B>> for View {
    fn from(trial: &TrialBank<'_, B>) -> View {
        View {
            shown: row(trial),
            below: row(trial.below()),
        }
    }
}

/// The words of the row.
pub fn row<B: Bank>(bank: &B) -> [u64; PIXELS] {
    array::from_fn(|pixel| bank.read(pixel).unwrap_or(0))
}

/// Lays the haze over each word of the row.
fn lay<B: Bank>(bank: &mut B, haze: u64) -> Result<(), Fault>
    ensures stays { B.Bank.fixed bank.new ≡ B.Bank.fixed bank.old }
{
    // By number: a bank has its words by address only.
    for pixel in 0..PIXELS {
        let word = bank.read(pixel)?;
        bank.write(pixel, word | haze)?;
    }
    Ok(())
}

/// Tries the haze, and ends the trial. Dropped, it leaves the bank as it was, whatever the bank.
pub fn try_haze<B: Bank>(
    trial: &mut TrialBank<'_, B>,
    attempt: Attempt,
    end: End,
) -> Result<View, Fault>
    ensures dropped { end ≡ End.Drop → state B.Bank.meaning trial.new ≡ state B.Bank.meaning trial.old }
    ensures same_below { SameBelow B.Bank.fixed trial.old trial.new }
{
    let token = trial.open(attempt.ticket)?;
    let laid = lay(trial, attempt.haze);
    let view = View::from(&*trial);
    trial.end(token, end).unwrap();
    laid?;
    Ok(view)
}

/// Tries the haze on any bank, and keeps it.
fn keep_over<B: Bank>(bank: &mut B, attempt: Attempt) -> Result<View, Fault>
    ensures stays { B.Bank.fixed bank.new ≡ B.Bank.fixed bank.old }
{
    try_haze(&mut TrialBank::new(bank), attempt, End::Keep)
}

/// What a trial over another showed, and what the lower one showed once the upper one was kept.
#[derive(Clone, Copy)]
pub struct Nested {
    pub upper: View,
    pub lower: View,
}

/// Keeps the haze in a trial over this one, and drops this one: whatever the bank, it is left as it was.
pub fn keep_in_a_dropped<B: Bank>(
    lower: &mut TrialBank<'_, B>,
    attempt: Attempt,
) -> Result<Nested, Fault>
    ensures after { state B.Bank.meaning lower.new ≡ state B.Bank.meaning lower.old }
    ensures same_below { SameBelow B.Bank.fixed lower.old lower.new }
{
    let token = lower.open(attempt.ticket)?;
    let kept = keep_over(lower, attempt);
    let view = View::from(&*lower);
    lower.drop(token).unwrap();
    Ok(Nested {
        upper: kept?,
        lower: view,
    })
}
