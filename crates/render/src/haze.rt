//! Tells the trials of a haze over the shaded row.
use crate::tiles::{PIXELS, Shades, tell_makers};
use crate::trials::{Attempt, View, keep_in_a_dropped, row, try_haze};
use bank::{Bank, End, TrialBank};
use base::Fault;
use std::io;

const THICK: Attempt = Attempt {
    ticket: 1,
    haze: 0xC0C0_C0C0_C0C0_C0C0,
};

const THIN: Attempt = Attempt {
    ticket: 2,
    haze: 0x2020_2020_2020_2020,
};

const LAMP: Attempt = Attempt {
    ticket: 3,
    haze: 0x0000_0000_0000_0080,
};

// Its own loop: a line has two `Shades`, and a type to print both would be longer.
fn tell_view(rt: &impl Print, view: &View) -> io::Result<()> {
    for maker in 0..8 {
        let shown = Shades {
            maker,
            words: &view.shown,
        };
        let below = Shades {
            maker,
            words: &view.below,
        };
        println!(rt; "  maker {maker} shows {shown} over {below}")?;
    }
    Ok(())
}

fn tell_row(rt: &impl Print, words: &[u64; PIXELS]) -> io::Result<()> {
    tell_makers(rt, |maker| Shades { maker, words })
}

fn tell_refusal(rt: &impl Print, fault: Fault) -> io::Result<()> {
    println!(rt; "  refused with {}", fault.number())
}

/// Tells what a trial shows over what stands below, and what stands below after its end.
fn tell_trial<B: Bank>(
    rt: &impl Print,
    trial: &mut TrialBank<'_, B>,
    attempt: Attempt,
    end: End,
) -> io::Result<()> {
    let Attempt { ticket, haze } = attempt;
    println!(rt;
        "trial {ticket}, a haze of {haze:016x}: what the trial shows over what stands below"
    )?;
    match try_haze(trial, attempt, end) {
        Ok(view) => tell_view(rt, &view)?,
        Err(fault) => tell_refusal(rt, fault)?,
    }
    // A match: `End` is another crate's, and nothing else prints it.
    let ended = match end {
        End::Keep => "kept",
        End::Drop => "dropped",
    };
    println!(rt; "trial {ticket} is {ended}; below stands")?;
    tell_row(rt, &row(trial.below()))
}

/// A lamp is tried and kept in a trial over another, which is dropped.
fn tell_nested<B: Bank>(rt: &impl Print, trial: &mut TrialBank<'_, B>) -> io::Result<()> {
    println!(rt; "trial 3, and over it another with a lamp for maker 7")?;
    match keep_in_a_dropped(trial, LAMP) {
        Ok(nested) => {
            tell_view(rt, &nested.upper)?;
            println!(rt;
                "the upper one is kept: trial 3 shows it, and below it all stands as before"
            )?;
            tell_view(rt, &nested.lower)?;
        }
        Err(fault) => tell_refusal(rt, fault)?,
    }
    println!(rt; "trial 3 is dropped; below stands")?;
    tell_row(rt, &row(trial.below()))
}

/// A write past the row is refused by the bank below, through the trial bank.
fn tell_past<B: Bank>(rt: &impl Print, trial: &mut TrialBank<'_, B>) -> io::Result<()> {
    println!(rt; "a word written at address {PIXELS}")?;
    match trial.write(PIXELS, LAMP.haze) {
        Ok(()) => println!(rt; "  stands there"),
        Err(fault) => tell_refusal(rt, fault),
    }
}

/// Tries changes of the row in a bank, and tells each trial.
pub fn tell_trials<B: Bank>(rt: &impl Print, bank: &mut B) -> io::Result<()> {
    let mut trial = TrialBank::new(bank);
    tell_trial(rt, &mut trial, THICK, End::Drop)?;
    tell_trial(rt, &mut trial, THIN, End::Keep)?;
    tell_nested(rt, &mut trial)?;
    tell_past(rt, &mut trial)
}
