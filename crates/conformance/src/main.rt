//! Holds the instruction sets against cases worked out by hand, and against a second decoder and executor on many
//! generated words; asked for `banks`, also the banks and trials against a second bank. Any difference fails the run.
#![tactic(auto)]

mod banks;
mod bits;
mod cases;
mod compare;
mod generator;
mod lent;
mod manual;
mod subfield;

use anyhow::anyhow;
use banks::SURVEY_CALLS;
use cases::Case;
use generator::Generator;
use isa::marked_cases;
use lent::{misplace_token, survey_lent};
use manual::{CARDINAL, GOLD, Manual};
use std::alloc::AllocError;
use std::num::Saturating;
use std::{env, io};

/// How many words are generated for each set.
const WORDS: u32 = 200_000;

/// How many differences are told one by one.
const TOLD: u32 = 20;

fn main(rt: HostRuntime) -> anyhow::Result<()> {
    println!(rt; "{} marked cases are part of the proof", marked_cases())?;
    let mut differences = Saturating(0);
    for manual in [&GOLD, &CARDINAL] {
        differences += try_cases(&rt, manual)?;
        differences += survey(&rt, manual)?;
    }
    if differences.0 > 0 {
        return Err(anyhow!("the instruction sets differ from their manuals"));
    }
    // `render` asks so too: no crate lies below the two programs alone.
    let asked = env::args(&rt).is_ok_and(|words| words
        .skip(1)
        .any(|word| word.as_str() == "banks"));
    if asked && try_banks(&rt)? > 0 {
        return Err(anyhow!("the banks differ from their rules"));
    }
    Ok(())
}

/// Holds banks of several sizes, and trials over them, against a bank that is written another way.
fn try_banks(rt: &(impl Print + AllocGlobal)) -> anyhow::Result<u32> {
    let mut numbers = Generator::new(2);
    let mut differences = Saturating(misplace_token());
    println!(rt; "a token for the wrong trial bank: {differences} differences")?;
    differences += try_sizes(rt, "word", &[0, 1, 5, 1030, 65_540], |count| {
        survey_lent::<u64>(rt.alloc(), count, &mut numbers)
    })?;
    differences += try_sizes(rt, "byte", &[0, 7, 8, 20, 8243, 524_300], |count| {
        survey_lent::<u8>(rt.alloc(), count, &mut numbers)
    })?;
    Ok(differences.0)
}

/// Counts the differences that a survey finds at banks of these sizes.
fn try_sizes<F: FnMut(usize) -> Result<u32, AllocError>>(
    rt: &impl Print,
    kind: &str,
    counts: &[usize],
    mut survey: F,
) -> anyhow::Result<u32>
    requires { F.IsAlwaysCallable survey }
{
    let mut differences = Saturating(0);
    for count in counts {
        let found = survey(*count)?;
        println!(rt;
            "a {kind} bank, {count} lent, and trials over it: {SURVEY_CALLS} calls, {found} differences"
        )?;
        differences += found;
    }
    Ok(differences.0)
}

/// Counts the cases that come out wrong.
fn try_cases(rt: &impl Print, manual: &Manual) -> io::Result<u32> {
    let table = manual.table;
    let mut wrong = Saturating(0);
    for case in manual.cases {
        if !is_right(manual, case) {
            println!(rt; "{table:?} {:08x}: wrong", case.word)?;
            wrong += 1;
        }
    }
    for word in manual.illegal_words {
        if manual.decode(*word).is_some() || table.decode(*word).is_some() {
            println!(rt; "{table:?} {word:08x}: legal")?;
            wrong += 1;
        }
    }
    let legal = manual.cases.len();
    let illegal = manual.illegal_words.len();
    println!(rt; "{table:?}: {legal} worked cases, {illegal} illegal words, {wrong} wrong")?;
    Ok(wrong.0)
}

fn is_right(manual: &Manual, case: &Case) -> bool {
    let before = case.registers();
    manual.written(case.word, &before) == case.new
        && manual.decode(case.word).is_some()
        && manual.answers_alike(case.word, &before)
}

/// Whether all answers on one generated word, with contents and a damaged record, are alike.
fn is_alike(manual: &Manual, word: u32, numbers: &mut Generator) -> bool {
    let before = numbers.registers();
    manual.answers_alike(word, &before) && manual.encodes_rightly(&numbers.record())
}

/// Counts the differences over generated words.
fn survey(rt: &impl Print, manual: &Manual) -> io::Result<u32> {
    let table = manual.table;
    let mut numbers = Generator::new(1);
    let mut legal = Saturating(0);
    let mut differences = Saturating(0);
    for _ in 0..WORDS {
        let word = numbers.word();
        if manual.decode(word).is_some() {
            legal += 1;
        }
        if !is_alike(manual, word, &mut numbers) {
            if differences.0 < TOLD {
                println!(rt; "{table:?} {word:08x}: a difference")?;
            }
            differences += 1;
        }
    }
    let illegal = WORDS.saturating_sub(legal.0);
    println!(rt;
        "{table:?}: {WORDS} words, {legal} legal, {illegal} illegal, {differences} differences"
    )?;
    Ok(differences.0)
}
