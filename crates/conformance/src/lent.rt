//! The banks over lent words and lent bytes, each beside a model of its words.
use crate::banks::{Differences, Model, Survey, misplace};
use crate::generator::Generator;
use bank::{ByteBank, TrialBank, WordBank};
use std::alloc::{AllocError, Global};

/// The most words that a bank has.
const LIMIT: usize = 65_536;

/// What is lent to a bank.
pub trait Lent: Copy + PartialEq {
    /// How many of these are a word.
    const WORD: usize;

    fn any(numbers: &mut Generator) -> Self;

    /// The words of a bank over these.
    fn words(heap: Global, lent: &[Self]) -> Result<Vec<u64>, AllocError>;

    /// Counts the words of a bank over these that are not the model's. It takes no memory.
    fn compare(found: &mut Differences, lent: &[Self], words: &[u64]);

    /// Surveys a bank over these.
    fn hold(survey: &mut Survey<'_>, lent: &mut [Self]) -> Result<(), AllocError>;
}

/// The word of eight bytes, joined by shifts.
fn joined(bytes: &[u8]) -> u64 {
    bytes
        .iter()
        .fold(0, |word, byte| word << 8 | u64::from(*byte))
}

impl Lent for u64 {
    const WORD: usize = 1;

    fn any(numbers: &mut Generator) -> u64 {
        numbers.next()
    }

    fn words(heap: Global, lent: &[u64]) -> Result<Vec<u64>, AllocError> {
        lent.iter().take(LIMIT).copied().collect(heap)
    }

    fn compare(found: &mut Differences, lent: &[u64], words: &[u64]) {
        found.compare_lists(lent, words, 0);
    }

    fn hold(survey: &mut Survey<'_>, lent: &mut [u64]) -> Result<(), AllocError> {
        survey.hold(&mut WordBank::new(lent))
    }
}

impl Lent for u8 {
    const WORD: usize = 8;

    fn any(numbers: &mut Generator) -> u8 {
        numbers.below(256) as u8
    }

    fn words(heap: Global, lent: &[u8]) -> Result<Vec<u64>, AllocError> {
        lent.chunks_exact(8).take(LIMIT).map(joined).collect(heap)
    }

    fn compare(found: &mut Differences, lent: &[u8], words: &[u64]) {
        for (bytes, word) in lent.chunks_exact(8).zip(words) {
            found.note(joined(bytes) == *word);
        }
    }

    fn hold(survey: &mut Survey<'_>, lent: &mut [u8]) -> Result<(), AllocError> {
        survey.hold(&mut ByteBank::new(lent))
    }
}

/// Holds a bank over `count` elements against its model, and counts the differences.
pub fn survey_lent<T: Lent>(
    heap: Global,
    count: usize,
    numbers: &mut Generator,
) -> Result<u32, AllocError> {
    let mut lent: Vec<T> = (0..count).map(|_| T::any(numbers)).collect(heap)?;
    let old = lent.clone()?;
    let model = Model {
        words: T::words(heap, &old)?,
        open: LIMIT,
    };
    let mut survey = Survey::new(model, numbers);
    T::hold(&mut survey, &mut lent)?;
    let Survey {
        model,
        mut found,
        ..
    } = survey;
    T::compare(&mut found, &lent, &model.words);
    found.compare_lists(&lent, &old, model.words.len().saturating_mul(T::WORD));
    Ok(found.count)
}

/// Gives a token to the wrong trial bank.
pub fn misplace_token() -> u32 {
    let mut words = [1, 2, 3];
    let mut bytes = [0; 16];
    let mut here = WordBank::new(&mut words);
    let mut there = ByteBank::new(&mut bytes);
    misplace(
        &mut TrialBank::new(&mut here),
        &mut TrialBank::new(&mut there),
    )
}
