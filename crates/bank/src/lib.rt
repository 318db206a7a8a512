//! Banks of 64-bit words by their meaning: words that the caller lends, bytes that the caller lends, and trials over any bank.
#![tactic(auto)]

mod bytes;
mod store;
mod token;
mod trial;
mod words;

pub use bytes::ByteBank;
pub use store::{Bank, MAX_WORDS};
pub use token::{End, Token, Unspent};
pub use trial::{TRIAL_WORDS, TrialBank};
pub use words::WordBank;
