//! The words of two instruction sets, Gold and Cardinal: what each word means, and the one word that means it.
#![tactic(auto)]

mod decode;
mod encode;
mod instruction;
mod table;
mod word;

pub use decode::NOP;
pub use instruction::{Class, Instruction, Kind, Mnemonic, Shape, Span};
pub use table::Table;
