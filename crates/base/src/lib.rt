//! A 64-bit word cut into fields of one width, and the faults of every call.
#![tactic(auto)]

mod fault;
mod field;
mod width;
mod word;

pub use fault::Fault;
pub use width::Width;
pub use word::{FieldFunction, merge, zip_fields};
