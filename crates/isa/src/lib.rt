//! Instruction sets by their meaning: what each word asks for, and what it makes of the contents of two registers.
#![tactic(auto)]

mod calculation;
mod marked;
mod operation;
mod set;

pub use marked::marked_cases;
pub use operation::Operation;
pub use set::InstructionSet;
