//! What the functions of both instruction sets make of one block of their contents.
#![tactic(auto)]

mod block;
mod roots;

pub use block::{
    Add, Divide, Fixed, Half, Multiply, Remainder, ShiftLeft, ShiftRight, ShiftRightSigned,
    SquareRoot, Subtract, SwapHalves,
};
pub use roots::root;
