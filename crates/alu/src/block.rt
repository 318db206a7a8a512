//! Each function on one block of the two contents. A struct's width is the block's.
ghost use Rattle.std.specs.Prelude.{◌≡◌, ◌+◌, ◌-◌, ◌*◌, ◌/◌, ◌%◌, ◌^◌, ◌<◌};
ghost use Rattle.alu.specs.Blocks.{sum, difference, half_of, product, swapped, distance, shifted_left, shifted_right, shifted_signed, quotient, remainder};
ghost use Rattle.alu.specs.Roots.{root_of};
ghost use Rattle.base.specs.Words.{bits};

use crate::roots::root;
use base::{FieldFunction, Width};

/// The sum, its carry dropped.
#[derive(Clone, Copy)]
pub struct Add(pub Width);

impl FieldFunction for Add {
    ghost meaning = { λ f. sum (bits f.0) };

    fn apply(&self, p: u64, q: u64) -> u64 {
        p.wrapping_add(q) & self.0.ones()
    }
}

/// The difference, its borrow dropped.
#[derive(Clone, Copy)]
pub struct Subtract(pub Width);

impl FieldFunction for Subtract {
    ghost meaning = { λ f. difference (bits f.0) };

    fn apply(&self, p: u64, q: u64) -> u64 {
        p.wrapping_sub(q) & self.0.ones()
    }
}

/// The subfields of a pair: the even one is its upper half.
#[derive(Clone, Copy)]
pub enum Half {
    Even,
    Odd,
}

impl Half {
    /// The subfield of the pair that a block is.
    fn of(self, reach: Width, p: u64) -> u64
        ensures value { result ≡ half_of self (bits reach) p }
        ensures below { result < 2 ^ 32 }
    {
        let size = reach.bits() / 2;
        let ones = reach.ones() >> size;
        match self {
            Half::Even => p >> size & ones,
            Half::Odd => p & ones,
        }
    }
}

/// The product of the even or of the odd subfields.
#[derive(Clone, Copy)]
pub struct Multiply {
    pub half: Half,
    pub reach: Width,
}

impl FieldFunction for Multiply {
    ghost meaning = { λ f. product f.half (bits f.reach) };

    fn apply(&self, p: u64, q: u64) -> u64 {
        self.half.of(self.reach, p) * self.half.of(self.reach, q)
    }
}

/// The lower half above the upper one.
#[derive(Clone, Copy)]
pub struct SwapHalves(pub Width);

impl FieldFunction for SwapHalves {
    ghost meaning = { λ f p q. swapped (bits f.0) p };

    fn apply(&self, p: u64, _q: u64) -> u64 {
        (Half::Odd.of(self.0, p) << (self.0.bits() / 2)) + Half::Even.of(self.0, p)
    }
}

/// How far a shift by q goes.
fn distance(reach: Width, q: u64) -> u64
    ensures value { result ≡ distance (bits reach) q }
    ensures below { result < bits reach }
{
    q & (u64::from(reach.bits()) - 1)
}

/// By the low 3, 4, 5 or 6 bits of the second operand, as the other shifts.
#[derive(Clone, Copy)]
pub struct ShiftLeft(pub Width);

impl FieldFunction for ShiftLeft {
    ghost meaning = { λ f. shifted_left (bits f.0) };

    fn apply(&self, p: u64, q: u64) -> u64 {
        (p << distance(self.0, q)) & self.0.ones()
    }
}

/// Zeros come in.
#[derive(Clone, Copy)]
pub struct ShiftRight(pub Width);

impl FieldFunction for ShiftRight {
    ghost meaning = { λ f. shifted_right (bits f.0) };

    fn apply(&self, p: u64, q: u64) -> u64 {
        p >> distance(self.0, q)
    }
}

/// Copies of the top bit come in.
#[derive(Clone, Copy)]
pub struct ShiftRightSigned(pub Width);

impl FieldFunction for ShiftRightSigned {
    ghost meaning = { λ f. shifted_signed (bits f.0) };

    fn apply(&self, p: u64, q: u64) -> u64 {
        let by = distance(self.0, q);
        let ones = self.0.ones();
        if (p >> (self.0.bits() - 1)) % 2 == 1 {
            p >> by | ones - (ones >> by)
        } else {
            p >> by
        }
    }
}

/// Unsigned; a zero divisor gives 0.
#[derive(Clone, Copy)]
pub struct Divide;

impl FieldFunction for Divide {
    ghost meaning = { λ _. quotient };

    fn apply(&self, p: u64, q: u64) -> u64 {
        p.checked_div(q).unwrap_or(0)
    }
}

/// Unsigned; a zero divisor gives 0 here too.
#[derive(Clone, Copy)]
pub struct Remainder;

impl FieldFunction for Remainder {
    ghost meaning = { λ _. remainder };

    fn apply(&self, p: u64, q: u64) -> u64 {
        p.checked_rem(q).unwrap_or(0)
    }
}

/// The whole root of the first operand.
#[derive(Clone, Copy)]
pub struct SquareRoot;

impl FieldFunction for SquareRoot {
    ghost meaning = { λ _ p q. root_of p };

    fn apply(&self, p: u64, _q: u64) -> u64 {
        root(p)
    }
}

/// A function with its second operand fixed.
#[derive(Clone, Copy)]
pub struct Fixed<F> {
    pub function: F,
    pub second: u64,
}

impl<F: FieldFunction> FieldFunction for Fixed<F> {
    ghost meaning = { λ f p q. F.FieldFunction.meaning f.function p f.second };

    fn apply(&self, p: u64, _q: u64) -> u64 {
        self.function.apply(p, self.second)
    }
}
