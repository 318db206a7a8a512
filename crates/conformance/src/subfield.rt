//! Arithmetic on subfields, one bit at a time. Bit 0 of a register and of a subfield is its most
//! significant one.

/// Bit `i` of a register.
pub fn bit(register: u64, i: u32) -> bool {
    (register >> (63 - i % 64)) % 2 == 1
}

/// The register with bit `i` set or cleared.
fn with_bit(register: u64, i: u32, on: bool) -> u64 {
    let place = 1u64 << (63 - i % 64);
    if on {
        register | place
    } else {
        register & !place
    }
}

/// A register whose first `count` bits are what `bit_at` says of each place. The others are clear.
pub(crate) fn gathered<F: Fn(u32) -> bool>(count: u32, bit_at: F) -> u64
    requires { F.IsAlwaysCallable bit_at }
{
    (0..count).fold(0, |register, i| with_bit(register, i, bit_at(i)))
}

/// A subfield taken out of its register. Its bits are the first `width` ones of `bits`.
#[derive(Clone, Copy)]
pub struct Subfield {
    width: u32,
    bits: u64,
}

/// What a division gives.
#[derive(Clone, Copy)]
pub struct Division {
    pub quotient: Subfield,
    pub remainder: Subfield,
}

/// The bits of an instruction word.
impl From<u32> for Subfield {
    fn from(word: u32) -> Subfield {
        Subfield {
            width: 32,
            bits: u64::from(word) << 32,
        }
    }
}

impl Subfield {
    fn zero(width: u32) -> Subfield {
        Subfield { width, bits: 0 }
    }

    fn from_fn<F: Fn(u32) -> bool>(width: u32, bit_at: F) -> Subfield
        requires { F.IsAlwaysCallable bit_at }
    {
        Subfield {
            width,
            bits: gathered(width, bit_at),
        }
    }

    /// The `width` bits of `register` from bit `start` on.
    pub fn read(register: u64, start: u32, width: u32) -> Subfield {
        Subfield::from_fn(width, |i| bit(register, start.wrapping_add(i)))
    }

    /// `register` with these bits from bit `start` on.
    pub fn write(&self, register: u64, start: u32) -> u64 {
        (0..self.width).fold(register, |new, i| {
            with_bit(new, start.wrapping_add(i), self.bit(i))
        })
    }

    /// Bit `i`; past the last one it is clear.
    pub fn bit(&self, i: u32) -> bool {
        i < self.width && bit(self.bits, i)
    }

    fn set(&mut self, i: u32, on: bool) {
        self.bits = with_bit(self.bits, i, on);
    }

    /// The number that the last `count` bits make.
    pub fn low_bits(&self, count: u32) -> u32 {
        (self.width.saturating_sub(count)..self.width).fold(
            0,
            |number, i| number << 1 | u32::from(self.bit(i)),
        )
    }

    /// The same number at twice the width.
    fn widened(&self) -> Subfield {
        Subfield::from_fn(self.width.wrapping_mul(2), |i| {
            i >= self.width && self.bit(i - self.width)
        })
    }

    fn inverted(&self) -> Subfield {
        Subfield::from_fn(self.width, |i| !self.bit(i))
    }

    fn is_zero(&self) -> bool {
        (0..self.width).all(|i| !self.bit(i))
    }

    /// Whether this number is `other` or more: the first bit that differs decides.
    fn at_least(&self, other: &Subfield) -> bool {
        (0..self.width)
            .find(|i| self.bit(*i) != other.bit(*i))
            .is_none_or(|i| self.bit(i))
    }

    /// The sum by a carry that goes from the last bit to the first. The last carry is lost.
    fn with_carry(&self, other: &Subfield, carry_in: bool) -> Subfield {
        // A loop: a fold would hand on the sum and the carry in a pair.
        let mut sum = Subfield::zero(self.width);
        let mut carry = carry_in;
        for i in (0..self.width).rev() {
            let p = self.bit(i);
            let q = other.bit(i);
            sum.set(i, (p != q) != carry);
            carry = (p && q) || (carry && (p || q));
        }
        sum
    }

    pub fn plus(&self, other: &Subfield) -> Subfield {
        self.with_carry(other, false)
    }

    pub fn minus(&self, other: &Subfield) -> Subfield {
        self.with_carry(&other.inverted(), true)
    }

    pub fn shifted_left(&self, by: u32) -> Subfield {
        Subfield::from_fn(self.width, |i| self.bit(i.saturating_add(by)))
    }

    /// The bits moved to the right, with `fill` in the places that they leave.
    pub fn shifted_right(&self, by: u32, fill: bool) -> Subfield {
        Subfield::from_fn(self.width, |i| if i < by { fill } else { self.bit(i - by) })
    }

    // Two methods, as the two products that call them: one would take a flag for which half.
    pub fn first_half(&self) -> Subfield {
        Subfield::read(self.bits, 0, self.width / 2)
    }

    pub fn second_half(&self) -> Subfield {
        Subfield::read(self.bits, self.width / 2, self.width / 2)
    }

    pub fn halves_swapped(&self) -> Subfield {
        let half = self.width / 2;
        Subfield::from_fn(self.width, |i| {
            self.bit(if i < half { i + half } else { i - half })
        })
    }

    /// The unsigned product at twice the width, by shifts and sums.
    pub fn times(&self, other: &Subfield) -> Subfield {
        let addend = self.widened();
        (0..other.width).fold(Subfield::zero(addend.width), |product, i| {
            let doubled = product.shifted_left(1);
            if other.bit(i) {
                doubled.plus(&addend)
            } else {
                doubled
            }
        })
    }

    /// Long division, one bit of the quotient at a time. By zero it gives zeros.
    pub fn divided(&self, divisor: &Subfield) -> Division {
        let mut quotient = Subfield::zero(self.width);
        let mut remainder = Subfield::zero(self.width);
        if divisor.is_zero() {
            return Division {
                quotient,
                remainder,
            };
        }
        // A loop: a fold would hand on the quotient and the remainder in a pair.
        for i in 0..self.width {
            let carried_out = remainder.bit(0);
            remainder = remainder.shifted_left(1);
            remainder.set(self.width.wrapping_sub(1), self.bit(i));
            if carried_out || remainder.at_least(divisor) {
                remainder = remainder.minus(divisor);
                quotient.set(i, true);
            }
        }
        Division {
            quotient,
            remainder,
        }
    }

    /// The largest number whose square is not above this one, tried bit by bit.
    pub fn root(&self) -> Subfield {
        let half = self.width / 2;
        (0..half)
            .fold(Subfield::zero(half), |root, i| {
                let mut larger = root;
                larger.set(i, true);
                if self.at_least(&larger.times(&larger)) {
                    larger
                } else {
                    root
                }
            })
            .widened()
    }
}
