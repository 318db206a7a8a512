//! Words whose meaning was worked out by hand.

use crate::bits::Registers;

/// A legal word, the contents of rA and rB, and what rD holds after it. Before it rD holds `OLD`.
#[derive(Clone, Copy)]
pub struct Case {
    pub word: u32,
    pub a: u64,
    pub b: u64,
    pub new: u64,
}

pub const OLD: u64 = 0xAAAAAAAAAAAAAAAA;

pub const GOLD: &[Case] = &[
    // Sums and differences stay in their subfields.
    Case {
        word: 0xA8611006,
        a: 0x00FF000000000000,
        b: 0x0001000000000000,
        new: 0,
    },
    Case {
        word: 0xA8611046,
        a: 0x00FF000000000000,
        b: 0x0001000000000000,
        new: 1 << 56,
    },
    Case {
        word: 0xA8611086,
        a: 0x00000000FFFFFFFF,
        b: 0x0000000000000001,
        new: 0,
    },
    Case {
        word: 0xA86110C6,
        a: 0x00000000FFFFFFFF,
        b: 0x0000000000000001,
        new: 1 << 32,
    },
    Case {
        word: 0xA8611007,
        a: 0,
        b: 0x0100000000000000,
        new: 0xFF00000000000000,
    },
    // PPP names bytes.
    Case {
        word: 0xA8611446,
        a: 0x00FF000000000000,
        b: 1 << 48,
        new: 0xAA00AA00AA00AA00,
    },
    // Products fill the places of their pairs.
    Case {
        word: 0xA8611088,
        a: !0 << 32,
        b: !0 << 32,
        new: 0xFFFFFFFE00000001,
    },
    Case {
        word: 0xA8611009,
        a: 0x00FF00FF00FF00FF,
        b: 0x00FF000200010000,
        new: 0xFE0101FE00FF0000,
    },
    Case {
        word: 0xA861000A,
        a: 0xFF00100002000000,
        b: 0x1111111111111111,
        new: 0xFE01010000040000,
    },
    // A shift takes the low bits of its distance: five of an amount at most.
    Case {
        word: 0xA861480E,
        a: 0x8100000000000000,
        b: 0,
        new: 0x0200000000000000,
    },
    Case {
        word: 0xA8611051,
        a: 0x8000400000000000,
        b: 0x000F001F00000000,
        new: 0xFFFF << 48,
    },
    Case {
        word: 0xA861F8D2,
        a: 0x8000000000000000,
        b: 0,
        new: 0xFFFFFFFF00000000,
    },
    Case {
        word: 0xA86110CF,
        a: 0x8000000000000000,
        b: 0x000000000000007F,
        new: 1,
    },
    // Halves are swapped.
    Case {
        word: 0xA861000C,
        a: 0x12F0000000000000,
        b: 0,
        new: 0x210F000000000000,
    },
    // What calculates nothing leaves rD as it is.
    Case {
        word: 0x80600010,
        a: 1,
        b: 2,
        new: OLD,
    },
    Case {
        word: 0xF0000000,
        a: 1,
        b: 2,
        new: OLD,
    },
];

pub const CARDINAL: &[Case] = &[
    // The number of a square in Gold is that of a shift here.
    Case {
        word: 0xA861100A,
        a: 0x0300000000000000,
        b: 0x0200000000000000,
        new: 0x0C << 56,
    },
    // A zero divisor gives zero.
    Case {
        word: 0xA861100E,
        a: 0x0700000000000000,
        b: 0x0200000000000000,
        new: 0x03 << 56,
    },
    Case {
        word: 0xA861100E,
        a: !0,
        b: 0x0000000000000010,
        new: 0x000000000000000F,
    },
    Case {
        word: 0xA86110CF,
        a: !0,
        b: 0x8000000000000001,
        new: 0x7FFFFFFFFFFFFFFE,
    },
    // Roots are rounded down.
    Case {
        word: 0xA8610012,
        a: 0x0001030408090F10,
        b: 0,
        new: 0x0001010202030304,
    },
    Case {
        word: 0xA86100D2,
        a: !0,
        b: 0,
        new: 0x00000000FFFFFFFF,
    },
];

/// A PPP of 5, a product of width 64, a square with an rB, and fields that should be zero.
pub const ILLEGAL_IN_GOLD: &[u32] = &[0xA8611546, 0xA86110C8, 0xA861100A, 0x80610010, 0xF0000001];

/// A PPP, a root with an rB, and a function past the last one.
pub const ILLEGAL_IN_CARDINAL: &[u32] = &[0xA8611106, 0xA8611012, 0xA8610013];

impl Case {
    /// The registers before the word.
    pub fn registers(&self) -> Registers {
        Registers {
            a: self.a,
            b: self.b,
            d: OLD,
        }
    }
}
