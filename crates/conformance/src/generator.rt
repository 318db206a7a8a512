//! Test words and register contents from a fixed seed.
ghost use Rattle.std.specs.Prelude.{◌<◌};

use crate::bits::Registers;
use bank::End;
use codec::{Instruction, NOP, Table};
use std::array;

/// A generator of pseudo random numbers (splitmix64): one seed always gives the same numbers.
#[derive(Clone, Copy)]
pub struct Generator {
    state: u64,
}

/// The bytes at which carries and signs change.
const EDGES: [u8; 4] = [0x00, 0x7f, 0x80, 0xff];

// What is drawn by lot is a match on a number: an enum would be made of the number by the same match.
impl Generator {
    pub fn new(seed: u64) -> Generator {
        Generator { state: seed }
    }

    // Not that of Iterator: the numbers have no end, and each use would take an Option apart.
    pub fn next(&mut self) -> u64 {
        self.state = self.state.wrapping_add(0x9e37_79b9_7f4a_7c15);
        let x = self.state;
        let x = (x ^ (x >> 30)).wrapping_mul(0xbf58_476d_1ce4_e5b9);
        let x = (x ^ (x >> 27)).wrapping_mul(0x94d0_49bb_1331_11eb);
        x ^ (x >> 31)
    }

    /// A number below `n`, or 0 where `n` is 0.
    pub fn below(&mut self, n: u32) -> u32
        ensures { 0 < n → result < n }
    {
        if n == 0 {
            return 0;
        }
        (self.next() % u64::from(n)) as u32
    }

    /// An address of a bank of `size` words, or one past it, mostly near an end of what is open.
    pub fn address(&mut self, size: usize) -> usize {
        match self.below(8) {
            0 => usize::MAX,
            1 => size.wrapping_sub(2).wrapping_add(self.below(4) as usize),
            2 => 1022 + self.below(4) as usize,
            3 => 65_534 + self.below(4) as usize,
            _ => self.below(16) as usize,
        }
    }

    /// A way to end a trial.
    pub fn end(&mut self) -> End {
        if self.below(2) == 0 {
            End::Keep
        } else {
            End::Drop
        }
    }

    /// A word of one of the two kinds below.
    pub fn word(&mut self) -> u32 {
        if self.below(4) == 0 {
            self.uniform_word()
        } else {
            self.near_legal_word()
        }
    }

    /// Any word, mostly an illegal one.
    fn uniform_word(&mut self) -> u32 {
        (self.next() >> 32) as u32
    }

    /// A word that is legal, or differs little from one that is.
    fn near_legal_word(&mut self) -> u32 {
        let word = self.plausible_word();
        if self.below(4) == 0 {
            return word ^ (1 << self.below(32));
        }
        word
    }

    fn plausible_word(&mut self) -> u32 {
        match self.below(16) {
            0 => 0b100000 << 26 | self.transfer_fields(),
            1 => 0b100001 << 26 | self.transfer_fields(),
            2 => 0b100010 << 26 | self.transfer_fields(),
            3 => 0b100011 << 26 | self.transfer_fields(),
            4 => 0b111100 << 26 | self.half_zero(1 << 26),
            5 => self.below(64) << 26 | self.calculation_fields(),
            _ => 0b101010 << 26 | self.calculation_fields(),
        }
    }

    /// rD, a field that should be zero, and an address.
    fn transfer_fields(&mut self) -> u32 {
        let rd = self.below(32);
        let zero = self.half_zero(32);
        rd << 21 | zero << 16 | self.below(1 << 16)
    }

    /// rD, rA, rB, PPP, WW and a function number.
    fn calculation_fields(&mut self) -> u32 {
        let rd = self.below(32);
        let ra = self.below(32);
        let rb = self.half_zero(32);
        let ppp = self.ppp();
        let ww = self.below(4);
        rd << 21 | ra << 16 | rb << 11 | ppp << 8 | ww << 6 | self.below(21)
    }

    /// A number below `n`, which is zero in half of the cases.
    fn half_zero(&mut self, n: u32) -> u32 {
        if self.below(2) == 0 { 0 } else { self.below(n) }
    }

    fn ppp(&mut self) -> u32 {
        match self.below(8) {
            0..=3 => 0,
            4..=6 => self.below(5),
            _ => self.below(8),
        }
    }

    /// The instruction of a plausible word with one field replaced by any number, or one that lacks a word.
    pub fn record(&mut self) -> Instruction {
        let word = self.plausible_word();
        let mut instruction = Table::Gold.decode(word).unwrap_or(NOP);
        let number = self.below(64) as u8;
        match self.below(8) {
            0 => instruction.rd = number,
            1 => instruction.ra = number,
            2 => instruction.rb = number,
            3 => instruction.amount = number,
            4 => instruction.ppp = number,
            5 => instruction.ww = number,
            6 => instruction.address = u16::from(number),
            _ => {}
        }
        instruction
    }

    /// The contents of a register.
    fn contents(&mut self) -> u64 {
        match self.below(8) {
            0 => 0,
            1 => u64::MAX,
            2 => 1 << self.below(64),
            3 => self.edge_bytes(),
            4 => self.small_numbers(),
            _ => self.next(),
        }
    }

    fn edge_bytes(&mut self) -> u64 {
        u64::from_be_bytes(array::from_fn(|_| EDGES[self.below(4) as usize]))
    }

    /// A number below 16 in each subfield of one of the widths.
    fn small_numbers(&mut self) -> u64 {
        let size = 3 + self.below(4);
        (0..64u32 >> size).fold(0, |contents, k| {
            contents | u64::from(self.below(16)) << ((k << size) % 64)
        })
    }

    /// The contents of the registers of a word.
    pub fn registers(&mut self) -> Registers {
        Registers {
            a: self.contents(),
            b: self.contents(),
            d: self.contents(),
        }
    }
}
