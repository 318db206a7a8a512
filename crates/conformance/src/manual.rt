//! The instruction words of both sets as bit patterns, and a decoder that follows them bit by bit.
//! It is slow and plain on purpose: it shares no code with the decoder that it is compared with, only
//! the words for an answer, that is the mnemonics, the names of the sets and the record of an instruction.

use crate::cases::{self, Case};
use crate::subfield::Subfield;
use codec::{Instruction, Mnemonic, Table};

/// An instruction set as its manual has it, with words whose meaning was worked out by hand.
pub struct Manual {
    pub table: Table,
    rows: [Row; 23],
    pub cases: &'static [Case],
    pub illegal_words: &'static [u32],
}

/// The bit pattern of an instruction, the most significant bit first. `0` and `1` are fixed bits, and
/// the letters are the bits of a field: `d` rD, `a` rA, `b` rB, `i` a shift amount, `p` PPP, `w` WW
/// and `m` an address.
struct Row([u8; 32], Mnemonic);

// Each set has its rows in full, to be read beside its manual.
pub static GOLD: Manual = Manual {
    table: Table::Gold,
    rows: [
        Row(*b"101010dddddaaaaabbbbbpppww000001", Mnemonic::Vand),
        Row(*b"101010dddddaaaaabbbbbpppww000010", Mnemonic::Vor),
        Row(*b"101010dddddaaaaabbbbbpppww000011", Mnemonic::Vxor),
        Row(*b"101010dddddaaaaa00000pppww000100", Mnemonic::Vnot),
        Row(*b"101010dddddaaaaa00000pppww000101", Mnemonic::Vmov),
        Row(*b"101010dddddaaaaabbbbbpppww000110", Mnemonic::Vadd),
        Row(*b"101010dddddaaaaabbbbbpppww000111", Mnemonic::Vsub),
        Row(*b"101010dddddaaaaabbbbbpppww001000", Mnemonic::Vmuleu),
        Row(*b"101010dddddaaaaabbbbbpppww001001", Mnemonic::Vmulou),
        Row(*b"101010dddddaaaaa00000pppww001010", Mnemonic::Vsqeu),
        Row(*b"101010dddddaaaaa00000pppww001011", Mnemonic::Vsqou),
        Row(*b"101010dddddaaaaa00000pppww001100", Mnemonic::Vrtth),
        Row(*b"101010dddddaaaaabbbbbpppww001101", Mnemonic::Vsll),
        Row(*b"101010dddddaaaaaiiiiipppww001110", Mnemonic::Vslli),
        Row(*b"101010dddddaaaaabbbbbpppww001111", Mnemonic::Vsrl),
        Row(*b"101010dddddaaaaaiiiiipppww010000", Mnemonic::Vsrli),
        Row(*b"101010dddddaaaaabbbbbpppww010001", Mnemonic::Vsra),
        Row(*b"101010dddddaaaaaiiiiipppww010010", Mnemonic::Vsrai),
        Row(*b"100000ddddd00000mmmmmmmmmmmmmmmm", Mnemonic::Vld),
        Row(*b"100001ddddd00000mmmmmmmmmmmmmmmm", Mnemonic::Vsd),
        Row(*b"100010ddddd00000mmmmmmmmmmmmmmmm", Mnemonic::Vbez),
        Row(*b"100011ddddd00000mmmmmmmmmmmmmmmm", Mnemonic::Vbnez),
        Row(*b"11110000000000000000000000000000", Mnemonic::Vnop),
    ],
    cases: cases::GOLD,
    illegal_words: cases::ILLEGAL_IN_GOLD,
};

pub static CARDINAL: Manual = Manual {
    table: Table::Cardinal,
    rows: [
        Row(*b"101010dddddaaaaabbbbb000ww000001", Mnemonic::Vand),
        Row(*b"101010dddddaaaaabbbbb000ww000010", Mnemonic::Vor),
        Row(*b"101010dddddaaaaabbbbb000ww000011", Mnemonic::Vxor),
        Row(*b"101010dddddaaaaa00000000ww000100", Mnemonic::Vnot),
        Row(*b"101010dddddaaaaa00000000ww000101", Mnemonic::Vmov),
        Row(*b"101010dddddaaaaabbbbb000ww000110", Mnemonic::Vadd),
        Row(*b"101010dddddaaaaabbbbb000ww000111", Mnemonic::Vsub),
        Row(*b"101010dddddaaaaabbbbb000ww001000", Mnemonic::Vmuleu),
        Row(*b"101010dddddaaaaabbbbb000ww001001", Mnemonic::Vmulou),
        Row(*b"101010dddddaaaaabbbbb000ww001010", Mnemonic::Vsll),
        Row(*b"101010dddddaaaaabbbbb000ww001011", Mnemonic::Vsrl),
        Row(*b"101010dddddaaaaabbbbb000ww001100", Mnemonic::Vsra),
        Row(*b"101010dddddaaaaa00000000ww001101", Mnemonic::Vrtth),
        Row(*b"101010dddddaaaaabbbbb000ww001110", Mnemonic::Vdiv),
        Row(*b"101010dddddaaaaabbbbb000ww001111", Mnemonic::Vmod),
        Row(*b"101010dddddaaaaa00000000ww010000", Mnemonic::Vsqeu),
        Row(*b"101010dddddaaaaa00000000ww010001", Mnemonic::Vsqou),
        Row(*b"101010dddddaaaaa00000000ww010010", Mnemonic::Vsqrt),
        Row(*b"100000ddddd00000mmmmmmmmmmmmmmmm", Mnemonic::Vld),
        Row(*b"100001ddddd00000mmmmmmmmmmmmmmmm", Mnemonic::Vsd),
        Row(*b"100010ddddd00000mmmmmmmmmmmmmmmm", Mnemonic::Vbez),
        Row(*b"100011ddddd00000mmmmmmmmmmmmmmmm", Mnemonic::Vbnez),
        Row(*b"11110000000000000000000000000000", Mnemonic::Vnop),
    ],
    cases: cases::CARDINAL,
    illegal_words: cases::ILLEGAL_IN_CARDINAL,
};

impl Manual {
    /// What `word` says in this set, or `None` where it is illegal. A field that its pattern lacks is zero.
    pub fn decode(&self, word: u32) -> Option<Instruction> {
        let word = Subfield::from(word);
        self.rows
            .iter()
            .find(|row| row.fits(&word))
            .map(|row| row.read(&word))
            .filter(is_allowed)
    }
}

impl Row {
    /// Whether each fixed bit of the pattern is that of `word`.
    fn fits(&self, word: &Subfield) -> bool {
        self.0.iter().zip(0..32).all(|(letter, i)| match letter {
            b'0' => !word.bit(i),
            b'1' => word.bit(i),
            _ => true,
        })
    }

    /// The number whose bits stand under `letter`; zero where there are none.
    fn number(&self, word: &Subfield, letter: u8) -> u32 {
        self.0
            .iter()
            .zip(0..32)
            .filter(|(place, _)| **place == letter)
            .fold(0, |number, (_, i)| number << 1 | u32::from(word.bit(i)))
    }

    /// A number of at most five bits.
    fn small(&self, word: &Subfield, letter: u8) -> u8 {
        (self.number(word, letter) % 32) as u8
    }

    fn read(&self, word: &Subfield) -> Instruction {
        Instruction {
            mnemonic: self.1,
            rd: self.small(word, b'd'),
            ra: self.small(word, b'a'),
            rb: self.small(word, b'b'),
            amount: self.small(word, b'i'),
            ppp: self.small(word, b'p'),
            ww: self.small(word, b'w'),
            address: (self.number(word, b'm') % 65536) as u16,
        }
    }
}

/// The limits that a pattern does not show: PPP ends at 4, and products have no width of 64.
fn is_allowed(found: &Instruction) -> bool {
    let is_product = matches!(
        found.mnemonic,
        Mnemonic::Vmuleu | Mnemonic::Vmulou | Mnemonic::Vsqeu | Mnemonic::Vsqou
    );
    found.ppp <= 4 && !(found.ww == 3 && is_product)
}
