//! Words and instructions as text, the way a kernel's author reads them.
use codec::{Instruction, Mnemonic, Shape, Table};
use std::fmt;

/// An instruction to be printed, as 'vaddab r3, r1, r2': a calculation's name goes on with the bytes that it writes
/// (a all, u upper four, d lower four, e even, o odd) and with its width (b 8, h 16, w 32, d 64).
#[derive(Clone, Copy)]
struct Text(Instruction);

// A table, and not what Debug prints: a kernel's author reads the manual's names, whatever the variants are called.
fn name(mnemonic: Mnemonic) -> &'static str {
    match mnemonic {
        Mnemonic::Vand => "vand",
        Mnemonic::Vor => "vor",
        Mnemonic::Vxor => "vxor",
        Mnemonic::Vnot => "vnot",
        Mnemonic::Vmov => "vmov",
        Mnemonic::Vadd => "vadd",
        Mnemonic::Vsub => "vsub",
        Mnemonic::Vmuleu => "vmuleu",
        Mnemonic::Vmulou => "vmulou",
        Mnemonic::Vsqeu => "vsqeu",
        Mnemonic::Vsqou => "vsqou",
        Mnemonic::Vrtth => "vrtth",
        Mnemonic::Vsll => "vsll",
        Mnemonic::Vslli => "vslli",
        Mnemonic::Vsrl => "vsrl",
        Mnemonic::Vsrli => "vsrli",
        Mnemonic::Vsra => "vsra",
        Mnemonic::Vsrai => "vsrai",
        Mnemonic::Vdiv => "vdiv",
        Mnemonic::Vmod => "vmod",
        Mnemonic::Vsqrt => "vsqrt",
        Mnemonic::Vld => "vld",
        Mnemonic::Vsd => "vsd",
        Mnemonic::Vbez => "vbez",
        Mnemonic::Vbnez => "vbnez",
        Mnemonic::Vnop => "vnop",
    }
}

// Two functions: a type with Display for each letter would hold the same match inside an impl.
fn bytes_letter(ppp: u8) -> char {
    match ppp {
        0 => 'a',
        1 => 'u',
        2 => 'd',
        3 => 'e',
        4 => 'o',
        _ => '?',
    }
}

fn width_letter(ww: u8) -> char {
    match ww {
        0 => 'b',
        1 => 'h',
        2 => 'w',
        _ => 'd',
    }
}

impl fmt::Display for Text {
    fn fmt<W: fmt::Write>(&self, f: &mut fmt::Formatter<W>) -> fmt::Result {
        let Instruction {
            mnemonic,
            rd,
            ra,
            rb,
            amount,
            ppp,
            ww,
            address,
        } = self.0;
        let name = name(mnemonic);
        let p = bytes_letter(ppp);
        let w = width_letter(ww);
        match mnemonic.kind().shape {
            Shape::Two => write!(f, "{name}{p}{w} r{rd}, r{ra}, r{rb}"),
            Shape::One => write!(f, "{name}{p}{w} r{rd}, r{ra}"),
            Shape::Immediate => write!(f, "{name}{p}{w} r{rd}, r{ra}, {amount}"),
            Shape::Address => write!(f, "{name} r{rd}, {address}"),
            Shape::Bare => write!(f, "{name}"),
        }
    }
}

/// A word of Gold to be printed: the word, its instruction, and whether the instruction is encoded back.
#[derive(Clone, Copy)]
pub struct Listed(pub u32);

impl fmt::Display for Listed {
    fn fmt<W: fmt::Write>(&self, f: &mut fmt::Formatter<W>) -> fmt::Result {
        let word = self.0;
        write!(f, "{word:08x}  ")?;
        let Some(instruction) = Table::Gold.decode(word) else {
            return write!(f, "illegal, does nothing");
        };
        let text = Text(instruction);
        match Table::Gold.encode(&instruction) {
            Ok(back) if back == word => write!(f, "{text}  (encodes back)"),
            Ok(back) => write!(f, "{text}  (ENCODES TO {back:08x})"),
            Err(fault) => write!(f, "{text}  (REFUSED, {})", fault.number()),
        }
    }
}
