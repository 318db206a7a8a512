//! What a word asks for, in the terms that every instruction set shares.
ghost use Rattle.std.specs.Prelude.{◌≡◌};
ghost use Rattle.isa.specs.Operations.{mask_of, width_of, doubled, reach_of, calculates, reads_second, described};

use base::Width;
use codec::{Class, Instruction, Shape, Span};

// One record for every class: the laws of a set speak of the reach, rD and the address of every word.
/// What a word asks for. What it lacks is 0 or no. Loads, stores and branches use rD.
#[derive(Clone, Copy, PartialEq, Eq, Debug)]
pub struct Operation {
    pub class: Class,
    pub rd: u8,
    // Flags beside the numbers: an Option would not tell the number of a register that is not read.
    pub ra: u8,
    pub rb: u8,
    pub reads_a: bool,
    pub reads_b: bool,
    pub address: u16,
    /// The bytes that a calculation writes: the most significant bit stands for byte 0.
    pub mask: u8,
    /// A block of the result, cut by this width, depends only on the same block of the contents.
    pub reach: Width,
}

static MASKS: [u8; 5] = [
    0b1111_1111,
    0b1111_0000,
    0b0000_1111,
    0b1010_1010,
    0b0101_0101,
];

// PPP and WW are numbers here as in an instruction, where any number can stand.
fn mask_of(ppp: u8) -> u8
    ensures { result ≡ mask_of ppp }
{
    MASKS.get(usize::from(ppp)).copied().unwrap_or(0)
}

fn width_of(ww: u8) -> Width
    ensures { result ≡ width_of ww }
{
    match ww {
        0 => Width::W8,
        1 => Width::W16,
        2 => Width::W32,
        _ => Width::W64,
    }
}

fn doubled(width: Width) -> Width
    ensures { result ≡ doubled width }
{
    match width {
        Width::W8 => Width::W16,
        Width::W16 => Width::W32,
        Width::W32 | Width::W64 => Width::W64,
    }
}

fn calculates(shape: Shape) -> bool
    ensures { result ≡ calculates shape }
{
    matches!(shape, Shape::Two | Shape::One | Shape::Immediate)
}

fn reads_second(shape: Shape) -> bool
    ensures { result ≡ reads_second shape }
{
    matches!(shape, Shape::Two)
}

/// How far a block of the result looks.
pub(crate) fn reach_of(span: Span, ww: u8) -> Width
    ensures { result ≡ reach_of span ww }
{
    match span {
        Span::Bit => Width::W8,
        Span::Subfield => width_of(ww),
        Span::Pair => doubled(width_of(ww)),
    }
}

impl From<Instruction> for Operation {
    ghost from_gives = { λ i o. o ≡ described i };

    fn from(i: Instruction) -> Operation {
        let kind = i.mnemonic.kind();
        let calculates = calculates(kind.shape);
        Operation {
            class: kind.class,
            rd: i.rd,
            ra: i.ra,
            rb: i.rb,
            reads_a: calculates,
            reads_b: reads_second(kind.shape),
            address: i.address,
            mask: if calculates { mask_of(i.ppp) } else { 0 },
            reach: reach_of(kind.span, i.ww),
        }
    }
}
