//! Shades one row of pixels of eight makers with a Gold kernel, and prints each action. Asked for `trials`, it then tries a
//! haze over the row.
#![tactic(auto)]

mod haze;
mod listing;
mod tiles;
mod trials;

use bank::WordBank;
use base::merge;
use codec::{Class, Table};
use haze::tell_trials;
use isa::InstructionSet;
use listing::Listed;
use std::{array, env, io};
use tiles::{PIXELS, Shades, Strip, heights, heights_at, tell_makers};

/// Relief shading in eight lanes of a byte. r1 has the heights, r2 those of the next pixel to the east, r3 the light,
/// r9 the haze that the makers of the lower four lanes ordered. r8 takes the shaded pixels.
const KERNEL: [u32; 10] = [
    0xA881_0810,
    0xA8A2_0810,
    0xA8C4_2807,
    0xA8C6_1806,
    0xA8C6_0810,
    0xA8E1_1010,
    0xA906_3806,
    0xA861_1546,
    0xA908_4A02,
    0xF000_0000,
];

const LIGHT: u64 = 0x8080_8080_8080_8080;

const HAZE: u64 = 0x0F0F_0F0F_0F0F_0F0F;

/// What the 32 registers hold.
#[derive(Clone, Copy)]
struct Registers([u64; 32]);

impl Registers {
    /// As the kernel finds them at a pixel.
    fn at(pixel: usize) -> Registers {
        let mut registers = Registers([0; 32]);
        registers.write(1, heights_at(pixel));
        registers.write(2, heights_at(pixel.wrapping_add(1)));
        registers.write(3, LIGHT);
        registers.write(9, HAZE);
        registers
    }

    fn read(&self, register: u8) -> u64 {
        self.0[usize::from(register) % 32]
    }

    fn write(&mut self, register: u8, value: u64) {
        self.0[usize::from(register) % 32] = value;
    }

    /// Works the calculation that a word asks for; none where it asks for something else.
    fn calculate(&mut self, word: u32) -> Option<u64> {
        let asked = Table::Gold.operation(word);
        if asked.class != Class::Calculate {
            return None;
        }
        let a = self.read(asked.ra);
        let b = self.read(asked.rb);
        let result = Table::Gold.result(word, a, b);
        let value = merge(asked.mask, result, self.read(asked.rd));
        self.write(asked.rd, value);
        Some(value)
    }
}

/// Lists the kernel: address, word, instruction, and the word that the instruction encodes to.
fn list(rt: &impl Print) -> io::Result<()> {
    println!(rt;
        "the kernel, {} words; each instruction is encoded back",
        KERNEL.len()
    )?;
    for (address, word) in KERNEL.iter().enumerate() {
        println!(rt; "  {address}  {}", Listed(*word))?;
    }
    Ok(())
}

/// Works the kernel at one pixel of all makers, and answers their shaded pixels. At the first pixel it tells each step.
fn shade(rt: &impl Print, pixel: usize) -> io::Result<u64> {
    let mut registers = Registers::at(pixel);
    let heights = registers.read(1);
    for (address, word) in KERNEL.iter().enumerate() {
        let done = registers.calculate(*word);
        if pixel == 0 {
            match done {
                Some(value) => println!(rt; "  {address}  {word:08x} leaves {value:016x}")?,
                None => println!(rt; "  {address}  {word:08x} leaves all as it was")?,
            }
        }
    }
    let shaded = registers.read(8);
    println!(rt; "pixel {pixel}: heights {heights:016x}, shaded {shaded:016x}")?;
    Ok(shaded)
}

fn show(rt: &impl Print, words: &[u64; PIXELS]) -> io::Result<()> {
    tell_makers(rt, |maker| Strip(Shades { maker, words }))
}

/// Works the kernel at every pixel of the row.
fn shade_row(rt: &impl Print) -> io::Result<[u64; PIXELS]> {
    println!(rt; "the calculations, each of them told at pixel 0")?;
    array::try_from_fn(|pixel| shade(rt, pixel))
}

fn main(rt: HostRuntime) -> io::Result<()> {
    println!(rt;
        "Gold shades a row of {PIXELS} pixels of eight makers, a byte of each in every word"
    )?;
    list(&rt)?;
    let mut row = shade_row(&rt)?;
    println!(rt; "heights before")?;
    show(&rt, &heights())?;
    println!(rt; "pixels after")?;
    show(&rt, &row)?;
    // `conformance` asks so too: no crate lies below the two programs alone.
    let asked = env::args(&rt).is_ok_and(|words| words
        .skip(1)
        .any(|word| word.as_str() == "trials"));
    if asked {
        tell_trials(&rt, &mut WordBank::new(&mut row))?;
    }
    Ok(())
}
