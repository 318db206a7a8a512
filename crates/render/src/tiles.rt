//! One row of the tiles of eight makers, woven into words: pixel x of maker k is byte k of word x.
use base::Width;
use std::{array, fmt, io};

pub const PIXELS: usize = 8;

/// The heights of a row from west to east, a line for each maker, and one pixel more for the slope.
const HEIGHTS: [[u8; 9]; 8] = [
    [10, 20, 40, 80, 120, 140, 150, 150, 140],
    [200, 180, 160, 140, 120, 100, 80, 60, 40],
    [0, 0, 0, 255, 255, 255, 0, 0, 0],
    [30, 60, 30, 60, 30, 60, 30, 60, 30],
    [5, 5, 5, 5, 5, 5, 5, 5, 5],
    [255, 254, 252, 248, 240, 224, 192, 128, 0],
    [90, 95, 100, 110, 130, 160, 200, 250, 255],
    [128, 64, 32, 16, 8, 4, 2, 1, 0],
];

/// The heights of all makers at one pixel.
pub fn heights_at(pixel: usize) -> u64 {
    HEIGHTS.iter().zip(0..).fold(0, |word, (row, maker)| {
        let height = row.get(pixel).copied().unwrap_or(0);
        Width::W8
            .put(maker, u64::from(height), word)
            .unwrap_or(word)
    })
}

/// The heights of all makers along the row.
pub fn heights() -> [u64; PIXELS] {
    array::from_fn(heights_at)
}

/// A maker's pixels in a row of words, printed as shades.
#[derive(Clone, Copy)]
pub struct Shades<'a> {
    pub maker: u32,
    pub words: &'a [u64],
}

/// The same pixels, printed as numbers and as shades.
#[derive(Clone, Copy)]
pub struct Strip<'a>(pub Shades<'a>);

/// From dark to bright.
const SHADES: [char; 8] = [' ', '.', ':', '-', '=', '+', '#', '@'];

impl Shades<'_> {
    fn pixel(&self, word: u64) -> u64 {
        Width::W8.get(self.maker, word).unwrap_or(0)
    }
}

impl fmt::Display for Shades<'_> {
    fn fmt<W: fmt::Write>(&self, f: &mut fmt::Formatter<W>) -> fmt::Result {
        write!(f, "|")?;
        for word in self.words {
            let shade = SHADES[(self.pixel(*word) / 32 % 8) as usize];
            write!(f, "{shade}")?;
        }
        write!(f, "|")
    }
}

impl fmt::Display for Strip<'_> {
    fn fmt<W: fmt::Write>(&self, f: &mut fmt::Formatter<W>) -> fmt::Result {
        for word in self.0.words {
            let pixel = self.0.pixel(*word);
            write!(f, " {pixel:>3}")?;
        }
        write!(f, "  {}", self.0)
    }
}

/// Prints a line for each maker.
pub(crate) fn tell_makers<T: fmt::Display + Drop, F: Fn(u32) -> T>(
    rt: &impl Print,
    line: F,
) -> io::Result<()>
    requires { F.IsAlwaysCallable line }
{
    for maker in 0..8 {
        println!(rt; "  maker {maker} {}", line(maker))?;
    }
    Ok(())
}
