ghost use Rattle.std.specs.Prelude.{◌≡◌, ◌-◌, ◌/◌, ◌^◌};
ghost use Rattle.base.specs.Words.{bits, IsWidth};

/// The widths that a word is cut by.
#[derive(Clone, Copy, PartialEq, Eq, Debug)]
pub enum Width {
    W8,
    W16,
    W32,
    W64,
}

impl Width {
    /// The width as a number of bits: 8, 16, 32 or 64.
    pub fn bits(self) -> u32
        ensures value { result ≡ bits self }
        ensures lawful { IsWidth result }
    {
        8 << self as u32
    }

    /// How many fields of this width a word has.
    pub fn fields(self) -> u32
        ensures { result ≡ 64 / bits self }
    {
        8 >> self as u32
    }

    /// The largest value of a field.
    pub fn ones(self) -> u64
        ensures { result ≡ 2 ^ bits self - 1 }
    {
        u64::MAX >> (64 - self.bits())
    }
}
