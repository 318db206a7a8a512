//! A word by the fields of its format, bit 0 the most significant.
ghost use Rattle.std.specs.Prelude.{◌≡◌, ◌+◌, ◌<◌, ◌≤◌};
ghost use Rattle.codec.specs.Decoded.{part, opcode_of, rd_of, ra_of, rb_of, ppp_of, ww_of, function_of, address_of};

#[derive(Clone, Copy)]
pub(crate) struct Word(pub(crate) u32);

// A method for each field: its contract names the definition of that field.
impl Word {
    /// Bits `first` to `last`.
    fn part(self, first: u32, last: u32) -> u32
        requires ordered { first ≤ last }
        requires inside { last ≤ 31 }
        requires short { last < first + 31 }
        ensures { result ≡ part first last self.0 }
    {
        (self.0 >> (31 - last)) % (1 << (last + 1 - first))
    }

    pub(crate) fn opcode(self) -> u8
        ensures { result ≡ opcode_of self.0 }
    {
        self.part(0, 5) as u8
    }

    pub(crate) fn rd(self) -> u8
        ensures { result ≡ rd_of self.0 }
    {
        self.part(6, 10) as u8
    }

    pub(crate) fn ra(self) -> u8
        ensures { result ≡ ra_of self.0 }
    {
        self.part(11, 15) as u8
    }

    pub(crate) fn rb(self) -> u8
        ensures { result ≡ rb_of self.0 }
    {
        self.part(16, 20) as u8
    }

    pub(crate) fn ppp(self) -> u8
        ensures { result ≡ ppp_of self.0 }
    {
        self.part(21, 23) as u8
    }

    pub(crate) fn ww(self) -> u8
        ensures { result ≡ ww_of self.0 }
    {
        self.part(24, 25) as u8
    }

    /// What a calculation is to do.
    pub(crate) fn function(self) -> u8
        ensures { result ≡ function_of self.0 }
    {
        self.part(26, 31) as u8
    }

    pub(crate) fn address(self) -> u16
        ensures { result ≡ address_of self.0 }
    {
        self.part(16, 31) as u16
    }
}
