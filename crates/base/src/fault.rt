ghost use Rattle.std.specs.Prelude.{◌≡◌};
ghost use Rattle.base.specs.Faults.{number};

/// Why a call was refused.
#[derive(Clone, Copy, PartialEq, Eq, Debug)]
pub enum Fault {
    /// The lane width is not 8, 16, 32 or 64.
    LaneWidth = 1,
    /// The control bound is above 65,536.
    ControlBound = 2,
    /// The word has no such lane.
    Lane = 3,
    /// The bank has no such address.
    Address = 4,
    /// The word at the address is a control word.
    NotLaneWord = 5,
    /// The value does not fit its lane.
    Value = 6,
    /// The word at the address may not be written.
    Closed = 7,
    /// The word at the address is a lane word.
    NotControlWord = 8,
    /// The image has more than 65,536 words.
    ImageTooLong = 9,
    /// The image's bytes are not whole words.
    ImageBytes = 10,
    /// No word means the instruction.
    NoSuchInstruction = 11,
    /// A trial is open already.
    TrialOpen = 12,
    /// No trial with this ticket is open.
    NoSuchTrial = 13,
}

impl Fault {
    /// The number that the refusal is known by.
    pub fn number(self) -> u8
        ensures { result ≡ number self }
    {
        self as u8
    }
}
