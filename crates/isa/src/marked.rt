//! Worked cases that the definitions meet.
ghost use Rattle.std.specs.Prelude.{◌≡◌, length};
ghost use Rattle.isa.specs.Marked.{marked, Met};

/// How many cases there are; each is met.
pub fn marked_cases() -> u32
    ensures count { result ≡ length marked }
    ensures met { Met marked }
{
    12
}
