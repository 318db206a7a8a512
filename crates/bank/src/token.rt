//! The token of an open trial, and how a trial ends.
ghost use Rattle.std.specs.Prelude.{◌≡◌};

use base::Fault;

/// What the opening of a trial answers. It is not `Drop`, so it cannot be let go: keeping or dropping the trial spends it.
pub struct Token {
    ticket: u32,
}

impl Token {
    /// Of a trial that is opened just now.
    pub(crate) fn new(ticket: u32) -> Self
        ensures { result ≡ record { ticket = ticket } }
    {
        Token { ticket }
    }

    /// The ticket that its trial was opened with.
    pub fn ticket(&self) -> u32
        ensures { result ≡ self.now.ticket }
    {
        self.ticket
    }

    /// Of a trial that has ended.
    pub(crate) fn spend(self) {
        let Token { ticket: _ } = self;
    }
}

/// How a trial ends.
#[derive(Clone, Copy)]
pub enum End {
    Keep,
    Drop,
}

/// A token that comes back from a call that was refused.
pub struct Unspent {
    pub fault: Fault,
    pub token: Token,
}
