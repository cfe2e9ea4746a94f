//! The answers of a link's turn.

ghost use Rattle.std.specs.Prelude.{◌≡◌};
ghost use Rattle.nm_engine.specs.declared.answer.Cause.TheVariants.{Memory};

use std::alloc::AllocError;

/// Why a link broke.
#[derive(Clone, Copy, Debug, PartialEq, Eq)]
pub enum Cause {
    /// The peer sends no more, and has not sent Bye.
    End,
    /// The wire failed.
    Fault,
    /// The received octets are no frame.
    Frame,
    /// The session refused a frame, or the first frame of a link that the peer connected makes no
    /// session.
    Session,
    /// The book refused a message or a null message, and not for want of memory.
    Book,
    /// Memory was refused.
    Memory,
}

impl From<AllocError> for Cause {
    ghost from_gives = { λ _ c. c ≡ Memory };

    fn from(_: AllocError) -> Self {
        Cause::Memory
    }
}

/// The answer of a turn.
#[derive(Clone, Copy, Debug, PartialEq, Eq)]
pub enum Turn {
    /// Octets were received or written.
    Progress,
    /// No octets were.
    Idle,
    /// Both ends have sent Bye, and all octets are written.
    Ended,
    /// The link broke in this turn, and stays failed. Messages that were taken in before stay in
    /// the book.
    Broken(Cause),
    /// The link broke in an earlier turn. Nothing was done.
    Failed,
}
