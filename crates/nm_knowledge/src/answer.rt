//! The answers of knowledge to messages and null messages.

ghost use Rattle.std.specs.Prelude.{◌≡◌};
ghost use Rattle.nm_knowledge.specs.Answers.{know_fault_number};
ghost use Rattle.nm_knowledge.specs.declared.answer.KnowFault.TheVariants.{Memory};

use std::alloc::AllocError;
use thiserror::Error;

/// A message or a null message was accepted.
#[derive(Clone, Copy, Debug, PartialEq, Eq)]
pub enum Accepted {
    /// The message is a new one. The clock rose to its time.
    New,
    /// Nothing was changed, since it was known already.
    Known,
    /// The clock rose to that of the null message.
    Raised,
}

/// Why knowledge refused a message or a null message. It is unchanged then.
#[derive(Clone, Copy, Debug, PartialEq, Eq, Error)]
pub enum KnowFault {
    /// A message or a null message past the next one: some before it have not come. So many have.
    #[error("a gap: only {have} messages are known")]
    Gap { have: u64 },
    /// The message of this number is another one, in its time or in its octets.
    #[error("message {number} differs from the one that is known")]
    Differs { number: u64 },
    /// A message before this channel clock, in nanoseconds.
    #[error("a message is before the channel clock {clock}")]
    Late { clock: u64 },
    /// A message not after the last one that is known.
    #[error("a message is not after the last one")]
    NotRising,
    /// The memory for one more message was refused, or 2^50 messages are known.
    #[error("out of memory for messages")]
    Memory,
    /// A null message whose clock is after the known message of this number, which it promises not
    /// before its clock.
    #[error("a null message contradicts message {count}")]
    Contrary { count: u64 },
}

impl KnowFault {
    /// The number by which reports name the fault, from 1 to 6.
    pub fn number(&self) -> u8
        ensures { result ≡ know_fault_number self.now }
    {
        match self {
            KnowFault::Gap { .. } => 1,
            KnowFault::Differs { .. } => 2,
            KnowFault::Late { .. } => 3,
            KnowFault::NotRising => 4,
            KnowFault::Memory => 5,
            KnowFault::Contrary { .. } => 6,
        }
    }
}

impl From<AllocError> for KnowFault {
    ghost from_gives = { λ _ f. f ≡ Memory };

    fn from(_: AllocError) -> Self {
        KnowFault::Memory
    }
}
