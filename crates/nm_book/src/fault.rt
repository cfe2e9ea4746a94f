//! Why a book refuses.

ghost use Rattle.std.specs.Prelude.{◌≡◌};
ghost use Rattle.nm_base.specs.declared.fault.Fault.TheVariants.{Refused};
ghost use Rattle.nm_book.specs.Book.{accept_fault_number};
ghost use Rattle.nm_book.specs.declared.fault.AcceptFault.TheVariants.{Known};

use nm_base::{ChanNo, Fault};
use nm_knowledge::KnowFault;
use thiserror::Error;

/// What a book is refused for.
#[derive(Clone, Copy, Debug, PartialEq, Eq, Error)]
pub enum BookRefusal {
    /// The topology has no such partition, or there is no such replica of it.
    #[error("there is no such partition or replica")]
    NoSuch,
}

/// Why there is no book: it is refused, or memory was.
pub type BookFault = Fault<BookRefusal>;

/// Why a book refused a message or a null message. It is unchanged then.
#[derive(Clone, Copy, Debug, PartialEq, Eq, Error)]
pub enum AcceptFault {
    /// The channel does not come in here.
    #[error("the channel does not come in here")]
    Stranger,
    /// What is known of the channel refused it.
    #[error("{0}")]
    Known(KnowFault),
}

impl AcceptFault {
    /// The number by which reports name the fault, from 1 to 7.
    pub fn number(&self) -> u8
        ensures { result ≡ accept_fault_number self.now }
    {
        match self {
            AcceptFault::Stranger => 7,
            AcceptFault::Known(fault) => fault.number(),
        }
    }
}

impl From<KnowFault> for AcceptFault {
    ghost from_gives = { λ k f. f ≡ Known k };

    fn from(fault: KnowFault) -> Self {
        AcceptFault::Known(fault)
    }
}

/// Why a book refuses to merge what another replica knows.
#[derive(Clone, Copy, Debug, PartialEq, Eq, Error)]
pub enum MergeRefusal {
    /// It is what a replica of another partition or topology knows.
    #[error("the knowledge of another partition or topology")]
    Stranger,
    /// What is known of this channel cannot be joined; it is the first such channel.
    #[error("channel {channel:?}: {fault}")]
    Channel { channel: ChanNo, fault: KnowFault },
}

/// Why a book merged nothing: it refuses, or memory was refused. It is unchanged then.
pub type MergeFault = Fault<MergeRefusal>;

impl From<MergeRefusal> for MergeFault {
    ghost from_gives = { λ refusal fault. fault ≡ Refused refusal };

    fn from(refusal: MergeRefusal) -> Self {
        MergeFault::Refused(refusal)
    }
}
