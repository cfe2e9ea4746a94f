//! Why octets are no frames.

ghost use Rattle.std.specs.Prelude.{◌≡◌};
ghost use Rattle.nm_frames.specs.Fault.{frame_fault_number};
ghost use Rattle.nm_frames.specs.declared.fault.FrameFault.TheVariants.{Memory};

use std::alloc::{AllocError, AllocFailed};
use thiserror::Error;

/// Why a reader refused a piece of a stream.
#[derive(Clone, Copy, Debug, PartialEq, Eq, Error)]
pub enum FrameFault {
    /// A length of 0, or above 65,556, which shows at the frame's fourth octet.
    #[error("a frame with a length that none has")]
    BadLength,
    /// A kind that is not 1 to 5, which shows at the frame's fifth octet.
    #[error("a frame of an unknown kind")]
    BadKind,
    /// A length that does not fit the kind, or a Hello without its magic octets, which shows at the
    /// frame's last octet.
    #[error("a frame that does not fit its kind")]
    BadBody,
    /// A fault was shown before. Nothing was read.
    #[error("the stream has failed")]
    Failed,
    /// Memory was refused. Nothing was read.
    #[error("out of memory")]
    Memory,
}

impl FrameFault {
    /// The number by which reports name the fault, from 1 to 5.
    pub fn number(&self) -> u8
        ensures { result ≡ frame_fault_number self.now }
    {
        match self {
            FrameFault::BadLength => 1,
            FrameFault::BadKind => 2,
            FrameFault::BadBody => 3,
            FrameFault::Failed => 4,
            FrameFault::Memory => 5,
        }
    }
}

impl From<AllocError> for FrameFault {
    ghost from_gives = { λ _ f. f ≡ Memory };

    fn from(_: AllocError) -> Self {
        FrameFault::Memory
    }
}
