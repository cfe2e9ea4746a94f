//! Why a session refuses a frame.

ghost use Rattle.std.specs.Prelude.{◌≡◌};
ghost use Rattle.nm_frames.specs.Fault.{session_fault_number};

use thiserror::Error;

/// Why a session refused a frame. It is unchanged then.
#[derive(Clone, Copy, Debug, PartialEq, Eq, Error)]
pub enum SessionFault {
    /// The first frame was no Hello, or a later one was, or a frame came after Bye.
    #[error("a frame out of order")]
    Order,
    /// A Hello of a version that is not 1 or 2.
    #[error("an unknown version")]
    Version,
    /// A Hello of a topology with another digest.
    #[error("another topology")]
    Topology,
    /// A Hello of another partition, or of a replica that is not 0 or 1.
    #[error("not the peer that was expected")]
    Peer,
    /// A channel that does not run in that direction between the two.
    #[error("a channel that does not run so")]
    Channel,
}

impl SessionFault {
    /// The number by which reports name the fault, from 1 to 5.
    pub fn number(&self) -> u8
        ensures { result ≡ session_fault_number self.now }
    {
        match self {
            SessionFault::Order => 1,
            SessionFault::Version => 2,
            SessionFault::Topology => 3,
            SessionFault::Peer => 4,
            SessionFault::Channel => 5,
        }
    }
}
