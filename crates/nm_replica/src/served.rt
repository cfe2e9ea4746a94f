//! How the serving of a replica ends.

ghost use Rattle.std.specs.Prelude.{◌≡◌, IfSome};
ghost use Rattle.nm_replica.specs.Served.{EndsEarly, IsInterrupted, break_served, file_served};
ghost use Rattle.nm_replica.specs.declared.served.Served.TheVariants.{Memory};

use nm_base::IfaceNo;
use nm_engine::Cause;
use nm_files::{FileFault, FilesFault};
use std::alloc::AllocError;

/// How serving a replica ended.
#[derive(Clone, Copy, Debug, PartialEq, Eq)]
pub enum Served {
    /// The replica is done, and all its links have ended; or every replica of the run is done.
    Ended,
    /// A peer broke the rules, the book refused its message, the system refuses connections or
    /// waits, or the gate stopped it.
    Net,
    /// Memory was refused.
    Memory,
    /// The trace file of this interface failed: it has so many octets, which stops at 2^64 - 1.
    File { iface: IfaceNo, written: u64 },
    /// So many polls were made, and the last of them moved nothing; or no more may be made.
    Stalled { polls: u64 },
}

impl From<AllocError> for Served {
    ghost from_gives = { λ _ s. s ≡ Memory };

    fn from(_: AllocError) -> Self {
        Served::Memory
    }
}

/// How serving ends because a link broke, if it does. A wire may break at any time. A stranger is
/// no peer, and its faults end its own link alone.
pub(crate) fn break_served(cause: Cause, is_peer: bool) -> Option<Served>
    ensures value { result ≡ break_served cause is_peer }
    ensures early { IfSome result IsInterrupted }
{
    match cause {
        Cause::End | Cause::Fault => None,
        Cause::Frame | Cause::Session if !is_peer => None,
        Cause::Frame | Cause::Session | Cause::Book => Some(Served::Net),
        Cause::Memory => Some(Served::Memory),
    }
}

/// How serving ends if trace files could not be written.
pub(crate) fn file_served(fault: FilesFault) -> Served
    ensures value { result ≡ file_served fault }
    ensures early { EndsEarly result }
{
    match fault {
        FilesFault::Refused(FileFault { iface, written }) => Served::File { iface, written },
        FilesFault::Memory => Served::Memory,
    }
}
