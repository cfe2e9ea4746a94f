//! Why a file of what a replica knows was not written, or not read.

ghost use Rattle.std.specs.IoError.{error_kind};
ghost use Rattle.std.specs.Prelude.{◌≡◌};
ghost use Rattle.nm_files.specs.Checked.{IsFaultOfKind};
ghost use Rattle.nm_known.specs.declared.known_fault.KnownCause.TheVariants.{Failed};
ghost use Rattle.nm_known.specs.Reading.{accept_fault, frame_fault};

use nm_base::{Fault, SinkFault};
use nm_book::AcceptFault;
use nm_frames::FrameFault;
use nm_knowledge::KnowFault;
use std::io::{self, ErrorKind};
use thiserror::Error;

/// Why what a replica knows is not written to its end: the sink failed, or memory was refused. The
/// sink took a part of the octets, from the front, and did not fail if memory was refused.
pub type KnownWriteFault = Fault<SinkFault>;

/// Why a file is not read as what a replica knows.
#[derive(Clone, Copy, Debug, PartialEq, Eq, Error)]
pub enum KnownCause {
    /// It was written over another topology: its Hello has another digest.
    #[error("a file of what is known of another topology")]
    Topology,
    /// No book of this replica has such a file: it has octets that are no frames, or the Hello of
    /// another partition, replica or version, or a frame out of turn, or a message that cannot be
    /// the next of its channel, or a clock before the last message, or it ends too soon, or goes on
    /// after its end.
    #[error("no file of what this replica knows")]
    Form,
    /// A read failed.
    #[error("a file of what is known could not be read")]
    Failed,
}

/// Why a file is not read as what a replica knows: it is refused, or memory was.
pub type KnownFault = Fault<KnownCause>;

/// What an error of the system is at a file.
pub(crate) fn read_fault(error: &io::Error) -> KnownFault
    ensures { IsFaultOfKind (error_kind error.now) Failed result }
{
    if error.kind() == ErrorKind::OutOfMemory {
        KnownFault::Memory
    } else {
        KnownFault::Refused(KnownCause::Failed)
    }
}

/// What it is at a file that its octets are no frames.
pub(crate) fn frame_fault(fault: FrameFault) -> KnownFault
    ensures { result ≡ frame_fault fault }
{
    match fault {
        FrameFault::Memory => KnownFault::Memory,
        _ => KnownFault::Refused(KnownCause::Form),
    }
}

/// What it is at a file that a book refuses its message.
pub(crate) fn accept_fault(fault: AcceptFault) -> KnownFault
    ensures { result ≡ accept_fault fault }
{
    match fault {
        AcceptFault::Known(KnowFault::Memory) => KnownFault::Memory,
        _ => KnownFault::Refused(KnownCause::Form),
    }
}
