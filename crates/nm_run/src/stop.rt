//! Why a run stops.

ghost use Rattle.std.specs.Prelude.{◌≡◌};
ghost use Rattle.nm_run.specs.declared.stop.Stop.TheVariants.{Memory};

use nm_base::IfaceNo;
use nm_files::{FileFault, FilesFault, OutputFault};
use std::alloc::{AllocError, AllocFailed};
use std::io::{self, ErrorKind};

/// Why a run stops: it has no books that could be compared, or no files.
#[derive(Clone, Copy, PartialEq, Eq)]
pub enum Stop {
    /// The trace file of this interface could not be made, or failed after so many octets.
    File { iface: IfaceNo, written: u64 },
    /// The file of what a replica knows could not be made, or given its name.
    Known,
    /// The network failed.
    Net,
    /// Memory was refused.
    Memory,
    /// A replica made so many polls, and the last of them moved nothing.
    Stalled { polls: u64 },
    /// What the code rules out but no contract does: a replica, a pass or a trace file that was
    /// made is missing.
    Broken,
}

impl From<AllocError> for Stop {
    ghost from_gives = { λ _ s. s ≡ Memory };

    fn from(_: AllocError) -> Self {
        Stop::Memory
    }
}

impl<T: Drop> From<AllocFailed<T>> for Stop {
    ghost from_gives = { λ _ s. s ≡ Memory };

    fn from(_: AllocFailed<T>) -> Self {
        Stop::Memory
    }
}

impl From<io::Error> for Stop {
    ghost use Rattle.std.specs.IoError.{error_kind};
    ghost use Rattle.nm_run.specs.Faults.{IsStopOf};

    ghost from_gives = { λ error s. IsStopOf (error_kind error) s };

    fn from(error: io::Error) -> Self {
        if error.kind() == ErrorKind::OutOfMemory {
            Stop::Memory
        } else {
            Stop::Net
        }
    }
}

impl From<OutputFault> for Stop {
    ghost use Rattle.nm_run.specs.Faults.{output_stop};

    ghost from_gives = { λ fault s. s ≡ output_stop fault };

    fn from(fault: OutputFault) -> Self {
        match fault {
            OutputFault::Failed => Stop::Known,
            OutputFault::Memory => Stop::Memory,
        }
    }
}

impl From<FilesFault> for Stop {
    ghost use Rattle.nm_run.specs.Faults.{files_stop};

    ghost from_gives = { λ fault s. s ≡ files_stop fault };

    fn from(fault: FilesFault) -> Self {
        match fault {
            FilesFault::Refused(FileFault { iface, written }) => Stop::File { iface, written },
            FilesFault::Memory => Stop::Memory,
        }
    }
}
