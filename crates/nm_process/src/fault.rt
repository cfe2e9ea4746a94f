//! Why the replica of a process is not done.

ghost use Rattle.std.specs.IoError.{error_kind};
ghost use Rattle.nm_files.specs.Checked.{IsFaultOfKind};
ghost use Rattle.nm_process.specs.Process.{is_stall};
ghost use Rattle.nm_process.specs.declared.fault.ProcessCause.TheVariants.{Net};
ghost use Rattle.std.specs.Prelude.{◌≡◌, false};

use nm_base::Fault;
use std::io::{self, ErrorKind};
use thiserror::Error;

/// Why the replica of a process is not done.
#[derive(Clone, Copy, Debug, PartialEq, Eq, Error)]
pub enum ProcessCause {
    /// It cannot listen at its address, a peer broke the rules, or the system refuses connections
    /// or waits.
    #[error("the network failed")]
    Net,
    /// Nothing moved for a minute, and events are left to do: a peer is missing, or stopped.
    #[error("stalled")]
    Stalled,
    /// What the code rules out but no contract does: a missing replica or pass, or a trace file
    /// that should not exist.
    #[error("the program's own state is not what it should be: please report it with the topology \
         and the command")]
    Broken,
}

/// Why the replica of a process is not done, or that memory was refused. Its book is dropped.
pub type ProcessFault = Fault<ProcessCause>;

/// The fault of a process for an error of the system.
pub(crate) fn fault_of(error: io::Error) -> ProcessFault
    ensures kind { IsFaultOfKind (error_kind error) Net result }
    ensures stall { is_stall result ≡ false }
{
    if error.kind() == ErrorKind::OutOfMemory {
        ProcessFault::Memory
    } else {
        ProcessFault::Refused(ProcessCause::Net)
    }
}
