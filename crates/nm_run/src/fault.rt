//! Why a run has no report.

ghost use Rattle.std.specs.Prelude.{◌≡◌};
ghost use Rattle.nm_run.specs.Faults.{run_fault};

use crate::stop::Stop;
use nm_base::{Fault, IfaceNo};
use nm_rounds::certify::CertFault;
use thiserror::Error;

/// Why a run has no report. No file has got its name then, unless one could not get it: those
/// before it have theirs. Each part file that is left has a prefix of what its replica handed out;
/// nothing is claimed of it.
#[derive(Clone, Copy, Debug, PartialEq, Eq, Error)]
pub enum RunCause {
    /// The trace file of this interface could not be made, failed after so many octets, or ended
    /// with so many although the certified books have another number. The number stops at 2^64 - 1.
    #[error("a trace file failed after {written} octets")]
    File { iface: IfaceNo, written: u64 },
    /// The file of what a replica knows could not be made, written whole or given its name.
    #[error("a file of what a replica knows failed")]
    Known,
    /// A replica cannot listen, connect or wait, one received what cannot be, or the gate stopped
    /// the run.
    #[error("the network failed")]
    Net,
    /// All replicas ended, and their books are not those of the one event list.
    #[error("not certified: {0}")]
    NotCertified(CertFault),
    /// A replica made so many polls, and the last of them moved nothing.
    #[error("stalled after {polls} polls")]
    Stalled { polls: u64 },
    /// What the code rules out but no contract does.
    #[error("the program's own state is not what it should be: please report it with the topology \
         and the command")]
    Broken,
}

/// Why a run has no report, or that memory was refused.
pub type RunFault = Fault<RunCause>;

impl From<Stop> for RunFault {
    ghost from_gives = { λ s f. f ≡ run_fault s };

    fn from(stop: Stop) -> Self {
        match stop {
            Stop::File { iface, written } => RunFault::Refused(RunCause::File { iface, written }),
            Stop::Known => RunFault::Refused(RunCause::Known),
            Stop::Net => RunFault::Refused(RunCause::Net),
            Stop::Memory => RunFault::Memory,
            Stop::Stalled { polls } => RunFault::Refused(RunCause::Stalled { polls }),
            Stop::Broken => RunFault::Refused(RunCause::Broken),
        }
    }
}
