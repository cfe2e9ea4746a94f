//! How the run ends, given how its replicas ended.

ghost use Rattle.std.specs.Prelude.{◌≡◌, map};
ghost use Rattle.nm_run.specs.Endings.{AreEndings, fault_of};

use crate::sides::SideEnd;
use crate::stop::Stop;
use nm_replica::Served;

/// Why a run stops if a replica ended so, or `None` if it need not.
fn fault_of(served: Served) -> Option<Stop>
    ensures { result ≡ fault_of served }
{
    match served {
        Served::Ended => None,
        Served::Net => Some(Stop::Net),
        Served::Memory => Some(Stop::Memory),
        Served::File { iface, written } => Some(Stop::File { iface, written }),
        Served::Stalled { polls } => Some(Stop::Stalled { polls }),
    }
}

/// Whether all replicas were done.
///
/// # Errors
///
/// Why one was not. The first that failed made the others end with `Net`, so any other fault comes
/// before `Net`.
pub(crate) fn check_endings<S>(ends: &[SideEnd<S>]) -> Result<(), Stop>
    ensures { AreEndings (map (λ e. e.served) ends.now) result }
{
    let mut outcome = Ok(());
    for number in 0..ends.len() {
        if let Some(fault) = fault_of(ends[number].served) {
            if fault != Stop::Net {
                return Err(fault);
            }
            outcome = Err(Stop::Net);
        }
    }
    outcome
}
