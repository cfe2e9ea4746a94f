//! The gate of one replica of a run.

ghost use Rattle.std.specs.Prelude.{◌≡◌};
ghost use Rattle.nm_run.specs.Going.{IsAsked};
ghost use Rattle.nm_run.specs.declared.going.Going.{Going};

use crate::going::RunGate;
use crate::stations::Own;
use crate::threads::Threaded;
use crate::waking::DispatcherWaker;
use nm_shared::{Entered, Gate, Lending};

/// Lets a replica go on as long as the run's own gate does and the run has not failed, and wakes
/// the dispatcher if there is something new for it to do.
#[derive(Drop)]
pub(crate) struct SideGate<'a, G> {
    pub run: RunGate<'a, G>,
    pub dispatcher: &'a DispatcherWaker,
    /// Who runs the replica's book.
    pub lending: &'a Lending,
}

/// The gate of this replica of a run.
pub(crate) fn gate_of<'a, G>(threaded: &'a Threaded<'_, G>, own: &'a Own<'_>) -> SideGate<'a, G>
    ensures run { (result.run.gate.now ≡ threaded.now.gate.now)
        × (result.run.has_failed.now ≡ threaded.now.has_failed.now) }
    ensures dispatcher { result.dispatcher.now ≡ threaded.now.dispatcher.now }
    ensures own { result.lending.now ≡ own.now.station.now.lending }
{
    SideGate {
        run: RunGate {
            gate: threaded.gate,
            has_failed: threaded.has_failed,
        },
        dispatcher: threaded.dispatcher,
        lending: &own.station.lending,
    }
}

impl<'a, G: Gate> Gate for SideGate<'a, G> {
    fn enter(&self, job: usize) -> Entered {
        self.run.gate.enter(job)
    }

    fn leave(&self, entered: Entered) {
        self.run.gate.leave(entered);
    }

    fn poll(&self, moved: u64) -> bool
        ensures { (going : Going) × IsAsked self.now.run moved going
            × (result ≡ going.goes_on) }
    {
        let looked = self.dispatcher.look_for_news(self.lending);
        self.run.ask(moved, looked).goes_on
    }
}
