//! Whether a replica of a run goes on.

ghost use Rattle.std.specs.Prelude.{◌≡◌, ◌&&◌, IfSome, is_some, not};
ghost use Rattle.nm_run.specs.Going.{IsAsked};

use crate::waking::NewsLook;
use nm_shared::Gate;
use std::sync::{OnceLock, OnceToken};

/// What a run's own gate answered when it was told that so many octets had moved: only
/// `RunGate::answer` makes it.
#[derive(Clone, Copy)]
struct GateAnswer {
    moved: u64,
    may: bool,
}

/// Whether a replica goes on: only `RunGate::ask` makes it.
#[derive(Drop)]
pub(crate) struct Going<'a> {
    gate: GateAnswer,
    /// Shows that the run has failed, if it was seen to have.
    failure: Option<OnceToken<'a, ()>>,
    pub goes_on: bool,
}

/// What decides whether a replica goes on: the run's own gate, and whether the run has failed.
#[derive(Clone, Copy)]
pub(crate) struct RunGate<'a, G> {
    pub gate: &'a G,
    pub has_failed: &'a OnceLock<()>,
}

/// Whether a replica goes on: the run's own gate lets it, and the run has not failed.
fn goes_on(may: bool, has_failed: bool) -> bool
    ensures { result ≡ (may && not has_failed) }
{
    may && !has_failed
}

impl<'a, G: Gate> RunGate<'a, G> {
    /// Asks the run's own gate.
    fn answer(&self, moved: u64) -> GateAnswer
        ensures { result.moved ≡ moved }
    {
        GateAnswer {
            may: self.gate.poll(moved),
            moved,
        }
    }

    /// Asks whether a replica goes on whose wires have moved so many octets. What was new for the
    /// dispatcher was passed to it before.
    pub(crate) fn ask(&self, moved: u64, _: NewsLook) -> Going<'a>
        ensures { IsAsked self.now moved result }
    {
        let gate = self.answer(moved);
        let failure = self.has_failed.witness();
        let goes_on = goes_on(gate.may, failure.is_some());
        Going {
            gate,
            failure,
            goes_on,
        }
    }
}
