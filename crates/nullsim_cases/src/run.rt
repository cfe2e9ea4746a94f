//! The run of a network.

ghost use Rattle.std.specs.Prelude.{ℕ, List, None, IfOk};
ghost use Rattle.nm_forward.specs.State.{NodeStateValue};
ghost use Rattle.nm_model.specs.Run.{State};
ghost use Rattle.nm_sim.specs.Part.{Represents};

use nm_base::{Key, Time};
use nm_events::EventList;
use nm_sim::Part;
use nm_topology::Topology;
use std::alloc::{AllocError, Global};

/// Does the part's first event, if its time is before `before` and before the network's `stop`: its
/// key, if one was done.
///
/// # Errors
///
/// `AllocError` if memory was refused.
fn step_before<L: EventList>(
    alloc: Global,
    topology: &Topology,
    part: &mut Part<L>,
    before: Time,
) -> Result<Option<Key>, AllocError>
    requires { (s : State (List ℕ) NodeStateValue) × Represents L.pending topology.now None part.old s }
    ensures { (s : State (List ℕ) NodeStateValue) × Represents L.pending topology.now None part.new s }
{
    let stop = topology.stop();
    let before = if before < stop { before } else { stop };
    part.step(alloc, topology, before)
}

/// The part of the whole network, after all events before a time and before the network's `stop`.
///
/// # Errors
///
/// `AllocError` if memory was refused.
pub fn run_before<L: EventList + Drop>(
    alloc: Global,
    topology: &Topology,
    before: Time,
) -> Result<Part<L>, AllocError>
    ensures { IfOk result
        (λ p. (s : State (List ℕ) NodeStateValue) × Represents L.pending topology.now None p s) }
{
    let mut part = Part::start(alloc, topology, None)?;
    for _ in 0..u64::MAX {
        if step_before(alloc, topology, &mut part, before)?.is_none() {
            return Ok(part);
        }
    }
    Err(AllocError)
}
