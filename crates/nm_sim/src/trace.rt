//! The trace of a network.

ghost use Rattle.std.specs.Prelude.{◌≡◌, ℕ, ◌≤◌, None, List, min, IfOk, OnOk};
ghost use Rattle.nm_base.specs.declared.record.Record.{Record as TraceRecord};
ghost use Rattle.nm_base.specs.declared.wanted.Wanted.TheVariants.{All};
ghost use Rattle.nm_events.specs.Held.{pending_of};
ghost use Rattle.nm_model.specs.Before.{IsBefore};
ghost use Rattle.nm_model.specs.Run.{one_list};
ghost use Rattle.nm_sim.specs.Network.{net_of};
ghost use Rattle.nm_sim.specs.Part.{Represents};
ghost use Rattle.nm_sim.specs.Trace.{IsTraceBefore};

use crate::network::every_topology_is_a_network;
use crate::part::Part;
use nm_base::limits::MAX_PART_STEPS;
use nm_base::{Packet, Record, Time};
use nm_events::SortedList;
use nm_forward::NodeState;
use nm_model::run::times_pass;
use nm_topology::Topology;
use std::alloc::{AllocError, Global};

/// Each network has one trace before a time.
pub fn every_topology_has_a_trace(topology: &Topology)
    ensures there { (until : ℕ) → (r : List (TraceRecord (List ℕ)))
        × IsTraceBefore topology.now until r }
    ensures one { (until : ℕ) (a b : List (TraceRecord (List ℕ)))
        → IsTraceBefore topology.now until a → IsTraceBefore topology.now until b → a ≡ b }
{
    every_topology_is_a_network(topology); // law: `net_of` is a network of the model
    times_pass::<Packet, NodeState>(); // law: each time is passed after one number of events
}

/// The earlier of two moments.
fn earlier(a: Time, b: Time) -> Time
    ensures { result ≡ min a b }
{
    if a < b { a } else { b }
}

/// Does the events of a part at the start of a run, up to a time.
fn run(
    alloc: Global,
    topology: &Topology,
    before: Time,
    part: &mut Part<SortedList>,
) -> Result<(), AllocError>
    requires before { before ≤ topology.now.stop }
    requires represents { Represents pending_of topology.now None part.old
        (one_list (net_of topology.now) 0) }
    requires whole { part.old.records.keeping ≡ record { wanted = All; handed = 0 } }
    ensures done { OnOk result ((n : ℕ) × IsBefore (net_of topology.now) before n
        × Represents pending_of topology.now None part.new (one_list (net_of topology.now) n)) }
    ensures whole { OnOk result (part.new.records.keeping ≡ record { wanted = All; handed = 0 }) }
{
    for done in 0..MAX_PART_STEPS + 1 {
        if !part.advance(alloc, topology, before)? {
            return Ok(());
        }
    }
    Err(AllocError)
}

/// The whole trace of a network before a time and before its `stop`, by one event list (J. Misra,
/// 1986, section 1): every other way of running it is compared with this.
///
/// # Errors
///
/// `AllocError` if memory was refused, or after more than 2^62 events.
pub fn one_list(alloc: Global, topology: &Topology, until: Time) -> Result<Vec<Record>, AllocError>
    ensures { IfOk result (λ r. IsTraceBefore topology.now until r.items) }
{
    let before = earlier(until, topology.stop());
    let mut part = Part::<SortedList>::start(alloc, topology, None)?;
    run(alloc, topology, before, &mut part)?;
    Ok(part.into_trace())
}
