//! Runs of a replica.

ghost use Rattle.std.specs.Prelude.{◌≡◌, ℕ, ◌≤◌, List};
ghost use Rattle.nm_forward.specs.State.{NodeStateValue};
ghost use Rattle.nm_model.specs.Certificate.{is_done};
ghost use Rattle.nm_model.specs.Knowledge.{Know as Known};
ghost use Rattle.nm_model.specs.Replica.{safe_time};
ghost use Rattle.nm_model.specs.Run.{State, pends_before};
ghost use Rattle.nm_sim.specs.Network.{net_of};
ghost use Rattle.nm_sim.specs.Part.{Represents};
ghost use Rattle.nm_topology.specs.TopologyValue.{TopologyValue};
ghost use Rattle.nm_book.specs.Book.{knowledge_of};
ghost use Rattle.nm_book.specs.BookPart.{IsBook, pending_in};
ghost use Rattle.nm_book.specs.Running.{HasRun};

use nm_base::{Packet, Time};
use nm_events::HeapList;
use nm_forward::NodeState;
use nm_model::replica::safe_time_is_the_least;
use nm_model::run::times_pass;
use nm_model::world::a_run_goes_to_what_is_safe;
use nm_sim::Part;
use nm_sim::network::every_topology_is_a_network;
use nm_topology::Topology;
use std::alloc::Global;

/// How many events a run did, and why it ended.
#[derive(Clone, Copy)]
pub enum Ran {
    /// Nothing is left to do before the safe time.
    All(u64),
    /// So many were asked for, and some are left.
    Limit(u64),
    /// Some are left, and memory was refused or 2^62 events were done. These were done whole, and
    /// of the next one no part.
    Memory(u64),
}

/// Does at most so many events before the safe time.
pub(crate) fn run_part(
    alloc: Global,
    topology: &Topology,
    part: &mut Part<HeapList>,
    safe: Time,
    limit: u64,
) -> Ran
    requires { (p : ℕ) × (knows : List (Known (List ℕ))) × IsBook topology.now p knows part.old
        × (safe ≡ safe_time (net_of topology.now) p (knowledge_of topology.now knows)) }
    ensures book { (p : ℕ) (knows : List (Known (List ℕ))) → IsBook topology.now p knows part.old
        → safe ≡ safe_time (net_of topology.now) p (knowledge_of topology.now knows)
        → IsBook topology.now p knows part.new }
    ensures run { (p : ℕ) (knows : List (Known (List ℕ))) → IsBook topology.now p knows part.old
        → safe ≡ safe_time (net_of topology.now) p (knowledge_of topology.now knows)
        → HasRun topology.now p (knowledge_of topology.now knows) limit
        (part.old.steps, part.new.steps) result }
    ensures keeping { part.new.records.keeping ≡ part.old.records.keeping }
{
    every_topology_is_a_network(topology); // law: `net_of` is a network of the model
    safe_time_is_the_least::<Packet, NodeState>(); // law: the safe time is at most `stop`
    times_pass::<Packet, NodeState>(); // law: some number of events is all
    a_run_goes_to_what_is_safe::<Packet, NodeState>(); // law: where a run ends
    let mut done = 0;
    while done < limit {
        match part.advance(alloc, topology, safe) {
            Err(_) => return Ran::Memory(done),
            Ok(false) => return Ran::All(done),
            Ok(true) => done += 1,
        }
    }
    if is_left(part, safe) {
        Ran::Limit(done)
    } else {
        Ran::All(done)
    }
}

/// Whether an event before this time is to come.
pub(crate) fn is_left(part: &Part<HeapList>, before: Time) -> bool
    ensures { (t : TopologyValue) (p : ℕ) (s : State (List ℕ) NodeStateValue)
        → Represents pending_in t (Some p) part.now s → result ≡ pends_before before s }
{
    match part.least() {
        Some(first) => first < before,
        None => false,
    }
}

/// Whether nothing is left to do: the safe time is `stop`, and no event before it is to come.
pub(crate) fn is_finished(topology: &Topology, part: &Part<HeapList>, safe: Time) -> bool
    ensures { (p : ℕ) (knows : List (Known (List ℕ))) → IsBook topology.now p knows part.now
        → safe ≡ safe_time (net_of topology.now) p (knowledge_of topology.now knows)
        → result ≡ is_done (net_of topology.now) p
        (record { knowledge = knowledge_of topology.now knows; ran = part.now.steps }) }
{
    safe == topology.stop() && !is_left(part, topology.stop())
}
