//! The trace of a network, record by record.

ghost use Rattle.std.specs.Prelude.{◌≡◌, List, [], ℕ, IfOk};
ghost use Rattle.nm_base.specs.declared.record.Record.{Record as TraceRecord};
ghost use Rattle.std.specs.Option.{option_map};
ghost use Rattle.nm_model.specs.EventList.{least};
ghost use Rattle.nm_events.specs.Held.{pending_of};
ghost use Rattle.nm_base.specs.declared.wanted.Wanted.TheVariants.{All};
ghost use Rattle.nm_sim.specs.Records.{cut};
ghost use Rattle.nm_sim.specs.Trace.{IsTraceBefore};
ghost use Rattle.nm_sim.specs.Tracing.{ShowsNext, IsTracing};

use crate::network::every_topology_is_a_network;
use crate::part::Part;
use nm_base::{Packet, Record, Time, Wanted};
use nm_events::HeapList;
use nm_forward::NodeState;
use nm_model::run::times_pass;
use nm_topology::Topology;
use std::alloc::{AllocError, Global};
use std::marker::Model;

/// A run of a whole network by one event list (J. Misra, 1986, section 1), which shows the wanted
/// records of one event after another. It keeps the network, what is to come and the records of the
/// last event, however long the run is.
#[derive(Drop)]
pub struct Tracer {
    part: Part<HeapList>,
}

impl Model for Tracer {
    ghost use Rattle.nm_events.specs.Held.{Held};
    ghost use Rattle.nm_sim.specs.Part.{PartValue};

    ghost Value = { PartValue Held };

    ghost view = { λ t. t.part };
}

impl Tracer {
    /// The network at the start of its run, before its first event.
    ///
    /// # Errors
    ///
    /// `AllocError` if memory was refused.
    pub fn start(alloc: Global, topology: &Topology) -> Result<Self, AllocError>
        ensures tracing { IfOk result (λ r. IsTracing pending_of topology.now r) }
        ensures keeping { IfOk result (λ r. r.records.keeping
            ≡ record { wanted = All; handed = 0 }) }
        ensures nothing { IfOk result (λ r. r.records.kept ≡ []) }
    {
        Tracer::start_with(alloc, topology, Wanted::All)
    }

    /// The same, which shows these records.
    ///
    /// # Errors
    ///
    /// `AllocError` if memory was refused.
    pub fn start_with(
        alloc: Global,
        topology: &Topology,
        wanted: Wanted,
    ) -> Result<Self, AllocError>
        ensures tracing { IfOk result (λ r. IsTracing pending_of topology.now r) }
        ensures keeping { IfOk result (λ r. r.records.keeping
            ≡ record { wanted = wanted; handed = 0 }) }
        ensures nothing { IfOk result (λ r. r.records.kept ≡ []) }
    {
        let part = Part::<HeapList>::start_with(alloc, topology, None, wanted)?;
        Ok(Tracer { part })
    }

    /// Does the next event, and shows its records: whether there was one. The records shown before
    /// are dropped.
    ///
    /// # Errors
    ///
    /// `AllocError` if memory was refused, or after 2^62 events: no event was done, and the call
    /// may be made again.
    pub fn go_on(&mut self, alloc: Global, topology: &Topology) -> Result<bool, AllocError>
        requires { IsTracing pending_of topology.now self.old }
        ensures tracing { IsTracing pending_of topology.now self.new }
        ensures next { (records : List (TraceRecord (List ℕ)))
            → IsTraceBefore topology.now topology.now.stop records
            → ShowsNext (cut self.old.records.keeping.wanted records)
            self.old.records result self.new.records }
    {
        every_topology_is_a_network(topology); // law: `net_of` is a network of the model
        times_pass::<Packet, NodeState>(); // law: a time is passed after one number of events
        self.part.let_go();
        self.part.advance(alloc, topology, topology.stop())
    }

    /// The records of the last event, which come next in the trace after those that were dropped.
    pub fn trace(&self) -> &[Record]
        ensures { result.now ≡ self.now.records.kept }
    {
        self.part.trace()
    }

    /// How many events were done, at most 2^62.
    pub fn events(&self) -> u64
        ensures { result ≡ self.now.steps }
    {
        self.part.events()
    }

    /// The time of the event that comes next, if there is one.
    pub fn next_time(&self) -> Option<Time>
        ensures { result
            ≡ option_map (λ e. e.0.time) (least (pending_of self.now.timeline.events)) }
    {
        self.part.least()
    }

    /// How many records there were of all interfaces, wanted or not, to show how far a run is.
    pub fn made(&self) -> u64 {
        self.part.made()
    }

    /// How many records were dropped.
    pub fn handed(&self) -> u64
        ensures { result ≡ self.now.records.keeping.handed }
    {
        self.part.handed()
    }
}
