//! What is seen of all interfaces, event by event.

ghost use Rattle.std.specs.Prelude.{◌≡◌, ℕ, suc, ◌-◌, ◌<◌, ◌≤◌, max, IfOk, None, length};
ghost use Rattle.std.specs.Prelude.{option_map, slice_get};
ghost use Rattle.nm_events.specs.Held.{pending_of};
ghost use Rattle.nm_forward.specs.State.{NodeStateValue};
ghost use Rattle.nm_model.specs.Run.{State, one_list};
ghost use Rattle.nm_topology.specs.TopologyValue.{TopologyValue};
ghost use Rattle.std.specs.Prelude.{List};
ghost use Rattle.nm_sim.specs.Effects.{IsPlaceIn};
ghost use Rattle.nm_sim.specs.Part.{Represents};
ghost use Rattle.nm_measure.specs.Interfaces.{AreSeen, HasQueue, HasStarted, IsNext, OneChanges};
ghost use Rattle.nm_measure.specs.Interfaces.{queue_in, queue_turned, queued_at};

use crate::queue::{Queue, Waits};
use crate::seen::Seen;
use crate::usage::Usage;
use nm_base::{IfaceNo, Packet, Place, Time};
use nm_events::HeapList;
use nm_forward::NodeState;
use nm_model::Offering;
use nm_model::run::keys_rise;
use nm_model::trace::what_starts_arrives;
use nm_sim::network::every_topology_is_a_network;
use nm_sim::{Happened, Part, Started};
use nm_topology::Topology;
use nm_topology::topology::accepted_topologies_are_in_order;
use std::alloc::{AllocError, Global};

/// What is seen of all interfaces.
#[derive(Drop)]
pub(crate) struct Interfaces {
    all: Vec<Seen>,
}

/// Nothing was seen yet of any interface.
fn none_seen(alloc: Global, topology: &Topology) -> Result<Vec<Seen>, AllocError>
    ensures { IfOk result (λ all. AreSeen topology.now 0 0 all.items) }
{
    accepted_topologies_are_in_order(topology); // law: rates are within their limits
    let mut all = Vec::new(alloc);
    for number in 0..topology.ifaces().len() {
        let far = topology.iface(topology.iface_number(number)).far();
        all.push(Seen {
            queue: Queue::new(),
            usage: Usage::new(far.rate),
        })?;
    }
    Ok(all)
}

/// What waits at an interface.
fn queue_of(part: &Part<HeapList>, iface: IfaceNo) -> Waits
    ensures { (t : TopologyValue) (s : State (List ℕ) NodeStateValue)
        → Represents pending_of t None part.now s → iface < length t.ifaces
        → result ≡ queue_in iface s }
{
    Waits {
        packets: part.waiting(iface).unwrap_or(0) as u64,
        octets: u64::from(part.waiting_octets(iface).unwrap_or(0)),
    }
}

/// The interface at which a packet that was offered waits behind others.
fn queued_at(offering: Offering) -> Option<IfaceNo>
    ensures { result ≡ queued_at offering }
{
    match offering {
        Offering::Nothing | Offering::Started(_) | Offering::Dropped(_) => None,
        Offering::Waits(iface) => Some(iface),
    }
}

/// The interface whose queue an event at this place may have changed. A packet that starts at once
/// finds an empty queue and leaves one; so does a completion behind which none starts. A packet
/// that is dropped leaves a full one as it is.
fn queue_turned(place: &Place, happened: &Happened) -> Option<IfaceNo>
    ensures { result ≡ queue_turned place.now happened.now }
{
    match place {
        Place::Complete(_) => Some(happened.started.as_ref()?.iface),
        Place::Arrive(_) | Place::Fire(_) => queued_at(happened.offering),
    }
}

/// How many nanoseconds are left before `stop`.
fn time_left(topology: &Topology, now: Time) -> u64
    ensures { result ≡ topology.now.stop - now }
{
    topology
        .stop()
        .nanoseconds()
        .saturating_sub(now.nanoseconds())
}

impl Interfaces {
    /// Nothing was seen yet.
    pub(crate) fn new(alloc: Global, topology: &Topology) -> Result<Self, AllocError>
        ensures { IfOk result (λ x. AreSeen topology.now 0 0 x.all.items) }
    {
        Ok(Interfaces {
            all: none_seen(alloc, topology)?,
        })
    }

    /// What is seen of an interface. `None` if there is no such interface.
    pub(crate) fn get(&self, iface: IfaceNo) -> Option<&Seen>
        ensures { option_map (λ x. x.now) result ≡ slice_get self.now.all.items iface }
    {
        self.all.get(iface.index())
    }

    /// Starts the count of the most that wait at one time again.
    pub(crate) fn begin_recent(&mut self)
        ensures { (t : TopologyValue) (first n : ℕ) → AreSeen t first n self.old.all.items
            → AreSeen t n n self.new.all.items }
    {
        for number in 0..self.all.len() {
            self.all[number].queue.begin_recent();
        }
    }

    /// Notes the queue of an interface, as the part now has it.
    fn change(&mut self, part: &Part<HeapList>, iface: IfaceNo, now: Time)
        ensures { (t : TopologyValue) (s : State (List ℕ) NodeStateValue)
            → Represents pending_of t None part.now s → length self.old.all.items ≡ length t.ifaces
            → OneChanges iface (HasQueue now (queue_in iface s))
            self.old.all.items self.new.all.items }
    {
        let waits = queue_of(part, iface);
        let place = iface.index();
        if place < self.all.len() {
            self.all[place].change(waits, now);
        }
    }

    /// A transmission started now, `left` nanoseconds before `stop`.
    fn start(&mut self, started: &Started, now: Time, left: u64)
        ensures { OneChanges started.now.iface (HasStarted (max 1 started.now.octets) now left)
            self.old.all.items self.new.all.items }
    {
        let octets = usize::from(started.octets).max(1);
        let place = started.iface.index();
        if place < self.all.len() {
            self.all[place].start(octets, now, left);
        }
    }

    /// Sees an event, which was just done.
    pub(crate) fn see(
        &mut self,
        topology: &Topology,
        part: &Part<HeapList>,
        now: Time,
        place: &Place,
        happened: &Happened,
    )
        ensures { (first n : ℕ) → AreSeen topology.now first n self.old.all.items
            → IsNext topology.now n now place.now part.now happened.now
            → AreSeen topology.now first (suc n) self.new.all.items }
    {
        every_topology_is_a_network(topology); // law: `net_of` is a network of the model
        accepted_topologies_are_in_order(topology); // law: `stop` is within its limit
        keys_rise::<Packet, NodeState>(); // law: times of events rise
        what_starts_arrives::<Packet, NodeState>(); // law: transmissions do not overlap
        if let Some(started) = &happened.started {
            self.start(started, now, time_left(topology, now));
        }
        if let Some(iface) = queue_turned(place, happened) {
            self.change(part, iface, now);
        }
    }
}
