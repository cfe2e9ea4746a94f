//! A part of a simulation.

ghost use Rattle.std.specs.Prelude.{◌≡◌, ℕ, ◌+◌, ◌<◌, ◌≤◌, ◌^◌, true, List, [], Option, Some, None};
ghost use Rattle.std.specs.Prelude.{Ok, IfOk, OnOk, length, replicate, false};
ghost use Rattle.nm_base.specs.declared.event.Event.TheVariants.{Delivery};
ghost use Rattle.nm_base.specs.declared.event.Origin.TheVariants.{Arrival};
ghost use Rattle.nm_base.specs.declared.key.Place.TheVariants.{Arrive};
ghost use Rattle.nm_base.specs.Key.{key_of};
ghost use Rattle.std.specs.Option.{option_map};
ghost use Rattle.nm_model.specs.EventList.{least, schedule};
ghost use Rattle.nm_model.specs.Partition.{comes_in};
ghost use Rattle.nm_model.specs.Port.{Port as PortState};
ghost use Rattle.nm_model.specs.Run.{start, source_events};
ghost use Rattle.nm_forward.specs.State.{NodeStateValue};
ghost use Rattle.nm_base.specs.declared.wanted.Wanted.TheVariants.{All as AllWanted};
ghost use Rattle.nm_sim.specs.Records.{cut};
ghost use Rattle.nm_sim.specs.Network.{here_of, net_of};
ghost use Rattle.nm_sim.specs.Part.{Advanced, AdvancedAndTold, HasMemory};
ghost use Rattle.nm_sim.specs.Part.{SteppedAndTold, events_happened, events_told};
ghost use Rattle.nm_sim.specs.Part.{IsOfARun, IsOfARunIn, OfTheRun, OfTheRunIn};
ghost use Rattle.nm_sim.specs.Part.{Represents, Stepped};
ghost use Rattle.nm_sim.specs.Part.{busy_at, count_at, drops_at};
ghost use Rattle.nm_sim.specs.Part.{events_counted, events_done, messages_out, waiting_at};
ghost use Rattle.nm_sim.specs.Part.{with_arrival};
ghost use Rattle.nm_sim.specs.Totals.{totals_at};
ghost use Rattle.nm_sim.specs.Traffic.{iface_traffic_of};
ghost use Rattle.nm_topology.specs.Topology.{receiving_iface};
ghost use Rattle.std.specs.FinMap.{empty, get, insert};
ghost use Rattle.nm_sim.specs.Devices.{DevicesRepresent};
ghost use Rattle.std.specs.Prelude.{drop, if◌then◌else◌, is_some, slice_get, sum_by};

mod event;

use crate::devices::Devices;
use crate::network::{channels_are_those_of_the_network, every_topology_is_a_network};
use crate::outgoing::Outgoing;
use crate::records::Records;
use crate::timeline::Timeline;
use crate::told::{Happened, Told};
use crate::traffic::IfaceTraffic;
use nm_base::limits::MAX_PART_STEPS;
use nm_base::{ChanNo, Event, IfaceNo, Key, NodeNo, Origin, Packet, PartNo, Record, Time, Wanted};
use nm_events::EventList;
use nm_forward::{Counter, NodeState};
use nm_model::orderly::{a_message_keeps_order, every_state_is_orderly};
use nm_topology::Topology;
use nm_topology::topology::channels_are_numbered_by_their_receivers;
use std::alloc::{AllocError, Global};
use std::marker::Model;

/// A simulation that goes on event by event, in the order of their keys: of a whole network, or of
/// one partition (a logical process: J. Misra, 1986, section 2), which gets the messages of its
/// incoming channels. Nodes, ports and sources of other partitions are not kept.
#[derive(Drop)]
pub struct Part<L> {
    part: Option<PartNo>,
    devices: Devices,
    timeline: Timeline<L>,
    outgoing: Outgoing,
    records: Records,
    steps: u64,
}

impl<L> Model for Part<L> {
    ghost use Rattle.std.specs.Prelude.{◌≤◌, ◌^◌};
    ghost use Rattle.nm_sim.specs.Part.{PartValue};

    ghost Value = { PartValue L };

    ghost view = { λ p. record {
      part = p.part;
      devices = p.devices;
      timeline = p.timeline;
      outgoing = p.outgoing;
      records = p.records;
      steps = p.steps;
    } };

    ghost invariant = { λ p. p.steps ≤ 2 ^ 62 };
}

/// The timeline of a part at the start of a run: the first packet of each source that is here is to
/// come.
fn first_timeline<L: EventList + Drop>(
    alloc: Global,
    topology: &Topology,
    part: &Option<PartNo>,
    devices: &Devices,
) -> Result<Timeline<L>, AllocError>
    requires { (node : ℕ → NodeStateValue) × (port : ℕ → PortState (List ℕ))
        × DevicesRepresent topology.now (record {
          part = part.now;
          node = node;
          port = port;
        }) devices.now }
    ensures events { IfOk result (λ l. L.pending l.events
        ≡ schedule (here_of topology.now part.now)
        (source_events (net_of topology.now) (length topology.now.sources)) empty) }
    ensures sent { IfOk result (λ l. l.sent ≡ replicate (length topology.now.ifaces) 0) }
{
    let mut timeline = Timeline::new(alloc, topology.ifaces().len())?;
    let count = topology.sources().len();
    for number in 0..count {
        let source = topology.source_number(number);
        timeline.reserve(1)?;
        let first = devices.first_packet(alloc, topology, source)?;
        timeline.schedule_first(source, first);
    }
    Ok(timeline)
}

impl<L: EventList> Part<L> {
    /// The part at the start of a run: the whole network, or one partition. It keeps all records.
    ///
    /// # Errors
    ///
    /// `AllocError` if memory was refused.
    pub fn start(
        alloc: Global,
        topology: &Topology,
        part: Option<PartNo>,
    ) -> Result<Self, AllocError>
    where
        L: Drop,
        ensures represents { IfOk result (λ p. Represents L.pending topology.now part p
            (start (net_of topology.now) (here_of topology.now part) [])) }
        ensures steps { IfOk result (λ p. p.steps ≡ 0) }
        ensures keeping { IfOk result (λ p. p.records.keeping
            ≡ record { wanted = AllWanted; handed = 0 }) }
    {
        Part::start_with(alloc, topology, part, Wanted::All)
    }

    /// The part at the start of a run, which keeps the wanted records. If none is wanted at an
    /// interface, a packet that a node sends on there is changed where it lies, if nobody else has
    /// its octets.
    ///
    /// # Errors
    ///
    /// `AllocError` if memory was refused.
    pub fn start_with(
        alloc: Global,
        topology: &Topology,
        part: Option<PartNo>,
        wanted: Wanted,
    ) -> Result<Self, AllocError>
    where
        L: Drop,
        ensures represents { IfOk result (λ p. Represents L.pending topology.now part p
            (start (net_of topology.now) (here_of topology.now part) [])) }
        ensures steps { IfOk result (λ p. p.steps ≡ 0) }
        ensures keeping { IfOk result (λ p. p.records.keeping
            ≡ record { wanted = wanted; handed = 0 }) }
    {
        every_topology_is_a_network(topology); // law: `net_of` is a network of the model
        every_state_is_orderly::<Packet, NodeState>(); // law: the first state is orderly
        let devices = Devices::new(alloc, topology, &part, &wanted)?;
        let timeline = first_timeline(alloc, topology, &part, &devices)?;
        let outgoing = Outgoing::new(alloc, topology, &part)?;
        let records = Records::new(alloc, topology.ifaces().len(), wanted)?;
        Ok(Part {
            part,
            devices,
            timeline,
            outgoing,
            records,
            steps: 0,
        })
    }

    /// Makes room for so many arrivals.
    ///
    /// # Errors
    ///
    /// `AllocError` if the event list could not grow. The part is as it was then.
    pub fn reserve(&mut self, count: usize) -> Result<(), AllocError>
        // The part is in the same runs.
        ensures same { OfTheRun L.pending self.old
            (λ t part s. Represents L.pending t part self.new s) }
        ensures events { L.pending self.new.timeline.events ≡ L.pending self.old.timeline.events }

        // On success there is room for so many events. The room never shrinks.
        ensures room { OnOk result (count ≤ L.room self.new.timeline.events) }
        ensures keeps { L.room self.old.timeline.events ≤ L.room self.new.timeline.events }

        // No event was done, and no record handed out.
        ensures steps { self.new.steps ≡ self.old.steps }
        ensures keeping { self.new.records.keeping ≡ self.old.records.keeping }
    {
        self.timeline.reserve(count)
    }

    /// A message of a channel: the packet with this number on the channel is to arrive at this
    /// time, at the channel's receiving interface. It takes no memory.
    pub fn put_arrival(
        &mut self,
        topology: &Topology,
        channel: ChanNo,
        number: u64,
        time: Time,
        packet: Packet,
    )
        // There is room, and no event has the key.
        requires room { 1 ≤ L.room self.old.timeline.events }
        requires fresh { get (L.pending self.old.timeline.events)
            (key_of time (Arrive (receiving_iface topology.now channel)) number) ≡ None }

        // The arrival is to come, and the others are as before.
        ensures events { L.pending self.new.timeline.events
            ≡ insert (L.pending self.old.timeline.events)
            (key_of time (Arrive (receiving_iface topology.now channel)) number)
            (Delivery (Arrival (receiving_iface topology.now channel)) packet) }

        // If the channel comes in here, the arrival is to come in each run that the part is in.
        ensures arrival { (p : ℕ) → self.old.part ≡ Some p
            → comes_in (net_of topology.now) p (receiving_iface topology.now channel) ≡ true
            → OfTheRunIn L.pending topology.now self.old
            (λ part s. Represents L.pending topology.now part self.new
            (with_arrival (receiving_iface topology.now channel) number time packet s)) }

        // It takes one place; no event was done, and no record handed out.
        ensures room { L.room self.old.timeline.events ≤ L.room self.new.timeline.events + 1 }
        ensures steps { self.new.steps ≡ self.old.steps }
        ensures keeping { self.new.records.keeping ≡ self.old.records.keeping }
    {
        a_message_keeps_order::<Packet, NodeState>(); // law: a state that is told more is orderly
        channels_are_those_of_the_network(topology); // law: what comes in is a channel
        channels_are_numbered_by_their_receivers(topology); // law: its interface is there
        let origin = Origin::Arrival(topology.receiver(channel));
        self.timeline
            .put(time, number, Event::Delivery(origin, packet));
    }

    /// Does the event of the least key, if its time is before `before`, which is at most the
    /// network's `stop`: `Some` of that key, or `None` if nothing before `before` is to come.
    ///
    /// # Errors
    ///
    /// `AllocError` if an event was to be done, and memory was refused or 2^62 events were done: no
    /// part of it was done.
    pub fn step(
        &mut self,
        alloc: Global,
        topology: &Topology,
        before: Time,
    ) -> Result<Option<Key>, AllocError>
        requires before { before ≤ topology.now.stop }
        requires represents { IsOfARunIn L.pending topology.now self.old }
        ensures step { OfTheRunIn L.pending topology.now self.old
            (λ part s. Stepped L.pending topology.now (record {
              part = part;
              state = s;
              until = before;
            }) self.old self.new result) }
        ensures steps { self.new.steps ≡ self.old.steps + events_done result }
        ensures keeping { self.new.records.keeping ≡ self.old.records.keeping }
    {
        let Some(key) = self.timeline.least() else {
            return Ok(None);
        };
        if self.advance(alloc, topology, before)? {
            Ok(Some(key))
        } else {
            Ok(None)
        }
    }

    /// Does an event as `step` does, and says what happened in it.
    ///
    /// # Errors
    ///
    /// Those of `step`.
    pub fn step_and_tell(
        &mut self,
        alloc: Global,
        topology: &Topology,
        before: Time,
    ) -> Result<Option<Told>, AllocError>
        requires before { before ≤ topology.now.stop }
        requires represents { IsOfARunIn L.pending topology.now self.old }
        ensures step { OfTheRunIn L.pending topology.now self.old
            (λ part s. SteppedAndTold L.pending topology.now (record {
              part = part;
              state = s;
              until = before;
            }) self.old self.new result) }
        ensures steps { self.new.steps ≡ self.old.steps + events_told result }
        ensures keeping { self.new.records.keeping ≡ self.old.records.keeping }
    {
        let Some(key) = self.timeline.least() else {
            return Ok(None);
        };
        match self.advance_and_tell(alloc, topology, before)? {
            Some(happened) => Ok(Some(Told { key, happened })),
            None => Ok(None),
        }
    }

    /// Does an event as `step` does, and says what happened in it, if there was one.
    #[inline(always)]
    fn advance_and_tell(
        &mut self,
        alloc: Global,
        topology: &Topology,
        before: Time,
    ) -> Result<Option<Happened>, AllocError>
        requires before { before ≤ topology.now.stop }
        requires represents { IsOfARunIn L.pending topology.now self.old }
        ensures advance { OfTheRunIn L.pending topology.now self.old
            (λ part s. AdvancedAndTold L.pending topology.now (record {
              part = part;
              state = s;
              until = before;
            }) self.old self.new result) }
        ensures steps { self.new.steps ≡ self.old.steps + events_happened result }
        ensures keeping { self.new.records.keeping ≡ self.old.records.keeping }
    {
        if !self.timeline.is_due(before) {
            return Ok(None);
        }
        if self.steps == MAX_PART_STEPS {
            return Err(AllocError);
        }
        self.reserve_event()?;
        Ok(Some(self.perform(alloc, topology)?))
    }

    /// Does an event as `step` does, and answers whether there was one.
    pub fn advance(
        &mut self,
        alloc: Global,
        topology: &Topology,
        before: Time,
    ) -> Result<bool, AllocError>
        requires before { before ≤ topology.now.stop }
        requires represents { IsOfARunIn L.pending topology.now self.old }
        ensures advance { OfTheRunIn L.pending topology.now self.old
            (λ part s. Advanced L.pending topology.now (record {
              part = part;
              state = s;
              until = before;
            }) self.old self.new result) }
        ensures steps { self.new.steps ≡ self.old.steps + events_counted result }
        ensures keeping { self.new.records.keeping ≡ self.old.records.keeping }
    {
        match self.advance_and_tell(alloc, topology, before)? {
            Some(_) => Ok(true),
            None => Ok(false),
        }
    }

    /// Makes memory for all that one event may do. An `Err` changes nothing else.
    #[inline(always)]
    fn reserve_event(&mut self) -> Result<(), AllocError>
        ensures same { OfTheRun L.pending self.old
            (λ t part s. Represents L.pending t part self.new s) }
        ensures steps { self.new.steps ≡ self.old.steps }
        ensures keeping { self.new.records.keeping ≡ self.old.records.keeping }
        ensures memory { OnOk result (HasMemory L.room self.new) }
    {
        self.devices.reserve()?;
        self.timeline.reserve(3)?;
        self.outgoing.reserve()?;
        self.records.reserve()
    }

    /// How many events were done, at most 2^62.
    pub fn events(&self) -> u64
        ensures value { result ≡ self.now.steps }
        ensures most { result ≤ 2 ^ 62 }
    {
        self.steps
    }

    /// What the node counted, if it is here.
    pub fn counter(&self, node: NodeNo, counter: Counter) -> Option<u64>
        ensures { OfTheRun L.pending self.now
            (λ t part s. result ≡ count_at t part s node counter) }
    {
        self.devices.counter(node, counter)
    }

    /// How many packets were dropped at the interface, if it is here.
    pub fn dropped(&self, iface: IfaceNo) -> Option<u64>
        ensures { OfTheRun L.pending self.now (λ t part s. result ≡ drops_at t part s iface) }
    {
        self.devices.dropped(iface)
    }

    /// How many packets wait at the interface behind the one that is transmitted, if it is here.
    pub fn waiting(&self, iface: IfaceNo) -> Option<usize>
        ensures { OfTheRun L.pending self.now
            (λ t part s. result ≡ waiting_at length t part s iface) }
    {
        self.devices.waiting(iface)
    }

    /// How many octets these packets have.
    pub fn waiting_octets(&self, iface: IfaceNo) -> Option<u32>
        ensures { OfTheRun L.pending self.now
            (λ t part s. result ≡ waiting_at (sum_by length) t part s iface) }
    {
        self.devices.waiting_octets(iface)
    }

    /// The least time of an event that is to come, if there is one.
    pub fn least(&self) -> Option<Time>
        ensures { result ≡ option_map (λ e. e.0.time) (least (L.pending self.now.timeline.events)) }
    {
        let key = self.timeline.least()?;
        Some(key.time)
    }

    /// What was put on an outgoing channel, each packet with its time of arrival; its place in the
    /// list is its number. Nothing is ever put on other channels.
    pub fn out(&self, channel: ChanNo) -> &[(Time, Packet)]
        ensures { OfTheRun L.pending self.now
            (λ t part s. result.now ≡ messages_out t part s channel) }
    {
        self.outgoing.messages(channel)
    }

    /// When the transmission of the interface that sends on a channel completes, before 2^51 ns; 0
    /// if it is idle, or not here. It takes no memory.
    pub fn busy(&self, topology: &Topology, channel: ChanNo) -> Time
        ensures value { OfTheRunIn L.pending topology.now self.now
            (λ part s. result ≡ busy_at topology.now part s channel) }
        ensures soon { result < 2 ^ 51 }
    {
        let receiver = topology.receiver(channel);
        if receiver.index() >= topology.ifaces().len() {
            return Time::from_nanoseconds(0);
        }
        let sender = topology.iface(receiver).far().iface;
        self.devices.busy(sender)
    }

    /// The trace so far, in the order of events, of the interfaces with wanted records, without the
    /// records that were handed out.
    pub fn trace(&self) -> &[Record]
        ensures kept { result.now ≡ self.now.records.kept }
        ensures trace { OfTheRun L.pending self.now
            (λ t part s. result.now ≡ drop self.now.records.keeping.handed
            (cut self.now.records.keeping.wanted s.records)) }
    {
        self.records.trace()
    }

    /// The trace, without the records that were handed out.
    pub fn into_trace(self) -> Vec<Record>
    where
        L: Drop,
        ensures { OfTheRun L.pending self
            (λ t part s. result.items ≡ drop self.records.keeping.handed
            (cut self.records.keeping.wanted s.records)) }
    {
        self.records.into_trace()
    }

    /// Takes the first record of the trace out that is kept, if there is one. It takes no memory,
    /// and gives that of the record to the caller.
    #[inline(always)]
    pub fn hand_out(&mut self) -> Option<Record>
        requires { IsOfARun L.pending self.old }
        ensures represents { OfTheRun L.pending self.old
            (λ t part s. Represents L.pending t part self.new s
            × (result ≡ slice_get (cut self.old.records.keeping.wanted s.records)
            self.old.records.keeping.handed)) }
        ensures keeping { self.new.records.keeping ≡ record self.old.records.keeping {
          handed = self.old.records.keeping.handed + (if is_some result then 1 else 0);
        } }
        ensures timeline { self.new.timeline ≡ self.old.timeline }
        ensures steps { self.new.steps ≡ self.old.steps }
    {
        self.records.hand_out()
    }

    /// Takes all kept records out of the trace: one by one would cost a blank each. Those to come
    /// are kept in the list that comes in, which is empty. It takes no memory, and gives that of
    /// the records to the caller.
    pub fn hand_out_all(&mut self, room: Vec<Record>) -> Vec<Record>
        requires empty { room.items ≡ [] }
        requires represents { IsOfARun L.pending self.old }
        ensures represents { OfTheRun L.pending self.old
            (λ t part s. Represents L.pending t part self.new s
            × (result.items ≡ drop self.old.records.keeping.handed
            (cut self.old.records.keeping.wanted s.records))) }
        ensures keeping { self.new.records.keeping ≡ record self.old.records.keeping {
          handed = self.old.records.keeping.handed + length result.items;
        } }
        ensures timeline { self.new.timeline ≡ self.old.timeline }
        ensures steps { self.new.steps ≡ self.old.steps }
    {
        self.records.hand_out_all(room)
    }

    /// Drops all kept records of the trace: they count as handed out.
    #[inline(always)]
    pub fn let_go(&mut self)
        requires { IsOfARun L.pending self.old }
        ensures represents { OfTheRun L.pending self.old
            (λ t part s. Represents L.pending t part self.new s
            × (self.new.records.keeping ≡ record self.old.records.keeping {
              handed = length (cut self.old.records.keeping.wanted s.records);
            })) }
        ensures timeline { self.new.timeline ≡ self.old.timeline }
        ensures steps { self.new.steps ≡ self.old.steps }
    {
        self.records.let_go()
    }

    /// How many records were handed out.
    pub fn handed(&self) -> u64
        ensures { result ≡ self.now.records.keeping.handed }
    {
        self.records.handed()
    }

    /// How many records the trace has of the interfaces with wanted records, with those that were
    /// handed out.
    pub fn records(&self) -> u64
        requires { IsOfARun L.pending self.now }
        ensures { OfTheRun L.pending self.now
            (λ t part s. result ≡ length (cut self.now.records.keeping.wanted s.records)) }
    {
        self.records.records()
    }

    /// How many records there were of all interfaces, wanted or not, to show how far a run is.
    pub fn made(&self) -> u64 {
        self.records.made()
    }

    /// How many records an interface has, with those that were handed out, and the octets of their
    /// trace file with its header. Both stop at the greatest `u64`.
    pub fn totals(&self, iface: IfaceNo) -> (u64, u64)
        ensures { OfTheRun L.pending self.now (λ t part s. result ≡ totals_at t s.records iface) }
    {
        self.records.totals(iface)
    }

    /// The packets that arrived at an interface and those that it began to transmit, with their
    /// octets. `None` if there is no such interface.
    pub fn traffic(&self, iface: IfaceNo) -> Option<IfaceTraffic>
        ensures { OfTheRun L.pending self.now (λ t part s. iface < length t.ifaces
            → result ≡ Some (iface_traffic_of iface s.records)) }
    {
        self.records.traffic(iface)
    }
}
