//! The event list of a part, and how many packets were put on each interface.

ghost use Rattle.std.specs.Prelude.{◌≡◌, ℕ, ◌+◌, ◌≤◌, ◌<◌, ◌^◌, ◌++◌, ◌∷◌, List, [], Option, Some};
ghost use Rattle.std.specs.Prelude.{None, OnOk, IfOk, IfSome, IfNone, length, replicate};
ghost use Rattle.std.specs.Prelude.{slice_index, slice_set};
ghost use Rattle.std.specs.Option.{option_map};
ghost use Rattle.std.specs.FinMap.{empty, get, insert, remove};
ghost use Rattle.nm_base.specs.Event.{event_place};
ghost use Rattle.nm_base.specs.Key.{key_of};
ghost use Rattle.nm_base.specs.declared.key.Place.TheVariants.{Arrive};
ghost use Rattle.nm_base.specs.declared.event.Event.TheVariants.{Delivery};
ghost use Rattle.nm_base.specs.declared.event.Origin.TheVariants.{Arrival};
ghost use Rattle.nm_model.specs.EventList.{is_before, least, schedule};
ghost use Rattle.nm_model.specs.Lists.{set_at};
ghost use Rattle.nm_model.specs.Run.{by_source, first_event, keyed, next_events, sent_after};
ghost use Rattle.nm_model.specs.Run.{transmission_events};
ghost use Rattle.nm_base.specs.declared.wanted.Wanted.{Wanted};
ghost use Rattle.nm_sim.specs.Effects.{IsCopied, TransmitsAt, transmission_of};
ghost use Rattle.nm_sim.specs.Records.{HasWantedCopy, SaysTransmission};
ghost use Rattle.nm_sim.specs.Network.{IsIfaceHere, here_of, net_of};
ghost use Rattle.nm_sim.specs.Outgoing.{HaveSpare, OutgoingRepresents, channel_count};
ghost use Rattle.nm_sim.specs.Timelines.{AreFresh, IsFew, TimelineRepresents, everywhere};

use crate::due::Due;
use crate::here::is_iface_here;
use crate::in_flight::InFlight;
use crate::network::{channels_are_those_of_the_network, every_topology_is_a_network};
use crate::outgoing::Outgoing;
use crate::transmitted::Transmitted;
use nm_base::{Event, IfaceNo, Key, Origin, Packet, PartNo, SourceNo, Time};
use nm_events::EventList;
use nm_iface::{QueueItem, Start};
use nm_topology::Topology;
use nm_topology::topology::{
    accepted_topologies_are_in_order, channels_are_numbered_by_their_receivers,
};
use nm_traffic::SourcePacket;
use std::alloc::{AllocError, Global};
use std::marker::Model;

/// What lies ahead: the events to come, and how many packets were put on each interface so far, by
/// the interface that receives them; the next arrival there has that number. They are counted for
/// every interface, within a part too, since the model numbers arrivals by the receiving interface.
#[derive(Drop)]
pub struct Timeline<L> {
    events: L,
    sent: Vec<u64>,
}

impl<L> Model for Timeline<L> {
    ghost use Rattle.nm_sim.specs.Timelines.{TimelineValue};

    ghost Value = { TimelineValue L };

    ghost view = { λ t. record { events = t.events; sent = t.sent.items } };
}

impl<L: EventList> Timeline<L> {
    /// No event is to come, and nothing was put on any of so many interfaces.
    pub fn new(alloc: Global, ifaces: usize) -> Result<Self, AllocError>
    where
        L: Drop,
        ensures events { IfOk result (λ t. L.pending t.events ≡ empty) }
        ensures sent { IfOk result (λ t. t.sent ≡ replicate ifaces 0) }
    {
        Ok(Timeline {
            events: L::new(alloc),
            sent: vec![in alloc; 0; ifaces]?,
        })
    }

    /// Makes room for so many more events.
    ///
    /// # Errors
    ///
    /// `AllocError` if the list could not grow. Nothing else changed then.
    pub fn reserve(&mut self, count: usize) -> Result<(), AllocError>
        ensures events { L.pending self.new.events ≡ L.pending self.old.events }
        ensures sent { self.new.sent ≡ self.old.sent }
        ensures room { OnOk result (count ≤ L.room self.new.events) }
        ensures keeps { L.room self.old.events ≤ L.room self.new.events }
    {
        self.events.reserve(count)
    }

    /// The least key of the events to come.
    pub fn least(&self) -> Option<Key>
        ensures { result ≡ option_map (λ entry. entry.0) (least (L.pending self.now.events)) }
    {
        self.events.least()
    }

    /// Whether an event comes before this time.
    pub fn is_due(&self, before: Time) -> bool
        ensures { result ≡ is_before before (least (L.pending self.now.events)) }
    {
        self.events.is_due(before)
    }

    /// Takes the event of the least key out: its time, its number, and the event.
    pub fn take_least(&mut self) -> Option<(Time, u64, Event)>
        ensures least { option_map (λ e. keyed e.0 e.1 e.2) result
            ≡ least (L.pending self.old.events) }
        ensures rest { IfSome result (λ e. L.pending self.new.events
            ≡ remove (L.pending self.old.events) (key_of e.0 (event_place e.2) e.1)) }
        ensures none { IfNone result (L.pending self.new.events ≡ L.pending self.old.events) }
        ensures room { IfSome result (λ e. L.room self.new.events ≡ L.room self.old.events + 1) }
        ensures others { self.new ≡ record self.old { events = self.new.events } }
    {
        self.events.take_least()
    }

    /// Adds an event. Its key, which no other event has, is this time, its own place and this
    /// number.
    pub fn put(&mut self, time: Time, number: u64, event: Event)
        requires fresh { get (L.pending self.old.events) (key_of time (event_place event) number)
            ≡ None }
        requires room { 1 ≤ L.room self.old.events }
        ensures events { L.pending self.new.events
            ≡ insert (L.pending self.old.events) (key_of time (event_place event) number) event }
        ensures room { L.room self.old.events ≤ L.room self.new.events + 1 }
        ensures others { self.new ≡ record self.old { events = self.new.events } }
    {
        self.events.put(time, number, event);
    }

    /// A source's first packet is to come, if it has one.
    pub fn schedule_first(&mut self, source: SourceNo, first: Option<(Time, SourcePacket)>)
        requires room { 1 ≤ L.room self.old.events }
        requires fresh { AreFresh (L.pending self.old.events) (first_event source first) }
        ensures events { L.pending self.new.events
            ≡ schedule everywhere (first_event source first) (L.pending self.old.events) }
        ensures others { self.new ≡ record self.old { events = self.new.events } }
    {
        if let Some(next) = first {
            let (time, packet) = next;
            let event = Event::Delivery(Origin::Source(source), packet.into_packet());
            self.events.put(time, 0, event);
        }
    }

    /// The source's next packet is to come, if there is one, after that of this number.
    pub fn schedule_next(
        &mut self,
        source: SourceNo,
        number: u64,
        follows: Option<(Time, SourcePacket)>,
    )
        // There is room for the packet, which has a new key.
        requires number { number < 2 ^ 63 }
        requires room { 1 ≤ L.room self.old.events }
        requires fresh { AreFresh (L.pending self.old.events)
            (next_events number (by_source source follows)) }

        // It is to come, if there is one.
        ensures events { L.pending self.new.events
            ≡ schedule everywhere (next_events number (by_source source follows))
            (L.pending self.old.events) }

        // It takes one place at most, and nothing else changes.
        ensures room { L.room self.old.events ≤ L.room self.new.events + 1 }
        ensures others { self.new ≡ record self.old { events = self.new.events } }
    {
        if let Some(next) = follows {
            let (time, packet) = next;
            let event = Event::Delivery(Origin::Source(source), packet.into_packet());
            self.events.put(time, number + 1, event);
        }
    }

    /// The number of the next packet that is put on an interface.
    fn take_number(&mut self, receiver: IfaceNo) -> u64
        requires receiver { receiver < length self.old.sent }
        requires count { slice_index self.old.sent receiver < 2 ^ 63 }
        ensures number { result ≡ slice_index self.old.sent receiver }
        ensures sent { self.new.sent ≡ slice_set self.old.sent receiver (result + 1) }
        ensures events { self.new.events ≡ self.old.events }
    {
        let number = self.sent[receiver.index()];
        self.sent[receiver.index()] = number + 1;
        number
    }

    /// A packet that an interface here sends is to arrive at the far end of its link: an event to
    /// come if that is here too, else a message on its channel.
    #[inline(always)]
    fn schedule_arrival(
        &mut self,
        topology: &Topology,
        part: &Option<PartNo>,
        outgoing: &mut Outgoing,
        flight: InFlight,
    )
        // The interface is here, and the other one is the far end of its link.
        requires here { IsIfaceHere topology.now part.now flight.from }
        requires far_end { flight.to ≡ (net_of topology.now).far_end flight.from }
        requires within { flight.to < length topology.now.ifaces }

        // There is room for an event, which has a new key, and for a message.
        requires count { length outgoing.old.channels ≡ channel_count topology.now part.now }
        requires room { 1 ≤ L.room self.old.events }
        requires spare { HaveSpare outgoing.old }
        requires fresh { get (L.pending self.old.events)
            (key_of flight.due.time (Arrive flight.to) flight.due.number) ≡ None }

        // If the far end is here, the arrival is to come. It takes one place at most.
        ensures events { L.pending self.new.events
            ≡ schedule (here_of topology.now part.now)
            (keyed flight.due.time flight.due.number
            (Delivery (Arrival flight.to) flight.packet) ∷ [])
            (L.pending self.old.events) }
        ensures room { L.room self.old.events ≤ L.room self.new.events + 1 }
        ensures sent { self.new.sent ≡ self.old.sent }

        // Else it is put on the channel.
        ensures outgoing { (sent : ℕ → List (ℕ × List ℕ))
            → OutgoingRepresents topology.now part.now outgoing.old sent
            → OutgoingRepresents topology.now part.now outgoing.new
            (set_at sent flight.to
            (sent flight.to ++ (flight.due.time, flight.packet) ∷ [])) }
    {
        every_topology_is_a_network(topology); // law: links have two ends
        channels_are_those_of_the_network(topology); // law: links between partitions
        channels_are_numbered_by_their_receivers(topology); // law: channels have numbers
        let InFlight {
            to,
            due,
            packet,
            ..
        } = flight;
        if is_iface_here(topology, part, to) {
            let event = Event::Delivery(Origin::Arrival(to), packet);
            self.events.put(due.time, due.number, event);
        } else if let Some(channel) = topology.channel_of(to) {
            outgoing.put(channel, due.time, packet);
        }
    }

    /// A transmission starts, if one does: its completion is to come, and its arrival is to come or
    /// is put on its channel. What starts, for the trace.
    #[inline(always)]
    pub fn schedule_transmission(
        &mut self,
        topology: &Topology,
        part: &Option<PartNo>,
        outgoing: &mut Outgoing,
        time: Time,
        start: Option<(IfaceNo, Start)>,
    ) -> Option<Transmitted>
        // What starts can start here and now, and its events have new keys.
        requires transmits { IfSome start (TransmitsAt topology.now part.now time) }
        requires numbered { (sent : ℕ → List (ℕ × List ℕ))
            × TimelineRepresents topology.now self.old sent × IsFew sent
            × AreFresh (L.pending self.old.events)
            (transmission_events (net_of topology.now) time sent (transmission_of start)) }

        // There is room for two events and a message.
        requires count { length outgoing.old.channels ≡ channel_count topology.now part.now }
        requires spare { HaveSpare outgoing.old }
        requires room { 2 ≤ L.room self.old.events }

        // Its events are to come, or are put on channels, each with the next number.
        ensures events { (sent : ℕ → List (ℕ × List ℕ))
            → TimelineRepresents topology.now self.old sent
            → L.pending self.new.events
            ≡ schedule (here_of topology.now part.now)
            (transmission_events (net_of topology.now) time sent (transmission_of start))
            (L.pending self.old.events) }
        ensures numbered { (sent : ℕ → List (ℕ × List ℕ))
            → TimelineRepresents topology.now self.old sent
            → TimelineRepresents topology.now self.new
            (sent_after (net_of topology.now) time sent (transmission_of start)) }
        ensures outgoing { (sent : ℕ → List (ℕ × List ℕ))
            → OutgoingRepresents topology.now part.now outgoing.old sent
            → OutgoingRepresents topology.now part.now outgoing.new
            (sent_after (net_of topology.now) time sent (transmission_of start)) }

        // What the trace is to have.
        ensures transmitted { SaysTransmission result (transmission_of start) }
        ensures copied { (wanted : Wanted) → IfSome start (IsCopied wanted)
            → IfSome result (HasWantedCopy wanted) }
    {
        accepted_topologies_are_in_order(topology); // law: the far end is there
        let (iface, start) = start?;
        let far_end = topology.iface(iface).far().iface;
        let number = self.take_number(far_end);
        let Start {
            item,
            completes,
            arrives,
        } = start;
        let octets = item.packet.octet_count() as u16;
        let QueueItem { packet, copy } = item;
        let flight = InFlight {
            from: iface,
            to: far_end,
            due: Due {
                time: arrives,
                number,
            },
            packet,
        };
        self.schedule_arrival(topology, part, outgoing, flight);
        self.events.put(completes, number, Event::Completion(iface));
        Some(Transmitted {
            iface,
            octets,
            copy,
        })
    }
}
