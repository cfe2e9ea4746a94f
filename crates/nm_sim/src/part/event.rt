//! One event of a part: what it does, and what is put back where there is no memory for it.

ghost use Rattle.std.specs.Prelude.{◌≡◌, ℕ, ◌+◌, ◌<◌, ◌≤◌, ◌^◌, true, List, Option, Some, None};
ghost use Rattle.std.specs.Prelude.{Ok, IfOk, IfSome, OnOk, OnErr, false, slice_get};
ghost use Rattle.nm_base.specs.declared.event.Event.{Event as PendingEvent};
ghost use Rattle.nm_base.specs.declared.event.Event.TheVariants.{Completion, Delivery};
ghost use Rattle.nm_base.specs.declared.event.Origin.TheVariants.{Arrival, Source as FromSource};
ghost use Rattle.nm_base.specs.declared.key.Key.{Key as EventKey};
ghost use Rattle.nm_base.specs.declared.limits.TheConstants.{MAX_TIME};
ghost use Rattle.nm_model.specs.EventList.{least};
ghost use Rattle.nm_model.specs.Run.{State, keyed};
ghost use Rattle.nm_forward.specs.State.{NodeStateValue};
ghost use Rattle.nm_forward.specs.Reaction.{FitsOrigin};
ghost use Rattle.nm_forward.specs.Reacting.{PassesUnwanted, iface_of};
ghost use Rattle.nm_base.specs.Wanted.{is_wanted};
ghost use Rattle.nm_sim.specs.Effects.{IsCopied};
ghost use Rattle.nm_sim.specs.Network.{net_of};
ghost use Rattle.nm_sim.specs.Outgoing.{HaveSpare};
ghost use Rattle.nm_sim.specs.Part.{Doing, HasHappened, HasMemory, HasReacted, IsReady, IsUnderWay};
ghost use Rattle.nm_sim.specs.Part.{OfTheRunIn, Performed, Represents, RepresentsNext};
ghost use Rattle.nm_sim.specs.Told.{HappensNext};
ghost use Rattle.nm_sim.specs.Tables.{AllSome, IsMember};

use super::Part;
use crate::due::Due;
use crate::network::every_topology_is_a_network;
use crate::sending::Sending;
use crate::told::{Arrived, Happened, octets_of_start};
use nm_base::{Event, IfaceNo, Origin, Packet, SourceNo, Time};
use nm_events::EventList;
use nm_forward::{NodeState, Reaction};
use nm_iface::Start;
use nm_model::Offering;
use nm_model::orderly::{every_state_is_orderly, new_keys_are_new};
use nm_topology::Topology;
use nm_topology::topology::accepted_topologies_are_in_order;
use nm_traffic::laws::source_times_rise;
use std::alloc::{AllocError, Global};

impl<L: EventList> Part<L> {
    /// Does the event of the least key, for which there is memory. An `Err` leaves the event where
    /// it was.
    #[inline(always)]
    pub(super) fn perform(
        &mut self,
        alloc: Global,
        topology: &Topology,
    ) -> Result<Happened, AllocError>
        // An event is due, and there is memory for what it may do.
        requires least { (part : Option ℕ) × (s : State (List ℕ) NodeStateValue)
            × (e : EventKey × PendingEvent (List ℕ))
            × Represents L.pending topology.now part self.old s × (least s.pending ≡ Some e)
            × (e.0.time < topology.now.stop) }
        requires steps { self.old.steps < 2 ^ 62 }
        requires memory { HasMemory L.room self.old }

        // On success one step of the run was done; else none was.
        ensures ok { OnOk result (OfTheRunIn L.pending topology.now self.old
            (λ part s. RepresentsNext L.pending topology.now part self.new s)) }
        ensures err { OnErr result (OfTheRunIn L.pending topology.now self.old
            (λ part s. Represents L.pending topology.now part self.new s)) }

        // It says what happened.
        ensures happened { IfOk result (λ h. OfTheRunIn L.pending topology.now self.old
            (λ part s. HappensNext topology.now self.old.records.keeping.wanted s h)) }

        // It is counted.
        ensures one { OnOk result (self.new.steps ≡ self.old.steps + 1) }
        ensures none { OnErr result (self.new.steps ≡ self.old.steps) }

        // No record was handed out.
        ensures keeping { self.new.records.keeping ≡ self.old.records.keeping }
    {
        accepted_topologies_are_in_order(topology); // law: `stop` is within its limit
        let Some(entry) = self.timeline.take_least() else {
            return Ok(Happened {
                arrived: None,
                offering: Offering::Nothing,
                started: None,
            });
        };
        let (time, number, event) = entry;
        self.dispatch(alloc, topology, Due { time, number }, event)
    }

    /// An event that was taken out happens. An `Err` puts it back.
    #[inline(always)]
    fn dispatch(
        &mut self,
        alloc: Global,
        topology: &Topology,
        due: Due,
        event: Event,
    ) -> Result<Happened, AllocError>
        requires ready { (part : Option ℕ) × (s : State (List ℕ) NodeStateValue)
            × IsReady L.pending topology.now part (keyed due.time due.number event) self.old s }
        requires memory { HasMemory L.room self.old }
        ensures { Performed L.pending topology.now (keyed due.time due.number event)
            self.old self.new result }
    {
        accepted_topologies_are_in_order(topology); // law: the far end is there
        source_times_rise(topology); // law: packets have octets
        match event {
            Event::Completion(iface) => Ok(self.complete(topology, due, iface)),
            Event::Delivery(origin, packet) => match origin {
                Origin::Arrival(iface) => self.arrive(alloc, topology, due, iface, packet),
                Origin::Source(source) => self.fire(alloc, topology, due, source, packet),
            },
        }
    }

    /// A packet arrives. An `Err` puts the event back.
    #[inline(always)]
    fn arrive(
        &mut self,
        alloc: Global,
        topology: &Topology,
        due: Due,
        iface: IfaceNo,
        packet: Packet,
    ) -> Result<Happened, AllocError>
        requires ready { (part : Option ℕ) × (s : State (List ℕ) NodeStateValue)
            × IsReady L.pending topology.now part
            (keyed due.time due.number (Delivery (Arrival iface) packet)) self.old s }
        requires memory { HasMemory L.room self.old }
        ensures { Performed L.pending topology.now
            (keyed due.time due.number (Delivery (Arrival iface) packet))
            self.old self.new result }
    {
        if self.records.wants(iface) {
            self.arrive_recorded(alloc, topology, due, iface, packet)
        } else {
            self.arrive_alone(alloc, topology, due, iface, packet)
        }
    }

    /// A packet arrives without a kept record. An `Err` puts the event back.
    #[inline(always)]
    fn arrive_alone(
        &mut self,
        alloc: Global,
        topology: &Topology,
        due: Due,
        iface: IfaceNo,
        packet: Packet,
    ) -> Result<Happened, AllocError>
        requires unwanted { is_wanted self.old.records.keeping.wanted iface ≡ false }
        requires ready { (part : Option ℕ) × (s : State (List ℕ) NodeStateValue)
            × IsReady L.pending topology.now part
            (keyed due.time due.number (Delivery (Arrival iface) packet)) self.old s }
        requires memory { HasMemory L.room self.old }
        ensures { Performed L.pending topology.now
            (keyed due.time due.number (Delivery (Arrival iface) packet))
            self.old self.new result }
    {
        let octets = packet.octet_count() as u16;
        match self.devices.react_in_place(alloc, topology, iface, packet) {
            Ok(handled) => {
                self.records.count_arrival(iface, octets);
                let sent = self.send(topology, due.time, handled.reaction);
                Ok(Happened {
                    arrived: Some(Arrived {
                        iface,
                        octets,
                        counter: Some(handled.counter),
                    }),
                    offering: sent.offering,
                    started: sent.started,
                })
            }
            Err(packet) => {
                let event = Event::Delivery(Origin::Arrival(iface), packet);
                self.timeline.put(due.time, due.number, event);
                Err(AllocError)
            }
        }
    }

    /// A packet arrives with a kept record. An `Err` puts the event back.
    #[inline(always)]
    fn arrive_recorded(
        &mut self,
        alloc: Global,
        topology: &Topology,
        due: Due,
        iface: IfaceNo,
        packet: Packet,
    ) -> Result<Happened, AllocError>
        requires wanted { is_wanted self.old.records.keeping.wanted iface ≡ true }
        requires ready { (part : Option ℕ) × (s : State (List ℕ) NodeStateValue)
            × IsReady L.pending topology.now part
            (keyed due.time due.number (Delivery (Arrival iface) packet)) self.old s }
        requires memory { HasMemory L.room self.old }
        ensures { Performed L.pending topology.now
            (keyed due.time due.number (Delivery (Arrival iface) packet))
            self.old self.new result }
    {
        let Ok(reaction) = self
            .devices
            .react_to_arrival(alloc, topology, iface, &packet)
        else {
            let event = Event::Delivery(Origin::Arrival(iface), packet);
            self.timeline.put(due.time, due.number, event);
            return Err(AllocError);
        };
        let octets = packet.octet_count() as u16;
        self.records.record_arrival(due.time, iface, packet);
        let sent = self.send(topology, due.time, reaction);
        Ok(Happened {
            arrived: Some(Arrived {
                iface,
                octets,
                counter: None,
            }),
            offering: sent.offering,
            started: sent.started,
        })
    }

    /// A transmission is complete.
    #[inline(always)]
    fn complete(&mut self, topology: &Topology, due: Due, iface: IfaceNo) -> Happened
        requires ready { (part : Option ℕ) × (s : State (List ℕ) NodeStateValue)
            × IsReady L.pending topology.now part
            (keyed due.time due.number (Completion iface)) self.old s }
        requires memory { HasMemory L.room self.old }
        ensures { Performed L.pending topology.now
            (keyed due.time due.number (Completion iface)) self.old self.new (Ok result) }
    {
        let start = self.devices.complete(topology, due.time, iface);
        let started = octets_of_start(&start);
        self.finish(topology, due.time, start);
        Happened {
            arrived: None,
            offering: Offering::Nothing,
            started,
        }
    }

    /// A source makes a packet. An `Err` puts the event back.
    #[inline(always)]
    fn fire(
        &mut self,
        alloc: Global,
        topology: &Topology,
        due: Due,
        source: SourceNo,
        packet: Packet,
    ) -> Result<Happened, AllocError>
        requires fits { FitsOrigin topology.now (FromSource source) packet }
        requires number { due.number < 2 ^ 63 }
        requires ready { (part : Option ℕ) × (s : State (List ℕ) NodeStateValue)
            × IsReady L.pending topology.now part
            (keyed due.time due.number (Delivery (FromSource source) packet)) self.old s }
        requires memory { HasMemory L.room self.old }
        ensures { Performed L.pending topology.now
            (keyed due.time due.number (Delivery (FromSource source) packet))
            self.old self.new result }
    {
        every_topology_is_a_network(topology); // law: `net_of` is a network of the model
        new_keys_are_new::<Packet, NodeState>(); // law: no event to come has the next key
        let Ok(fired) = self
            .devices
            .react_to_source(alloc, topology, source, due.number, &packet)
        else {
            let event = Event::Delivery(Origin::Source(source), packet);
            self.timeline.put(due.time, due.number, event);
            return Err(AllocError);
        };
        self.timeline
            .schedule_next(source, due.number, fired.follows);
        Ok(self.send(topology, due.time, fired.reaction))
    }

    /// The event that is under way is done: what its node sends is offered to a port, and a
    /// transmission starts, if one does.
    #[inline(always)]
    fn send(&mut self, topology: &Topology, time: Time, reaction: Reaction) -> Happened
        // What the node sends leaves by an interface that is here, in time.
        requires time { time ≤ MAX_TIME }
        requires own { IfSome (iface_of reaction)
            (λ i. IsMember (slice_get self.old.devices.ports i)) }
        requires passes { PassesUnwanted self.old.devices.wanted reaction }
        requires steps { self.old.steps < 2 ^ 62 }

        // There is memory for what may follow.
        requires ports { AllSome (λ i w. 1 ≤ w.room) self.old.devices.ports }
        requires room { 2 ≤ L.room self.old.timeline.events }
        requires channels { HaveSpare self.old.outgoing }
        requires spare { 1 ≤ self.old.records.spare }

        // The node has reacted, and the step is done.
        requires reacted { (doing : Doing)
            × HasReacted L.pending topology.now time reaction doing self.old }
        ensures represents { (doing : Doing)
            → HasReacted L.pending topology.now time reaction doing self.old
            → RepresentsNext L.pending topology.now doing.part self.new doing.state }

        // It says what happened.
        ensures happened { (doing : Doing)
            → HasReacted L.pending topology.now time reaction doing self.old
            → HasHappened topology.now time doing result }

        // It is counted, and no record was handed out.
        ensures steps { self.new.steps ≡ self.old.steps + 1 }
        ensures keeping { self.new.records.keeping ≡ self.old.records.keeping }
    {
        let sending = self.devices.offer(topology, time, reaction);
        let Sending { offering, start } = sending;
        let started = octets_of_start(&start);
        self.finish(topology, time, start);
        Happened {
            arrived: None,
            offering,
            started,
        }
    }

    /// The event that is under way is done, with the transmission that starts, if one does.
    #[inline(always)]
    fn finish(&mut self, topology: &Topology, time: Time, start: Option<(IfaceNo, Start)>)
        // There is memory for what may follow.
        requires steps { self.old.steps < 2 ^ 62 }
        requires room { 2 ≤ L.room self.old.timeline.events }
        requires channels { HaveSpare self.old.outgoing }
        requires spare { 1 ≤ self.old.records.spare }
        requires copied { IfSome start (IsCopied self.old.records.keeping.wanted) }

        // All but the transmission is done, and the step is.
        requires under_way { (doing : Doing)
            × IsUnderWay L.pending topology.now time start doing self.old }
        ensures represents { (doing : Doing)
            → IsUnderWay L.pending topology.now time start doing self.old
            → RepresentsNext L.pending topology.now doing.part self.new doing.state }

        // It is counted, and no record was handed out.
        ensures steps { self.new.steps ≡ self.old.steps + 1 }
        ensures keeping { self.new.records.keeping ≡ self.old.records.keeping }
    {
        every_topology_is_a_network(topology); // law: `net_of` is a network of the model
        accepted_topologies_are_in_order(topology); // law: a link and its two ends agree
        every_state_is_orderly::<Packet, NodeState>(); // law: the state after is orderly
        new_keys_are_new::<Packet, NodeState>(); // law: no event to come has a new key
        let transmitted = self
            .timeline
            .schedule_transmission(topology, &self.part, &mut self.outgoing, time, start);
        self.records.record_transmission(time, transmitted);
        self.steps += 1;
    }
}
