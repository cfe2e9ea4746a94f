//! A network at a time of its run, with its measurements.

ghost use Rattle.std.specs.Prelude.{◌≡◌, ℕ, suc, ◌-◌, ◌<◌, ◌≤◌, ◌^◌, ◌++◌, min, List, None, Option};
ghost use Rattle.std.specs.Prelude.{Some, []};
ghost use Rattle.std.specs.Prelude.{◌+◌, IfOk, IfSome, IsSomeAnd, OnOk, length, map, option_map};
ghost use Rattle.nm_base.specs.Count.{saturated};
ghost use Rattle.nm_sim.specs.Effects.{IsPlaceIn};
ghost use Rattle.nm_measure.specs.Interfaces.{AreSeen, IsNext};
ghost use Rattle.nm_measure.specs.Counted.{HasArrivals, HasDelivered, HasEnds, HasTotals};
ghost use Rattle.nm_measure.specs.Counted.{delays_of};
ghost use Rattle.nm_measure.specs.Delays.{greatest_behind};
ghost use Rattle.nm_measure.specs.Followed.{IsFollowed, TakesEnded, TakesOpen};
ghost use Rattle.nm_measure.specs.Starts.{begun_in};
ghost use Rattle.nm_measure.specs.Measured.{HasStarts, HasWatched};
ghost use Rattle.nm_measure.specs.Sent.{AreSent, sent_in, sent_later};
ghost use Rattle.nm_measure.specs.Ways.{ends_in};
ghost use Rattle.nm_model.specs.Run.{one_list};
ghost use Rattle.nm_measure.specs.Drops.{drops_of};
ghost use Rattle.nm_measure.specs.Busy.{busy_before, busy_share};
ghost use Rattle.nm_measure.specs.Flows.{Balances};
ghost use Rattle.nm_measure.specs.Measured.{HasRecent, IsMeasuredBefore};
ghost use Rattle.nm_measure.specs.Queues.{in_octets, in_packets, longest_queue, waited_before};
ghost use Rattle.nm_sim.specs.Network.{net_of};
ghost use Rattle.nm_sim.specs.Part.{count_at, drops_at};
ghost use Rattle.nm_sim.specs.Traffic.{iface_traffic_of};
ghost use Rattle.nm_topology.specs.TopologyValue.{TopologyValue};

use crate::courses::{Course, Ended};
use crate::flow_counts::FlowCounts;
use crate::flow_times::FlowTimes;
use crate::interfaces::Interfaces;
use crate::totals::{Delivered, FlowTotals, IfaceTotals};
use crate::watched::Watched;
use nm_base::limits::MAX_PART_STEPS;
use nm_base::{IfaceNo, NodeNo, Place, SourceNo, Time, Wanted};
use nm_events::HeapList;
use nm_forward::Counter;
use nm_progress::Progress;
use nm_sim::{Amount, Happened, IfaceTraffic, Part};
use nm_topology::Topology;
use nm_topology::topology::accepted_topologies_are_in_order;
use std::alloc::{AllocError, Global};
use std::marker::Model;

/// Progress is noted once in so many events.
const EVENTS_A_NOTE: u64 = 1_024;

/// A whole network at a time of its run, with its measurements. Counters, drops, traffic, queues
/// and busy times are those of the one event list; flows are observed event by event.
#[derive(Drop)]
pub struct Measured {
    part: Part<HeapList>,
    interfaces: Interfaces,
    watched: Watched,
}

/// For how many nanoseconds packets and octets waited at an interface up to a time, all together,
/// and for how many it transmitted.
#[derive(Clone, Copy)]
struct OverTime {
    waited: u128,
    octets_waited: u128,
    busy: u64,
}

impl Model for Measured {
    ghost use Rattle.std.specs.Prelude.{map};
    ghost use Rattle.nm_measure.specs.Flows.{sent_numbers};
    ghost use Rattle.nm_measure.specs.Measured.{MeasuredValue};

    ghost Value = { MeasuredValue };

    ghost view = { λ m. record {
      part = m.part;
      seen = m.interfaces.all.items;
      sent = sent_numbers m.watched.flows.counts.items;
      counts = m.watched.flows.counts.items;
      times = m.watched.flows.times.items;
      lanes = m.watched.lanes.items;
      courses = m.watched.courses;
    } };
}

impl Measured {
    /// A network at the begin of its run. If a source is given, the ways of its packets are
    /// followed.
    ///
    /// # Errors
    ///
    /// If memory was refused.
    pub fn begin(
        alloc: Global,
        topology: &Topology,
        followed: Option<SourceNo>,
    ) -> Result<Self, AllocError>
        ensures before { IfOk result (IsMeasuredBefore topology.now 0) }
        ensures steps { IfOk result (λ m. m.part.steps ≡ 0) }
        ensures followed { IfOk result
            (λ m. IsFollowed topology.now followed 0 [] m.courses) }
    {
        accepted_topologies_are_in_order(topology); // law: `stop` is within its limit
        let interfaces = Interfaces::new(alloc, topology)?;
        let watched = Watched::new(alloc, topology, followed)?;
        let part = Part::<HeapList>::start_with(alloc, topology, None, Wanted::Nothing)?;
        Ok(Measured {
            part,
            interfaces,
            watched,
        })
    }

    /// Runs the network up to a time, which is neither before its present one nor after `stop`.
    /// Progress is noted now and then.
    ///
    /// # Errors
    ///
    /// If memory was refused: the measurements then mean nothing.
    pub fn advance(
        &mut self,
        alloc: Global,
        topology: &Topology,
        until: Time,
        progress: &Progress,
    ) -> Result<(), AllocError>
        requires before { until ≤ topology.now.stop }
        requires from { (from : ℕ) × (from ≤ until) × IsMeasuredBefore topology.now from self.old }
        ensures before { OnOk result (IsMeasuredBefore topology.now until self.new) }
        ensures recent { OnOk result (HasRecent topology.now self.old.part.steps self.new) }
        ensures followed { OnOk result ((j : Option ℕ) (taken : List Ended)
            → IsFollowed topology.now j self.old.part.steps taken self.old.courses
            → IsFollowed topology.now j self.new.part.steps taken self.new.courses) }
    {
        accepted_topologies_are_in_order(topology); // law: `stop` is within its limit
        self.interfaces.begin_recent();
        self.watched.begin_recent();
        for done in 0..MAX_PART_STEPS + 1 {
            let Some(told) = self.part.step_and_tell(alloc, topology, until)? else {
                return Ok(());
            };
            let (time, place) = (told.key.time, told.key.place);
            let Happened {
                arrived,
                offering,
                started,
            } = told.happened;
            let happened = Happened {
                arrived,
                offering,
                started,
            };
            self.see(topology, progress, time, place, happened)?;
        }
        Err(AllocError)
    }

    /// Sees an event, which the part has just done.
    ///
    /// # Errors
    ///
    /// If memory was refused.
    fn see(
        &mut self,
        topology: &Topology,
        progress: &Progress,
        now: Time,
        place: Place,
        happened: Happened,
    ) -> Result<(), AllocError>
        requires { IsPlaceIn topology.now place }
        ensures part { self.new.part ≡ self.old.part }
        ensures seen { OnOk result ((first n : ℕ) → AreSeen topology.now first n self.old.seen
            → IsNext topology.now n now place self.old.part happened
            → AreSeen topology.now first (suc n) self.new.seen) }
        ensures sent { OnOk result (self.new.sent ≡ sent_later place self.old.sent) }
        ensures starts { OnOk result ((first n : ℕ)
            → IsNext topology.now n now place self.old.part happened
            → HasStarts topology.now first n self.old
            → HasStarts topology.now first (suc n) self.new) }
        ensures watched { OnOk result ((n : ℕ) → self.old.part.steps ≡ n + 1
            → AreSent topology.now n self.old.sent
            → IsNext topology.now n now place self.old.part happened
            → HasWatched topology.now n self.old → HasWatched topology.now (suc n) self.new) }
        ensures followed { OnOk result ((n : ℕ) (j : Option ℕ) (taken : List Ended)
            → self.old.part.steps ≡ n + 1 → AreSent topology.now n self.old.sent
            → IsNext topology.now n now place self.old.part happened
            → HasWatched topology.now n self.old
            → IsFollowed topology.now j n taken self.old.courses
            → IsFollowed topology.now j (suc n) taken self.new.courses) }
    {
        self.part.events(); // law: no more than 2^62
        self.note_shown(progress, now);
        self.interfaces
            .see(topology, &self.part, now, &place, &happened);
        self.watched.see(topology, now, &place, &happened)?;
        Ok(())
    }

    /// Notes the progress, now and then: all before this time is done.
    fn note_shown(&self, progress: &Progress, now: Time) {
        if self.part.events() % EVENTS_A_NOTE == 0 {
            progress.note(now, self.part.made());
        }
    }

    /// How many events were done: no more than 2^62.
    pub fn events(&self) -> u64
        ensures value { result ≡ self.now.part.steps }
        ensures most { result ≤ 2 ^ 62 }
    {
        self.part.events()
    }

    /// The value of a node's counter. `None` if there is no such node.
    pub fn counter(&self, node: NodeNo, counter: Counter) -> Option<u64>
        ensures { (t : TopologyValue) (until : ℕ) (m : IsMeasuredBefore t until self.now)
            → result ≡ count_at t None (one_list (net_of t) m.events) node counter }
    {
        self.part.counter(node, counter)
    }

    /// How many packets were dropped at an interface. `None` if there is no such interface.
    pub fn dropped(&self, iface: IfaceNo) -> Option<u64>
        ensures { (t : TopologyValue) (until : ℕ) (m : IsMeasuredBefore t until self.now)
            → result ≡ drops_at t None (one_list (net_of t) m.events) iface }
    {
        self.part.dropped(iface)
    }

    /// What arrived at an interface and what it transmitted. `None` if there is no such interface.
    pub fn traffic(&self, iface: IfaceNo) -> Option<IfaceTraffic>
        ensures { (t : TopologyValue) (until : ℕ) (m : IsMeasuredBefore t until self.now)
            → iface < length t.ifaces
            → result ≡ Some (iface_traffic_of iface (one_list (net_of t) m.events).records) }
    {
        self.part.traffic(iface)
    }

    /// The totals of an interface up to this time. All events before it were done.
    pub fn totals(&self, iface: IfaceNo, time: Time) -> IfaceTotals
        requires there { iface < length self.now.seen }
        ensures traffic { (t : TopologyValue) (until : ℕ) (m : IsMeasuredBefore t until self.now)
            → result.traffic ≡ iface_traffic_of iface (one_list (net_of t) m.events).records }
        ensures dropped { (t : TopologyValue) (until : ℕ) (m : IsMeasuredBefore t until self.now)
            → result.dropped ≡ drops_of iface (one_list (net_of t) m.events) }
        ensures waited { (t : TopologyValue) (m : IsMeasuredBefore t time self.now)
            → result.waited
            ≡ min (waited_before (net_of t) in_packets iface time m.events) (2 ^ 128 - 1) }
        ensures octets { (t : TopologyValue) (m : IsMeasuredBefore t time self.now)
            → result.octets_waited
            ≡ min (waited_before (net_of t) in_octets iface time m.events) (2 ^ 128 - 1) }
        ensures busy { (t : TopologyValue) (m : IsMeasuredBefore t time self.now)
            → result.busy ≡ busy_before (net_of t) iface time
            (one_list (net_of t) m.events).records }
    {
        let OverTime {
            waited,
            octets_waited,
            busy,
        } = self.over_time(iface, time);
        IfaceTotals {
            traffic: self.part.traffic(iface).unwrap_or(IfaceTraffic::none()),
            dropped: self.part.dropped(iface).unwrap_or(0),
            waited,
            octets_waited,
            busy,
        }
    }

    /// What became of the packets of a source so far.
    pub fn flow_totals(&self, source: SourceNo) -> FlowTotals
        ensures sent { (t : TopologyValue) (until : ℕ) (m : IsMeasuredBefore t until self.now)
            → source < length t.sources
            → result.sent ≡ saturated (sent_in (net_of t) source m.events) }
        ensures totals { (t : TopologyValue) (until : ℕ) (m : IsMeasuredBefore t until self.now)
            → source < length t.sources → HasTotals source (ends_in t m.events) result }
    {
        let counts = self.flow(source).unwrap_or(FlowCounts::NONE);
        let sums = self.delivered(source);
        FlowTotals {
            sent: counts.sent,
            delivered: counts.delivered,
            lost: counts.refused + counts.dropped + counts.discarded,
            octets: sums.octets,
            delayed: sums.delayed,
            differences: sums.differences,
        }
    }

    /// How much of what a source sent was delivered so far, and how late.
    fn delivered(&self, source: SourceNo) -> Delivered
        ensures { (t : TopologyValue) (until : ℕ) (m : IsMeasuredBefore t until self.now)
            → source < length t.sources → HasDelivered source (ends_in t m.events) result }
    {
        match self.times(source) {
            Some(times) => Delivered {
                octets: times.octets(),
                delayed: times.delays.total(),
                differences: times.delays.differences(),
            },
            None => Delivered {
                octets: 0,
                delayed: 0,
                differences: 0,
            },
        }
    }

    /// For how long packets and octets waited at an interface up to this time, and for how long it
    /// transmitted.
    fn over_time(&self, iface: IfaceNo, time: Time) -> OverTime
        requires there { iface < length self.now.seen }
        ensures waited { (t : TopologyValue) (m : IsMeasuredBefore t time self.now)
            → result.waited
            ≡ min (waited_before (net_of t) in_packets iface time m.events) (2 ^ 128 - 1) }
        ensures octets { (t : TopologyValue) (m : IsMeasuredBefore t time self.now)
            → result.octets_waited
            ≡ min (waited_before (net_of t) in_octets iface time m.events) (2 ^ 128 - 1) }
        ensures busy { (t : TopologyValue) (m : IsMeasuredBefore t time self.now)
            → result.busy ≡ busy_before (net_of t) iface time
            (one_list (net_of t) m.events).records }
    {
        match self.interfaces.get(iface) {
            Some(seen) => OverTime {
                waited: seen.queue.packets.waited(time),
                octets_waited: seen.queue.octets.waited(time),
                busy: seen.usage.busy_before(time),
            },
            None => OverTime {
                waited: 0,
                octets_waited: 0,
                busy: 0,
            },
        }
    }

    /// The most packets that waited at an interface at one time since the last advance began, and
    /// the most octets.
    pub fn recent_queue(&self, iface: IfaceNo) -> Amount
        ensures packets { (t : TopologyValue) (first : ℕ) → HasRecent t first self.now
            → iface < length t.ifaces → result.packets
            ≡ longest_queue (net_of t) in_packets iface first self.now.part.steps }
        ensures octets { (t : TopologyValue) (first : ℕ) → HasRecent t first self.now
            → iface < length t.ifaces → result.octets
            ≡ longest_queue (net_of t) in_octets iface first self.now.part.steps }
    {
        match self.interfaces.get(iface) {
            Some(seen) => Amount {
                packets: seen.queue.packets.recent(),
                octets: seen.queue.octets.recent(),
            },
            None => Amount {
                packets: 0,
                octets: 0,
            },
        }
    }

    /// The greatest delay, in nanoseconds, of a source's packets that were delivered since the last
    /// advance began; 0 if none was.
    pub fn recent_delay(&self, source: SourceNo) -> u64
        ensures { (t : TopologyValue) (first until : ℕ) → HasRecent t first self.now
            → (m : IsMeasuredBefore t until self.now) → source < length t.sources
            → result ≡ greatest_behind (length (delays_of source (ends_in t first)))
            (delays_of source (ends_in t m.events)) }
    {
        self.part.events(); // law: no more than 2^62
        match self.watched.times(source) {
            Some(times) => times.delays.recent(),
            None => 0,
        }
    }

    /// The first packet of the followed source that ended and was not taken yet.
    pub fn take_ended(&mut self) -> Option<Ended>
        ensures part { self.new.part ≡ self.old.part }
        ensures before { (t : TopologyValue) (until : ℕ) → IsMeasuredBefore t until self.old
            → IsMeasuredBefore t until self.new }
        ensures first { TakesEnded result self.old.courses self.new.courses }
    {
        self.watched.take_ended()
    }

    /// The packet of the followed source with the least number that is under way.
    pub fn take_under_way(&mut self) -> Option<Course>
        ensures first { TakesOpen result self.old.courses self.new.courses }
    {
        self.watched.take_open()
    }

    /// The most packets that waited at an interface at one time, behind the one that it transmits.
    pub fn longest_queue(&self, iface: IfaceNo) -> u64
        ensures { (t : TopologyValue) (until : ℕ) (m : IsMeasuredBefore t until self.now)
            → iface < length t.ifaces
            → result ≡ longest_queue (net_of t) in_packets iface 0 m.events }
    {
        match self.interfaces.get(iface) {
            Some(seen) => seen.queue.packets.longest(),
            None => 0,
        }
    }

    /// For how many nanoseconds before `stop` an interface transmitted.
    pub fn busy(&self, iface: IfaceNo) -> u64
        ensures { (t : TopologyValue) (until : ℕ) (m : IsMeasuredBefore t until self.now)
            → iface < length t.ifaces → result ≡ busy_before (net_of t) iface t.stop
            (one_list (net_of t) m.events).records }
    {
        match self.interfaces.get(iface) {
            Some(seen) => seen.usage.busy(),
            None => 0,
        }
    }

    /// The share of the time from the start of an interface's first packet to that of its last in
    /// which it transmitted, in thousandths. `None` if there are fewer than two packets.
    pub fn busy_share(&self, iface: IfaceNo) -> Option<u64>
        ensures share { (t : TopologyValue) (until : ℕ) (m : IsMeasuredBefore t until self.now)
            → iface < length t.ifaces → result ≡ busy_share (net_of t) iface
            (one_list (net_of t) m.events).records }
        ensures most { IfSome result (λ share. share ≤ 1000) }
    {
        match self.interfaces.get(iface) {
            Some(seen) => seen.usage.share(),
            None => None,
        }
    }

    /// What became of the packets of a source. `None` if there is no such source.
    pub fn flow(&self, source: SourceNo) -> Option<FlowCounts>
        ensures balances { IfSome result Balances }
        ensures sent { (t : TopologyValue) (until : ℕ) (m : IsMeasuredBefore t until self.now)
            → source < length t.sources → IsSomeAnd result
            (λ f. f.sent ≡ saturated (sent_in (net_of t) source m.events)) }
        ensures ended { (t : TopologyValue) (until : ℕ) (m : IsMeasuredBefore t until self.now)
            → source < length t.sources → IsSomeAnd result (HasEnds source (ends_in t m.events)) }
    {
        self.watched.flow(source)
    }

    /// How much of what a source sent arrived, and how late. `None` if there is no such source.
    pub fn times(&self, source: SourceNo) -> Option<&FlowTimes>
        ensures arrivals { (t : TopologyValue) (until : ℕ) (m : IsMeasuredBefore t until self.now)
            → source < length t.sources → IsSomeAnd (option_map (λ x. x.now) result)
            (HasArrivals source (ends_in t m.events)) }
        ensures begun { (t : TopologyValue) (until : ℕ) (m : IsMeasuredBefore t until self.now)
            → source < length t.sources → IsSomeAnd (option_map (λ x. x.now) result)
            (λ x. x.begun ≡ begun_in t source m.events) }
    {
        self.watched.times(source)
    }
}
