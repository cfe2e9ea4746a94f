//! What becomes of the packets of all sources.

ghost use Rattle.std.specs.Prelude.{◌≡◌, ℕ, ◌+◌, ◌<◌, ◌++◌, ◌∷◌, [], List, length, map, option_map};
ghost use Rattle.std.specs.Prelude.{true, false, None, Some, ◌^◌, IfOk, IfSome, OnOk, slice_get};
ghost use Rattle.nm_measure.specs.declared.flow_counts.PacketOutcome.TheVariants.{Delivered};
ghost use Rattle.nm_measure.specs.Counted.{AreArrivals, AreFlows, AreOutcomes, counts_for};
ghost use Rattle.nm_measure.specs.Counted.{is_answer, is_reply, is_sent};
ghost use Rattle.nm_forward.specs.declared.counter.Counter.TheVariants.{Icmp};
ghost use Rattle.nm_measure.specs.declared.courses.EndPlace.TheVariants.{Node};
ghost use Rattle.nm_measure.specs.declared.courses.Reason.TheVariants.{Counted};
ghost use Rattle.nm_measure.specs.Lanes.{one_of};
ghost use Rattle.nm_measure.specs.Ways.{WayEnd, own_tag};
ghost use Rattle.nm_measure.specs.Flows.{sent_numbers};
ghost use Rattle.nm_measure.specs.Sent.{AreSent, with_sent};
ghost use Rattle.nm_measure.specs.Starts.{AreStarts, start_of, with_begin};
ghost use Rattle.nm_measure.specs.Ways.{ends_in};
ghost use Rattle.nm_topology.specs.TopologyValue.{TopologyValue};

use crate::flow_counts::{FlowCounts, PacketOutcome};
use crate::flow_times::FlowTimes;
use crate::role::Role;
use crate::tag::Tag;
use nm_base::{NodeNo, SourceNo, Time};
use nm_topology::Topology;
use std::alloc::{AllocError, Global};

/// What became of the packets of all sources.
#[derive(Drop)]
pub(crate) struct Flows {
    counts: Vec<FlowCounts>,
    times: Vec<FlowTimes>,
}

/// The arrival of a packet at its end.
#[derive(Clone, Copy, Drop)]
pub(crate) struct Arrival {
    pub node: NodeNo,
    pub octets: u64,
    pub now: Time,
}

/// Nothing has arrived of so many sources.
fn no_times(alloc: Global, sources: usize) -> Result<Vec<FlowTimes>, AllocError>
    ensures count { IfOk result (λ times. length times.items ≡ sources) }
    ensures none { IfOk result (λ times. AreArrivals [] times.items) }
    ensures starts { (t : TopologyValue) → IfOk result (λ times. sources ≡ length t.sources
        → AreStarts t 0 0 (map start_of times.items)) }
{
    let mut times = Vec::new(alloc);
    for _number in 0..sources {
        times.push(FlowTimes::new(alloc))?;
    }
    Ok(times)
}

impl Flows {
    /// Nothing was sent yet.
    pub(crate) fn new(alloc: Global, topology: &Topology) -> Result<Self, AllocError>
        ensures sent { IfOk result (λ f. AreSent topology.now 0 (sent_numbers f.counts.items)) }
        ensures flows { IfOk result (λ f. AreFlows [] (λ j. 0) f.counts.items f.times.items) }
        ensures starts { IfOk result
            (λ f. AreStarts topology.now 0 0 (map start_of f.times.items)) }
    {
        let sources = topology.sources().len();
        Ok(Flows {
            counts: vec![in alloc; FlowCounts::NONE; sources]?,
            times: no_times(alloc, sources)?,
        })
    }

    /// What became of the packets of a source.
    pub(crate) fn counts(&self, source: SourceNo) -> Option<FlowCounts>
        ensures { result ≡ slice_get self.now.counts.items source }
    {
        self.counts.get(source.index()).copied()
    }

    /// How much of what a source sent arrived, and how late.
    pub(crate) fn times(&self, source: SourceNo) -> Option<&FlowTimes>
        ensures { option_map (λ x. x.now) result ≡ slice_get self.now.times.items source }
    {
        self.times.get(source.index())
    }

    /// A source makes a packet. Answers its tag.
    pub(crate) fn send(&mut self, source: SourceNo, home: NodeNo, now: Time) -> Tag
        ensures starts { map start_of self.new.times.items
            ≡ with_begin source now (map start_of self.old.times.items) }
        ensures sent { sent_numbers self.new.counts.items
            ≡ with_sent source (sent_numbers self.old.counts.items) }
        ensures tag { (number : ℕ)
            → slice_get (sent_numbers self.old.counts.items) source ≡ Some number
            → result ≡ own_tag source home number now }
        ensures flows { (ends : List WayEnd) (under_way : ℕ → ℕ) (number : ℕ)
            → slice_get (sent_numbers self.old.counts.items) source ≡ Some number
            → number + 1 < 2 ^ 64
            → AreFlows ends under_way self.old.counts.items self.old.times.items
            → AreFlows ends (λ j. one_of j result + under_way j)
            self.new.counts.items self.new.times.items }
    {
        let number = self.count(source);
        self.note_begin(source, now);
        Tag::of_source(source, home, number, now)
    }

    /// A source makes a packet. Answers how many it had made.
    fn count(&mut self, source: SourceNo) -> u64
        ensures sent { sent_numbers self.new.counts.items
            ≡ with_sent source (sent_numbers self.old.counts.items) }
        ensures times { self.new.times ≡ self.old.times }
        ensures number { (number : ℕ)
            → slice_get (sent_numbers self.old.counts.items) source ≡ Some number
            → result ≡ number }
        ensures flows { (ends : List WayEnd) (under_way : ℕ → ℕ) (number : ℕ)
            → slice_get (sent_numbers self.old.counts.items) source ≡ Some number
            → number + 1 < 2 ^ 64
            → AreFlows ends under_way self.old.counts.items self.old.times.items
            → AreFlows ends (λ j. one_of j (own_tag source 0 0 0) + under_way j)
            self.new.counts.items self.new.times.items }
    {
        let Some(counts) = self.counts.get_mut(source.index()) else {
            return 0;
        };
        let number = counts.sent;
        counts.send();
        number
    }

    /// A source has an event.
    fn note_begin(&mut self, source: SourceNo, now: Time)
        ensures starts { map start_of self.new.times.items
            ≡ with_begin source now (map start_of self.old.times.items) }
        ensures counts { self.new.counts ≡ self.old.counts }
        ensures flows { (ends : List WayEnd) (under_way : ℕ → ℕ)
            → AreFlows ends under_way self.old.counts.items self.old.times.items
            → AreFlows ends under_way self.new.counts.items self.new.times.items }
    {
        if let Some(times) = self.times.get_mut(source.index()) {
            times.begin(now);
        }
    }

    /// The greatest delays of packets that arrive from now on are looked for.
    pub(crate) fn begin_recent(&mut self)
        ensures counts { self.new.counts ≡ self.old.counts }
        ensures flows { (ends : List WayEnd) (under_way : ℕ → ℕ)
            → AreFlows ends under_way self.old.counts.items self.old.times.items
            → AreFlows ends under_way self.new.counts.items self.new.times.items }
        ensures starts { (t : TopologyValue) (first n : ℕ)
            → AreArrivals (ends_in t n) self.old.times.items
            → AreStarts t first n (map start_of self.old.times.items)
            → AreStarts t n n (map start_of self.new.times.items) }
    {
        for number in 0..self.times.len() {
            self.times[number].begin_recent();
        }
    }

    /// The packet of a tag ends so, if it is a source's. Answers whether it is one that was under
    /// way.
    pub(crate) fn end(&mut self, tag: &Tag, outcome: PacketOutcome) -> bool
        ensures times { self.new.times ≡ self.old.times }
        ensures count { length self.new.counts.items ≡ length self.old.counts.items }
        ensures outcomes { (ends : List WayEnd) (under_way : ℕ → ℕ) (end : WayEnd)
            → end.tag ≡ tag.now
            → end.outcome ≡ outcome
            → AreOutcomes ends (λ j. one_of j tag.now + under_way j) self.old.counts.items
            → AreOutcomes (ends ++ end ∷ []) under_way self.new.counts.items }
        ensures ended { result ≡ true → is_sent tag.now.role ≡ true }
        ensures none { result ≡ false → (ends : List WayEnd) (under_way : ℕ → ℕ)
            → AreOutcomes ends (λ j. one_of j tag.now + under_way j) self.old.counts.items
            → (j : ℕ) → j < length self.old.counts.items → counts_for j tag.now ≡ false }
        ensures sent { sent_numbers self.new.counts.items ≡ sent_numbers self.old.counts.items }
        ensures astray { map (λ f. f.astray) self.new.counts.items
            ≡ map (λ f. f.astray) self.old.counts.items }
    {
        let Role::Sent = tag.role else {
            return false;
        };
        match self.counts.get_mut(tag.source.index()) {
            Some(counts) => counts.end(outcome),
            None => false,
        }
    }

    /// The packet of a tag is delivered, if it is a source's.
    pub(crate) fn deliver(&mut self, tag: &Tag, arrival: Arrival) -> Result<(), AllocError>
        ensures starts { OnOk result
            (map start_of self.new.times.items ≡ map start_of self.old.times.items) }
        ensures flows { OnOk result ((ends : List WayEnd) (under_way : ℕ → ℕ) (end : WayEnd)
            → end.tag ≡ tag.now → end.outcome ≡ Delivered → end.time ≡ arrival.now
            → end.octets ≡ arrival.octets → is_answer end ≡ false
            → AreFlows ends (λ j. one_of j tag.now + under_way j)
            self.old.counts.items self.old.times.items
            → AreFlows (ends ++ end ∷ []) under_way self.new.counts.items self.new.times.items) }
        ensures sent { sent_numbers self.new.counts.items ≡ sent_numbers self.old.counts.items }
    {
        if !self.end(tag, PacketOutcome::Delivered) {
            return Ok(());
        }
        match self.times.get_mut(tag.source.index()) {
            Some(times) => times.deliver(arrival.octets, tag.at, arrival.now),
            None => Ok(()),
        }
    }

    /// An ICMP message arrives at the node to which it is addressed: a source's packet is
    /// delivered; the reply to one has reached the source's node or went astray.
    pub(crate) fn tell(&mut self, tag: &Tag, arrival: Arrival) -> Result<(), AllocError>
        ensures starts { OnOk result
            (map start_of self.new.times.items ≡ map start_of self.old.times.items) }
        ensures flows { OnOk result ((ends : List WayEnd) (under_way : ℕ → ℕ) (end : WayEnd)
            → end.tag ≡ tag.now → end.outcome ≡ Delivered → end.time ≡ arrival.now
            → end.octets ≡ arrival.octets → end.reason ≡ Counted Icmp
            → end.place ≡ Node arrival.node
            → AreFlows ends (λ j. one_of j tag.now + under_way j)
            self.old.counts.items self.old.times.items
            → AreFlows (ends ++ end ∷ []) under_way self.new.counts.items self.new.times.items) }
        ensures sent { sent_numbers self.new.counts.items ≡ sent_numbers self.old.counts.items }
    {
        match tag.role {
            Role::Reply => self.answer(tag, arrival),
            Role::Sent | Role::Nothing => self.deliver(tag, arrival),
        }
    }

    /// The reply to a packet that a source made arrives at a node.
    fn answer(&mut self, tag: &Tag, arrival: Arrival) -> Result<(), AllocError>
        requires { is_reply tag.now.role ≡ true }
        ensures starts { map start_of self.new.times.items ≡ map start_of self.old.times.items }
        ensures flows { OnOk result ((ends : List WayEnd) (under_way : ℕ → ℕ) (end : WayEnd)
            → end.tag ≡ tag.now → end.time ≡ arrival.now → end.reason ≡ Counted Icmp
            → end.place ≡ Node arrival.node
            → AreFlows ends under_way self.old.counts.items self.old.times.items
            → AreFlows (ends ++ end ∷ []) under_way
            self.new.counts.items self.new.times.items) }
        ensures sent { sent_numbers self.new.counts.items ≡ sent_numbers self.old.counts.items }
    {
        let source = tag.source.index();
        if tag.home == arrival.node {
            return match self.times.get_mut(source) {
                Some(times) => times.answer(tag.at, arrival.now),
                None => Ok(()),
            };
        }
        if let Some(counts) = self.counts.get_mut(source) {
            counts.go_astray();
        }
        Ok(())
    }
}
