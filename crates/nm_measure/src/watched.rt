//! What becomes of the packets of sources, observed event by event.

ghost use Rattle.std.specs.Prelude.{◌≡◌, ◌≢◌, ℕ, suc, ◌+◌, ◌<◌, ◌^◌, ◌++◌, ◌∷◌, [], List, None};
ghost use Rattle.std.specs.Prelude.{Some, IfOk, OnOk, length, map, option_map, slice_get};
ghost use Rattle.nm_forward.specs.declared.counter.Counter.{Counter};
ghost use Rattle.nm_base.specs.declared.key.Place.TheVariants.{Arrive, Complete, Fire};
ghost use Rattle.nm_events.specs.Held.{Held};
ghost use Rattle.nm_sim.specs.Part.{PartValue};
ghost use Rattle.nm_measure.specs.Interfaces.{IsNext};
ghost use Rattle.nm_model.specs.Lists.{set_at};
ghost use Rattle.nm_model.specs.declared.offering.Offering.TheVariants.{Nothing, Started};
ghost use Rattle.nm_model.specs.declared.offering.Offering.TheVariants.{Dropped};
ghost use Rattle.nm_measure.specs.declared.flow_counts.PacketOutcome.{PacketOutcome};
ghost use Rattle.nm_measure.specs.declared.flow_counts.PacketOutcome.TheVariants.{Delivered};
ghost use Rattle.nm_measure.specs.declared.flow_counts.PacketOutcome.TheVariants as outcome;
ghost use Rattle.nm_measure.specs.declared.lane.Lane.{Lane};
ghost use Rattle.nm_measure.specs.declared.tag.Tag.{Tag};
ghost use Rattle.std.specs.Prelude.{false};
ghost use Rattle.nm_measure.specs.Counted.{FitsReason, is_answer};
ghost use Rattle.nm_measure.specs.declared.courses.Reason.TheVariants.{Counted, NoRoom};
ghost use Rattle.nm_measure.specs.Starts.{AreStarts, start_of};
ghost use Rattle.nm_measure.specs.Lanes.{CanBe, IsDropOf, IsEndOf, Watches, WatchesRun};
ghost use Rattle.nm_measure.specs.Lanes.{left_in_hand, one_of};
ghost use Rattle.nm_measure.specs.Lanes.{with_offer, with_start};
ghost use Rattle.nm_topology.specs.TopologyValue.{TopologyValue};
ghost use Rattle.nm_measure.specs.Ways.{WayEnd, answer_tag, dropped_as, ended_as, fate_by};
ghost use Rattle.nm_measure.specs.Ways.{outcome_by};
ghost use Rattle.nm_sim.specs.Effects.{IsPlaceIn};
ghost use Rattle.std.specs.Prelude.{◌-◌};
ghost use Rattle.nm_measure.specs.Flows.{sent_numbers};
ghost use Rattle.nm_measure.specs.Followed.{NumbersRise, FollowsOn, IsFollowed, TakesEnded, TakesOpen};
ghost use Rattle.nm_measure.specs.Followed.{begun, came_to_end, gone_past, over, went_out};
ghost use Rattle.nm_measure.specs.Sent.{AreSent, sent_later, with_sent};

use crate::boxed_tag::{BoxedTag, SpareBlocks};
use crate::courses::{Course, Courses, End, EndPlace, Ended, Hop, Reason};
use crate::fates::{Fate, fate_of, unsent_by};
use crate::flow_counts::{FlowCounts, PacketOutcome};
use crate::flow_times::FlowTimes;
use crate::flows::{Arrival, Flows};
use crate::lane::Lane;
use crate::tag::Tag;
use crate::tags::tags_change_no_run;
use nm_base::{Dir, IfaceNo, NodeNo, Place, SourceNo, Time};
use nm_model::Offering;
use nm_sim::{Arrived, Happened};
use nm_topology::Topology;
use std::alloc::{AllocError, Global};

/// What is seen of the packets of sources.
#[derive(Drop)]
pub(crate) struct Watched {
    flows: Flows,
    /// The direction of each interface's link that it sends on.
    lanes: Vec<Lane>,
    /// The ways of one source's packets, if they are asked for.
    courses: Option<Courses>,
    spare: SpareBlocks,
}

/// The direction of each interface, without packets.
fn lanes_of(alloc: Global, topology: &Topology) -> Result<Vec<Lane>, AllocError>
    ensures count { IfOk result (λ all. length all.items ≡ length topology.now.ifaces) }
    ensures none { IfOk result (λ all. (i : ℕ) (x : Lane) → slice_get all.items i ≡ Some x
        → (x.line.items ≡ []) × (x.waiting ≡ 0)) }
{
    let mut all = Vec::new(alloc);
    for _number in 0..topology.ifaces().len() {
        all.push(Lane::new(alloc))?;
    }
    Ok(all)
}

/// The ways of the packets of a source, if one is given: none yet.
fn courses_of(alloc: Global, followed: Option<SourceNo>) -> Option<Courses>
    ensures { (t : TopologyValue) → IsFollowed t followed 0 [] result }
{
    match followed {
        Some(source) => Some(Courses::new(alloc, source)),
        None => None,
    }
}

/// What is said of a packet that arrived, and why.
fn said_of(arrived: &Arrived) -> (Fate, Reason)
    ensures fits { FitsReason result.0 result.1 }
    ensures said { (counter : Counter)
        → arrived.now.counter ≡ Some counter
        → (result.0 ≡ fate_by counter) × (result.1 ≡ Counted counter) }
{
    match arrived.counter {
        Some(counter) => (fate_of(counter), Reason::Counted(counter)),
        None => (Fate::Discarded, Reason::Unknown),
    }
}

/// The outcome of a fate, if that ends a packet's way.
fn outcome_of(fate: Fate) -> Option<PacketOutcome>
    ensures { result ≡ outcome_by fate }
{
    match fate {
        Fate::SentOn => None,
        Fate::Told | Fate::Delivered | Fate::Requested => Some(PacketOutcome::Delivered),
        Fate::Refused => Some(PacketOutcome::Refused),
        Fate::Discarded => Some(PacketOutcome::Discarded),
    }
}

/// The tag of what a node sends in reaction to a packet, by what it did with that.
fn answer_to(fate: Fate, tag: BoxedTag) -> BoxedTag
    ensures { result ≡ answer_tag fate tag }
{
    match fate {
        Fate::SentOn => tag,
        Fate::Requested => tag.into_reply(),
        Fate::Delivered | Fate::Told | Fate::Refused | Fate::Discarded => tag.into_nobodys(),
    }
}

/// What has waited longest in a lane passes its interface, if it is followed.
fn pass_first(courses: &mut Option<Courses>, lane: &Lane, hop: Hop) -> Result<(), AllocError>
    ensures { OnOk result ((tag : Tag) → slice_get lane.now.line.items
        (length lane.now.line.items - lane.now.waiting) ≡ Some tag → NumbersRise courses.old
        → courses.new ≡ option_map (gone_past tag hop) courses.old) }
{
    match (courses, lane.first_waiting()) {
        (Some(courses), Some(tag)) => courses.pass(tag, hop),
        _ => Ok(()),
    }
}

impl Watched {
    /// Nothing was seen yet. If a source is given, the ways of its packets are kept.
    pub(crate) fn new(
        alloc: Global,
        topology: &Topology,
        followed: Option<SourceNo>,
    ) -> Result<Self, AllocError>
        ensures sent { IfOk result
            (λ w. AreSent topology.now 0 (sent_numbers w.flows.counts.items)) }
        ensures watches { IfOk result (WatchesRun topology.now 0) }
        ensures starts { IfOk result
            (λ w. AreStarts topology.now 0 0 (map start_of w.flows.times.items)) }
        ensures followed { IfOk result (λ w. IsFollowed topology.now followed 0 [] w.courses) }
    {
        Ok(Watched {
            flows: Flows::new(alloc, topology)?,
            lanes: lanes_of(alloc, topology)?,
            courses: courses_of(alloc, followed),
            spare: SpareBlocks::new(alloc),
        })
    }

    /// The greatest delays of packets that arrive from now on are looked for.
    pub(crate) fn begin_recent(&mut self)
        ensures counts { self.new.flows.counts ≡ self.old.flows.counts }
        ensures watches { (t : TopologyValue) (n : ℕ) → WatchesRun t n self.old
            → WatchesRun t n self.new }
        ensures starts { (t : TopologyValue) (first n : ℕ) → WatchesRun t n self.old
            → AreStarts t first n (map start_of self.old.flows.times.items)
            → AreStarts t n n (map start_of self.new.flows.times.items) }
        ensures courses { self.new.courses ≡ self.old.courses }
    {
        self.flows.begin_recent();
    }

    /// The first followed packet that ended and was not taken yet.
    pub(crate) fn take_ended(&mut self) -> Option<Ended>
        ensures flows { self.new.flows ≡ self.old.flows }
        ensures lanes { self.new.lanes ≡ self.old.lanes }
        ensures courses { TakesEnded result self.old.courses self.new.courses }
    {
        match &mut self.courses {
            Some(courses) => courses.take_ended(),
            None => None,
        }
    }

    /// The followed packet with the least number that is under way.
    pub(crate) fn take_open(&mut self) -> Option<Course>
        ensures flows { self.new.flows ≡ self.old.flows }
        ensures lanes { self.new.lanes ≡ self.old.lanes }
        ensures courses { TakesOpen result self.old.courses self.new.courses }
    {
        match &mut self.courses {
            Some(courses) => courses.take_open(),
            None => None,
        }
    }

    /// The way of a packet begins.
    fn begin(&mut self, tag: &Tag) -> Result<(), AllocError>
        ensures flows { self.new.flows ≡ self.old.flows }
        ensures lanes { self.new.lanes ≡ self.old.lanes }
        ensures courses { OnOk result
            (self.new.courses ≡ option_map (begun tag.now) self.old.courses) }
    {
        match &mut self.courses {
            Some(courses) => courses.begin(tag),
            None => Ok(()),
        }
    }

    /// A packet passes an interface.
    fn pass(&mut self, tag: &Tag, hop: Hop) -> Result<(), AllocError>
        ensures flows { self.new.flows ≡ self.old.flows }
        ensures lanes { self.new.lanes ≡ self.old.lanes }
        ensures courses { OnOk result (NumbersRise self.old.courses
            → self.new.courses ≡ option_map (gone_past tag.now hop) self.old.courses) }
    {
        match &mut self.courses {
            Some(courses) => courses.pass(tag, hop),
            None => Ok(()),
        }
    }

    /// The way of a packet is over.
    fn end(&mut self, tag: &Tag, end: End) -> Result<(), AllocError>
        ensures flows { self.new.flows ≡ self.old.flows }
        ensures lanes { self.new.lanes ≡ self.old.lanes }
        ensures courses { OnOk result (NumbersRise self.old.courses
            → self.new.courses ≡ option_map (over tag.now end) self.old.courses) }
    {
        match &mut self.courses {
            Some(courses) => courses.end(tag, end),
            None => Ok(()),
        }
    }

    /// What became of the packets of a source.
    pub(crate) fn flow(&self, source: SourceNo) -> Option<FlowCounts>
        ensures { result ≡ slice_get self.now.flows.counts.items source }
    {
        self.flows.counts(source)
    }

    /// How much of what a source sent arrived, and how late.
    pub(crate) fn times(&self, source: SourceNo) -> Option<&FlowTimes>
        ensures { option_map (λ x. x.now) result ≡ slice_get self.now.flows.times.items source }
    {
        self.flows.times(source)
    }

    /// Sees an event, which was just done.
    ///
    /// # Errors
    ///
    /// If memory was refused.
    pub(crate) fn see(
        &mut self,
        topology: &Topology,
        now: Time,
        place: &Place,
        happened: &Happened,
    ) -> Result<(), AllocError>
        requires { IsPlaceIn topology.now place.now }
        ensures watches { OnOk result ((n : ℕ) (p : PartValue Held) → n + 1 < 2 ^ 64
            → AreSent topology.now n (sent_numbers self.old.flows.counts.items)
            → IsNext topology.now n now place.now p happened.now
            → WatchesRun topology.now n self.old → WatchesRun topology.now (suc n) self.new) }
        ensures sent { OnOk result (sent_numbers self.new.flows.counts.items
            ≡ sent_later place.now (sent_numbers self.old.flows.counts.items)) }
        ensures starts { OnOk result ((first n : ℕ) (p : PartValue Held)
            → IsNext topology.now n now place.now p happened.now
            → AreStarts topology.now first n (map start_of self.old.flows.times.items)
            → AreStarts topology.now first (suc n) (map start_of self.new.flows.times.items)) }
        ensures followed { OnOk result
            (FollowsOn topology.now now place.now happened.now self.old self.new) }
    {
        match place {
            Place::Complete(iface) => self.see_completion(topology, *iface, now, happened),
            Place::Arrive(iface) => self.see_arrival(topology, *iface, now, happened),
            Place::Fire(source) => self.see_source(topology, *source, now, happened),
        }
    }

    /// Sees an interface complete a transmission. What waited longest there starts, if it did.
    fn see_completion(
        &mut self,
        topology: &Topology,
        iface: IfaceNo,
        now: Time,
        happened: &Happened,
    ) -> Result<(), AllocError>
        requires there { iface < length topology.now.ifaces }
        ensures flows { self.new.flows ≡ self.old.flows }
        ensures watches { OnOk result ((n : ℕ) (p : PartValue Held)
            → IsNext topology.now n now (Complete iface) p happened.now
            → WatchesRun topology.now n self.old → WatchesRun topology.now (suc n) self.new) }
        ensures followed { OnOk result
            (FollowsOn topology.now now (Complete iface) happened.now self.old self.new) }
    {
        tags_change_no_run(topology); // law: tags are those of the one event list
        let Some(started) = &happened.started else {
            return Ok(());
        };
        let Some(lane) = self.lanes.get_mut(started.iface.index()) else {
            return Ok(());
        };
        let hop = Hop {
            iface: started.iface,
            dir: Dir::Out,
            time: now,
        };
        pass_first(&mut self.courses, lane, hop)?;
        lane.send_next();
        Ok(())
    }

    /// Sees a packet arrive at an interface.
    fn see_arrival(
        &mut self,
        topology: &Topology,
        number: IfaceNo,
        now: Time,
        happened: &Happened,
    ) -> Result<(), AllocError>
        requires there { number < length topology.now.ifaces }
        ensures watches { OnOk result ((n : ℕ) (p : PartValue Held)
            → IsNext topology.now n now (Arrive number) p happened.now
            → WatchesRun topology.now n self.old → WatchesRun topology.now (suc n) self.new) }
        ensures sent { sent_numbers self.new.flows.counts.items
            ≡ sent_numbers self.old.flows.counts.items }
        ensures starts { OnOk result (map start_of self.new.flows.times.items
            ≡ map start_of self.old.flows.times.items) }
        ensures followed { OnOk result
            (FollowsOn topology.now now (Arrive number) happened.now self.old self.new) }
    {
        tags_change_no_run(topology); // law: tags are those of the one event list
        let iface = topology.iface(number);
        let node = iface.node();
        let Some(tag) = self.leave_link(iface.far().iface) else {
            return Ok(());
        };
        let hop = Hop {
            iface: number,
            dir: Dir::In,
            time: now,
        };
        self.pass(tag.get(), hop)?;
        let Some(arrived) = &happened.arrived else {
            return Ok(());
        };
        let (fate, reason) = said_of(arrived);
        let arrival = Arrival {
            node,
            octets: u64::from(arrived.octets),
            now,
        };
        self.see_end(tag.get(), fate, reason, arrival)?;
        let answer = answer_to(fate, tag);
        self.see_offer(answer, now, happened.offering)
    }

    /// The packet that is longest on the link from an interface leaves it.
    fn leave_link(&mut self, from: IfaceNo) -> Option<BoxedTag>
        ensures flows { self.new.flows ≡ self.old.flows }
        ensures courses { self.new.courses ≡ self.old.courses }
        ensures watches { (count : ℕ) (all : ℕ → List Tag × List Tag) (tag : Tag) (on : List Tag)
            (ends : List WayEnd) → Watches count all [] ends self.old → from < count
            → (all from).0 ≡ tag ∷ on → (result ≡ Some tag)
            × Watches count (set_at all from (on, (all from).1)) (tag ∷ []) ends self.new }
    {
        match self.lanes.get_mut(from.index()) {
            Some(lane) => lane.arrive(),
            None => None,
        }
    }

    /// Sees the way of a packet end at a node.
    fn see_end(
        &mut self,
        tag: &Tag,
        fate: Fate,
        reason: Reason,
        arrival: Arrival,
    ) -> Result<(), AllocError>
        requires fits { FitsReason fate reason }
        ensures watches { OnOk result ((count : ℕ) (all : ℕ → List Tag × List Tag)
            (ends : List WayEnd) (end : PacketOutcome → WayEnd)
            → IsEndOf tag.now reason arrival end
            → Watches count all (tag.now ∷ []) ends self.old
            → Watches count all (left_in_hand (outcome_by fate) tag.now)
            (ends ++ ended_as end (outcome_by fate)) self.new) }
        ensures sent { sent_numbers self.new.flows.counts.items
            ≡ sent_numbers self.old.flows.counts.items }
        ensures starts { OnOk result (map start_of self.new.flows.times.items
            ≡ map start_of self.old.flows.times.items) }
        ensures courses { OnOk result (NumbersRise self.old.courses → self.new.courses
            ≡ option_map (came_to_end tag.now (outcome_by fate) reason arrival)
            self.old.courses) }
    {
        let Some(outcome) = outcome_of(fate) else {
            return Ok(());
        };
        let end = End {
            outcome,
            reason,
            place: EndPlace::Node(arrival.node),
            time: arrival.now,
        };
        self.end(tag, end)?;
        if let Fate::Told = fate {
            return self.flows.tell(tag, arrival);
        }
        if let PacketOutcome::Delivered = outcome {
            return self.flows.deliver(tag, arrival);
        }
        self.flows.end(tag, outcome);
        Ok(())
    }

    /// Sees a source make a packet. What its node does not send is discarded.
    fn see_source(
        &mut self,
        topology: &Topology,
        source: SourceNo,
        now: Time,
        happened: &Happened,
    ) -> Result<(), AllocError>
        requires there { source < length topology.now.sources }
        ensures watches { OnOk result ((n : ℕ) (p : PartValue Held) → n + 1 < 2 ^ 64
            → AreSent topology.now n (sent_numbers self.old.flows.counts.items)
            → IsNext topology.now n now (Fire source) p happened.now
            → WatchesRun topology.now n self.old → WatchesRun topology.now (suc n) self.new) }
        ensures sent { OnOk result (sent_numbers self.new.flows.counts.items
            ≡ with_sent source (sent_numbers self.old.flows.counts.items)) }
        ensures starts { OnOk result ((first n : ℕ) (p : PartValue Held)
            → IsNext topology.now n now (Fire source) p happened.now
            → AreStarts topology.now first n (map start_of self.old.flows.times.items)
            → AreStarts topology.now first (suc n) (map start_of self.new.flows.times.items)) }
        ensures followed { OnOk result
            (FollowsOn topology.now now (Fire source) happened.now self.old self.new) }
    {
        tags_change_no_run(topology); // law: tags are those of the one event list
        let Some(from) = topology.sources().get(source.index()) else {
            return Ok(());
        };
        let tag = self.flows.send(source, from.node, now);
        self.begin(&tag)?;
        let node = from.node;
        if let Offering::Nothing = happened.offering {
            let end = End {
                outcome: PacketOutcome::Discarded,
                reason: Reason::Counted(unsent_by(topology, from)),
                place: EndPlace::Node(node),
                time: now,
            };
            return self.see_loss(&tag, end);
        }
        let boxed = self.spare.block(tag)?;
        self.see_offer(boxed, now, happened.offering)
    }

    /// Sees what becomes of a packet that a node sends: it starts, waits, or is dropped.
    fn see_offer(&mut self, tag: BoxedTag, now: Time, offering: Offering) -> Result<(), AllocError>
        ensures watches { OnOk result ((count : ℕ) (all : ℕ → List Tag × List Tag)
            (ends : List WayEnd) (end : ℕ → WayEnd) → IsDropOf tag end
            → CanBe count all offering → ((j : ℕ) → offering ≡ Nothing → one_of j tag ≡ 0)
            → Watches count all (tag ∷ []) ends self.old
            → Watches count (with_offer offering tag all) [] (ends ++ dropped_as end offering)
            self.new) }
        ensures sent { sent_numbers self.new.flows.counts.items
            ≡ sent_numbers self.old.flows.counts.items }
        ensures starts { OnOk result (map start_of self.new.flows.times.items
            ≡ map start_of self.old.flows.times.items) }
        ensures courses { OnOk result (NumbersRise self.old.courses → self.new.courses
            ≡ option_map (went_out offering tag now) self.old.courses) }
    {
        match offering {
            Offering::Started(iface) => self.see_start(tag, iface, now),
            Offering::Waits(iface) => match self.lanes.get_mut(iface.index()) {
                Some(lane) => lane.wait(tag),
                None => Ok(()),
            },
            Offering::Dropped(iface) => {
                self.see_drop(tag.get(), iface, now)?;
                self.spare.take_back(tag);
                Ok(())
            }
            Offering::Nothing => {
                self.spare.take_back(tag);
                Ok(())
            }
        }
    }

    /// Sees the transmission of a packet start that was offered to this interface.
    fn see_start(&mut self, tag: BoxedTag, iface: IfaceNo, now: Time) -> Result<(), AllocError>
        ensures flows { self.new.flows ≡ self.old.flows }
        ensures watches { OnOk result ((count : ℕ) (all : ℕ → List Tag × List Tag)
            (ends : List WayEnd) → Watches count all (tag ∷ []) ends self.old → iface < count
            → (all iface).1 ≡ []
            → Watches count (with_start iface tag all) [] ends self.new) }
        ensures courses { OnOk result (NumbersRise self.old.courses → self.new.courses
            ≡ option_map (went_out (Started iface) tag now) self.old.courses) }
    {
        let hop = Hop {
            iface,
            dir: Dir::Out,
            time: now,
        };
        self.pass(tag.get(), hop)?;
        match self.lanes.get_mut(iface.index()) {
            Some(lane) => lane.send(tag),
            None => Ok(()),
        }
    }

    /// Sees a packet dropped at a queue.
    fn see_drop(&mut self, tag: &Tag, iface: IfaceNo, now: Time) -> Result<(), AllocError>
        ensures watches { OnOk result ((count : ℕ) (all : ℕ → List Tag × List Tag)
            (ends : List WayEnd) (end : WayEnd) → end.tag ≡ tag.now → end.outcome ≡ outcome.Dropped
            → end.reason ≡ NoRoom
            → Watches count all (tag.now ∷ []) ends self.old
            → Watches count all [] (ends ++ end ∷ []) self.new) }
        ensures sent { sent_numbers self.new.flows.counts.items
            ≡ sent_numbers self.old.flows.counts.items }
        ensures starts { OnOk result (map start_of self.new.flows.times.items
            ≡ map start_of self.old.flows.times.items) }
        ensures courses { OnOk result (NumbersRise self.old.courses → self.new.courses
            ≡ option_map (went_out (Dropped iface) tag.now now) self.old.courses) }
    {
        let end = End {
            outcome: PacketOutcome::Dropped,
            reason: Reason::NoRoom,
            place: EndPlace::Iface(iface),
            time: now,
        };
        self.see_loss(tag, end)
    }

    /// Sees the way of a packet end without a delivery.
    fn see_loss(&mut self, tag: &Tag, end: End) -> Result<(), AllocError>
        requires lost { end.outcome ≢ Delivered }
        ensures watches { OnOk result ((count : ℕ) (all : ℕ → List Tag × List Tag)
            (ends : List WayEnd) (way : WayEnd) → way.tag ≡ tag.now → way.outcome ≡ end.outcome
            → is_answer way ≡ false
            → Watches count all (tag.now ∷ []) ends self.old
            → Watches count all [] (ends ++ way ∷ []) self.new) }
        ensures sent { sent_numbers self.new.flows.counts.items
            ≡ sent_numbers self.old.flows.counts.items }
        ensures starts { OnOk result (map start_of self.new.flows.times.items
            ≡ map start_of self.old.flows.times.items) }
        ensures courses { OnOk result (NumbersRise self.old.courses
            → self.new.courses ≡ option_map (over tag.now end) self.old.courses) }
    {
        self.flows.end(tag, end.outcome);
        self.end(tag, end)
    }
}
