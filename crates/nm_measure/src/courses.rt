//! The ways of one source's packets, from the source to their end.

ghost use Rattle.std.specs.Prelude.{◌≡◌, ℕ, ◌<◌, ◌++◌, true, false, [], length, map, IfSome, OnOk};
ghost use Rattle.std.specs.Prelude.{Some, ltb, slice_get};
ghost use Rattle.nm_measure.specs.CourseValue.{CourseValue};
ghost use Rattle.nm_measure.specs.Counted.{counts_for};
ghost use Rattle.nm_measure.specs.Courses.{is_packet};
ghost use Rattle.nm_measure.specs.Followed.{begun, gone_past, over};
ghost use Rattle.nm_measure.specs.Rising.{Rise};
ghost use Rattle.nm_measure.specs.Taken.{IsFirstOf};

use crate::flow_counts::PacketOutcome;
use crate::role::Role;
use crate::tag::Tag;
use nm_base::{Dir, IfaceNo, NodeNo, SourceNo, Time};
use nm_forward::Counter;
use std::alloc::{AllocError, Global};
use std::collections::VecDeque;
use std::marker::Model;

/// A packet arrived at an interface, or its transmission started there.
#[derive(Clone, Copy, Drop)]
pub struct Hop {
    pub iface: IfaceNo,
    pub dir: Dir,
    pub time: Time,
}

/// The way of a packet so far.
#[derive(Drop)]
pub struct Course {
    /// Its number among the packets of its source, from 0 on.
    pub number: u64,
    /// When its source made it.
    pub sent: Time,
    pub hops: Vec<Hop>,
}

impl Model for Course {
    ghost use Rattle.nm_measure.specs.CourseValue.{CourseValue};

    ghost Value = { CourseValue };

    ghost view = { λ c. record { number = c.number; sent = c.sent; hops = c.hops.items } };
}

/// Where a packet ended.
#[derive(Clone, Copy, Drop)]
pub enum EndPlace {
    Node(NodeNo),
    /// At its queue.
    Iface(IfaceNo),
}

/// Why a packet ended.
#[derive(Clone, Copy, Drop)]
pub enum Reason {
    /// This counter of the node rose.
    Counted(Counter),
    /// There was no room in the queue.
    NoRoom,
    /// No counter rose.
    Unknown,
}

/// How a packet ended, where and when.
#[derive(Clone, Copy, Drop)]
pub struct End {
    pub outcome: PacketOutcome,
    pub reason: Reason,
    pub place: EndPlace,
    pub time: Time,
}

/// A packet whose way is over.
#[derive(Drop)]
pub struct Ended {
    pub course: Course,
    pub end: End,
}

/// The ways of one source's packets.
#[derive(Drop)]
pub(crate) struct Courses {
    alloc: Global,
    source: SourceNo,
    /// Those of packets that are under way, by their numbers.
    under_way: VecDeque<Course>,
    /// Those of packets that ended, in the order in which they did.
    ended: VecDeque<Ended>,
}

impl Model for Courses {
    ghost use Rattle.nm_measure.specs.CoursesValue.{CoursesValue};

    ghost Value = { CoursesValue };

    ghost view = { λ c. record {
      source = c.source;
      under_way = c.under_way.items;
      ended = c.ended.items;
    } };
}

impl Courses {
    /// Nothing was sent yet by this source.
    pub(crate) fn new(alloc: Global, source: SourceNo) -> Self
        ensures source { result.source ≡ source }
        ensures under_way { result.under_way ≡ [] }
        ensures ended { result.ended ≡ [] }
    {
        Courses {
            alloc,
            source,
            under_way: VecDeque::new(alloc),
            ended: VecDeque::new(alloc),
        }
    }

    /// Whether the source made this packet.
    fn is_followed(&self, tag: &Tag) -> bool
        ensures { result ≡ counts_for self.now.source tag.now }
    {
        match tag.role {
            Role::Sent => tag.source == self.source,
            Role::Reply | Role::Nothing => false,
        }
    }

    /// The place of a packet among those under way.
    fn place(&self, tag: &Tag) -> Option<usize>
        ensures none { result ≡ None → Rise (map (λ x. x.number) self.now.under_way)
            → (i : ℕ) (x : CourseValue) → slice_get self.now.under_way i ≡ Some x
            → is_packet self.now.source x.number tag.now ≡ false }
        ensures some { IfSome result (λ place. (x : CourseValue)
            × (slice_get self.now.under_way place ≡ Some x)
            × (is_packet self.now.source x.number tag.now ≡ true)) }
    {
        if !self.is_followed(tag) {
            return None;
        }
        let number = tag.number;
        let place = self.under_way.partition_point(
            |course: &Course| -> bool
                ensures { result ≡ ltb course.now.number number }
            { course.number < number },
        );
        match self.under_way.get(place) {
            Some(course) if course.number == number => Some(place),
            _ => None,
        }
    }

    /// The source makes a packet.
    ///
    /// # Errors
    ///
    /// If memory was refused.
    pub(crate) fn begin(&mut self, tag: &Tag) -> Result<(), AllocError>
        ensures { OnOk result (self.new ≡ begun tag.now self.old) }
    {
        if !self.is_followed(tag) {
            return Ok(());
        }
        let course = Course {
            number: tag.number,
            sent: tag.at,
            hops: Vec::new(self.alloc),
        };
        self.under_way.push_back(course)?;
        Ok(())
    }

    /// A packet passes an interface.
    ///
    /// # Errors
    ///
    /// If memory was refused.
    pub(crate) fn pass(&mut self, tag: &Tag, hop: Hop) -> Result<(), AllocError>
        ensures { OnOk result (Rise (map (λ x. x.number) self.old.under_way)
            → self.new ≡ gone_past tag.now hop self.old) }
    {
        let Some(place) = self.place(tag) else {
            return Ok(());
        };
        let Some(course) = self.under_way.get_mut(place) else {
            return Ok(());
        };
        course.hops.push(hop)?;
        Ok(())
    }

    /// The way of a packet is over.
    ///
    /// # Errors
    ///
    /// If memory was refused.
    pub(crate) fn end(&mut self, tag: &Tag, end: End) -> Result<(), AllocError>
        ensures { OnOk result (Rise (map (λ x. x.number) self.old.under_way)
            → self.new ≡ over tag.now end self.old) }
    {
        let Some(place) = self.place(tag) else {
            return Ok(());
        };
        let Some(course) = self.under_way.remove(place) else {
            return Ok(());
        };
        self.ended.push_back(Ended { course, end })?;
        Ok(())
    }

    /// The first packet that ended and was not taken yet.
    pub(crate) fn take_ended(&mut self) -> Option<Ended>
        ensures first { IsFirstOf self.old.ended result self.new.ended }
        ensures source { self.new.source ≡ self.old.source }
        ensures under_way { self.new.under_way ≡ self.old.under_way }
    {
        self.ended.pop_front()
    }

    /// The packet with the least number that is under way.
    pub(crate) fn take_open(&mut self) -> Option<Course>
        ensures first { IsFirstOf self.old.under_way result self.new.under_way }
    {
        self.under_way.pop_front()
    }
}
