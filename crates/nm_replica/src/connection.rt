//! One connection of a replica.

ghost use Rattle.std.specs.Prelude.{◌&&◌, ◌-◌, ◌≡◌, if◌then◌else◌, nat_lt};
ghost use Rattle.nm_engine.specs.Link.{has_greeted};
ghost use Rattle.nm_replica.specs.Moved.{moved_on};

use nm_engine::{CountingWire, GivenBefore, GivenCounts, Link};
use nm_frames::Session;

/// How many octets moved on a connection with a Hello, and how many of them count as activity.
#[derive(Clone, Copy)]
pub(crate) struct MovedCounts {
    pub all: u64,
    pub counted: u64,
}

/// A link, and what was counted of it.
#[derive(Drop)]
pub(crate) struct Connection<W> {
    pub link: Link<CountingWire<W>>,
    /// How many octets had moved when they were last reported to the gate, and when activity was
    /// last counted.
    told: u64,
    counted: u64,
    /// How many octets had been received at the last call of `has_heard`.
    heard: u64,
    /// What its link had given when that was counted last.
    given: GivenCounts,
}

impl<W> Connection<W> {
    /// A connection on which nothing has moved.
    pub(crate) fn new(link: Link<CountingWire<W>>) -> Self
        ensures link { result.link ≡ link }
        ensures none { (result.told ≡ 0) × (result.counted ≡ 0) × (result.heard ≡ 0) }
    {
        Connection {
            link,
            told: 0,
            counted: 0,
            heard: 0,
            given: GivenCounts::NONE,
        }
    }

    /// How many octets moved since they were counted last. Before the peer's Hello they may be a
    /// stranger's: none is reported, and none is activity. After the Hello they are reported, but
    /// are never activity, nor are octets that move while `counts` is false.
    pub(crate) fn count_moved(&mut self, counts: bool) -> MovedCounts
        ensures all { result.all ≡ (if has_greeted self.old.link.session
            then moved_on self.old.link.wire - self.old.told else 0) }
        ensures counted { result.counted ≡ (if has_greeted self.old.link.session && counts
            then moved_on self.old.link.wire - self.old.counted else 0) }
        ensures noted { (self.new.counted ≡ moved_on self.old.link.wire)
            × (self.new.told ≡ (if has_greeted self.old.link.session
            then moved_on self.old.link.wire else self.old.told)) }
        ensures kept { (self.new.link ≡ self.old.link) × (self.new.heard ≡ self.old.heard) }
    {
        let moved = self.link.wire().moved();
        let since = moved.saturating_sub(self.counted);
        self.counted = moved;
        if !self.link.has_greeted() {
            return MovedCounts { all: 0, counted: 0 };
        }
        let all = moved.saturating_sub(self.told);
        self.told = moved;
        let counted = if counts { since } else { 0 };
        MovedCounts { all, counted }
    }

    /// Whether octets were received since this was called last.
    pub(crate) fn has_heard(&mut self) -> bool
        ensures value { result ≡ nat_lt self.old.heard self.old.link.wire.came }
        ensures noted { self.new.heard ≡ self.old.link.wire.came }
        ensures kept { (self.new.link ≡ self.old.link) × (self.new.told ≡ self.old.told)
            × (self.new.counted ≡ self.old.counted) }
    {
        let all = self.link.wire().came();
        let is_more = all > self.heard;
        self.heard = all;
        is_more
    }

    /// How much more was given than when that was counted last. This is counted now.
    fn count_up_to(&mut self, all: GivenCounts) -> GivenCounts
        ensures more { (result.messages ≡ all.messages - self.old.given.messages)
            × (result.nulls ≡ all.nulls - self.old.given.nulls) }
        ensures noted { self.new.given ≡ all }
        ensures kept { (self.new.link ≡ self.old.link) × (self.new.told ≡ self.old.told)
            × (self.new.counted ≡ self.old.counted) × (self.new.heard ≡ self.old.heard) }
    {
        let more = all.since(self.given);
        self.given = all;
        more
    }

    /// What its link has given since that was counted last, if it is counted.
    pub(crate) fn count_given(&mut self) -> GivenCounts
        ensures { (self.new.link ≡ self.old.link) × (self.new.told ≡ self.old.told)
            × (self.new.counted ≡ self.old.counted) × (self.new.heard ≡ self.old.heard) }
    {
        let Some(given) = self.link.given() else {
            return GivenCounts::NONE;
        };
        let all = given.counts;
        self.count_up_to(all)
    }

    /// How many of the messages that its link has given had been given to the same replica on a
    /// connection that is gone.
    pub(crate) fn resent(&self, before: &GivenBefore) -> u64 {
        match (self.link.greeted_by(), self.link.given()) {
            (Some(name), Some(given)) => before.resent_to(&name, &given.messages),
            _ => 0,
        }
    }

    /// Takes it apart: its wire, its session, if it has one, and whether octets were written on it.
    pub(crate) fn into_parts(self) -> (W, Option<Session>, bool)
        ensures { (result.0 ≡ self.link.wire.wire) × (result.1 ≡ self.link.session)
            × (result.2 ≡ nat_lt 0 self.link.wire.written) }
    {
        let (wire, session) = self.link.back();
        let has_written = wire.has_written();
        (wire.into_wire(), session, has_written)
    }
}
