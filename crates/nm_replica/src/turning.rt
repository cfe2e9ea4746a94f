//! The turns of one connection, and their counts.

ghost use Rattle.std.specs.Prelude.{◌+◌, ◌≡◌, ◌||◌, None};
ghost use Rattle.slab.specs.Slab.{get};
ghost use Rattle.nm_base.specs.Count.{saturated};
ghost use Rattle.nm_engine.specs.Passes.{by_pass, owner_if};
ghost use Rattle.nm_replica.specs.Moved.{CountsMoves};
ghost use Rattle.nm_replica.specs.Turns.{GivesTurns, HasTurns, TurnsAs, has_moved, links};

use crate::connection::Connection;
use crate::connections::Connections;
use crate::limits::MAX_TURNS;
use nm_base::Wire;
use nm_engine::{CountingWire, GivenCounts, Link, ReadBuffer, Turn};
use nm_shared::{Counts, Pass, SharedBook};
use std::alloc::Global;
use std::sync::Wait;

/// The result of turns of connections.
#[derive(Clone, Copy)]
pub(crate) struct Moves {
    /// How many octets moved with peers, and how many of them count as activity.
    pub moved: u64,
    pub octets: u64,
    /// Octets were received.
    pub has_heard: bool,
    /// A connection had all its turns, and may want more.
    pub has_more: bool,
    /// What links gave, if that is counted.
    pub given: GivenCounts,
}

impl Moves {
    /// Nothing moved.
    pub(crate) const NONE: Moves = Moves {
        moved: 0,
        octets: 0,
        has_heard: false,
        has_more: false,
        given: GivenCounts::NONE,
    };

    /// The sum of these and others.
    pub(crate) fn with(self, other: Moves) -> Moves
        ensures moved { result.moved ≡ saturated (self.moved + other.moved) }
        ensures octets { result.octets ≡ saturated (self.octets + other.octets) }
        ensures heard { result.has_heard ≡ (self.has_heard || other.has_heard) }
        ensures more { result.has_more ≡ (self.has_more || other.has_more) }
        ensures given { (result.given.messages
            ≡ saturated (self.given.messages + other.given.messages))
            × (result.given.nulls ≡ saturated (self.given.nulls + other.given.nulls)) }
    {
        Moves {
            moved: self.moved.saturating_add(other.moved),
            octets: self.octets.saturating_add(other.octets),
            has_heard: self.has_heard || other.has_heard,
            has_more: self.has_more || other.has_more,
            given: self.given.with(other.given),
        }
    }
}

/// What connections do in their turns.
#[derive(Clone, Copy)]
pub(crate) enum Does {
    /// They read, and write nothing.
    Hear,
    /// They also write what is owed.
    Speak,
}

/// Turns of connections: what they do in them, and the book that they act on.
#[derive(Drop)]
pub(crate) struct Talk<'a, C: Counts> {
    pub alloc: Global,
    pub book: &'a SharedBook<C>,
    pub does: Does,
}

/// Whether something moved in a turn, and the link goes on.
fn has_moved(turn: Turn) -> bool
    ensures { result ≡ has_moved turn }
{
    matches!(turn, Turn::Progress)
}

/// One turn of a link.
fn turn_of<W: Wire, C: Counts, R: Wait>(
    rt: &R,
    talk: &Talk<'_, C>,
    pass: &mut Pass<C>,
    link: &mut Link<CountingWire<W>>,
    buffer: &mut ReadBuffer,
) -> Turn
    ensures { TurnsAs (λ w. W.seen w.wire) (by_pass C.exact C.home C.messages_of C.events_of
        pass.old.share pass.new.share)
        talk.now.does link.old link.new result }
{
    match talk.does {
        Does::Hear => link.hear(rt, talk.alloc, talk.book, pass, buffer),
        Does::Speak => link.turn(rt, talk.alloc, talk.book, pass, buffer),
    }
}

/// Gives a link its turns. Returns the answer of the last one.
#[tactic(auto, using(crate::proofs::Turns::has_had_all))]
fn turns_of<W: Wire, C: Counts, R: Wait>(
    rt: &R,
    talk: &Talk<'_, C>,
    pass: &mut Pass<C>,
    link: &mut Link<CountingWire<W>>,
    buffer: &mut ReadBuffer,
) -> Turn
    ensures { HasTurns (λ w. W.seen w.wire) (owner_if C.exact C.home) talk.now.does link.old
        link.new result }
{
    for _had in 0..MAX_TURNS {
        let turn = turn_of(rt, talk, pass, link, buffer);
        if !has_moved(turn) {
            return turn;
        }
    }
    Turn::Progress
}

/// Counts what moved on a connection in its turns; `has_more`: it may want more turns.
fn count_turns<W>(connection: &mut Connection<W>, counts: bool, has_more: bool) -> Moves
    ensures counted { CountsMoves counts connection.old connection.new result }
    ensures link { connection.new.link ≡ connection.old.link }
    ensures more { result.has_more ≡ has_more }
{
    let counted = connection.count_moved(counts);
    Moves {
        moved: counted.all,
        octets: counted.counted,
        has_heard: connection.has_heard(),
        has_more,
        given: connection.count_given(),
    }
}

/// Gives the connection with this key its turns, if it is there. Answers what moved, and the answer
/// of the last turn.
pub(crate) fn turns<W: Wire, C: Counts, R: Wait>(
    rt: &R,
    talk: &Talk<'_, C>,
    pass: &mut Pass<C>,
    connections: &mut Connections<W>,
    buffer: &mut ReadBuffer,
    key: usize,
) -> (Moves, Turn)
    ensures turned { GivesTurns key connections.old connections.new
        (links W.seen C.exact C.home) talk.now.does result }
    ensures absent { get connections.old.open key ≡ None → connections.new ≡ connections.old }
    ensures more { result.0.has_more ≡ has_moved result.1 }
{
    let counts = connections.contacts.does_count(key);
    let Some(connection) = connections.open.get_mut(key) else {
        return (Moves::NONE, Turn::Idle);
    };
    let last = turns_of(rt, talk, pass, &mut connection.link, buffer);
    let has_more = has_moved(last);
    (count_turns(connection, counts, has_more), last)
}
