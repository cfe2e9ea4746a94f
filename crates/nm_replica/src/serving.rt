//! A replica while it is served: what it keeps from poll to poll, and the turns of its connections.

ghost use Rattle.std.specs.Prelude.{◌+◌, ◌≡◌, IfErr, IfOk, length};
ghost use Rattle.std.specs.Arc.{arc_value};
ghost use Rattle.nm_base.specs.Count.{saturated};
ghost use Rattle.nm_policy.specs.Laws.{at_first};
ghost use Rattle.nm_replica.specs.Polls.{HasCountedNothing};
ghost use Rattle.nm_replica.specs.Served.{IsInterrupted};
ghost use Rattle.nm_replica.specs.Sessions.{first_sessions};
ghost use Rattle.nm_replica.specs.Turns.{ServesAll, links};

use crate::connections::Connections;
use crate::noting::note_differing;
use crate::replica::Service;
use crate::served::Served;
use crate::turning::{Does, Moves, Talk, turns};
use nm_engine::ReadBuffer;
use nm_policy::{Lasted, Stay};
use nm_shared::{Counts, Pass};
use nm_transport::Transport;
use std::alloc::{AllocError, Global};
use std::sync::Wait;

/// What a replica keeps while it is served.
#[derive(Drop)]
pub(crate) struct Serving<W> {
    pub connections: Connections<W>,
    /// How many octets have moved on connections with a Hello, as reported to the gate, and how
    /// many of them count as activity. Each stops at the greatest `u64`.
    pub moved: u64,
    pub counted: u64,
    /// How many events the book had done when it was last read.
    pub events: u64,
    /// The book was done when it was last read.
    pub was_done: bool,
    /// How many polls were made.
    pub polls: u64,
    /// How long it has stayed since its links ended.
    pub stay: Stay,
    /// How long the system has lacked resources for one more connection.
    pub short: Lasted,
    /// How many waits in a row have failed.
    pub failed_waits: u32,
    /// More may be left to do without a report of a connection: the next poll does not wait.
    pub is_busy: bool,
    buffer: ReadBuffer,
    alloc: Global,
}

impl<W> Serving<W> {
    /// No connection so far.
    pub(crate) fn new<C: Counts>(
        alloc: Global,
        service: &Service<'_, C>,
    ) -> Result<Self, AllocError>
        ensures contacts { IfOk result (λ s. s.connections.contacts
            ≡ at_first (length service.now.peers.now) service.now.callers.now) }
        ensures sessions { IfOk result (λ s. s.connections.sessions
            ≡ first_sessions (arc_value service.now.topology.now) service.now.book.now.partition
            service.now.book.now.replica service.now.peers.now) }
        ensures begun { IfOk result HasCountedNothing }
    {
        let buffer = ReadBuffer::new(alloc)?;
        Ok(Serving {
            connections: Connections::new(alloc, &service.neighbours())?,
            moved: 0,
            counted: 0,
            events: 0,
            was_done: false,
            polls: 0,
            stay: Stay::new(),
            short: Lasted::new(),
            failed_waits: 0,
            is_busy: true,
            buffer,
            alloc,
        })
    }
}

/// Gives each connection its turns, and closes those that ended or broke. Answers what moved, or
/// how serving ends.
#[tactic(auto, using(crate::proofs::Turns::serves_one_more, crate::proofs::Turns::serves_all))]
pub(crate) fn serve_all<T: Transport, C: Counts, R: Wait>(
    rt: &R,
    service: &Service<'_, C>,
    pass: &mut Pass<C>,
    transport: &mut T,
    serving: &mut Serving<T::Connection>,
    does: Does,
) -> Result<Moves, Served>
    ensures idle { T.elapsed_periods transport.new ≡ T.elapsed_periods transport.old }
    ensures waits { (T.asked transport.new).waits ≡ (T.asked transport.old).waits }
    ensures early { IfErr result IsInterrupted }
    ensures moved { IfOk result
        (λ m. serving.new.moved ≡ saturated (serving.old.moved + m.moved)) }
    ensures counted { IfOk result
        (λ m. serving.new.counted ≡ saturated (serving.old.counted + m.octets)) }
    ensures events { serving.new.events ≡ serving.old.events }
    ensures stay { serving.new.stay ≡ serving.old.stay }
    ensures done { serving.new.was_done ≡ serving.old.was_done }
    ensures polls { serving.new.polls ≡ serving.old.polls }
    ensures short { serving.new.short ≡ serving.old.short }
    ensures failed { serving.new.failed_waits ≡ serving.old.failed_waits }
    ensures served { IfOk result (λ m. ServesAll (links T.Connection.seen C.exact C.home) does
        serving.old.connections serving.new.connections m) }
{
    let talk = Talk {
        alloc: serving.alloc,
        book: service.book,
        does,
    };
    let mut all = Moves::NONE;
    for key in 0..serving.connections.key_end() {
        let (moves, turn) = turns(
            rt,
            &talk,
            pass,
            &mut serving.connections,
            &mut serving.buffer,
            key,
        );
        let noted = note_differing(service, &serving.connections, key, turn);
        serving
            .connections
            .settle(transport, key, turn, moves.has_heard, &noted)?;
        all = all.with(moves);
    }
    serving.moved = serving.moved.saturating_add(all.moved);
    serving.counted = serving.counted.saturating_add(all.octets);
    Ok(all)
}
