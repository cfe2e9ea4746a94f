//! A link: one connection of a replica with a replica of another partition.

ghost use Rattle.std.specs.Prelude.{◌≡◌, Some, None, [], false};
ghost use Rattle.nm_engine.specs.CountingWire.{reported};
ghost use Rattle.nm_engine.specs.Link.{IsBounded, greeted_by, has_greeted};
ghost use Rattle.nm_engine.specs.Passes.{by_pass};
ghost use Rattle.nm_engine.specs.Turn.{Hears, Turns};

use crate::acceptor::Acceptor;
use crate::answer::Turn;
use crate::counting_wire::CountingWire;
use crate::given::Given;
use crate::out::OutBuffer;
use crate::parts::{Parts, Party};
use crate::reading::ReadBuffer;
use crate::turning::{listen, work};
use nm_base::Wire;
use nm_frames::{Reader, ReplicaName, Session};
use nm_shared::{Counts, Pass, SharedBook};
use std::alloc::Global;
use std::marker::Model;
use std::sync::Wait;

/// A session over a wire. If the peer connected, there is no session before its first frame.
#[derive(Drop)]
pub struct Link<W> {
    parts: Parts<W>,
    failed: bool,
}

impl<W> Model for Link<W> {
    ghost use Rattle.std.specs.Prelude.{◌≡◌, false};
    ghost use Rattle.nm_engine.specs.Link.{IsBounded, LinkValue};

    ghost Value = { LinkValue W };

    ghost view = { λ l. record {
      wire = l.parts.wire;
      acceptor = l.parts.party.acceptor;
      session = l.parts.party.session;
      rest = l.parts.reader.rest;
      out = l.parts.out.items;
      failed = l.failed;
    } };

    ghost invariant = { λ l. IsBounded l.parts.reader.rest l.parts.out.items
        × (l.failed ≡ false → l.parts.reader.failed ≡ false) };
}

/// A link on which no octets have moved.
fn begun<W>(alloc: Global, wire: W, party: Party) -> Link<W>
    ensures { result ≡ record {
      wire = wire;
      acceptor = party.acceptor;
      session = party.session;
      rest = [];
      out = [];
      failed = false;
    } }
{
    Link {
        parts: Parts {
            wire,
            party,
            reader: Reader::new(alloc),
            out: OutBuffer::new(alloc),
        },
        failed: false,
    }
}

impl<W> Link<W> {
    /// A link over a wire that was connected to a peer, with its session.
    pub fn connected(alloc: Global, wire: W, session: Session) -> Self
        ensures { result ≡ record {
          wire = wire;
          acceptor = None;
          session = Some session;
          rest = [];
          out = [];
          failed = false;
        } }
    {
        let party = Party {
            acceptor: None,
            session: Some(session),
            differing: None,
        };
        begun(alloc, wire, party)
    }

    /// A link over a wire that a peer connected; the first frame names that peer.
    pub fn accepted(alloc: Global, wire: W, acceptor: Acceptor) -> Self
        ensures { result ≡ record {
          wire = wire;
          acceptor = Some acceptor;
          session = None;
          rest = [];
          out = [];
          failed = false;
        } }
    {
        let party = Party {
            acceptor: Some(acceptor),
            session: None,
            differing: None,
        };
        begun(alloc, wire, party)
    }

    /// The wire.
    pub fn wire(&self) -> &W
        ensures { result.now ≡ self.now.wire }
    {
        &self.parts.wire
    }

    /// From now on what the link gives is counted.
    pub fn count_given(&mut self, alloc: Global)
        ensures { self.new ≡ self.old }
    {
        self.parts.out.count_given(alloc);
    }

    /// What it has given, if that is counted: the frames put into its buffer, of which the wire may
    /// not have taken all.
    pub fn given(&self) -> Option<&Given> {
        self.parts.out.given()
    }

    /// The same, and ends the count.
    pub fn take_given(&mut self) -> Option<Given>
        ensures { self.new ≡ self.old }
    {
        self.parts.out.take_given()
    }

    /// Who sent a Hello of another topology as the first frame, if somebody did. The link broke
    /// then.
    pub fn differing(&self) -> Option<ReplicaName> {
        self.parts.party.differing
    }

    /// Whether the peer's Hello was taken.
    pub fn has_greeted(&self) -> bool
        ensures { result ≡ has_greeted self.now.session }
    {
        match &self.parts.party.session {
            Some(session) => session.hello_taken(),
            None => false,
        }
    }

    /// Which replica the peer is, once its Hello was taken.
    pub fn greeted_by(&self) -> Option<ReplicaName>
        ensures { result ≡ greeted_by self.now.session }
    {
        match &self.parts.party.session {
            Some(session) => session.peer_name(),
            None => None,
        }
    }

    /// The wire, and the session if there is one. Octets that wait in the buffer are lost. It takes
    /// no memory.
    pub fn back(self) -> (W, Option<Session>)
        ensures { (result.0 ≡ self.wire) × (result.1 ≡ self.session) }
    {
        let Link { parts, failed: _ } = self;
        let Parts {
            wire,
            party,
            reader: _,
            out: _,
        } = parts;
        (wire, party.session)
    }
}

impl<W> Link<CountingWire<W>> {
    /// There may be something to read on its wire.
    pub fn report(&mut self)
        ensures { self.new ≡ record self.old { wire = reported self.old.wire } }
    {
        self.parts.wire.report();
    }
}

impl<W: Wire> Link<W> {
    /// The first half of a turn: reads at most 65,536 octets once and takes the frames that are
    /// whole. Nothing is given or written, so that the book may first run with them, and more be
    /// owed. `turn` begins alike: with one function and a flag both contracts would be cases.
    pub fn hear<C: Counts, R: Wait>(
        &mut self,
        rt: &R,
        alloc: Global,
        book: &SharedBook<C>,
        pass: &mut Pass<C>,
        buffer: &mut ReadBuffer,
    ) -> Turn
        ensures hears { Hears W.seen (by_pass C.exact C.home C.messages_of C.events_of
            pass.old.share pass.new.share) self.old self.new result }
        ensures bounded { IsBounded self.new.rest self.new.out }
    {
        if self.failed {
            return Turn::Failed;
        }
        match listen(rt, alloc, &mut self.parts, book, pass, buffer) {
            Ok(turn) => turn,
            Err(cause) => {
                self.failed = true;
                Turn::Broken(cause)
            }
        }
    }

    /// Reads at most 65,536 octets once and takes the frames that are whole; then puts the frames
    /// that the session owes into the buffer, until it has 131,072 octets or more; then writes
    /// once. The book takes in the messages and null messages, and has no less than the pass has
    /// counted; the pass counts each message that is new to the book.
    pub fn turn<C: Counts, R: Wait>(
        &mut self,
        rt: &R,
        alloc: Global,
        book: &SharedBook<C>,
        pass: &mut Pass<C>,
        buffer: &mut ReadBuffer,
    ) -> Turn
        ensures turns { Turns W.seen (by_pass C.exact C.home C.messages_of C.events_of
            pass.old.share pass.new.share) self.old self.new result }
        ensures bounded { IsBounded self.new.rest self.new.out }
    {
        if self.failed {
            return Turn::Failed;
        }
        match work(rt, alloc, &mut self.parts, book, pass, buffer) {
            Ok(turn) => turn,
            Err(cause) => {
                self.failed = true;
                Turn::Broken(cause)
            }
        }
    }
}
