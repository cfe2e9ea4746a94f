//! The sessions with the peers that a replica calls, while no connection has them.

ghost use Rattle.std.specs.Arc.{arc_value};
ghost use Rattle.std.specs.Prelude.{◌≡◌, IfOk, None, Some, slice_index_or, slice_set};
ghost use Rattle.nm_frames.specs.Session.{broken};
ghost use Rattle.nm_replica.specs.Sessions.{IsAtGreeting, first_sessions};

use crate::neighbours::Neighbours;
use nm_base::PartNo;
use nm_frames::Session;
use nm_topology::Topology;
use std::alloc::{AllocError, Global};
use std::marker::Model;

/// The sessions with all peers, by their numbers: each at its greeting, or `None` while a
/// connection has it.
#[derive(Drop)]
pub(crate) struct Sessions {
    all: Vec<Option<Session>>,
}

impl Model for Sessions {
    ghost use Rattle.std.specs.Prelude.{List, Option};
    ghost use Rattle.nm_frames.specs.Session.{SessionValue};

    ghost Value = { List (Option SessionValue) };

    ghost view = { λ s. s.all.items };
}

/// The session after its connection broke: at its greeting again.
fn at_greeting(session: Session) -> Session
    ensures value { result ≡ broken session }
    ensures greeting { IsAtGreeting result }
{
    let mut session = session;
    session.broken();
    session
}

impl Sessions {
    /// A session for each peer that a replica calls.
    pub(crate) fn new(alloc: Global, neighbours: &Neighbours<'_>) -> Result<Self, AllocError>
        ensures { IfOk result (λ s. s ≡ first_sessions (arc_value neighbours.now.topology.now)
            neighbours.now.partition neighbours.now.replica neighbours.now.peers.now) }
    {
        let mut all = Vec::with_capacity(alloc, neighbours.peers.len())?;
        for peer in neighbours.peers {
            let session = Session::new(
                alloc,
                neighbours.topology,
                neighbours.partition,
                neighbours.replica,
                *peer,
            )?;
            all.push(Some(session))?;
        }
        Ok(Sessions { all })
    }

    /// The session for a new connection to the peer with this number, if no connection has it.
    pub(crate) fn give(&mut self, peer: usize) -> Option<Session>
        ensures session { result ≡ slice_index_or self.old peer None }
        ensures given { self.new ≡ slice_set self.old peer None }
    {
        self.all.get_mut(peer)?.take()
    }

    /// The session of the peer with this number, whose connection is gone, comes back.
    pub(crate) fn take_back(&mut self, peer: usize, session: Session)
        ensures { self.new ≡ slice_set self.old peer (Some (broken session)) }
    {
        let session = at_greeting(session);
        if let Some(next) = self.all.get_mut(peer) {
            *next = Some(session);
        }
    }
}
