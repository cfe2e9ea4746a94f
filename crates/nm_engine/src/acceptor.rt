//! Links that peers connect: the first frame names the peer of the session.

ghost use Rattle.std.specs.Prelude.{◌≡◌};
ghost use Rattle.std.specs.Arc.{arc_value};
ghost use Rattle.nm_engine.specs.Acceptor.{differing_of};
ghost use Rattle.nm_engine.specs.Taking.{Greets};

use crate::answer::Cause;
use nm_base::PartNo;
use nm_frames::{Frame, ReplicaName, Session};
use nm_topology::Topology;
use std::alloc::Global;
use std::marker::Model;
use std::sync::Arc;

/// A replica to which peers connect. Their first frames name them.
#[derive(Drop)]
pub struct Acceptor {
    topology: Arc<Topology>,
    me: PartNo,
    replica: u8,
}

impl Model for Acceptor {
    ghost use Rattle.std.specs.Arc.{arc_value};
    ghost use Rattle.nm_engine.specs.Acceptor.{AcceptorValue};

    ghost Value = { AcceptorValue };

    ghost view = { λ h. record {
      topology = arc_value h.topology;
      me = h.me;
      replica = h.replica;
    } };
}

impl Acceptor {
    /// Replica `replica` of partition `me`.
    pub fn new(topology: Arc<Topology>, me: PartNo, replica: u8) -> Self
        ensures { result ≡ record {
          topology = arc_value topology;
          me = me;
          replica = replica;
        } }
    {
        Acceptor {
            topology,
            me,
            replica,
        }
    }

    /// Who sent this first frame, if it is a Hello of another topology.
    pub(crate) fn differing(&self, frame: &Frame) -> Option<ReplicaName>
        ensures { result ≡ differing_of self.now frame.now }
    {
        match frame {
            Frame::Hello(hello) if hello.digest != self.topology.digest() => Some(ReplicaName {
                partition: hello.partition,
                replica: hello.replica,
            }),
            _ => None,
        }
    }

    /// The session that a peer's first frame makes: a Hello of a partition below this one from
    /// which a channel comes.
    ///
    /// # Errors
    ///
    /// `Session` if the frame is no such Hello, or the session refuses it; `Memory` if memory was
    /// refused.
    pub(crate) fn greet(&self, alloc: Global, frame: Frame) -> Result<Session, Cause>
        ensures { Greets self.now frame result }
    {
        let Frame::Hello(hello) = frame else {
            return Err(Cause::Session);
        };
        let peer = hello.partition;
        if peer.number() >= self.me.number() {
            return Err(Cause::Session);
        }
        let Ok(mut session) = Session::new(alloc, &self.topology, self.me, self.replica, peer)
        else {
            return Err(Cause::Memory);
        };
        if !session.has_channels() {
            return Err(Cause::Session);
        }
        match session.take(Frame::Hello(hello)) {
            Ok(_) => Ok(session),
            Err(_) => Err(Cause::Session),
        }
    }
}
