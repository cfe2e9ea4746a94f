//! One connection between replicas of two partitions that share a channel.

ghost use Rattle.std.specs.Prelude.{◌≡◌, Ok, Err, MatchResult, IfOk, OnErr, is_some, length};
ghost use Rattle.std.specs.Prelude.{nat_lt};
ghost use Rattle.nm_frames.specs.Owed.{HasNext, MayHaveNext, after_giving, given_maybe};
ghost use Rattle.nm_frames.specs.Owed.{hello_of, owed};
ghost use Rattle.nm_frames.specs.Session.{broken, new_session, next_version, peer_name, purpose};
ghost use Rattle.nm_frames.specs.Session.{session_version, taken, taken_first, taken_later};

use crate::channels::channels_between;
use crate::format::DIGEST_OCTETS;
use crate::frame::{Frame, Hello};
use crate::owed::{are_told, next_have, next_message};
use crate::replica_name::ReplicaName;
use crate::session_fault::SessionFault;
use crate::side::{
    ChannelIn, ChannelOut, comes_in, forget_cursors, forget_given, goes_out, mark_given,
    move_cursor, new_incoming, new_outgoing, restart, set_last_null,
};
use crate::taken::Taken;
use crate::version::Version;
use nm_base::PartNo;
use nm_book::Book;
use nm_book::message::ChannelMessage;
use nm_topology::Topology;
use std::alloc::{AllocError, Global};
use std::marker::Model;

/// What was given and taken on a connection. It outlives the connection: after a break it goes on
/// with the next one, from the Hellos.
#[derive(Drop)]
pub struct Session {
    me: PartNo,
    replica: u8,
    peer: PartNo,
    digest: [u8; DIGEST_OCTETS],
    incoming: Vec<ChannelIn>,
    outgoing: Vec<ChannelOut>,
    hello_given: Option<Version>,
    hello_taken: Option<Version>,
    /// The replica in the peer's Hello.
    peer_replica: Option<u8>,
    /// The version of the next Hello, if the peer's does not lower it.
    offered: Version,
    bye_given: bool,
    bye_taken: bool,
}

impl Model for Session {
    ghost use Rattle.nm_frames.specs.Session.{SessionValue};

    ghost Value = { SessionValue };

    ghost view = { λ s. record {
      me = s.me;
      replica = s.replica;
      peer = s.peer;
      digest = s.digest;
      incoming = s.incoming.items;
      outgoing = s.outgoing.items;
      hello_given = s.hello_given;
      hello_taken = s.hello_taken;
      peer_replica = s.peer_replica;
      offered = s.offered;
      bye_given = s.bye_given;
      bye_taken = s.bye_taken;
    } };
}

/// The version of a Hello that is given.
fn next_version(taken: Option<Version>, offered: Version) -> Version
    ensures { result ≡ next_version taken offered }
{
    match taken {
        None => offered,
        Some(version) => version.lesser(offered),
    }
}

impl Session {
    /// A session of a replica of partition `me` with a replica of partition `peer`, before the
    /// Hellos.
    ///
    /// # Errors
    ///
    /// If memory was refused.
    pub fn new(
        alloc: Global,
        topology: &Topology,
        me: PartNo,
        replica: u8,
        peer: PartNo,
    ) -> Result<Self, AllocError>
        ensures { IfOk result (λ s. s ≡ new_session topology.now me replica peer) }
    {
        let incoming = channels_between(alloc, topology, peer, me)?;
        let outgoing = channels_between(alloc, topology, me, peer)?;
        let digest = topology.digest();
        Ok(Session {
            me,
            replica,
            peer,
            digest,
            incoming: new_incoming(alloc, &incoming)?,
            outgoing: new_outgoing(alloc, &outgoing)?,
            hello_given: None,
            hello_taken: None,
            peer_replica: None,
            offered: Version::Two,
            bye_given: false,
            bye_taken: false,
        })
    }

    /// Whether a channel comes from the peer. Then one goes to it too, since a link has both
    /// directions.
    pub fn has_channels(&self) -> bool
        ensures { result ≡ nat_lt 0 (length self.now.incoming) }
    {
        !self.incoming.is_empty()
    }

    /// Whether the peer's Hello was taken since the session was made or last broken.
    pub fn hello_taken(&self) -> bool
        ensures { result ≡ is_some self.now.hello_taken }
    {
        self.hello_taken.is_some()
    }

    /// Which replica the peer is, once its Hello was taken.
    pub fn peer_name(&self) -> Option<ReplicaName>
        ensures { result ≡ peer_name self.now }
    {
        match self.peer_replica {
            Some(replica) => Some(ReplicaName {
                partition: self.peer,
                replica,
            }),
            None => None,
        }
    }

    /// Whether the peer has sent Bye.
    pub fn bye_taken(&self) -> bool
        ensures { result ≡ self.now.bye_taken }
    {
        self.bye_taken
    }

    /// Whether nothing more is given.
    pub fn bye_given(&self) -> bool
        ensures { result ≡ self.now.bye_given }
    {
        self.bye_given
    }

    /// The version of the session: the lesser of both Hellos'.
    fn version(&self) -> Version
        ensures { result ≡ session_version self.now.hello_given self.now.hello_taken }
    {
        match self.hello_given {
            None => next_version(self.hello_taken, Version::Two),
            Some(given) => next_version(self.hello_taken, given),
        }
    }

    /// Its Hello.
    fn hello(&self) -> Frame
        ensures { result ≡ hello_of self.now }
    {
        let digest = self.digest;
        Frame::Hello(Hello {
            version: next_version(self.hello_taken, self.offered).number(),
            partition: self.me,
            replica: self.replica,
            digest,
        })
    }

    /// What is owed.
    fn owed(&self, book: &Book) -> Result<Option<Frame>, AllocError>
        ensures owed { IfOk result (λ f. f ≡ owed self.now book.now) }
        ensures next { IfOk result MayHaveNext }
    {
        if self.bye_given {
            return Ok(None);
        }
        if self.hello_given.is_none() {
            return Ok(Some(self.hello()));
        }
        if let Some(frame) = next_have(&self.incoming, book) {
            return Ok(Some(frame));
        }
        match next_message(&self.outgoing, self.version(), book) {
            Err(error) => return Err(error),
            Ok(Some(frame)) => return Ok(Some(frame)),
            Ok(None) => {}
        }
        if book.done() && are_told(&self.outgoing, self.version(), book) {
            return Ok(Some(Frame::Bye));
        }
        Ok(None)
    }

    /// A frame counts as given.
    fn give(&mut self, frame: &Frame)
        requires { HasNext frame.now }
        ensures { self.new ≡ after_giving self.old frame.now }
    {
        match frame {
            Frame::Hello(_) => {
                self.hello_given = Some(next_version(self.hello_taken, self.offered));
                self.offered = Version::Two;
            }
            Frame::Have(have) => mark_given(&mut self.incoming, have.channel),
            Frame::Data(message) => {
                move_cursor(&mut self.outgoing, message.channel, message.number + 1)
            }
            Frame::Null(null) => set_last_null(&mut self.outgoing, null),
            Frame::Bye => self.bye_given = true,
        }
    }

    /// The frame that is owed next, if there is one. It counts as given. A packet's octets are
    /// those of the book.
    ///
    /// # Errors
    ///
    /// If memory for a message was refused. The session is unchanged then.
    pub fn next_out(&mut self, book: &Book) -> Result<Option<Frame>, AllocError>
        ensures owed { IfOk result (λ f. f ≡ owed self.old book.now) }
        ensures given { IfOk result (λ f. self.new ≡ given_maybe self.old f) }
        ensures err { OnErr result (self.new ≡ self.old) }
    {
        let owed = self.owed(book)?;
        if let Some(frame) = &owed {
            self.give(frame);
        }
        Ok(owed)
    }

    /// Takes the peer's next frame. It takes no memory.
    ///
    /// # Errors
    ///
    /// `Order` if the first frame is no Hello, at a second Hello and after Bye. Of a Hello the
    /// first of `Version`, `Topology` and `Peer`. `Channel` if a channel does not run in that
    /// direction. The session is unchanged then.
    pub fn take(&mut self, frame: Frame) -> Result<Taken, SessionFault>
        ensures taken { MatchResult result (λ t. taken self.old frame ≡ Ok self.new)
            (λ e. taken self.old frame ≡ Err e) }
        ensures purpose { IfOk result (λ t. t ≡ purpose frame) }
        ensures err { OnErr result (self.new ≡ self.old) }
    {
        if self.bye_taken {
            return Err(SessionFault::Order);
        }
        if self.hello_taken.is_none() {
            return self.take_first(frame);
        }
        self.take_later(frame)
    }

    /// Takes the first frame, which has to be a Hello.
    fn take_first(&mut self, frame: Frame) -> Result<Taken, SessionFault>
        ensures taken { MatchResult result (λ t. taken_first self.old frame ≡ Ok self.new)
            (λ e. taken_first self.old frame ≡ Err e) }
        ensures purpose { IfOk result (λ t. t ≡ purpose frame) }
        ensures err { OnErr result (self.new ≡ self.old) }
    {
        let Frame::Hello(hello) = frame else {
            return Err(SessionFault::Order);
        };
        let Some(version) = Version::of(hello.version) else {
            return Err(SessionFault::Version);
        };
        if hello.digest != self.digest {
            return Err(SessionFault::Topology);
        }
        if hello.partition != self.peer || hello.replica > 1 {
            return Err(SessionFault::Peer);
        }
        self.hello_taken = Some(version);
        self.peer_replica = Some(hello.replica);
        Ok(Taken::Greeted)
    }

    /// Takes a frame after Hello.
    fn take_later(&mut self, frame: Frame) -> Result<Taken, SessionFault>
        ensures taken { MatchResult result (λ t. taken_later self.old frame ≡ Ok self.new)
            (λ e. taken_later self.old frame ≡ Err e) }
        ensures purpose { IfOk result (λ t. t ≡ purpose frame) }
        ensures err { OnErr result (self.new ≡ self.old) }
    {
        match frame {
            Frame::Hello(_) => Err(SessionFault::Order),
            Frame::Have(have) => {
                if !goes_out(&self.outgoing, have.channel) {
                    return Err(SessionFault::Channel);
                }
                restart(&mut self.outgoing, have.channel, have.count);
                Ok(Taken::Cursor)
            }
            Frame::Data(message) => {
                if !comes_in(&self.incoming, message.channel) {
                    return Err(SessionFault::Channel);
                }
                Ok(Taken::ForBook(ChannelMessage::Data(message)))
            }
            Frame::Null(null) => {
                if !comes_in(&self.incoming, null.channel) {
                    return Err(SessionFault::Channel);
                }
                Ok(Taken::ForBook(ChannelMessage::Null(null)))
            }
            Frame::Bye => {
                self.bye_taken = true;
                Ok(Taken::Ended)
            }
        }
    }

    /// The connection broke: back to the Hellos. It takes no memory.
    pub fn broken(&mut self)
        ensures { self.new ≡ broken self.old }
    {
        if self.hello_taken.is_none() {
            if let Some(version) = self.hello_given {
                self.offered = version.other();
            }
        }
        forget_given(&mut self.incoming);
        forget_cursors(&mut self.outgoing);
        self.hello_given = None;
        self.hello_taken = None;
        self.peer_replica = None;
        self.bye_given = false;
        self.bye_taken = false;
    }
}
