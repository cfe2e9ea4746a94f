//! The parts of a link.

use crate::acceptor::Acceptor;
use crate::out::OutBuffer;
use nm_frames::{Reader, ReplicaName, Session};

/// This end of a link: a session, or before it, if the peer connected, the acceptor that awaits
/// one.
#[derive(Drop)]
pub(crate) struct Party {
    pub(crate) acceptor: Option<Acceptor>,
    pub(crate) session: Option<Session>,
    /// Who sent a first frame that is a Hello of another topology, if somebody did.
    pub(crate) differing: Option<ReplicaName>,
}

/// What a turn works on.
#[derive(Drop)]
pub(crate) struct Parts<W> {
    pub(crate) wire: W,
    pub(crate) party: Party,
    pub(crate) reader: Reader,
    /// The octets that the wire has not taken.
    pub(crate) out: OutBuffer,
}
