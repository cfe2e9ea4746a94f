//! What happens on a replica's connections.

use nm_frames::ReplicaName;

/// What happens on a replica's connections, or in its transport. A connection is known by its key
/// from `Called` or `Accepted` to `Ended` or `Broke`; a peer by its number.
#[derive(Clone, Copy)]
pub enum ContactEvent {
    /// A poll was made; `ran_out`: a period was over then.
    Polled { ran_out: bool },
    /// A connection to this peer was begun.
    Called { key: usize, peer: usize },
    /// No connection to this peer could be begun.
    NotCalled { peer: usize },
    /// A connection that somebody began was accepted.
    Accepted { key: usize },
    /// Octets were received on this connection.
    Heard { key: usize },
    /// The replica with this name sent Hello on this connection.
    Greeted { key: usize, name: ReplicaName },
    /// The link over this connection has ended: both ends sent Bye.
    Ended { key: usize },
    /// This connection is closed in any other way; `was_there`: somebody was at its other end.
    Broke { key: usize, was_there: bool },
}
