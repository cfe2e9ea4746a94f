//! Where a replica listens.

use nm_base::PartNo;
use std::net::SocketAddrV4;

/// Where a replica of a partition listens for its peers.
#[derive(Clone, Copy, PartialEq, Eq)]
pub struct Listener {
    pub partition: PartNo,
    /// The number of the replica in its partition: 0 or 1.
    pub replica: u8,
    pub address: SocketAddrV4,
}
