//! A replica and its peers.

use nm_base::PartNo;
use nm_frames::ReplicaName;
use nm_topology::Topology;
use std::sync::Arc;

/// A replica and its peers, as its connections need them.
#[derive(Clone, Copy)]
pub(crate) struct Neighbours<'a> {
    pub topology: &'a Arc<Topology>,
    pub partition: PartNo,
    /// 0 or 1.
    pub replica: u8,
    /// The partitions of the peers that it calls.
    pub peers: &'a [PartNo],
    /// The peers that call it.
    pub callers: &'a [ReplicaName],
    /// What links give is counted, for figures.
    pub are_counted: bool,
}
