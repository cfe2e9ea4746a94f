//! The peers of a replica.

ghost use Rattle.std.specs.Prelude.{◌≡◌, IfOk};
ghost use Rattle.nm_peers.specs.Peers.{ArePeers, is_near, own_address};

use crate::listener::Listener;
use nm_base::PartNo;
use nm_frames::ReplicaName;
use nm_frames::channels::channels_between;
use nm_topology::Topology;
use std::alloc::{AllocError, Global};
use std::net::SocketAddr;

/// The peers of a replica: the replicas of the partitions with which its own shares a channel.
#[derive(Drop)]
pub struct Peers {
    /// The partition of each peer that it calls, and the address at which that listens.
    pub partitions: Vec<PartNo>,
    pub addresses: Vec<SocketAddr>,
    /// The peers that call it.
    pub callers: Vec<ReplicaName>,
}

/// Whether a channel goes from one partition to another.
fn is_near(alloc: Global, topology: &Topology, from: PartNo, to: PartNo) -> Result<bool, AllocError>
    ensures { IfOk result (λ near. near ≡ is_near topology.now from to) }
{
    let channels = channels_between(alloc, topology, from, to)?;
    Ok(!channels.is_empty())
}

/// The peers among these listeners. If two partitions share a channel, the replicas of the one with
/// the lesser number call those of the other.
///
/// # Errors
///
/// If memory was refused.
pub fn peers_of(
    alloc: Global,
    topology: &Topology,
    partition: PartNo,
    listeners: &[Listener],
) -> Result<Peers, AllocError>
    ensures { IfOk result (ArePeers topology.now partition listeners.now) }
{
    let mut partitions = Vec::new(alloc);
    let mut addresses = Vec::new(alloc);
    let mut callers = Vec::new(alloc);
    for listener in listeners {
        let peer = listener.partition;
        if !is_near(alloc, topology, partition, peer)? {
            continue;
        }
        if peer.number() > partition.number() {
            partitions.push(peer)?;
            addresses.push(SocketAddr::V4(listener.address))?;
        } else if peer.number() < partition.number() {
            callers.push(ReplicaName {
                partition: peer,
                replica: listener.replica,
            })?;
        }
    }
    Ok(Peers {
        partitions,
        addresses,
        callers,
    })
}

/// The address at which a replica itself listens, if it is one of these.
pub fn own_address(listeners: &[Listener], partition: PartNo, replica: u8) -> Option<SocketAddr>
    ensures { result ≡ own_address listeners.now partition replica }
{
    let own = listeners.iter().find(|listener| listener.partition == partition
        && listener.replica == replica)?;
    Some(SocketAddr::V4(own.address))
}
