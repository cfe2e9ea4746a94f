//! The places of the replicas of a world.

ghost use Rattle.std.specs.Prelude.{◌≡◌, ◌+◌, ◌*◌, ◌<◌, ◌&&◌, true, is_some, length};
ghost use Rattle.nm_book.specs.Book.{is_replica, only_if};
ghost use Rattle.nm_model.specs.Partition.{goes_out};
ghost use Rattle.nm_sim.specs.Network.{net_of};
ghost use Rattle.nm_topology.specs.Topology.{receiving_iface};

use nm_base::limits::MAX_REPLICAS;
use nm_base::{ChanNo, PartNo};
use nm_book::channels::goes_out;
use nm_topology::Topology;

/// A channel that goes out of a replica, or is said to.
#[derive(Clone, Copy)]
pub(crate) struct Outlet {
    pub partition: PartNo,
    pub replica: u8,
    pub channel: ChanNo,
}

impl Outlet {
    pub(crate) fn of(partition: PartNo, replica: u8, channel: ChanNo) -> Self
        ensures { result ≡ record {
          partition = partition;
          replica = replica;
          channel = channel;
        } }
    {
        Outlet {
            partition,
            replica,
            channel,
        }
    }
}

/// The place of a replica of a partition among all: replica r of partition p is the one of number
/// 2p + r. `None` if there is no such replica.
pub(crate) fn place_of(topology: &Topology, partition: PartNo, replica: u8) -> Option<usize>
    ensures { result
        ≡ only_if (is_replica topology.now partition replica) (2 * partition + replica) }
{
    if partition.number() >= topology.partitions() || replica >= MAX_REPLICAS {
        return None;
    }
    Some(2 * partition.index() + replica as usize)
}

/// The place of a replica that sends on a channel. `None` if there is no such replica, or the
/// channel does not go out of its partition.
pub(crate) fn sending_place(
    topology: &Topology,
    partition: PartNo,
    replica: u8,
    channel: ChanNo,
) -> Option<usize>
    ensures value { result ≡ only_if (is_replica topology.now partition replica
        && goes_out (net_of topology.now) partition (receiving_iface topology.now channel))
        (2 * partition + replica) }
    ensures there { is_some result ≡ true → channel < length topology.now.receivers }
{
    if !goes_out(topology, partition, channel) {
        return None;
    }
    place_of(topology, partition, replica)
}
