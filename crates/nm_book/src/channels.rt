//! The channels of a topology: which partitions they join.

ghost use Rattle.std.specs.Prelude.{◌≡◌, ◌<◌, true, length};
ghost use Rattle.nm_model.specs.Partition.{comes_in, goes_out, receiver_of, sender_of};
ghost use Rattle.nm_sim.specs.Network.{net_of};
ghost use Rattle.nm_topology.specs.Topology.{receiving_iface};

use nm_base::{ChanNo, IfaceNo, PartNo};
use nm_sim::network::{channels_are_those_of_the_network, every_topology_is_a_network};
use nm_topology::Topology;
use nm_topology::topology::{
    accepted_topologies_are_in_order, channels_are_numbered_by_their_receivers,
};

/// The partition of an interface's node.
pub fn partition_of(topology: &Topology, iface: IfaceNo) -> PartNo
    requires { iface < length topology.now.ifaces }
    ensures { result ≡ (net_of topology.now).part ((net_of topology.now).owner iface) }
{
    accepted_topologies_are_in_order(topology); // law: an interface's node is there
    topology.node(topology.iface(iface).node()).partition()
}

/// Whether a channel comes into a partition.
pub fn comes_in(topology: &Topology, partition: PartNo, channel: ChanNo) -> bool
    ensures value { result ≡ comes_in (net_of topology.now) partition
        (receiving_iface topology.now channel) }
    ensures there { result ≡ true → channel < length topology.now.receivers }
{
    channels_are_those_of_the_network(topology); // law: a channel comes in at its receiver
    channels_are_numbered_by_their_receivers(topology); // law: its interface is there
    if channel.index() >= topology.receivers().len() {
        return false;
    }
    partition_of(topology, topology.receiver(channel)) == partition
}

/// Whether a channel goes out of a partition.
pub fn goes_out(topology: &Topology, partition: PartNo, channel: ChanNo) -> bool
    ensures value { result ≡ goes_out (net_of topology.now) partition
        (receiving_iface topology.now channel) }
    ensures there { result ≡ true → channel < length topology.now.receivers }
{
    every_topology_is_a_network(topology); // law: a link has two ends
    channels_are_those_of_the_network(topology); // law: a channel comes in at its receiver
    channels_are_numbered_by_their_receivers(topology); // law: its interface is there
    if channel.index() >= topology.receivers().len() {
        return false;
    }
    let receiver = topology.iface(topology.receiver(channel));
    partition_of(topology, receiver.far().iface) == partition
}

/// The partition that sends on a channel.
pub fn sender_of(topology: &Topology, channel: ChanNo) -> PartNo
    requires { channel < length topology.now.receivers }
    ensures { result ≡ sender_of (net_of topology.now) (receiving_iface topology.now channel) }
{
    every_topology_is_a_network(topology); // law: a link has two ends
    channels_are_numbered_by_their_receivers(topology); // law: its interface is there
    let receiver = topology.iface(topology.receiver(channel));
    partition_of(topology, receiver.far().iface)
}

/// The partition into which a channel comes.
pub fn receiver_of(topology: &Topology, channel: ChanNo) -> PartNo
    requires { channel < length topology.now.receivers }
    ensures { result ≡ receiver_of (net_of topology.now) (receiving_iface topology.now channel) }
{
    channels_are_numbered_by_their_receivers(topology); // law: its interface is there
    partition_of(topology, topology.receiver(channel))
}
