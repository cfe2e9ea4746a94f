//! The network that a topology describes.

ghost use Rattle.std.specs.Prelude.{◌≡◌, ℕ, ◌<◌, ◌≤◌, true, false, List, length};
ghost use Rattle.nm_model.specs.Network.{IsNet, IsParted};
ghost use Rattle.nm_model.specs.Partition.{comes_in, receiver_of};
ghost use Rattle.nm_topology.specs.Topology.{receiving_iface};
ghost use Rattle.nm_topology.specs.TopologyValue.{TopologyValue};
ghost use Rattle.nm_sim.specs.Network.{net_of};

use nm_forward::laws::a_node_sends_by_its_own_interfaces;
use nm_topology::Topology;
use nm_topology::topology::{
    accepted_topologies_are_in_order, channels_are_numbered_by_their_receivers,
};
use nm_traffic::laws::source_times_rise;

/// An accepted topology describes a network for which the laws of `nm_model` hold.
pub fn every_topology_is_a_network(topology: &Topology)
    ensures network { IsNet (net_of topology.now) }
    ensures parted { IsParted (net_of topology.now) }
{
    accepted_topologies_are_in_order(topology); // law: links, limits
    a_node_sends_by_its_own_interfaces(topology); // law: reactions
    source_times_rise(topology); // law: sources
}

/// The channels of a topology are those of its network: what comes into a partition is a channel
/// with a number, and is delayed by at least 1 ns; each channel comes into the partition of its
/// receiving interface; and a number past the last channel is that of none.
pub fn channels_are_those_of_the_network(topology: &Topology)
    ensures numbered { (p i : ℕ) → comes_in (net_of topology.now) p i ≡ true
        → (c : ℕ) × (c < length topology.now.receivers) × (receiving_iface topology.now c ≡ i)
        × (1 ≤ (net_of topology.now).delay i) }
    ensures comes { (c : ℕ) → c < length topology.now.receivers
        → comes_in (net_of topology.now)
        (receiver_of (net_of topology.now) (receiving_iface topology.now c))
        (receiving_iface topology.now c)
        ≡ true }
    ensures none { (p c : ℕ) → length topology.now.receivers ≤ c
        → comes_in (net_of topology.now) p (receiving_iface topology.now c) ≡ false }
{
    every_topology_is_a_network(topology); // law: links have two ends
    accepted_topologies_are_in_order(topology); // law: receivers
    channels_are_numbered_by_their_receivers(topology); // law: numbers past the last channel
}

/// The network does not depend on the digest, which is no part of the text.
pub fn the_digest_is_no_part_of_the_network()
    ensures { (t : TopologyValue) (digest : List ℕ)
        → net_of (record t { digest = digest }) ≡ net_of t }
{}
