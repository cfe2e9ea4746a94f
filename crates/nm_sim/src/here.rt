//! What is here: all of a network, or the nodes of one partition with their interfaces and sources.

ghost use Rattle.std.specs.Prelude.{◌≡◌, ◌<◌, length};
ghost use Rattle.nm_sim.specs.Network.{is_iface_here as iface_here, is_node_here as node_here};
ghost use Rattle.nm_sim.specs.Network.{is_source_here as source_here, net_of};

use nm_base::{IfaceNo, NodeNo, PartNo, SourceNo};
use nm_topology::Topology;
use nm_topology::topology::accepted_topologies_are_in_order;

/// The node of a source.
pub(crate) fn node_of_source(topology: &Topology, source: SourceNo) -> NodeNo
    requires { source < length topology.now.sources }
    ensures there { result < length topology.now.nodes }
    ensures node { (net_of topology.now).source_node source ≡ result }
{
    accepted_topologies_are_in_order(topology); // law: a source's node is there
    topology.sources()[source.index()].node
}

/// Whether a node is here.
pub(crate) fn is_node_here(topology: &Topology, part: &Option<PartNo>, node: NodeNo) -> bool
    requires { node < length topology.now.nodes }
    ensures { result ≡ node_here topology.now part.now node }
{
    match part {
        None => true,
        Some(part) => topology.node(node).partition() == *part,
    }
}

/// Whether the node of an interface is here.
pub(crate) fn is_iface_here(topology: &Topology, part: &Option<PartNo>, iface: IfaceNo) -> bool
    requires { iface < length topology.now.ifaces }
    ensures { result ≡ iface_here topology.now part.now iface }
{
    accepted_topologies_are_in_order(topology); // law: an interface's node is there
    is_node_here(topology, part, topology.iface(iface).node())
}

/// Whether the node of a source is here.
pub(crate) fn is_source_here(topology: &Topology, part: &Option<PartNo>, source: SourceNo) -> bool
    requires { source < length topology.now.sources }
    ensures { result ≡ source_here topology.now part.now source }
{
    is_node_here(topology, part, node_of_source(topology, source))
}
