//! The nodes and interfaces of a way, and their names.

use crate::ways::{Way, linked_to, node_behind};
use nm_base::{IfaceNo, NodeNo};
use nm_topology::Topology;
use nm_topology::parts::Iface;
use std::alloc::{AllocError, Global};

/// Whether something listens at this UDP port of a node.
pub fn listens(topology: &Topology, node: NodeNo, port: u16) -> bool {
    match topology.nodes().get(node.index()) {
        Some(node) => node.ports().contains(&port),
        None => false,
    }
}

/// The interface at which a packet arrives that left by this one.
pub fn arrival(topology: &Topology, via: IfaceNo) -> Option<&Iface> {
    let ifaces = topology.ifaces();
    ifaces.get(linked_to(ifaces, via).index())
}

/// The nodes of a way: the one at which it begins, and the one behind each hop.
pub fn nodes_of(
    alloc: Global,
    topology: &Topology,
    from: NodeNo,
    way: &Way,
) -> Result<Vec<NodeNo>, AllocError> {
    let mut nodes = Vec::new(alloc);
    nodes.push(from)?;
    for via in &way.hops {
        nodes.push(node_behind(topology.ifaces(), *via))?;
    }
    Ok(nodes)
}

/// The node at which a way ends.
pub fn last_node(topology: &Topology, from: NodeNo, way: &Way) -> NodeNo {
    match way.hops.last() {
        Some(via) => node_behind(topology.ifaces(), *via),
        None => from,
    }
}

/// That a packet comes to a node again. Hops are counted from 1, and 0 is where the way begins.
#[derive(Clone, Copy)]
pub struct Return {
    /// The hop by which it came there first.
    pub before: usize,
    /// The hop by which it comes there again.
    pub again: usize,
}

/// The first node of these to which a packet comes again.
pub fn first_return(nodes: &[NodeNo]) -> Option<Return> {
    for (again, node) in nodes.iter().enumerate() {
        let mut earlier = nodes.iter().take(again);
        if let Some(before) = earlier.position(|other| *other == *node) {
            return Some(Return { before, again });
        }
    }
    None
}
