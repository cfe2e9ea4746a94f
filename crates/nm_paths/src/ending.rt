//! What ends a way, in words.

use crate::places::{Return, first_return, last_node, nodes_of};
use crate::turn::WalkEnd;
use crate::ways::Way;
use nm_base::NodeNo;
use nm_packet::Address;
use nm_topology::Topology;
use std::alloc::{AllocError, Global};

/// The destination of a way.
#[derive(Clone, Copy)]
pub struct Aim {
    /// The node at which it begins.
    pub from: NodeNo,
    pub to: Address,
    /// The time to live of its packets at their first node, 1 to 255.
    pub time_to_live: u8,
}

/// The node to which a packet comes again and again, if the time to live of its way is over there.
pub fn loop_of(
    alloc: Global,
    topology: &Topology,
    from: NodeNo,
    way: &Way,
) -> Result<Option<Return>, AllocError> {
    if way.ending != WalkEnd::Expired {
        return Ok(None);
    }
    let nodes = nodes_of(alloc, topology, from, way)?;
    Ok(first_return(&nodes))
}

/// That a packet comes to a node again.
fn loop_text(
    alloc: Global,
    topology: &Topology,
    from: NodeNo,
    way: &Way,
    found: Return,
) -> Result<String, AllocError> {
    let nodes = nodes_of(alloc, topology, from, way)?;
    let node = nodes.get(found.again).copied().unwrap_or(from);
    let name = topology.node_name(node);
    let Return { before, again } = found;
    format!(in alloc; "routing loop, \"{name}\" is hop {before} and again hop {again}")
}

/// What ends a way, as the end of a sentence.
pub fn ending_text(
    alloc: Global,
    topology: &Topology,
    aim: &Aim,
    way: &Way,
) -> Result<String, AllocError> {
    if let Some(found) = loop_of(alloc, topology, aim.from, way)? {
        return loop_text(alloc, topology, aim.from, way, found);
    }
    let name = topology.node_name(last_node(topology, aim.from, way));
    let (to, time_to_live) = (aim.to, aim.time_to_live);
    match way.ending {
        WalkEnd::Arrived => format!(in alloc; "\"{name}\" has {to}"),
        WalkEnd::Host => format!(in alloc; "\"{name}\" is a host and does not forward"),
        WalkEnd::NoRoute => format!(in alloc; "\"{name}\" has no route to {to}"),
        WalkEnd::Expired => format!(in alloc; "time to live {time_to_live} is over at \"{name}\""),
    }
}
