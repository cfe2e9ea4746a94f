//! The way from a node to an address, a line a hop, as traceroute prints it.

ghost use Rattle.std.specs.Prelude.{◌≡◌, ◌∷◌, ◌++◌, ℕ, IfOk, List, []};

use crate::ending::{Aim, ending_text, loop_of};
use crate::places::arrival;
use crate::tables::Tables;
use crate::ways::{Way, walk};
use nm_base::{IfaceNo, NodeNo};
use nm_packet::Address;
use nm_topology::Topology;
use std::alloc::{AllocError, Global};

/// The time to live of what a node originates, unless a source has another.
pub const DEFAULT_TIME_TO_LIVE: u8 = 64;

/// Appends the line of a hop, counted from 1: its number, the node to which it leads, and the
/// interface there with its address.
fn push_hop(
    text: &mut String,
    topology: &Topology,
    number: usize,
    via: IfaceNo,
) -> Result<(), AllocError> {
    let Some(iface) = arrival(topology, via) else {
        return Ok(());
    };
    let node = topology.node_name(iface.node());
    let name = iface.name();
    let address = iface.address();
    writeln!(text, "{number} {node} {name} {address}")
}

/// Appends the lines of hops, up to the first node that comes again.
fn push_hops(
    alloc: Global,
    text: &mut String,
    topology: &Topology,
    from: NodeNo,
    way: &Way,
) -> Result<(), AllocError> {
    let last = match loop_of(alloc, topology, from, way)? {
        Some(found) => found.again,
        None => way.hops.len(),
    };
    for (before, via) in way.hops.iter().take(last).enumerate() {
        push_hop(text, topology, before.saturating_add(1), *via)?;
    }
    Ok(())
}

/// The way of a packet that a node originates to an address: a line for each hop, and one with its
/// end.
pub fn path_text(
    alloc: Global,
    topology: &Topology,
    from: NodeNo,
    to: Address,
) -> Result<Vec<u8>, AllocError>
    ensures { IfOk result (λ text. (front : List ℕ) × (text.items ≡ front ++ 10 ∷ [])) }
{
    let tables = Tables::new(alloc, topology)?;
    let aim = Aim {
        from,
        to,
        time_to_live: DEFAULT_TIME_TO_LIVE,
    };
    let way = walk(alloc, topology, &tables, from, to, DEFAULT_TIME_TO_LIVE)?;
    let mut text = String::new(alloc);
    push_hops(alloc, &mut text, topology, from, &way)?;
    let ending = ending_text(alloc, topology, &aim, &way)?;
    writeln!(text, "{ending}")?;
    Ok(text.into_bytes())
}
