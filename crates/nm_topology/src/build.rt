//! The nodes and interfaces of a topology, put together.

ghost use Rattle.std.specs.Prelude.{◌≡◌, ◌≤◌, ◌<◌, map, length, All, IfOk};
ghost use Rattle.nm_base.specs.declared.limits.TheConstants.{MAX_CHANNELS, MAX_IFACES};
ghost use Rattle.nm_topology.specs.Build.{far_ends, placed_ifaces, placed_nodes, receivers_of};
ghost use Rattle.nm_topology.specs.Build.{routes_of_nodes};
ghost use Rattle.nm_topology.specs.Fault.{Gives};
ghost use Rattle.nm_topology.specs.Validate.{tested};

use crate::build::partitions::partitions_of_nodes;
use crate::fault::TopoFault;
use crate::parse::tables::{IfaceTable, NodeTable};
use crate::parts::{Far, Iface, Node, NodeRoutes};
use crate::resolve::Resolved;
use crate::validate::validate;
use nm_base::{IfaceNo, NodeNo, PartNo};
use std::alloc::{AllocError, Global};

pub mod partitions;
pub mod wiring;

/// The wiring: the routes of each node, the far end of each interface, and the interfaces that
/// receive a channel.
#[derive(Drop)]
pub struct Wired {
    pub node_routes: Vec<NodeRoutes>,
    pub far: Vec<Far>,
    pub receivers: Vec<IfaceNo>,
}

/// The wiring of nodes in these partitions and `count` interfaces.
fn wire(
    alloc: Global,
    parts: &[PartNo],
    count: usize,
    resolved: &Resolved,
) -> Result<Wired, AllocError>
    // What the names resolved to is there.
    requires count { count ≤ MAX_IFACES }
    requires owners { (length resolved.now.owners ≡ count)
        × All (λ o. o < length parts.now) resolved.now.owners }
    requires links { All (λ l. (l.a < count) × (l.b < count)) resolved.now.links }
    requires routes { All (λ r. r.node < length parts.now) resolved.now.routes }

    // The wiring, as it is defined.
    ensures node_routes { IfOk result (λ w. w.node_routes.items
        ≡ routes_of_nodes (length parts.now) resolved.now.routes) }
    ensures far { IfOk result (λ w. w.far.items ≡ far_ends count resolved.now.links) }
    ensures receivers { IfOk result (λ w. w.receivers.items
        ≡ receivers_of parts.now resolved.now.owners (far_ends count resolved.now.links)) }
{
    let node_routes = wiring::routes_of_nodes(alloc, parts.len(), &resolved.routes)?;
    let far = wiring::far_ends(alloc, count, &resolved.links)?;
    let receivers = wiring::receivers(alloc, parts, &resolved.owners, &far)?;
    Ok(Wired {
        node_routes,
        far,
        receivers,
    })
}

/// The wiring of these nodes and interfaces, once all tests have passed.
fn wire_tables(
    alloc: Global,
    nodes: &[NodeTable],
    ifaces: &[IfaceTable],
    resolved: &Resolved,
) -> Result<Wired, TopoFault>
    // What the names resolved to is there.
    requires count { length ifaces.now ≤ MAX_IFACES }
    requires owners { (length resolved.now.owners ≡ length ifaces.now)
        × All (λ o. o < length nodes.now) resolved.now.owners }
    requires links { All (λ l. (l.a < length ifaces.now) × (l.b < length ifaces.now))
        resolved.now.links }
    requires routes { All (λ r. r.node < length nodes.now) resolved.now.routes }

    // The tests of the whole decide.
    ensures few { IfOk result (λ w. length w.receivers.items ≤ MAX_CHANNELS) }
    ensures tested { Gives (λ _. tt) result (tested (map (λ n. n.partition) nodes.now)
        (map (λ i. i.address) ifaces.now) (length nodes.now) (length ifaces.now) resolved.now) }

    // The wiring, as it is defined.
    ensures node_routes { IfOk result (λ w. w.node_routes.items
        ≡ routes_of_nodes (length nodes.now) resolved.now.routes) }
    ensures far { IfOk result (λ w. w.far.items
        ≡ far_ends (length ifaces.now) resolved.now.links) }
    ensures receivers { IfOk result (λ w. w.receivers.items
        ≡ receivers_of (map (λ n. n.partition) nodes.now) resolved.now.owners
        (far_ends (length ifaces.now) resolved.now.links)) }
{
    let parts = partitions_of_nodes(alloc, nodes)?;
    let wired = wire(alloc, &parts, ifaces.len(), resolved)?;
    validate(alloc, &parts, ifaces, resolved, &wired)?;
    Ok(wired)
}

/// The nodes: each table with its routes.
fn nodes(
    alloc: Global,
    tables: Vec<NodeTable>,
    node_routes: Vec<NodeRoutes>,
) -> Result<Vec<Node>, AllocError>
    ensures len { IfOk result (λ v. length v.items ≤ length tables.items) }
    ensures value { IfOk result (λ v. v.items ≡ placed_nodes tables.items node_routes.items) }
{
    let mut nodes = Vec::new(alloc);
    let mut node_routes = node_routes.into_iter();
    for table in tables {
        let Some(routes) = node_routes.next() else {
            break;
        };
        nodes.push(Node::new(table, routes))?;
    }
    Ok(nodes)
}

/// The interfaces: each table with its node and its far end.
fn ifaces(
    alloc: Global,
    tables: Vec<IfaceTable>,
    owners: &[NodeNo],
    far: &[Far],
) -> Result<Vec<Iface>, AllocError>
    ensures len { IfOk result (λ v. length v.items ≤ length tables.items) }
    ensures value { IfOk result (λ v. v.items ≡ placed_ifaces tables.items owners.now far.now) }
{
    let mut ifaces = Vec::new(alloc);
    let mut owners = owners.iter();
    let mut far = far.iter();
    for table in tables {
        let Some(owner) = owners.next() else {
            break;
        };
        let Some(end) = far.next() else {
            break;
        };
        ifaces.push(Iface::new(table, *owner, *end))?;
    }
    Ok(ifaces)
}

/// Nodes and interfaces with their wiring.
#[derive(Drop)]
pub struct Placed {
    pub nodes: Vec<Node>,
    pub ifaces: Vec<Iface>,
    pub receivers: Vec<IfaceNo>,
}

/// Gives each node its routes and each interface its far end, once all tests have passed.
pub fn place(
    alloc: Global,
    node_tables: Vec<NodeTable>,
    iface_tables: Vec<IfaceTable>,
    resolved: &Resolved,
) -> Result<Placed, TopoFault>
    // What the names resolved to is there.
    requires count { length iface_tables.items ≤ MAX_IFACES }
    requires owners { (length resolved.now.owners ≡ length iface_tables.items)
        × All (λ o. o < length node_tables.items) resolved.now.owners }
    requires links { All
        (λ l. (l.a < length iface_tables.items) × (l.b < length iface_tables.items))
        resolved.now.links }
    requires routes { All (λ r. r.node < length node_tables.items) resolved.now.routes }

    // The tests of the whole decide.
    ensures few { IfOk result (λ p. length p.receivers.items ≤ MAX_CHANNELS) }
    ensures tested { Gives (λ _. tt) result (tested (map (λ n. n.partition) node_tables.items)
        (map (λ i. i.address) iface_tables.items) (length node_tables.items)
        (length iface_tables.items) resolved.now) }

    // The result, as it is defined.
    ensures nodes { IfOk result (λ p. p.nodes.items
        ≡ placed_nodes node_tables.items
        (routes_of_nodes (length node_tables.items) resolved.now.routes)) }
    ensures ifaces { IfOk result (λ p. p.ifaces.items
        ≡ placed_ifaces iface_tables.items resolved.now.owners
        (far_ends (length iface_tables.items) resolved.now.links)) }
    ensures receivers { IfOk result (λ p. p.receivers.items
        ≡ receivers_of (map (λ n. n.partition) node_tables.items) resolved.now.owners
        (far_ends (length iface_tables.items) resolved.now.links)) }
{
    let Wired {
        node_routes,
        far,
        receivers,
    } = wire_tables(alloc, &node_tables, &iface_tables, resolved)?;
    let nodes = nodes(alloc, node_tables, node_routes)?;
    let ifaces = ifaces(alloc, iface_tables, &resolved.owners, &far)?;
    Ok(Placed {
        nodes,
        ifaces,
        receivers,
    })
}
