//! The way of a packet from node to node.

ghost use Rattle.std.specs.Prelude.{◌≡◌, ◌+◌, IfOk, nat_eq, option_map, slice_get};
ghost use Rattle.std.specs.List.{list_any};
ghost use Rattle.nm_forward.specs.Routes.{route_of};
ghost use Rattle.nm_forward.specs.State.{is_own, table_of};
ghost use Rattle.nm_paths.specs.Walks.{behind, course, first_turn, linked_to};
ghost use Rattle.nm_paths.specs.Walks.{node_behind, nodes_with};
ghost use Rattle.nm_paths.specs.Walks.{node_of_iface, routes_of_all, turn_at, walk_by, walk_of};

use crate::tables::Tables;
use crate::turn::{Turn, WalkEnd, route_turn, transit_turn};
use nm_base::{IfaceNo, NodeNo};
use nm_packet::Address;
use nm_topology::parts::{Iface, Node};
use nm_topology::{NodeKind, Topology};
use std::alloc::{AllocError, Global};

/// The way of a packet.
#[derive(Drop)]
pub struct Way {
    /// The interfaces by which it leaves, one node after another: at most 255.
    pub hops: Vec<IfaceNo>,
    /// Its end, at the last node that it comes to.
    pub ending: WalkEnd,
}

/// The node of an interface; node 0 if it is not there.
fn node_of_iface(ifaces: &[Iface], iface: IfaceNo) -> NodeNo
    ensures { result ≡ node_of_iface ifaces.now iface }
{
    match ifaces.get(iface.index()) {
        Some(there) => there.node(),
        None => NodeNo::new(0),
    }
}

/// The interface that an interface is linked to; interface 0 if it is not there.
pub(crate) fn linked_to(ifaces: &[Iface], iface: IfaceNo) -> IfaceNo
    ensures { result ≡ linked_to ifaces.now iface }
{
    match ifaces.get(iface.index()) {
        Some(there) => there.far().iface,
        None => IfaceNo::new(0),
    }
}

/// The node to which an interface leads.
pub(crate) fn node_behind(ifaces: &[Iface], via: IfaceNo) -> NodeNo
    ensures { result ≡ node_behind ifaces.now via }
{
    node_of_iface(ifaces, linked_to(ifaces, via))
}

/// The nodes that have an address: one, or none.
fn nodes_with(alloc: Global, ifaces: &[Iface], to: Address) -> Result<Vec<NodeNo>, AllocError>
    ensures { IfOk result (λ v. v.items ≡ nodes_with ifaces.now to) }
{
    ifaces
        .iter()
        .filter(|iface| iface.address() == to)
        .map(|iface| iface.node())
        .collect(alloc)
}

/// Whether a node, which is there, is among those that have the address.
fn is_holder(holders: &[NodeNo], node: NodeNo) -> bool
    ensures { result ≡ list_any (nat_eq node) holders.now }
{
    holders.iter().any(|holder| node == *holder)
}

/// Where packets to an address go: by the routes of all nodes, to the nodes that have the address.
#[derive(Clone, Copy)]
struct Routing<'a> {
    topology: &'a Topology,
    tables: &'a Tables,
    holders: &'a [NodeNo],
    to: Address,
    ghost routes: { tables.now ≡ routes_of_all topology.now },
    ghost held: { holders.now ≡ nodes_with topology.now.ifaces to },
}

impl<'a> Routing<'a> {
    /// Where packets go to an address that these nodes have.
    fn new(topology: &'a Topology, tables: &'a Tables, holders: &'a [NodeNo], to: Address) -> Self
        requires routes { tables.now ≡ routes_of_all topology.now }
        requires held { holders.now ≡ nodes_with topology.now.ifaces to }
        ensures { (result.topology.now ≡ topology.now) × (result.to ≡ to) }
    {
        Routing {
            topology,
            tables,
            holders,
            to,
        }
    }
}

/// The node of a number, if it is there.
fn node_at(topology: &Topology, node: NodeNo) -> Option<&Node>
    ensures { option_map (λ n. n.now) result ≡ slice_get topology.now.nodes node }
{
    topology.nodes().get(node.index())
}

/// Whether the address is a node's own.
fn is_own(routing: &Routing<'_>, node: NodeNo) -> bool
    ensures { result ≡ is_own (table_of routing.now.topology.now node) routing.now.to }
{
    match node_at(routing.topology, node) {
        Some(_) => is_holder(routing.holders, node),
        None => false,
    }
}

/// What kind a node is; one that is not there is a host.
#[tactic(auto, unfolding(nm_forward::specs::State::table_of))]
fn kind_of(topology: &Topology, node: NodeNo) -> NodeKind
    ensures { result ≡ (table_of topology.now node).kind }
{
    match node_at(topology, node) {
        Some(there) => there.kind(),
        None => NodeKind::Host,
    }
}

/// The interface by which the longest route of a node to the address leads.
fn route_at(routing: &Routing<'_>, node: NodeNo) -> Option<IfaceNo>
    ensures { result ≡ route_of (table_of routing.now.topology.now node).routes routing.now.to }
{
    match node_at(routing.topology, node) {
        Some(_) => routing.tables.look(node, routing.to),
        None => None,
    }
}

/// What a node does with a packet that comes to it with this time to live.
fn turn_at(routing: &Routing<'_>, node: NodeNo, time_to_live: u8) -> Turn
    ensures { result
        ≡ turn_at (table_of routing.now.topology.now node) routing.now.to time_to_live }
{
    if is_own(routing, node) {
        return Turn::Stops(WalkEnd::Arrived);
    }
    let route = route_at(routing, node);
    transit_turn(kind_of(routing.topology, node), route, time_to_live)
}

/// What a node does with a packet of its own.
fn first_turn(routing: &Routing<'_>, node: NodeNo) -> Turn
    ensures { result ≡ first_turn (table_of routing.now.topology.now node) routing.now.to }
{
    if is_own(routing, node) {
        return Turn::Stops(WalkEnd::Arrived);
    }
    route_turn(route_at(routing, node))
}

/// Goes on from a node to which a packet comes with this time to live: appends the interfaces by
/// which it leaves, and gives what ends its way.
fn go_on(
    routing: &Routing<'_>,
    time_to_live: u8,
    first: NodeNo,
    hops: &mut Vec<IfaceNo>,
) -> Result<WalkEnd, AllocError>
    ensures { IfOk result (λ ending. (hops.new.items, ending) ≡ behind hops.old.items
        (course routing.now.topology.now routing.now.to (time_to_live + 1) first)) }
{
    let mut node = first;
    for left in (0..u16::from(time_to_live) + 1).rev() {
        match turn_at(routing, node, left as u8) {
            Turn::Stops(ending) => return Ok(ending),
            Turn::Leaves(via) => {
                hops.push(via)?;
                node = node_behind(routing.topology.ifaces(), via);
            }
        }
    }
    Ok(WalkEnd::Expired)
}

/// The way of a packet with this time to live that a node originates to an address: by the routes
/// of each node that it comes to, until it arrives, nothing leads on or its time to live is over.
///
/// # Errors
///
/// If memory was refused.
pub fn walk(
    alloc: Global,
    topology: &Topology,
    tables: &Tables,
    node: NodeNo,
    to: Address,
    time_to_live: u8,
) -> Result<Way, AllocError>
    requires tables { tables.now ≡ routes_of_all topology.now }
    ensures { IfOk result (λ w. (w.hops.items, w.ending)
        ≡ walk_of topology.now node to time_to_live) }
{
    let holders = nodes_with(alloc, topology.ifaces(), to)?;
    let routing = Routing::new(topology, tables, holders.as_slice(), to);
    let mut hops = Vec::new(alloc);
    let ending = match first_turn(&routing, node) {
        Turn::Stops(ending) => ending,
        Turn::Leaves(via) => {
            hops.push(via)?;
            let next = node_behind(topology.ifaces(), via);
            go_on(&routing, time_to_live, next, &mut hops)?
        }
    };
    Ok(Way { hops, ending })
}

/// The way of a packet with this time to live that goes to an address by this interface of its node
/// as it is: no route is looked up there.
///
/// # Errors
///
/// If memory was refused.
pub fn walk_by(
    alloc: Global,
    topology: &Topology,
    tables: &Tables,
    via: IfaceNo,
    to: Address,
    time_to_live: u8,
) -> Result<Way, AllocError>
    requires { tables.now ≡ routes_of_all topology.now }
    ensures { IfOk result (λ w. (w.hops.items, w.ending)
        ≡ walk_by topology.now via to time_to_live) }
{
    let holders = nodes_with(alloc, topology.ifaces(), to)?;
    let routing = Routing::new(topology, tables, holders.as_slice(), to);
    let mut hops = vec![in alloc; via; 1]?;
    let next = node_behind(topology.ifaces(), via);
    let ending = go_on(&routing, time_to_live, next, &mut hops)?;
    Ok(Way { hops, ending })
}
