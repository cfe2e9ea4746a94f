//! What is odd in a topology that is accepted.

use crate::pieces::{Appended, Piece, push};
use nm_base::{IfaceNo, Remarks};
use nm_packet::Address;
use nm_topology::node::NodeKind;
use nm_topology::parts::{Iface, Node, Route};
use nm_topology::traffic::{Source, Traffic};
use nm_topology::{Prefix, Topology};
use std::alloc::{AllocError, Global};

/// Adds the remark of these pieces.
fn add(alloc: Global, remarks: &mut Remarks, pieces: &[Piece]) -> Appended {
    let mut remark = Vec::new(alloc);
    push(&mut remark, pieces)?;
    remarks.add(&remark)
}

/// The addresses of all interfaces, least first.
fn addresses(alloc: Global, topology: &Topology) -> Result<Vec<u32>, AllocError> {
    let mut addresses = Vec::new(alloc);
    for iface in topology.ifaces() {
        addresses.push(iface.address().bits())?;
    }
    addresses.sort_unstable();
    Ok(addresses)
}

/// Whether a prefix holds one of these addresses, least first.
fn holds_any(to: Prefix, addresses: &[u32]) -> bool {
    let least = to.address.bits();
    let span = (1u64 << 32u8.saturating_sub(to.length).min(32)) - 1;
    match addresses.binary_search(&least) {
        Ok(_) => true,
        Err(place) => match addresses.get(place) {
            Some(next) => *next as u64 <= least as u64 + span,
            None => false,
        },
    }
}

/// Appends a remark on a route that leads to no address.
fn push_route<'a>(
    alloc: Global,
    remarks: &mut Remarks,
    topology: &'a Topology,
    node: &'a str,
    route: Route,
    alike: Alike<'_>,
) -> Appended {
    let to = route.to;
    let via = topology.iface_name(route.via);
    add_alike(
        alloc,
        remarks,
        alike,
        &[
            Piece::Text("node "),
            Piece::Quoted(node),
            Piece::Text(": the route to "),
            Piece::Address(to.address),
            Piece::Text("/"),
            Piece::Number(to.length as u64),
            Piece::Text(" via "),
            Piece::Quoted(via),
            Piece::Text(" leads to no address"),
        ],
    )
}

/// Appends a remark for each route of a node that leads to no address.
fn push_routes_of(
    alloc: Global,
    remarks: &mut Remarks,
    topology: &Topology,
    node: &Node,
    addresses: &[u32],
    alike: &mut Alike<'_>,
) -> Appended {
    for route in node.routes() {
        if !holds_any(route.to, addresses) {
            push_route(alloc, remarks, topology, node.name(), *route, *alike)?;
            alike.number = alike.number.saturating_add(1);
        }
    }
    Ok(())
}

/// How many remarks of one kind are made one by one at most: of more there is one, with their count
/// and the first of them.
const MAX_ALIKE: usize = 5;

/// Appends the remark of these pieces, or, if there are too many alike, the first one alone, with
/// how many there are of what.
fn add_alike<'a>(
    alloc: Global,
    remarks: &mut Remarks,
    alike: Alike<'a>,
    pieces: &[Piece],
) -> Appended {
    if alike.count <= MAX_ALIKE {
        return add(alloc, remarks, pieces);
    }
    if alike.number > 0 {
        return Ok(());
    }
    let mut remark = Vec::new(alloc);
    push(
        &mut remark,
        &[
            Piece::Number(alike.count as u64),
            Piece::Text(" "),
            Piece::Text(alike.what),
            Piece::Text(", the first: "),
        ],
    )?;
    push(&mut remark, pieces)?;
    remarks.add(&remark)
}

/// A remark among others of its kind: the number of it, how many there are, and of what.
#[derive(Clone, Copy)]
struct Alike<'a> {
    number: usize,
    count: usize,
    what: &'a str,
}

/// How many routes lead to no address.
fn count_routes(topology: &Topology, addresses: &[u32]) -> usize {
    let mut count = 0usize;
    for node in topology.nodes() {
        for route in node.routes() {
            if !holds_any(route.to, addresses) {
                count = count.saturating_add(1);
            }
        }
    }
    count
}

/// Appends a remark for each route that leads to no address.
fn push_routes(
    alloc: Global,
    remarks: &mut Remarks,
    topology: &Topology,
    addresses: &[u32],
) -> Appended {
    let mut alike = Alike {
        number: 0,
        count: count_routes(topology, addresses),
        what: "routes lead to no address",
    };
    for node in topology.nodes() {
        push_routes_of(alloc, remarks, topology, node, addresses, &mut alike)?;
    }
    Ok(())
}

/// The destination of a source, if it has one.
fn destination(source: &Source) -> Option<Address> {
    match &source.traffic {
        Traffic::Cbr(cbr) => Some(cbr.to),
        Traffic::Echo(echo) => Some(echo.to),
        Traffic::Raw(_) => None,
    }
}

/// Appends a remark on a source whose destination nobody has.
fn push_source(
    alloc: Global,
    remarks: &mut Remarks,
    number: usize,
    node: &str,
    to: Address,
) -> Appended {
    add(
        alloc,
        remarks,
        &[
            Piece::Text("source "),
            Piece::Number(number as u64),
            Piece::Text(" (node "),
            Piece::Quoted(node),
            Piece::Text("): no interface has its destination, "),
            Piece::Address(to),
        ],
    )
}

/// Appends a remark for each source whose destination nobody has.
fn push_sources(
    alloc: Global,
    remarks: &mut Remarks,
    topology: &Topology,
    addresses: &[u32],
) -> Appended {
    for (number, source) in topology.sources().iter().enumerate() {
        if let Some(to) = destination(source) {
            if addresses.binary_search(&to.bits()).is_err() {
                let node = topology.node_name(source.node);
                push_source(alloc, remarks, number, node, to)?;
            }
        }
    }
    Ok(())
}

/// Notes that an interface is used.
fn note(used: &mut [bool], iface: IfaceNo) {
    if let Some(place) = used.get_mut(iface.index()) {
        *place = true;
    }
}

/// Whether a route or a raw source uses each interface.
fn used_ifaces(alloc: Global, topology: &Topology) -> Result<Vec<bool>, AllocError> {
    let mut used = vec![in alloc; false; topology.ifaces().len()]?;
    for node in topology.nodes() {
        for route in node.routes() {
            note(&mut used, route.via);
        }
    }
    for source in topology.sources() {
        if let Traffic::Raw(raw) = &source.traffic {
            note(&mut used, raw.via());
        }
    }
    Ok(used)
}

/// Appends a remark for each interface that no route and no raw source uses.
fn push_ifaces(
    alloc: Global,
    remarks: &mut Remarks,
    topology: &Topology,
    used: &[bool],
) -> Appended {
    let mut alike = Alike {
        number: 0,
        count: used.iter().filter(|is_used| !**is_used).count(),
        what: "interfaces are used by no route and no raw source",
    };
    for (number, iface) in topology.ifaces().iter().enumerate() {
        if used.get(number) == Some(&false) {
            add_alike(
                alloc,
                remarks,
                alike,
                &[
                    Piece::Text("iface "),
                    Piece::Number(number as u64),
                    Piece::Text(" ("),
                    Piece::Quoted(iface.name()),
                    Piece::Text("): no route and no raw source uses it"),
                ],
            )?;
            alike.number = alike.number.saturating_add(1);
        }
    }
    Ok(())
}

/// Appends a remark for each host that has no interface.
fn push_lone_hosts(alloc: Global, remarks: &mut Remarks, topology: &Topology) -> Appended {
    let mut has_iface = vec![in alloc; false; topology.nodes().len()]?;
    for iface in topology.ifaces() {
        if let Some(place) = has_iface.get_mut(iface.node().index()) {
            *place = true;
        }
    }
    for (number, node) in topology.nodes().iter().enumerate() {
        if node.kind() == NodeKind::Host && has_iface.get(number) == Some(&false) {
            add(
                alloc,
                remarks,
                &[
                    Piece::Text("node "),
                    Piece::Number(number as u64),
                    Piece::Text(" ("),
                    Piece::Quoted(node.name()),
                    Piece::Text("): a host without an interface"),
                ],
            )?;
        }
    }
    Ok(())
}

/// Whether a prefix holds an address.
fn holds(to: Prefix, address: Address) -> bool {
    holds_any(to, &[address.bits()])
}

/// The interface by which a node sends to an address, if it has a route: that of the longest prefix
/// that holds it (RFC 1812, section 5.2.4.3).
fn way_to(node: &Node, address: Address) -> Option<IfaceNo> {
    let (mut via, mut length) = (None, 0u8);
    for route in node.routes() {
        let is_longer = via.is_none() || route.to.length > length;
        if is_longer && holds(route.to, address) {
            via = Some(route.via);
            length = route.to.length;
        }
    }
    via
}

/// The neighbour of an interface of a host, if it sends what is for the interface's address by
/// another link.
fn astray<'a>(topology: &'a Topology, iface: &Iface) -> Option<&'a Node> {
    let far = iface.far().iface;
    let nodes = topology.nodes();
    let own = nodes.get(iface.node().index())?;
    let next = nodes.get(topology.ifaces().get(far.index())?.node().index())?;
    let via = way_to(next, iface.address())?;
    if own.kind() == NodeKind::Host && via != far {
        Some(next)
    } else {
        None
    }
}

/// Appends a remark for each interface of a host whose neighbour sends what is for its address by
/// another link.
fn push_unreached(alloc: Global, remarks: &mut Remarks, topology: &Topology) -> Appended {
    for (number, iface) in topology.ifaces().iter().enumerate() {
        let Some(next) = astray(topology, iface) else {
            continue;
        };
        add(
            alloc,
            remarks,
            &[
                Piece::Text("iface "),
                Piece::Number(number as u64),
                Piece::Text(" ("),
                Piece::Quoted(iface.name()),
                Piece::Text("): "),
                Piece::Quoted(next.name()),
                Piece::Text(" sends what is for its address, "),
                Piece::Address(iface.address()),
                Piece::Text(", by another link"),
            ],
        )?;
    }
    Ok(())
}

/// A text with the remarks behind it: on routes, on sources, on interfaces and on hosts, each in
/// the order of the topology's text; at most 20, and how many more there are.
pub fn with_remarks(
    alloc: Global,
    text: Vec<u8>,
    topology: &Topology,
) -> Result<Vec<u8>, AllocError> {
    let mut remarks = Remarks::behind(text);
    push_remarks(alloc, &mut remarks, topology)?;
    remarks.into_text()
}

/// Appends the remarks.
fn push_remarks(alloc: Global, remarks: &mut Remarks, topology: &Topology) -> Appended {
    let addresses = addresses(alloc, topology)?;
    push_routes(alloc, remarks, topology, &addresses)?;
    push_sources(alloc, remarks, topology, &addresses)?;
    let used = used_ifaces(alloc, topology)?;
    push_ifaces(alloc, remarks, topology, &used)?;
    push_lone_hosts(alloc, remarks, topology)?;
    push_unreached(alloc, remarks, topology)
}
