//! The first test of the whole that a text does not pass after all its tables are read.
//!
//! That the double names, addresses and routes which are found are the first ones is proved. That
//! the other tests find what `nm_topology` refuses, and where, is tested by cases and not proved.

ghost use Rattle.std.specs.Prelude.{◌≡◌, ◌<◌, All, IfOk, length, map, nat_eq};
ghost use Rattle.nm_topology.specs.Validate.{route_key};
ghost use Rattle.nm_check.specs.Doubles.{IsFirstDouble, same_key};

use crate::doubles::{Double, first_double};
use crate::lack::{Lacking, push_lacking};
use crate::names::double_name;
use nm_base::limits::{MAX_CHANNELS, MAX_ROUTES_OF_NODE};
use nm_base::{IfaceNo, NodeNo, PartNo};
use nm_topology::TopoFault;
use nm_topology::build::partitions::{part_of, partitions_of_nodes};
use nm_topology::keys::array::Array;
use nm_topology::names::Names;
use nm_topology::parse::document::Document;
use nm_topology::parse::tables::IfaceTable;
use nm_topology::parts::{Link, PlacedRoute};
use nm_topology::resolve::tables;
use nm_topology::validate::checks::{addresses_of, route_keys};
use std::alloc::{AllocError, Global};

/// What the whole is refused for. Numbers are from 0, in the order of the text.
#[derive(Drop)]
pub enum WholeFault {
    /// Two tables of the array have one name.
    DoubleName { array: Array, double: Double },
    /// Tables name what is not there: all of them, in the order in which they are looked at.
    NoSuch(Vec<Lacking>),
    /// So many ends of links name the interface.
    IfaceUse { iface: usize, ends: usize },
    /// Two interfaces have one address.
    DoubleAddress(Double),
    /// Two routes of a node have one prefix.
    DoubleRoute(Double),
    /// The node has so many routes.
    ManyRoutes { node: usize, count: usize },
    /// There are so many channels.
    ManyChannels(usize),
    /// The link delays by nothing, and its ends lie in these partitions.
    CutDelay { link: usize, a: PartNo, b: PartNo },
}

/// A document with numbers in place of names.
#[derive(Drop)]
struct Numbered {
    parts: Vec<PartNo>,
    owners: Vec<NodeNo>,
    links: Vec<Link>,
    routes: Vec<PlacedRoute>,
    ghost owned: { All (λ n. n < length parts.items) owners.items },
    ghost linked: { All
        (λ l. (l.a < length owners.items) × (l.b < length owners.items)) links.items },
}

/// What a fault of memory is; no other comes.
fn memory(_fault: TopoFault) -> AllocError {
    AllocError
}

/// What the whole is refused for, if it is; or memory was refused for the look.
type Looked = Result<Option<WholeFault>, AllocError>;

/// The fault of names.
fn names_fault(alloc: Global, document: &Document) -> Looked {
    if let Some(double) = double_name(alloc, &document.nodes)? {
        return Ok(Some(WholeFault::DoubleName {
            array: Array::Node,
            double,
        }));
    }
    if let Some(double) = double_name(alloc, &document.ifaces)? {
        return Ok(Some(WholeFault::DoubleName {
            array: Array::Iface,
            double,
        }));
    }
    Ok(None)
}

/// The links, routes and sources that name what is not there.
fn others_lacking(
    alloc: Global,
    nodes: &Names,
    ifaces: &Names,
    owners: &[NodeNo],
    document: &Document,
) -> Result<Vec<Lacking>, AllocError> {
    let mut all = Vec::new(alloc);
    push_lacking(&mut all, nodes, ifaces, owners, &document.links)?;
    push_lacking(&mut all, nodes, ifaces, owners, &document.routes)?;
    push_lacking(&mut all, nodes, ifaces, owners, &document.sources)?;
    Ok(all)
}

/// What the whole is refused for, if it is.
pub fn whole_fault(alloc: Global, document: &Document) -> Looked {
    if let Some(fault) = names_fault(alloc, document)? {
        return Ok(Some(fault));
    }
    let nodes = Names::of_all(alloc, &document.nodes).map_err(memory)?;
    let ifaces = Names::of_all(alloc, &document.ifaces).map_err(memory)?;
    named_fault(alloc, &nodes, &ifaces, document)
}

/// What a document with these names is refused for.
fn named_fault(alloc: Global, nodes: &Names, ifaces: &Names, document: &Document) -> Looked
    requires nodes { length nodes.now ≡ length document.now.nodes }
    requires ifaces { length ifaces.now ≡ length document.now.ifaces }
{
    let mut lacking = Vec::new(alloc);
    push_lacking(&mut lacking, nodes, ifaces, &[], &document.ifaces)?;
    if !lacking.is_empty() {
        return Ok(Some(WholeFault::NoSuch(lacking)));
    }
    let owners = tables::owners(alloc, nodes, &document.ifaces).map_err(memory)?;
    let lacking = others_lacking(alloc, nodes, ifaces, &owners, document)?;
    if !lacking.is_empty() {
        return Ok(Some(WholeFault::NoSuch(lacking)));
    }
    let numbered = with_numbers(alloc, nodes, ifaces, owners, document)?;
    numbered_fault(alloc, &numbered, document)
}

/// Numbers in place of names.
fn with_numbers(
    alloc: Global,
    nodes: &Names,
    ifaces: &Names,
    owners: Vec<NodeNo>,
    document: &Document,
) -> Result<Numbered, AllocError>
    requires nodes { length nodes.now ≡ length document.now.nodes }
    requires owners { length owners.items ≡ length ifaces.now }
    requires owned { All (λ n. n < length document.now.nodes) owners.items }
{
    let links = tables::links(alloc, ifaces, &document.links).map_err(memory)?;
    let routes = tables::routes(alloc, nodes, ifaces, &owners, &document.routes).map_err(memory)?;
    let parts = partitions_of_nodes(alloc, &document.nodes)?;
    Ok(Numbered {
        parts,
        owners,
        links,
        routes,
    })
}

/// What a document with these numbers is refused for.
fn numbered_fault(alloc: Global, numbered: &Numbered, document: &Document) -> Looked {
    if let Some(fault) = use_fault(alloc, document.ifaces.len(), &numbered.links)? {
        return Ok(Some(fault));
    }
    if let Some(double) = double_address(alloc, &document.ifaces)? {
        return Ok(Some(WholeFault::DoubleAddress(double)));
    }
    if let Some(double) = double_route(alloc, &numbered.routes)? {
        return Ok(Some(WholeFault::DoubleRoute(double)));
    }
    if let Some(fault) = routes_fault(alloc, numbered.parts.len(), &numbered.routes)? {
        return Ok(Some(fault));
    }
    Ok(cut_fault(&numbered.parts, &numbered.owners, &numbered.links))
}

/// Counts one end of a link more for an interface.
fn count_end(ends: &mut [usize], iface: IfaceNo) {
    if let Some(count) = ends.get_mut(iface.index()) {
        *count = count.saturating_add(1);
    }
}

/// The first interface that is not exactly one end of one link.
fn use_fault(alloc: Global, count: usize, links: &[Link]) -> Looked {
    let mut ends = vec![in alloc; 0usize; count]?;
    for link in links {
        count_end(&mut ends, link.a);
        count_end(&mut ends, link.b);
    }
    for (iface, ends) in ends.iter().enumerate() {
        if *ends != 1 {
            return Ok(Some(WholeFault::IfaceUse { iface, ends: *ends }));
        }
    }
    Ok(None)
}

/// Two interfaces that have one address.
fn double_address(alloc: Global, ifaces: &[IfaceTable]) -> Result<Option<Double>, AllocError>
    ensures { IfOk result
        (λ found. IsFirstDouble nat_eq (map (λ i. i.address) ifaces.now) found) }
{
    let addresses = addresses_of(alloc, ifaces)?;
    first_double(alloc, &addresses)
}

/// Two routes of one node that have one prefix.
fn double_route(alloc: Global, routes: &[PlacedRoute]) -> Result<Option<Double>, AllocError>
    ensures { IfOk result (λ found. IsFirstDouble same_key (map route_key routes.now) found) }
{
    let keys = route_keys(alloc, routes)?;
    first_double(alloc, &keys)
}

/// The first of so many nodes that has too many routes.
fn routes_fault(alloc: Global, nodes: usize, routes: &[PlacedRoute]) -> Looked {
    let mut counts = vec![in alloc; 0usize; nodes]?;
    for placed in routes {
        if let Some(count) = counts.get_mut(placed.node.index()) {
            *count = count.saturating_add(1);
        }
    }
    for (node, count) in counts.iter().enumerate() {
        if *count > MAX_ROUTES_OF_NODE {
            return Ok(Some(WholeFault::ManyRoutes {
                node,
                count: *count,
            }));
        }
    }
    Ok(None)
}

/// The partitions in which the two ends of a link lie.
fn ends_of(parts: &[PartNo], owners: &[NodeNo], link: Link) -> (PartNo, PartNo)
    requires ends { (link.a < length owners.now) × (link.b < length owners.now) }
    requires owners { All (λ n. n < length parts.now) owners.now }
{
    (
        part_of(parts, owners, link.a),
        part_of(parts, owners, link.b),
    )
}

/// Too many channels, or the first link between two partitions that delays by nothing. Such a link
/// is a channel in each direction.
fn cut_fault(parts: &[PartNo], owners: &[NodeNo], links: &[Link]) -> Option<WholeFault>
    requires ends { All (λ l. (l.a < length owners.now) × (l.b < length owners.now)) links.now }
    requires owners { All (λ n. n < length parts.now) owners.now }
{
    let mut undelayed = None;
    let mut channels = 0usize;
    for (number, link) in links.iter().enumerate() {
        let (a, b) = ends_of(parts, owners, *link);
        if a != b {
            channels = channels.saturating_add(2);
            if link.delay == 0 && undelayed.is_none() {
                undelayed = Some(WholeFault::CutDelay { link: number, a, b });
            }
        }
    }
    if channels > MAX_CHANNELS {
        return Some(WholeFault::ManyChannels(channels));
    }
    undelayed
}
