//! Numbers in place of names, table by table.

ghost use Rattle.std.specs.Prelude.{◌≡◌, ◌<◌, ◌≤◌, All, length, slice_index, IfOk};
ghost use Rattle.nm_base.specs.declared.limits.TheConstants.{MAX_IFACES};
ghost use Rattle.nm_topology.specs.Fault.{Gives};
ghost use Rattle.nm_topology.specs.Resolve.{all_of, via_of, owner_of, link_between, placed_route};
ghost use Rattle.nm_topology.specs.Resolve.{placed_traffic, placed_source};
ghost use Rattle.nm_topology.specs.Accepted.{IsPlaced, LeavesByOwn};

use crate::fault::{Refusal, TopoFault};
use crate::names::Names;
use crate::parse::sources::{NamedRaw, NamedTraffic, SourceTable};
use crate::parse::tables::{IfaceTable, LinkTable, RouteTable};
use crate::parts::{Link, PlacedRoute, Route};
use crate::traffic::{Raw, Source, Traffic};
use nm_base::{IfaceNo, NodeNo};
use std::alloc::Global;

/// The owner of an interface.
fn owner(nodes: &Names, table: &IfaceTable) -> Result<NodeNo, TopoFault>
    ensures within { IfOk result (λ n. n < length nodes.now) }
    ensures value { Gives (λ n. n) result (owner_of nodes.now table.now) }
{
    Ok(NodeNo::new(nodes.number(table.node.as_str())?))
}

/// The owner of each interface.
pub fn owners(alloc: Global, nodes: &Names, tables: &[IfaceTable]) -> Result<Vec<NodeNo>, TopoFault>
    ensures len { IfOk result (λ v. length v.items ≡ length tables.now) }
    ensures within { IfOk result (λ v. All (λ n. n < length nodes.now) v.items) }
    ensures value { Gives (λ v. v.items) result (all_of (owner_of nodes.now) tables.now) }
{
    let mut owners = Vec::new(alloc);
    for table in tables {
        let owner = owner(nodes, table)?;
        owners.push(owner)?;
    }
    Ok(owners)
}

fn link(ifaces: &Names, table: &LinkTable) -> Result<Link, TopoFault>
    ensures within { IfOk result (λ l. (l.a < length ifaces.now) × (l.b < length ifaces.now)) }
    ensures value { Gives (λ l. l) result (link_between ifaces.now table.now) }
{
    let a = ifaces.number(table.a.as_str())?;
    let b = ifaces.number(table.b.as_str())?;
    Ok(Link {
        a: IfaceNo::new(a),
        b: IfaceNo::new(b),
        rate: table.rate,
        delay: table.delay,
    })
}

/// The links.
pub fn links(alloc: Global, ifaces: &Names, tables: &[LinkTable]) -> Result<Vec<Link>, TopoFault>
    ensures len { IfOk result (λ v. length v.items ≡ length tables.now) }
    ensures within { IfOk result
        (λ v. All (λ l. (l.a < length ifaces.now) × (l.b < length ifaces.now)) v.items) }
    ensures value { Gives (λ v. v.items) result (all_of (link_between ifaces.now) tables.now) }
{
    let mut links = Vec::new(alloc);
    for table in tables {
        let found = link(ifaces, table)?;
        links.push(found)?;
    }
    Ok(links)
}

/// The number of an interface of this node.
fn via(ifaces: &Names, owners: &[NodeNo], node: NodeNo, name: &str) -> Result<IfaceNo, TopoFault>
    requires { length owners.now ≡ length ifaces.now }
    ensures within { IfOk result (λ i. i < length ifaces.now) }
    ensures own { IfOk result (λ i. slice_index owners.now i ≡ node) }
    ensures value { Gives (λ i. i) result (via_of ifaces.now owners.now node name.now) }
{
    let number = ifaces.number(name)?;
    if owners[number as usize] != node {
        return Err(TopoFault::Refused(Refusal::NoSuch));
    }
    Ok(IfaceNo::new(number))
}

fn placed(
    nodes: &Names,
    ifaces: &Names,
    owners: &[NodeNo],
    table: &RouteTable,
) -> Result<PlacedRoute, TopoFault>
    requires { length owners.now ≡ length ifaces.now }
    ensures within { IfOk result
        (λ r. (r.node < length nodes.now) × (r.route.via < length ifaces.now)) }
    ensures own { IfOk result (λ r. slice_index owners.now r.route.via ≡ r.node) }
    ensures value { Gives (λ r. r) result (placed_route nodes.now ifaces.now owners.now table.now) }
{
    let node = NodeNo::new(nodes.number(table.node.as_str())?);
    let via = via(ifaces, owners, node, table.via.as_str())?;
    Ok(PlacedRoute {
        node,
        route: Route { to: table.to, via },
    })
}

/// The routes of all nodes.
pub fn routes(
    alloc: Global,
    nodes: &Names,
    ifaces: &Names,
    owners: &[NodeNo],
    tables: &[RouteTable],
) -> Result<Vec<PlacedRoute>, TopoFault>
    requires { length owners.now ≡ length ifaces.now }
    ensures nodes { IfOk result (λ v. All (λ r. r.node < length nodes.now) v.items) }
    ensures own { IfOk result
        (λ v. All (λ r. (r.route.via < length ifaces.now)
        × (slice_index owners.now r.route.via ≡ r.node)) v.items) }
    ensures value { Gives (λ v. v.items) result
        (all_of (placed_route nodes.now ifaces.now owners.now) tables.now) }
{
    let mut routes = Vec::new(alloc);
    for table in tables {
        let route = placed(nodes, ifaces, owners, table)?;
        routes.push(route)?;
    }
    Ok(routes)
}

fn placed_traffic(
    ifaces: &Names,
    owners: &[NodeNo],
    node: NodeNo,
    named: NamedTraffic,
) -> Result<Traffic, TopoFault>
    requires { length owners.now ≡ length ifaces.now }
    ensures own { IfOk result (λ t. LeavesByOwn owners.now node t) }
    ensures value { Gives (λ t. t) result (placed_traffic ifaces.now owners.now node named) }
{
    match named {
        NamedTraffic::Cbr(cbr) => Ok(Traffic::Cbr(cbr)),
        NamedTraffic::Echo(echo) => Ok(Traffic::Echo(echo)),
        NamedTraffic::Raw(NamedRaw { via: name, packets }) => {
            let via = via(ifaces, owners, node, name.as_str())?;
            Ok(Traffic::Raw(Raw::new(via, packets)))
        }
    }
}

#[tactic(auto, unfolding(crate::specs::Accepted::IsPlaced))]
fn source(
    nodes: &Names,
    ifaces: &Names,
    owners: &[NodeNo],
    table: SourceTable,
) -> Result<Source, TopoFault>
    requires { length owners.now ≡ length ifaces.now }
    ensures placed { IfOk result (λ s. IsPlaced (length nodes.now) owners.now s) }
    ensures value { Gives (λ s. s) result (placed_source nodes.now ifaces.now owners.now table) }
{
    let SourceTable { node, traffic } = table;
    let node = NodeNo::new(nodes.number(node.as_str())?);
    let traffic = placed_traffic(ifaces, owners, node, traffic)?;
    Ok(Source { node, traffic })
}

/// The sources.
pub fn sources(
    alloc: Global,
    nodes: &Names,
    ifaces: &Names,
    owners: &[NodeNo],
    tables: Vec<SourceTable>,
) -> Result<Vec<Source>, TopoFault>
    requires { length owners.now ≡ length ifaces.now }
    ensures len { IfOk result (λ v. length v.items ≡ length tables.items) }
    ensures placed { IfOk result
        (λ v. All (λ s. IsPlaced (length nodes.now) owners.now s) v.items) }
    ensures value { Gives (λ v. v.items) result
        (all_of (placed_source nodes.now ifaces.now owners.now) tables.items) }
{
    let mut sources = Vec::new(alloc);
    for table in tables {
        let found = source(nodes, ifaces, owners, table)?;
        sources.push(found)?;
    }
    Ok(sources)
}
