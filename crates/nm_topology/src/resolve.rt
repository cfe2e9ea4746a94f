//! All tables with numbers in place of names.

ghost use Rattle.std.specs.Prelude.{◌≡◌, ◌≤◌, length, IfOk};
ghost use Rattle.nm_base.specs.declared.limits.TheConstants.{MAX_IFACES};
ghost use Rattle.nm_topology.specs.Fault.{Gives};
ghost use Rattle.nm_topology.specs.Resolve.{IsNumbered, resolved, resolved_by};

use crate::fault::TopoFault;
use crate::names::Names;
use crate::parse::sources::SourceTable;
use crate::parse::tables::{IfaceTable, LinkTable, NodeTable, RouteTable};
use crate::parts::{Link, PlacedRoute};
use crate::traffic::Source;
use nm_base::NodeNo;
use std::alloc::Global;
use std::marker::Model;

pub mod tables;

/// The owner of each interface, the links, the routes and the sources.
#[derive(Drop)]
pub struct Resolved {
    pub owners: Vec<NodeNo>,
    pub links: Vec<Link>,
    pub routes: Vec<PlacedRoute>,
    pub sources: Vec<Source>,
}

impl Model for Resolved {
    ghost use Rattle.nm_topology.specs.ResolvedValue.{ResolvedValue};

    ghost Value = { ResolvedValue };

    ghost view = { λ n. record {
      owners = n.owners.items;
      links = n.links.items;
      routes = n.routes.items;
      sources = n.sources.items;
    } };
}

/// The tables, with numbers in place of these names.
#[tactic(auto, unfolding(crate::specs::Resolve::resolved_by))]
fn resolve_by(
    alloc: Global,
    node_names: &Names,
    iface_names: &Names,
    ifaces: &[IfaceTable],
    links: &[LinkTable],
    routes: &[RouteTable],
    sources: Vec<SourceTable>,
) -> Result<Resolved, TopoFault>
    requires { length iface_names.now ≡ length ifaces.now }
    ensures numbered { IfOk result
        (λ n. IsNumbered (length node_names.now) (length ifaces.now) (length links.now)
        (length sources.items) n) }
    ensures value { Gives (λ n. n) result
        (resolved_by node_names.now iface_names.now ifaces.now links.now routes.now sources.items) }
{
    let owners = tables::owners(alloc, node_names, ifaces)?;
    let links = tables::links(alloc, iface_names, links)?;
    let routes = tables::routes(alloc, node_names, iface_names, &owners, routes)?;
    let sources = tables::sources(alloc, node_names, iface_names, &owners, sources)?;
    Ok(Resolved {
        owners,
        links,
        routes,
        sources,
    })
}

/// The tables, with numbers in place of names.
#[tactic(auto, unfolding(crate::specs::Resolve::resolved))]
pub fn resolve(
    alloc: Global,
    nodes: &[NodeTable],
    ifaces: &[IfaceTable],
    links: &[LinkTable],
    routes: &[RouteTable],
    sources: Vec<SourceTable>,
) -> Result<Resolved, TopoFault>
    requires nodes { length nodes.now ≤ MAX_IFACES }
    requires ifaces { length ifaces.now ≤ MAX_IFACES }
    ensures numbered { IfOk result
        (λ n. IsNumbered (length nodes.now) (length ifaces.now) (length links.now)
        (length sources.items) n) }
    ensures value { Gives (λ n. n) result
        (resolved nodes.now ifaces.now links.now routes.now sources.items) }
{
    let node_names = Names::of_all(alloc, nodes)?;
    let iface_names = Names::of_all(alloc, ifaces)?;
    resolve_by(
        alloc,
        &node_names,
        &iface_names,
        ifaces,
        links,
        routes,
        sources,
    )
}
