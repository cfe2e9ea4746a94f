//! The routes of all nodes, laid out for look-ups.

ghost use Rattle.std.specs.Prelude.{◌≡◌, IfOk, List, map, Some, slice_get};
ghost use Rattle.nm_forward.specs.Routes.{route_of};
ghost use Rattle.nm_topology.specs.declared.parts.Route.{Route};
ghost use Rattle.nm_paths.specs.Walks.{routes_of_all};

use nm_base::{IfaceNo, NodeNo};
use nm_forward::Routes;
use nm_packet::Address;
use nm_topology::Topology;
use nm_topology::parts::Node;
use std::alloc::{AllocError, Global};
use std::marker::Model;

/// The routes of each node, laid out once for many walks. A clause sees the list of each.
#[derive(Drop)]
pub struct Tables {
    nodes: Vec<Routes>,
}

impl Model for Tables {
    ghost use Rattle.std.specs.Prelude.{List};
    ghost use Rattle.nm_topology.specs.declared.parts.Route.{Route};

    ghost Value = { List (List Route) };

    ghost view = { λ t. t.nodes.items };
}

/// The routes of each of these nodes.
fn routes_of(alloc: Global, nodes: &[Node]) -> Result<Vec<Routes>, AllocError>
    ensures { IfOk result (λ v. v.items ≡ map (λ n. n.routes) nodes.now) }
{
    let mut all = Vec::new(alloc);
    for node in nodes {
        all.push(Routes::of(alloc, node.routes())?)?;
    }
    Ok(all)
}

impl Tables {
    /// The routes of all nodes of a topology.
    pub fn new(alloc: Global, topology: &Topology) -> Result<Self, AllocError>
        ensures { IfOk result (λ t. t ≡ routes_of_all topology.now) }
    {
        let nodes = routes_of(alloc, topology.nodes())?;
        Ok(Tables { nodes })
    }

    /// The interface by which the longest route of a node to an address leads.
    pub(crate) fn look(&self, node: NodeNo, address: Address) -> Option<IfaceNo>
        ensures there { (routes : List Route) → slice_get self.now node ≡ Some routes
            → result ≡ route_of routes address }
    {
        let routes = self.nodes.get(node.index())?;
        routes.look(address)
    }
}
