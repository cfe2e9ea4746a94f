//! The routes of a node.

ghost use Rattle.std.specs.Prelude.{◌≡◌, ◌≤◌, ◌<◌, ◌++◌, ◌∷◌, [], List, length, OnOk, IfOk};
ghost use Rattle.nm_topology.specs.declared.parts.Route.{Route};
ghost use Rattle.nm_forward.specs.Routes.{IsLaidOut, prefix_key, route_of};
ghost use Rattle.nm_forward.specs.State.{table_of};

use nm_base::{IfaceNo, NodeNo};
use nm_packet::Address;
use nm_topology::Topology;
use nm_topology::parts::Route;
use std::alloc::{AllocError, Global};
use std::collections::HashMap;
use std::marker::Model;

/// How many lengths a prefix may have: 0 to 32 bits.
const LENGTHS: usize = 33;

/// The first bits of an address, and how many they are: the key of each prefix that has so many
/// bits and holds the address.
#[derive(Clone, Copy, PartialEq, Eq, Hash)]
struct PrefixKey {
    length: u8,
    network: u32,
}

/// The routes of a node, laid out so that a look-up goes over lengths of prefixes and not over
/// routes. A clause sees the list of routes.
#[derive(Drop)]
pub struct Routes {
    /// In the order in which they were given.
    routes: Vec<Route>,
    /// Whether a prefix has so many bits.
    occurs: [bool; LENGTHS],
    /// The interface of the first route to a prefix, by the prefix's key.
    vias: HashMap<PrefixKey, IfaceNo>,
}

impl Model for Routes {
    ghost use Rattle.std.specs.Prelude.{List};
    ghost use Rattle.nm_topology.specs.declared.parts.Route.{Route};
    ghost use Rattle.nm_forward.specs.Routes.{IsLaidOut};

    ghost Value = { List Route };

    ghost view = { λ t. t.routes.items };

    ghost invariant = { λ t. IsLaidOut t.routes.items t.occurs t.vias };
}

/// The key of the prefix that has so many bits and holds the address.
fn prefix_key(length: u8, address: Address) -> PrefixKey
    requires { length ≤ 32 }
    ensures { result ≡ prefix_key length address }
{
    let network = u64::from(address.bits()) >> (32 - length);
    PrefixKey {
        length,
        network: network as u32,
    }
}

/// Lays out one more route.
fn lay_out(
    occurs: &mut [bool],
    vias: &mut HashMap<PrefixKey, IfaceNo>,
    route: &Route,
) -> Result<(), AllocError>
    requires { length occurs.old ≡ 33 }
    ensures { (routes : List Route) → IsLaidOut routes occurs.old vias.old
        → OnOk result (IsLaidOut (routes ++ route.now ∷ []) occurs.new vias.new) }
{
    let length = route.to.length;
    if usize::from(length) >= LENGTHS {
        return Ok(());
    }
    occurs[usize::from(length)] = true;
    let key = prefix_key(length, route.to.address);
    if !vias.contains_key(&key) {
        vias.insert(key, route.via)?;
    }
    Ok(())
}

impl Routes {
    /// The routes of this node.
    #[tactic(auto, unfolding(crate::specs::State::table_of))]
    pub fn new(alloc: Global, topology: &Topology, node: NodeNo) -> Result<Self, AllocError>
        requires { node < length topology.now.nodes }
        ensures { IfOk result (λ t. t ≡ (table_of topology.now node).routes) }
    {
        Self::of(alloc, topology.node(node).routes())
    }

    /// Lays out these routes. Of two routes with one prefix the first counts.
    pub fn of(alloc: Global, routes: &[Route]) -> Result<Self, AllocError>
        ensures { IfOk result (λ t. t ≡ routes.now) }
    {
        let mut occurs = [false; LENGTHS];
        let mut vias = HashMap::new(alloc);
        for route in routes {
            lay_out(&mut occurs, &mut vias, route)?;
        }
        Ok(Routes {
            routes: Vec::from_slice(alloc, routes)?,
            occurs,
            vias,
        })
    }

    /// The interface of the route with the longest prefix that holds the address (RFC 1812, section
    /// 5.2.4.3). It takes no memory.
    pub fn look(&self, address: Address) -> Option<IfaceNo>
        ensures { result ≡ route_of self.now address }
    {
        for length in (0..LENGTHS as u8).rev() {
            if !self.occurs[usize::from(length)] {
                continue;
            }
            if let Some(via) = self.vias.get(&prefix_key(length, address)) {
                return Some(*via);
            }
        }
        None
    }
}
