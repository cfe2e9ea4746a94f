//! The wiring: the far end of each interface, the routes of each node.

ghost use Rattle.std.specs.Prelude.{◌≡◌, ℕ, ◌<◌, ◌≤◌, [], Some, All, length, slice_get};
ghost use Rattle.std.specs.Prelude.{slice_index_or, filter, IfOk};
ghost use Rattle.nm_base.specs.declared.limits.TheConstants.{MAX_IFACES};
ghost use Rattle.nm_topology.specs.Build.{far_by_links, far_ends, routes_of_nodes, joined};
ghost use Rattle.nm_topology.specs.Build.{is_receiver, numbers_from};

use crate::build::partitions::part_of;
use crate::parts::{Far, Link, NodeRoutes, PlacedRoute};
use nm_base::{IfaceNo, NodeNo, PartNo};
use std::alloc::{AllocError, Global};

/// `count` interfaces that are linked to nothing but themselves.
fn unlinked(alloc: Global, count: usize) -> Result<Vec<Far>, AllocError>
    requires { count ≤ MAX_IFACES }
    ensures len { IfOk result (λ v. length v.items ≡ count) }
    ensures within { IfOk result (λ v. All (λ f. f.iface < count) v.items) }
    ensures value { IfOk result
        (λ v. (i : ℕ) → i < count → slice_get v.items i ≡ Some (far_by_links i [])) }
{
    let mut far = Vec::new(alloc);
    for i in 0..count {
        far.push(Far {
            iface: IfaceNo::new(i as u32),
            rate: 0,
            delay: 0,
        })?;
    }
    Ok(far)
}

/// Makes the two ends of a link each other's.
fn join(far: &mut Vec<Far>, link: Link)
    requires { (link.a < length far.old.items) × (link.b < length far.old.items) }
    ensures { far.new.items ≡ joined far.old.items link }
{
    far[link.b.index()] = Far {
        iface: link.a,
        rate: link.rate,
        delay: link.delay,
    };
    far[link.a.index()] = Far {
        iface: link.b,
        rate: link.rate,
        delay: link.delay,
    };
}

/// The far end of each of `count` interfaces.
pub fn far_ends(alloc: Global, count: usize, links: &[Link]) -> Result<Vec<Far>, AllocError>
    // The links join interfaces that are there.
    requires count { count ≤ MAX_IFACES }
    requires ends { All (λ l. (l.a < count) × (l.b < count)) links.now }

    // The far ends, place by place and as a list.
    ensures len { IfOk result (λ v. length v.items ≡ count) }
    ensures within { IfOk result (λ v. All (λ f. f.iface < count) v.items) }
    ensures value { IfOk result
        (λ v. (i : ℕ) → i < count → slice_get v.items i ≡ Some (far_by_links i links.now)) }
    ensures list { IfOk result (λ v. v.items ≡ far_ends count links.now) }
{
    let mut far = unlinked(alloc, count)?;
    let mut next = links.len();
    while next > 0 {
        next -= 1;
        join(&mut far, links[next]);
    }
    Ok(far)
}

/// No routes for each of `count` nodes.
fn no_routes(alloc: Global, count: usize) -> Result<Vec<NodeRoutes>, AllocError>
    ensures len { IfOk result (λ v. length v.items ≡ count) }
    ensures value { IfOk result (λ v. (j : ℕ) → slice_index_or v.items j [] ≡ []) }
{
    let mut node_routes = Vec::new(alloc);
    for _ in 0..count {
        node_routes.push(NodeRoutes::new(alloc))?;
    }
    Ok(node_routes)
}

/// The routes of each of `count` nodes, in the order of the text.
pub fn routes_of_nodes(
    alloc: Global,
    count: usize,
    routes: &[PlacedRoute],
) -> Result<Vec<NodeRoutes>, AllocError>
    requires { All (λ r. r.node < count) routes.now }
    ensures len { IfOk result (λ v. length v.items ≡ count) }
    ensures list { IfOk result (λ v. v.items ≡ routes_of_nodes count routes.now) }
{
    let mut node_routes = no_routes(alloc, count)?;
    for placed in routes {
        let own = &mut node_routes[placed.node.index()];
        own.push(placed.route)?;
    }
    Ok(node_routes)
}

fn is_receiver(parts: &[PartNo], owners: &[NodeNo], far: &[Far], iface: IfaceNo) -> bool
    requires iface { iface < length far.now }
    requires far { All (λ f. f.iface < length owners.now) far.now }
    requires len { length far.now ≡ length owners.now }
    requires owners { All (λ n. n < length parts.now) owners.now }
    ensures { result ≡ is_receiver parts.now owners.now far.now iface }
{
    let far_end = far[iface.index()].iface;
    part_of(parts, owners, iface) != part_of(parts, owners, far_end)
}

/// The interfaces that receive a channel, in the order of their numbers.
pub fn receivers(
    alloc: Global,
    parts: &[PartNo],
    owners: &[NodeNo],
    far: &[Far],
) -> Result<Vec<IfaceNo>, AllocError>
    requires count { length far.now ≤ MAX_IFACES }
    requires far { All (λ f. f.iface < length owners.now) far.now }
    requires len { length far.now ≡ length owners.now }
    requires owners { All (λ n. n < length parts.now) owners.now }
    ensures { IfOk result
        (λ v. v.items ≡ filter (is_receiver parts.now owners.now far.now)
        (numbers_from 0 (length far.now))) }
{
    let mut receivers = Vec::new(alloc);
    for number in 0..far.len() {
        let iface = IfaceNo::new(number as u32);
        if is_receiver(parts, owners, far, iface) {
            receivers.push(iface)?;
        }
    }
    Ok(receivers)
}
