//! The tests of a topology with numbers in place of names.

ghost use Rattle.std.specs.Prelude.{◌≡◌, ℕ, ◌<◌, ◌≤◌, ◌==◌, All, length, map, min, slice_index};
ghost use Rattle.std.specs.Prelude.{nat_eq, nat_le, not, IfOk};
ghost use Rattle.std.specs.List.{list_all, list_any};
ghost use Rattle.nm_base.specs.declared.limits.TheConstants.{MAX_CHANNELS, MAX_ROUTES_OF_NODE};
ghost use Rattle.nm_topology.specs.declared.fault.Refusal.TheVariants.{IfaceUse, DoubleAddress};
ghost use Rattle.nm_topology.specs.declared.fault.Refusal.TheVariants.{DoubleRoute, TooMany};
ghost use Rattle.nm_topology.specs.declared.fault.Refusal.TheVariants.{CutDelay};
ghost use Rattle.nm_topology.specs.Fault.{Gives, demand};
ghost use Rattle.nm_topology.specs.Names.{has_double};
ghost use Rattle.nm_topology.specs.Validate.{are_used_once, bump, uses, route_key, same_route};
ghost use Rattle.nm_topology.specs.Validate.{is_undelayed_cut};

use crate::build::partitions::part_of;
use crate::fault::{Refusal, TopoFault};
use crate::names::distinct;
use crate::parse::tables::IfaceTable;
use crate::parts::{Link, NodeRoutes, PlacedRoute};
use nm_base::limits::{MAX_CHANNELS, MAX_ROUTES_OF_NODE};
use nm_base::{IfaceNo, NodeNo, PartNo};
use std::alloc::{AllocError, Global};

/// The address of each interface.
pub fn addresses_of(alloc: Global, tables: &[IfaceTable]) -> Result<Vec<u32>, AllocError>
    ensures { IfOk result (λ v. v.items ≡ map (λ i. i.address) tables.now) }
{
    tables
        .iter()
        .map(|table| table.address.bits())
        .collect(alloc)
}

/// Refuses two interfaces with one address.
pub fn check_addresses(alloc: Global, tables: &[IfaceTable]) -> Result<(), TopoFault>
    ensures { Gives (λ u. u) result
        (demand (not (has_double nat_eq (map (λ i. i.address) tables.now))) DoubleAddress) }
{
    let addresses = addresses_of(alloc, tables)?;
    match distinct(alloc, &addresses)? {
        Some(_) => Ok(()),
        None => Err(TopoFault::Refused(Refusal::DoubleAddress)),
    }
}

/// The node and the prefix of each route.
pub fn route_keys(alloc: Global, routes: &[PlacedRoute]) -> Result<Vec<(u32, u32, u8)>, AllocError>
    ensures { IfOk result (λ v. v.items ≡ map route_key routes.now) }
{
    routes
        .iter()
        .map(|r| (
            r.node.number(),
            r.route.to.address.bits(),
            r.route.to.length,
        ))
        .collect(alloc)
}

/// Refuses two routes of one node with one prefix.
pub fn check_routes(alloc: Global, routes: &[PlacedRoute]) -> Result<(), TopoFault>
    ensures { Gives (λ u. u) result (demand (not (has_double same_route routes.now)) DoubleRoute) }
{
    let keys = route_keys(alloc, routes)?;
    match distinct(alloc, &keys)? {
        Some(_) => Ok(()),
        None => Err(TopoFault::Refused(Refusal::DoubleRoute)),
    }
}

/// Counts one end of a link more for an interface, up to 255.
fn count_use(uses: &mut Vec<u8>, iface: IfaceNo)
    requires { iface < length uses.old.items }
    ensures { uses.new.items ≡ bump uses.old.items iface }
{
    let place = iface.index();
    uses[place] = uses[place].saturating_add(1);
}

/// How many ends of links each of `count` interfaces is, up to 255.
fn uses_of(alloc: Global, count: usize, links: &[Link]) -> Result<Vec<u8>, AllocError>
    requires { All (λ l. (l.a < count) × (l.b < count)) links.now }
    ensures len { IfOk result (λ v. length v.items ≡ count) }
    ensures value { IfOk result
        (λ v. (i : ℕ) → i < count → min 255 (slice_index v.items i) ≡ min 255 (uses i links.now)) }
{
    let mut uses = vec![in alloc; 0u8; count]?;
    for link in links {
        count_use(&mut uses, link.a);
        count_use(&mut uses, link.b);
    }
    Ok(uses)
}

fn are_ones(uses: &[u8]) -> bool
    ensures { result ≡ list_all (λ u. u == 1) uses.now }
{
    uses.iter().all(|u| *u == 1)
}

/// Refuses an interface that is not exactly one end of one link.
pub fn check_uses(alloc: Global, count: usize, links: &[Link]) -> Result<(), TopoFault>
    requires { All (λ l. (l.a < count) × (l.b < count)) links.now }
    ensures { Gives (λ u. u) result (demand (are_used_once count links.now) IfaceUse) }
{
    let uses = uses_of(alloc, count, links)?;
    if are_ones(&uses) {
        Ok(())
    } else {
        Err(TopoFault::Refused(Refusal::IfaceUse))
    }
}

/// Refuses a node with too many routes.
pub fn check_route_counts(node_routes: &[NodeRoutes]) -> Result<(), TopoFault>
    ensures { Gives (λ u. u) result
        (demand (list_all (λ t. nat_le (length t) MAX_ROUTES_OF_NODE) node_routes.now) TooMany) }
{
    for routes in node_routes {
        if routes.as_slice().len() > MAX_ROUTES_OF_NODE {
            return Err(TopoFault::Refused(Refusal::TooMany));
        }
    }
    Ok(())
}

/// Refuses too many channels.
pub fn check_channels(receivers: &[IfaceNo]) -> Result<(), TopoFault>
    ensures few { IfOk result (λ _. length receivers.now ≤ MAX_CHANNELS) }
    ensures value { Gives (λ u. u) result
        (demand (nat_le (length receivers.now) MAX_CHANNELS) TooMany) }
{
    if receivers.len() > MAX_CHANNELS {
        return Err(TopoFault::Refused(Refusal::TooMany));
    }
    Ok(())
}

fn is_undelayed_cut(parts: &[PartNo], owners: &[NodeNo], link: Link) -> bool
    requires ends { (link.a < length owners.now) × (link.b < length owners.now) }
    requires owners { All (λ n. n < length parts.now) owners.now }
    ensures { result ≡ is_undelayed_cut parts.now owners.now link }
{
    link.delay == 0 && part_of(parts, owners, link.a) != part_of(parts, owners, link.b)
}

/// Refuses a link between partitions that delays by nothing.
pub fn check_cuts(parts: &[PartNo], owners: &[NodeNo], links: &[Link]) -> Result<(), TopoFault>
    requires ends { All (λ l. (l.a < length owners.now) × (l.b < length owners.now)) links.now }
    requires owners { All (λ n. n < length parts.now) owners.now }
    ensures { Gives (λ u. u) result
        (demand (not (list_any (is_undelayed_cut parts.now owners.now) links.now)) CutDelay) }
{
    for link in links {
        if is_undelayed_cut(parts, owners, *link) {
            return Err(TopoFault::Refused(Refusal::CutDelay));
        }
    }
    Ok(())
}
