//! The tests of the whole, in their order.

ghost use Rattle.std.specs.Prelude.{◌≡◌, ◌≤◌, ◌<◌, map, length, All, IfOk};
ghost use Rattle.nm_base.specs.declared.limits.TheConstants.{MAX_CHANNELS};
ghost use Rattle.nm_topology.specs.Build.{far_ends, receivers_of, routes_of_nodes};
ghost use Rattle.nm_topology.specs.Fault.{Gives};
ghost use Rattle.nm_topology.specs.Validate.{tested};

use crate::build::Wired;
use crate::fault::TopoFault;
use crate::parse::tables::IfaceTable;
use crate::resolve::Resolved;
use crate::validate::checks::{
    check_addresses, check_channels, check_cuts, check_route_counts, check_routes, check_uses,
};
use nm_base::PartNo;
use std::alloc::Global;

pub mod checks;

/// Tests the whole, in the order of docs/FORMATS.md: nodes in these partitions, these interfaces,
/// what their names resolved to and the wiring. Names are tested where they are resolved.
pub fn validate(
    alloc: Global,
    parts: &[PartNo],
    ifaces: &[IfaceTable],
    resolved: &Resolved,
    wired: &Wired,
) -> Result<(), TopoFault>
    // What the names resolved to is there, and the wiring is of it.
    requires owners { (length resolved.now.owners ≡ length ifaces.now)
        × All (λ o. o < length parts.now) resolved.now.owners }
    requires links { All (λ l. (l.a < length ifaces.now) × (l.b < length ifaces.now))
        resolved.now.links }
    requires node_routes { wired.now.node_routes.items
        ≡ routes_of_nodes (length parts.now) resolved.now.routes }
    requires receivers { wired.now.receivers.items
        ≡ receivers_of parts.now resolved.now.owners
        (far_ends (length ifaces.now) resolved.now.links) }

    // The tests of the whole decide.
    ensures few { IfOk result (λ _. length wired.now.receivers.items ≤ MAX_CHANNELS) }
    ensures tested { Gives (λ u. u) result (tested parts.now (map (λ i. i.address) ifaces.now)
        (length parts.now) (length ifaces.now) resolved.now) }
{
    check_uses(alloc, ifaces.len(), &resolved.links)?;
    check_addresses(alloc, ifaces)?;
    check_routes(alloc, &resolved.routes)?;
    check_route_counts(&wired.node_routes)?;
    check_channels(&wired.receivers)?;
    check_cuts(parts, &resolved.owners, &resolved.links)
}
