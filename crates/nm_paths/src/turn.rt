//! What a node does with a packet to an address.

ghost use Rattle.std.specs.Prelude.{◌≡◌};
ghost use Rattle.nm_forward.specs.Row.{transit_row};
ghost use Rattle.nm_paths.specs.Walks.{route_turn, row_turn};

use nm_base::IfaceNo;
use nm_topology::NodeKind;

/// What ends the way of a packet.
#[derive(Clone, Copy, PartialEq, Eq)]
pub enum WalkEnd {
    /// The node has the destination's address.
    Arrived,
    /// The node is a host, and the packet is for another.
    Host,
    /// The node has no route there.
    NoRoute,
    /// The time to live is over.
    Expired,
}

/// What a node does with a packet.
#[derive(Clone, Copy)]
pub enum Turn {
    /// The packet's way ends here.
    Stops(WalkEnd),
    /// It leaves by this interface.
    Leaves(IfaceNo),
}

/// What a node of this kind does with a packet in transit, to which this route leads.
pub(crate) fn transit_turn(kind: NodeKind, route: Option<IfaceNo>, time_to_live: u8) -> Turn
    ensures { result ≡ row_turn (transit_row kind route time_to_live) }
{
    match (kind, route) {
        (NodeKind::Host, _) => Turn::Stops(WalkEnd::Host),
        (NodeKind::Router, None) => Turn::Stops(WalkEnd::NoRoute),
        (NodeKind::Router, Some(_)) if time_to_live <= 1 => Turn::Stops(WalkEnd::Expired),
        (NodeKind::Router, Some(via)) => Turn::Leaves(via),
    }
}

/// What a node does with a packet of its own, to which this route leads.
pub(crate) fn route_turn(route: Option<IfaceNo>) -> Turn
    ensures { result ≡ route_turn route }
{
    match route {
        None => Turn::Stops(WalkEnd::NoRoute),
        Some(via) => Turn::Leaves(via),
    }
}
