//! What a node did with a packet that arrived, and why it sent none that a source made.

ghost use Rattle.std.specs.Prelude.{◌≡◌, ℕ, ◌==◌, ◌&&◌, List, None, Some, slice_get};
ghost use Rattle.std.specs.List.{list_any};
ghost use Rattle.nm_base.specs.declared.event.Origin.TheVariants.{Source as FromSource};
ghost use Rattle.nm_forward.specs.Reaction.{reaction};
ghost use Rattle.nm_forward.specs.State.{NodeStateValue, is_own, state_counted, table_of};
ghost use Rattle.nm_measure.specs.Ways.{fate_by, unsent_by};

use nm_base::NodeNo;
use nm_forward::Counter;
use nm_packet::Address;
use nm_topology::Topology;
use nm_topology::parts::Iface;
use nm_topology::traffic::{Source, Traffic};

/// What a node did with a packet that arrived.
#[derive(Clone, Copy, Drop)]
pub(crate) enum Fate {
    /// It is forwarded.
    SentOn,
    /// A datagram to an open port.
    Delivered,
    /// An echo request to this node.
    Requested,
    /// Another ICMP message to this node.
    Told,
    /// To this node, and nothing takes it: a closed port, or an unknown protocol.
    Refused,
    /// It breaks a rule, on the way or at its end.
    Discarded,
}

/// What a node did with a packet, by the counter that rose when it arrived.
pub(crate) fn fate_of(counter: Counter) -> Fate
    ensures { result ≡ fate_by counter }
{
    match counter {
        Counter::Forwarded => Fate::SentOn,
        Counter::Udp => Fate::Delivered,
        Counter::Echo => Fate::Requested,
        Counter::Icmp => Fate::Told,
        Counter::Port | Counter::Proto => Fate::Refused,
        _ => Fate::Discarded,
    }
}

/// Whether one of these interfaces is the node's and has the address.
fn has_address(ifaces: &[Iface], node: NodeNo, address: Address) -> bool
    ensures { result ≡ list_any (λ i. (i.node == node) && (i.address == address)) ifaces.now }
{
    ifaces
        .iter()
        .any(|iface| iface.node() == node && iface.address() == address)
}

/// Whether the address is one of a node's own.
fn is_own(topology: &Topology, node: NodeNo, address: Address) -> bool
    ensures { result ≡ is_own (table_of topology.now node) address }
{
    match topology.nodes().get(node.index()) {
        Some(_) => has_address(topology.ifaces(), node, address),
        None => false,
    }
}

/// The counter that rises where a source's node does not send what the source makes: that goes to
/// an address of the node itself, or no route leads there.
fn unsent_counter(topology: &Topology, source: &Source) -> Counter
    ensures { result ≡ unsent_by (table_of topology.now source.now.node) source.now.traffic }
{
    let to = match &source.traffic {
        Traffic::Cbr(cbr) => cbr.to,
        Traffic::Echo(echo) => echo.to,
        Traffic::Raw(_) => return Counter::NoRoute, // it is always sent
    };
    if is_own(topology, source.node, to) {
        Counter::ToSelf
    } else {
        Counter::NoRoute
    }
}

/// Why a source's node did not send what the source made.
pub(crate) fn unsent_by(topology: &Topology, source: &Source) -> Counter
    ensures is { result ≡ unsent_by (table_of topology.now source.now.node) source.now.traffic }
    ensures counted { (j : ℕ) (state : NodeStateValue) (packet : List ℕ)
        → slice_get topology.now.sources j ≡ Some source.now
        → (reaction topology.now source.now.node state (FromSource j) packet).1 ≡ None
        → (reaction topology.now source.now.node state (FromSource j) packet).0
        ≡ state_counted result state }
{
    unsent_counter(topology, source)
}
