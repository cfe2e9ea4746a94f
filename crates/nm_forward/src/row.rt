//! The table of what a node does with a packet that arrives: the rows, and which of them fits.

ghost use Rattle.std.specs.Prelude.{◌≡◌, ◌≤◌, ℕ, length};
ghost use Rattle.nm_packet.specs.declared.limits.TheConstants.{MAX_PAYLOAD};
ghost use Rattle.nm_packet.specs.Ipv4.{fields_of, payload_of};
ghost use Rattle.nm_forward.specs.Row.{IsPossible, icmp_row, is_fragment, local_row, packet_row};
ghost use Rattle.nm_forward.specs.Row.{row_counter, transit_row, udp_row};

use crate::counter::Counter;
use crate::state::NodeState;
use nm_base::IfaceNo;
use nm_packet::icmp::{ECHO_CODE, ECHO_REQUEST};
use nm_packet::{Icmp, IcmpView, Ipv4View, Udp, icmp, udp};
use nm_topology::NodeKind;

/// The rows, in the order in which they are tried.
#[derive(Drop)]
pub enum Row<'a> {
    /// The header test fails (RFC 791, section 3.1).
    BadHeader,
    /// To a martian.
    BadDestination,
    /// To another node, at a host.
    NotMine,
    /// To another node, at a router without a route there (RFC 1812, section 5.2.7.1).
    Unreachable,
    /// To another node, at a router, with a time to live of 0 or 1 (RFC 1812, section 5.3.1).
    Expired,
    /// To another node, to which a router's route leads by this interface.
    Forward(IfaceNo),
    /// To this node, a fragment (RFC 791, section 3.1).
    Fragment,
    /// To this node, ICMP, and its test fails (RFC 792).
    BadIcmp,
    /// To this node, an echo request.
    EchoRequest(IcmpView<'a>),
    /// To this node, another ICMP message.
    OtherIcmp,
    /// To this node, UDP, and its test fails (RFC 768).
    BadUdp,
    /// To this node, to a port at which something listens.
    Delivered,
    /// To this node, to another port.
    ClosedPort,
    /// To this node, another protocol.
    UnknownProtocol,
}

impl Row<'_> {
    /// The counter that rises.
    pub fn counter(&self) -> Counter
        ensures { result ≡ row_counter self.now }
    {
        match self {
            Row::BadHeader => Counter::Header,
            Row::BadDestination => Counter::BadDest,
            Row::NotMine => Counter::NotMine,
            Row::Unreachable => Counter::NoNet,
            Row::Expired => Counter::Ttl,
            Row::Forward(_) => Counter::Forwarded,
            Row::Fragment => Counter::Fragment,
            Row::BadIcmp => Counter::IcmpBad,
            Row::EchoRequest(_) => Counter::Echo,
            Row::OtherIcmp => Counter::Icmp,
            Row::BadUdp => Counter::UdpBad,
            Row::Delivered => Counter::Udp,
            Row::ClosedPort => Counter::Port,
            Row::UnknownProtocol => Counter::Proto,
        }
    }
}

/// The row of a packet that passed the header test.
#[tactic(auto, unfolding(crate::specs::Row::packet_row))]
#[inline(always)]
pub fn packet_row<'a>(state: &NodeState, packet: &Ipv4View<'a>) -> Row<'a>
    ensures row { result
        ≡ packet_row state.now.table (fields_of packet.now) (payload_of packet.now) }
    ensures possible { IsPossible result (fields_of packet.now).time_to_live }
{
    let destination = packet.destination();
    if destination.is_martian() {
        return Row::BadDestination;
    }
    if state.is_own(destination) {
        return local_row(state, packet);
    }
    transit_row(state.kind(), state.look(destination), packet.time_to_live())
}

/// The row of a packet for another node, to which this route leads. The time to live is tested
/// last.
#[inline(always)]
fn transit_row(kind: NodeKind, route: Option<IfaceNo>, time_to_live: u8) -> Row<'static>
    ensures row { result ≡ transit_row kind route time_to_live }
    ensures possible { IsPossible result time_to_live }
{
    match (kind, route) {
        (NodeKind::Host, _) => Row::NotMine,
        (NodeKind::Router, None) => Row::Unreachable,
        (NodeKind::Router, Some(_)) if time_to_live <= 1 => Row::Expired,
        (NodeKind::Router, Some(via)) => Row::Forward(via),
    }
}

/// The row of a packet for this node.
fn local_row<'a>(state: &NodeState, packet: &Ipv4View<'a>) -> Row<'a>
    ensures row { result
        ≡ local_row state.now.table (fields_of packet.now) (payload_of packet.now) }
    ensures possible { IsPossible result (fields_of packet.now).time_to_live }
{
    if packet.more_fragments() || packet.fragment_offset() != 0 {
        return Row::Fragment;
    }
    match packet.protocol() {
        icmp::PROTOCOL => icmp_row(packet.payload()),
        udp::PROTOCOL => udp_row(state, packet),
        _ => Row::UnknownProtocol,
    }
}

/// The row of an ICMP message for this node.
fn icmp_row(payload: &[u8]) -> Row<'_>
    requires { length payload.now ≤ MAX_PAYLOAD }
    ensures row { result ≡ icmp_row payload.now }
    ensures possible { (time_to_live : ℕ) → IsPossible result time_to_live }
{
    match Icmp::read(payload) {
        Err(_) => Row::BadIcmp,
        Ok(message) if message.message_type() == ECHO_REQUEST && message.code() == ECHO_CODE =>
            Row::EchoRequest(message),
        Ok(_) => Row::OtherIcmp,
    }
}

/// The row of a UDP datagram for this node.
fn udp_row<'a>(state: &NodeState, packet: &Ipv4View<'a>) -> Row<'a>
    ensures row { result ≡ udp_row state.now.table (fields_of packet.now) (payload_of packet.now) }
    ensures possible { IsPossible result (fields_of packet.now).time_to_live }
{
    match Udp::read(packet.source(), packet.destination(), packet.payload()) {
        Err(_) => Row::BadUdp,
        Ok(datagram) if state.listens(datagram.destination_port()) => Row::Delivered,
        Ok(_) => Row::ClosedPort,
    }
}
