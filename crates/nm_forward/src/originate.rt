//! What a node sends of its own accord: packets of its sources, errors and echo replies.

ghost use Rattle.std.specs.Prelude.{◌≡◌, ◌≤◌, IfOk, length};
ghost use Rattle.nm_packet.specs.declared.limits.TheConstants.{MAX_PAYLOAD};
ghost use Rattle.nm_packet.specs.Ipv4.{fields_of};
ghost use Rattle.nm_forward.specs.Originate.{FitsPacket, error_of, is_error_message, is_quiet};
ghost use Rattle.nm_forward.specs.Originate.{originate, packet_written, protocol_of, reply_of};
ghost use Rattle.nm_forward.specs.Prepared.{body_of, consequence, draft_of};

use crate::counter::Counter;
use crate::node::NodeView;
use crate::prepared::{Body, Draft, Prepared};
use nm_base::{Packet, Twin};
use nm_packet::icmp::{
    DESTINATION_UNREACHABLE, ECHO_CODE, ECHO_REPLY, PARAMETER_PROBLEM, REDIRECT, SOURCE_QUENCH,
    TIME_EXCEEDED,
};
use nm_packet::{Icmp, IcmpView, Ipv4Header, Ipv4View, MessageKind, Udp, icmp, quote, write_ipv4};
use nm_topology::topology::accepted_topologies_are_in_order;
use std::alloc::{AllocError, Global};

/// The time to live of errors and replies.
const TIME_TO_LIVE: u8 = 64;

/// The packet with this header and this payload.
fn write(alloc: Global, header: &Ipv4Header, body: &Body<'_>) -> Result<Packet, AllocError>
    requires { FitsPacket (body_of body.now) }
    ensures { IfOk result (λ p. p ≡ packet_written header.now (body_of body.now)) }
{
    match *body {
        Body::Datagram { ports, data } => Udp::write_packet(alloc, header, ports, data),
        Body::Message { kind, rest, data } => {
            Icmp::write_packet(alloc, header, kind, rest, data)
        }
        Body::Whole(octets) => write_ipv4(alloc, header, octets),
    }
}

/// Prepares to originate a packet: not to an address of the node itself, and only along a route. It
/// leaves by the route's interface.
#[tactic(auto, unfolding(crate::specs::Originate::originate))]
pub fn originate(
    alloc: Global,
    node: NodeView<'_>,
    draft: &Draft<'_>,
) -> Result<Prepared, AllocError>
    requires { FitsPacket (body_of draft.now.body) }
    ensures { let state = node.entry.state.now in IfOk result (λ p. consequence p
        ≡ originate node.entry.topology.now.ifaces state.table state.identification
        (draft_of draft.now)) }
{
    let NodeView { topology, state } = node;
    if state.is_own(draft.destination) {
        return Ok(Prepared::Counts(Counter::ToSelf));
    }
    let Some(via) = state.look(draft.destination) else {
        return Ok(Prepared::Counts(Counter::NoRoute));
    };
    accepted_topologies_are_in_order(topology); // law: the interface of a route is there
    let address = topology.iface(via).address();
    let header = Ipv4Header {
        type_of_service: 0,
        identification: state.identification(),
        time_to_live: draft.time_to_live,
        protocol: draft.body.protocol(),
        source: draft.source.unwrap_or(address),
        destination: draft.destination,
    };
    let packet = write(alloc, &header, &draft.body)?;
    Ok(Prepared::Originates(via, Twin::new(packet)?))
}

/// Whether an ICMP payload is a message about which no error is sent: destination unreachable,
/// source quench, redirect, time exceeded or parameter problem (RFC 792), or nothing. Its checksum
/// is not tested.
fn is_error_message(payload: &[u8]) -> bool
    ensures { result ≡ is_error_message payload.now }
{
    match payload {
        [] => true,
        [message_type, ..] => matches!(
            *message_type,
            DESTINATION_UNREACHABLE | SOURCE_QUENCH | REDIRECT | TIME_EXCEEDED | PARAMETER_PROBLEM
        ),
    }
}

/// Whether no error is sent about the packet (RFC 1812, section 4.3.2.7): it is a later fragment,
/// it comes from a martian, or it is an error itself.
fn is_quiet(packet: &Ipv4View<'_>) -> bool
    ensures { result ≡ is_quiet packet.now }
{
    packet.fragment_offset() != 0
        || packet.source().is_martian()
        || (packet.protocol() == icmp::PROTOCOL && is_error_message(packet.payload()))
}

/// Prepares the ICMP error of this kind about the packet (RFC 792), or to stay quiet.
#[tactic(auto, unfolding(crate::specs::Originate::error_of))]
pub fn error(
    alloc: Global,
    node: NodeView<'_>,
    packet: &Ipv4View<'_>,
    kind: MessageKind,
) -> Result<Prepared, AllocError>
    ensures { let state = node.entry.state.now in IfOk result (λ p. consequence p
        ≡ error_of node.entry.topology.now.ifaces state.table state.identification packet.now
        kind) }
{
    if is_quiet(packet) {
        return Ok(Prepared::Counts(Counter::Quiet));
    }
    let quoted = quote(alloc, packet)?;
    let error = Draft {
        source: None,
        destination: packet.source(),
        time_to_live: TIME_TO_LIVE,
        body: Body::Message {
            kind,
            rest: [0; 4],
            data: &quoted,
        },
    };
    originate(alloc, node, &error)
}

/// Prepares the reply to an echo request (RFC 792), or to stay quiet.
#[tactic(auto, unfolding(crate::specs::Originate::reply_of))]
pub fn reply(
    alloc: Global,
    node: NodeView<'_>,
    packet: &Ipv4View<'_>,
    request: &IcmpView<'_>,
) -> Result<Prepared, AllocError>
    requires { length request.now ≤ MAX_PAYLOAD }
    ensures { let state = node.entry.state.now in IfOk result (λ p. consequence p
        ≡ reply_of node.entry.topology.now.ifaces state.table state.identification
        (fields_of packet.now) request.now) }
{
    if packet.source().is_martian() {
        return Ok(Prepared::Counts(Counter::Quiet));
    }
    let reply = Draft {
        source: Some(packet.destination()),
        destination: packet.source(),
        time_to_live: TIME_TO_LIVE,
        body: Body::Message {
            kind: MessageKind {
                message_type: ECHO_REPLY,
                code: ECHO_CODE,
            },
            rest: request.rest(),
            data: request.data(),
        },
    };
    originate(alloc, node, &reply)
}
