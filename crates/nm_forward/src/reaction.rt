//! What a node does with a packet.

ghost use Rattle.std.specs.Prelude.{◌≡◌, ◌≤◌, ℕ, IfOk, IfSome, List, OnErr, Option, length};
ghost use Rattle.std.specs.Prelude.{slice_get};
ghost use Rattle.nm_base.specs.declared.limits.TheConstants.{MAX_PACKET_OCTETS};
ghost use Rattle.nm_iface.specs.PortValue.{IsRefusedAt, PortValue};
ghost use Rattle.nm_packet.specs.declared.limits.TheConstants.{MAX_PACKET_DATA};
ghost use Rattle.nm_packet.specs.Ipv4.{fields_of};
ghost use Rattle.nm_forward.specs.State.{Knows};
ghost use Rattle.nm_forward.specs.Row.{IsPossible};
ghost use Rattle.nm_forward.specs.Originate.{FitsPacket, concluded, consequence_of};
ghost use Rattle.nm_forward.specs.Prepared.{body_of, consequence, handed_on};
ghost use Rattle.nm_forward.specs.Reaction.{FitsOrigin, FitsSource, FitsHeaders};
ghost use Rattle.nm_forward.specs.Reacting.{IsReaction, IsSent, PassesNone, sent_of};
ghost use Rattle.nm_forward.specs.Reaction.{arrived, datagram_of, handed, handed_by};
ghost use Rattle.nm_forward.specs.Reaction.{followed, reaction};
ghost use Rattle.nm_forward.specs.declared.row.Row.TheVariants.{Forward};

use crate::counter::Counter;
use crate::node::NodeView;
use crate::originate::{error, originate, reply};
use crate::prepared::{Body, Draft, Handed, Prepared};
use crate::row::{Row, packet_row};
use crate::state::NodeState;
use nm_base::{IfaceNo, Origin, Packet, SourceNo, Twin};
use nm_iface::Port;
use nm_packet::icmp::{
    DESTINATION_UNREACHABLE, IN_TRANSIT, NETWORK_UNREACHABLE, PORT_UNREACHABLE,
    PROTOCOL_UNREACHABLE, TIME_EXCEEDED,
};
use nm_packet::{Ipv4, Ipv4View, MessageKind, Ports, lower_ttl};
use nm_topology::Topology;
use nm_topology::traffic::{Cbr, Traffic};
use std::alloc::{AllocError, Global};

/// The error without a route to the network (RFC 1812, section 5.2.7.1).
const NO_NETWORK: MessageKind = MessageKind {
    message_type: DESTINATION_UNREACHABLE,
    code: NETWORK_UNREACHABLE,
};

/// The error for an unknown protocol (RFC 792, page 4).
const NO_PROTOCOL: MessageKind = MessageKind {
    message_type: DESTINATION_UNREACHABLE,
    code: PROTOCOL_UNREACHABLE,
};

/// The error for a port at which nothing listens (RFC 792, page 4).
const NO_PORT: MessageKind = MessageKind {
    message_type: DESTINATION_UNREACHABLE,
    code: PORT_UNREACHABLE,
};

/// The error for a time to live that is over (RFC 1812, section 5.3.1).
const EXPIRED: MessageKind = MessageKind {
    message_type: TIME_EXCEEDED,
    code: IN_TRANSIT,
};

/// What a node sends: at most one packet, by one interface.
#[derive(Drop)]
pub enum Reaction {
    Nothing,
    Send(IfaceNo, Twin),
    /// The port of this interface drops the packet that would be sent on, so that its octets were
    /// not copied.
    Refused(IfaceNo),
    /// The packet that came is sent on, lowered where it lies. No record of the interface is
    /// wanted.
    Pass(IfaceNo, Packet),
}

/// What the node does with a packet from this origin, by docs/RULES.md. A packet that arrives is
/// looked at row by row; the data of a source are originated, or go by the source's interface as
/// they are. The octets of a packet that is sent on are copied once, and not at all if its port
/// would drop it now. `ports` are those of the interfaces by their numbers, as far as they are
/// here: they decide nothing else.
///
/// The state is that of a node of this topology. A `cbr` source gives its data, or one octet, which
/// is not sent, if it has none; an `echo` source its whole ICMP message; a `raw` source a packet.
/// They have to fit a packet: 65,507 octets of data, 65,515 of a message.
///
/// # Errors
///
/// If memory for the packet was refused. The state is as it was.
#[tactic(auto, unfolding(crate::specs::Reaction::reaction))]
#[inline(always)]
pub fn react(
    alloc: Global,
    topology: &Topology,
    ports: &[Option<Port>],
    state: &mut NodeState,
    origin: Origin,
    packet: &Packet,
) -> Result<Reaction, AllocError>
    requires table { Knows topology.now state.old }
    requires fits { FitsOrigin topology.now origin packet.now }
    ensures ok { IfOk result (λ r. IsReaction ports.now r state.new
        (reaction topology.now state.old.table.node state.old origin packet.now)) }
    ensures twins { IfOk result PassesNone }
    ensures kept { state.new.table ≡ state.old.table }
    ensures err { OnErr result (state.new ≡ state.old) }
{
    match origin {
        Origin::Arrival(_) => receive(alloc, topology, ports, state, packet),
        Origin::Source(source) => {
            let sent = hand_over(alloc, topology, state, source, packet)?;
            Ok(reaction_of(sent))
        }
    }
}

/// A packet that is sent, and by which interface, or nothing.
#[inline(always)]
fn reaction_of(sent: Option<(IfaceNo, Twin)>) -> Reaction
    ensures sent { (ports : List (Option PortValue)) → IsSent ports result (sent_of sent) }
    ensures twins { PassesNone result }
{
    match sent {
        Some((via, twin)) => Reaction::Send(via, twin),
        None => Reaction::Nothing,
    }
}

/// What the node does with a packet that arrives.
#[tactic(auto, unfolding(crate::specs::Reaction::arrived))]
#[inline(always)]
fn receive(
    alloc: Global,
    topology: &Topology,
    ports: &[Option<Port>],
    state: &mut NodeState,
    packet: &Packet,
) -> Result<Reaction, AllocError>
    requires { Knows topology.now state.old }
    ensures ok { IfOk result (λ r. IsReaction ports.now r state.new
        (arrived topology.now.ifaces state.old.table state.old packet.now)) }
    ensures twins { IfOk result PassesNone }
    ensures err { OnErr result (state.new ≡ state.old) }
{
    let Ok(view) = Ipv4::read(packet.octets()) else {
        state.count(Counter::Header);
        return Ok(Reaction::Nothing);
    };
    let row = packet_row(state, &view);
    follow(alloc, topology, ports, state, &view, &row)
}

/// What the node does with a packet of this row.
#[inline(always)]
pub(crate) fn follow(
    alloc: Global,
    topology: &Topology,
    ports: &[Option<Port>],
    state: &mut NodeState,
    packet: &Ipv4View<'_>,
    row: &Row<'_>,
) -> Result<Reaction, AllocError>
    requires table { Knows topology.now state.old }
    requires possible { IsPossible row.now (fields_of packet.now).time_to_live }
    ensures ok { IfOk result (λ r. IsReaction ports.now r state.new (followed
        topology.now.ifaces state.old.table state.old packet.now row.now)) }
    ensures twins { IfOk result PassesNone }
    ensures err { OnErr result (state.new ≡ state.old) }
{
    if let Some(via) = refused_at(ports, row, packet.octets().len()) {
        state.count(row.counter());
        return Ok(Reaction::Refused(via));
    }
    let node = NodeView { topology, state };
    let prepared = prepare_consequence(alloc, node, packet, row)?;
    state.count(row.counter());
    let sent = carry_out(state, prepared);
    Ok(reaction_of(sent))
}

/// The interface by which a packet of so many octets would be sent on, if its port would drop it
/// now.
#[inline(always)]
fn refused_at(ports: &[Option<Port>], row: &Row<'_>, octets: usize) -> Option<IfaceNo>
    requires { octets ≤ MAX_PACKET_OCTETS }
    ensures { IfSome result (λ via. (row.now ≡ Forward via)
        × ((x : List ℕ) → length x ≡ octets → IsRefusedAt ports.now via x)) }
{
    let Row::Forward(via) = row else {
        return None;
    };
    match ports.get(via.index()) {
        Some(Some(port)) if port.refuses(octets) => Some(*via),
        _ => None,
    }
}

/// Prepares what follows a row.
#[inline(always)]
fn prepare_consequence(
    alloc: Global,
    node: NodeView<'_>,
    packet: &Ipv4View<'_>,
    row: &Row<'_>,
) -> Result<Prepared, AllocError>
    requires { IsPossible row.now (fields_of packet.now).time_to_live }
    ensures { let state = node.entry.state.now in IfOk result (λ p. consequence p
        ≡ consequence_of node.entry.topology.now.ifaces state.table state.identification
        packet.now row.now) }
{
    match row {
        Row::Unreachable => error(alloc, node, packet, NO_NETWORK),
        Row::Expired => error(alloc, node, packet, EXPIRED),
        Row::Forward(via) => {
            let lowered = lower_ttl(alloc, packet)?;
            Ok(Prepared::Sends(*via, Twin::new(lowered)?))
        }
        Row::EchoRequest(request) => reply(alloc, node, packet, request),
        Row::ClosedPort => error(alloc, node, packet, NO_PORT),
        Row::UnknownProtocol => error(alloc, node, packet, NO_PROTOCOL),
        Row::BadHeader
        | Row::BadDestination
        | Row::NotMine
        | Row::Fragment
        | Row::BadIcmp
        | Row::OtherIcmp
        | Row::BadUdp
        | Row::Delivered => Ok(Prepared::Nothing),
    }
}

/// Counts what was prepared, and gives what is sent.
#[inline(always)]
fn carry_out(state: &mut NodeState, prepared: Prepared) -> Option<(IfaceNo, Twin)>
    ensures { (state.new, sent_of result) ≡ concluded (consequence prepared) state.old }
{
    match prepared {
        Prepared::Nothing => None,
        Prepared::Counts(counter) => {
            state.count(counter);
            None
        }
        Prepared::Sends(via, twin) => Some((via, twin)),
        Prepared::Originates(via, twin) => {
            state.count_originated();
            Some((via, twin))
        }
    }
}

/// What the node does with the packet of a source. It takes none from a source of another node.
#[tactic(auto, unfolding(crate::specs::Reaction::reaction))]
fn hand_over(
    alloc: Global,
    topology: &Topology,
    state: &mut NodeState,
    source: SourceNo,
    packet: &Packet,
) -> Result<Option<(IfaceNo, Twin)>, AllocError>
    requires table { Knows topology.now state.old }
    requires fits { FitsSource (slice_get topology.now.sources source) packet.now }
    ensures ok { IfOk result (λ r. (state.new, sent_of r) ≡ handed_by topology.now
        state.old.table.node state.old (slice_get topology.now.sources source) packet.now) }
    ensures err { OnErr result (state.new ≡ state.old) }
{
    match topology.sources().get(source.index()) {
        Some(source) if source.node == state.node() => {
            let node = NodeView { topology, state };
            let handed = accept_from_source(alloc, node, &source.traffic, packet)?;
            Ok(count_handed(state, handed))
        }
        _ => Ok(None),
    }
}

/// What follows a packet of traffic of the node's own.
fn accept_from_source(
    alloc: Global,
    node: NodeView<'_>,
    traffic: &Traffic,
    packet: &Packet,
) -> Result<Handed, AllocError>
    requires { FitsHeaders traffic.now packet.now }
    ensures { let state = node.entry.state.now in IfOk result (λ h. handed_on h state
        ≡ handed node.entry.topology.now.ifaces state.table state traffic.now packet.now) }
{
    match traffic {
        Traffic::Raw(raw) => Ok(Handed::AsItIs(raw.via(), Twin::new(packet.clone()?)?)),
        Traffic::Cbr(cbr) => {
            let datagram = Draft {
                source: None,
                destination: cbr.to,
                time_to_live: cbr.flow.ttl,
                body: datagram_body(cbr, packet),
            };
            Ok(Handed::InPacket(originate(alloc, node, &datagram)?))
        }
        Traffic::Echo(echo) => {
            let request = Draft {
                source: None,
                destination: echo.to,
                time_to_live: echo.flow.ttl,
                body: Body::Whole(packet.octets()),
            };
            Ok(Handed::InPacket(originate(alloc, node, &request)?))
        }
    }
}

/// Counts what a source gave, and gives what is sent.
fn count_handed(state: &mut NodeState, handed: Handed) -> Option<(IfaceNo, Twin)>
    ensures { (state.new, sent_of result) ≡ handed_on handed state.old }
{
    match handed {
        Handed::AsItIs(via, twin) => {
            state.count(Counter::Raw);
            Some((via, twin))
        }
        Handed::InPacket(prepared) => carry_out(state, prepared),
    }
}

/// The datagram of a `cbr` source with these data.
fn datagram_body<'a>(cbr: &Cbr, packet: &'a Packet) -> Body<'a>
    requires { length packet.now ≤ MAX_PACKET_DATA }
    ensures value { body_of result ≡ (datagram_of cbr.now packet.now).body }
    ensures fits { FitsPacket (body_of result) }
{
    let data = if cbr.flow.size == 0 {
        &[]
    } else {
        packet.octets()
    };
    Body::Datagram {
        ports: Ports {
            source: cbr.source_port,
            destination: cbr.destination_port,
        },
        data,
    }
}
