//! Where the packets of `raw` sources go, by their octets.

ghost use Rattle.std.specs.Prelude.{◌≡◌};
ghost use Rattle.nm_paths.specs.Walks.{routes_of_all};

use crate::ending::Aim;
use crate::places::{last_node, listens};
use crate::sender::{Sender, Sending, Walked, remark, see_end, see_times};
use crate::tables::Tables;
use crate::turn::WalkEnd;
use crate::ways::{Way, node_behind, walk_by};
use nm_base::{IfaceNo, NodeNo, Packet, Remarks, Time};
use nm_packet::{Address, HeaderFault, Ipv4, Ipv4View, Udp, UdpFault, udp};
use nm_topology::Topology;
use nm_topology::traffic::Raw;
use std::alloc::{AllocError, Global};

/// What nodes see in a packet, as far as its way depends on it.
#[derive(Clone, Copy, PartialEq, Eq)]
enum Content {
    /// The first node drops it.
    Unsound(HeaderFault),
    /// To a martian: the first node drops it.
    Martian(Address),
    /// It goes to an address, with a time to live.
    Sound(Address, u8, Payload),
}

/// What the node of the destination sees in a packet.
#[derive(Clone, Copy, PartialEq, Eq)]
enum Payload {
    /// A datagram to this UDP port.
    Datagram(u16),
    /// UDP that fails its test.
    BadDatagram(UdpFault),
    /// A fragment, or of another protocol.
    Other,
}

/// What the node of the destination sees in a packet.
fn payload_of(packet: &Ipv4View<'_>) -> Payload {
    let is_fragment = packet.more_fragments() || packet.fragment_offset() != 0;
    if is_fragment || packet.protocol() != udp::PROTOCOL {
        return Payload::Other;
    }
    match Udp::read(packet.source(), packet.destination(), packet.payload()) {
        Ok(datagram) => Payload::Datagram(datagram.destination_port()),
        Err(fault) => Payload::BadDatagram(fault),
    }
}

/// What nodes see in a packet.
fn content_of(packet: &Packet) -> Content {
    match Ipv4::read(packet.octets()) {
        Err(fault) => Content::Unsound(fault),
        Ok(view) if view.destination().is_martian() => Content::Martian(view.destination()),
        Ok(view) => Content::Sound(view.destination(), view.time_to_live(), payload_of(&view)),
    }
}

/// When a source sends.
fn sending_of(raw: &Raw, stop: Time) -> Sending {
    let packets = raw.packets();
    let start = match packets.first() {
        Some(first) => first.at,
        None => stop,
    };
    Sending {
        start,
        count: packets.len() as u64,
        sent: packets.iter().filter(|packet| packet.at < stop).count() as u64,
    }
}

/// A packet that a source gives to an interface.
#[derive(Clone, Copy)]
struct Handed<'a> {
    sender: &'a Sender,
    via: IfaceNo,
    /// The number of the packet.
    number: usize,
}

/// What was seen in a packet, and how often it leaves an interface.
#[derive(Clone, Copy)]
struct Looked {
    content: Content,
    hops: u64,
}

/// How often a packet with this content leaves an interface, if one was looked at.
fn hops_of(looked: &[Looked], content: &Content) -> Option<u64> {
    let mut found = looked.iter();
    let same = found.find(|other| other.content == *content)?;
    Some(same.hops)
}

/// Remarks that a node drops a packet.
fn see_drop(
    alloc: Global,
    topology: &Topology,
    handed: &Handed<'_>,
    node: NodeNo,
    reason: &str,
    remarks: &mut Remarks,
) -> Result<(), AllocError> {
    let number = handed.number;
    let name = topology.node_name(node);
    let what = format!(in alloc; "packet {number}: \"{name}\" drops it: {reason}")?;
    remark(alloc, topology, handed.sender, what.as_bytes(), remarks)
}

/// Remarks on what becomes of a packet that arrived at the node of its destination.
fn see_payload(
    alloc: Global,
    topology: &Topology,
    handed: &Handed<'_>,
    node: NodeNo,
    payload: &Payload,
    remarks: &mut Remarks,
) -> Result<(), AllocError> {
    match payload {
        Payload::Datagram(port) if !listens(topology, node, *port) => {
            let number = handed.number;
            let name = topology.node_name(node);
            let what = format!(in alloc;
                "packet {number}: UDP port {port} of \"{name}\" is not open"
            )?;
            remark(alloc, topology, handed.sender, what.as_bytes(), remarks)
        }
        Payload::BadDatagram(fault) => {
            let reason = format!(in alloc; "UDP: {fault}")?;
            see_drop(alloc, topology, handed, node, reason.as_str(), remarks)
        }
        Payload::Datagram(_) | Payload::Other => Ok(()),
    }
}

/// Looks at the way of a packet, and whether it leads where it should.
fn see_way(
    alloc: Global,
    topology: &Topology,
    tables: &Tables,
    handed: &Handed<'_>,
    aim: &Aim,
    remarks: &mut Remarks,
) -> Result<Way, AllocError>
    requires { tables.now ≡ routes_of_all topology.now }
{
    let number = handed.number;
    let way = walk_by(
        alloc,
        topology,
        tables,
        handed.via,
        aim.to,
        aim.time_to_live,
    )?;
    let which = format!(in alloc; "the way of packet {number}")?;
    let walked = Walked {
        which: which.as_str(),
        aim,
        way: &way,
    };
    see_end(alloc, topology, handed.sender, walked, remarks)?;
    Ok(way)
}

/// Looks at a packet with this content: how often it leaves an interface.
fn see_packet(
    alloc: Global,
    topology: &Topology,
    tables: &Tables,
    handed: &Handed<'_>,
    content: &Content,
    remarks: &mut Remarks,
) -> Result<u64, AllocError>
    requires { tables.now ≡ routes_of_all topology.now }
{
    let reason = match content {
        Content::Sound(to, time_to_live, payload) => {
            let aim = Aim {
                from: handed.sender.node,
                to: *to,
                time_to_live: *time_to_live,
            };
            let way = see_way(alloc, topology, tables, handed, &aim, remarks)?;
            if way.ending == WalkEnd::Arrived {
                let last = last_node(topology, aim.from, &way);
                see_payload(alloc, topology, handed, last, payload, remarks)?;
            }
            return Ok(way.hops.len() as u64);
        }
        Content::Unsound(fault) => format!(in alloc; "{fault}")?,
        Content::Martian(to) => format!(in alloc; "its destination, {to}, is a martian")?,
    };
    let first = node_behind(topology.ifaces(), handed.via);
    see_drop(alloc, topology, handed, first, reason.as_str(), remarks)?;
    Ok(1)
}

/// Looks at the packets of a `raw` source that come before the end: of those in which nodes see the
/// same, at the first. How many events all make, one of the source each and two for each hop.
pub fn see_raw(
    alloc: Global,
    topology: &Topology,
    tables: &Tables,
    sender: &Sender,
    raw: &Raw,
    remarks: &mut Remarks,
) -> Result<u64, AllocError>
    requires { tables.now ≡ routes_of_all topology.now }
{
    let sending = sending_of(raw, topology.stop());
    see_times(alloc, topology, sender, &sending, remarks)?;
    let via = raw.via();
    let mut looked = Vec::new(alloc);
    let mut events = 0u64;
    for (number, packet) in raw.packets().iter().enumerate() {
        if packet.at >= topology.stop() {
            return Ok(events);
        }
        let content = content_of(&packet.packet);
        let hops = match hops_of(&looked, &content) {
            Some(hops) => hops,
            None => {
                let handed = Handed {
                    sender,
                    via,
                    number,
                };
                let hops = see_packet(alloc, topology, tables, &handed, &content, remarks)?;
                looked.push(Looked { content, hops })?;
                hops
            }
        };
        events = events.saturating_add(hops.saturating_mul(2).saturating_add(1));
    }
    Ok(events)
}
