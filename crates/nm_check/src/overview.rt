//! What an accepted topology has, as lines.

use crate::pieces::{Appended, Piece, push};
use crate::remarks::with_remarks;
use nm_base::Time;
use nm_base::limits::MAX_RATE;
use nm_iface::transmission::transmission_time;
use nm_packet::limits::HEADERS;
use nm_topology::parts::Far;
use nm_topology::traffic::{Flow, RawPacket, Traffic};
use nm_topology::{NodeKind, Topology};
use std::alloc::{AllocError, Global};

/// Packets, and their octets.
#[derive(Clone, Copy)]
struct Load {
    packets: u64,
    octets: u64,
}

impl Load {
    /// These packets more, each of so many octets.
    fn and(self, packets: u64, octets: u64) -> Load {
        Load {
            packets: self.packets.saturating_add(packets),
            octets: self.octets.saturating_add(packets.saturating_mul(octets)),
        }
    }
}

/// How many packets of a flow come before the end of the simulation.
fn packets_before(flow: Flow, stop: Time) -> u64 {
    let room = stop.nanoseconds().saturating_sub(flow.start.nanoseconds());
    // An interval is at least 1 in every topology.
    room.div_ceil(flow.interval.max(1)).min(flow.count as u64)
}

/// What packets of a raw source add before the end of the simulation.
fn with_packets(load: Load, packets: &[RawPacket], stop: Time) -> Load {
    let mut load = load;
    for raw in packets {
        if raw.at < stop {
            load = load.and(1, raw.packet.octet_count() as u64);
        }
    }
    load
}

/// What a flow adds before the end of the simulation.
fn with_flow(load: Load, flow: Flow, stop: Time) -> Load {
    let octets = u64::from(flow.size) + HEADERS;
    load.and(packets_before(flow, stop), octets)
}

/// What a source adds before the end of the simulation.
fn with_source(load: Load, traffic: &Traffic, stop: Time) -> Load {
    match traffic {
        Traffic::Cbr(cbr) => with_flow(load, cbr.flow, stop),
        Traffic::Echo(echo) => with_flow(load, echo.flow, stop),
        Traffic::Raw(raw) => with_packets(load, raw.packets(), stop),
    }
}

/// What all sources send before the end of the simulation.
fn load_of(topology: &Topology) -> Load {
    let mut load = Load {
        packets: 0,
        octets: 0,
    };
    for source in topology.sources() {
        load = with_source(load, &source.traffic, topology.stop());
    }
    load
}

/// How many nodes are hosts.
fn hosts(topology: &Topology) -> usize {
    topology
        .nodes()
        .iter()
        .filter(|node| node.kind() == NodeKind::Host)
        .count()
}

/// How many routes the nodes have.
fn routes(topology: &Topology) -> usize {
    let mut count = 0usize;
    for node in topology.nodes() {
        count = count.saturating_add(node.routes().len());
    }
    count
}

/// How long after it is sent a message arrives at least: the transmission of one octet, and the
/// link's delay, in nanoseconds.
fn lookahead(far: Far) -> u64 {
    // A rate is within these in every topology.
    let rate = far.rate.clamp(1, MAX_RATE);
    transmission_time(rate, 1).saturating_add(far.delay)
}

/// The least lookahead of a channel in nanoseconds, if there is a channel.
pub fn least_lookahead(topology: &Topology) -> Option<u64> {
    let mut least = None;
    for receiver in topology.receivers() {
        if let Some(iface) = topology.ifaces().get(receiver.index()) {
            let found = lookahead(iface.far());
            least = match least {
                Some(known) if known <= found => Some(known),
                _ => Some(found),
            };
        }
    }
    least
}

/// A line with a word and a number.
fn push_count(out: &mut Vec<u8>, word: &str, count: usize) -> Appended {
    push(
        out,
        &[
            Piece::Text(word),
            Piece::Number(count as u64),
            Piece::Text("\n"),
        ],
    )
}

/// Appends how many nodes there are, and of which kinds.
fn push_nodes(out: &mut Vec<u8>, topology: &Topology) -> Appended {
    let hosts = hosts(topology);
    let nodes = topology.nodes().len();
    push(
        out,
        &[
            Piece::Text("nodes "),
            Piece::Number(nodes as u64),
            Piece::Text(": hosts "),
            Piece::Number(hosts as u64),
            Piece::Text(", routers "),
            Piece::Number(nodes.saturating_sub(hosts) as u64),
            Piece::Text("\n"),
        ],
    )
}

/// Appends how many sources there are, and what they send before the end.
fn push_sources(out: &mut Vec<u8>, topology: &Topology) -> Appended {
    let load = load_of(topology);
    push(
        out,
        &[
            Piece::Text("sources "),
            Piece::Number(topology.sources().len() as u64),
            Piece::Text(": packets "),
            Piece::Number(load.packets),
            Piece::Text(", octets "),
            Piece::Number(load.octets),
            Piece::Text("\n"),
        ],
    )
}

/// Appends how many channels there are, their least lookahead, and how many rounds there may be:
/// those that the end of the simulation needs at that lookahead, and one more.
fn push_channels(out: &mut Vec<u8>, topology: &Topology) -> Appended {
    let Some(least) = least_lookahead(topology) else {
        return push(out, &[Piece::Text("channels 0\nrounds at most 1\n")]);
    };
    // A lookahead is at least 1.
    let rounds = topology.stop().nanoseconds().div_ceil(least.max(1));
    push(
        out,
        &[
            Piece::Text("channels "),
            Piece::Number(topology.receivers().len() as u64),
            Piece::Text(": least lookahead "),
            Piece::Number(least),
            Piece::Text(" ns\nrounds at most "),
            Piece::Number(rounds.saturating_add(1)),
            Piece::Text("\n"),
        ],
    )
}

/// The digits of hexadecimal.
const DIGITS: [u8; 16] = *b"0123456789abcdef";

/// Appends the SHA-256 digest of the text, which tells two texts apart.
fn push_digest(out: &mut Vec<u8>, topology: &Topology) -> Appended {
    push(out, &[Piece::Text("digest ")])?;
    for octet in topology.digest() {
        out.push(DIGITS[usize::from(octet / 16)])?;
        out.push(DIGITS[usize::from(octet % 16)])?;
    }
    push(out, &[Piece::Text("\n")])
}

/// Appends what there is.
fn push_counts(out: &mut Vec<u8>, topology: &Topology) -> Appended {
    push_nodes(out, topology)?;
    push_count(out, "interfaces ", topology.ifaces().len())?;
    push_count(out, "links ", topology.links().len())?;
    push_count(out, "routes ", routes(topology))?;
    push_sources(out, topology)?;
    push_count(out, "partitions ", topology.partitions() as usize)?;
    push_channels(out, topology)?;
    push_digest(out, topology)
}

/// What an accepted topology has, as lines that each end with a line feed: how much of each thing
/// there is, what the sources send before the end of the simulation, the least lookahead of a
/// channel, how many rounds there are at most, and the digest of its text; and then at most 20
/// remarks, a line each, and how many more there are.
pub fn summary(alloc: Global, topology: &Topology) -> Result<Vec<u8>, AllocError> {
    let mut out = Vec::new(alloc);
    push_counts(&mut out, topology)?;
    with_remarks(alloc, out, topology)
}
