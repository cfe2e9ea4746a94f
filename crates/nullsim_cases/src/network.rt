//! All that was read of a topology text. Interfaces are named by their numbers, from 0 in the order
//! of the text.
//!
//! ```text
//! stop NANOSECONDS
//! mtu OCTETS
//! partitions COUNT
//! receivers IFACE ..
//! digest HEX
//! node NAME host|router partition PARTITION ports PORT ..
//! route PREFIX via IFACE                                   of the node before it
//! iface NAME node NODE address ADDRESS queue PACKETS
//! far PEER RATE DELAY                                      of the interface before it
//! channel CHANNEL                                          of the interface before it, where it receives one
//! link A B RATE DELAY
//! source NODE cbr to ADDRESS ports SOURCE DESTINATION
//! source NODE echo to ADDRESS identifier NUMBER
//! flow size SIZE fill OCTET start TIME interval TIME count COUNT ttl TTL      of the source before it
//! source NODE raw via IFACE
//! packet TIME HEX                                          of the source before it
//! ```

use nm_base::{ChanNo, IfaceNo};
use nm_topology::parts::{Iface, Link, Node, Route};
use nm_topology::traffic::{Flow, Raw, RawPacket, Source, Traffic};
use nm_topology::{NodeKind, Topology};
use std::alloc::{AllocError, Global};
use std::fmt::Write;

/// The lines of all that was read.
pub fn network_text(alloc: Global, topology: &Topology) -> Result<String, AllocError> {
    let mut text = String::new(alloc);
    push_whole(&mut text, topology)?;
    push_digest(&mut text, alloc, topology)?;
    push_parts(&mut text, topology)?;
    push_sources(&mut text, alloc, topology.sources())?;
    Ok(text)
}

/// Adds the lines of the network as a whole.
fn push_whole(text: &mut String, topology: &Topology) -> Result<(), AllocError> {
    let (stop, mtu) = (topology.stop().nanoseconds(), topology.mtu());
    let partitions = topology.partitions();
    write!(
        text,
        "stop {stop}\nmtu {mtu}\npartitions {partitions}\nreceivers"
    )?;
    for iface in topology.receivers() {
        write!(text, " {}", iface.number())?;
    }
    text.push('\n')
}

/// Adds the digest.
fn push_digest(text: &mut String, alloc: Global, topology: &Topology) -> Result<(), AllocError> {
    let digest = hex::encode(alloc, topology.digest())?;
    writeln!(text, "digest {digest}")
}

/// Adds the nodes, the interfaces and the links.
fn push_parts(text: &mut String, topology: &Topology) -> Result<(), AllocError> {
    for node in topology.nodes() {
        push_node(text, node)?;
        push_routes(text, node.routes())?;
    }
    for (number, iface) in (0..u32::MAX).zip(topology.ifaces()) {
        push_iface(text, iface)?;
        push_channel(text, topology.channel_of(IfaceNo::new(number)))?;
    }
    for link in topology.links() {
        push_link(text, link)?;
    }
    Ok(())
}

/// Adds a node.
fn push_node(text: &mut String, node: &Node) -> Result<(), AllocError> {
    let kind = match node.kind() {
        NodeKind::Host => "host",
        NodeKind::Router => "router",
    };
    let (name, partition) = (node.name(), node.partition().number());
    write!(text, "node {name} {kind} partition {partition} ports")?;
    for port in node.ports() {
        write!(text, " {port}")?;
    }
    text.push('\n')
}

/// Adds the routes of a node.
fn push_routes(text: &mut String, routes: &[Route]) -> Result<(), AllocError> {
    for route in routes {
        let (address, length) = (route.to.address, route.to.length);
        writeln!(text, "route {address}/{length} via {}", route.via.number())?;
    }
    Ok(())
}

/// Adds an interface and its far end.
fn push_iface(text: &mut String, iface: &Iface) -> Result<(), AllocError> {
    let (name, address) = (iface.name(), iface.address());
    let (node, queue) = (iface.node().number(), iface.queue());
    writeln!(
        text,
        "iface {name} node {node} address {address} queue {queue}"
    )?;
    let far = iface.far();
    writeln!(
        text,
        "far {} {} {}",
        far.iface.number(),
        far.rate,
        far.delay
    )
}

/// Adds the channel of an interface, if it receives one.
fn push_channel(text: &mut String, channel: Option<ChanNo>) -> Result<(), AllocError> {
    match channel {
        Some(channel) => writeln!(text, "channel {}", channel.number()),
        None => Ok(()),
    }
}

/// Adds a link.
fn push_link(text: &mut String, link: &Link) -> Result<(), AllocError> {
    let (a, b) = (link.a.number(), link.b.number());
    writeln!(text, "link {a} {b} {} {}", link.rate, link.delay)
}

/// Adds the sources.
fn push_sources(text: &mut String, alloc: Global, sources: &[Source]) -> Result<(), AllocError> {
    for source in sources {
        write!(text, "source {} ", source.node.number())?;
        push_traffic(text, alloc, &source.traffic)?;
    }
    Ok(())
}

/// Adds what a source sends.
fn push_traffic(text: &mut String, alloc: Global, traffic: &Traffic) -> Result<(), AllocError> {
    match traffic {
        Traffic::Cbr(cbr) => {
            let (source, destination) = (cbr.source_port, cbr.destination_port);
            writeln!(text, "cbr to {} ports {source} {destination}", cbr.to)?;
            push_flow(text, cbr.flow)
        }
        Traffic::Echo(echo) => {
            writeln!(text, "echo to {} identifier {}", echo.to, echo.identifier)?;
            push_flow(text, echo.flow)
        }
        Traffic::Raw(raw) => push_raw(text, alloc, raw),
    }
}

/// Adds what sources of datagrams and of echo requests share.
fn push_flow(text: &mut String, flow: Flow) -> Result<(), AllocError> {
    write!(text, "flow size {} fill {}", flow.size, flow.fill)?;
    let start = flow.start.nanoseconds();
    write!(text, " start {start} interval {}", flow.interval)?;
    writeln!(text, " count {} ttl {}", flow.count, flow.ttl)
}

/// Adds the packets of a source.
fn push_raw(text: &mut String, alloc: Global, raw: &Raw) -> Result<(), AllocError> {
    writeln!(text, "raw via {}", raw.via().number())?;
    for raw_packet in raw.packets() {
        push_packet(text, alloc, raw_packet)?;
    }
    Ok(())
}

/// Adds a packet.
fn push_packet(text: &mut String, alloc: Global, packet: &RawPacket) -> Result<(), AllocError> {
    let octets = hex::encode(alloc, packet.packet.octets())?;
    writeln!(text, "packet {} {octets}", packet.at.nanoseconds())
}
