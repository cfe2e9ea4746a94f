//! A refused growth is an error after which nothing has changed, and the same call then answers as
//! if nothing had been refused: these tests show it when an allocation is refused
//! (`dev/attack/refuse-growths`).
//!
//! What a test only needs is asked for twice, so that it is there even if memory was refused.

use crate::tests::forward::{Bench, DATAGRAM, FORWARDED};
use crate::tests::same::{eq_number, eq_numbers, eq_octets, holds};
use crate::tests::texts::TRIO;
use bytes::Bytes;
use nm_base::{IfaceNo, Packet, SourceNo, Time};
use nm_fixtures::DUO;
use nm_forward::{Counter, Origin, Reaction};
use nm_packet::{Icmp, MessageKind};
use nm_topology::{Refusal, TopoFault, Topology};
use nm_traffic::{Source, SourcePacket};
use std::alloc::{AllocError, Global};
use std::process::Abort;

/// A network, which has to be accepted.
fn network(rt: &(impl Abort + AllocGlobal), text: &str) -> Topology {
    let first = Topology::read(rt.alloc(), text.as_bytes());
    let second = Topology::read(rt.alloc(), text.as_bytes());
    first.or(second).expect(rt, "a network")
}

/// The packet of these octets, if they are one.
fn made(alloc: Global, octets: &[u8]) -> Result<Option<Packet>, AllocError> {
    Packet::new(alloc, Bytes::copy_from_slice(alloc, octets)?)
}

/// A packet of from 1 to 65,535 octets.
fn packet_of(rt: &(impl Abort + AllocGlobal), octets: &[u8]) -> Packet {
    let first = made(rt.alloc(), octets);
    let second = made(rt.alloc(), octets);
    let packet = first.or(second).expect(rt, "there is memory");
    packet.expect(rt, "from 1 to 65,535 octets")
}

/// A text with the fault that is looked for last.
const CUT: &str = r#"format = 1
stop = 1
mtu = 1500
node = [ {name = "a", kind = "host", partition = 0}, {name = "b", kind = "host", partition = 1} ]
iface = [ {name = "a0", node = "a", address = "10.0.0.1", queue = 0},
  {name = "b0", node = "b", address = "10.0.0.2", queue = 0} ]
link = [ {a = "a0", b = "b0", rate = 1000, delay = 0} ]
source = [ {kind = "raw", node = "a", via = "a0", packet = [ {at = 0, data = "45"} ]} ]
"#;

/// A text is refused for this at each of two calls, but at one of them for memory if that is
/// refused once.
fn is_refused(rt: &(impl Abort + AllocGlobal), text: &str, refusal: Refusal) {
    let want = Some(TopoFault::Refused(refusal));
    let memory = Some(TopoFault::Memory);
    let first = Topology::read(rt.alloc(), text.as_bytes()).err();
    let second = Topology::read(rt.alloc(), text.as_bytes()).err();
    assert!(rt; first == want || second == want, "{text}");
    assert!(rt; first == want || first == memory, "{text}");
    assert!(rt; second == want || second == memory, "{text}");
}

#[test]
fn topology_refused(rt: HostRuntime) {
    is_refused(&rt, CUT, Refusal::CutDelay);
    is_refused(&rt, "format = 1\nstop = ", Refusal::Text);
    is_refused(&rt, "format = 1\nstop = 1", Refusal::Missing);
}

#[test]
fn topology_read(rt: HostRuntime) {
    let first = Topology::read(rt.alloc(), DUO.as_bytes());
    let second = Topology::read(rt.alloc(), DUO.as_bytes());
    if let Err(fault) = first {
        holds(&rt, "memory", fault == TopoFault::Memory);
    }
    let topology = first.or(second).expect(&rt, "there is memory");
    eq_numbers(
        &rt,
        "members",
        &[
            topology.nodes().len() as u64,
            topology.ifaces().len() as u64,
            topology.links().len() as u64,
            topology.sources().len() as u64,
        ],
        &[2, 2, 1, 1],
    );
}

#[test]
fn icmp_write(rt: HostRuntime) {
    let kind = MessageKind {
        message_type: 8,
        code: 0,
    };
    let first = Icmp::write(rt.alloc(), kind, [0, 7, 0, 0], b"\xab");
    let second = Icmp::write(rt.alloc(), kind, [0, 7, 0, 0], b"\xab");
    let octets = first.or(second).expect(&rt, "there is memory");
    let want = b"\x08\x00\x4c\xf8\x00\x07\x00\x00\xab";
    eq_octets(&rt, "a message", octets.as_slice(), want);
}

/// A datagram whose time to live is over.
const LATE: &[u8] =
    b"\x45\x00\x00\x1e\x00\x00\x00\x00\x00\x11\xa5\xcd\x0a\x00\x00\x01\x0a\x00\x01\x02\
\x03\xe8\x00\x09\x00\x0a\xfe\xff\xe7\xe6";

/// The error about it.
const TIME_EXCEEDED: &[u8] =
    b"\x45\x00\x00\x38\x00\x00\x00\x00\x40\x01\x66\xc3\x0a\x00\x00\x02\x0a\x00\x00\x01\
\x0b\x00\xf2\x04\x00\x00\x00\x00\x45\x00\x00\x1e\x00\x00\x00\x00\x00\x11\xa5\xcd\x0a\x00\x00\x01\
\x0a\x00\x01\x02\x03\xe8\x00\x09\x00\x0a\xfe\xff";

/// A request of host a to the router, and its reply.
const ASKED: &[u8] =
    b"\x45\x00\x00\x1c\x00\x00\x00\x00\x40\x01\x66\xdf\x0a\x00\x00\x01\x0a\x00\x00\x02\
\x08\x00\xf7\xf8\x00\x07\x00\x00";

const REPLY: &[u8] =
    b"\x45\x00\x00\x1c\x00\x00\x00\x00\x40\x01\x66\xdf\x0a\x00\x00\x02\x0a\x00\x00\x01\
\x00\x00\xff\xf8\x00\x07\x00\x00";

/// What host a makes of 72 octets of 0 that its source gives, without these octets.
const DATAGRAM_HEAD: &[u8] =
    b"\x45\x00\x00\x64\x00\x00\x00\x00\x40\x11\x65\x87\x0a\x00\x00\x01\x0a\x00\x01\x02\
\x03\xe8\x00\x09\x00\x50\xe6\x5a";

/// A request of its source for echoes, and the packet.
const MESSAGE: &[u8] = b"\x08\x00\xf7\xf8\x00\x07\x00\x00";

const REQUESTED: &[u8] =
    b"\x45\x00\x00\x1c\x00\x00\x00\x00\xff\x01\xa6\xde\x0a\x00\x00\x01\x0a\x00\x01\x02\
\x08\x00\xf7\xf8\x00\x07\x00\x00";

/// A node of the trio, whether its packet arrives, at which interface or from which source, and the
/// packet; the interface by which it sends, what it sends, which so many octets of 0 follow, and
/// what it counts once each.
type Row = (
    u32,
    (bool, u32),
    &'static [u8],
    (u32, &'static [u8], usize),
    &'static [&'static str],
);

/// A node of the trio.
fn node_of_trio(rt: &(impl Abort + AllocGlobal), node: u32) -> Bench {
    match Bench::new(rt, network(rt, TRIO), node) {
        Ok(bench) => bench,
        Err(_) => {
            let topology = network(rt, TRIO);
            Bench::new(rt, topology, node).expect(rt, "there is memory")
        }
    }
}

/// A node counted these once each, and nothing else.
fn has_counted(rt: &impl Abort, bench: &Bench, counted: &[&str]) {
    for counter in Counter::ALL {
        let want = u64::from(counted.contains(&counter.name()));
        eq_number(rt, counter.name(), bench.count(counter), want);
    }
}

/// What a node does with a packet.
fn react_once(
    rt: &(impl Abort + AllocGlobal),
    bench: &mut Bench,
    arrives: bool,
    number: u32,
    packet: &Packet,
) -> Result<Reaction, AllocError> {
    if arrives {
        return bench.react(rt, Origin::Arrival(IfaceNo::new(number)), packet);
    }
    bench.react(rt, Origin::Source(SourceNo::new(number)), packet)
}

/// The same, asked again if memory was refused: then it had counted nothing.
fn react_at_last(
    rt: &(impl Abort + AllocGlobal),
    bench: &mut Bench,
    arrives: bool,
    number: u32,
    packet: &Packet,
) -> Reaction {
    match react_once(rt, bench, arrives, number, packet) {
        Ok(reaction) => reaction,
        Err(_) => {
            has_counted(rt, bench, &[]);
            let again = react_once(rt, bench, arrives, number, packet);
            again.expect(rt, "there is memory")
        }
    }
}

/// A node sends these octets, which so many of 0 follow, by an interface, and keeps their twin.
fn sends(rt: &impl Abort, reaction: &Reaction, want: (u32, &[u8], usize)) {
    let Reaction::Send(via, twin) = reaction else {
        return holds(rt, "a packet is sent", false);
    };
    let (interface, head, zeros) = want;
    eq_number(
        rt,
        "interface",
        u64::from(via.number()),
        u64::from(interface),
    );
    let octets = twin.packet.octets();
    let (front, rest) = octets.split_at(octets.len().min(head.len()));
    eq_octets(rt, "what is sent", front, head);
    holds(
        rt,
        "zeros",
        rest.len() == zeros && rest.iter().all(|octet| *octet == 0),
    );
    eq_octets(rt, "its twin", twin.copy.octets(), octets);
}

/// A refused reaction counts nothing and takes no identification.
fn reacts(rt: &(impl Abort + AllocGlobal), row: &Row) {
    let (node, (arrives, number), octets, want, counted) = row;
    let mut bench = node_of_trio(rt, *node);
    let packet = packet_of(rt, octets);
    let reaction = react_at_last(rt, &mut bench, *arrives, *number, &packet);
    sends(rt, &reaction, *want);
    has_counted(rt, &bench, counted);
}

/// Reactions to packets, refused in turn.
fn react_to(rt: &(impl Abort + AllocGlobal), rows: &[Row]) {
    for row in rows {
        reacts(rt, row);
    }
}

/// An error about a packet, a packet that goes on, and a reply.
#[test]
fn react_to_arrivals(rt: HostRuntime) {
    let from_a = (true, 1);
    react_to(
        &rt,
        &[
            (
                1,
                from_a,
                LATE,
                (1, TIME_EXCEEDED, 0),
                &["ttl", "originated"],
            ),
            (1, from_a, DATAGRAM, (2, FORWARDED, 0), &["forwarded"]),
            (1, from_a, ASKED, (1, REPLY, 0), &["echo", "originated"]),
        ],
    )
}

/// A packet of a source of each kind.
#[test]
fn react_to_sources(rt: HostRuntime) {
    react_to(
        &rt,
        &[
            (
                0,
                (false, 0),
                &[0; 72],
                (0, DATAGRAM_HEAD, 72),
                &["originated"],
            ),
            (0, (false, 2), MESSAGE, (0, REQUESTED, 0), &["originated"]),
            (1, (false, 3), b"\x45", (2, b"\x45", 0), &["raw"]),
        ],
    )
}

/// One echo request.
const REQUEST: &str = r#"format = 1
stop = 1
mtu = 1500
node = [ {name = "a", kind = "host", partition = 0} ]
iface = [ {name = "a0", node = "a", address = "10.0.0.1", queue = 4},
  {name = "a1", node = "a", address = "10.0.0.2", queue = 4} ]
link = [ {a = "a0", b = "a1", rate = 8000000, delay = 0} ]
source = [
  {kind = "echo", node = "a", to = "10.0.0.2", ident = 1, size = 0, start = 0, interval = 1, count = 1} ]
"#;

/// The source of the request.
fn requests(rt: &(impl Abort + AllocGlobal)) -> Source {
    let topology = network(rt, REQUEST);
    let number = SourceNo::new(0);
    if topology.sources().is_empty() {
        panic!(rt; "there is one source");
    }
    let first = Source::new(rt.alloc(), &topology, number);
    let second = Source::new(rt.alloc(), &topology, number);
    first.or(second).expect(rt, "there is memory")
}

/// The first packet of a source, asked for twice.
fn first_of(rt: &(impl Abort + AllocGlobal), source: &Source) -> (Time, SourcePacket) {
    let first = source.next(rt.alloc(), 0);
    let either = first.or(source.next(rt.alloc(), 0));
    match either.expect(rt, "there is memory") {
        Some(packet) => packet,
        None => panic!(rt; "there is one packet"),
    }
}

#[test]
fn source_next(rt: HostRuntime) {
    let source = requests(&rt);
    let (time, packet) = first_of(&rt, &source);
    eq_number(&rt, "time", time.nanoseconds(), 0);
    let want = b"\x08\x00\xf7\xfe\x00\x01\x00\x00";
    eq_octets(&rt, "a request", packet.packet().octets(), want);
}
