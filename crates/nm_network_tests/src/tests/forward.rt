//! `nm_forward`: the names of counters, look-ups of routes beside a plain scan, from which sources
//! a node takes packets, and what it sends on to a port that would drop it.

ghost use Rattle.std.specs.Prelude.{◌≡◌};
ghost use Rattle.nm_forward.specs.State.{table_of};

use crate::tests::same::{eq_number, eq_octets, eq_text, holds};
use crate::tests::texts::TRIO;
use bytes::{Bytes, BytesMut};
use nm_base::{IfaceNo, NodeNo, Packet, SourceNo, Time, Twin, Wanted};
use nm_forward::{Counter, NodeState, Origin, Reaction, Routes, react, react_in_place};
use nm_iface::Port;
use nm_packet::Address;
use nm_topology::parts::Route;
use nm_topology::{Prefix, Topology};
use std::alloc::{AllocError, Global};
use std::process::Abort;

fn have_names(rt: &impl Abort, names: &[&str]) {
    assert!(rt; names.len() == Counter::ALL.len());
    for (counter, name) in Counter::ALL.iter().zip(names.iter()) {
        eq_text(rt, counter.name(), name);
    }
}

#[test]
fn counters_have_names(rt: HostRuntime) {
    have_names(
        &rt,
        &[
            "header",
            "baddest",
            "notmine",
            "nonet",
            "ttl",
            "forwarded",
            "fragment",
            "icmpbad",
            "echo",
            "icmp",
            "udpbad",
            "udp",
            "port",
            "proto",
            "quiet",
            "self",
            "noroute",
            "originated",
            "raw",
        ],
    );
}

#[test]
fn counters_are_numbered(rt: HostRuntime) {
    for (number, counter) in Counter::ALL.iter().enumerate() {
        eq_number(&rt, counter.name(), counter.index() as u64, number as u64);
    }
}

fn route(octets: [u8; 4], length: u8, via: u32) -> Route {
    Route {
        to: Prefix {
            address: Address::from_octets(octets),
            length,
        },
        via: IfaceNo::new(via),
    }
}

/// Rows of an address and of what a look-up of it finds among these routes.
fn lead_to(rt: &(impl Abort + AllocGlobal), routes: &[Route], rows: &[([u8; 4], Option<u32>)]) {
    let routes = Routes::of(rt.alloc(), routes).expect(rt, "it succeeds");
    for (octets, want) in rows {
        let via = routes.look(Address::from_octets(*octets));
        let found = via.map(|via| via.number());
        assert!(rt; found == *want, "{octets:?}: {found:?}");
    }
}

#[test]
fn routes_take_the_longest(rt: HostRuntime) {
    lead_to(
        &rt,
        &[
            route([0, 0, 0, 0], 0, 0),
            route([10, 0, 0, 0], 8, 1),
            route([10, 0, 1, 0], 24, 2),
        ],
        &[
            ([10, 0, 1, 9], Some(2)),
            ([10, 0, 2, 9], Some(1)),
            ([11, 0, 0, 1], Some(0)),
        ],
    )
}

#[test]
fn routes_take_none_where_none_holds(rt: HostRuntime) {
    lead_to(
        &rt,
        &[route([10, 0, 0, 0], 8, 1), route([10, 0, 1, 0], 24, 2)],
        &[
            ([10, 0, 1, 9], Some(2)),
            ([10, 0, 2, 9], Some(1)),
            ([11, 0, 0, 1], None),
        ],
    )
}

#[test]
fn routes_take_one_address(rt: HostRuntime) {
    lead_to(
        &rt,
        &[
            route([10, 0, 0, 1], 32, 1),
            route([0, 0, 0, 0], 0, 0),
            route([10, 0, 0, 1], 32, 2),
            route([128, 0, 0, 0], 1, 3),
            route([10, 0, 0, 1], 33, 4),
        ],
        &[
            ([10, 0, 0, 1], Some(1)),
            ([10, 0, 0, 0], Some(0)),
            ([10, 0, 0, 2], Some(0)),
            ([127, 255, 255, 255], Some(0)),
            ([128, 0, 0, 0], Some(3)),
            ([255, 255, 255, 255], Some(3)),
        ],
    )
}

#[test]
fn routes_lead_nowhere_where_there_are_none(rt: HostRuntime) {
    lead_to(
        &rt,
        &[],
        &[([0, 0, 0, 0], None), ([255, 255, 255, 255], None)],
    )
}

/// The next of a sequence of numbers that look random (Knuth's MMIX generator).
fn next(seed: u64) -> u64 {
    seed.wrapping_mul(6_364_136_223_846_793_005)
        .wrapping_add(1_442_695_040_888_963_407)
}

/// An address of few bits, so that many prefixes hold it.
fn address(seed: u64) -> u32 {
    (seed >> 32) as u32 & 0xc0a8_c0e7
}

fn many_routes(alloc: Global) -> Result<Vec<Route>, AllocError> {
    let mut routes = Vec::new(alloc);
    let mut seed = 1;
    for via in 0..300u32 {
        seed = next(seed);
        let length = ((seed >> 20) % 33) as u8;
        let bits = u64::from(address(seed)) >> (32 - length) << (32 - length);
        routes.push(Route {
            to: Prefix {
                address: Address::from_bits(bits as u32),
                length,
            },
            via: IfaceNo::new(via),
        })?;
    }
    Ok(routes)
}

/// Goes over all routes.
fn scanned(routes: &[Route], address: u32) -> Option<u32> {
    let mut best: Option<(u8, u32)> = None;
    for route in routes {
        let Prefix {
            address: network,
            length,
        } = route.to;
        if length <= 32
            && u64::from(network.bits() ^ address) >> (32 - length) == 0
            && best.is_none_or(|(longest, _)| longest < length)
        {
            best = Some((length, route.via.number()));
        }
    }
    Some(best?.1)
}

#[test]
fn routes_are_those_of_a_scan(rt: HostRuntime) {
    let all = many_routes(rt.alloc()).expect(&rt, "it succeeds");
    let routes = Routes::of(rt.alloc(), &all).expect(&rt, "it succeeds");
    let mut seed = 2;
    for _ in 0..2_000 {
        seed = next(seed);
        let bits = address(seed);
        let via = routes.look(Address::from_bits(bits));
        let found = via.map(|via| via.number());
        assert!(rt; found == scanned(&all, bits), "{bits}");
    }
}

/// A node of a network, and its state.
#[derive(Drop)]
pub struct Bench {
    topology: Topology,
    state: NodeState,
    ghost table: { state.table ≡ table_of topology state.table.node },
}

impl Bench {
    /// The node at the start of a run.
    pub fn new(
        rt: &(impl Abort + AllocGlobal),
        topology: Topology,
        node: u32,
    ) -> Result<Self, AllocError> {
        let node = NodeNo::new(node);
        assert!(rt; node.index() < topology.nodes().len());
        let state = NodeState::new(rt.alloc(), &topology, node)?;
        Ok(Bench { topology, state })
    }

    /// What the node does with a packet of at most 65,507 octets if no port is known.
    pub fn react(
        &mut self,
        rt: &(impl Abort + AllocGlobal),
        origin: Origin,
        packet: &Packet,
    ) -> Result<Reaction, AllocError> {
        self.react_before(rt, &[], origin, packet)
    }

    /// The same with these as the ports of the interfaces.
    pub fn react_before(
        &mut self,
        rt: &(impl Abort + AllocGlobal),
        ports: &[Option<Port>],
        origin: Origin,
        packet: &Packet,
    ) -> Result<Reaction, AllocError> {
        assert!(rt; packet.octet_count() <= 65_507);
        react(
            rt.alloc(),
            &self.topology,
            ports,
            &mut self.state,
            origin,
            packet,
        )
    }

    /// What the node does with a packet that it alone may have, with these wanted records.
    pub fn react_in_place(
        &mut self,
        rt: &impl AllocGlobal,
        wanted: &Wanted,
        iface: u32,
        packet: Packet,
    ) -> Result<Reaction, Packet> {
        react_in_place(
            rt.alloc(),
            &self.topology,
            &[],
            &mut self.state,
            wanted,
            IfaceNo::new(iface),
            packet,
        )
        .map(|handled| handled.reaction)
    }

    /// How often the node counted this.
    pub fn count(&self, counter: Counter) -> u64 {
        self.state.counter(counter)
    }
}

/// A node of the trio at the start of a run.
fn node_of_trio(rt: &(impl Abort + AllocGlobal), node: u32) -> Bench {
    let topology = Topology::read(rt.alloc(), TRIO.as_bytes()).expect(rt, "it succeeds");
    Bench::new(rt, topology, node).expect(rt, "it succeeds")
}

/// A packet of one octet.
fn one_octet(rt: &(impl Abort + AllocGlobal)) -> Packet {
    let octets = Bytes::from_static(b"\0");
    let packet = Packet::new(rt.alloc(), octets).expect(rt, "it succeeds");
    packet.expect(rt, "one octet fits")
}

/// A node sends nothing of what a source gives, and counts nothing.
fn does_nothing(rt: &(impl Abort + AllocGlobal), bench: &mut Bench, source: u32, packet: &Packet) {
    let origin = Origin::Source(SourceNo::new(source));
    let is_nothing = matches!(
        bench.react(rt, origin, packet).expect(rt, "it succeeds"),
        Reaction::Nothing
    );
    holds(rt, "nothing is sent", is_nothing);
    for counter in Counter::ALL {
        eq_number(rt, counter.name(), bench.count(counter), 0);
    }
}

/// A node of the trio takes nothing from a source.
fn takes_nothing(rt: &(impl Abort + AllocGlobal), node: u32, source: u32, packet: &Packet) {
    let mut bench = node_of_trio(rt, node);
    does_nothing(rt, &mut bench, source, packet)
}

/// A node takes nothing from a source of another node, nor from one that isn't there.
#[test]
fn sources_are_of_one_node(rt: HostRuntime) {
    let packet = one_octet(&rt);
    for (node, source) in [(1, 0), (2, 0), (0, 3), (0, 6), (0, u32::MAX)] {
        takes_nothing(&rt, node, source, &packet);
    }
}

/// A datagram of host a to host b.
pub const DATAGRAM: &[u8] =
    b"\x45\x00\x00\x1e\x00\x00\x00\x00\x40\x11\x65\xcd\x0a\x00\x00\x01\x0a\x00\x01\x02\
\x03\xe8\x00\x09\x00\x0a\xfe\xff\xe7\xe6";

/// What a router sends on of it.
pub const FORWARDED: &[u8] =
    b"\x45\x00\x00\x1e\x00\x00\x00\x00\x3f\x11\x66\xcd\x0a\x00\x00\x01\x0a\x00\x01\x02\
\x03\xe8\x00\x09\x00\x0a\xfe\xff\xe7\xe6";

/// A packet of these octets.
pub fn packet_of(rt: &(impl Abort + AllocGlobal), octets: &[u8]) -> Packet {
    let octets = Bytes::copy_from_slice(rt.alloc(), octets).expect(rt, "there is memory");
    let packet = Packet::new(rt.alloc(), octets).expect(rt, "there is memory");
    packet.expect(rt, "it fits")
}

/// A port behind which so many packets may wait, to which so many datagrams were offered.
fn port_with(rt: &(impl Abort + AllocGlobal), queue: u16, offers: usize) -> Port {
    let mut port = Port::new(rt.alloc(), queue, None, 8_000_000, 0);
    for _ in 0..offers {
        port.reserve_one().expect(rt, "there is memory");
        let twin = Twin::new(packet_of(rt, DATAGRAM)).expect(rt, "there is memory");
        port.offer(Time::from_nanoseconds(0), twin);
    }
    port
}

/// The router of the trio sends the datagram on by interface 2. It answers whether its octets were
/// not copied since this port there drops it; the packet is counted all the same.
fn is_refused(rt: &(impl Abort + AllocGlobal), port: Option<Port>) -> bool {
    let mut bench = node_of_trio(rt, 1);
    let origin = Origin::Arrival(IfaceNo::new(1));
    let packet = packet_of(rt, DATAGRAM);
    let ports = [None, None, port];
    let reaction = bench
        .react_before(rt, &ports, origin, &packet)
        .expect(rt, "there is memory");
    eq_number(rt, "forwarded", bench.count(Counter::Forwarded), 1);
    match reaction {
        Reaction::Nothing | Reaction::Pass(..) => panic!(rt; "it is sent, with its twin"),
        Reaction::Send(via, twin) => {
            eq_number(rt, "via", u64::from(via.number()), 2);
            eq_octets(rt, "what is sent", twin.packet.octets(), FORWARDED);
            false
        }
        Reaction::Refused(via) => {
            eq_number(rt, "via", u64::from(via.number()), 2);
            true
        }
    }
}

/// Rows of how many packets may wait at the port, how many were offered to it, and whether it
/// drops one more.
#[test]
fn full_ports_take_no_copy(rt: HostRuntime) {
    holds(&rt, "no port", !is_refused(&rt, None));
    for (queue, offers, want) in [(0, 0, false), (0, 1, true), (2, 2, false), (2, 3, true)] {
        let port = port_with(&rt, queue, offers);
        assert!(rt; is_refused(&rt, Some(port)) == want, "{queue} and {offers}");
    }
}

/// A packet of these octets in a block of its own.
pub fn own_packet(rt: &(impl Abort + AllocGlobal), octets: &[u8]) -> Packet {
    assert!(rt; !octets.is_empty() && octets.len() <= 65_535);
    let octets = BytesMut::copy_from_slice(rt.alloc(), octets).expect(rt, "there is memory");
    Packet::from_own(rt.alloc(), octets).expect(rt, "there is memory")
}

/// The datagram leaves by interface 2, one hop on.
fn is_sent_on(rt: &impl Abort, via: IfaceNo, packet: &Packet) {
    eq_number(rt, "via", u64::from(via.number()), 2);
    eq_octets(rt, "what is sent", packet.octets(), FORWARDED);
}

/// The router of the trio sends the datagram on by interface 2. It answers whether it was lowered
/// where it lies; a datagram with another owner stays as it is.
fn is_passed(rt: &(impl Abort + AllocGlobal), packet: Packet, wanted: &Wanted) -> bool {
    let mut bench = node_of_trio(rt, 1);
    let reaction = match bench.react_in_place(rt, wanted, 1, packet) {
        Ok(reaction) => reaction,
        Err(_) => panic!(rt; "there is memory"),
    };
    eq_number(rt, "forwarded", bench.count(Counter::Forwarded), 1);
    match reaction {
        Reaction::Nothing | Reaction::Refused(_) => panic!(rt; "it is sent"),
        Reaction::Send(via, twin) => {
            is_sent_on(rt, via, &twin.packet);
            false
        }
        Reaction::Pass(via, packet) => {
            is_sent_on(rt, via, &packet);
            true
        }
    }
}

/// Rows of wanted records, and whether a datagram with a single owner is lowered where it lies.
#[test]
fn packets_are_lowered_where_they_lie(rt: HostRuntime) {
    for (wanted, want) in [
        (Wanted::Nothing, true),
        (Wanted::One(IfaceNo::new(1)), true),
        (Wanted::One(IfaceNo::new(2)), false),
        (Wanted::All, false),
    ] {
        holds(
            &rt,
            "its own",
            is_passed(&rt, own_packet(&rt, DATAGRAM), &wanted) == want,
        );
        let packet = own_packet(&rt, DATAGRAM);
        let other = packet.clone().expect(&rt, "it has room");
        holds(&rt, "shared", !is_passed(&rt, packet, &wanted));
        eq_octets(&rt, "what another has", other.octets(), DATAGRAM);
        holds(
            &rt,
            "cut",
            !is_passed(&rt, packet_of(&rt, DATAGRAM), &wanted),
        );
    }
}
