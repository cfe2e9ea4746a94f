//! `nm_traffic`: worked sources of each kind, and the ends of their ranges.

use crate::tests::same::eq_octets;
use nm_base::{SourceNo, Time};
use nm_topology::Topology;
use nm_traffic::{Source, SourcePacket};
use std::process::Abort;

/// Two hosts and one link, with these sources; the run stops at this time.
fn network(rt: &(impl Abort + AllocGlobal), stop: u64, sources: &str) -> String {
    format!(in rt.alloc();
        r#"format = 1
stop = {stop}
mtu = 1500
source = [{sources}]
[[node]]
name = "a"
kind = "host"
partition = 0
[[node]]
name = "b"
kind = "host"
partition = 0
[[iface]]
name = "a0"
node = "a"
address = "10.0.0.1"
queue = 4
[[iface]]
name = "b0"
node = "b"
address = "10.0.0.2"
queue = 4
[[link]]
a = "a0"
b = "b0"
rate = 8000000
delay = 1000000
"#
    )
    .expect(rt, "it succeeds")
}

/// The source with this number of a network that has these sources and stops at this time.
fn source_of(rt: &(impl Abort + AllocGlobal), stop: u64, sources: &str, number: u32) -> Source {
    let text = network(rt, stop, sources);
    let topology = Topology::read(rt.alloc(), text.as_str().as_bytes()).expect(rt, "it succeeds");
    let number = SourceNo::new(number);
    if number.index() >= topology.sources().len() {
        panic!(rt; "there is no such source");
    }
    Source::new(rt.alloc(), &topology, number).expect(rt, "it succeeds")
}

/// Rows of a packet's number, and of its time if there is one.
fn come_at(rt: &(impl Abort + AllocGlobal), source: &Source, rows: &[(u64, Option<u64>)]) {
    for (number, want) in rows {
        let packet = source.next(rt.alloc(), *number).expect(rt, "it succeeds");
        let found = packet.map(|(time, _)| time.nanoseconds());
        assert!(rt; found == *want, "packet {number}");
    }
}

/// Packet `number`, which has to be there, and its time.
fn packet_of(
    rt: &(impl Abort + AllocGlobal),
    source: &Source,
    number: u64,
) -> (Time, SourcePacket) {
    match source.next(rt.alloc(), number).expect(rt, "it succeeds") {
        Some(packet) => packet,
        None => panic!(rt; "there is no such packet"),
    }
}

/// A packet has these octets, in hexadecimal.
fn packet_is(rt: &(impl Abort + AllocGlobal), packet: SourcePacket, octets: &str) {
    let want = hex::decode(rt.alloc(), octets).expect(rt, "it succeeds");
    eq_octets(rt, octets, packet.into_packet().octets(), want.as_slice());
}

/// Rows of a packet's number, of its time, and of its octets in hexadecimal.
fn packets_are(rt: &(impl Abort + AllocGlobal), source: &Source, rows: &[(u64, u64, &str)]) {
    for (number, time, octets) in rows {
        let (at, packet) = packet_of(rt, source, *number);
        assert!(rt; at.nanoseconds() == *time, "packet {number}");
        packet_is(rt, packet, octets);
    }
}

/// The packets of a source of a text: those of these rows, and at these numbers behind them none.
fn gives(
    rt: &(impl Abort + AllocGlobal),
    stop: u64,
    sources: &str,
    number: u32,
    rows: &[(u64, u64, &str)],
    past: &[u64],
) {
    let source = source_of(rt, stop, sources, number);
    packets_are(rt, &source, rows);
    for none in past {
        come_at(rt, &source, &[(*none, None)]);
    }
}

/// Three packets of three octets.
const THREE: &str = r#"
  {kind = "cbr", node = "a", to = "10.0.0.2", sport = 1000, dport = 9, size = 3, fill = 7, start = 5, interval = 10, count = 3}
"#;

#[test]
fn datagrams(rt: HostRuntime) {
    let rows = [(0, 5, "070707"), (1, 15, "070707"), (2, 25, "070707")];
    gives(&rt, 1_000, THREE, 0, &rows, &[3, 4, u64::MAX]);
}

/// Rows of a `stop`, and of what the first source of this text sends before it.
fn come_before(
    rt: &(impl Abort + AllocGlobal),
    sources: &str,
    rows: &[(u64, &[(u64, Option<u64>)])],
) {
    for (stop, packets) in rows {
        let source = source_of(rt, *stop, sources, 0);
        come_at(rt, &source, packets);
    }
}

#[test]
fn datagrams_when_the_run_stops(rt: HostRuntime) {
    come_before(
        &rt,
        THREE,
        &[
            (26, &[(2, Some(25))]),
            (25, &[(2, None), (1, Some(15))]),
            (16, &[(1, Some(15))]),
            (15, &[(1, None), (0, Some(5))]),
            (5, &[(0, None)]),
        ],
    )
}

/// No data, and a packet that comes as the run stops.
const NO_DATA: &str = r#"
  {kind = "cbr", node = "b", to = "10.0.0.1", sport = 0, dport = 0, size = 0, fill = 255, start = 0, interval = 1, count = 2}
"#;

#[test]
fn datagrams_without_data(rt: HostRuntime) {
    gives(&rt, 1, NO_DATA, 0, &[(0, 0, "00")], &[1]);
}

/// The longest interval and the most packets. Packet 18,446,745 would be at
/// 18,446,745,000,000,000,000 nanoseconds, which is 926,290,448,384 more than 2^64, a time at which
/// packets still come.
const FAR: &str = r#"
  {kind = "cbr", node = "a", to = "10.0.0.2", sport = 1, dport = 1, size = 1472, start = 0, interval = 1000000000000, count = 1000000000}
"#;

#[test]
fn datagrams_past_64_bits(rt: HostRuntime) {
    let source = source_of(&rt, 1_000_000_000_000_000, FAR, 0);
    come_at(
        &rt,
        &source,
        &[
            (999, Some(999_000_000_000_000)),
            (1_000, None),
            (18_446_745, None),
            (999_999_999, None),
            (1_000_000_000, None),
            (u64::MAX, None),
        ],
    )
}

/// A source of another kind, and then one of echo requests with the identifier 1234 in hexadecimal.
const REQUESTS: &str = r#"
  {kind = "raw", node = "a", via = "a0", packet = [ {at = 0, data = "45"} ]},
  {kind = "echo", node = "a", to = "10.0.0.2", ident = 4660, size = 3, fill = 171, start = 100, interval = 1, count = 65538}
"#;

/// The sequence number begins again after 65,536 requests.
#[test]
fn requests(rt: HostRuntime) {
    let rows = [
        (0, 100, "08008f1f12340000ababab"),
        (1, 101, "08008f1e12340001ababab"),
        (65_535, 65_635, "08008f1f1234ffffababab"),
        (65_536, 65_636, "08008f1f12340000ababab"),
        (65_537, 65_637, "08008f1e12340001ababab"),
    ];
    let past = [65_538, 65_539, u64::MAX];
    gives(&rt, 1_000_000, REQUESTS, 1, &rows, &past);
}

/// Requests with no data.
const EMPTY: &str = r#"
  {kind = "echo", node = "b", to = "10.0.0.1", ident = 1, size = 0, start = 0, interval = 1, count = 1}
"#;

#[test]
fn requests_without_data(rt: HostRuntime) {
    gives(&rt, 1, EMPTY, 0, &[(0, 0, "0800f7fe00010000")], &[]);
}

/// Three packets; the last one comes as the run stops at 9.
const RAW: &str = r#"
  {kind = "raw", node = "b", via = "b0", packet = [ {at = 0, data = "45"}, {at = 3, data = "00ff"}, {at = 9, data = "0102"} ]}
"#;

#[test]
fn raw_packets(rt: HostRuntime) {
    let rows = [(0, 0, "45"), (1, 3, "00ff"), (2, 9, "0102")];
    gives(&rt, 10, RAW, 0, &rows, &[3, u64::MAX]);
}

#[test]
fn raw_packets_when_the_run_stops(rt: HostRuntime) {
    come_before(
        &rt,
        RAW,
        &[
            (9, &[(1, Some(3)), (2, None)]),
            (1, &[(0, Some(0)), (1, None)]),
        ],
    )
}
