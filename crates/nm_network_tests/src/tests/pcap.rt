//! `nm_pcap`: a sink that fails after so many octets holds exactly these, and the octets of headers
//! at the ends of their ranges.

ghost use Rattle.std.specs.Prelude.{◌≡◌, ◌≤◌};

use crate::tests::same::{eq_octets, holds};
use bytes::Bytes;
use nm_base::{Dir, IfaceNo, MemSink, Packet, Record, StdSink, Time};
use nm_pcap::{PcapFault, PcapOut};
use std::io::{self, Write};
use std::process::Abort;

/// The file header; a record's header at time 0; and the packet, but for its 72 zero octets.
const FILE_HEADER: [u8; 24] = [
    0x4d, 0x3c, 0xb2, 0xa1, 0x02, 0x00, 0x04, 0x00, 0x00, 0x00, 0x00, 0x00, 0x00, 0x00, 0x00, 0x00,
    0xff, 0xff, 0x00, 0x00, 0x65, 0x00, 0x00, 0x00,
];

const RECORD_HEADER: [u8; 16] = [
    0x00, 0x00, 0x00, 0x00, 0x00, 0x00, 0x00, 0x00, 0x64, 0x00, 0x00, 0x00, 0x64, 0x00, 0x00, 0x00,
];

const PACKET_HEADERS: [u8; 28] = [
    0x45, 0x00, 0x00, 0x64, 0x00, 0x00, 0x00, 0x00, 0x40, 0x11, 0x66, 0x87, 0x0a, 0x00, 0x00, 0x01,
    0x0a, 0x00, 0x00, 0x02, 0x03, 0xe8, 0x00, 0x09, 0x00, 0x50, 0xe7, 0x5a,
];

/// The record of a packet of these octets at this time.
fn record_of(rt: &(impl Abort + AllocGlobal), nanoseconds: u64, octets: &[u8]) -> Record
    ensures { result.time ≡ nanoseconds }
{
    let octets = Bytes::copy_from_slice(rt.alloc(), octets).expect(rt, "it succeeds");
    let packet = Packet::new(rt.alloc(), octets).expect(rt, "it succeeds");
    Record {
        time: Time::from_nanoseconds(nanoseconds),
        iface: IfaceNo::new(0),
        dir: Dir::Out,
        packet: packet.expect(rt, "from 1 to 65,535 octets"),
    }
}

/// The octets of the packet.
fn packet_octets(rt: &(impl Abort + AllocGlobal)) -> Vec<u8> {
    let mut octets = Vec::from_slice(rt.alloc(), &PACKET_HEADERS).expect(rt, "it succeeds");
    octets.extend_from_slice(&[0; 72]).expect(rt, "it succeeds");
    octets
}

/// The whole file of the packet at time 0.
fn file(rt: &(impl Abort + AllocGlobal)) -> Vec<u8> {
    let mut octets = Vec::from_slice(rt.alloc(), &FILE_HEADER).expect(rt, "it succeeds");
    octets
        .extend_from_slice(&RECORD_HEADER)
        .expect(rt, "it succeeds");
    octets
        .extend_from_slice(&PACKET_HEADERS)
        .expect(rt, "it succeeds");
    octets.extend_from_slice(&[0; 72]).expect(rt, "it succeeds");
    octets
}

/// What a sink of this budget answers to the header and to the record.
fn answers_at(budget: usize) -> (Result<(), PcapFault>, Result<(), PcapFault>) {
    let written = budget as u64;
    let fault = Err(PcapFault::File { written });
    match budget {
        0..24 => (fault, Err(PcapFault::Failed)),
        24..140 => (Ok(()), fault),
        _ => (Ok(()), Ok(())),
    }
}

/// A sink of this budget has a prefix of the file, and the writer answers so once.
fn is_cut(rt: &(impl Abort + AllocGlobal), record: &Record, front: &[u8])
    requires { «record».now.time ≡ 0 }
{
    let budget = front.len();
    let (start, put) = answers_at(budget);
    let mut out = PcapOut::new(MemSink::new(rt.alloc(), budget).expect(rt, "it succeeds"));
    assert!(rt; out.start() == start, "budget {budget}");
    assert!(rt; out.put(record) == put, "budget {budget}");
    if budget < 140 {
        let again = out.put(record);
        assert!(rt; again == Err(PcapFault::Failed), "budget {budget}");
    }
    eq_octets(rt, "a prefix", out.sink().octets(), front);
}

#[test]
fn each_budget(rt: HostRuntime) {
    let octets = packet_octets(&rt);
    let record = record_of(&rt, 0, octets.as_slice());
    let whole = file(&rt);
    assert!(rt; whole.len() == 140);
    for budget in 0..=140 {
        is_cut(&rt, &record, &whole.as_slice()[..budget]);
    }
}

/// Takes one octet a call.
#[derive(Drop)]
struct Slow {
    octets: Vec<u8>,
}

impl Write for Slow {
    fn write(&mut self, octets: &[u8]) -> io::Result<usize> {
        let Some(first) = octets.first() else {
            return Ok(0);
        };
        self.octets.push(*first)?;
        Ok(1)
    }

    fn flush(&mut self) -> io::Result<()> {
        Ok(())
    }
}

#[test]
fn one_octet_a_call(rt: HostRuntime) {
    let octets = packet_octets(&rt);
    let record = record_of(&rt, 0, octets.as_slice());
    let whole = file(&rt);
    let slow = Slow {
        octets: Vec::new(rt.alloc()),
    };
    let mut out = PcapOut::new(StdSink::new(slow));
    holds(&rt, "the header", out.start() == Ok(()));
    holds(&rt, "the record", out.put(&record) == Ok(()));
    let found = out.sink().writer().octets.as_slice();
    eq_octets(&rt, "the file", found, whole.as_slice());
}

/// The file of one record.
fn file_of(rt: &(impl Abort + AllocGlobal), record: &Record) -> PcapOut<MemSink>
    requires { «record».now.time ≤ 1000000000000000 }
{
    let mut out = PcapOut::new(MemSink::new(rt.alloc(), 65_575).expect(rt, "it succeeds"));
    holds(rt, "the header", out.start() == Ok(()));
    holds(rt, "the record", out.put(record) == Ok(()));
    out
}

/// The record of so many octets at this time has this header.
fn record_header_is(
    rt: &(impl Abort + AllocGlobal),
    nanoseconds: u64,
    count: usize,
    header: &[u8; 16],
)
    requires { nanoseconds ≤ 1000000000000000 }
{
    let octets = vec![in rt.alloc(); 7u8; count].expect(rt, "it succeeds");
    let record = record_of(rt, nanoseconds, octets.as_slice());
    let out = file_of(rt, &record);
    let file = out.sink().octets();
    assert!(rt; file.len() >= 40);
    eq_octets(rt, "header", &file[24..40], header);
    eq_octets(rt, "packet", &file[40..], octets.as_slice());
}

#[test]
fn record_headers(rt: HostRuntime) {
    record_header_is(
        &rt,
        1_100_000,
        100,
        &[0, 0, 0, 0, 0xe0, 0xc8, 0x10, 0, 100, 0, 0, 0, 100, 0, 0, 0],
    );
    // 10^15 nanoseconds are 10^6 seconds
    record_header_is(
        &rt,
        1_000_000_000_000_000,
        1,
        &[0x40, 0x42, 0x0f, 0, 0, 0, 0, 0, 1, 0, 0, 0, 1, 0, 0, 0],
    );
    // one nanosecond less, and the longest packet
    record_header_is(
        &rt,
        999_999_999_999_999,
        65_535,
        &[
            0x3f, 0x42, 0x0f, 0, 0xff, 0xc9, 0x9a, 0x3b, 0xff, 0xff, 0, 0, 0xff, 0xff, 0, 0,
        ],
    )
}
