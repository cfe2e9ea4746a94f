//! `nm_base`: keys are in their order, packets have a range of sizes, sinks take up to their
//! budget.

use crate::tests::same::{eq_number, eq_octets, holds};
use bytes::Bytes;
use nm_base::limits::MAX_PACKET_OCTETS;
use nm_base::sink::{write_all, write_counted};
use nm_base::{
    IfaceNo, Key, MemSink, Packet, Place, Sink, SinkFault, SourceNo, StdSink, Time, Twin,
};
use std::io::{self, ErrorKind, Write};
use std::process::Abort;

fn key(nanoseconds: u64, place: Place, number: u64) -> Key {
    Key {
        time: Time::from_nanoseconds(nanoseconds),
        place,
        number,
    }
}

/// Each key is before those that follow it, and equal to none of them.
fn rise(rt: &impl Abort, keys: &[Key]) {
    for (i, a) in keys.iter().enumerate() {
        for (j, b) in keys.iter().enumerate() {
            assert!(rt; a.cmp(b) == i.cmp(&j), "{i} against {j}");
            assert!(rt; (a == b) == (i == j), "{i} against {j}");
        }
    }
}

#[test]
fn keys_stand_in_their_order(rt: HostRuntime) {
    rise(
        &rt,
        &[
            key(0, Place::Fire(SourceNo::new(1)), 7),
            key(5, Place::Arrive(IfaceNo::new(0)), 2),
            key(5, Place::Arrive(IfaceNo::new(0)), 3),
            key(5, Place::Complete(IfaceNo::new(0)), 0),
            key(5, Place::Arrive(IfaceNo::new(1)), 0),
            key(5, Place::Complete(IfaceNo::new(1)), 0),
            key(5, Place::Arrive(IfaceNo::new(5)), 0),
            key(5, Place::Fire(SourceNo::new(0)), 0),
            key(5, Place::Fire(SourceNo::new(1)), 0),
            key(6, Place::Arrive(IfaceNo::new(0)), 0),
        ],
    );
}

/// Whether so many octets are a packet, which then has these octets.
fn is_packet(rt: &(impl Abort + AllocGlobal), count: usize) -> bool {
    let octets = vec![in rt.alloc(); 7u8; count].expect(rt, "it succeeds");
    let copy = Bytes::copy_from_slice(rt.alloc(), octets.as_slice()).expect(rt, "it succeeds");
    let Some(packet) = Packet::new(rt.alloc(), copy).expect(rt, "it succeeds") else {
        return false;
    };
    eq_number(rt, "octets", packet.octet_count() as u64, count as u64);
    eq_octets(rt, "a packet", packet.octets(), octets.as_slice());
    true
}

fn are_packets(rt: &(impl Abort + AllocGlobal), rows: &[(usize, bool)]) {
    for (count, want) in rows {
        let found = is_packet(rt, *count);
        assert!(rt; found == *want, "{count} octets");
    }
}

#[test]
fn packets_have_a_range_of_sizes(rt: HostRuntime) {
    eq_number(&rt, "the most", MAX_PACKET_OCTETS as u64, 65_535);
    are_packets(
        &rt,
        &[(0, false), (1, true), (65_535, true), (65_536, false)],
    )
}

#[test]
fn packets_are_twins(rt: HostRuntime) {
    let octets = Bytes::from_static(b"two");
    let packet = Packet::new(rt.alloc(), octets).expect(&rt, "it succeeds");
    let twin = Twin::new(packet.expect(&rt, "three octets fit")).expect(&rt, "it succeeds");
    holds(&rt, "they are equal", twin.packet == twin.copy);
    eq_octets(&rt, "a copy", twin.copy.octets(), b"two");
}

/// A sink of this budget takes so much of a text, and answers so.
fn takes(rt: &(impl Abort + AllocGlobal), budget: usize, text: &[u8]) {
    let mut sink = MemSink::new(rt.alloc(), budget).expect(rt, "it succeeds");
    let (written, outcome) = write_counted(&mut sink, text);
    let taken = budget.min(text.len());
    let want = if budget < text.len() {
        Err(SinkFault)
    } else {
        Ok(())
    };
    assert!(rt; outcome == want, "budget {budget}");
    eq_number(rt, "counted", written as u64, taken as u64);
    eq_octets(rt, "taken", sink.octets(), &text[..taken]);
    eq_number(rt, "room", sink.room() as u64, (budget - taken) as u64);
}

#[test]
fn sinks_take_up_to_their_budget(rt: HostRuntime) {
    for budget in 0..=13 {
        takes(&rt, budget, b"twelve octet");
    }
}

#[test]
fn sinks_write_to_memory(rt: HostRuntime) {
    let mut sink = StdSink::new(Vec::new(rt.alloc()));
    holds(&rt, "all", write_all(&mut sink, b"one") == Ok(()));
    holds(&rt, "some", sink.write_some(b"two") == Ok(3));
    eq_octets(&rt, "written", sink.writer().as_slice(), b"onetwo");
}

/// Takes two octets a call, then nothing, then fails.
#[derive(Drop)]
struct Tired {
    calls: u8,
}

impl Write for Tired {
    fn write(&mut self, octets: &[u8]) -> io::Result<usize> {
        self.calls = self.calls.saturating_add(1);
        match self.calls {
            1 | 2 => Ok(octets.len().min(2)),
            3 => Ok(0),
            _ => Err(io::Error::from(ErrorKind::Other)),
        }
    }

    fn flush(&mut self) -> io::Result<()> {
        Ok(())
    }
}

#[test]
fn sinks_fail_with_their_writer(rt: HostRuntime) {
    let mut sink = StdSink::new(Tired { calls: 0 });
    let (taken, outcome) = write_counted(&mut sink, b"abcdef");
    eq_number(&rt, "a prefix", taken as u64, 4);
    holds(&rt, "cut short", outcome == Err(SinkFault));
    holds(&rt, "a fault", sink.write_some(b"abcdef") == Err(SinkFault));
    eq_number(&rt, "calls", u64::from(sink.writer().calls), 4);
}
