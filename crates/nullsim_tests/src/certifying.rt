//! What replicas left in a folder, with one file forged at a time.

use crate::fixtures::{Ended, behind, change, front, run_line};
use crate::verifying::Broken;
use nm_base::limits::MAX_TIME;
use nm_fixtures::{SHIFT, SPLIT};
use nm_program::{Inputs, MemInputs, Runtime};
use std::io::{self, ErrorKind};
use std::net::{self, Net};
use std::process::Abort;
use std::sync::Wait;
use std::test::Fail;
use std::thread::Threads;
use std::time::Clock;

/// What a run leaves, in the order in which it is made.
const NAMES: [&str; 4] = ["d/a0.pcap", "d/b0.pcap", "d/0-0.known", "d/1-0.known"];

/// The octets of a trace file: its header, and one record with a packet of 100.
const TRACE_OCTETS: usize = 140;

/// Where its record begins.
const FIRST_RECORD: usize = 24;

/// Where the digest of the topology begins in a file of what is known, where its first frame ends,
/// and where its message's packet does.
const DIGEST: usize = 16;

const HELLO: usize = 48;

const PACKET: usize = HELLO + 25;

const NULL: usize = PACKET + 100;

/// The last octets of a file of what is known: a clock.
const CLOCK_OCTETS: usize = 8;

/// When the run stops, in nanoseconds.
const STOP: u64 = 10_000_000;

/// The network of `SPLIT`, but that the first interface is of partition 1 and the second of 0.
const SWAPPED: &str = r#"format = 1
stop = 10000000
mtu = 1500
node = [ {name = "a", kind = "host", partition = 1},
  {name = "b", kind = "host", partition = 0, ports = [9]} ]
iface = [ {name = "a0", node = "a", address = "10.0.0.1", queue = 4},
  {name = "b0", node = "b", address = "10.0.0.2", queue = 4} ]
link = [ {a = "a0", b = "b0", rate = 8000000, delay = 1000000} ]
route = [ {node = "a", to = "10.0.0.0/24", via = "a0"} ]
source = [
  {kind = "cbr", node = "a", to = "10.0.0.2", sport = 1000, dport = 9, size = 72, start = 0, interval = 1000000, count = 1} ]
"#;

/// The output if all is certified.
const CERTIFIED: &[u8] =
    b"certified\niface a0 records 1 octets 140\niface b0 records 1 octets 140\n";

/// What a run leaves.
fn left<R: Runtime + AllocGlobal>(rt: &R) -> io::Result<Ended> {
    left_by(rt, SPLIT, NAMES.len())
}

/// The output of `certify` for what a run left, with one file in place of that of this number.
fn certified<R: Runtime + AllocGlobal>(
    rt: &R,
    line: &str,
    left: &Ended,
    number: usize,
    octets: &[u8],
) -> io::Result<Ended> {
    let mut files = Vec::new(rt.alloc());
    for at in 0..NAMES.len() {
        let own = if at == number { octets } else { left.file(at) };
        files.push((NAMES[at], own))?;
    }
    let inputs = MemInputs {
        standard: SPLIT.as_bytes(),
        files: files.as_slice(),
    };
    run_line(rt, line, inputs, 0)
}

/// It prints this line.
fn refused<R: Runtime + AllocGlobal + Abort>(
    rt: &R,
    left: &Ended,
    number: usize,
    octets: &[u8],
    line: &str,
) -> Result<(), Fail> {
    let ended = certified(rt, "certify - 2 d", left, number, octets)?;
    assert!(rt;
        ended.errors.octets() == line.as_bytes(),
        "{number}: {line}"
    );
    assert!(rt; ended.out.octets().is_empty(), "{number}: {line}");
    Ok(())
}

/// Its line says that the trace file of this number differs at this octet.
fn differs<R: Runtime + AllocGlobal + Abort>(
    rt: &R,
    left: &Ended,
    number: usize,
    octets: &[u8],
    octet: usize,
) -> Result<(), Fail> {
    let name = if number == 0 { "a0" } else { "b0" };
    let line = format!(in rt.alloc(); "nullsim: differs {name} {octet}\n")?;
    refused(rt, left, number, octets, line.as_str())
}

/// So many partitions at a time, and folders in any order.
fn whole<R: Runtime + AllocGlobal + Abort>(rt: &R) -> Result<(), Fail> {
    let left = left(rt)?;
    assert!(rt; left.files.len() == NAMES.len());
    for number in 0..NAMES.len() {
        assert!(rt; left.files[number].name.as_str() == NAMES[number]);
    }
    for line in ["certify - 1 d", "certify - 2 d", "certify - 64 e d d"] {
        let ended = certified(rt, line, &left, 0, left.file(0))?;
        assert!(rt; ended.status.code() == 0, "{line}");
        assert!(rt; ended.out.octets() == CERTIFIED, "{line}");
    }
    Ok(())
}

/// Each octet of a trace file is changed in turn; it ends there; it goes on.
fn traces<R: Runtime + AllocGlobal + Abort>(rt: &R) -> Result<(), Fail> {
    let left = left(rt)?;
    for number in 0..2 {
        let mut octets = left.file(number).to_vec(rt.alloc())?;
        for octet in 0..TRACE_OCTETS {
            differs(rt, &left, number, front(octets.as_slice(), octet), octet)?;
            change(&mut octets, octet);
            differs(rt, &left, number, octets.as_slice(), octet)?;
            change(&mut octets, octet);
        }
        octets.push(0)?;
        differs(rt, &left, number, octets.as_slice(), TRACE_OCTETS)?;
    }
    Ok(())
}

/// A file of what is known ends at each octet, or goes on, or is that of another partition.
fn no_replica<R: Runtime + AllocGlobal + Abort>(rt: &R) -> Result<(), Fail> {
    let left = left(rt)?;
    let line = "nullsim: not certified 4\n";
    for number in 2..4 {
        let octets = left.file(number);
        for count in 0..octets.len() {
            refused(rt, &left, number, front(octets, count), line)?;
        }
        let mut longer = octets.to_vec(rt.alloc())?;
        longer.push(0)?;
        refused(rt, &left, number, longer.as_slice(), line)?;
        refused(rt, &left, number, left.file(5 - number), line)?;
    }
    Ok(())
}

/// A file of what is known is forged at an octet: of another topology, of no replica, a packet that
/// was not sent.
fn forged<R: Runtime + AllocGlobal + Abort>(rt: &R) -> Result<(), Fail> {
    let left = left(rt)?;
    let mut octets = left.file(3).to_vec(rt.alloc())?;
    for at in 0..HELLO {
        let number = if at < DIGEST { 4 } else { 6 };
        let line = format!(in rt.alloc(); "nullsim: not certified {number}\n")?;
        change(&mut octets, at);
        refused(rt, &left, 3, octets.as_slice(), line.as_str())?;
        change(&mut octets, at);
    }
    for at in PACKET..NULL {
        change(&mut octets, at);
        refused(
            rt,
            &left,
            3,
            octets.as_slice(),
            "nullsim: not certified 1\n",
        )?;
        change(&mut octets, at);
    }
    Ok(())
}

/// A file of what is known with this clock in its last frame, in nanoseconds.
fn with_clock<R: AllocGlobal>(rt: &R, octets: &[u8], clock: u64) -> io::Result<Vec<u8>> {
    let count = octets.len().saturating_sub(CLOCK_OCTETS);
    let mut new = front(octets, count).to_vec(rt.alloc())?;
    new.extend_from_slice(&clock.to_be_bytes())?;
    Ok(new)
}

/// A clock that was not promised; one that is just at the end, by which all is done; one before it;
/// a message that is left out. How far past the end a replica's clocks are when its run ends
/// differs from run to run.
fn clocks<R: Runtime + AllocGlobal + Abort>(rt: &R) -> Result<(), Fail> {
    let left = left(rt)?;
    let late = with_clock(rt, left.file(3), MAX_TIME)?;
    refused(rt, &left, 3, late.as_slice(), "nullsim: not certified 3\n")?;
    let just = with_clock(rt, left.file(3), STOP)?;
    let ended = certified(rt, "certify - 2 d", &left, 3, just.as_slice())?;
    assert!(rt; ended.out.octets() == CERTIFIED);
    let early = with_clock(rt, left.file(3), STOP - 1)?;
    refused(rt, &left, 3, early.as_slice(), "nullsim: not certified 5\n")?;
    let mut fewer = front(left.file(3), HELLO).to_vec(rt.alloc())?;
    fewer.extend_from_slice(behind(left.file(3), NULL))?;
    let count = fewer.len().saturating_sub(CLOCK_OCTETS + 1);
    change(&mut fewer, count); // one message becomes none
    refused(rt, &left, 3, fewer.as_slice(), "nullsim: not certified 2\n")
}

/// A folder has no file of what is known, or not all trace files.
fn missing<R: Runtime + AllocGlobal + Abort>(rt: &R) -> Result<(), Fail> {
    let left = left(rt)?;
    let none: &[u8] = &[];
    let ended = certified(rt, "certify - 2 e", &left, 0, none)?;
    assert!(rt; ended.errors.octets() == b"nullsim: not certified 4\n".as_slice());
    let known = [("d/0-1.known", left.file(2)), ("d/1-0.known", left.file(3))];
    let inputs = MemInputs {
        standard: SPLIT.as_bytes(),
        files: &known,
    };
    let ended = run_line(rt, "certify - 2 d", inputs, 0)?;
    assert!(rt; ended.errors.octets() == b"nullsim: file\n".as_slice());
    Ok(())
}

/// A copy of a file with one octet changed.
fn changed<R: AllocGlobal>(rt: &R, octets: &[u8], at: usize) -> io::Result<Vec<u8>> {
    let mut copy = octets.to_vec(rt.alloc())?;
    change(&mut copy, at);
    Ok(copy)
}

/// A copy of a file that goes on behind its end.
fn longer<R: AllocGlobal>(rt: &R, octets: &[u8]) -> io::Result<Vec<u8>> {
    let mut copy = octets.to_vec(rt.alloc())?;
    copy.push(0)?;
    Ok(copy)
}

/// `certify` ends with this line for the files of a network.
fn says<R: Runtime + AllocGlobal + Abort>(
    rt: &R,
    network: &str,
    files: &[(&str, &[u8])],
    line: &str,
) -> Result<(), Fail> {
    let inputs = MemInputs {
        standard: network.as_bytes(),
        files,
    };
    let ended = run_line(rt, "certify - 2 d", inputs, 0)?;
    assert!(rt; ended.errors.octets() == line.as_bytes(), "{line}");
    assert!(rt; ended.out.octets().is_empty(), "{line}");
    Ok(())
}

/// What a run of a network leaves, so many files.
fn left_by<R: Runtime + AllocGlobal>(rt: &R, network: &str, room: usize) -> io::Result<Ended> {
    let inputs = MemInputs {
        standard: network.as_bytes(),
        files: &[],
    };
    run_line(rt, "run - d 1 1 keep", inputs, room)
}

/// `certify` ends with this line for these trace files beside what the replicas of both partitions
/// left.
fn says_beside<R: Runtime + AllocGlobal + Abort>(
    rt: &R,
    network: &str,
    left: &Ended,
    a0: &[u8],
    b0: &[u8],
    line: &str,
) -> Result<(), Fail> {
    let files = [
        (NAMES[0], a0),
        (NAMES[1], b0),
        (NAMES[2], left.file(2)),
        (NAMES[3], left.file(3)),
    ];
    says(rt, network, &files, line)
}

/// Files of two partitions differ, in their headers, their records or behind them: the lesser
/// interface is named, in whichever partition it is.
fn two_partitions<R: Runtime + AllocGlobal + Abort>(rt: &R) -> Result<(), Fail> {
    for network in [SPLIT, SWAPPED] {
        let left = left_by(rt, network, NAMES.len())?;
        for octet in [0, FIRST_RECORD, TRACE_OCTETS - 1, TRACE_OCTETS] {
            let a0 = if octet == TRACE_OCTETS {
                longer(rt, left.file(0))?
            } else {
                changed(rt, left.file(0), octet)?
            };
            let line = format!(in rt.alloc(); "nullsim: differs a0 {octet}\n")?;
            for at in [0, FIRST_RECORD, TRACE_OCTETS - 1] {
                let b0 = changed(rt, left.file(1), at)?;
                let (a0, b0) = (a0.as_slice(), b0.as_slice());
                says_beside(rt, network, &left, a0, b0, line.as_str())?;
            }
        }
    }
    Ok(())
}

/// The line for the files of `SHIFT` with these as those of the first two interfaces, which are of
/// one partition.
fn shifted<R: Runtime + AllocGlobal + Abort>(
    rt: &R,
    left: &Ended,
    first: &[u8],
    second: &[u8],
    line: &str,
) -> Result<(), Fail> {
    let files = [
        ("d/a0.pcap", first),
        ("d/r0.pcap", second),
        ("d/r1.pcap", left.file(2)),
        ("d/b0.pcap", left.file(3)),
        ("d/0-0.known", left.file(4)),
        ("d/1-0.known", left.file(5)),
    ];
    says(rt, SHIFT, &files, line)
}

/// Files of one partition differ, that of the greater interface first in the order of records, or
/// in its header: the lesser interface is named.
fn one_partition<R: Runtime + AllocGlobal + Abort>(rt: &R) -> Result<(), Fail> {
    let left = left_by(rt, SHIFT, 6)?;
    let (a0, r0) = (left.file(0), left.file(1));
    let last = a0.len().saturating_sub(1);
    let at_last = format!(in rt.alloc(); "nullsim: differs a0 {last}\n")?;
    let behind = format!(in rt.alloc(); "nullsim: differs a0 {}\n", a0.len())?;
    let first = changed(rt, a0, last)?;
    let more = longer(rt, a0)?;
    for octet in [0, FIRST_RECORD] {
        let second = changed(rt, r0, octet)?;
        let (first, more, second) = (first.as_slice(), more.as_slice(), second.as_slice());
        shifted(rt, &left, first, second, at_last.as_str())?;
        shifted(rt, &left, more, second, behind.as_str())?;
        let line = format!(in rt.alloc(); "nullsim: differs r0 {octet}\n")?;
        shifted(rt, &left, a0, second, line.as_str())?;
    }
    Ok(())
}

/// Trace files differ, one in its header, and the books are not certified.
fn forged_beside<R: Runtime + AllocGlobal + Abort>(rt: &R) -> Result<(), Fail> {
    let left = left(rt)?;
    let other = changed(rt, left.file(3), PACKET)?;
    for octet in [0, TRACE_OCTETS - 1] {
        let (a0, b0) = (
            changed(rt, left.file(0), octet)?,
            changed(rt, left.file(1), 0)?,
        );
        let files = [
            (NAMES[0], a0.as_slice()),
            (NAMES[1], b0.as_slice()),
            (NAMES[2], left.file(2)),
            (NAMES[3], other.as_slice()),
        ];
        says(rt, SPLIT, &files, "nullsim: not certified 1\n")?;
    }
    Ok(())
}

/// Files with their names; one has these octets, and fails where they end.
#[derive(Clone, Copy)]
struct Failing<'a> {
    files: &'a [(&'a str, &'a [u8])],
    fails: &'a str,
    octets: &'a [u8],
}

impl<'a> Inputs for Failing<'a> {
    ghost use Rattle.std.specs.Prelude.{None};

    type Standard = Broken<'a>;

    type File = Broken<'a>;

    ghost seen = { λ _. record { standard = None; file = λ _. None } };

    fn standard(&self) -> Broken<'a> {
        Broken {
            left: SPLIT.as_bytes(),
            fails: false,
        }
    }

    fn open(&self, name: &str) -> io::Result<Broken<'a>> {
        if name == self.fails {
            return Ok(Broken {
                left: self.octets,
                fails: true,
            });
        }
        for file in self.files {
            if file.0 == name {
                return Ok(Broken {
                    left: file.1,
                    fails: false,
                });
            }
        }
        Err(io::Error::from(ErrorKind::NotFound))
    }
}

/// A read of the file of this name among these fails behind these octets.
fn fails_among<R: Runtime + AllocGlobal + Abort>(
    rt: &R,
    files: &[(&str, &[u8])],
    name: &str,
    octets: &[u8],
) -> Result<(), Fail> {
    let inputs = Failing {
        files,
        fails: name,
        octets,
    };
    let ended = run_line(rt, "certify - 2 d", inputs, 0)?;
    assert!(rt;
        ended.errors.octets() == b"nullsim: file\n".as_slice(),
        "{name}"
    );
    assert!(rt; ended.out.octets().is_empty(), "{name}");
    Ok(())
}

/// It does beside these trace files.
fn fails_beside<R: Runtime + AllocGlobal + Abort>(
    rt: &R,
    left: &Ended,
    a0: &[u8],
    b0: &[u8],
    name: &str,
    octets: &[u8],
) -> Result<(), Fail> {
    let files = [
        (NAMES[0], a0),
        (NAMES[1], b0),
        (NAMES[2], left.file(2)),
        (NAMES[3], left.file(3)),
    ];
    fails_among(rt, &files, name, octets)
}

/// A read of the file of this name fails behind these octets, while the others are as they were
/// left, or a trace file among them differs.
fn fails<R: Runtime + AllocGlobal + Abort>(
    rt: &R,
    left: &Ended,
    name: &str,
    octets: &[u8],
) -> Result<(), Fail> {
    let a0 = changed(rt, left.file(0), TRACE_OCTETS - 1)?;
    let b0 = changed(rt, left.file(1), TRACE_OCTETS - 1)?;
    fails_beside(rt, left, left.file(0), left.file(1), name, octets)?;
    fails_beside(rt, left, a0.as_slice(), left.file(1), name, octets)?;
    fails_beside(rt, left, left.file(0), b0.as_slice(), name, octets)
}

/// A read of a trace file, or of a file of what is known, fails, also if only the end is left to be
/// seen.
fn unreadable<R: Runtime + AllocGlobal + Abort>(rt: &R) -> Result<(), Fail> {
    let left = left(rt)?;
    for number in 0..NAMES.len() {
        let octets = left.file(number);
        let last = octets.len().saturating_sub(1);
        for count in [0, 1, FIRST_RECORD, last, octets.len()] {
            fails(rt, &left, NAMES[number], front(octets, count))?;
        }
    }
    Ok(())
}

/// All of these, one after another.
fn all<
    R: Abort
        + AllocGlobal
        + Net<Stream = net::TcpStream, Listener = net::TcpListener>
        + Threads
        + Wait
        + Clock
        + Sync
        + Drop
        + Copy,
>(rt: &R) -> Result<(), Fail> {
    whole(rt)?;
    traces(rt)?;
    no_replica(rt)?;
    forged(rt)?;
    clocks(rt)?;
    missing(rt)?;
    two_partitions(rt)?;
    one_partition(rt)?;
    forged_beside(rt)?;
    unreadable(rt)
}

#[test]
fn files_that_replicas_left(rt: HostRuntime) -> Result<(), Fail> {
    all(&rt)
}
