//! Existing trace files, octet by octet: which of them differs first, and where.

use crate::fixtures::{Ended, change, front, run_line};
use nm_fixtures::DUO;
use nm_program::{Inputs, MemInputs, Runtime};
use std::io::{self, ErrorKind, Read};
use std::net::{self, Net};
use std::process::Abort;
use std::sync::Wait;
use std::test::Fail;
use std::thread::Threads;
use std::time::Clock;

/// The octets of each file: its header, and one record with a packet of 100.
const OCTETS: usize = 140;

const HEADER_OCTETS: usize = 24;

/// The output for both files if they are whole.
const VERIFIED: &[u8] = b"verified\niface a0 records 1 octets 140\niface b0 records 1 octets 140\n";

/// What `all` makes: the files of two interfaces.
fn made<R: Runtime + AllocGlobal>(rt: &R) -> io::Result<Ended> {
    let inputs = MemInputs {
        standard: DUO.as_bytes(),
        files: &[],
    };
    run_line(rt, "all - d", inputs, 2)
}

/// The output of `verify` for these files.
fn verified<R: Runtime + AllocGlobal>(
    rt: &R,
    line: &str,
    a0: &[u8],
    b0: &[u8],
) -> io::Result<Ended> {
    let files = [("d/a0.pcap", a0), ("d/b0.pcap", b0)];
    let inputs = MemInputs {
        standard: DUO.as_bytes(),
        files: &files,
    };
    run_line(rt, line, inputs, 0)
}

/// `verify` ends with the line that the file of an interface differs at this octet.
fn differs<R: Runtime + AllocGlobal + Abort>(
    rt: &R,
    a0: &[u8],
    b0: &[u8],
    iface: &str,
    octet: usize,
) -> Result<(), Fail> {
    let ended = verified(rt, "verify - d", a0, b0)?;
    let line = format!(in rt.alloc(); "nullsim: differs {iface} {octet}\n")?;
    assert!(rt; ended.status.code() == 8, "{line}");
    assert!(rt; ended.errors.octets() == line.as_bytes(), "{line}");
    assert!(rt; ended.out.octets().is_empty(), "{line}");
    Ok(())
}

fn whole<R: Runtime + AllocGlobal + Abort>(rt: &R) -> Result<(), Fail> {
    let made = made(rt)?;
    let (a0, b0) = (made.file(0), made.file(1));
    assert!(rt; a0.len() == OCTETS && b0.len() == OCTETS);
    let ended = verified(rt, "verify - d", a0, b0)?;
    assert!(rt; ended.status.code() == 0);
    assert!(rt; ended.out.octets() == VERIFIED);
    Ok(())
}

/// Each octet of both is changed in turn.
fn octets_changed<R: Runtime + AllocGlobal + Abort>(rt: &R) -> Result<(), Fail> {
    let made = made(rt)?;
    let mut a0 = made.file(0).to_vec(rt.alloc())?;
    let mut b0 = made.file(1).to_vec(rt.alloc())?;
    for octet in 0..OCTETS {
        change(&mut a0, octet);
        differs(rt, a0.as_slice(), b0.as_slice(), "a0", octet)?;
        change(&mut a0, octet);
        change(&mut b0, octet);
        differs(rt, a0.as_slice(), b0.as_slice(), "b0", octet)?;
        change(&mut b0, octet);
    }
    Ok(())
}

/// Each ends at every octet in turn, and goes on by one.
fn lengths<R: Runtime + AllocGlobal + Abort>(rt: &R) -> Result<(), Fail> {
    let made = made(rt)?;
    let mut a0 = made.file(0).to_vec(rt.alloc())?;
    let mut b0 = made.file(1).to_vec(rt.alloc())?;
    for octet in 0..OCTETS {
        let (a0, b0) = (a0.as_slice(), b0.as_slice());
        differs(rt, front(a0, octet), b0, "a0", octet)?;
        differs(rt, a0, front(b0, octet), "b0", octet)?;
    }
    b0.push(0)?;
    differs(rt, a0.as_slice(), b0.as_slice(), "b0", OCTETS)?;
    a0.push(0)?;
    differs(rt, a0.as_slice(), b0.as_slice(), "a0", OCTETS)
}

/// Headers come before records, these in the order of events, and ends after them. Two files that
/// are exchanged differ in the first record, by its time.
fn order<R: Runtime + AllocGlobal + Abort>(rt: &R) -> Result<(), Fail> {
    let made = made(rt)?;
    let mut a0 = made.file(0).to_vec(rt.alloc())?;
    let mut b0 = made.file(1).to_vec(rt.alloc())?;
    let second = HEADER_OCTETS + 4;
    differs(rt, b0.as_slice(), a0.as_slice(), "a0", second)?;
    change(&mut a0, OCTETS - 1);
    change(&mut b0, OCTETS - 1);
    differs(rt, a0.as_slice(), b0.as_slice(), "a0", OCTETS - 1)?;
    change(&mut b0, HEADER_OCTETS - 1);
    differs(rt, a0.as_slice(), b0.as_slice(), "b0", HEADER_OCTETS - 1)?;
    change(&mut a0, OCTETS - 1);
    a0.push(0)?;
    change(&mut b0, HEADER_OCTETS - 1);
    differs(rt, a0.as_slice(), b0.as_slice(), "b0", OCTETS - 1)
}

/// Files that are not asked for are not looked at.
fn some<R: Runtime + AllocGlobal + Abort>(rt: &R) -> Result<(), Fail> {
    let made = made(rt)?;
    let (a0, b0) = (made.file(0), made.file(1));
    let ended = verified(rt, "verify - d b0", front(a0, 1), b0)?;
    assert!(rt; ended.status.code() == 0);
    assert!(rt; ended.out.octets() == b"verified\niface b0 records 1 octets 140\n".as_slice());
    let ended = verified(rt, "verify - d a0 b0 b0", a0, b0)?;
    assert!(rt; ended.out.octets() == VERIFIED);
    let ended = verified(rt, "verify - d c0", a0, b0)?;
    assert!(rt; ended.errors.octets() == b"nullsim: no interface\n".as_slice());
    let ended = verified(rt, "verify - e", a0, b0)?;
    assert!(rt; ended.errors.octets() == b"nullsim: file\n".as_slice());
    Ok(())
}

/// A reader of these octets, which then ends, or fails.
#[derive(Clone, Copy)]
pub(crate) struct Broken<'a> {
    pub(crate) left: &'a [u8],
    pub(crate) fails: bool,
}

impl Read for Broken<'_> {
    fn read(&mut self, buffer: &mut [u8]) -> io::Result<usize> {
        if self.fails && self.left.is_empty() {
            return Err(io::Error::from(ErrorKind::BrokenPipe));
        }
        self.left.read(buffer)
    }
}

/// All files are this one.
#[derive(Clone, Copy)]
struct OneFile<'a> {
    octets: &'a [u8],
}

impl<'a> Inputs for OneFile<'a> {
    ghost use Rattle.std.specs.Prelude.{None};

    type Standard = Broken<'a>;

    type File = Broken<'a>;

    ghost seen = { λ _. record { standard = None; file = λ _. None } };

    fn standard(&self) -> Broken<'a> {
        Broken {
            left: DUO.as_bytes(),
            fails: false,
        }
    }

    fn open(&self, _name: &str) -> io::Result<Broken<'a>> {
        Ok(Broken {
            left: self.octets,
            fails: true,
        })
    }
}

/// A read fails after so many octets, also if only the end is left to be seen.
fn unreadable<R: Runtime + AllocGlobal + Abort>(rt: &R) -> Result<(), Fail> {
    let made = made(rt)?;
    for count in [0, 1, HEADER_OCTETS, OCTETS - 1, OCTETS] {
        let octets = front(made.file(0), count);
        let ended = run_line(rt, "verify - d a0", OneFile { octets }, 0)?;
        assert!(rt;
            ended.errors.octets() == b"nullsim: file\n".as_slice(),
            "{count}"
        );
    }
    Ok(())
}

/// All of these, one after another.
fn all<
    R: Abort
        + AllocGlobal
        + Net<Stream = net::TcpStream, Listener = net::TcpListener>
        + Threads
        + Wait
        + Clock
        + Sync
        + Drop
        + Copy,
>(rt: &R) -> Result<(), Fail> {
    whole(rt)?;
    octets_changed(rt)?;
    lengths(rt)?;
    order(rt)?;
    some(rt)?;
    unreadable(rt)
}

#[test]
fn files_that_are_there(rt: HostRuntime) -> Result<(), Fail> {
    all(&rt)
}
