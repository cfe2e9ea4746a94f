//! Inputs that cannot be read to their end, and inputs at their limits. What other words do is
//! compared in `nullsim_cases`.

use crate::fixtures::run_line;
use nm_command::Status;
use nm_program::{Inputs, MemInputs};
use nm_topology::Refusal;
use std::alloc::{AllocError, Global};
use std::io::{self, ErrorKind, Read};
use std::net::Net;
use std::process::Abort;
use std::sync::Wait;
use std::test::Fail;
use std::time::Clock;

/// The program ends with this status, and writes nothing.
fn ends<
    I: Inputs + Drop,
    R: Abort
        + AllocGlobal
        + Net<Stream = std::net::TcpStream, Listener = std::net::TcpListener>
        + std::thread::Threads
        + Wait
        + Clock
        + Sync
        + Drop
        + Copy,
>(rt: &R, line: &str, inputs: I, status: Status) -> Result<(), Fail>
where
    I::File: Send,
{
    let ended = run_line(rt, line, inputs, 0)?;
    assert!(rt; ended.status == status, "{line}");
    assert!(rt; ended.out.octets().is_empty(), "{line}");
    Ok(())
}

/// No file beside standard input.
const NO_FILES: &[(&str, &[u8])] = &[];

/// Standard input alone.
fn standard<S>(standard: S) -> MemInputs<'static, S> {
    MemInputs {
        standard,
        files: NO_FILES,
    }
}

/// Gives one octet a call for a while, and then fails.
#[derive(Clone, Copy)]
struct Broken {
    left: u8,
}

impl Read for Broken {
    fn read(&mut self, buffer: &mut [u8]) -> io::Result<usize> {
        if self.left == 0 || buffer.is_empty() {
            return Err(io::Error::from(ErrorKind::BrokenPipe));
        }
        self.left -= 1;
        buffer[0] = b'#';
        Ok(1)
    }
}

#[test]
fn an_input_that_cannot_be_read(rt: HostRuntime) -> Result<(), Fail> {
    for left in [0, 1, 200] {
        ends(&rt, "one -", standard(Broken { left }), Status::File)?;
    }
    Ok(())
}

/// Gives so many spaces.
#[derive(Clone, Copy)]
struct Spaces {
    left: u64,
}

impl Read for Spaces {
    fn read(&mut self, buffer: &mut [u8]) -> io::Result<usize> {
        let count = self.left.min(buffer.len() as u64);
        buffer[..count as usize].fill(b' ');
        self.left -= count;
        Ok(count as usize)
    }
}

/// 67,108,864 octets are read, and are then too many for a topology; one more is not read.
#[test]
fn an_input_at_its_limit(rt: HostRuntime) -> Result<(), Fail> {
    let range = Status::Topology(Refusal::Range);
    let limit = Spaces { left: 67_108_864 };
    ends(&rt, "one -", standard(limit), range)?;
    let more = Spaces { left: 67_108_865 };
    ends(&rt, "one -", standard(more), Status::File)
}

/// A script of so many steps that name what is not there, each with a comment before it.
fn script_of(alloc: Global, steps: u64) -> Result<Vec<u8>, AllocError> {
    let mut script = Vec::new(alloc);
    for _ in 0..steps {
        script.extend_from_slice(b"#\nmerge 9 0\n")?;
    }
    Ok(script)
}

/// A network of nothing.
const NOTHING: &str = "format = 1\nstop = 1\nmtu = 576\n";

/// A million steps are read, and the first names nothing; one more is a bad line. Comments are no
/// steps.
#[test]
fn a_million_steps(rt: HostRuntime) -> Result<(), Fail> {
    for (steps, status) in [
        (1_000_000, Status::Step(0)),
        (1_000_001, Status::ScriptLine(2_000_002)),
    ] {
        let script = script_of(rt.alloc(), steps)?;
        let files = [("steps", script.as_slice())];
        let inputs = MemInputs {
            standard: NOTHING.as_bytes(),
            files: &files,
        };
        ends(&rt, "script - steps", inputs, status)?;
    }
    Ok(())
}
