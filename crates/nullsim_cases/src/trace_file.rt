//! Trace files in hexadecimal.

use nm_base::{IfaceNo, MemSink};
use nm_command::{Form, Ways};
use nm_offline::trace_file::{Traced, write_trace_file};
use nm_progress::Progress;
use nm_topology::Topology;
use std::alloc::Global;
use std::fmt::Write;
use std::io::{self, ErrorKind};

/// The greatest number of octets of an interface's trace file in hexadecimal.
const MAX_FILE_DIGITS: usize = 1_048_576;

/// The trace file of an interface in hexadecimal, and a line feed, as the program writes it.
fn trace_text(alloc: Global, topology: &Topology, iface: IfaceNo) -> io::Result<String> {
    let sink = MemSink::new(alloc, MAX_FILE_DIGITS)?;
    let place = Traced {
        iface,
        ways: Ways::Both,
    };
    let (outcome, sink) = write_trace_file(
        alloc,
        topology,
        Form::Hexadecimal,
        &place,
        sink,
        &Progress::new(),
    );
    if outcome.is_err() {
        return Err(io::Error::from(ErrorKind::OutOfMemory));
    }
    match str::from_utf8(sink.octets()) {
        Ok(digits) => Ok(String::from_str(alloc, digits)?),
        Err(_) => Err(io::Error::from(ErrorKind::InvalidData)),
    }
}

/// Adds a line `iface NAME HEX` with the trace file of an interface.
///
/// # Errors
///
/// `OutOfMemory` also if a trace file has more than 1,048,576 hexadecimal digits.
fn push_file(
    text: &mut String,
    alloc: Global,
    topology: &Topology,
    (number, name): (u32, &str),
) -> io::Result<()> {
    let file = trace_text(alloc, topology, IfaceNo::new(number))?;
    write!(text, "iface {name} {file}")?;
    Ok(())
}

/// Adds the trace file of each interface. The network is run to its stop for each of them.
pub fn push_files(text: &mut String, alloc: Global, topology: &Topology) -> io::Result<()> {
    for (number, iface) in (0..u32::MAX).zip(topology.ifaces()) {
        push_file(text, alloc, topology, (number, iface.name()))?;
    }
    Ok(())
}
