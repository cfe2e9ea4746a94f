//! The records of a trace: a line `TIME IFACE in|out COUNT HEX` each, with the count of the
//! packet's octets, and the octets without the zeros that end them.

use nm_base::{Dir, Record};
use nm_topology::Topology;
use std::alloc::Global;
use std::io;

/// The line of a record.
fn record_line(alloc: Global, topology: &Topology, record: &Record) -> io::Result<String> {
    let Some(iface) = topology.ifaces().get(record.iface.index()) else {
        return Err(io::Error::other("a record of no interface"));
    };
    let way = match record.dir {
        Dir::In => "in",
        Dir::Out => "out",
    };
    let octets = hex::encode(alloc, record.packet.octets())?;
    let shown = octets.as_str().trim_end_matches('0');
    let (time, name) = (record.time.nanoseconds(), iface.name());
    let count = record.packet.octet_count();
    Ok(format!(in alloc; "{time} {name} {way} {count} {shown}\n")?)
}

/// Adds a line for each record.
pub fn push_records(
    text: &mut String,
    alloc: Global,
    topology: &Topology,
    records: &[Record],
) -> io::Result<()> {
    for record in records {
        text.push_str(record_line(alloc, topology, record)?.as_str())?;
    }
    Ok(())
}
