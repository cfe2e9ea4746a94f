//! What is at the place where a trace file differs, for a terminal: the record of its trace, and
//! the octets of the file.

use crate::rereading::read_network;
use nm_base::sink::write_all;
use nm_base::{IfaceNo, Record, Sink, Wanted};
use nm_pcap::format::{FILE_HEADER_OCTETS, RECORD_HEADER_OCTETS};
use nm_report::packet_line::push_packet_line;
use nm_sim::Tracer;
use nm_topology::Topology;
use std::alloc::{AllocError, Global};
use std::fs::{self, File};
use std::io::{self, Read, Seek, SeekFrom};

/// How many octets of a file are shown at most.
const SHOWN_OCTETS: u64 = 16;

/// The place of an octet of a trace file.
#[derive(Drop)]
enum Place {
    Header,
    /// In the record of this line, which `text` shows.
    Record(Vec<u8>),
    /// Behind all records.
    Behind,
}

/// How many octets a record has in a trace file.
fn octets_of(record: &Record) -> u64 {
    RECORD_HEADER_OCTETS as u64 + record.packet.octet_count() as u64
}

/// The line of the record that has this octet, after `end` octets before the records: that, or
/// where they end.
fn find(
    alloc: Global,
    records: &[Record],
    octet: u64,
    end: u64,
) -> Result<(Option<Vec<u8>>, u64), AllocError> {
    let mut end = end;
    for record in records {
        end = end.saturating_add(octets_of(record));
        if octet < end {
            let mut line = Vec::new(alloc);
            push_packet_line(&mut line, record)?;
            return Ok((Some(line), end));
        }
    }
    Ok((None, end))
}

/// The place of an octet of an interface's trace file.
fn place_of(
    alloc: Global,
    network: &Topology,
    iface: IfaceNo,
    octet: u64,
) -> Result<Place, AllocError> {
    let mut end = FILE_HEADER_OCTETS as u64;
    if octet < end {
        return Ok(Place::Header);
    }
    let mut tracer = Tracer::start_with(alloc, network, Wanted::One(iface))?;
    for event in 0..u64::MAX {
        if !tracer.go_on(alloc, network)? {
            return Ok(Place::Behind);
        }
        let (line, after) = find(alloc, tracer.trace(), octet, end)?;
        if let Some(line) = line {
            return Ok(Place::Record(line));
        }
        end = after;
    }
    Ok(Place::Behind)
}

/// The octets of a file from this one on, in hexadecimal, sixteen at most.
fn octets_at(rt: &HostRuntime, name: &str, octet: u64) -> io::Result<String> {
    let alloc = rt.alloc();
    let mut file: File = fs::open(rt, name)?;
    file.seek(SeekFrom::Start(octet))?;
    let mut octets = Vec::new(alloc);
    file.take(SHOWN_OCTETS).read_to_end(&mut octets)?;
    let mut text = String::new(alloc);
    for octet in octets.iter() {
        text.push_str(format!(in alloc; "{octet:02x}")?.as_str())?;
    }
    Ok(text)
}

/// Says what the trace has.
fn say_place<E: Sink>(place: &Place, errors: &mut E) {
    match place {
        Place::Header => {
            let _ = write_all(errors, b"its header\n");
        }
        Place::Record(line) => {
            let _ = write_all(errors, b"the record ");
            let _ = write_all(errors, line.as_slice());
        }
        Place::Behind => {
            let _ = write_all(errors, b"its end\n");
        }
    }
}

/// Prints what is at this octet of the trace file of an interface in the folder of `verify`: in the
/// file, and in the trace of the topology's text.
///
/// # Errors
///
/// If the text or the file cannot be read again, or memory was refused. Nothing was printed then.
pub fn say_difference<E: Sink>(
    rt: &HostRuntime,
    words: &[String],
    iface: &str,
    octet: u64,
    errors: &mut E,
) -> io::Result<()> {
    let alloc = rt.alloc();
    let [word, topology, folder, ..] = words else {
        return Ok(());
    };
    if word.as_str() != "verify" {
        return Ok(());
    }
    let name = format!(in alloc; "{folder}/{iface}.pcap")?;
    let there = octets_at(rt, name.as_str(), octet)?;
    let network = read_network(rt, topology.as_str())?;
    let own = network
        .ifaces()
        .iter()
        .position(|other| other.name() == iface);
    let Some(own) = own else {
        return Ok(());
    };
    let place = place_of(alloc, &network, network.iface_number(own), octet)?;
    let has = if there.is_empty() {
        "nothing"
    } else {
        there.as_str()
    };
    let text = format!(in alloc; "the file has {has} there, where the trace has ")?;
    let _ = write_all(errors, text.as_bytes());
    say_place(&place, errors);
    Ok(())
}
