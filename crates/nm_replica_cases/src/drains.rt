//! Records that replicas hand out.
//!
//! | Command | Does and answers |
//! |---|---|
//! | `hands B` | all records that B hands out, each as `TIME:IFACE`, or `none` |
//! | `drains B EVERY` | B does what is safe, so many events at a time, and hands all records out after each time: `same` where they are its part of the trace of the one event list, and the totals are theirs |

use crate::bench::{Bench, book_mut};
use crate::certificates::partition_of;
use crate::words::Words;
use nm_base::{IfaceNo, PartNo, Record};
use nm_book::{Book, Ran};
use nm_sim::one_list;
use nm_topology::Topology;
use std::alloc::Global;
use std::io;

/// Hands out all records, in order.
fn hand_out_all(book: &mut Book, handed: &mut Vec<Record>) -> io::Result<()> {
    for _ in 0..100_000 {
        match book.hand_out() {
            Some(record) => handed.push(record)?,
            None => return Ok(()),
        }
    }
    Err(io::Error::other("it hands out records for ever"))
}

/// Does what is safe, so many events at a time, and hands out all records after each time.
fn drain(alloc: Global, book: &mut Book, every: u64) -> io::Result<Vec<Record>> {
    let mut handed = Vec::new(alloc);
    for _ in 0..100_000 {
        let ran = book.run_safe(alloc, every.max(1));
        hand_out_all(book, &mut handed)?;
        if let Ran::All(_) = ran {
            return Ok(handed);
        }
    }
    Err(io::Error::other("it does events for ever"))
}

/// Whether records are a partition's part of the whole trace.
pub fn are_part(topology: &Topology, whole: &[Record], of: PartNo, records: &[Record]) -> bool {
    let mut own = records.iter();
    for record in whole {
        if partition_of(topology, record.iface) == Some(of) {
            match own.next() {
                Some(found) if found == record => {}
                _ => return false,
            }
        }
    }
    own.next().is_none()
}

/// How many of the records are at an interface, and the octets of its trace file: 24, and 16 and the
/// packet's for each.
fn totals_of(records: &[Record], iface: IfaceNo) -> (u64, u64) {
    let (mut count, mut octets) = (0u64, 24u64);
    for record in records {
        if record.iface == iface {
            count = count.saturating_add(1);
            let length = record.packet.octets().len() as u64;
            octets = octets.saturating_add(length).saturating_add(16);
        }
    }
    (count, octets)
}

/// Whether a replica's totals are those of the records that it handed out.
fn has_totals(book: &Book, records: &[Record], ifaces: u32) -> bool {
    for number in 0..ifaces {
        let iface = IfaceNo::new(number);
        if book.totals(iface) != totals_of(records, iface) {
            return false;
        }
    }
    let count = records.len() as u64;
    book.handed() == count && book.records() == count && book.trace().is_empty()
}

/// Whether a replica hands out its part of the trace.
fn drains(bench: &mut Bench, alloc: Global, of: usize, every: u64) -> io::Result<String> {
    let whole = one_list(alloc, &bench.topology, bench.topology.stop())?;
    let book = book_mut(bench.books.as_mut_slice(), of)?;
    let handed = drain(alloc, book, every)?;
    let is_same = are_part(&bench.topology, &whole, book.partition(), &handed)
        && has_totals(book, &handed, bench.topology.ifaces().len().min(100) as u32);
    Ok(String::from_str(alloc, if is_same { "same" } else { "other" })?)
}

/// Records, each with its time and its interface.
fn records_text(alloc: Global, records: &[Record]) -> io::Result<String> {
    let mut text = String::new(alloc);
    for record in records {
        let (time, iface) = (record.time.nanoseconds(), record.iface.number());
        let word = format!(in alloc; "{time}:{iface}")?;
        if !text.is_empty() {
            text.push(' ')?;
        }
        text.push_str(word.as_str())?;
    }
    if text.is_empty() {
        text.push_str("none")?;
    }
    Ok(text)
}

/// What a replica hands out.
fn hands(bench: &mut Bench, alloc: Global, of: usize) -> io::Result<String> {
    let mut handed = Vec::new(alloc);
    hand_out_all(book_mut(bench.books.as_mut_slice(), of)?, &mut handed)?;
    records_text(alloc, &handed)
}

/// What a line about records that are handed out answers, or None if it is about something else.
pub fn answer(bench: &mut Bench, alloc: Global, words: Words) -> io::Result<Option<String>> {
    if words.is("hands") {
        return Ok(Some(hands(bench, alloc, words.index(1)?)?));
    }
    if words.is("drains") {
        return Ok(Some(drains(bench, alloc, words.index(1)?, words.number(2)?)?));
    }
    Ok(None)
}
