//! Links over a wire in memory whose reads and writes answer in the order of a script.

use crate::ends::{end_at, messages_of, session_of, turn_word};
use crate::words::number;
use nm_base::MemWire;
use nm_base::mem_wire::{Ending, ScriptedRead, ScriptedWrite};
use nm_engine::{Link, ReadBuffer};
use nm_topology::Topology;
use std::alloc::Global;
use std::collections::VecDeque;
use std::io;
use std::sync::{Arc, Wait};

/// The reads of a word, as `20,later,28`.
fn reads_of(alloc: Global, word: &str) -> io::Result<VecDeque<ScriptedRead>> {
    let mut reads = VecDeque::new(alloc);
    for part in word.split(',') {
        let read = match part {
            "later" => ScriptedRead::Answers(Ending::Later),
            "end" => ScriptedRead::Answers(Ending::End),
            "fault" => ScriptedRead::Answers(Ending::Fault),
            count => ScriptedRead::Gives(number(count)? as usize),
        };
        reads.push_back(read)?;
    }
    Ok(reads)
}

/// The writes of a word.
fn writes_of(alloc: Global, word: &str) -> io::Result<VecDeque<ScriptedWrite>> {
    let mut writes = VecDeque::new(alloc);
    for part in word.split(',') {
        let write = match part {
            "later" => ScriptedWrite::Later,
            "fault" => ScriptedWrite::Fault,
            count => ScriptedWrite::Takes(number(count)? as usize),
        };
        writes.push_back(write)?;
    }
    Ok(writes)
}

/// A wire that answers so, and past that gives what is left and takes all.
fn wire_of(alloc: Global, octets: &[u8], reads: &str, writes: &str) -> io::Result<MemWire> {
    let wire = MemWire::new(alloc, octets.to_vec(alloc)?, Ending::Later, 1_000, 1_000)?;
    Ok(wire.with_script(reads_of(alloc, reads)?, writes_of(alloc, writes)?))
}

/// So many turns of a link of partition 0, how many octets went, and how many messages are known
/// then.
pub fn scripted<R: Wait>(
    rt: &R,
    alloc: Global,
    topology: &Arc<Topology>,
    words: &[&str],
    octets: &[u8],
) -> io::Result<String> {
    let [clock, count, reads, writes, ..] = words else {
        return Err(io::Error::other("a word is missing"));
    };
    let mut end = end_at(rt, alloc, topology, number(*clock)?)?;
    let session = session_of(alloc, topology, 0)?;
    let wire = wire_of(alloc, octets, *reads, *writes)?;
    let mut link = Link::connected(alloc, wire, session);
    let mut buffer = ReadBuffer::new(alloc)?;
    let mut said = String::new(alloc);
    for _ in 0..number(*count)? {
        let turn = link.turn(rt, alloc, &end.book, &mut end.pass, &mut buffer);
        said.push_str(turn_word(turn))?;
        said.push(' ')?;
    }
    let (wire, _session) = link.back();
    let went = wire.octets().len();
    Ok(format!(in alloc; "{said}{went} {}", messages_of(rt, &mut end))?)
}
