//! Links of replica 0 of partition 0 or 1 over a wire in memory. HEX is what the peer sends, as in
//! module `sessions`; the first octets that the link gives are its Hello and Have.
//!
//! A turn is `idle`, `progress`, `ended`, `failed`, or the cause of a break: `end`, `fault`, `frame`,
//! `session`, `book` or `memory`.
//!
//! | Command | Does and answers |
//! |---|---|
//! | `meet CLOCK HEX` | a link of partition 0, which did what is safe before this clock: its last turn, and how many messages are known then |
//! | `close CLOCK ROOM HEX` | the same over a wire that takes so many octets, and whose peer then sends no more |
//! | `greet P HEX` | a link that partition P accepted: its last turn, how many octets it gave, and `session` or `none` |
//! | `fails CLOCK HEX` | as `meet`, with one turn more after the last, and how many octets it gave |
//! | `turns CLOCK COUNT READS WRITES HEX` | so many turns as in `meet` over a wire with a script |
//! | `cut B S T FROM TO` | module `cuts` |
//! | `reads FROM ALL` | module `cuts` |
//!
//! A script says what each read and each write does, in their order, as `20,later,28`: so many octets
//! are moved, or it answers `later`, `fault` or, of a read, `end`. Past its script the wire moves all.
//! `turns` answers each turn, how many octets went, and how many messages are known then.

use crate::bench::Bench;
use crate::cuts::{cuts, reads};
use crate::ends::{
    Script, drive, drive_accepted, end_at, end_of, messages_of, open, session_of, turn_word, turns,
    wire_of,
};
use crate::octets::octets_of;
use crate::scripted::scripted;
use crate::words::Words;
use nm_base::PartNo;
use nm_base::mem_wire::Ending;
use nm_engine::{Acceptor, Link, ReadBuffer};
use std::alloc::Global;
use std::io;
use std::sync::Wait;

/// The last turn of a link over such a wire, and how many messages are known then.
fn meet<R: Wait>(
    rt: &R,
    alloc: Global,
    bench: &Bench,
    clock: u64,
    script: Script,
) -> io::Result<String> {
    let mut end = end_at(rt, alloc, &bench.topology, clock)?;
    let session = session_of(alloc, &bench.topology, 0)?;
    let came = drive(rt, alloc, &mut end, session, script)?;
    let (turn, messages) = (turn_word(came.turn), messages_of(rt, &mut end));
    Ok(format!(in alloc; "{turn} {messages}")?)
}

/// A wire that takes so many octets, and gives these and no more.
fn closing(source: &[u8], room: usize) -> Script<'_> {
    Script {
        source,
        ending: Ending::End,
        room,
    }
}

/// The result of a link that a partition accepted.
fn greet<R: Wait>(
    rt: &R,
    alloc: Global,
    bench: &Bench,
    me: u32,
    octets: &[u8],
) -> io::Result<String> {
    let mut end = end_of(rt, alloc, &bench.topology, me)?;
    let acceptor = Acceptor::new(bench.topology.clone()?, PartNo::new(me), 0);
    let came = drive_accepted(rt, alloc, &mut end, acceptor, open(octets))?;
    let (turn, count) = (turn_word(came.turn), came.octets.len());
    let session = if came.session.is_some() {
        "session"
    } else {
        "none"
    };
    Ok(format!(in alloc; "{turn} {count} {session}")?)
}

/// The result of a link's last turn and of one turn more, and how many octets it gave.
fn fails<R: Wait>(
    rt: &R,
    alloc: Global,
    bench: &Bench,
    clock: u64,
    octets: &[u8],
) -> io::Result<String> {
    let mut end = end_at(rt, alloc, &bench.topology, clock)?;
    let session = session_of(alloc, &bench.topology, 0)?;
    let mut link = Link::connected(alloc, wire_of(alloc, open(octets))?, session);
    let last = turn_word(turns(rt, alloc, &mut end, &mut link)?);
    let mut buffer = ReadBuffer::new(alloc)?;
    let more = turn_word(link.turn(rt, alloc, &end.book, &mut end.pass, &mut buffer));
    let (wire, _session) = link.back();
    Ok(format!(in alloc; "{last} {more} {}", wire.octets().len())?)
}

/// What a line about links with octets of a peer answers, or None if it is about something else.
fn answer_peer<R: Wait>(
    rt: &R,
    bench: &Bench,
    alloc: Global,
    words: Words,
) -> io::Result<Option<String>> {
    let digest = bench.topology.digest();
    let at = match words.name() {
        "turns" => 5,
        "close" => 3,
        _ => 2,
    };
    let octets = octets_of(alloc, words.from(at), &digest)?;
    if words.is("meet") {
        return Ok(Some(meet(rt, alloc, bench, words.number(1)?, open(&octets))?));
    }
    if words.is("close") {
        let script = closing(&octets, words.index(2)?);
        return Ok(Some(meet(rt, alloc, bench, words.number(1)?, script)?));
    }
    if words.is("greet") {
        return Ok(Some(greet(rt, alloc, bench, words.short(1)?, &octets)?));
    }
    if words.is("turns") {
        let said = scripted(rt, alloc, &bench.topology, words.from(1), &octets)?;
        return Ok(Some(said));
    }
    Ok(Some(fails(rt, alloc, bench, words.number(1)?, &octets)?))
}

/// The commands with octets of a peer.
const PEER: &[&str] = &["meet", "close", "greet", "fails", "turns"];

/// What a line about links answers, or None if it is about something else.
pub fn answer<R: Wait>(
    rt: &R,
    bench: &Bench,
    alloc: Global,
    words: Words,
) -> io::Result<Option<String>> {
    if words.is("cut") {
        return Ok(Some(cuts(rt, bench, alloc, words)?));
    }
    if words.is("reads") {
        return Ok(Some(reads(rt, bench, alloc, words.index(1)?, words.index(2)?)?));
    }
    if PEER.contains(&words.name()) {
        return answer_peer(rt, bench, alloc, words);
    }
    Ok(None)
}
