//! A session of partitions 0 and 1 over wires in memory, cut at an octet: what the peer then holds,
//! and what a new session gives.
//!
//! | Command | Does and answers |
//! |---|---|
//! | `cut B S T FROM TO` | the result of a session that is cut at each of these octets |
//! | `reads FROM ALL` | reads that end, and reads that fail, after each count of the peer's first octets, from FROM on to ALL, which is how many there are: the last turns of both, or `unlike N` |
//!
//! A cut is of what a replica of partition 0 gives that knows what B knows, to a peer that knows
//! what S knows; a second session comes after it. If the result of one differs from the cuts before
//! it, `cut` answers `unlike N` with its octet.
//!
//! The result of a cut: the last turn of partition 0; the last turn of the peer, and how many
//! messages it knows; how many octets the peer gives in the second session, and the last of them;
//! how many partition 0 then gives; the last turn of the peer; and `alike` if in the end the former
//! is as B and the peer as T, in all that they know, did, recorded, sent and promise.

use crate::bench::{Bench, book};
use crate::ends::{
    Came, End, Script, drive, end_at, end_like, end_of, ends_like, messages_of, open, session_of,
    turn_word,
};
use crate::said::alike_word;
use crate::truth::channels_of;
use crate::words::Words;
use nm_base::mem_wire::Ending;
use nm_book::Book;
use nm_frames::Session;
use nm_topology::Topology;
use std::alloc::Global;
use std::io;
use std::sync::{Arc, Wait};

/// The clock before which partition 0 did what is safe, in nanoseconds.
const CLOCK: u64 = 1_000_000;

/// The session that a link gave back.
fn session_in(came: Came) -> io::Result<Session> {
    let Came {
        turn: _,
        octets: _,
        session,
    } = came;
    match session {
        Some(session) => Ok(session),
        None => Err(io::Error::other("there is no session")),
    }
}

/// Such a session after the break.
fn broken(came: Came) -> io::Result<Session> {
    let mut session = session_in(came)?;
    session.broken();
    Ok(session)
}

/// A new session of the peer, which gives its Hello and Have.
fn greeting<R: Wait>(
    rt: &R,
    alloc: Global,
    topology: &Topology,
    one: &mut End,
) -> io::Result<Came> {
    drive(rt, alloc, one, session_of(alloc, topology, 1)?, open(&[]))
}

/// The result of the first session: what partition 0 did, and what the peer did.
#[derive(Drop)]
struct First {
    zero: Came,
    one: Came,
}

/// The first session: partition 0 meets a wire that fails after `cut` octets, and the peer gets
/// those and then the end.
fn first_session<R: Wait>(
    rt: &R,
    alloc: Global,
    topology: &Topology,
    zero: &mut End,
    one: &mut End,
    cut: usize,
) -> io::Result<First> {
    let greeted = greeting(rt, alloc, topology, one)?;
    let script = Script {
        room: cut,
        ..open(&greeted.octets)
    };
    let gave = drive(rt, alloc, zero, session_of(alloc, topology, 0)?, script)?;
    let script = Script {
        ending: Ending::End,
        ..open(&gave.octets)
    };
    let got = drive(rt, alloc, one, session_in(greeted)?, script)?;
    Ok(First {
        zero: gave,
        one: got,
    })
}

/// The second session: the peer gives its Hello and Have, and gets what that is answered with.
fn second_session<R: Wait>(
    rt: &R,
    alloc: Global,
    zero: &mut End,
    one: &mut End,
    first: First,
) -> io::Result<String> {
    let First {
        zero: gave,
        one: got,
    } = first;
    let greeted = drive(rt, alloc, one, broken(got)?, open(&[]))?;
    let (count, last) = (greeted.octets.len(), greeted.octets.last().copied());
    let came = drive(rt, alloc, zero, broken(gave)?, open(&greeted.octets))?;
    let got = drive(rt, alloc, one, session_in(greeted)?, open(&came.octets))?;
    let (given, turn) = (came.octets.len(), turn_word(got.turn));
    Ok(format!(in alloc; "{count} {} {given} {turn}", last.unwrap_or(255))?)
}

/// The result of a first session, if partition 0 gave as many octets as it could.
fn first_text<R: Wait>(
    rt: &R,
    alloc: Global,
    one: &mut End,
    first: &First,
    cut: usize,
) -> io::Result<String> {
    if first.zero.octets.len() != cut {
        return Err(io::Error::other("a cut at another octet"));
    }
    let (gave, got) = (turn_word(first.zero.turn), turn_word(first.one.turn));
    Ok(format!(in alloc; "{gave} {got} {}", messages_of(rt, one))?)
}

/// The replicas of a cut: the one that gives, its peer, and what the peer is in the end.
#[derive(Clone, Copy)]
struct Cut<'b> {
    gives: &'b Book,
    takes: &'b Book,
    comes_to: &'b Book,
}

/// The result of a cut after so many octets.
fn cut_at<R: Wait>(
    rt: &R,
    alloc: Global,
    topology: &Arc<Topology>,
    of: Cut,
    cut: usize,
) -> io::Result<String> {
    let mut zero = end_like(rt, alloc, topology, of.gives)?;
    let mut one = end_like(rt, alloc, topology, of.takes)?;
    let first = first_session(rt, alloc, topology, &mut zero, &mut one, cut)?;
    let before = first_text(rt, alloc, &mut one, &first, cut)?;
    let after = second_session(rt, alloc, &mut zero, &mut one, first)?;
    let channels = channels_of(topology);
    let alike = ends_like(rt, alloc, zero, of.gives, channels)?
        && ends_like(rt, alloc, one, of.comes_to, channels)?;
    Ok(format!(in alloc; "{before} {after} {}", alike_word(alike))?)
}

/// The results of all cuts from an octet on to another.
fn cuts_from<R: Wait>(
    rt: &R,
    alloc: Global,
    topology: &Arc<Topology>,
    of: Cut,
    from: usize,
    to: usize,
) -> io::Result<String> {
    let first = cut_at(rt, alloc, topology, of, from)?;
    for cut in from..=to {
        let other = cut_at(rt, alloc, topology, of, cut)?;
        if other.as_str() != first.as_str() {
            return Ok(format!(in alloc; "unlike {cut}: {other}")?);
        }
    }
    Ok(first)
}

/// What a line `cut` answers.
pub fn cuts<R: Wait>(rt: &R, bench: &Bench, alloc: Global, words: Words) -> io::Result<String> {
    let books = bench.books.as_slice();
    let of = Cut {
        gives: book(books, words.index(1)?)?,
        takes: book(books, words.index(2)?)?,
        comes_to: book(books, words.index(3)?)?,
    };
    cuts_from(
        rt,
        alloc,
        &bench.topology,
        of,
        words.index(4)?,
        words.index(5)?,
    )
}

/// The last turn of partition 0 over a wire that ends so.
fn read_ending<R: Wait>(
    rt: &R,
    bench: &Bench,
    alloc: Global,
    source: &[u8],
    ending: Ending,
) -> io::Result<&'static str> {
    let mut zero = end_at(rt, alloc, &bench.topology, CLOCK)?;
    let script = Script {
        ending,
        ..open(source)
    };
    let session = session_of(alloc, &bench.topology, 0)?;
    let came = drive(rt, alloc, &mut zero, session, script)?;
    Ok(turn_word(came.turn))
}

/// The result of reads after so many octets.
fn unlike(alloc: Global, count: usize, ended: &str, failed: &str) -> io::Result<String> {
    Ok(format!(in alloc; "unlike {count}: {ended} {failed}")?)
}

/// The results of reads that end and that fail after each count of these octets.
fn read_endings<R: Wait>(
    rt: &R,
    bench: &Bench,
    alloc: Global,
    octets: &[u8],
    from: usize,
) -> io::Result<String> {
    for count in from..=octets.len() {
        let (source, _) = octets.split_at(count);
        let ended = read_ending(rt, bench, alloc, source, Ending::End)?;
        let failed = read_ending(rt, bench, alloc, source, Ending::Fault)?;
        if ended != "end" || failed != "fault" {
            return unlike(alloc, count, ended, failed);
        }
    }
    Ok(String::from_str(alloc, "end fault")?)
}

/// The results of reads that end and that fail after each count of the octets of the peer's Hello
/// and Have, from this one on to all `to` of them.
pub fn reads<R: Wait>(
    rt: &R,
    bench: &Bench,
    alloc: Global,
    from: usize,
    to: usize,
) -> io::Result<String> {
    let mut one = end_of(rt, alloc, &bench.topology, 1)?;
    let greeted = greeting(rt, alloc, &bench.topology, &mut one)?;
    if greeted.octets.len() != to {
        return Err(io::Error::other("so many octets are not given"));
    }
    read_endings(rt, bench, alloc, &greeted.octets, from)
}
