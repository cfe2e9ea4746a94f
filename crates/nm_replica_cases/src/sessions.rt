//! Sessions, by their numbers in the order in which they were made. HEX is one word or more in
//! hexadecimal, with DIGEST for the network's digest, and ZEROS for 72 octets of 0.
//!
//! | Command | Does and answers |
//! |---|---|
//! | `session P PEER` | makes a session of replica 0 of partition P with a partition |
//! | `take S HEX` | the peer's frame, read in pieces: `greeted`, `cursor`, `book`, `ended`, or the number of the fault |
//! | `give S B` | all frames that it then gives of a replica, parted by a space, or `nothing` |
//! | `break S` | its connection broke |

use crate::bench::{Bench, book};
use crate::octets::{hexadecimal, octets_of, shortened};
use crate::pieces::read_in_pieces;
use crate::words::Words;
use nm_base::PartNo;
use nm_book::Book;
use nm_frames::{Frame, Session, SessionFault, Taken, write_frame};
use std::alloc::Global;
use std::io;

/// What a frame was for, or the number of the fault.
fn word_of(answer: &Result<Taken, SessionFault>) -> &'static str {
    match answer {
        Ok(Taken::Greeted) => "greeted",
        Ok(Taken::Cursor) => "cursor",
        Ok(Taken::ForBook(_)) => "book",
        Ok(Taken::Ended) => "ended",
        Err(SessionFault::Order) => "1",
        Err(SessionFault::Version) => "2",
        Err(SessionFault::Topology) => "3",
        Err(SessionFault::Peer) => "4",
        Err(SessionFault::Channel) => "5",
    }
}

/// The session of this number.
fn session(sessions: &mut [Session], at: usize) -> io::Result<&mut Session> {
    match sessions.get_mut(at) {
        Some(session) => Ok(session),
        None => Err(io::Error::other("there is no such session")),
    }
}

/// The frame of these octets.
fn frame_of(alloc: Global, octets: &[u8]) -> io::Result<Frame> {
    let (mut frames, _) = read_in_pieces(alloc, octets, 7);
    match frames.pop() {
        Some(frame) => Ok(frame),
        None => Err(io::Error::other("that is no frame")),
    }
}

/// Adds a frame in hexadecimal.
fn push_frame(alloc: Global, text: &mut String, frame: &Frame) -> io::Result<()> {
    let mut out = Vec::new(alloc);
    write_frame(frame, &mut out)?;
    if !text.is_empty() {
        text.push(' ')?;
    }
    let word = hexadecimal(alloc, &out)?;
    Ok(text.push_str(word.as_str())?)
}

/// All frames that a session gives of a replica: at most 20.
fn given(alloc: Global, session: &mut Session, book: &Book) -> io::Result<String> {
    let mut text = String::new(alloc);
    for _ in 0..20 {
        match session.next_out(book)? {
            None => break,
            Some(frame) => push_frame(alloc, &mut text, &frame)?,
        }
    }
    if text.is_empty() {
        text.push_str("nothing")?;
    }
    Ok(text)
}

/// A session gives what is owed.
fn give(bench: &mut Bench, alloc: Global, at: usize, of: usize) -> io::Result<String> {
    let digest = bench.topology.digest();
    let book = book(bench.books.as_slice(), of)?;
    let text = given(alloc, session(bench.sessions.as_mut_slice(), at)?, book)?;
    shortened(alloc, text.as_str(), &digest)
}

/// A session takes the peer's frame.
fn take(bench: &mut Bench, alloc: Global, at: usize, hex: &[&str]) -> io::Result<String> {
    let octets = octets_of(alloc, hex, &bench.topology.digest())?;
    let frame = frame_of(alloc, &octets)?;
    let answer = session(bench.sessions.as_mut_slice(), at)?.take(frame);
    Ok(String::from_str(alloc, word_of(&answer))?)
}

/// Makes a session.
fn add(bench: &mut Bench, alloc: Global, me: u32, peer: u32) -> io::Result<String> {
    let (me, peer) = (PartNo::new(me), PartNo::new(peer));
    let session = Session::new(alloc, &bench.topology, me, 0, peer)?;
    bench.sessions.push(session)?;
    Ok(String::from_str(alloc, "ok")?)
}

/// A session's connection broke.
fn breaks(bench: &mut Bench, alloc: Global, at: usize) -> io::Result<String> {
    session(bench.sessions.as_mut_slice(), at)?.broken();
    Ok(String::from_str(alloc, "ok")?)
}

/// What a line about sessions answers, or None if it is about something else.
pub fn answer(bench: &mut Bench, alloc: Global, words: Words) -> io::Result<Option<String>> {
    if words.is("session") {
        return Ok(Some(add(bench, alloc, words.short(1)?, words.short(2)?)?));
    }
    if words.is("take") {
        return Ok(Some(take(bench, alloc, words.index(1)?, words.from(2))?));
    }
    if words.is("give") {
        return Ok(Some(give(bench, alloc, words.index(1)?, words.index(2)?)?));
    }
    if words.is("break") {
        return Ok(Some(breaks(bench, alloc, words.index(1)?)?));
    }
    Ok(None)
}
