//! Frames and sessions.

use crate::same::{eq_number, holds};
use crate::split::{book_of, network, null};
use nm_base::{ChanNo, PartNo};
use nm_book::Book;
use nm_fixtures::SPLIT;
use nm_frames::{Frame, FrameFault, Have, Hello, Reader, Session, write_frame};
use nm_topology::Topology;
use std::alloc::Global;
use std::process::Abort;
use std::sync::Arc;
use std::test::Fail;

/// Have(2, 4), a message, and the first octets of another frame.
const STREAM: &[u8] = b"\x00\x00\x00\x0d\x02\x00\x00\x00\x02\x00\x00\x00\x00\x00\x00\x00\x04\
\x00\x00\x00\x17\x03\x00\x00\x00\x00\x00\x00\x00\x00\x00\x00\x00\x01\x00\x00\x00\x00\x00\x10\xc8\xe0\x45\x00\
\x00\x00\x00";

#[test]
fn reader_feed(rt: HostRuntime) {
    let mut reader = Reader::new(rt.alloc());
    let mut frames = Vec::new(rt.alloc());
    for piece in STREAM.chunks(11) {
        let before = frames.len();
        let mut answer = reader.feed(rt.alloc(), piece, &mut frames);
        if answer == Err(FrameFault::Memory) {
            holds(&rt, "as it was", frames.len() == before);
            answer = reader.feed(rt.alloc(), piece, &mut frames);
        }
        holds(&rt, "fed", answer == Ok(()));
    }
    eq_number(&rt, "frames", frames.len() as u64, 2);
    let answer = reader.feed(rt.alloc(), &[0], &mut frames);
    holds(
        &rt,
        "what was held is still there",
        answer == Err(FrameFault::BadLength),
    );
}

/// Replica 0 of partition 0, which did its two events: it sent a message.
fn sender_of(rt: &(impl Abort + AllocGlobal), topology: &Arc<Topology>) -> Result<Book, Fail> {
    let mut book = book_of(rt, topology, 0)?;
    book.accept(&null(0, 0, 1_000_000))?;
    let _ran = book.run_safe(rt.alloc(), 1000);
    let _ran_again = book.run_safe(rt.alloc(), 1000);
    Ok(book)
}

/// A session that took the peer's Hello and Have.
fn session_of(alloc: Global, topology: &Topology) -> Result<Session, Fail> {
    let first = Session::new(alloc, topology, PartNo::new(0), 0, PartNo::new(1));
    let second = Session::new(alloc, topology, PartNo::new(0), 0, PartNo::new(1));
    let mut session = first.or(second)?;
    let digest = topology.digest();
    let _greeted = session.take(Frame::Hello(Hello {
        version: 2,
        partition: PartNo::new(1),
        replica: 0,
        digest,
    }))?;
    let _cursor = session.take(Frame::Have(Have {
        channel: ChanNo::new(1),
        count: 0,
    }))?;
    Ok(session)
}

/// A frame in octets, written again if memory was refused: then nothing was written.
fn octets_of(alloc: Global, frame: &Frame) -> Result<Vec<u8>, Fail> {
    let mut octets = Vec::new(alloc);
    if write_frame(frame, &mut octets).is_err() {
        write_frame(frame, &mut octets)?;
    }
    Ok(octets)
}

/// The next frame in octets, asked for again if memory was refused: nothing if there is none.
fn next_of(alloc: Global, session: &mut Session, book: &Book) -> Result<Vec<u8>, Fail> {
    let first = session.next_out(book);
    let frame = match first {
        Ok(frame) => frame,
        Err(_) => session.next_out(book)?,
    };
    match &frame {
        Some(frame) => octets_of(alloc, frame),
        None => Ok(Vec::new(alloc)),
    }
}

/// Two sessions give the same frames: a Hello, a Have, a message and a null message, of so many
/// octets.
fn give_same(
    rt: &(impl Abort + AllocGlobal),
    book: &Book,
    session: &mut Session,
    twin: &mut Session,
) -> Result<(), Fail> {
    for count in [48, 17, 125, 25, 0, 0] {
        let octets = next_of(rt.alloc(), session, book)?;
        let same = next_of(rt.alloc(), twin, book)?;
        eq_number(rt, "octets", octets.len() as u64, count);
        holds(rt, "a frame", octets == same);
    }
    Ok(())
}

/// Two sessions of a replica give the same frames, though memory was refused to one of them.
fn sessions_give(
    rt: &(impl Abort + AllocGlobal),
    topology: &Topology,
    book: &Book,
) -> Result<(), Fail> {
    let mut session = session_of(rt.alloc(), topology)?;
    let mut twin = session_of(rt.alloc(), topology)?;
    give_same(rt, book, &mut session, &mut twin)
}

#[test]
fn session_next_out(rt: HostRuntime) -> Result<(), Fail> {
    let topology = network(rt.alloc(), SPLIT)?;
    let book = sender_of(&rt, &topology)?;
    sessions_give(&rt, &topology, &book)
}
