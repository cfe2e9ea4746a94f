//! Two replicas that talk over a connection which breaks at any octet.
//!
//! | Command | Does and answers |
//! |---|---|
//! | `talk P Q` | replicas of two partitions talk until both have taken Bye, without a break: the events of both |
//! | `breaks P Q` | the same, with one break at each octet of either direction: `alike` or `unlike` |
//!
//! They are alike if both are done after each break, and their records are those of the talk
//! without a break, one by one, and of the one event list.

use crate::bench::{Bench, book_of};
use crate::drains::are_part;
use crate::said::alike_word;
use crate::words::Words;
use nm_base::{PartNo, Record};
use nm_book::Book;
use nm_frames::{Frame, Reader, Session, Taken, write_frame};
use nm_sim::one_list;
use nm_topology::Topology;
use std::alloc::Global;
use std::io;
use std::sync::Arc;

/// One end of a connection.
#[derive(Drop)]
struct End {
    book: Book,
    session: Session,
    reader: Reader,
    ended: bool,
    /// How many octets it gave.
    octets: usize,
}

impl End {
    fn new(alloc: Global, topology: &Arc<Topology>, me: u32, peer: u32) -> io::Result<End> {
        let (me_no, peer_no) = (PartNo::new(me), PartNo::new(peer));
        Ok(End {
            book: book_of(alloc, topology, me, 0)?,
            session: Session::new(alloc, topology, me_no, 0, peer_no)?,
            reader: Reader::new(alloc),
            ended: false,
            octets: 0,
        })
    }

    /// Does what is safe, and gives all that is owed.
    fn give(&mut self, alloc: Global) -> io::Result<Vec<u8>> {
        let _ran = self.book.run_safe(alloc, 1000);
        let mut out = Vec::new(alloc);
        for _ in 0..1000 {
            match self.session.next_out(&self.book)? {
                None => break,
                Some(frame) => write_frame(&frame, &mut out)?,
            }
        }
        Ok(out)
    }

    /// Takes a frame of the peer: whether it was right.
    fn take_one(&mut self, frame: Frame) -> bool {
        match self.session.take(frame) {
            Ok(Taken::ForBook(message)) => self.book.accept(&message).is_ok(),
            Ok(Taken::Ended) => {
                self.ended = true;
                true
            }
            Ok(Taken::Greeted | Taken::Cursor) => true,
            Err(_) => false,
        }
    }

    /// Takes octets of the peer.
    fn take(&mut self, alloc: Global, octets: &[u8]) -> io::Result<()> {
        let mut frames = Vec::new(alloc);
        if self.reader.feed(alloc, octets, &mut frames).is_err() {
            return Err(io::Error::other("octets that are no frame"));
        }
        for frame in frames {
            if !self.take_one(frame) {
                return Err(io::Error::other("a frame that is refused"));
            }
        }
        Ok(())
    }

    /// The connection broke.
    fn broke(&mut self, alloc: Global) {
        self.session.broken();
        self.reader = Reader::new(alloc);
        self.ended = false;
    }
}

/// One end gives all that it owes, and the other takes at most so many octets of it. Whether some
/// were left: the connection breaks there.
fn pass(alloc: Global, from: &mut End, to: &mut End, left: &mut usize) -> io::Result<bool> {
    let sent = from.give(alloc)?;
    let count = sent.len().min(*left);
    let (came, lost) = sent.split_at(count);
    from.octets = from.octets.saturating_add(count);
    *left -= count;
    to.take(alloc, came)?;
    Ok(!lost.is_empty())
}

/// How many octets each end may give before the connection breaks.
#[derive(Clone, Copy)]
struct Left {
    of_zero: usize,
    of_one: usize,
}

/// Each end gives all that it owes, until the connection breaks. It breaks once.
fn turn(alloc: Global, zero: &mut End, one: &mut End, left: &mut Left) -> io::Result<()> {
    let mut breaks = pass(alloc, zero, one, &mut left.of_zero)?;
    if !breaks {
        breaks = pass(alloc, one, zero, &mut left.of_one)?;
    }
    if breaks {
        zero.broke(alloc);
        one.broke(alloc);
        left.of_zero = usize::MAX;
        left.of_one = usize::MAX;
    }
    Ok(())
}

/// Both ends talk until they have taken Bye.
fn until_bye(alloc: Global, zero: &mut End, one: &mut End, left: &mut Left) -> io::Result<()> {
    for _ in 0..1000 {
        if zero.ended && one.ended {
            break;
        }
        turn(alloc, zero, one, left)?;
    }
    if zero.ended && one.ended && zero.book.done() && one.book.done() {
        return Ok(());
    }
    Err(io::Error::other("they talk for ever"))
}

/// The result of a talk: the octets that each gave, and both replicas.
#[derive(Drop)]
struct Outcome {
    octets: (usize, usize),
    zero: Book,
    one: Book,
}

impl Outcome {
    /// Whether both replicas did as many events as those of another talk, with the same records.
    fn is_like(&self, other: &Outcome) -> bool {
        self.zero.events() == other.zero.events()
            && self.one.events() == other.one.events()
            && self.zero.trace() == other.zero.trace()
            && self.one.trace() == other.one.trace()
    }

    /// Whether the records of both are their parts of the trace of the one event list.
    fn is_true(&self, topology: &Topology, whole: &[Record]) -> bool {
        are_part(topology, whole, self.zero.partition(), self.zero.trace())
            && are_part(topology, whole, self.one.partition(), self.one.trace())
    }
}

/// Both ends of a talk.
fn talk(alloc: Global, zero: End, one: End, left: Left) -> io::Result<Outcome> {
    let (mut zero, mut one, mut left) = (zero, one, left);
    until_bye(alloc, &mut zero, &mut one, &mut left)?;
    let octets = (zero.octets, one.octets);
    Ok(Outcome {
        octets,
        zero: zero.book,
        one: one.book,
    })
}

/// A talk of two partitions that breaks once, after one of them has given so many octets.
fn talk_of(
    alloc: Global,
    topology: &Arc<Topology>,
    who: (u32, u32),
    left: Left,
) -> io::Result<Outcome> {
    let zero = End::new(alloc, topology, who.0, who.1)?;
    let one = End::new(alloc, topology, who.1, who.0)?;
    talk(alloc, zero, one, left)
}

/// No break.
const WHOLE: Left = Left {
    of_zero: usize::MAX,
    of_one: usize::MAX,
};

/// Whether a talk that breaks there has the result of the whole one.
fn is_like_whole(
    alloc: Global,
    topology: &Arc<Topology>,
    who: (u32, u32),
    left: Left,
    whole: &Outcome,
) -> io::Result<bool> {
    let found = talk_of(alloc, topology, who, left)?;
    Ok(found.is_like(whole))
}

/// Whether all talks with one break have the result of the whole one.
fn are_like_whole(
    alloc: Global,
    topology: &Arc<Topology>,
    who: (u32, u32),
    whole: &Outcome,
) -> io::Result<bool> {
    for of_zero in 0..whole.octets.0 {
        let left = Left { of_zero, ..WHOLE };
        if !is_like_whole(alloc, topology, who, left, whole)? {
            return Ok(false);
        }
    }
    for of_one in 0..whole.octets.1 {
        let left = Left { of_one, ..WHOLE };
        if !is_like_whole(alloc, topology, who, left, whole)? {
            return Ok(false);
        }
    }
    Ok(true)
}

/// The same, if the whole one has the records of the one event list.
fn are_alike(alloc: Global, topology: &Arc<Topology>, who: (u32, u32)) -> io::Result<bool> {
    let records = one_list(alloc, topology, topology.stop())?;
    let whole = talk_of(alloc, topology, who, WHOLE)?;
    if !whole.is_true(topology, &records) {
        return Ok(false);
    }
    are_like_whole(alloc, topology, who, &whole)
}

/// How many events two replicas do in a talk without a break.
fn events_of(alloc: Global, topology: &Arc<Topology>, who: (u32, u32)) -> io::Result<(u64, u64)> {
    let found = talk_of(alloc, topology, who, WHOLE)?;
    Ok((found.zero.events(), found.one.events()))
}

/// What two replicas did in a talk without a break.
fn talk_text(bench: &Bench, alloc: Global, who: (u32, u32)) -> io::Result<String> {
    let (zero, one) = events_of(alloc, &bench.topology, who)?;
    Ok(format!(in alloc; "{zero} {one}")?)
}

/// Whether talks with a break do the same.
fn breaks_text(bench: &Bench, alloc: Global, who: (u32, u32)) -> io::Result<String> {
    let alike = are_alike(alloc, &bench.topology, who)?;
    Ok(String::from_str(alloc, alike_word(alike))?)
}

/// What a line about talks answers, or None if it is about something else.
pub fn answer(bench: &Bench, alloc: Global, words: Words) -> io::Result<Option<String>> {
    if words.is("talk") {
        return Ok(Some(talk_text(bench, alloc, (words.short(1)?, words.short(2)?))?));
    }
    if words.is("breaks") {
        return Ok(Some(breaks_text(bench, alloc, (words.short(1)?, words.short(2)?))?));
    }
    Ok(None)
}
