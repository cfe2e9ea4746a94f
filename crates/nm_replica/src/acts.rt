//! What the loop does with a shared book in one act.

ghost use Rattle.std.specs.Prelude.{◌≡◌, ◌+◌, length, Some};
ghost use Rattle.nm_book.specs.Book.{replica_of, safe_of, state_of};
ghost use Rattle.nm_model.specs.Certificate.{is_done};
ghost use Rattle.nm_replica.specs.Recording.{AreAllOut, HandsOut, TakesOut};
ghost use Rattle.nm_replica.specs.Served.{is_handed_out};
ghost use Rattle.nm_shared.specs.Growing.{handed_grows, same_grows};
ghost use Rattle.nm_sim.specs.Network.{net_of};

use crate::limits::MAX_HANDED;
use nm_base::{ChanNo, Record, Time};
use nm_book::Book;
use nm_book::laws::records_have_times_of_a_file;
use nm_shared::Act;

/// How far a book is.
#[derive(Clone, Copy, Drop)]
pub struct Standing {
    /// It may do the events before this time.
    pub safe: Time,
    /// How many events were done.
    pub events: u64,
    /// How many records its trace has, with those that were handed out.
    pub records: u64,
    /// How many of them were handed out.
    pub handed: u64,
    /// Nothing is left to do.
    pub is_done: bool,
}

/// `Book::safe`, `Book::events`, `Book::records`, `Book::handed` and `Book::done`.
#[derive(Drop)]
pub struct Stand;

impl Act for Stand {
    type Out = Standing;

    ghost does = { λ a b r c. (c ≡ b) × (r.safe ≡ safe_of b) × (r.events ≡ b.events)
        × (r.records ≡ length (state_of b).records) × (r.handed ≡ b.handed)
        × (r.is_done ≡ is_done (net_of b.topology) b.partition (replica_of b)) };

    ghost news = { λ r. Some 0 };

    fn act(self, book: &mut Book) -> Standing {
        Standing {
            safe: book.safe(),
            events: book.events(),
            records: book.records(),
            handed: book.handed(),
            is_done: book.done(),
        }
    }

    fn learned(_answer: &Standing) -> Option<u64> {
        Some(0)
    }

    ghost grows = { λ a b r c h. same_grows b c h.0 };
}

/// Takes the first records out that are kept, one after another, as many as the list has room for,
/// and at most `MAX_HANDED`.
fn take_some(book: &mut Book, room: &mut Vec<Record>)
    ensures takes { TakesOut book.old room.old.items book.new room.new.items }
    ensures all { AreAllOut room.old.cap book.new room.new.items }
{
    for taken in 0..MAX_HANDED {
        if room.len() >= room.capacity() {
            return;
        }
        let Some(handed) = book.hand_out() else {
            return;
        };
        room.push_reserved(handed);
    }
}

/// Takes the first records out that are kept, as many as the list has room for: all at once if it
/// has room for all.
fn take_out(book: &mut Book, room: Vec<Record>) -> Vec<Record>
    ensures takes { TakesOut book.old room.items book.new result.items }
    ensures all { AreAllOut room.cap book.new result.items }
{
    let mut room = room;
    if room.is_empty() && book.trace().len() <= room.capacity() {
        return book.hand_out_all(room);
    }
    take_some(book, &mut room);
    room
}

/// Whether nothing is left to do, and no record to hand out.
fn is_handed_out(book: &Book) -> bool
    ensures { result ≡ is_handed_out book.now }
{
    book.done() && book.handed() == book.records()
}

/// Records that were handed out.
#[derive(Drop)]
pub struct HandedOut {
    pub records: Vec<Record>,
    /// The book is done, and these were its last.
    pub is_last: bool,
}

/// `Book::hand_out`, repeated: takes the first kept records out of the trace, as many as the list
/// has room for, and appends them.
#[derive(Drop)]
pub struct HandOutSome {
    pub room: Vec<Record>,
}

impl Act for HandOutSome {
    type Out = HandedOut;

    ghost does = { λ a b r c. HandsOut b a.room.items a.room.cap c r.records.items
        × (r.is_last ≡ is_handed_out c) };

    ghost news = { λ r. Some 0 };

    fn act(self, book: &mut Book) -> HandedOut {
        records_have_times_of_a_file(book); // law: a trace file can say their times
        let records = take_out(book, self.room);
        HandedOut {
            records,
            is_last: is_handed_out(book),
        }
    }

    fn learned(_answer: &HandedOut) -> Option<u64> {
        Some(0)
    }

    ghost grows = { λ a b r c h. handed_grows (b.handed + h.0.takes.0) b c h.0.takes.1 };
}

/// The incoming channel with the least clock, which holds the book back.
fn least_channel(book: &Book) -> Option<ChanNo> {
    let topology = book.topology();
    let (mut least, mut found) = (u64::MAX, None);
    for number in 0..topology.receivers().len() {
        let channel = topology.channel_number(number);
        if let Some(know) = book.know(channel) {
            let clock = know.clock().nanoseconds();
            if clock < least {
                least = clock;
                found = Some(channel);
            }
        }
    }
    found
}

/// Which channel holds the book back, if one comes in.
#[derive(Drop)]
pub struct HeldBack;

impl Act for HeldBack {
    type Out = Option<ChanNo>;

    ghost does = { λ a b r c. c ≡ b };

    ghost news = { λ r. Some 0 };

    fn act(self, book: &mut Book) -> Option<ChanNo> {
        least_channel(book)
    }

    fn learned(_answer: &Option<ChanNo>) -> Option<u64> {
        Some(0)
    }

    ghost grows = { λ a b r c h. same_grows b c h };
}
