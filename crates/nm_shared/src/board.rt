//! A board of clocks: for each channel and replica the greatest clock of its null messages so far.
//! Raising and looking never wait and take no memory.

ghost use Rattle.std.specs.Prelude.{◌≡◌, ◌+◌, ◌*◌, ◌/◌, ◌%◌, ◌<◌, ◌≤◌, [], length, max};
ghost use Rattle.std.specs.Prelude.{vec_capacity, vec_len};

mod closing;
mod opening;

use crate::word::{Word, WordSeat};
use nm_base::ChanNo;
use nm_book::message::Null;
use std::sync::Mutex;

/// How many looking seats a board has.
pub const SEATS: usize = 64;

/// How many words a board has at most: one for each of 512 channels and two replicas.
const MAX_WORDS: usize = 1024;

/// The number of the word of a channel and a replica, 0 or 1, of the partition that sends on it.
pub fn word_of(channel: ChanNo, replica: u8) -> usize
    ensures { result ≡ 2 * channel + replica }
{
    2 * channel.index() + replica as usize
}

/// The right to raise one word of a board. Contracts see the number of the word, and the greatest
/// clock to which this seat raised it.
#[derive(Drop)]
pub struct OwnerSeat {
    word: usize,
    place: WordSeat,
    ghost few: { word < 1024 },
    ghost one: { length place.seat.me.0.owned ≡ 1 },
}

/// The right to look at each word of a board.
#[derive(Drop)]
pub struct Seat {
    places: Vec<WordSeat>,
}

// Room for a seat at each word; `close` fills it. It lies behind a lock that is never taken, so
// that the board can be shared and `close` needs no memory.
#[derive(Drop)]
struct Closers {
    places: Vec<Option<WordSeat>>,
    ghost empty: { places.items ≡ [] },
    ghost room: { 1024 ≤ vec_capacity places },
}

/// The greatest clocks so far, by channel and replica. Word 2c + r is that of channel c, raised by
/// replica r of the partition that sends on it. Each word is in a table of its own, and the only
/// steps on it are those of its rule (`word::Clock`).
#[derive(Drop)]
pub struct ClockBoard {
    words: Vec<Word>,
    // What `close` needs, so that it takes no memory. No thread ever waits for the lock: `close`
    // opens it.
    clocks: Vec<u64>,
    closers: Mutex<Closers>,
    ghost clocks_are: { vec_len clocks ≡ vec_len words },
    ghost few: { vec_len words ≤ 1024 },
}

impl OwnerSeat {
    ghost use Rattle.nm_shared.specs.Board.{owned_word};

    /// The number of its word.
    pub fn word(&self) -> usize
        ensures { result ≡ owned_word self.now }
    {
        self.word
    }

    /// The channel of its word.
    pub fn channel(&self) -> ChanNo
        ensures { result ≡ owned_word self.now / 2 }
    {
        ChanNo::new((self.word / 2) as u32)
    }

    /// The replica of its word: 0 or 1.
    pub fn replica(&self) -> u8
        ensures { result ≡ owned_word self.now % 2 }
    {
        (self.word % 2) as u8
    }
}

impl ClockBoard {
    ghost use Rattle.nm_shared.specs.Board.{IsOwnerOf, IsSeatOf, LooksAt, owned_word, raised_to};
    ghost use Rattle.nm_shared.specs.Board.{word_count};

    /// How many words there are.
    pub fn len(&self) -> usize
        ensures { result ≡ word_count self.now }
    {
        self.words.len()
    }

    /// Publishes a null message of the owner's channel: one step raises the word to its clock, in
    /// nanoseconds, unless the word is greater already.
    #[tactic(auto, using(crate::proofs::Boards::raises_clock, crate::proofs::Boards::owns_some))]
    pub fn raise(&self, owner: &mut OwnerSeat, null: &Null)
        requires owner { IsOwnerOf self.now owner.old }
        requires channel { null.now.channel ≡ owned_word owner.old / 2 }
        ensures owner { IsOwnerOf self.now owner.new }
        ensures word { owned_word owner.new ≡ owned_word owner.old }
        ensures clock { raised_to owner.new ≡ max (raised_to owner.old) null.now.clock }
    {
        self.words[owner.word].raise(&mut owner.place, null.clock.nanoseconds());
    }

    /// Reads a word, in nanoseconds, by one step. It is no less than this seat found there before.
    pub fn look(&self, seat: &mut Seat, word: usize) -> u64
        requires word { word < word_count self.now }
        requires seat { IsSeatOf self.now seat.old }
        ensures seat { IsSeatOf self.now seat.new }
        ensures found { LooksAt seat.old word result seat.new }
    {
        let place = &mut seat.places[word];
        self.words[word].look(place)
    }
}
