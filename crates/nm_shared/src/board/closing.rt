//! The final words of a board.

ghost use Rattle.std.specs.Prelude.{◌≡◌, ◌+◌, ◌<◌, ◌≤◌, ℕ, List, IfSome, length, slice_index};
ghost use Rattle.std.specs.Prelude.{vec_capacity, vec_len};
ghost use Rattle.nm_shared.specs.Board.{AreOwnersOf, AreSeatsOf, ClocksAre, FitAll, FitsAt};
ghost use Rattle.nm_shared.specs.Board.{NoneFoundMore, Sit, SitsAt, id_of, raised_to, view_of};
ghost use Rattle.nm_shared.specs.Board.{word_count, word_id};
ghost use Rattle.nm_shared.specs.Clock.{Fits};
ghost use Rattle.nm_shared.specs.Closing.{FitIf, OwnersSit, SeatsSit, SitIf};

use super::{ClockBoard, Closers, OwnerSeat, Seat};
use crate::word::{Word, WordSeat};

/// No seat has come back to any of these words.
fn none_yet(words: &Vec<Word>, closers: Closers) -> Vec<Option<WordSeat>>
    requires { vec_len words.now ≤ 1024 }
    ensures { SitIf words.now.items result.items }
{
    let Closers { mut places } = closers;
    for _number in 0..words.len() {
        places.push_reserved(None);
    }
    places
}

/// Two seats at one word become one, if there are two.
#[tactic(auto, using(crate::proofs::Closings::both_fit))]
fn both(word: &Word, closer: Option<WordSeat>, place: WordSeat) -> WordSeat
    requires place { id_of place ≡ word_id word.now }
    requires closer { IfSome closer (λ p. id_of p ≡ word_id word.now) }
    ensures word { id_of result ≡ word_id word.now }
    ensures fits { (n : ℕ) → Fits n (view_of result)
        → IfSome closer (λ p. Fits n (view_of p)) × Fits n (view_of place) }
{
    match closer {
        Some(mut closer) => {
            word.join(&mut closer, place);
            closer
        }
        None => place,
    }
}

/// Takes in a seat at one word.
fn take_place(words: &Vec<Word>, closers: &mut Vec<Option<WordSeat>>, word: usize, place: WordSeat)
    requires sit { SitIf words.now.items closers.old.items }
    requires place { SitsAt words.now.items word place }
    ensures sit { SitIf words.now.items closers.new.items }
    ensures fits { (ns : List ℕ) → FitIf ns closers.new.items
        → FitIf ns closers.old.items × FitsAt ns word place }
{
    let closer = closers[word].take();
    closers[word] = Some(both(&words[word], closer, place));
}

/// Takes in an owner's seat.
fn take_owner(words: &Vec<Word>, closers: &mut Vec<Option<WordSeat>>, owner: OwnerSeat)
    requires sit { SitIf words.now.items closers.old.items }
    requires owner { SitsAt words.now.items owner.word owner.place }
    ensures sit { SitIf words.now.items closers.new.items }
    ensures fits { (ns : List ℕ) → FitIf ns closers.new.items
        → FitIf ns closers.old.items × (slice_index ns owner.word ≡ raised_to owner) }
{
    let OwnerSeat { word, place } = owner;
    take_place(words, closers, word, place);
}

fn take_owners(words: &Vec<Word>, closers: &mut Vec<Option<WordSeat>>, owners: Vec<OwnerSeat>)
    requires sit { SitIf words.now.items closers.old.items }
    requires owners { OwnersSit words.now.items owners.items }
    ensures sit { SitIf words.now.items closers.new.items }
    ensures fits { (ns : List ℕ) → FitIf ns closers.new.items
        → FitIf ns closers.old.items × ClocksAre ns owners.items }
{
    let mut owners = owners;
    while let Some(owner) = owners.pop() {
        take_owner(words, closers, owner);
    }
}

/// Takes in a seat at each word.
fn take_seat(words: &Vec<Word>, closers: &mut Vec<Option<WordSeat>>, seat: Seat)
    requires sit { SitIf words.now.items closers.old.items }
    requires seat { Sit words.now.items seat.places.items }
    ensures sit { SitIf words.now.items closers.new.items }
    ensures fits { (ns : List ℕ) → FitIf ns closers.new.items
        → FitIf ns closers.old.items × FitAll ns seat.places.items }
{
    let Seat { mut places } = seat;
    while let Some(place) = places.pop() {
        take_place(words, closers, places.len(), place);
    }
}

fn take_seats(words: &Vec<Word>, closers: &mut Vec<Option<WordSeat>>, seats: Vec<Seat>)
    requires sit { SitIf words.now.items closers.old.items }
    requires seats { SeatsSit words.now.items seats.items }
    ensures sit { SitIf words.now.items closers.new.items }
    ensures fits { (ns : List ℕ) → FitIf ns closers.new.items
        → FitIf ns closers.old.items × NoneFoundMore ns seats.items }
{
    let mut seats = seats;
    while let Some(seat) = seats.pop() {
        take_seat(words, closers, seat);
    }
}

/// The final value of a word, by the seat that took in the others, if one came back.
fn close_word(word: Word, closer: Option<WordSeat>) -> u64
    requires { IfSome closer (λ p. id_of p ≡ word_id word) }
    ensures { IfSome closer (λ p. Fits result (view_of p)) }
{
    match closer {
        Some(place) => word.close(place),
        None => word.close_alone(),
    }
}

/// The final words.
fn close_words(words: Vec<Word>, closers: Vec<Option<WordSeat>>, clocks: Vec<u64>) -> Vec<u64>
    requires sit { SitIf words.items closers.items }
    requires clocks { vec_len clocks ≡ vec_len words }
    ensures len { vec_len result ≡ vec_len words }
    ensures fits { FitIf result.items closers.items }
{
    let mut words = words;
    let mut closers = closers;
    let mut clocks = clocks;
    while let Some(closer) = closers.pop() {
        let Some(word) = words.pop() else {
            unreachable!()
        };
        clocks[words.len()] = close_word(word, closer);
    }
    clocks
}

impl ClockBoard {
    /// The final words. Each given owner's word is the greatest clock to which it was raised, and
    /// no given seat ever found more than a word. It takes no memory, and never waits.
    pub fn close(self, owners: Vec<OwnerSeat>, seats: Vec<Seat>) -> Vec<u64>
        requires owners { AreOwnersOf self owners.items }
        requires seats { AreSeatsOf self seats.items }
        ensures len { vec_len result ≡ word_count self }
        ensures owners { ClocksAre result.items owners.items }
        ensures seats { NoneFoundMore result.items seats.items }
    {
        let ClockBoard {
            words,
            clocks,
            closers,
        } = self;
        let mut closers = none_yet(&words, closers.into_inner());
        take_owners(&words, &mut closers, owners);
        take_seats(&words, &mut closers, seats);
        close_words(words, closers, clocks)
    }
}
