//! How a board is made.

ghost use Rattle.std.specs.Prelude.{◌≡◌, ◌+◌, ◌*◌, ◌<◌, ◌≤◌, IfOk, [], length, vec_capacity};
ghost use Rattle.std.specs.Prelude.{vec_len};
ghost use Rattle.nm_shared.specs.Board.{AreFirstOwners, AreOwners, AreSeatsOf, Sit, view_of};
ghost use Rattle.nm_shared.specs.Board.{word_count};
ghost use Rattle.nm_shared.specs.Clock.{owner};
ghost use Rattle.nm_shared.specs.Closing.{SeatsSit};

use super::{ClockBoard, Closers, MAX_WORDS, OwnerSeat, SEATS, Seat};
use crate::word::{Word, WordSeat};
use nm_topology::Topology;
use nm_topology::topology::accepted_topologies_are_in_order;
use std::alloc::{AllocError, Global};
use std::sync::Mutex;

fn owner_seat(word: usize, place: WordSeat) -> OwnerSeat
    requires few { word < 1024 }
    requires view { view_of place ≡ owner }
    ensures { (result.word ≡ word) × (result.place ≡ place) }
{
    OwnerSeat { word, place }
}

/// The words, a seat that owns each, and a seat beside it.
fn words_of(
    alloc: Global,
    count: usize,
) -> Result<(Vec<Word>, Vec<OwnerSeat>, Vec<WordSeat>), AllocError>
    requires { count ≤ 1024 }
    ensures len { IfOk result (λ r. (vec_len r.0 ≡ count) × (vec_len r.1 ≡ count)) }
    ensures owners { IfOk result (λ r. AreOwners r.0.items r.1.items) }
    ensures sit { IfOk result (λ r. Sit r.0.items r.2.items) }
{
    let mut words = Vec::with_capacity(alloc, count)?;
    let mut owners = Vec::with_capacity(alloc, count)?;
    let mut places = Vec::with_capacity(alloc, count)?;
    for number in 0..count {
        let (word, mut owner) = Word::new(alloc)?;
        let place = word.split(&mut owner);
        words.push(word)?;
        owners.push(owner_seat(number, owner))?;
        places.push(place)?;
    }
    Ok((words, owners, places))
}

/// One more seat at each word, split off from these.
fn seat_of(alloc: Global, words: &Vec<Word>, places: &mut Vec<WordSeat>) -> Result<Seat, AllocError>
    requires { Sit words.now.items places.old.items }
    ensures places { IfOk result (λ _. Sit words.now.items places.new.items) }
    ensures seat { IfOk result (λ s. Sit words.now.items s.places.items) }
{
    let mut others = Vec::with_capacity(alloc, words.len())?;
    for number in 0..words.len() {
        let other = words[number].split(&mut places[number]);
        others.push(other)?;
    }
    Ok(Seat { places: others })
}

/// All looking seats.
fn seats_of(
    alloc: Global,
    words: &Vec<Word>,
    places: Vec<WordSeat>,
) -> Result<Vec<Seat>, AllocError>
    requires { Sit words.now.items places.items }
    ensures len { IfOk result (λ s. vec_len s ≡ 64) }
    ensures seats { IfOk result (λ s. SeatsSit words.now.items s.items) }
{
    let mut places = places;
    let mut seats = Vec::with_capacity(alloc, SEATS)?;
    for _number in 1..SEATS {
        let seat = seat_of(alloc, words, &mut places)?;
        seats.push(seat)?;
    }
    seats.push(Seat { places })?;
    Ok(seats)
}

/// `count` clocks at 0.
fn clocks_of(alloc: Global, count: usize) -> Result<Vec<u64>, AllocError>
    ensures { IfOk result (λ v. vec_len v ≡ count) }
{
    let mut clocks = Vec::with_capacity(alloc, count)?;
    for _number in 0..count {
        clocks.push(0)?;
    }
    Ok(clocks)
}

impl ClockBoard {
    /// A board with a word at 0 for each channel and replica, an owner's seat for each word in
    /// order, and the looking seats. Only this takes memory, and only this splits seats.
    ///
    /// # Errors
    ///
    /// If memory was refused.
    pub fn new(
        alloc: Global,
        topology: &Topology,
    ) -> Result<(ClockBoard, Vec<OwnerSeat>, Vec<Seat>), AllocError>
        ensures len { IfOk result (λ r. (word_count r.0 ≡ 2 * length topology.now.receivers)
            × (vec_len r.1 ≡ 2 * length topology.now.receivers) × (vec_len r.2 ≡ 64)) }
        ensures owners { IfOk result (λ r. AreFirstOwners r.0 r.1.items) }
        ensures seats { IfOk result (λ r. AreSeatsOf r.0 r.2.items) }
    {
        accepted_topologies_are_in_order(topology); // law: there are at most 512 channels
        ClockBoard::of_words(alloc, 2 * topology.receivers().len())
    }

    /// A board of so many words at 0, an owner's seat for each in order, and the looking seats.
    fn of_words(
        alloc: Global,
        count: usize,
    ) -> Result<(ClockBoard, Vec<OwnerSeat>, Vec<Seat>), AllocError>
        requires { count ≤ 1024 }
        ensures len { IfOk result (λ r. (word_count r.0 ≡ count) × (vec_len r.1 ≡ count)
            × (vec_len r.2 ≡ 64)) }
        ensures owners { IfOk result (λ r. AreFirstOwners r.0 r.1.items) }
        ensures seats { IfOk result (λ r. AreSeatsOf r.0 r.2.items) }
    {
        let (words, owners, places) = words_of(alloc, count)?;
        let seats = seats_of(alloc, &words, places)?;
        let clocks = clocks_of(alloc, count)?;
        let places = Vec::with_capacity(alloc, MAX_WORDS)?;
        let board = ClockBoard {
            words,
            clocks,
            closers: Mutex::new(Closers { places }),
        };
        Ok((board, owners, seats))
    }
}
