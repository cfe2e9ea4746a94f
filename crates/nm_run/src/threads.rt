//! What the threads of a run share.

ghost use Rattle.std.specs.Prelude.{◌≡◌, ◌<◌, IfSome, length, true};
ghost use Rattle.nm_run.specs.Watching.{IsOwnAt, names_of};

use crate::run::RunPlan;
use crate::stations::{Counted, FirstEnded, FirstWoken, Own, Station};
use crate::told::Told;
use crate::waking::DispatcherWaker;
use nm_peers::Listener;
use nm_shared::{ClockBoard, Plain, SharedBook};
use std::alloc::Global;
use std::sync::{OnceLock, Wait};

/// What all threads of a run share.
#[derive(Clone, Copy)]
pub(crate) struct Threaded<'a, G> {
    /// The allocator.
    pub alloc: Global,
    pub plan: &'a RunPlan<'a>,
    /// The books of all replicas, by partition and replica.
    pub books: &'a [SharedBook<Plain>],
    /// Their stations, in the same order.
    pub stations: &'a [Station],
    /// Where they listen.
    pub listeners: &'a [Listener],
    pub board: &'a ClockBoard,
    /// Wakes the dispatcher.
    pub dispatcher: &'a DispatcherWaker,
    /// Set once a replica has ended before it was done, or the dispatcher was refused memory.
    /// Nothing clears it.
    pub has_failed: &'a OnceLock<()>,
    pub gate: &'a G,
}

/// All replicas were woken: only `Threaded::wake_all` makes it.
#[derive(Clone, Copy)]
pub(crate) struct AllWoken {
    first: FirstWoken,
}

impl<'a, G> Threaded<'a, G> {
    /// The replica with this number among those of the run.
    pub(crate) fn own_at(&self, number: usize) -> Own<'a>
        requires { (number < length self.now.books.now) × (number < length self.now.stations.now) }
        ensures { IsOwnAt (names_of self.now) number result }
    {
        Own {
            index: number,
            station: &self.stations[number],
            book: &self.books[number],
        }
    }

    /// Wakes all replicas.
    pub(crate) fn wake_all(&self) -> AllWoken
        ensures { result.first.count ≡ length self.now.stations.now }
    {
        let mut first = FirstWoken::none();
        for number in 0..self.stations.len() {
            first = first.and(self.stations, &self.stations[number].wake());
        }
        AllWoken { first }
    }

    /// Tells all replicas to end, since the run has failed.
    pub(crate) fn fail<R: Wait>(&self, rt: &R) -> Told
        ensures { result.are_all ≡ true }
    {
        let noted = self.has_failed.init(rt, || ());
        Told::all(self.has_failed, &noted, self.wake_all())
    }

    /// Notes that one more replica has ended, and tells the dispatcher.
    pub(crate) fn count_end<R: Wait>(&self, rt: &R, own: &Own<'_>) -> Counted
        ensures { result.index ≡ own.now.index }
    {
        let passed = self.dispatcher.pass_end(own.end(rt));
        Counted::at(own, &passed)
    }

    /// A witness that all replicas have ended, if they have.
    pub(crate) fn are_over(&self) -> Option<FirstEnded>
        ensures { IfSome result (λ ended. ended.count ≡ length self.now.stations.now) }
    {
        let mut ended = FirstEnded::none();
        for number in 0..self.stations.len() {
            let noted = self.stations.get(number)?.ended.witness()?;
            ended = ended.and(self.stations, &noted);
        }
        Some(ended)
    }
}
