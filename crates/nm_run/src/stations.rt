//! What a run keeps of a replica, from its beginning to its end.

ghost use Rattle.std.specs.Prelude.{◌≡◌, ◌+◌, ◌<◌, IsSomeAnd, Some, length, slice_get};

use crate::waking::EndPassed;
use mio::Waker;
use nm_frames::ReplicaName;
use nm_shared::{Lending, Plain, SharedBook};
use std::io;
use std::sync::{OnceLock, OnceToken, Wait};

/// What a run keeps of a replica beside its book.
#[derive(Drop)]
pub(crate) struct Station {
    /// Who runs its book.
    pub lending: Lending,
    /// Wakes it.
    pub waker: Waker,
    /// Set once it has ended. Nothing clears it.
    pub ended: OnceLock<()>,
}

/// The replica of this station was woken: only `Station::wake` makes it.
#[derive(Clone, Copy)]
pub(crate) struct Woken<'a> {
    station: &'a Station,
}

impl Station {
    /// Wakes the replica.
    pub(crate) fn wake(&self) -> Woken<'_>
        ensures { result.station ≡ self.entry }
    {
        self.woken(self.waker.wake())
    }

    /// The replica was woken, whatever its waker answered: if that failed, it wakes at the end of
    /// its period.
    fn woken(&self, _: io::Result<()>) -> Woken<'_>
        ensures { result.station ≡ self.entry }
    {
        Woken { station: self }
    }
}

/// The first `count` of a run's replicas were woken: only `and` counts one more.
#[derive(Clone, Copy)]
pub(crate) struct FirstWoken {
    count: usize,
}

impl FirstWoken {
    /// None so far.
    pub(crate) fn none() -> Self
        ensures { result.count ≡ 0 }
    {
        FirstWoken { count: 0 }
    }

    /// One more: the replica of the next of these stations.
    pub(crate) fn and(self, stations: &[Station], woken: &Woken<'_>) -> Self
        requires below { self.count < length stations.now }
        requires next { slice_get stations.now self.count ≡ Some woken.now.station.now }
        ensures { result.count ≡ self.count + 1 }
    {
        FirstWoken {
            count: self.count + 1,
        }
    }
}

/// The first `count` of a run's replicas have ended: only `and` counts one more.
#[derive(Clone, Copy)]
pub(crate) struct FirstEnded {
    count: usize,
}

impl FirstEnded {
    /// None so far.
    pub(crate) fn none() -> Self
        ensures { result.count ≡ 0 }
    {
        FirstEnded { count: 0 }
    }

    /// One more: its end was noted at its station, the next of these.
    pub(crate) fn and(self, stations: &[Station], noted: &OnceToken<'_, ()>) -> Self
        requires below { self.count < length stations.now }
        requires noted { IsSomeAnd (slice_get stations.now self.count)
            (λ station. noted.now.of ≡ station.ended.id) }
        ensures { result.count ≡ self.count + 1 }
    {
        FirstEnded {
            count: self.count + 1,
        }
    }
}

/// A replica of a run: its place among those of the run, its station, and its book, which has its
/// partition and number.
#[derive(Clone, Copy)]
pub(crate) struct Own<'a> {
    pub index: usize,
    pub station: &'a Station,
    pub book: &'a SharedBook<Plain>,
}

impl<'a> Own<'a> {
    /// Which replica it is.
    pub(crate) fn name(&self) -> ReplicaName
        ensures { (result.partition ≡ self.now.book.now.partition)
            × (result.replica ≡ self.now.book.now.replica) }
    {
        ReplicaName {
            partition: self.book.partition,
            replica: self.book.replica,
        }
    }

    /// Notes that it has ended.
    pub(crate) fn end<R: Wait>(&self, rt: &R) -> OnceToken<'a, ()>
        ensures { result.of ≡ self.now.station.now.ended.id }
    {
        self.station.ended.init(rt, || ())
    }
}

/// The replica with this number is among those that have ended: only `Counted::at` makes it.
#[derive(Clone, Copy)]
pub(crate) struct Counted {
    index: usize,
}

impl Counted {
    /// The end of the replica was noted at its station, and the dispatcher was told.
    pub(crate) fn at(own: &Own<'_>, passed: &EndPassed<'_>) -> Self
        requires { passed.now.noted.of ≡ own.now.station.now.ended.id }
        ensures { result.index ≡ own.now.index }
    {
        Counted { index: own.index }
    }
}
