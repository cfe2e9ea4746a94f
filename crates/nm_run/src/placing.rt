//! Jobs that the dispatcher does itself, each at its place in their list.

ghost use Rattle.std.specs.Prelude.{◌≡◌, ◌+◌, ◌<◌, Some, length, slice_get};
ghost use Rattle.nm_base.specs.Count.{saturated};
ghost use Rattle.nm_run.specs.Watching.{Answers};
ghost use Rattle.nm_shared.specs.Known.{ran};
ghost use Rattle.nm_shared.specs.Pool.{IsRunAnswer};

use crate::jobs::{Answered, Watched};
use crate::threads::Threaded;
use nm_book::Ran;
use nm_shared::{Gate, Job};
use std::sync::Wait;

/// A job, and its place in the list of jobs: only `Placed::at` makes it.
#[derive(Clone, Copy)]
pub(crate) struct Placed<'a> {
    job: &'a Job,
    place: usize,
}

/// The job at this place was done between the two calls of its gate, which was told the place: only
/// `Placed::run` makes it.
#[derive(Clone, Copy)]
pub(crate) struct GatedRun {
    place: usize,
    pub answer: Ran,
}

/// The first `count` of some jobs were done and noted, and did so many events, up to 2^64 - 1: only
/// `and` counts one more.
#[derive(Clone, Copy)]
pub(crate) struct FirstDone {
    count: usize,
    events: u64,
}

impl FirstDone {
    /// None so far.
    pub(crate) fn none() -> Self
        ensures { (result.count ≡ 0) × (result.events ≡ 0) }
    {
        FirstDone {
            count: 0,
            events: 0,
        }
    }

    /// One more: the next of these jobs, which was noted.
    pub(crate) fn and(self, jobs: &[Job], run: &GatedRun, answered: &Answered) -> Self
        requires below { self.count < length jobs.now }
        requires next { run.now.place ≡ self.count }
        requires noted { Answers run.now.answer answered.now }
        ensures count { result.count ≡ self.count + 1 }
        ensures events { result.events ≡ saturated (self.events + ran run.now.answer) }
    {
        FirstDone {
            count: self.count + 1,
            events: self.events.saturating_add(answered.events),
        }
    }

    /// How many events they did.
    pub(crate) fn events(self) -> u64
        ensures { result ≡ self.events }
    {
        self.events
    }
}

impl<'a> Placed<'a> {
    /// The job at this place.
    pub(crate) fn at(jobs: &'a [Job], place: usize) -> Self
        requires { place < length jobs.now }
        ensures job { slice_get jobs.now place ≡ Some result.job.now }
        ensures place { result.place ≡ place }
    {
        Placed {
            job: &jobs[place],
            place,
        }
    }

    pub(crate) fn job(&self) -> &'a Job
        ensures { result.now ≡ self.now.job.now }
    {
        self.job
    }

    /// Does the job, with the dispatcher's pass of its book. The gate is told.
    pub(crate) fn run<G: Gate, R: Wait>(
        &self,
        rt: &R,
        threaded: &Threaded<'_, G>,
        watched: &mut Watched<'_>,
    ) -> GatedRun
        requires { watched.old.own.index ≡ self.now.job.now.book }
        ensures own { watched.new.own ≡ watched.old.own }
        ensures place { result.place ≡ self.now.place }
        ensures answer { IsRunAnswer self.now.job.now.limit result.answer }
    {
        let entered = threaded.gate.enter(self.place);
        let place = entered.job;
        let answer = watched.run(rt, threaded.alloc, self.job);
        threaded.gate.leave(entered);
        GatedRun { place, answer }
    }
}
