//! The answers of a pool.

ghost use Rattle.std.specs.Prelude.{◌≡◌, ℕ, ◌<◌, ◌≤◌, length, map, slice_index, vec_len, IfOk, All};
ghost use Rattle.std.specs.Prelude.{◌++◌, IfSome, Ok, Some, slice_get, slice_set};
ghost use Rattle.nm_shared.specs.Known.{ran};
ghost use Rattle.nm_shared.specs.Pool.{AreAnswers, HadMemory, done_by, put_in_places};

use super::work::{Done, Jobs, run_one};
use super::{BookPass, Gate, Job, PoolReport};
use crate::counts::Counts;
use crate::shared_book::SharedBook;
use std::alloc::{AllocError, Global};
use std::sync::Wait;

/// A place for each job.
pub(super) fn slots_for<C: Counts, J: Jobs>(
    alloc: Global,
    count: usize,
) -> Result<Vec<Option<Done<C, J>>>, AllocError>
    ensures { IfOk result (λ v. vec_len v ≡ count) }
{
    let mut slots = Vec::with_capacity(alloc, count)?;
    for _number in 0..count {
        slots.push(None)?;
    }
    Ok(slots)
}

/// Puts a job that was done into its place.
fn put<C: Counts, J: Jobs>(slots: &mut Vec<Option<Done<C, J>>>, done: Done<C, J>)
    requires { vec_len slots.old ≡ length J.books }
    ensures { slots.new.items ≡ slice_set slots.old.items done.place (Some done) }
{
    let place = done.place;
    slots[place] = Some(done);
}

/// Puts the jobs that were done into their places.
fn put_all<C: Counts, J: Jobs>(slots: &mut Vec<Option<Done<C, J>>>, all: Vec<Done<C, J>>)
    requires { vec_len slots.old ≡ length J.books }
    ensures length { vec_len slots.new ≡ vec_len slots.old }
    ensures put { slots.new.items ≡ put_in_places (λ d. d.place) slots.old.items all.items }
{
    for done in all {
        put(slots, done);
    }
}

/// The jobs that were done, in their places: those of the threads, and those that did not fit into
/// the queue.
pub(super) fn gathered<C: Counts, J: Jobs>(
    slots: Vec<Option<Done<C, J>>>,
    results: Vec<Result<Vec<Done<C, J>>, AllocError>>,
    fed: Vec<Done<C, J>>,
) -> Result<Vec<Option<Done<C, J>>>, AllocError>
    requires { vec_len slots ≡ length J.books }
    ensures length { IfOk result (λ s. vec_len s ≡ length J.books) }
    ensures put { IfOk result (λ s. s.items ≡ put_in_places (λ d. d.place) slots.items
        (done_by results.items ++ fed.items)) }
    ensures memory { IfOk result (λ _. HadMemory results.items) }
{
    let mut slots = slots;
    for result in results {
        put_all(&mut slots, result?);
    }
    put_all(&mut slots, fed);
    Ok(slots)
}

/// The job that was done; if its message was lost, it is done now.
fn done_at<C: Counts, J: Jobs, G: Gate, R: Wait>(
    rt: &R,
    alloc: Global,
    books: &[SharedBook<C>],
    jobs: &[Job],
    slot: Option<Done<C, J>>,
    place: usize,
    gate: &G,
) -> Result<Done<C, J>, AllocError>
    requires place { place < length jobs.now }
    requires named { All (λ j. j.book < length books.now) jobs.now }
    requires books { J.books ≡ map (λ j. j.book) jobs.now }
    requires limits { J.limits ≡ map (λ j. j.limit) jobs.now }
    ensures place { IfOk result (λ d. d.place ≡ place) }

    // A job that was done stays as it is.
    ensures kept { IfSome slot (λ d. d.place ≡ place → result ≡ Ok d) }
{
    match slot {
        Some(done) if done.place == place => Ok(done),
        _ => run_one::<C, J, G, R>(rt, alloc, books, jobs, place, gate),
    }
}

/// The jobs' answers and passes, in order.
pub(super) fn report_of<C: Counts, J: Jobs, G: Gate, R: Wait>(
    rt: &R,
    alloc: Global,
    books: &[SharedBook<C>],
    jobs: &[Job],
    slots: Vec<Option<Done<C, J>>>,
    gate: &G,
) -> Result<PoolReport<C>, AllocError>
    requires slots { vec_len slots ≡ length jobs.now }
    requires named { All (λ j. j.book < length books.now) jobs.now }
    requires books { J.books ≡ map (λ j. j.book) jobs.now }
    requires limits { J.limits ≡ map (λ j. j.limit) jobs.now }
    ensures books { IfOk result
        (λ r. map (λ p. p.book) r.passes.items ≡ map (λ j. j.book) jobs.now) }
    ensures counted { IfOk result (λ r. map (λ p. C.events_of p.pass.share) r.passes.items
        ≡ map ran r.answers.items) }
    ensures within { IfOk result (λ r. (vec_len r.answers ≡ length jobs.now)
        × ((k : ℕ) → k < length jobs.now
        → slice_index (map ran r.answers.items) k ≤ slice_index J.limits k)) }
    ensures runs { IfOk result (λ r. AreAnswers J.limits r.answers.items) }
{
    let mut slots = slots;
    let mut answers = Vec::with_capacity(alloc, jobs.len())?;
    let mut passes = Vec::with_capacity(alloc, jobs.len())?;
    for place in 0..jobs.len() {
        let slot = slots[place].take();
        let done = done_at(rt, alloc, books, jobs, slot, place, gate)?;
        let Done {
            book,
            answer,
            pass,
            ..
        } = done;
        answers.push(answer)?;
        passes.push(BookPass { book, pass })?;
    }
    Ok(PoolReport { answers, passes })
}
