//! Jobs over a list of shared books, done by a few threads.

ghost use Rattle.std.specs.Prelude.{◌≡◌, ℕ, ◌<◌, ◌≤◌, length, map, slice_index, vec_len, IfOk, All};
ghost use Rattle.std.specs.Prelude.{true};
ghost use Rattle.nm_shared.specs.Known.{ran};
ghost use Rattle.nm_shared.specs.Pool.{AreAnswers};

mod report;
mod try_sender;
mod work;

use crate::counts::Counts;
use crate::shared_book::{Pass, SharedBook};
use nm_book::Ran;
use report::{gathered, report_of, slots_for};
use std::alloc::{AllocError, Global};
use std::marker::Brand;
use std::sync::Wait;
use std::thread;
use std::thread::Threads;
use try_sender::TrySender;
use work::{Done, Jobs, feed, work};

/// How many jobs wait at most.
const QUEUE: usize = 64;

/// A run of one of the books, of at most so many events.
#[derive(Drop)]
pub struct Job {
    /// The place of the book in the list.
    pub book: usize,
    pub limit: u64,
}

/// A worker has begun the job at this place of the list. Only `Gate::leave` can spend it.
pub struct Entered {
    pub job: usize,
}

/// What is called while threads run.
pub trait Gate {
    /// A worker begins the job at this place of the list.
    fn enter(&self, job: usize) -> Entered
        ensures { result.job ≡ job };

    /// It has ended it.
    fn leave(&self, entered: Entered);

    /// Whether an I/O thread goes on; its wires have moved `moved` octets so far. A pool never
    /// calls it.
    fn poll(&self, moved: u64) -> bool;
}

/// A gate at which everything goes on.
pub struct OpenGate;

impl Gate for OpenGate {
    fn enter(&self, job: usize) -> Entered {
        Entered { job }
    }

    fn leave(&self, entered: Entered) {
        let Entered { job: _ } = entered;
    }

    fn poll(&self, _moved: u64) -> bool
        ensures { result ≡ true }
    {
        true
    }
}

/// A pass that a pool made, with its book's place.
#[derive(Drop)]
pub struct BookPass<C: Counts> {
    pub book: usize,
    pub pass: Pass<C>,
}

/// The answer of each job, in order, and the pass that it was run with.
#[derive(Drop)]
pub struct PoolReport<C: Counts> {
    pub answers: Vec<Ran>,
    pub passes: Vec<BookPass<C>>,
}

/// A pool for jobs that types name. If the system refuses a thread to a worker, its jobs are done
/// in this one, once the queue is fed; feeding waits for no worker.
fn pool_of<C: Counts, J: Jobs + Send + Sync, G: Gate + Sync, R: Threads + Wait + Sync>(
    rt: &R,
    alloc: Global,
    books: &[SharedBook<C>],
    jobs: &[Job],
    workers: usize,
    gate: &G,
) -> Result<PoolReport<C>, AllocError>
    // There are workers, and books for the jobs.
    requires workers { (1 ≤ workers) × (workers ≤ 64) }
    requires named { All (λ j. j.book < length books.now) jobs.now }

    // The workers do these jobs.
    requires length { length jobs.now ≡ length J.books }
    requires books { J.books ≡ map (λ j. j.book) jobs.now }
    requires limits { J.limits ≡ map (λ j. j.limit) jobs.now }

    // Each job has its pass, and the pass's share counts the events that were done.
    ensures books { IfOk result
        (λ r. map (λ p. p.book) r.passes.items ≡ map (λ j. j.book) jobs.now) }
    ensures counted { IfOk result (λ r. map (λ p. C.events_of p.pass.share) r.passes.items
        ≡ map ran r.answers.items) }

    // Each job has its answer, in order, within its limit.
    ensures within { IfOk result (λ r. (vec_len r.answers ≡ length jobs.now)
        × ((k : ℕ) → k < length jobs.now
        → slice_index (map ran r.answers.items) k ≤ slice_index J.limits k)) }
    ensures runs { IfOk result (λ r. AreAnswers J.limits r.answers.items) }
{
    let slots = slots_for(alloc, jobs.len())?;
    let (to, from) = crossbeam_channel::bounded(alloc, QUEUE)?;
    let (queue, sender) = (&from, TrySender::of(to));
    let (results, fed) = thread::join(
        rt,
        move ||
            requires named { All (λ j. j.book < length books.now) jobs.now }
            requires books { J.books ≡ map (λ j. j.book) jobs.now }
            requires limits { J.limits ≡ map (λ j. j.limit) jobs.now }
        {
            thread::map_indices(
                rt,
                alloc,
                workers,
                &|_worker: usize| -> Result<Vec<Done<C, J>>, AllocError>
                    requires named { All (λ j. j.book < length books.now) jobs.now }
                    requires books { J.books ≡ map (λ j. j.book) jobs.now }
                    requires limits { J.limits ≡ map (λ j. j.limit) jobs.now }
                { work::<C, J, G, R>(rt, alloc, books, jobs, queue, gate) },
            )
        },
        move ||
            requires named { All (λ j. j.book < length books.now) jobs.now }
            requires length { length jobs.now ≡ length J.books }
            requires books { J.books ≡ map (λ j. j.book) jobs.now }
            requires limits { J.limits ≡ map (λ j. j.limit) jobs.now }
        { feed::<C, J, G, R>(rt, alloc, books, jobs, sender, gate) },
    );
    let slots = gathered(slots, results?, fed?)?;
    report_of::<C, J, G, R>(rt, alloc, books, jobs, slots, gate)
}

/// Does the jobs on so many threads. Answers, in the order of the jobs, what each run answered, and
/// a pass of the job's book, which has counted the events of that answer.
///
/// # Errors
///
/// If memory was refused. A pass may be lost then, and its book does not close.
pub fn pool<C: Counts, G: Gate + Sync, R: Threads + Wait + Sync>(
    rt: &R,
    alloc: Global,
    books: &[SharedBook<C>],
    jobs: &[Job],
    workers: usize,
    gate: &G,
) -> Result<PoolReport<C>, AllocError>
    // There are workers, and books for the jobs.
    requires workers { (1 ≤ workers) × (workers ≤ 64) }
    requires named { All (λ j. j.book < length books.now) jobs.now }

    // Each job has its pass, and the pass's share counts the events that were done.
    ensures books { IfOk result
        (λ r. map (λ p. p.book) r.passes.items ≡ map (λ j. j.book) jobs.now) }
    ensures counted { IfOk result (λ r. map (λ p. C.events_of p.pass.share) r.passes.items
        ≡ map ran r.answers.items) }

    // Each job has its answer, in order, within its limit.
    ensures within { IfOk result (λ r. (vec_len r.answers ≡ length jobs.now)
        × ((k : ℕ) → k < length jobs.now → slice_index (map ran r.answers.items) k
        ≤ slice_index (map (λ j. j.limit) jobs.now) k)) }
    ensures runs { IfOk result (λ r. AreAnswers (map (λ j. j.limit) jobs.now) r.answers.items) }
{
    pool_of::<C, Brand, G, R>(rt, alloc, books, jobs, workers, gate)
}
