//! What the threads of a pool do.

ghost use Rattle.std.specs.Prelude.{◌≡◌, ℕ, ◌<◌, List, [], length, map, slice_index, IfOk};
ghost use Rattle.std.specs.Prelude.{All, IsSomeAnd, slice_get};
ghost use Rattle.nm_shared.specs.Known.{ran};
ghost use Rattle.nm_shared.specs.Pool.{IsRunAnswer};

use super::{Gate, Job};
use crate::calls::OwnRun;
use crate::counts::Counts;
use crate::shared_book::{Pass, SharedBook};
use crate::workers::try_sender::TrySender;
use crossbeam_channel::Receiver;
use nm_base::PartNo;
use nm_book::Ran;
use std::alloc::{AllocError, Global};
use std::marker::{Brand, PhantomData};
use std::sync::Wait;

/// The jobs of one call: the book and the limit of each.
pub(super) trait Jobs {
    ghost books: { List ℕ };

    ghost limits: { List ℕ };
}

impl Jobs for Brand {
    ghost books = { [] };

    ghost limits = { [] };
}

/// An entry of the queue: the place of a job.
#[derive(Drop)]
pub(super) struct Queued<J: Jobs> {
    pub(super) place: usize,
    of: PhantomData<J>,
    ghost there: { place < length J.books },
}

/// A job that was done.
#[derive(Drop)]
pub(super) struct Done<C: Counts, J: Jobs> {
    pub(super) place: usize,
    pub(super) book: usize,
    /// The replica of that book: its partition, and 0 or 1.
    pub(super) partition: PartNo,
    pub(super) replica: u8,
    pub(super) answer: Ran,
    pub(super) pass: Pass<C>,
    pub(super) of: PhantomData<J>,
    ghost there: { place < length J.books },
    ghost book_is: { book ≡ slice_index J.books place },
    ghost runs: { IsRunAnswer (slice_index J.limits place) answer },
    ghost counted: { C.events_of pass.share ≡ ran answer },
}

fn to_queue<J: Jobs>(place: usize) -> Queued<J>
    requires { place < length J.books }
{
    Queued {
        place,
        of: PhantomData,
    }
}

/// Does one job, with a pass of its own.
pub(super) fn run_one<C: Counts, J: Jobs, G: Gate, R: Wait>(
    rt: &R,
    alloc: Global,
    books: &[SharedBook<C>],
    jobs: &[Job],
    place: usize,
    gate: &G,
) -> Result<Done<C, J>, AllocError>
    requires place { place < length jobs.now }
    requires named { All (λ j. j.book < length books.now) jobs.now }
    requires books { J.books ≡ map (λ j. j.book) jobs.now }
    requires limits { J.limits ≡ map (λ j. j.limit) jobs.now }
    ensures place { IfOk result (λ d. d.place ≡ place) }

    // The book of the job ran.
    ensures own { IfOk result (λ d. IsSomeAnd (slice_get books.now d.book)
        (λ b. (d.partition ≡ b.partition) × (d.replica ≡ b.replica))) }
{
    let job = &jobs[place];
    let entered = gate.enter(place);
    let run = books[job.book].run_anew(rt, alloc, job.limit);
    gate.leave(entered);
    let OwnRun {
        partition,
        replica,
        answer,
        pass,
        ..
    } = run?;
    Ok(Done {
        place,
        book: job.book,
        partition,
        replica,
        answer,
        pass,
        of: PhantomData,
    })
}

/// Queues each job, or does it if the queue is full. It waits for no other thread: the workers may
/// begin only when it has ended. The queue ends with its sender.
pub(super) fn feed<C: Counts, J: Jobs, G: Gate, R: Wait>(
    rt: &R,
    alloc: Global,
    books: &[SharedBook<C>],
    jobs: &[Job],
    to: TrySender<J>,
    gate: &G,
) -> Result<Vec<Done<C, J>>, AllocError>
    requires named { All (λ j. j.book < length books.now) jobs.now }
    requires length { length jobs.now ≡ length J.books }
    requires books { J.books ≡ map (λ j. j.book) jobs.now }
    requires limits { J.limits ≡ map (λ j. j.limit) jobs.now }
{
    let mut all = Vec::new(alloc);
    for place in 0..jobs.len() {
        if let Some(back) = to.try_send(rt, to_queue(place)) {
            all.push(run_one::<C, J, G, R>(rt, alloc, books, jobs, back.place, gate)?)?;
        }
    }
    Ok(all)
}

/// Does jobs until the queue ends. Once memory was refused, it only empties the queue.
pub(super) fn work<C: Counts, J: Jobs, G: Gate, R: Wait>(
    rt: &R,
    alloc: Global,
    books: &[SharedBook<C>],
    jobs: &[Job],
    queue: &Receiver<Queued<J>>,
    gate: &G,
) -> Result<Vec<Done<C, J>>, AllocError>
    requires named { All (λ j. j.book < length books.now) jobs.now }
    requires books { J.books ≡ map (λ j. j.book) jobs.now }
    requires limits { J.limits ≡ map (λ j. j.limit) jobs.now }
{
    let mut all = Vec::new(alloc);
    let mut refused = false;
    for _ in rt.forever() {
        let Ok(queued) = queue.recv(rt) else {
            break;
        };
        if refused {
            continue;
        }
        if let Err(_) = all.reserve(1) {
            refused = true;
            continue;
        }
        match run_one::<C, J, G, R>(rt, alloc, books, jobs, queued.place, gate) {
            Ok(done) => all.push_reserved(done),
            Err(_) => refused = true,
        }
    }
    if refused { Err(AllocError) } else { Ok(all) }
}
