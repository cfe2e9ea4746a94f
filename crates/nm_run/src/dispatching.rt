//! The dispatcher, which gives jobs to a pool as long as there are any.

ghost use Rattle.std.specs.Prelude.{◌≡◌, ◌==◌, ◌+◌, ◌*◌, ◌<◌, ◌≤◌, All, IfErr, IfOk, IsSomeAnd};
ghost use Rattle.std.specs.Prelude.{OnOk, is_some, length, true, vec_len};
ghost use Rattle.std.specs.Duration.{as_nanos};
ghost use Rattle.std.specs.List.{list_all, sum_by};
ghost use Rattle.nm_base.specs.Count.{saturated};
ghost use Rattle.nm_run.specs.Watching.{Answers, AreOwns, names_of, owns_of};
ghost use Rattle.nm_shared.specs.Known.{ran};
ghost use Rattle.nm_shared.specs.Board.{IsSeatOf};
ghost use Rattle.mio.specs.Events.{items};
ghost use Rattle.nm_run.specs.declared.stop.Stop.TheVariants.{Memory};

use crate::jobs::{Answered, Watched, jobs_for};
use crate::placing::{FirstDone, Placed};
use crate::stations::{FirstEnded, Own, Woken};
use crate::stop::Stop;
use crate::threads::{AllWoken, Threaded};
use crate::told::Stopped;
use crate::waiting::Waited;
use mio::{Events, Poll};
use nm_base::Time;
use nm_book::Ran;
use nm_progress::Figure;
use nm_shared::workers::BookPass;
use nm_shared::{Gate, Job, Plain, PoolReport, Seat, pool};
use nm_transport::limits::PERIOD_MILLISECONDS;
use std::alloc::AllocError;
use std::sync::Wait;
use std::sync::atomic::Ordering;
use std::thread::Threads;
use std::time::Duration;

/// The dispatcher's notes of each book, its seat at the board, the poll that wakes it, and the
/// passes of the jobs so far.
#[derive(Drop)]
pub(crate) struct Dispatcher<'a> {
    pub watched: Vec<Watched<'a>>,
    pub seat: Seat,
    pub poll: Poll,
    pub events: Events,
    /// It was not woken within its time limit: it reads all books.
    pub looks_at_all: bool,
    pub passes: Vec<BookPass<Plain>>,
}

/// Jobs were given until all replicas had ended.
#[derive(Clone, Copy)]
pub(crate) struct Dispatched {
    ended: FirstEnded,
}

impl<'a> Dispatcher<'a> {
    /// The passes of jobs, and those with which it read books, once it has ended.
    pub(crate) fn into_passes(self, _: Dispatched) -> Result<Vec<BookPass<Plain>>, AllocError>
        ensures { IfOk result
            (λ passes. vec_len passes ≡ vec_len self.entry.passes + vec_len self.entry.watched) }
    {
        let Dispatcher {
            watched,
            mut passes,
            ..
        } = self;
        for one in watched {
            passes.push(one.into_pass())?;
        }
        Ok(passes)
    }
}

/// The answer of a job was noted: how many events it did, and that its book's replica was woken.
#[derive(Clone, Copy)]
struct Noted<'a> {
    answered: Answered,
    woken: Woken<'a>,
}

/// Notes the answer of a book's job, and wakes its replica. If figures are asked for, counts the
/// job, and notes whether the book is still lent.
fn note<'a, G>(
    threaded: &Threaded<'_, G>,
    watched: &mut Watched<'a>,
    job: &Job,
    answer: Ran,
) -> Result<Noted<'a>, AllocError>
    requires { watched.old.own.index ≡ job.now.book }
    ensures woken { IfOk result (λ n. n.woken.station ≡ watched.old.own.station) }
    ensures answered { IfOk result (λ n. Answers answer n.answered) }
    ensures own { watched.new.own ≡ watched.old.own }
{
    let answered = watched.note(job, answer)?;
    let Own { station, book, .. } = watched.own;
    if let Some(figures) = threaded.plan.progress.figures() {
        let own = figures.of(book.partition, book.replica);
        own.add(Figure::Jobs, 1);
        own.set(Figure::IsLent, u64::from(station.lending.is_lent()));
    }
    Ok(Noted {
        answered,
        woken: station.wake(),
    })
}

/// Notes the answers of jobs. Returns how many events they did.
fn note_all<G>(
    threaded: &Threaded<'_, G>,
    dispatcher: &mut Dispatcher<'_>,
    jobs: &[Job],
    answers: &[Ran],
) -> Result<u64, AllocError>
    requires owns { AreOwns (names_of threaded.now) (owns_of dispatcher.old.watched.items) }
    requires named { All (λ j. j.book < length dispatcher.old.watched.items) jobs.now }
    requires all { length answers.now ≡ length jobs.now }
    ensures seat { dispatcher.new.seat ≡ dispatcher.old.seat }
    ensures owns { OnOk result
        (owns_of dispatcher.new.watched.items ≡ owns_of dispatcher.old.watched.items) }
    ensures passes { dispatcher.new.passes ≡ dispatcher.old.passes }
    ensures events { IfOk result (λ n. n ≡ saturated (sum_by ran answers.now)) }
{
    let mut events = 0u64;
    for number in 0..jobs.len() {
        let (job, answer) = (&jobs[number], answers[number]);
        if let Some(watched) = dispatcher.watched.get_mut(job.book) {
            events = events.saturating_add(note(threaded, watched, job, answer)?.answered.events);
        }
    }
    Ok(events)
}

/// Does jobs one after another, in this thread.
fn do_in_turn<G: Gate, R: Wait>(
    rt: &R,
    threaded: &Threaded<'_, G>,
    dispatcher: &mut Dispatcher<'_>,
    jobs: &[Job],
) -> Result<FirstDone, AllocError>
    requires owns { AreOwns (names_of threaded.now) (owns_of dispatcher.old.watched.items) }
    requires named { All (λ j. j.book < length dispatcher.old.watched.items) jobs.now }
    ensures seat { dispatcher.new.seat ≡ dispatcher.old.seat }
    ensures owns { OnOk result
        (owns_of dispatcher.new.watched.items ≡ owns_of dispatcher.old.watched.items) }
    ensures all { IfOk result (λ done. done.count ≡ length jobs.now) }
{
    let mut done = FirstDone::none();
    for number in 0..jobs.len() {
        let placed = Placed::at(jobs, number);
        let job = placed.job();
        if let Some(watched) = dispatcher.watched.get_mut(job.book) {
            let run = placed.run(rt, threaded, watched);
            let noted = note(threaded, watched, job, run.answer)?;
            done = done.and(jobs, &run, &noted.answered);
        }
    }
    Ok(done)
}

/// Keeps the passes of jobs.
fn keep_all(all: &mut Vec<BookPass<Plain>>, passes: Vec<BookPass<Plain>>) -> Result<(), AllocError>
    ensures { OnOk result (vec_len all.new ≡ vec_len all.old + vec_len passes) }
{
    for pass in passes {
        all.push(pass)?;
    }
    Ok(())
}

/// Gives jobs to the pool. Answers how many events they did.
fn give_to_pool<G: Gate + Sync, R: Threads + Wait + Sync>(
    rt: &R,
    threaded: &Threaded<'_, G>,
    dispatcher: &mut Dispatcher<'_>,
    jobs: &[Job],
) -> Result<u64, AllocError>
    requires workers { (1 ≤ threaded.now.plan.now.workers) × (threaded.now.plan.now.workers ≤ 64) }
    requires named { All (λ j. j.book < length threaded.now.books.now) jobs.now }
    requires watched { All (λ j. j.book < length dispatcher.old.watched.items) jobs.now }
    requires owns { AreOwns (names_of threaded.now) (owns_of dispatcher.old.watched.items) }
    ensures seat { dispatcher.new.seat ≡ dispatcher.old.seat }
    ensures owns { OnOk result
        (owns_of dispatcher.new.watched.items ≡ owns_of dispatcher.old.watched.items) }
    ensures passes { OnOk result (vec_len dispatcher.new.passes
        ≡ vec_len dispatcher.old.passes + length jobs.now) }
{
    let (alloc, workers) = (threaded.alloc, threaded.plan.workers);
    let report = pool(rt, alloc, threaded.books, jobs, workers, threaded.gate)?;
    let PoolReport { answers, passes } = report;
    keep_all(&mut dispatcher.passes, passes)?;
    note_all(threaded, dispatcher, jobs, answers.as_slice())
}

/// Does all jobs that there are. Answers how many events they did. No pool is made for one thread
/// or one job: its answers would be the same.
fn give_jobs<G: Gate + Sync, R: Threads + Wait + Sync>(
    rt: &R,
    threaded: &Threaded<'_, G>,
    dispatcher: &mut Dispatcher<'_>,
) -> Result<u64, AllocError>
    requires workers { (1 ≤ threaded.now.plan.now.workers) × (threaded.now.plan.now.workers ≤ 64) }
    requires seat { IsSeatOf threaded.now.board.now dispatcher.old.seat }
    requires owns { AreOwns (names_of threaded.now) (owns_of dispatcher.old.watched.items) }
    ensures seat { IsSeatOf threaded.now.board.now dispatcher.new.seat }
    ensures owns { OnOk result
        (owns_of dispatcher.new.watched.items ≡ owns_of dispatcher.old.watched.items) }
{
    let jobs = jobs_for(
        rt,
        threaded,
        &mut dispatcher.seat,
        &mut dispatcher.watched,
        dispatcher.looks_at_all,
    )?;
    if threaded.plan.workers == 1 || jobs.len() == 1 {
        return Ok(do_in_turn(rt, threaded, dispatcher, jobs.as_slice())?.events());
    }
    give_to_pool(rt, threaded, dispatcher, jobs.as_slice())
}

/// Notes the progress of all partitions, and which is furthest behind.
fn note_progress<G>(threaded: &Threaded<'_, G>, all: &[Watched<'_>]) {
    let (mut time, mut records) = (u64::MAX, 0u64);
    for watched in all {
        let book = watched.own.book;
        if book.replica == 0 {
            records = records.saturating_add(watched.records);
            if watched.safe < time {
                time = watched.safe;
                threaded.plan.progress.note_last(book.partition);
            }
        }
    }
    threaded
        .plan
        .progress
        .note(Time::from_nanoseconds(time), records);
}

/// There was nothing to do.
#[derive(Clone, Copy)]
struct Idle(());

/// A witness that there was nothing to do, if jobs did no events.
fn idle_after(events: u64) -> Option<Idle>
    ensures { is_some result ≡ (events == 0) }
{
    if events == 0 { Some(Idle(())) } else { None }
}

/// Waits until it is woken, or the time limit, since there was nothing to do. If all books are
/// done, all replicas were woken before, so that none sleeps on.
fn listen(dispatcher: &mut Dispatcher<'_>, woken: Option<AllWoken>, _: Idle) -> Waited
    requires { list_all (λ w. w.is_done) dispatcher.old.watched.items ≡ true
        → is_some woken ≡ true }
    ensures seat { dispatcher.new.seat ≡ dispatcher.old.seat }
    ensures watched { dispatcher.new.watched ≡ dispatcher.old.watched }
    ensures looks { dispatcher.new.looks_at_all
        ≡ (length (items dispatcher.new.events) == 0) }
    ensures limit { IsSomeAnd result.limit
        (λ limit. as_nanos limit ≡ PERIOD_MILLISECONDS * 1_000_000) }
{
    let limit = Duration::from_millis(PERIOD_MILLISECONDS);
    let waited = Waited::on(&mut dispatcher.poll, &mut dispatcher.events, Some(limit));
    dispatcher.looks_at_all = dispatcher.events.is_empty();
    waited
}

/// Whether all books are done.
fn are_done(watched: &[Watched<'_>]) -> bool
    ensures { result ≡ list_all (λ w. w.is_done) watched.now }
{
    watched.iter().all(|watched| watched.is_done)
}

/// Wakes all replicas once all books are done, unless that was done already.
fn wake_done<G>(
    threaded: &Threaded<'_, G>,
    watched: &[Watched<'_>],
    woken: Option<AllWoken>,
) -> Option<AllWoken>
    ensures { list_all (λ w. w.is_done) watched.now ≡ true → is_some result ≡ true }
{
    if woken.is_none() && are_done(watched) {
        return Some(threaded.wake_all());
    }
    woken
}

/// Gives jobs until all replicas have ended.
///
/// # Errors
///
/// `Memory` if a job or the pool was refused memory, or after 2^64 rounds of jobs. All replicas
/// were told to end.
pub(crate) fn dispatch<G: Gate + Sync, R: Threads + Wait + Sync>(
    rt: &R,
    threaded: &Threaded<'_, G>,
    dispatcher: &mut Dispatcher<'_>,
) -> Result<Dispatched, Stopped>
    requires workers { (1 ≤ threaded.now.plan.now.workers) × (threaded.now.plan.now.workers ≤ 64) }
    requires seat { IsSeatOf threaded.now.board.now dispatcher.old.seat }
    requires owns { AreOwns (names_of threaded.now) (owns_of dispatcher.old.watched.items) }
    ensures over { IfOk result
        (λ dispatched. dispatched.ended.count ≡ length threaded.now.stations.now) }
    ensures told { IfErr result (λ stopped. stopped.told.are_all ≡ true) }
    ensures memory { IfErr result (λ stopped. stopped.stop ≡ Memory) }
{
    let mut woken: Option<AllWoken> = None;
    for _ in 0..u64::MAX {
        if let Some(ended) = threaded.are_over() {
            return Ok(Dispatched { ended });
        }
        let events = match give_jobs(rt, threaded, dispatcher) {
            Ok(events) => events,
            Err(error) => return Err(Stopped::of(Stop::from(error), threaded.fail(rt))),
        };
        note_progress(threaded, dispatcher.watched.as_slice());
        woken = wake_done(threaded, dispatcher.watched.as_slice(), woken);
        dispatcher.looks_at_all = false;
        if let Some(idle) = idle_after(events) {
            let _waited = listen(dispatcher, woken, idle);
        }
    }
    Err(Stopped::of(Stop::Memory, threaded.fail(rt)))
}
