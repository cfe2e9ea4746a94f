//! Which books have something to do.

ghost use Rattle.std.specs.Prelude.{◌≡◌, ◌↔◌, ℕ, ◌-◌, ◌<◌, ◌≤◌, All, IfOk, IfSome, IsTrue};
ghost use Rattle.std.specs.Prelude.{MatchResult, None, OnOk, false, length, true};
ghost use Rattle.nm_book.specs.declared.running.Ran.TheVariants.{Memory};
ghost use Rattle.nm_run.specs.Replicas.{AreWordsOf};
ghost use Rattle.nm_run.specs.Watching.{Answers, AreOwns, WasLookedAt, names_of, owns_of};
ghost use Rattle.nm_shared.specs.Board.{IsSeatOf};
ghost use Rattle.nm_run.specs.declared.jobs.TheConstants.{JOB_EVENTS};
ghost use Rattle.nm_shared.specs.Pool.{IsRunAnswer};

use crate::loans::LoanSeen;
use crate::stations::Own;
use crate::threads::Threaded;
use nm_base::PartNo;
use nm_book::Ran;
use nm_book::channels::comes_in;
use nm_replica::acts::{Stand, Standing};
use nm_shared::board::word_of;
use nm_shared::workers::BookPass;
use nm_shared::{ClockBoard, GivenBack, Job, Pass, Plain, Seat};
use nm_topology::Topology;
use std::alloc::{AllocError, Global};
use std::sync::Wait;

/// How many events a job does at most.
const JOB_EVENTS: u64 = 4_096;

/// A book that keeps more records than this gets no job until its replica has taken some out. It is
/// as many as one job may make, so that one is done while the last one's records are written.
const MAX_KEPT: u64 = 2 * JOB_EVENTS;

/// The dispatcher's notes of a replica's book.
#[derive(Drop)]
pub(crate) struct Watched<'a> {
    pub own: Own<'a>,
    pass: Pass<Plain>,
    /// The words of the channels that come in.
    words: Vec<usize>,
    /// The safe time when the book was last read, in nanoseconds.
    pub safe: u64,
    /// How many records it had then.
    pub records: u64,
    /// The book has done events since then.
    is_stale: bool,
    pub is_done: bool,
}

/// A book is to have a job, since it was seen to be lent: only `Watched::wants` makes it.
#[derive(Clone, Copy)]
struct Wanted {
    loan: LoanSeen,
}

/// A job was done: how many events it did, and that its book was given back, if it left none.
#[derive(Clone, Copy)]
pub(crate) struct Answered {
    pub events: u64,
    given_back: Option<GivenBack>,
}

/// The words of the channels that come into a partition.
fn words_of(
    alloc: Global,
    topology: &Topology,
    partition: PartNo,
    replicas: u8,
) -> Result<Vec<usize>, AllocError>
    ensures { IfOk result (λ words. AreWordsOf topology.now partition replicas words.items) }
{
    let mut words = Vec::new(alloc);
    for number in 0..topology.receivers().len() {
        let channel = topology.channel_number(number);
        if comes_in(topology, partition, channel) {
            for replica in 0..replicas {
                words.push(word_of(channel, replica))?;
            }
        }
    }
    Ok(words)
}

/// Whether a word of an incoming channel is past the safe time that was read last.
fn has_news(board: &ClockBoard, seat: &mut Seat, words: &[usize], safe: u64) -> bool
    requires { IsSeatOf board.now seat.old }
    ensures { IsSeatOf board.now seat.new }
{
    for word in words {
        if *word < board.len() && board.look(seat, *word) > safe {
            return true;
        }
    }
    false
}

/// Whether a book keeps so many records that its replica must take some out first.
fn is_full(standing: Standing) -> bool
    ensures { IsTrue result ↔ (MAX_KEPT < standing.records - standing.handed) }
{
    standing.records.saturating_sub(standing.handed) > MAX_KEPT
}

/// Whether a book in this state is to have a job, if it is lent or not.
fn has_job(loan: LoanSeen, standing: Standing) -> bool
    ensures only { result ≡ true → (loan.is_lent ≡ true) × (standing.is_done ≡ false)
        × (standing.records - standing.handed ≤ MAX_KEPT) }
    ensures all { loan.is_lent ≡ true → standing.is_done ≡ false
        → standing.records - standing.handed ≤ MAX_KEPT → result ≡ true }
{
    loan.is_lent() && !standing.is_done && !is_full(standing)
}

impl<'a> Watched<'a> {
    /// The notes of this replica's book, which has had no job.
    pub(crate) fn new(
        alloc: Global,
        topology: &Topology,
        replicas: u8,
        own: Own<'a>,
        pass: Pass<Plain>,
    ) -> Result<Self, AllocError>
        ensures { IfOk result (λ w. w.own ≡ own.entry) }
    {
        Ok(Watched {
            words: words_of(alloc, topology, own.book.partition, replicas)?,
            own,
            pass,
            safe: 0,
            records: 0,
            is_stale: true,
            is_done: false,
        })
    }

    /// Its pass of the book.
    pub(crate) fn into_pass(self) -> BookPass<Plain>
        ensures { result.book ≡ self.entry.own.index }
    {
        BookPass {
            book: self.own.index,
            pass: self.pass,
        }
    }

    /// Whether the book is to have a job: it is lent, is not done, and does not keep too many
    /// records. A book that is not lent runs in its replica's thread: it is locked here only if it
    /// is stale, the board has news for it, or all books are read.
    fn wants<R: Wait>(
        &mut self,
        rt: &R,
        board: &ClockBoard,
        seat: &mut Seat,
        looks_at_all: bool,
    ) -> Option<Wanted>
        requires { IsSeatOf board.now seat.old }
        ensures seat { IsSeatOf board.now seat.new }
        ensures own { self.new.own ≡ self.old.own }
        ensures looked { WasLookedAt self.new }
        ensures wanted { IfSome result
            (λ w. (w.loan.is_lent ≡ true) × (self.new.is_done ≡ false)) }

        // Without a pool it never has one.
        ensures alone { self.old.own.station.now.lending ≡ false → result ≡ None }
    {
        if self.is_done {
            return None;
        }
        let loan = LoanSeen::of(&self.own.station.lending);
        let is_due = loan.is_lent() || self.is_stale || looks_at_all;
        if !is_due && !has_news(board, seat, self.words.as_slice(), self.safe) {
            return None;
        }
        let standing = self.own.book.act(rt, &mut self.pass, Stand);
        self.note_standing(&standing);
        if !has_job(loan, standing) {
            return None;
        }
        Some(Wanted { loan })
    }

    /// Notes the state of its book, which was just read.
    fn note_standing(&mut self, standing: &Standing)
        ensures safe { self.new.safe ≡ standing.now.safe }
        ensures records { self.new.records ≡ standing.now.records }
        ensures done { self.new.is_done ≡ standing.now.is_done }
        ensures stale { self.new.is_stale ≡ false }
        ensures own { self.new.own ≡ self.old.own }
    {
        self.safe = standing.safe.nanoseconds();
        self.records = standing.records;
        self.is_done = standing.is_done;
        self.is_stale = false;
    }

    /// A job of its book, which is to have one.
    fn job(&self, _: Wanted) -> Job
        ensures { (result.book ≡ self.now.own.index) × (result.limit ≡ JOB_EVENTS) }
    {
        Job {
            book: self.own.index,
            limit: JOB_EVENTS,
        }
    }

    /// Does a job of its book with its own pass.
    pub(crate) fn run<R: Wait>(&mut self, rt: &R, alloc: Global, job: &Job) -> Ran
        requires { self.old.own.index ≡ job.now.book }
        ensures own { self.new.own ≡ self.old.own }
        ensures answer { IsRunAnswer job.now.limit result }
    {
        self.own.book.run(rt, &mut self.pass, alloc, job.limit)
    }

    /// Notes that a job of its book was done. If the job left no events, the book is given back.
    ///
    /// # Errors
    ///
    /// If the job was refused memory.
    pub(crate) fn note(&mut self, job: &Job, answer: Ran) -> Result<Answered, AllocError>
        requires { self.old.own.index ≡ job.now.book }
        ensures answered { MatchResult result (Answers answer)
            (λ _. (n : ℕ) × (answer ≡ Memory n)) }
        ensures own { self.new.own ≡ self.old.own }
        ensures stale { self.new.is_stale ≡ true }
    {
        self.is_stale = true;
        match answer {
            Ran::All(events) => Ok(Answered {
                events,
                given_back: Some(self.own.station.lending.give_back()),
            }),
            Ran::Limit(events) => Ok(Answered {
                events,
                given_back: None,
            }),
            Ran::Memory(_) => Err(AllocError),
        }
    }
}

/// Jobs for the books that have something to do.
pub(crate) fn jobs_for<G, R: Wait>(
    rt: &R,
    threaded: &Threaded<'_, G>,
    seat: &mut Seat,
    watched: &mut Vec<Watched<'_>>,
    looks_at_all: bool,
) -> Result<Vec<Job>, AllocError>
    requires seat { IsSeatOf threaded.now.board.now seat.old }
    requires owns { AreOwns (names_of threaded.now) (owns_of watched.old.items) }
    ensures seat { IsSeatOf threaded.now.board.now seat.new }
    ensures named { IfOk result
        (λ jobs. All (λ j. j.book < length threaded.now.books.now) jobs.items) }
    ensures watched { IfOk result
        (λ jobs. All (λ j. j.book < length watched.new.items) jobs.items) }
    ensures owns { OnOk result (owns_of watched.new.items ≡ owns_of watched.old.items) }

    // Each book was read that was noted to have changed.
    ensures looked { length watched.old.items ≤ length threaded.now.books.now
        → OnOk result (All WasLookedAt watched.new.items) }
{
    let mut jobs = Vec::new(threaded.alloc);
    for number in 0..threaded.books.len() {
        let Some(one) = watched.get_mut(number) else {
            break;
        };
        if let Some(wanted) = one.wants(rt, threaded.board, seat, looks_at_all) {
            jobs.push(one.job(wanted))?;
        }
    }
    Ok(jobs)
}
