//! The pool.

use crate::tests::messages::null;
use crate::tests::sides::{books_of, topology_of};
use nm_book::{ChannelMessage, Ran};
use nm_fixtures::RING;
use nm_shared::{Entered, Gate, Job, Pass, Plain, SharedBook, pool};
use std::alloc::Global;
use std::process::Abort;
use std::sync::Wait;
use std::sync::atomic::{AtomicBool, AtomicU64, Ordering};
use std::thread::Threads;

/// How often a job looks for the other.
const TURNS: u64 = 100_000_000;

/// Each of two jobs waits for the other to begin.
#[derive(Drop)]
struct Meeting {
    here: [AtomicBool; 2],
    late: AtomicBool,
}

impl Gate for Meeting {
    fn enter(&self, job: usize) -> Entered {
        if job >= 2 {
            return Entered { job };
        }
        self.here[job].store(true, Ordering::SeqCst);
        for _ in 0..TURNS {
            if self.here[1 - job].load(Ordering::SeqCst) {
                return Entered { job };
            }
        }
        self.late.store(true, Ordering::SeqCst);
        Entered { job }
    }

    fn leave(&self, entered: Entered) {
        let Entered { job: _ } = entered;
    }

    fn poll(&self, _moved: u64) -> bool {
        true
    }
}

/// Notes how many events a book had done when job 0 began, and when it had ended.
#[derive(Drop)]
struct Watching<'a, R: Wait> {
    rt: &'a R,
    book: &'a SharedBook<Plain>,
    before: AtomicU64,
    after: AtomicU64,
}

impl<'a, R: Wait> Watching<'a, R> {
    fn note(&self, job: usize, events: &AtomicU64) {
        if job != 0 {
            return;
        }
        if let Ok(mut pass) = self.book.pass(self.rt) {
            events.store(self.book.look(self.rt, &mut pass).events, Ordering::SeqCst);
        }
    }
}

impl<'a, R: Wait> Gate for Watching<'a, R> {
    fn enter(&self, job: usize) -> Entered {
        self.note(job, &self.before);
        Entered { job }
    }

    fn leave(&self, entered: Entered) {
        let Entered { job } = entered;
        self.note(job, &self.after);
    }

    fn poll(&self, _moved: u64) -> bool {
        true
    }
}

/// Whether a run did all that was safe, of so many events.
fn is_all(answer: &Ran, count: u64) -> bool {
    matches!(answer, Ran::All(n) if *n == count)
}

/// A book of partition 0 of the ring gets the clock of both incoming channels.
fn tell_both<R: Wait + Abort>(rt: &R, book: &SharedBook<Plain>, pass: &mut Pass<Plain>) {
    for channel in [0, 5] {
        let told = ChannelMessage::Null(null(channel, 0, 1_000_000));
        assert!(rt; book.accept(rt, pass, &told).is_ok());
    }
}

/// Two workers run a job of each of these books at once.
fn run_at_once<R: Threads + Wait + Sync + Abort>(
    rt: &R,
    alloc: Global,
    books: &[SharedBook<Plain>; 2],
) {
    let gate = Meeting {
        here: [AtomicBool::new(false), AtomicBool::new(false)],
        late: AtomicBool::new(false),
    };
    let jobs = [Job { book: 0, limit: 10 }, Job { book: 1, limit: 10 }];
    let report = pool(rt, alloc, books, &jobs, 2, &gate).expect(rt, "memory");
    assert!(rt; !gate.late.load(Ordering::SeqCst));
    assert!(rt; report.answers.len() == 2);
    assert!(rt; is_all(&report.answers[0], 2));
    assert!(rt; is_all(&report.answers[1], 0));
}

/// Whether a run did so many events, as it was asked for, and some are left.
fn is_limit(answer: &Ran, count: u64) -> bool {
    matches!(answer, Ran::Limit(n) if *n == count)
}

/// Each job runs the book that it names, and does no more events than it asks for. It runs between
/// the two calls of the gate.
#[test]
fn each_job_runs_its_book(rt: HostRuntime) {
    let alloc = rt.alloc();
    let topology = topology_of(&rt, alloc, RING);
    let books = books_of(&rt, alloc, &topology, [(0, 0), (0, 1)]);
    for book in &books {
        let mut pass = book.pass(&rt).expect(&rt, "memory");
        tell_both(&rt, book, &mut pass);
    }
    let jobs = [
        Job { book: 1, limit: 10 },
        Job { book: 0, limit: 1 },
        Job { book: 0, limit: 10 },
    ];
    let gate = Watching {
        rt: &rt,
        book: &books[1],
        before: AtomicU64::new(9),
        after: AtomicU64::new(9),
    };
    let report = pool(&rt, alloc, &books, &jobs, 1, &gate).expect(&rt, "memory");
    assert!(rt; gate.before.load(Ordering::SeqCst) == 0 && gate.after.load(Ordering::SeqCst) == 2);
    assert!(rt; is_all(&report.answers[0], 2));
    assert!(rt; is_limit(&report.answers[1], 1));
    assert!(rt; is_all(&report.answers[2], 1));
}

/// Two workers run two jobs at once.
#[test]
fn pool_two_at_once(rt: HostRuntime) {
    let alloc = rt.alloc();
    let topology = topology_of(&rt, alloc, RING);
    let books = books_of(&rt, alloc, &topology, [(0, 0), (1, 0)]);
    let mut pass = books[0].pass(&rt).expect(&rt, "memory");
    tell_both(&rt, &books[0], &mut pass);
    run_at_once(&rt, alloc, &books);
    assert!(rt; books[0].look(&rt, &mut pass).events == 2);
}
