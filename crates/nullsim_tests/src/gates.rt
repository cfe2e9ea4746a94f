//! Gates of runs.

use nm_shared::{Entered, Gate};
use std::sync::atomic::{AtomicBool, AtomicU64, Ordering};

/// How often a job looks whether the other has begun.
const TURNS: u64 = 100_000_000;

/// Answers each poll alike, and keeps the greatest number of octets that it got. Jobs 0 and 1 wait
/// for each other if they are to.
#[derive(Drop)]
pub struct Watching {
    pub goes_on: bool,
    pub waits: bool,
    pub most: AtomicU64,
    /// How many jobs were begun.
    pub jobs: AtomicU64,
    pub first: AtomicBool,
    pub second: AtomicBool,
    /// A job saw the other begin no more.
    pub was_alone: AtomicBool,
}

impl Watching {
    pub fn new(goes_on: bool, waits: bool) -> Self {
        Watching {
            goes_on,
            waits,
            most: AtomicU64::new(0),
            jobs: AtomicU64::new(0),
            first: AtomicBool::new(false),
            second: AtomicBool::new(false),
            was_alone: AtomicBool::new(false),
        }
    }

    /// Sets a flag, and waits for the other.
    fn meet(&self, own: &AtomicBool, other: &AtomicBool) {
        own.store(true, Ordering::SeqCst);
        for _ in 0..TURNS {
            if other.load(Ordering::SeqCst) {
                return;
            }
        }
        self.was_alone.store(true, Ordering::SeqCst);
    }
}

impl Gate for Watching {
    fn enter(&self, job: usize) -> Entered {
        let _ = self.jobs.fetch_add(1, Ordering::SeqCst);
        match job {
            0 if self.waits => self.meet(&self.first, &self.second),
            1 if self.waits => self.meet(&self.second, &self.first),
            _ => {}
        }
        Entered { job }
    }

    fn leave(&self, entered: Entered) {
        let Entered { job: _ } = entered;
    }

    fn poll(&self, moved: u64) -> bool {
        let _ = self.most.fetch_max(moved, Ordering::SeqCst);
        self.goes_on
    }
}
