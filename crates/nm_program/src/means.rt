//! What the program runs with.

use nm_progress::Progress;
use nm_rounds::CertFault;
use std::alloc::Global;
use std::cell::Cell;

/// What is noted of a fault, for a terminal.
#[derive(Drop)]
pub struct Notes {
    /// What cannot happen did.
    pub is_broken: Cell<bool>,
    /// What the certificate found.
    pub cert_fault: Cell<Option<CertFault>>,
}

impl Notes {
    /// Nothing.
    pub fn new() -> Self {
        Notes {
            is_broken: Cell::new(false),
            cert_fault: Cell::new(None),
        }
    }
}

/// What the program runs with: the runtime, where memory comes from, and notes of how far a run is
/// and of faults, which affect no result.
#[derive(Clone, Copy)]
pub struct Means<'a, R> {
    pub rt: &'a R,
    pub alloc: Global,
    pub progress: &'a Progress,
    pub notes: &'a Notes,
}

impl<'a, R> Means<'a, R> {
    /// Notes that what cannot happen did, and where.
    pub(crate) fn note(&self, is_broken: bool) {
        if is_broken {
            self.notes.is_broken.set(true);
        }
    }
}
