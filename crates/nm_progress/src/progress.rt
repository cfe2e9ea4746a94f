//! How far a run is.

use crate::figures::Figures;
use crate::peers::{PeerName, SharedPeer};
use nm_base::{PartNo, Time};
use std::alloc::{AllocError, Global};
use std::sync::atomic::{AtomicU64, Ordering};

/// The value if no partition is furthest behind.
const NOBODY: u64 = u64::MAX;

/// How far a run is. Threads that run a network note it, and others look at it; it affects no
/// result.
#[derive(Drop)]
pub struct Progress {
    /// When the run ends, in nanoseconds: 0 before it has begun.
    stop: AtomicU64,
    /// All before this time is done, in nanoseconds.
    time: AtomicU64,
    /// How many records there are. A packet that passes a link makes two.
    records: AtomicU64,
    /// The number of the partition that is furthest behind.
    last: AtomicU64,
    /// For whom a node waits, whose Hello was of another topology, and who ended a connection
    /// before its own Hello.
    awaited: SharedPeer,
    differing: SharedPeer,
    closing: SharedPeer,
    /// What each replica does, if that is asked for.
    figures: Option<Figures>,
}

/// What a look at a run's progress has shown.
#[derive(Clone, Copy, Drop)]
pub struct Seen {
    /// When the run ends, in nanoseconds: 0 before it has begun.
    pub stop: u64,
    /// All before this time is done, in nanoseconds.
    pub time: u64,
    /// How many records there are. A packet that passes a link makes two.
    pub records: u64,
    /// The number of the partition that is furthest behind, if the run notes partitions.
    pub last: Option<u64>,
}

impl Progress {
    /// No run has begun.
    pub fn new() -> Self {
        Progress::of(None)
    }

    /// No run has begun; what each replica does is counted.
    ///
    /// # Errors
    ///
    /// If memory was refused.
    pub fn with_figures(alloc: Global) -> Result<Self, AllocError> {
        Ok(Progress::of(Some(Figures::new(alloc)?)))
    }

    /// No run has begun.
    fn of(figures: Option<Figures>) -> Self {
        Progress {
            stop: AtomicU64::new(0),
            time: AtomicU64::new(0),
            records: AtomicU64::new(0),
            last: AtomicU64::new(NOBODY),
            awaited: SharedPeer::new(),
            differing: SharedPeer::new(),
            closing: SharedPeer::new(),
            figures,
        }
    }

    /// What each replica does, if that is asked for.
    pub fn figures(&self) -> Option<&Figures> {
        self.figures.as_ref()
    }

    /// A run up to this time has begun.
    pub fn begin(&self, stop: Time) {
        self.stop.store(stop.nanoseconds(), Ordering::SeqCst);
    }

    /// All before this time is done, and there are so many records.
    pub fn note(&self, time: Time, records: u64) {
        self.time.store(time.nanoseconds(), Ordering::SeqCst);
        self.records.store(records, Ordering::SeqCst);
    }

    /// This partition is furthest behind.
    pub fn note_last(&self, partition: PartNo) {
        self.last
            .store(u64::from(partition.number()), Ordering::SeqCst);
    }

    /// A node waits for this peer first, or for none.
    pub fn note_awaited(&self, peer: Option<PeerName>) {
        self.awaited.note(peer);
    }

    /// The first peer for which a node waits, when that was last noted.
    pub fn awaited(&self) -> Option<PeerName> {
        self.awaited.look()
    }

    /// This peer of a node sent a Hello of another topology.
    pub fn note_differing(&self, peer: PeerName) {
        self.differing.note(Some(peer));
    }

    /// The last peer of a node that sent a Hello of another topology.
    pub fn differing(&self) -> Option<PeerName> {
        self.differing.look()
    }

    /// This peer of a node ended a connection and had not sent its Hello.
    pub fn note_closing(&self, peer: PeerName) {
        self.closing.note(Some(peer));
    }

    /// The last peer of a node that did.
    pub fn closing(&self) -> Option<PeerName> {
        self.closing.look()
    }

    /// How far the run is. If it goes on meanwhile, the numbers may be of different moments.
    pub fn look(&self) -> Seen {
        let last = self.last.load(Ordering::SeqCst);
        Seen {
            stop: self.stop.load(Ordering::SeqCst),
            time: self.time.load(Ordering::SeqCst),
            records: self.records.load(Ordering::SeqCst),
            last: if last == NOBODY { None } else { Some(last) },
        }
    }
}
