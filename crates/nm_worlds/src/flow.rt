//! One direction of a connection: octets on their way, each from a time on to be read.

use std::alloc::{AllocError, Global};
use std::cell::{Cell, RefCell};
use std::collections::VecDeque;
use std::rc::Rc;

/// The most octets that a write takes.
const MAX_WRITTEN: usize = 4_096;

/// The frame of a Bye, which ends what a side sends.
const BYE: [u8; 5] = [0, 0, 0, 1, 5];

/// How long after it would have arrived a lost Bye shows as a break, in milliseconds: its reader
/// may send Bye before.
const UNSEEN: u64 = 50;

/// The time of a world, in milliseconds.
pub(crate) type Clock = Rc<Cell<u64>>;

/// Octets that can be read from this time on.
#[derive(Drop)]
struct Chunk {
    at: u64,
    octets: Vec<u8>,
}

/// How far a direction carries what is written.
#[derive(Clone, Copy)]
pub(crate) struct Reach {
    /// After so many octets the connection breaks.
    pub octets: usize,
    /// It breaks at a Bye, which does not arrive, though its writer takes it for sent.
    pub loses_bye: bool,
}

impl Reach {
    /// It does not break.
    pub(crate) const WHOLE: Reach = Reach {
        octets: usize::MAX,
        loses_bye: false,
    };
}

/// What is on its way in one direction.
#[derive(Drop)]
pub(crate) struct Flow {
    alloc: Global,
    chunks: VecDeque<Chunk>,
    /// How long an octet is on its way, in milliseconds.
    delay: u64,
    /// What is written before this time arrives no sooner than that: an outage is over then, and
    /// the system has sent it again.
    held_until: u64,
    /// After so many octets the connection breaks, or at a Bye.
    left: usize,
    loses_bye: bool,
    /// It takes nothing: nobody has answered the call.
    pub is_held: bool,
    /// Its writer sends no more.
    pub is_over: bool,
    /// The connection broke.
    pub is_cut: bool,
    /// Nobody reads from it, now or later.
    pub is_let_go: bool,
}

/// A direction that both ends have.
pub(crate) type Way = Rc<RefCell<Flow>>;

/// A direction in which octets take so long, and which reaches so far.
pub(crate) fn way(alloc: Global, delay: u64, reach: Reach) -> Result<Way, AllocError> {
    let flow = Flow {
        alloc,
        chunks: VecDeque::new(alloc),
        delay,
        held_until: 0,
        left: reach.octets,
        loses_bye: reach.loses_bye,
        is_held: false,
        is_over: false,
        is_cut: false,
        is_let_go: false,
    };
    match Rc::new(alloc, RefCell::new(flow)) {
        Ok(way) => Ok(way),
        Err(_) => Err(AllocError),
    }
}

/// Whether a read of a direction would find something.
pub(crate) fn has_arrived(way: &Way, now: u64) -> bool {
    match way.try_borrow_mut() {
        Ok(flow) => flow.has_arrived(now),
        Err(_) => false,
    }
}

/// What a read of a direction found.
#[derive(Clone, Copy)]
pub(crate) enum Found {
    /// So many octets are at the front of the buffer.
    Octets(usize),
    Nothing,
    Over,
    Cut,
}

impl Flow {
    /// From now to then there is an outage: what is written meanwhile arrives after it.
    pub(crate) fn hold(&mut self, until: u64) {
        self.held_until = until;
    }

    /// When octets arrive that are written now, behind those on their way.
    fn arrival(&self, now: u64) -> u64 {
        let soonest = now.saturating_add(self.delay);
        let held = if now < self.held_until {
            soonest.max(self.held_until)
        } else {
            soonest
        };
        match self.chunks.back() {
            Some(last) => held.max(last.at),
            None => held,
        }
    }

    /// Puts the first of these octets on their way: how many, or `None` if the connection breaks.
    /// If it breaks at a Bye its writer learns that later.
    pub(crate) fn put(&mut self, now: u64, octets: &[u8]) -> Option<usize> {
        if self.is_held {
            return Some(0);
        }
        let count = octets.len().min(self.left).min(MAX_WRITTEN);
        if self.is_cut || count == 0 {
            self.is_cut = true;
            return None;
        }
        let at = self.arrival(now);
        let is_lost = self.loses_bye && octets[..count].ends_with(&BYE);
        let carried = if is_lost {
            count.saturating_sub(BYE.len())
        } else {
            count
        };
        let Ok(octets) = octets[..carried].to_vec(self.alloc) else {
            return None;
        };
        if self.chunks.push_back(Chunk { at, octets }).is_err() {
            return None;
        }
        self.left -= count;
        if is_lost {
            self.lose_bye(at);
        }
        Some(count)
    }

    /// It broke when its Bye would have arrived, which shows somewhat later.
    fn lose_bye(&mut self, at: u64) {
        let shown = Chunk {
            at: at.saturating_add(UNSEEN),
            octets: Vec::new(self.alloc),
        };
        let _ = self.chunks.push_back(shown);
        self.is_cut = true;
    }

    /// Whether octets have arrived that somebody reads, or an end has.
    fn has_arrived(&self, now: u64) -> bool {
        if self.is_let_go {
            return false;
        }
        match self.chunks.front() {
            Some(chunk) => chunk.at <= now,
            None => self.is_over || self.is_cut,
        }
    }

    /// Takes what has arrived first to the front of a buffer.
    pub(crate) fn take(&mut self, now: u64, buffer: &mut [u8]) -> Found {
        let Some(chunk) = self.chunks.front_mut() else {
            return if self.is_cut {
                Found::Cut
            } else if self.is_over {
                Found::Over
            } else {
                Found::Nothing
            };
        };
        if chunk.at > now {
            return Found::Nothing;
        }
        let count = chunk.octets.len().min(buffer.len());
        buffer[..count].copy_from_slice(&chunk.octets[..count]);
        chunk.octets.drain(..count);
        if chunk.octets.is_empty() {
            let _ = self.chunks.pop_front();
        }
        Found::Octets(count)
    }
}
