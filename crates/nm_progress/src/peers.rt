//! The peers of a replica that runs as a process, as words that threads share.

ghost use Rattle.std.specs.Prelude.{◌<◌, ◌^◌};

use nm_base::PartNo;
use std::sync::atomic::{AtomicU64, Ordering};

/// A replica that calls.
#[derive(Clone, Copy, PartialEq, Eq)]
pub struct CallerName {
    pub partition: PartNo,
    /// 0 or 1.
    pub replica: u8,
}

impl CallerName {
    /// Its number among all replicas: two for each partition.
    fn number(&self) -> u64
        ensures { result < 2 ^ 34 }
    {
        u64::from(self.partition.number()) * 2 + u64::from(self.replica % 2)
    }
}

/// A peer, as the replica knows it.
#[derive(Clone, Copy, PartialEq, Eq)]
pub enum PeerName {
    /// One that it calls, by its number among those.
    Called(u32),
    /// One that calls it.
    Caller(CallerName),
}

/// A peer or none, which threads note and look at.
#[derive(Drop)]
pub(crate) struct SharedPeer {
    word: AtomicU64,
}

/// The word of no peer. Those of peers that are called are odd, and those of callers even.
const NOBODY: u64 = 0;

/// The word of a peer or none.
fn word_of(peer: Option<PeerName>) -> u64 {
    match peer {
        None => NOBODY,
        Some(PeerName::Called(number)) => u64::from(number) * 2 + 1,
        Some(PeerName::Caller(caller)) => caller.number() * 2 + 2,
    }
}

/// The peer with this word.
fn peer_of(word: u64) -> Option<PeerName> {
    if word == NOBODY {
        return None;
    }
    let number = (word - 1) / 2;
    if word % 2 == 1 {
        return Some(PeerName::Called(u32::try_from(number).ok()?));
    }
    Some(PeerName::Caller(CallerName {
        partition: PartNo::new(u32::try_from(number / 2).ok()?),
        replica: if number % 2 == 1 { 1 } else { 0 },
    }))
}

impl SharedPeer {
    /// No peer.
    pub(crate) fn new() -> Self {
        SharedPeer {
            word: AtomicU64::new(NOBODY),
        }
    }

    /// It is this one now.
    pub(crate) fn note(&self, peer: Option<PeerName>) {
        self.word.store(word_of(peer), Ordering::SeqCst);
    }

    /// Which one it is.
    pub(crate) fn look(&self) -> Option<PeerName> {
        peer_of(self.word.load(Ordering::SeqCst))
    }
}
