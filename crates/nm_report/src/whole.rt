//! What all sources sent and what arrived of it, all together.

use nm_base::Time;
use nm_measure::{FlowTimes, rate_of};

/// Sums over sources. Each stops at 2^64 - 1.
#[derive(Clone, Copy, Drop)]
pub(crate) struct Whole {
    /// How many sources there are.
    pub(crate) sources: u64,
    /// How many packets were sent, and what became of them.
    pub(crate) fates: [u64; 6],
    /// The octets of what was delivered.
    pub(crate) octets: u64,
    /// The first event of any source.
    begun: Option<Time>,
    /// The last arrival.
    ended: Time,
}

/// The sums of counts, place by place.
fn sums(ones: [u64; 6], others: [u64; 6]) -> [u64; 6] {
    let mut sums = ones;
    for (sum, other) in sums.iter_mut().zip(others) {
        *sum = sum.saturating_add(other);
    }
    sums
}

/// The earlier of two times, of which the first may be none yet.
fn earlier(so_far: Option<Time>, time: Time) -> Time {
    match so_far {
        Some(so_far) if so_far <= time => so_far,
        _ => time,
    }
}

impl Whole {
    /// No sources.
    pub(crate) fn new() -> Self {
        Whole {
            sources: 0,
            fates: [0; 6],
            octets: 0,
            begun: None,
            ended: Time::from_nanoseconds(0),
        }
    }

    /// The rate of what was delivered, from the first event of any source to the last arrival.
    pub(crate) fn rate(&self) -> u64 {
        rate_of(self.octets, self.begun, self.ended)
    }

    /// Adds a source.
    pub(crate) fn add(&mut self, fates: [u64; 6], times: &FlowTimes) {
        self.sources = self.sources.saturating_add(1);
        self.fates = sums(self.fates, fates);
        self.octets = self.octets.saturating_add(times.octets());
        if let Some(begun) = times.begun() {
            self.begun = Some(earlier(self.begun, begun));
        }
        self.ended = self.ended.max(times.ended());
    }
}
