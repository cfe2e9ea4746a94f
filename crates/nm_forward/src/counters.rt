//! The counts of a node.

ghost use Rattle.std.specs.Prelude.{◌≡◌, slice_index};
ghost use Rattle.nm_forward.specs.Counter.{counter_number, no_counts, raised};

use crate::counter::{COUNTERS, Counter};
use std::marker::Model;

/// How often each counter rose, up to 2^64 - 1. A clause sees the counts in the order of the
/// counters' numbers.
#[derive(Drop)]
pub struct Counters {
    counts: [u64; COUNTERS],
}

impl Model for Counters {
    ghost use Rattle.std.specs.Prelude.{List, ℕ};

    ghost Value = { List ℕ };

    ghost view = { λ c. c.counts };
}

impl Counters {
    /// Nothing was counted.
    pub fn new() -> Self
        ensures { result ≡ no_counts }
    {
        Counters {
            counts: [0; COUNTERS],
        }
    }

    /// How often the counter rose.
    pub fn get(&self, counter: Counter) -> u64
        ensures { result ≡ slice_index self.now (counter_number counter) }
    {
        self.counts[counter.index()]
    }

    /// Raises the counter by one. At 2^64 - 1 it stops.
    #[tactic(auto, unfolding(crate::specs::Counter::raised))]
    pub fn rise(&mut self, counter: Counter)
        ensures { self.new ≡ raised counter self.old }
    {
        let index = counter.index();
        self.counts[index] = self.counts[index].saturating_add(1);
    }
}
