//! How long packets took.

ghost use Rattle.std.specs.Prelude.{◌≡◌, ℕ, ◌+◌, ◌<◌, ◌≤◌, ◌^◌, false, max, OnOk, List, [], ◌∷◌};
ghost use Rattle.std.specs.Prelude.{◌++◌, length};
ghost use Rattle.nm_base.specs.Count.{saturated};
ghost use Rattle.nm_measure.specs.Added.{AreAdded, ShowsPercentile};
ghost use Rattle.nm_measure.specs.Spread.{AreSpreadRows, bucket_of, different_of};
ghost use Rattle.std.specs.Option.{option_map};
ghost use Rattle.std.specs.Prelude.{Some, slice_get};
ghost use Rattle.nm_measure.specs.Sums.{jitter_of, least_after, mean_of, sum_to};
ghost use Rattle.nm_measure.specs.Sums.{differences_of};

use crate::spread::{Bucket, Spread};
use crate::sums::Sums;
use std::alloc::{AllocError, Global};

/// How long packets took, in nanoseconds, added in the order in which they arrived.
#[derive(Drop)]
pub struct Delays {
    spread: Spread,
    sums: Sums,
    /// The greatest of those behind the first `seen`.
    recent: u64,
    seen: u64,
    ghost added: { ∥ ((ds : List ℕ) × AreAdded ds spread sums) ∥₁ },
}

impl Delays {
    ghost use Rattle.nm_measure.specs.Delays.{AreDelays, greatest_behind};

    /// The delays of no packets.
    pub(crate) fn new(alloc: Global) -> Self
        ensures count { result.spread.count ≡ 0 }
        ensures none { AreDelays [] result }
        ensures seen { result.seen ≡ 0 }
    {
        Delays {
            spread: Spread::new(alloc),
            sums: Sums::new(),
            recent: 0,
            seen: 0,
        }
    }

    /// Of how many packets there are delays, up to 2^64 - 1.
    pub fn count(&self) -> u64
        ensures { result ≡ self.now.spread.count }
    {
        self.spread.count()
    }

    /// The least; 0 if there are no packets.
    pub fn least(&self) -> u64
        ensures { result ≡ self.now.sums.least }
    {
        self.sums.least
    }

    /// The greatest; 0 if there are no packets.
    pub fn greatest(&self) -> u64
        ensures { result ≡ self.now.sums.greatest }
    {
        self.sums.greatest
    }

    /// The sum of all.
    pub fn total(&self) -> u128
        ensures value { result ≡ self.now.sums.total }
        ensures sum { (ds : List ℕ) → AreDelays ds self.now → result ≡ sum_to ds }
    {
        self.sums.total
    }

    /// The sum of the absolute differences of the delays of successive arrivals.
    pub fn differences(&self) -> u128
        ensures value { result ≡ self.now.sums.differences }
        ensures sum { (ds : List ℕ) → AreDelays ds self.now → result ≡ sum_to (differences_of ds) }
    {
        self.sums.differences
    }

    /// The greatest of those that come from now on is looked for.
    pub(crate) fn begin_recent(&mut self)
        ensures same { (ds : List ℕ) → AreDelays ds self.old → AreDelays ds self.new }
        ensures seen { self.new.seen ≡ self.old.spread.count }
    {
        self.recent = 0;
        self.seen = self.spread.count();
    }

    /// The greatest since it was begun to look for it; 0 if there was none.
    pub(crate) fn recent(&self) -> u64
        ensures { (ds : List ℕ) → AreDelays ds self.now → length ds < 2 ^ 64
            → result ≡ greatest_behind self.now.seen ds }
    {
        self.recent
    }

    /// How many rows there are: one for each delay, or, if they are rounded, for all that round to
    /// one.
    pub fn rows(&self) -> usize
        ensures count { result ≡ length self.now.spread.rows.items }
        ensures spread { (ds : List ℕ) → AreDelays ds self.now → length ds < 2 ^ 64
            → AreSpreadRows ds self.now.spread.is_rounded self.now.spread.rows.items }
    {
        self.spread.rows()
    }

    /// The row with this place, by rising delays: the least and the greatest delay of it, and how
    /// many there were.
    pub fn bucket(&self, place: usize) -> Bucket
        requires { place < length self.now.spread.rows.items }
        ensures { option_map (bucket_of self.now.spread.is_rounded)
            (slice_get self.now.spread.rows.items place) ≡ Some result }
    {
        self.spread.bucket(place)
    }

    /// The mean, rounded down; 0 if there are no packets.
    pub fn mean(&self) -> u64
        ensures { (ds : List ℕ) → AreDelays ds self.now → length ds < 2 ^ 64
            → result ≡ mean_of ds }
    {
        self.sums.mean(self.spread.count())
    }

    /// The mean absolute difference of the delays of two successive arrivals, rounded down; 0 if
    /// there are fewer than two.
    pub fn jitter(&self) -> u64
        ensures { (ds : List ℕ) → AreDelays ds self.now → length ds < 2 ^ 64
            → result ≡ jitter_of ds }
    {
        self.sums.jitter(self.spread.count())
    }

    /// The least delay such that at least so many thousandths of all are at most it (nearest rank);
    /// 0 if there are no packets. If `is_rounded`, it may be less than that, by at most 1/128 of
    /// itself.
    pub fn percentile(&self, thousandths: u64) -> u64
        ensures { (ds : List ℕ) → AreDelays ds self.now → length ds < 2 ^ 64
            → thousandths ≤ 1000
            → ShowsPercentile ds self.now.spread.is_rounded thousandths result }
    {
        self.spread.percentile(thousandths).max(self.sums.least)
    }

    /// Whether percentiles are rounded down, since there were more than 1,024 different delays.
    pub fn is_rounded(&self) -> bool
        ensures kind { result ≡ self.now.spread.is_rounded }
        ensures exact { (ds : List ℕ) → AreDelays ds self.now → length ds < 2 ^ 64
            → different_of ds ≤ 1024 → result ≡ false }
    {
        self.spread.is_rounded()
    }

    /// One more packet took so many nanoseconds.
    ///
    /// # Errors
    ///
    /// If memory was refused. The delay may have been added.
    pub(crate) fn add(&mut self, delay: u64) -> Result<(), AllocError>
        ensures count { OnOk result (self.new.spread.count
            ≡ saturated (self.old.spread.count + 1)) }
        ensures least { OnOk result (self.new.sums.least
            ≡ least_after self.old.spread.count self.old.sums.least delay) }
        ensures greatest { OnOk result (self.new.sums.greatest
            ≡ max self.old.sums.greatest delay) }
        ensures seen { OnOk result (self.new.seen ≡ self.old.seen) }
        ensures added { OnOk result ((ds : List ℕ) → AreDelays ds self.old
            → AreDelays (ds ++ delay ∷ []) self.new) }
    {
        let before = self.spread.count();
        self.spread.add(delay)?;
        self.sums.add(before, delay);
        self.recent = self.recent.max(delay);
        self.spread.round_many()
    }
}
