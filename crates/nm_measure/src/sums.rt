//! What is computed of delays while they are added.

ghost use Rattle.std.specs.Prelude.{◌≡◌, ℕ, ◌+◌, ◌/◌, ◌<◌, ◌^◌, max, List, [], ◌∷◌, ◌++◌, length};
ghost use Rattle.nm_base.specs.Count.{saturated};
ghost use Rattle.nm_measure.specs.Sums.{AreSums, jitter_of, least_after, mean_of};

/// What is computed of delays while they are added, in nanoseconds.
#[derive(Clone, Copy, Drop)]
pub(crate) struct Sums {
    pub least: u64,
    pub greatest: u64,
    /// The sum of all.
    pub total: u128,
    /// The one that was added last.
    last: u64,
    /// The sum of the differences of successive delays.
    pub differences: u128,
}

/// The mean of `count` values, rounded down; 0 if there are none.
fn mean_of(total: u128, count: u64) -> u64
    ensures { result ≡ saturated (total / count) }
{
    if count == 0 {
        return 0;
    }
    u64::try_from(total / u128::from(count)).unwrap_or(u64::MAX)
}

impl Sums {
    /// Of no delays.
    pub(crate) fn new() -> Self
        ensures { AreSums [] result }
    {
        Sums {
            least: 0,
            greatest: 0,
            total: 0,
            last: 0,
            differences: 0,
        }
    }

    /// Adds a delay, before which there were so many.
    pub(crate) fn add(&mut self, count: u64, delay: u64)
        ensures least { self.new.least ≡ least_after count self.old.least delay }
        ensures greatest { self.new.greatest ≡ max self.old.greatest delay }
        ensures added { (ds : List ℕ) → count ≡ saturated (length ds) → AreSums ds self.old
            → AreSums (ds ++ delay ∷ []) self.new }
    {
        if count == 0 {
            self.least = delay;
        } else {
            self.least = delay.min(self.least);
            self.differences = self
                .differences
                .saturating_add(u128::from(delay.abs_diff(self.last)));
        }
        self.greatest = self.greatest.max(delay);
        self.total = self.total.saturating_add(u128::from(delay));
        self.last = delay;
    }

    /// The mean of so many delays, rounded down; 0 if there are none.
    pub(crate) fn mean(&self, count: u64) -> u64
        ensures { (ds : List ℕ) → count ≡ saturated (length ds) → AreSums ds self.now
            → length ds < 2 ^ 64 → result ≡ mean_of ds }
    {
        mean_of(self.total, count)
    }

    /// The mean absolute difference of two successive ones of so many delays, rounded down; 0 if
    /// there are fewer than two.
    pub(crate) fn jitter(&self, count: u64) -> u64
        ensures { (ds : List ℕ) → count ≡ saturated (length ds) → AreSums ds self.now
            → length ds < 2 ^ 64 → result ≡ jitter_of ds }
    {
        mean_of(self.differences, count.saturating_sub(1))
    }
}
