//! How often each delay occurred.

ghost use Rattle.std.specs.Prelude.{◌≡◌, ℕ, ◌≤◌, ◌<◌, ◌+◌, ◌-◌, ◌*◌, ◌^◌, Bool, true, false};
ghost use Rattle.std.specs.Prelude.{nat_eq, ◌==◌, if◌then◌else◌};
ghost use Rattle.std.specs.Prelude.{OnOk, OnErr, IfOk, List, [], ◌∷◌, ◌++◌, length, map};
ghost use Rattle.nm_base.specs.Count.{saturated};
ghost use Rattle.nm_measure.specs.Spread.{DelaysRise, HaveTimes, IsPercentile, IsSpread, different_of, kept};
ghost use Rattle.nm_measure.specs.Spread.{bucket_of, rank_of, rounded_down, times_of, top_of};
ghost use Rattle.std.specs.Option.{option_map};
ghost use Rattle.std.specs.Prelude.{Some, slice_get};

use std::alloc::{AllocError, Global};

/// How many different delays are kept unrounded.
const EXACT_ROWS: usize = 1_024;

/// How many of the highest bits of a delay are kept once there are more.
const KEPT_BITS: u32 = 8;

/// How often a delay occurred.
#[derive(Clone, Copy, Drop)]
struct Row {
    /// In nanoseconds.
    delay: u64,
    /// From 1 on.
    times: u64,
}

/// How often a delay in this range occurred.
#[derive(Clone, Copy, Drop)]
pub struct Bucket {
    /// In nanoseconds.
    pub least: u64,
    pub greatest: u64,
    /// From 1 on.
    pub times: u64,
}

/// How often each delay occurred. Up to 1,024 different delays are kept unrounded. Once there are
/// more, each is rounded down, by less than 1/128 of the result, so that there are never more than
/// 7,424 rows: 256 of delays below 256 ns, and 128 for each power of two from there.
#[derive(Drop)]
pub(crate) struct Spread {
    alloc: Global,
    /// By delay, in rising order.
    rows: Vec<Row>,
    /// How many delays were added, up to 2^64 - 1.
    count: u64,
    is_rounded: bool,
    ghost all: { times_of (λ _. true) rows.items ≡ count },
    ghost rise: { DelaysRise rows.items },
    ghost some: { HaveTimes rows.items },
}

/// A delay, rounded down to its eight highest bits: by at most 1/128 of the result.
fn rounded(delay: u64) -> u64
    ensures exact { result ≡ rounded_down delay }
    ensures most { result ≤ delay }
    ensures near { 128 * (delay - result) ≤ result }
{
    let bits = u64::BITS - delay.leading_zeros();
    if bits <= KEPT_BITS {
        return delay;
    }
    let step = 1u64 << (bits - KEPT_BITS);
    delay - delay % step
}

/// A delay as it is kept.
fn kept(is_rounded: bool, delay: u64) -> u64
    ensures { result ≡ kept is_rounded delay }
{
    if is_rounded { rounded(delay) } else { delay }
}

/// The greatest delay that is rounded down to this one.
fn greatest_of(rounded: u64) -> u64
    ensures { result ≡ top_of rounded }
{
    let bits = u64::BITS - rounded.leading_zeros();
    if bits <= KEPT_BITS {
        return rounded;
    }
    let step = 1u64 << (bits - KEPT_BITS);
    rounded.saturating_add(step - 1)
}

/// Notes that a delay occurred so many times more.
fn note(rows: &mut Vec<Row>, delay: u64, times: u64) -> Result<(), AllocError>
    requires fits { times_of (λ _. true) rows.old.items + times < 2 ^ 64 }
    requires rise { DelaysRise rows.old.items }
    requires some { HaveTimes rows.old.items }
    requires times { 1 ≤ times }
    ensures more { OnOk result ((test : ℕ → Bool) → times_of test rows.new.items
        ≡ times_of test rows.old.items + (if test delay then times else 0)) }
    ensures rise { OnOk result (DelaysRise rows.new.items) }
    ensures some { OnOk result (HaveTimes rows.new.items) }
    ensures kinds { OnOk result (length rows.new.items ≡ length rows.old.items
        + (if times_of (λ d. nat_eq d delay) rows.old.items == 0 then 1 else 0)) }
    ensures same { OnErr result (rows.new.items ≡ rows.old.items) }
{
    let place = rows.partition_point(|row| row.delay < delay);
    if place < rows.len() && rows[place].delay == delay {
        rows[place].times += times;
        return Ok(());
    }
    rows.insert(place, Row { delay, times })?;
    Ok(())
}

/// The rows with each delay rounded.
fn rounded_rows(alloc: Global, rows: &[Row]) -> Result<Vec<Row>, AllocError>
    requires fits { times_of (λ _. true) rows.now < 2 ^ 64 }
    requires some { HaveTimes rows.now }
    ensures times { IfOk result (λ all. (test : ℕ → Bool)
        → times_of test all.items ≡ times_of (λ d. test (rounded_down d)) rows.now) }
    ensures rise { IfOk result (λ all. DelaysRise all.items) }
    ensures some { IfOk result (λ all. HaveTimes all.items) }
{
    let mut all = Vec::new(alloc);
    for row in rows {
        note(&mut all, rounded(row.delay), row.times)?;
    }
    Ok(all)
}

/// How many of `count` delays must be at most the percentile of so many thousandths: that share,
/// rounded up, and one at least (nearest rank).
fn rank_of(count: u64, thousandths: u64) -> u64
    ensures exact { thousandths ≤ 1000 → result ≡ rank_of count thousandths }
    ensures some { 1 ≤ result }
{
    let asked = (u128::from(count) * u128::from(thousandths)).div_ceil(1_000);
    u64::try_from(asked).unwrap_or(u64::MAX).max(1)
}

impl Spread {
    /// No delays.
    pub(crate) fn new(alloc: Global) -> Self
        ensures count { result.count ≡ 0 }
        ensures none { IsSpread [] result.rows.items result.is_rounded }
    {
        Spread {
            alloc,
            rows: Vec::new(alloc),
            count: 0,
            is_rounded: false,
        }
    }

    /// How many delays were added, up to 2^64 - 1.
    pub(crate) fn count(&self) -> u64
        ensures { result ≡ self.now.count }
    {
        self.count
    }

    /// Whether delays were rounded.
    pub(crate) fn is_rounded(&self) -> bool
        ensures kind { result ≡ self.now.is_rounded }
        ensures exact { (ds : List ℕ) → IsSpread ds self.now.rows.items self.now.is_rounded
            → different_of ds ≤ 1024 → result ≡ false }
    {
        self.is_rounded
    }

    /// How many rows there are: a row for each delay that is kept.
    pub(crate) fn rows(&self) -> usize
        ensures count { result ≡ length self.now.rows.items }
        ensures rise { DelaysRise self.now.rows.items }
        ensures some { HaveTimes self.now.rows.items }
    {
        self.rows.len()
    }

    /// The row with this place, by rising delays.
    pub(crate) fn bucket(&self, place: usize) -> Bucket
        requires { place < length self.now.rows.items }
        ensures { option_map (bucket_of self.now.is_rounded) (slice_get self.now.rows.items place)
            ≡ Some result }
    {
        let row = &self.rows[place];
        let greatest = if self.is_rounded {
            greatest_of(row.delay)
        } else {
            row.delay
        };
        Bucket {
            least: row.delay,
            greatest,
            times: row.times,
        }
    }

    /// Adds one delay. From 2^64 - 1 on no more are noted.
    ///
    /// # Errors
    ///
    /// If memory was refused. Nothing has changed then.
    pub(crate) fn add(&mut self, delay: u64) -> Result<(), AllocError>
        ensures count { OnOk result (self.new.count ≡ saturated (self.old.count + 1)) }
        ensures added { OnOk result ((ds : List ℕ) → length ds + 1 < 2 ^ 64
            → IsSpread ds self.old.rows.items self.old.is_rounded
            → IsSpread (ds ++ delay ∷ []) self.new.rows.items self.new.is_rounded) }
        ensures rows_stay { OnErr result (self.new.rows.items ≡ self.old.rows.items) }
        ensures count_stays { OnErr result (self.new.count ≡ self.old.count) }
        ensures kind_stays { OnErr result (self.new.is_rounded ≡ self.old.is_rounded) }
    {
        if self.count == u64::MAX {
            return Ok(());
        }
        note(&mut self.rows, kept(self.is_rounded, delay), 1)?;
        self.count += 1;
        Ok(())
    }

    /// Rounds all delays if there are too many different ones.
    ///
    /// # Errors
    ///
    /// If memory was refused. Nothing has changed then.
    pub(crate) fn round_many(&mut self) -> Result<(), AllocError>
        ensures count { self.new.count ≡ self.old.count }
        ensures same { (ds : List ℕ) → IsSpread ds self.old.rows.items self.old.is_rounded
            → IsSpread ds self.new.rows.items self.new.is_rounded }
    {
        if self.is_rounded || self.rows.len() <= EXACT_ROWS {
            return Ok(());
        }
        let _count = self.count; // no more than 2^64 - 1
        self.rows = rounded_rows(self.alloc, self.rows.as_slice())?;
        self.is_rounded = true;
        Ok(())
    }

    /// The least kept delay such that at least so many thousandths of all are at most it (nearest
    /// rank); 0 if there are none.
    pub(crate) fn percentile(&self, thousandths: u64) -> u64
        ensures none { self.now.count ≡ 0 → result ≡ 0 }
        ensures some { (ds : List ℕ) → IsSpread ds self.now.rows.items self.now.is_rounded
            → 0 < length ds → thousandths ≤ 1000
            → IsPercentile (map (kept self.now.is_rounded) ds) thousandths result }
    {
        let rank = rank_of(self.count, thousandths);
        let mut passed = 0u64;
        for row in &self.rows {
            passed = passed.saturating_add(row.times);
            if passed >= rank {
                return row.delay;
            }
        }
        0
    }
}
