//! Parts of a whole.

ghost use Rattle.std.specs.Prelude.{◌≡◌, ◌≤◌};
ghost use Rattle.nm_measure.specs.Busy.{thousandths_of};

/// A part of a whole in thousandths, rounded down: 0 if there is no whole, 1,000 at most.
pub fn thousandths(part: u64, whole: u64) -> u64
    ensures value { result ≡ thousandths_of part whole }
    ensures most { result ≤ 1000 }
{
    if whole == 0 {
        return 0;
    }
    let share = u128::from(part) * 1_000 / u128::from(whole);
    u64::try_from(share).unwrap_or(1_000).min(1_000)
}
