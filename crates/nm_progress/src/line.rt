//! A line that shows how far a run is.

ghost use Rattle.std.specs.Prelude.{◌≡◌, ◌++◌, OnOk, Some};
ghost use Rattle.nm_progress.specs.Line.{last_text, left_text, pace_text, progress_line, scaled};
ghost use Rattle.nm_progress.specs.Line.{share_text};

use crate::progress::Seen;
use nm_base::{push_number, push_text};
use std::alloc::AllocError;

/// How many records a packet makes that passes a link.
const RECORDS_OF_A_HOP: u64 = 2;

/// `count` times `factor` divided by `whole`, rounded down: 0 if there is no whole, and at most the
/// greatest `u64`.
fn scaled(count: u64, factor: u64, whole: u64) -> u64
    ensures { result ≡ scaled count factor whole }
{
    if whole == 0 {
        return 0;
    }
    let quotient = u128::from(count) * u128::from(factor) / u128::from(whole);
    u64::try_from(quotient).unwrap_or(u64::MAX)
}

/// Appends the share of the simulated time that is done.
fn push_share(text: &mut Vec<u8>, seen: &Seen) -> Result<(), AllocError>
    ensures { OnOk result (text.new.items ≡ text.old.items ++ share_text seen.now) }
{
    push_number(text, scaled(seen.time, 100, seen.stop))?;
    push_text(text, b"% simulated, ")
}

/// Appends packets over links a second so far.
fn push_pace(text: &mut Vec<u8>, seen: &Seen, milliseconds: u64) -> Result<(), AllocError>
    ensures { OnOk result (text.new.items ≡ text.old.items ++ pace_text seen.now milliseconds) }
{
    let hops = seen.records / RECORDS_OF_A_HOP;
    push_number(text, scaled(hops, 1_000, milliseconds))?;
    push_text(text, b" packet-hops/s")
}

/// Appends the seconds that are left at this pace, once some time is done.
fn push_left(text: &mut Vec<u8>, seen: &Seen, milliseconds: u64) -> Result<(), AllocError>
    ensures { OnOk result (text.new.items ≡ text.old.items ++ left_text seen.now milliseconds) }
{
    if seen.time == 0 {
        return Ok(());
    }
    let left = scaled(seen.stop.saturating_sub(seen.time), milliseconds, seen.time);
    push_text(text, b", ")?;
    push_number(text, left / 1_000)?;
    push_text(text, b" s left")
}

/// Appends the partition that is furthest behind, if the run notes partitions.
fn push_last(text: &mut Vec<u8>, seen: &Seen) -> Result<(), AllocError>
    ensures { OnOk result (text.new.items ≡ text.old.items ++ last_text seen.now.last) }
{
    match seen.last {
        Some(partition) => push_partition(text, partition),
        None => Ok(()),
    }
}

/// Appends that this partition is furthest behind.
fn push_partition(text: &mut Vec<u8>, partition: u64) -> Result<(), AllocError>
    ensures { OnOk result
        (text.new.items ≡ text.old.items ++ last_text (Some partition)) }
{
    push_text(text, b", partition ")?;
    push_number(text, partition)?;
    push_text(text, b" last")
}

/// Appends a line that shows how far a run is that began so many milliseconds ago, without a line
/// feed: the share of the simulated time that is done, packets over links a second so far, the time
/// that is left at this pace, and the partition that is furthest behind.
///
/// # Errors
///
/// If memory was refused; the text has a part of the line then.
pub fn push_line(text: &mut Vec<u8>, seen: &Seen, milliseconds: u64) -> Result<(), AllocError>
    ensures { OnOk result
        (text.new.items ≡ text.old.items ++ progress_line seen.now milliseconds) }
{
    push_share(text, seen)?;
    push_pace(text, seen, milliseconds)?;
    push_left(text, seen, milliseconds)?;
    push_last(text, seen)
}
