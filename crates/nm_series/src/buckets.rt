//! How the delays of what was delivered of each source are spread.

ghost use Rattle.std.specs.Prelude.{◌≡◌, ℕ, ◌<◌, ◌^◌, ◌++◌, IfOk, OnOk, List, length};
ghost use Rattle.nm_topology.specs.TopologyValue.{TopologyValue};
ghost use Rattle.nm_measure.specs.Lines.{EndsLine};
ghost use Rattle.nm_measure.specs.Measured.{IsMeasuredBefore};
ghost use Rattle.nm_series.specs.Buckets.{AreBuckets, AreDelayRows, bucket_head, bucket_row};
ghost use Rattle.nm_series.specs.Buckets.{bucket_rows};

use crate::cells::{end_row, push_cell};
use nm_base::{SourceNo, push_number, push_text};
use nm_measure::spread::Bucket;
use nm_measure::{Delays, MadeText, Measured};
use nm_topology::Topology;
use std::alloc::{AllocError, Global};

/// Appends the names of the columns.
fn push_head(text: &mut Vec<u8>) -> Result<(), AllocError>
    ensures is { OnOk result (text.new.items ≡ text.old.items ++ bucket_head) }
    ensures ends { OnOk result (EndsLine text.new.items) }
{
    push_text(text, b"source,from_nanoseconds,to_nanoseconds,packets")?;
    end_row(text)
}

/// Appends a row of a source.
fn push_bucket(text: &mut Vec<u8>, source: u64, bucket: &Bucket) -> Result<(), AllocError>
    ensures is { OnOk result (text.new.items ≡ text.old.items ++ bucket_row source bucket.now) }
    ensures ends { OnOk result (EndsLine text.new.items) }
{
    push_number(text, source)?;
    push_cell(text, bucket.least)?;
    push_cell(text, bucket.greatest)?;
    push_cell(text, bucket.times)?;
    end_row(text)
}

/// Appends the rows of a source, by rising delays.
fn push_delays(text: &mut Vec<u8>, source: u64, delays: &Delays) -> Result<(), AllocError>
    requires { EndsLine text.old.items }
    ensures is { OnOk result (text.new.items ≡ text.old.items
        ++ bucket_rows source delays.now.spread.is_rounded delays.now.spread.rows.items) }
    ensures ends { OnOk result (EndsLine text.new.items) }
{
    for place in 0..delays.rows() {
        push_bucket(text, source, &delays.bucket(place))?;
    }
    Ok(())
}

/// Appends the rows of a source of a network.
fn push_source(text: &mut Vec<u8>, measured: &Measured, source: SourceNo) -> Result<(), AllocError>
    requires { EndsLine text.old.items }
    ensures is { (t : TopologyValue) (until : ℕ) (m : IsMeasuredBefore t until measured.now)
        → source < length t.sources → OnOk result ((last : List ℕ)
        × AreBuckets t m.events source last × (text.new.items ≡ text.old.items ++ last)) }
    ensures ends { OnOk result (EndsLine text.new.items) }
{
    measured.events(); // law: no more than 2^62
    match measured.times(source) {
        Some(times) => {
            times.delays.rows(); // law: they are those of the delays
            push_delays(text, source.index() as u64, &times.delays)
        }
        None => Ok(()),
    }
}

/// A row for each delay of what was delivered of a source, with how often it came: the delay by
/// itself, if up to 1,024 different ones came, or else all that have the same eight highest bits.
/// Both ends belong to the row.
///
/// # Errors
///
/// If memory was refused.
pub fn delays_text(alloc: Global, topology: &Topology, measured: &Measured) -> MadeText
    ensures lines { IfOk result (λ text. EndsLine text.items) }
    ensures rows { (until : ℕ) (m : IsMeasuredBefore topology.now until measured.now)
        → IfOk result (λ text. AreDelayRows topology.now m.events
        (length topology.now.sources) text.items) }
{
    let mut text = Vec::new(alloc);
    push_head(&mut text)?;
    for number in 0..topology.sources().len() {
        push_source(&mut text, measured, topology.source_number(number))?;
    }
    Ok(text)
}
