//! The measures of a source, by name.

ghost use Rattle.std.specs.Prelude.{◌≡◌, ℕ, ◌<◌, ◌^◌, IfOk, List, Some, length, map, slice_get};
ghost use Rattle.nm_measure.specs.Delays.{AreDelays};
ghost use Rattle.nm_report.specs.Sources.{AreMeasures, AreTimes, measure_names};

use crate::source_tables::fates;
use crate::units::PERCENTILES;
use nm_measure::{Delays, FlowCounts, FlowTimes};
use std::alloc::{AllocError, Global};

/// Their names, in their order. Times are in nanoseconds, octets those of delivered IPv4 packets,
/// and the rate is in bits per second.
pub(crate) const NAMES: [&str; 28] = [
    "sent",
    "delivered",
    "refused",
    "dropped",
    "discarded",
    "under_way",
    "octets",
    "rate",
    "least_delay",
    "delay_50",
    "delay_90",
    "delay_99",
    "delay_99_9",
    "greatest_delay",
    "mean_delay",
    "jitter",
    "delays_rounded",
    "answered",
    "astray",
    "least_round_trip",
    "round_trip_50",
    "round_trip_90",
    "round_trip_99",
    "round_trip_99_9",
    "greatest_round_trip",
    "mean_round_trip",
    "round_trip_jitter",
    "round_trips_rounded",
];

/// How many of them say nothing of replies. They come first.
pub(crate) const ONE_WAY: usize = 17;

/// The text in this place.
fn text_at(texts: &[&'static str], place: usize) -> &'static str
    requires { place < length texts.now }
    ensures { slice_get (map (λ text. text.now) texts.now) place ≡ Some result.now }
{
    texts[place]
}

/// The name of the measure in this place.
pub(crate) fn name_of(place: usize) -> &'static str
    requires { place < 28 }
    ensures { slice_get measure_names place ≡ Some result.now }
{
    text_at(&NAMES, place)
}

/// How long packets took, and 1 if the percentiles are rounded, 0 if they are exact.
fn times_of(delays: &Delays) -> [u64; 9]
    ensures { (ds : List ℕ) → AreDelays ds delays.now → length ds < 2 ^ 64
        → AreTimes ds delays.now.spread.is_rounded result }
{
    let [half, most, nearly, all_but] = PERCENTILES;
    [
        delays.least(),
        delays.percentile(half),
        delays.percentile(most),
        delays.percentile(nearly),
        delays.percentile(all_but),
        delays.greatest(),
        delays.mean(),
        delays.jitter(),
        u64::from(delays.is_rounded()),
    ]
}

/// The measures of a source.
pub(crate) fn measures_of(
    alloc: Global,
    flow: &FlowCounts,
    times: &FlowTimes,
) -> Result<Vec<u64>, AllocError>
    ensures count { IfOk result (λ values. length values.items ≡ 28) }
    ensures values { IfOk result (λ values. (ds es : List ℕ) → AreDelays ds times.now.delays
        → AreDelays es times.now.round_trips → length ds < 2 ^ 64 → length es < 2 ^ 64
        → AreMeasures flow.now times.now ds es values.items) }
{
    let mut values = Vec::new(alloc);
    values.extend_from_slice(&fates(flow))?;
    values.extend_from_slice(&[times.octets(), times.rate()])?;
    values.extend_from_slice(&times_of(&times.delays))?;
    values.extend_from_slice(&[times.round_trips.count(), flow.astray])?;
    values.extend_from_slice(&times_of(&times.round_trips))?;
    Ok(values)
}
