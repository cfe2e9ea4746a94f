//! The tables of sources.

ghost use Rattle.std.specs.Prelude.{◌≡◌, ◌<◌, ◌∷◌, ◌++◌, [], ℕ, OnOk, length};
ghost use Rattle.nm_report.specs.Sources.{destination_text, kind_name};
ghost use Rattle.nm_base.specs.Count.{saturated};
ghost use Rattle.nm_topology.specs.TopologyValue.{TopologyValue};
ghost use Rattle.nm_sim.specs.Network.{net_of};
ghost use Rattle.nm_measure.specs.Counted.{HasEnds};
ghost use Rattle.nm_measure.specs.Flows.{Balances};
ghost use Rattle.nm_measure.specs.Measured.{IsMeasuredBefore};
ghost use Rattle.nm_measure.specs.Sent.{sent_in};
ghost use Rattle.nm_measure.specs.Ways.{ends_in};

use crate::table::{Table, push_left_out};
use crate::units::{PERCENTILES, push_address};
use crate::whole::Whole;
use nm_base::{SourceNo, push_text, push_time};
use nm_measure::{Appended, Delays, FlowCounts, FlowTimes, Measured};
use nm_topology::Topology;
use nm_topology::traffic::{Source, Traffic};
use std::alloc::Global;

/// The columns of what became of packets.
const COUNT_HEAD: [&str; 12] = [
    "source",
    "kind",
    "node",
    "to",
    "sent",
    "delivered",
    "refused",
    "dropped",
    "discarded",
    "under way",
    "octets",
    "rate",
];

/// How many of them are texts: which source it is.
const COUNT_TEXTS: usize = 4;

/// The columns of delays.
const DELAY_HEAD: [&str; 12] = [
    "source",
    "kind",
    "node",
    "to",
    "least delay",
    "50%",
    "90%",
    "99%",
    "99.9%",
    "greatest delay",
    "mean delay",
    "jitter",
];

/// The columns of echo replies.
const ECHO_HEAD: [&str; 15] = [
    "source",
    "kind",
    "node",
    "to",
    "sent",
    "answered",
    "astray",
    "least round trip",
    "50%",
    "90%",
    "99%",
    "99.9%",
    "greatest round trip",
    "mean round trip",
    "jitter",
];

/// What became of the packets of a source; nothing if it is not there.
pub(crate) fn flow_of(measured: &Measured, source: SourceNo) -> FlowCounts
    ensures balances { Balances result }
    ensures ended { (t : TopologyValue) (until : ℕ) (m : IsMeasuredBefore t until measured.now)
        → source < length t.sources → (result.sent ≡ saturated (sent_in (net_of t) source m.events))
        × HasEnds source (ends_in t m.events) result }
{
    measured.flow(source).unwrap_or(FlowCounts::NONE)
}

/// The kind of a source, as the topology's text has it.
pub(crate) fn kind_of(source: &Source) -> &'static str
    ensures { result.now ≡ kind_name source.now.traffic }
{
    match &source.traffic {
        Traffic::Cbr(_) => "cbr",
        Traffic::Echo(_) => "echo",
        Traffic::Raw(_) => "raw",
    }
}

/// Appends the destination of a source's packets; `-` for raw packets, which have their own.
pub(crate) fn push_destination(text: &mut Vec<u8>, source: &Source) -> Appended
    ensures { OnOk result (text.new.items
        ≡ text.old.items ++ destination_text source.now.traffic) }
{
    match &source.traffic {
        Traffic::Cbr(cbr) => push_address(text, cbr.to),
        Traffic::Echo(echo) => push_address(text, echo.to),
        Traffic::Raw(_) => push_text(text, b"-"),
    }
}

/// The cells of a row that name its source.
fn add_source(
    alloc: Global,
    table: &mut Table,
    topology: &Topology,
    source: &Source,
    number: SourceNo,
) -> Appended {
    table.number(number.index() as u64)?;
    table.text(kind_of(source).as_bytes())?;
    table.text(topology.node_name(source.node).as_bytes())?;
    let mut to = Vec::new(alloc);
    push_destination(&mut to, source)?;
    table.text(to.as_slice())
}

/// The cell of a percentile, with `~` before one that is rounded.
fn add_percentile(alloc: Global, table: &mut Table, delays: &Delays, thousandths: u64) -> Appended {
    let mut cell = Vec::new(alloc);
    if delays.is_rounded() {
        push_text(&mut cell, b"~")?;
    }
    push_time(&mut cell, delays.percentile(thousandths))?;
    table.text(cell.as_slice())
}

/// The cells of a row with the times that packets took.
fn add_delays(alloc: Global, table: &mut Table, delays: &Delays) -> Appended {
    table.time(delays.least())?;
    for percentile in PERCENTILES {
        add_percentile(alloc, table, delays, percentile)?;
    }
    table.time(delays.greatest())?;
    table.time(delays.mean())?;
    table.time(delays.jitter())
}

/// How many packets a source sent, and what became of them.
pub(crate) fn fates(flow: &FlowCounts) -> [u64; 6]
    ensures { result ≡ flow.now.sent ∷ flow.now.delivered ∷ flow.now.refused ∷ flow.now.dropped
        ∷ flow.now.discarded ∷ flow.now.under_way ∷ [] }
{
    [
        flow.sent,
        flow.delivered,
        flow.refused,
        flow.dropped,
        flow.discarded,
        flow.under_way,
    ]
}

/// The cells of a row with what became of packets, and how much arrived, and how fast.
fn add_counts(table: &mut Table, fates: [u64; 6], octets: u64, rate: u64) -> Appended {
    for count in fates {
        table.number(count)?;
    }
    table.number(octets)?;
    table.rate(rate)
}

/// Adds the last row: the sums over all sources, if there are at least two.
fn add_whole(table: &mut Table, whole: &Whole) -> Appended {
    if whole.sources < 2 {
        return Ok(());
    }
    table.text(b"all")?;
    for _ in 1..COUNT_TEXTS {
        table.text(b"-")?;
    }
    add_counts(table, whole.fates, whole.octets, whole.rate())
}

/// What became of the packets of sources, of all of them together, and how many sent nothing.
pub(crate) fn push_sources(
    alloc: Global,
    text: &mut Vec<u8>,
    topology: &Topology,
    measured: &Measured,
) -> Appended {
    let mut table = Table::new(alloc, &COUNT_HEAD, COUNT_TEXTS)?;
    let (mut whole, mut idle) = (Whole::new(), 0u64);
    for (number, source) in (0..u32::MAX).zip(topology.sources()) {
        let place = SourceNo::new(number);
        let flow = flow_of(measured, place);
        match measured.times(place) {
            Some(times) if flow.sent > 0 => {
                add_source(alloc, &mut table, topology, source, place)?;
                add_counts(&mut table, fates(&flow), times.octets(), times.rate())?;
                whole.add(fates(&flow), times);
            }
            _ => idle = idle.saturating_add(1),
        }
    }
    add_whole(&mut table, &whole)?;
    table.print(text)?;
    push_left_out(text, "sources", idle)
}

/// The way for which times are shown.
#[derive(Clone, Copy)]
pub(crate) enum Trip {
    /// From where they were sent to where they were delivered.
    OneWay,
    /// From an echo request to its reply.
    Round,
}

/// The columns of how long packets took.
fn trip_head(trip: Trip) -> &'static [&'static str] {
    match trip {
        Trip::OneWay => &DELAY_HEAD,
        Trip::Round => &ECHO_HEAD,
    }
}

/// Whether echo replies are shown for a source: for an `echo` source that sent requests, and for a
/// `raw` one if some replies came to a node.
fn has_replies(source: &Source, flow: &FlowCounts, times: &FlowTimes) -> bool {
    match &source.traffic {
        Traffic::Cbr(_) => false,
        Traffic::Echo(_) => flow.sent > 0,
        Traffic::Raw(_) => times.round_trips.count() > 0 || flow.astray > 0,
    }
}

/// Adds the row of how long packets of a source took: one way, if something of it was delivered,
/// and there and back, if replies are shown.
fn add_trips(
    alloc: Global,
    table: &mut Table,
    topology: &Topology,
    measured: &Measured,
    source: &Source,
    number: SourceNo,
    trip: Trip,
) -> Appended {
    let Some(times) = measured.times(number) else {
        return Ok(());
    };
    let flow = flow_of(measured, number);
    match trip {
        Trip::OneWay if times.delays.count() > 0 => {
            add_source(alloc, table, topology, source, number)?;
            add_delays(alloc, table, &times.delays)
        }
        Trip::Round if has_replies(source, &flow, times) => {
            add_source(alloc, table, topology, source, number)?;
            table.number(flow.sent)?;
            table.number(times.round_trips.count())?;
            table.number(flow.astray)?;
            add_delays(alloc, table, &times.round_trips)
        }
        _ => Ok(()),
    }
}

/// How long packets of sources took, after an empty line, if it is known of any.
pub(crate) fn push_trips(
    alloc: Global,
    text: &mut Vec<u8>,
    topology: &Topology,
    measured: &Measured,
    trip: Trip,
) -> Appended {
    let mut table = Table::new(alloc, trip_head(trip), 4)?;
    for (number, source) in (0..u32::MAX).zip(topology.sources()) {
        let place = SourceNo::new(number);
        add_trips(alloc, &mut table, topology, measured, source, place, trip)?;
    }
    table.print_behind(text)
}
