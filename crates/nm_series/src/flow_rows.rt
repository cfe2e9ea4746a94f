//! The rows of sources in a step: what became of their packets.

ghost use Rattle.std.specs.Prelude.{◌≡◌, ℕ, ◌-◌, ◌/◌, ◌≤◌, ◌++◌, max, OnOk, length};
ghost use Rattle.nm_base.specs.Count.{saturated};
ghost use Rattle.nm_measure.specs.Measured.{HasRecent, IsMeasuredBefore};
ghost use Rattle.nm_series.specs.Flows.{AreFlowTotals, HadFlows, IsFlowStep, flow_rows};
ghost use Rattle.nm_series.specs.Flows.{added_text, late_text, totals_row};

use crate::cells::{end_row, push_cell};
use crate::series::{Span, Totals};
use nm_base::{Packet, Time, push_number};
use nm_forward::NodeState;
use nm_measure::{FlowTotals, Measured};
use nm_model::run::times_pass;
use nm_sim::network::every_topology_is_a_network;
use nm_topology::Topology;
use std::alloc::{AllocError, Global};

/// The mean of so many values, rounded down, by their sum before and after them; 0 if there are
/// none.
fn mean_between(before: u128, after: u128, count: u64) -> u64
    ensures { result ≡ saturated ((after - before) / count) }
{
    if count == 0 {
        return 0;
    }
    let sum = after.saturating_sub(before);
    u64::try_from(sum / u128::from(count)).unwrap_or(u64::MAX)
}

/// The mean delay of what was delivered between, in nanoseconds, rounded down; 0 if nothing was.
fn mean_delay(before: &FlowTotals, after: &FlowTotals) -> u64
    ensures { result ≡ saturated ((after.now.delayed - before.now.delayed)
        / (after.now.delivered - before.now.delivered)) }
{
    let count = after.delivered.saturating_sub(before.delivered);
    mean_between(before.delayed, after.delayed, count)
}

/// The mean absolute difference of the delay of each packet that was delivered between and of the
/// one delivered before it, in nanoseconds, rounded down (RFC 3393); 0 if there is no such pair.
fn jitter(before: &FlowTotals, after: &FlowTotals) -> u64
    ensures { result ≡ saturated ((after.now.differences - before.now.differences)
        / (after.now.delivered - max before.now.delivered 1)) }
{
    // The first packet that was delivered has none before it.
    let count = after.delivered.saturating_sub(before.delivered.max(1));
    mean_between(before.differences, after.differences, count)
}

/// Appends what was added to the counts of a source.
fn push_added(text: &mut Vec<u8>, before: &FlowTotals, after: &FlowTotals) -> Result<(), AllocError>
    ensures { OnOk result (text.new.items ≡ text.old.items ++ added_text before.now after.now) }
{
    push_cell(text, after.sent.saturating_sub(before.sent))?;
    push_cell(text, after.delivered.saturating_sub(before.delivered))?;
    push_cell(text, after.lost.saturating_sub(before.lost))?;
    push_cell(text, after.octets.saturating_sub(before.octets))
}

/// Appends how late it was.
fn push_late(
    text: &mut Vec<u8>,
    before: &FlowTotals,
    after: &FlowTotals,
    greatest: u64,
) -> Result<(), AllocError>
    ensures { OnOk result (text.new.items
        ≡ text.old.items ++ late_text before.now after.now greatest) }
{
    push_cell(text, mean_delay(before, after))?;
    push_cell(text, greatest)?;
    push_cell(text, jitter(before, after))
}

/// Appends the row of a source, which had this before a step and has that after it.
fn push_row(
    text: &mut Vec<u8>,
    from: Time,
    source: usize,
    before: &FlowTotals,
    after: &FlowTotals,
    greatest: u64,
) -> Result<(), AllocError>
    ensures { OnOk result (text.new.items
        ≡ text.old.items ++ totals_row from source before.now after.now greatest) }
{
    push_number(text, from.nanoseconds())?;
    push_cell(text, source as u64)?;
    push_added(text, before, after)?;
    push_late(text, before, after, greatest)?;
    end_row(text)
}

/// Appends the rows of all sources in a step, in the order of the topology's text.
fn push_rows(
    text: &mut Vec<u8>,
    topology: &Topology,
    measured: &Measured,
    before: &[FlowTotals],
    after: &[FlowTotals],
    from: Time,
) -> Result<(), AllocError>
    requires before { length before.now ≡ length topology.now.sources }
    requires after { length after.now ≡ length topology.now.sources }
    ensures { OnOk result ((first until : ℕ) → HasRecent topology.now first measured.now
        → (m : IsMeasuredBefore topology.now until measured.now)
        → AreFlowTotals topology.now first before.now
        → AreFlowTotals topology.now m.events after.now → text.new.items ≡ text.old.items
        ++ flow_rows topology.now from first m.events (length topology.now.sources)) }
{
    measured.events(); // law: no more than 2^62
    for number in 0..topology.sources().len() {
        let greatest = measured.recent_delay(topology.source_number(number));
        push_row(
            text,
            from,
            number,
            &before[number],
            &after[number],
            greatest,
        )?;
    }
    Ok(())
}

impl Totals for FlowTotals {
    ghost had = { λ t time all. HadFlows t time all };

    ghost are_rows = { λ t from until text. IsFlowStep t from until text };

    fn all_before(
        alloc: Global,
        topology: &Topology,
        measured: &Measured,
        _time: Time,
    ) -> Result<Vec<FlowTotals>, AllocError> {
        let mut all = Vec::new(alloc);
        for number in 0..topology.sources().len() {
            all.push(measured.flow_totals(topology.source_number(number)))?;
        }
        Ok(all)
    }

    fn rows(
        alloc: Global,
        topology: &Topology,
        measured: &Measured,
        before: &[FlowTotals],
        after: &[FlowTotals],
        span: &Span,
    ) -> Result<Vec<u8>, AllocError> {
        let mut text = Vec::new(alloc);
        every_topology_is_a_network(topology); // law: `net_of` is a network of the model
        times_pass::<Packet, NodeState>(); // law: so many events are before a time
        push_rows(&mut text, topology, measured, before, after, span.from)?;
        Ok(text)
    }
}
