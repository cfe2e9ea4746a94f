//! The rows of interfaces in a step.

ghost use Rattle.std.specs.Prelude.{◌≡◌, ℕ, ◌-◌, ◌<◌, ◌++◌, List, OnOk, length};
ghost use Rattle.nm_base.specs.Count.{saturated};
ghost use Rattle.nm_forward.specs.State.{NodeStateValue};
ghost use Rattle.nm_model.specs.Run.{State};
ghost use Rattle.nm_topology.specs.TopologyValue.{TopologyValue};
ghost use Rattle.nm_sim.specs.Network.{net_of};
ghost use Rattle.nm_measure.specs.Busy.{thousandths_of};
ghost use Rattle.nm_measure.specs.Measured.{HasRecent};
ghost use Rattle.nm_measure.specs.Queues.{in_octets, in_packets, longest_queue};
ghost use Rattle.nm_series.specs.Rows.{AreSeenBetween, AreTotals, HadIfaces, IsIfaceStep};
ghost use Rattle.nm_series.specs.Rows.{counts_text, iface_row, mean_between, mean_in, rows_of};
ghost use Rattle.nm_series.specs.Rows.{seen_text, whole_mean_between};

use crate::cells::{end_row, push_cell};
use crate::series::{Span, Totals};
use nm_base::{IfaceNo, Packet, Time, push_number, push_text};
use nm_forward::NodeState;
use nm_measure::{IfaceTotals, Measured, thousandths};
use nm_model::run::times_pass;
use nm_sim::network::every_topology_is_a_network;
use nm_topology::Topology;
use std::alloc::{AllocError, Global};

/// What was seen of an interface in a step.
#[derive(Clone, Copy, Drop)]
pub struct IfaceSeen {
    /// The most packets that waited at one time.
    pub longest: u64,
    /// How many waited in the mean over time, in thousandths, rounded down.
    pub mean: u64,
    /// The most octets that waited at one time.
    pub longest_octets: u64,
    /// How many octets waited in the mean over time, rounded down.
    pub mean_octets: u64,
    /// In which share of the time it transmitted, in thousandths, rounded down.
    pub busy: u64,
}

/// How many waited in the mean in a step, rounded down, if all waited for so many nanoseconds
/// together.
fn mean_of(waited: u128, length: u64) -> u64
    ensures { result ≡ saturated (mean_in waited length) }
{
    if length == 0 {
        return 0;
    }
    u64::try_from(waited / u128::from(length)).unwrap_or(u64::MAX)
}

/// What was seen of an interface in a step of so many nanoseconds, before which it had this and
/// after which that.
fn seen_of(
    measured: &Measured,
    iface: IfaceNo,
    before: &IfaceTotals,
    after: &IfaceTotals,
    time: u64,
) -> IfaceSeen
    ensures longest { (t : TopologyValue) (first : ℕ) → HasRecent t first measured.now
        → iface < length t.ifaces
        → (result.longest
        ≡ longest_queue (net_of t) in_packets iface first measured.now.part.steps)
        × (result.longest_octets
        ≡ longest_queue (net_of t) in_octets iface first measured.now.part.steps) }
    ensures mean { result.mean ≡ mean_between before.now.waited after.now.waited time }
    ensures octets { result.mean_octets
        ≡ whole_mean_between before.now.octets_waited after.now.octets_waited time }
    ensures busy { result.busy ≡ thousandths_of (after.now.busy - before.now.busy) time }
{
    let longest = measured.recent_queue(iface);
    let waited = after.waited.saturating_sub(before.waited);
    let octets = after.octets_waited.saturating_sub(before.octets_waited);
    IfaceSeen {
        longest: longest.packets,
        mean: mean_of(waited.saturating_mul(1_000), time),
        longest_octets: longest.octets,
        mean_octets: mean_of(octets, time),
        busy: thousandths(after.busy.saturating_sub(before.busy), time),
    }
}

/// Appends what came, went and was dropped in a step.
fn push_counts(
    text: &mut Vec<u8>,
    before: &IfaceTotals,
    after: &IfaceTotals,
) -> Result<(), AllocError>
    ensures { OnOk result (text.new.items ≡ text.old.items ++ counts_text
        (record { traffic = before.now.traffic; dropped = before.now.dropped })
        (record { traffic = after.now.traffic; dropped = after.now.dropped })) }
{
    let (old, new) = (&before.traffic, &after.traffic);
    push_cell(text, new.came.packets.saturating_sub(old.came.packets))?;
    push_cell(text, new.came.octets.saturating_sub(old.came.octets))?;
    push_cell(text, new.went.packets.saturating_sub(old.went.packets))?;
    push_cell(text, new.went.octets.saturating_sub(old.went.octets))?;
    push_cell(text, after.dropped.saturating_sub(before.dropped))
}

/// Appends what was seen of an interface.
fn push_seen(text: &mut Vec<u8>, seen: &IfaceSeen) -> Result<(), AllocError>
    ensures { OnOk result (text.new.items ≡ text.old.items ++ seen_text seen.now) }
{
    push_cell(text, seen.longest)?;
    push_cell(text, seen.mean)?;
    push_cell(text, seen.longest_octets)?;
    push_cell(text, seen.mean_octets)?;
    push_cell(text, seen.busy)
}

/// Appends the row of an interface.
fn push_row(
    text: &mut Vec<u8>,
    from: Time,
    name: &str,
    before: &IfaceTotals,
    after: &IfaceTotals,
    seen: &IfaceSeen,
) -> Result<(), AllocError>
    ensures { OnOk result (text.new.items ≡ text.old.items ++ iface_row from name.now
        (record { traffic = before.now.traffic; dropped = before.now.dropped })
        (record { traffic = after.now.traffic; dropped = after.now.dropped }) seen.now) }
{
    push_number(text, from.nanoseconds())?;
    push_text(text, b",")?;
    push_text(text, name.as_bytes())?;
    push_counts(text, before, after)?;
    push_seen(text, seen)?;
    end_row(text)
}

/// Appends the rows of all interfaces in a step, in the order of the topology's text.
fn push_rows(
    text: &mut Vec<u8>,
    topology: &Topology,
    measured: &Measured,
    before: &[IfaceTotals],
    after: &[IfaceTotals],
    span: &Span,
) -> Result<(), AllocError>
    requires before { length before.now ≡ length topology.now.ifaces }
    requires after { length after.now ≡ length topology.now.ifaces }
    ensures { OnOk result ((seen : List IfaceSeen) × (length seen ≡ length topology.now.ifaces)
        × AreSeenBetween measured.now before.now after.now (span.now.until - span.now.from) seen
        × ((old new : State (List ℕ) NodeStateValue) → AreTotals topology.now old before.now
        → AreTotals topology.now new after.now → text.new.items ≡ text.old.items
        ++ rows_of span.now.from old new 0 topology.now.ifaces seen)) }
{
    for number in 0..topology.ifaces().len() {
        let iface = topology.iface_number(number);
        let seen = seen_of(
            measured,
            iface,
            &before[number],
            &after[number],
            span.length(),
        );
        push_row(
            text,
            span.from,
            topology.iface(iface).name(),
            &before[number],
            &after[number],
            &seen,
        )?;
    }
    Ok(())
}

impl Totals for IfaceTotals {
    ghost had = { λ t time all. HadIfaces t time all };

    ghost are_rows = { λ t from until text. IsIfaceStep t from until text };

    fn all_before(
        alloc: Global,
        topology: &Topology,
        measured: &Measured,
        time: Time,
    ) -> Result<Vec<IfaceTotals>, AllocError> {
        let mut all = Vec::new(alloc);
        for number in 0..topology.ifaces().len() {
            all.push(measured.totals(topology.iface_number(number), time))?;
        }
        Ok(all)
    }

    fn rows(
        alloc: Global,
        topology: &Topology,
        measured: &Measured,
        before: &[IfaceTotals],
        after: &[IfaceTotals],
        span: &Span,
    ) -> Result<Vec<u8>, AllocError> {
        let mut text = Vec::new(alloc);
        every_topology_is_a_network(topology); // law: `net_of` is a network of the model
        times_pass::<Packet, NodeState>(); // law: so many events are before a time
        push_rows(&mut text, topology, measured, before, after, span)?;
        Ok(text)
    }
}
