//! The measures of each source in one row of comma-separated values (RFC 4180).

ghost use Rattle.std.specs.Prelude.{◌≡◌, ◌<◌, ◌^◌, ◌++◌, ℕ, IfOk, List, OnOk, Some, codes, length};
ghost use Rattle.std.specs.Prelude.{slice_get};
ghost use Rattle.nm_topology.specs.PartValues.{NodeValue};
ghost use Rattle.nm_topology.specs.TopologyValue.{TopologyValue};
ghost use Rattle.nm_measure.specs.Delays.{AreDelays};
ghost use Rattle.nm_measure.specs.Lines.{EndsLine};
ghost use Rattle.nm_measure.specs.Measured.{IsMeasuredBefore};
ghost use Rattle.nm_report.specs.Sources.{AreRows, HasMeasures, SaysMeasures, measure_names};
ghost use Rattle.nm_report.specs.Sources.{name_cells, row_head, row_values, source_text};

use crate::csv::source_at;
use crate::measures::{measures_of, name_of};
use crate::source_lines::push_values;
use crate::source_tables::{flow_of, kind_of, push_destination};
use nm_base::{SourceNo, push_number, push_text};
use nm_measure::{Appended, FlowCounts, FlowTimes, MadeText, Measured};
use nm_topology::Topology;
use nm_topology::topology::accepted_topologies_are_in_order;
use nm_topology::traffic::Source;
use std::alloc::Global;

/// How many measures a source has.
const MEASURES: usize = 28;

/// Appends the names of the columns.
fn push_head(text: &mut Vec<u8>) -> Appended
    ensures is { OnOk result (text.new.items ≡ text.old.items ++ row_head) }
    ensures ends { OnOk result (EndsLine text.new.items) }
{
    push_text(text, b"source,kind,node,to")?;
    push_names(text)?;
    end_row(text)
}

/// Appends the names of all measures, each behind a comma.
fn push_names(text: &mut Vec<u8>) -> Appended
    ensures { OnOk result (text.new.items ≡ text.old.items ++ name_cells measure_names) }
{
    for place in 0..MEASURES {
        push_text(text, b",")?;
        push_text(text, name_of(place).as_bytes())?;
    }
    Ok(())
}

/// Ends a row.
fn end_row(text: &mut Vec<u8>) -> Appended
    ensures is { OnOk result (text.new.items ≡ text.old.items ++ codes "\n") }
    ensures ends { OnOk result (EndsLine text.new.items) }
{
    push_text(text, b"\n")
}

/// Appends which source it is.
fn push_source(
    text: &mut Vec<u8>,
    topology: &Topology,
    source: &Source,
    number: SourceNo,
) -> Appended
    ensures { OnOk result ((node : NodeValue)
        → slice_get topology.now.nodes source.now.node ≡ Some node
        → text.new.items ≡ text.old.items ++ source_text number node.name source.now) }
{
    push_number(text, number.index() as u64)?;
    push_text(text, b",")?;
    push_text(text, kind_of(source).as_bytes())?;
    push_text(text, b",")?;
    push_text(text, topology.node_name(source.node).as_bytes())?;
    push_text(text, b",")?;
    push_destination(text, source)
}

/// Appends all that was measured of a source, by what was counted of it.
fn push_counted(alloc: Global, text: &mut Vec<u8>, flow: &FlowCounts, times: &FlowTimes) -> Appended
    ensures { OnOk result ((ds es : List ℕ) → AreDelays ds times.now.delays
        → AreDelays es times.now.round_trips → length ds < 2 ^ 64 → length es < 2 ^ 64
        → SaysMeasures flow.now times.now ds es row_values text.old.items text.new.items) }
{
    let values = measures_of(alloc, flow, times)?;
    push_values(text, values.as_slice())
}

/// Appends all that was measured of a source.
fn push_measures(
    alloc: Global,
    text: &mut Vec<u8>,
    measured: &Measured,
    number: SourceNo,
) -> Appended
    ensures { (t : TopologyValue) (until : ℕ) (m : IsMeasuredBefore t until measured.now)
        → number < length t.sources → OnOk result ((values : List ℕ)
        × HasMeasures t m.events number values
        × (text.new.items ≡ text.old.items ++ row_values values)) }
{
    measured.events(); // law: no more than 2^62
    match measured.times(number) {
        Some(times) => push_counted(alloc, text, &flow_of(measured, number), times),
        None => Ok(()),
    }
}

/// The names of the columns, and a row for each source, in the order of the topology's text.
///
/// # Errors
///
/// If memory was refused.
pub fn rows_text(alloc: Global, topology: &Topology, measured: &Measured) -> MadeText
    ensures lines { IfOk result (λ text. EndsLine text.items) }
    ensures rows { (until : ℕ) (m : IsMeasuredBefore topology.now until measured.now)
        → IfOk result (λ text. AreRows topology.now m.events (length topology.now.sources)
        text.items) }
{
    accepted_topologies_are_in_order(topology); // law: the node of a source is there
    let mut text = Vec::new(alloc);
    push_head(&mut text)?;
    for number in 0..topology.sources().len() {
        let place = topology.source_number(number);
        push_source(&mut text, topology, source_at(topology, number), place)?;
        push_measures(alloc, &mut text, measured, place)?;
        end_row(&mut text)?;
    }
    Ok(text)
}
