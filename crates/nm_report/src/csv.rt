//! The measures of a run as comma-separated values for a program (RFC 4180), in one table.

ghost use Rattle.std.specs.Prelude.{◌≡◌, ℕ, ◌<◌, ◌≤◌, ◌^◌, ◌++◌, IfOk, List, OnOk, Some, codes};
ghost use Rattle.std.specs.Prelude.{decimal};
ghost use Rattle.std.specs.Prelude.{length, slice_get, slice_index, take};
ghost use Rattle.nm_model.specs.Run.{one_list};
ghost use Rattle.nm_forward.specs.Counter.{counter_number};
ghost use Rattle.nm_topology.specs.TopologyValue.{TopologyValue};
ghost use Rattle.nm_sim.specs.Network.{net_of};
ghost use Rattle.nm_measure.specs.Delays.{AreDelays};
ghost use Rattle.nm_measure.specs.Lines.{EndsLine};
ghost use Rattle.nm_measure.specs.Measured.{IsMeasuredBefore};
ghost use Rattle.nm_report.specs.Sources.{SaysMeasures, measure_count, measure_names, source_lines};
ghost use Rattle.nm_report.specs.Csv.{HaveValues};
ghost use Rattle.nm_report.specs.Sources.{AreLinesOf, AreSourceLines};
ghost use Rattle.nm_report.specs.Values.{AreWholeLines, all_counts, all_values, head};
ghost use Rattle.nm_report.specs.Values.{iface_line, iface_values, node_counts, traffic_lines};
ghost use Rattle.nm_report.specs.Values.{use_lines, value_line};

use crate::iface_table::traffic_at;
use crate::measures::{NAMES, ONE_WAY, measures_of};
use crate::source_lines::push_lines;
use crate::source_tables::flow_of;
use nm_base::{IfaceNo, NodeNo, SourceNo, push_number, push_text};
use nm_forward::Counter;
use nm_measure::{Appended, FlowCounts, FlowTimes, MadeText, Measured};
use nm_sim::IfaceTraffic;
use nm_topology::Topology;
use nm_topology::traffic::{Source, Traffic};
use std::alloc::Global;

/// Appends a line feed behind a value.
fn end_value(text: &mut Vec<u8>) -> Appended
    ensures is { OnOk result (text.new.items ≡ text.old.items ++ codes "\n") }
    ensures ends { OnOk result (EndsLine text.new.items) }
{
    push_text(text, b"\n")
}

/// Appends a value: the kind and the name of what has it, and which measure it is. No name needs
/// quotes.
pub(crate) fn push_line(
    text: &mut Vec<u8>,
    kind: &[u8],
    name: &[u8],
    measure: &[u8],
    value: u64,
) -> Appended
    ensures is { OnOk result (text.new.items
        ≡ text.old.items ++ value_line kind.now name.now measure.now value) }
    ensures ends { OnOk result (EndsLine text.new.items) }
{
    push_text(text, kind)?;
    push_text(text, b",")?;
    push_text(text, name)?;
    push_text(text, b",")?;
    push_text(text, measure)?;
    push_text(text, b",")?;
    push_number(text, value)?;
    end_value(text)
}

/// The counter in this place.
fn counter_at(counters: &[Counter], place: usize) -> Counter
    requires { place < length counters.now }
    ensures { slice_get counters.now place ≡ Some result }
{
    counters[place]
}

/// How often a node counted.
fn count_of(measured: &Measured, node: NodeNo, counter: Counter) -> u64
    ensures { (t : TopologyValue) (until : ℕ) (m : IsMeasuredBefore t until measured.now)
        → node < length t.nodes → result ≡ slice_index
        ((one_list (net_of t) m.events).node node).counters (counter_number counter) }
{
    measured.counter(node, counter).unwrap_or(0)
}

/// Appends these counters of a node, also those that are 0.
fn push_node(
    text: &mut Vec<u8>,
    measured: &Measured,
    name: &str,
    node: NodeNo,
    counters: &[Counter],
) -> Appended
    requires { EndsLine text.old.items }
    ensures is { (t : TopologyValue) (until : ℕ) (m : IsMeasuredBefore t until measured.now)
        → node < length t.nodes → OnOk result (text.new.items
        ≡ text.old.items ++ node_counts t m.events node name.now counters.now) }
    ensures ends { OnOk result (EndsLine text.new.items) }
{
    for place in 0..counters.len() {
        let counter = counter_at(counters, place);
        push_line(
            text,
            b"node",
            name.as_bytes(),
            counter.name().as_bytes(),
            count_of(measured, node, counter),
        )?;
    }
    Ok(())
}

/// The names of the columns, and the values of all nodes, in the order of the topology's text.
fn nodes_text(alloc: Global, topology: &Topology, measured: &Measured) -> MadeText
    ensures is { (until : ℕ) (m : IsMeasuredBefore topology.now until measured.now)
        → IfOk result (λ text. text.items
        ≡ head ++ all_counts topology.now m.events 0 topology.now.nodes) }
    ensures ends { IfOk result (λ text. EndsLine text.items) }
{
    let mut text = Vec::new(alloc);
    push_text(&mut text, b"kind,name,measure,value\n")?;
    for number in 0..topology.nodes().len() {
        let node = topology.node_number(number);
        let name = topology.node(node).name();
        push_node(&mut text, measured, name, node, &Counter::ALL)?;
    }
    Ok(text)
}

/// Appends a value of an interface.
fn push_value(text: &mut Vec<u8>, name: &str, measure: &[u8], value: u64) -> Appended
    ensures is { OnOk result (text.new.items
        ≡ text.old.items ++ iface_line name.now measure.now value) }
    ensures ends { OnOk result (EndsLine text.new.items) }
{
    push_line(text, b"interface", name.as_bytes(), measure, value)
}

/// Appends how much came to an interface and went from it.
fn push_traffic(text: &mut Vec<u8>, name: &str, traffic: &IfaceTraffic) -> Appended
    ensures { OnOk result (text.new.items
        ≡ text.old.items ++ traffic_lines name.now traffic.now) }
{
    push_value(text, name, b"packets_in", traffic.came.packets)?;
    push_value(text, name, b"octets_in", traffic.came.octets)?;
    push_value(text, name, b"packets_out", traffic.went.packets)?;
    push_value(text, name, b"octets_out", traffic.went.octets)
}

/// Appends how many packets an interface dropped, how many waited there at most, and for how many
/// nanoseconds it transmitted.
fn push_use(text: &mut Vec<u8>, name: &str, dropped: u64, longest: u64, busy: u64) -> Appended
    ensures is { OnOk result (text.new.items
        ≡ text.old.items ++ use_lines name.now dropped longest busy) }
    ensures ends { OnOk result (EndsLine text.new.items) }
{
    push_value(text, name, b"dropped", dropped)?;
    push_value(text, name, b"longest_queue", longest)?;
    push_value(text, name, b"busy_nanoseconds", busy)
}

/// Appends the values of an interface.
fn push_iface(text: &mut Vec<u8>, measured: &Measured, name: &str, iface: IfaceNo) -> Appended
    ensures is { (t : TopologyValue) (until : ℕ) (m : IsMeasuredBefore t until measured.now)
        → iface < length t.ifaces → OnOk result (text.new.items
        ≡ text.old.items ++ iface_values t m.events iface name.now) }
    ensures ends { OnOk result (EndsLine text.new.items) }
{
    let traffic = traffic_at(measured, iface);
    push_traffic(text, name, &traffic)?;
    push_use(
        text,
        name,
        measured.dropped(iface).unwrap_or(0),
        measured.longest_queue(iface),
        measured.busy(iface),
    )
}

/// The values of all interfaces, in the order of the topology's text.
fn ifaces_text(alloc: Global, topology: &Topology, measured: &Measured) -> MadeText
    ensures is { (until : ℕ) (m : IsMeasuredBefore topology.now until measured.now)
        → IfOk result (λ text. text.items
        ≡ all_values topology.now m.events 0 topology.now.ifaces) }
    ensures ends { IfOk result (λ text. AreWholeLines text.items) }
{
    let mut text = Vec::new(alloc);
    for number in 0..topology.ifaces().len() {
        let iface = topology.iface_number(number);
        push_iface(&mut text, measured, topology.iface(iface).name(), iface)?;
    }
    Ok(text)
}

/// How many measures of a source have lines: those of replies are left out of one that has none.
fn measures(source: &Source) -> usize
    ensures is { result ≡ measure_count source.now.traffic }
    ensures most { result ≤ 28 }
{
    match &source.traffic {
        Traffic::Cbr(_) => ONE_WAY,
        Traffic::Echo(_) | Traffic::Raw(_) => NAMES.len(),
    }
}

/// Appends the values of a source, whose name is its number, by what was counted of it.
fn push_counted(
    alloc: Global,
    text: &mut Vec<u8>,
    source: &Source,
    number: SourceNo,
    flow: &FlowCounts,
    times: &FlowTimes,
) -> Appended
    requires { AreWholeLines text.old.items }
    ensures lines { OnOk result (AreWholeLines text.new.items) }
    ensures values { OnOk result ((ds es : List ℕ) → AreDelays ds times.now.delays
        → AreDelays es times.now.round_trips → length ds < 2 ^ 64 → length es < 2 ^ 64
        → SaysMeasures flow.now times.now ds es
        (source_lines (decimal number) (take (measure_count source.now.traffic) measure_names))
        text.old.items text.new.items) }
{
    let mut name = Vec::new(alloc);
    push_number(&mut name, number.index() as u64)?;
    let values = measures_of(alloc, flow, times)?;
    push_lines(text, name.as_slice(), values.as_slice(), measures(source))
}

/// Appends the values of a source.
fn push_source(
    alloc: Global,
    text: &mut Vec<u8>,
    measured: &Measured,
    source: &Source,
    number: SourceNo,
) -> Appended
    requires { AreWholeLines text.old.items }
    ensures lines { OnOk result (AreWholeLines text.new.items) }
    ensures values { (t : TopologyValue) (until : ℕ) (m : IsMeasuredBefore t until measured.now)
        → number < length t.sources → OnOk result ((last : List ℕ)
        × AreLinesOf t m.events number source.now last
        × (text.new.items ≡ text.old.items ++ last)) }
{
    measured.events(); // law: no more than 2^62
    match measured.times(number) {
        Some(times) => {
            push_counted(
                alloc,
                text,
                source,
                number,
                &flow_of(measured, number),
                times,
            )
        }
        None => Ok(()),
    }
}

/// The source with this number.
pub(crate) fn source_at(topology: &Topology, number: usize) -> &Source
    requires { number < length topology.now.sources }
    ensures { slice_get topology.now.sources number ≡ Some result.now }
{
    &topology.sources()[number]
}

/// The values of all sources, in the order of the topology's text.
fn sources_text(alloc: Global, topology: &Topology, measured: &Measured) -> MadeText
    ensures is { (until : ℕ) (m : IsMeasuredBefore topology.now until measured.now)
        → IfOk result (λ text. AreSourceLines topology.now m.events (length topology.now.sources)
        text.items) }
    ensures ends { IfOk result (λ text. AreWholeLines text.items) }
{
    let mut text = Vec::new(alloc);
    for number in 0..topology.sources().len() {
        push_source(
            alloc,
            &mut text,
            measured,
            source_at(topology, number),
            topology.source_number(number),
        )?;
    }
    Ok(text)
}

/// A line for each value: its owner's kind and name, the measure, and the value. A source's name is
/// its number.
///
/// # Errors
///
/// If memory was refused.
pub fn csv_text(alloc: Global, topology: &Topology, measured: &Measured) -> MadeText
    ensures lines { IfOk result (λ text. EndsLine text.items) }
    ensures values { (until : ℕ) (m : IsMeasuredBefore topology.now until measured.now)
        → IfOk result (λ text. HaveValues topology.now m.events text.items) }
{
    let ifaces = ifaces_text(alloc, topology, measured)?;
    let sources = sources_text(alloc, topology, measured)?;
    let mut text = nodes_text(alloc, topology, measured)?;
    push_text(&mut text, ifaces.as_slice())?;
    push_text(&mut text, sources.as_slice())?;
    Ok(text)
}
