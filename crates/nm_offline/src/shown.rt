//! The words `report`, `dot` and `text`: a run or a network in words and pictures.

ghost use Rattle.std.specs.Prelude.{IfErr, IfOk, OnOk};
ghost use Rattle.nm_offline.specs.Input.{IsRefused, inputs_seen};
ghost use Rattle.nm_offline.specs.Output.{FailsOfInput, SaysOfInput, exchange};
ghost use Rattle.nm_offline.specs.Shown.{ArePacketLines, EndsShown, EndsText, SaysShown};
ghost use Rattle.nm_offline.specs.Shown.{SaysText, ShowsView};
ghost use Rattle.nm_offline.specs.Traces.{HasNoIface};
ghost use Rattle.nm_measure.specs.Lines.{EndsLine};

use crate::input::NamedInputs;
use crate::inputs::Inputs;
use crate::output::{Output, end};
use crate::reading::read_topology;
use crate::traces::read_iface;
use nm_base::{IfaceNo, Record, Sink, Wanted};
use nm_command::{Status, View};
use nm_measure::measure;
use nm_progress::Progress;
use nm_report::{csv_text, dot_text, load_text, push_packet_line, report_text, rows_text};
use nm_series::delays_text;
use nm_sim::Tracer;
use nm_topology::Topology;
use std::alloc::{AllocError, Global};

/// A view of a network.
fn view_text(
    alloc: Global,
    network: &Topology,
    view: View,
    progress: &Progress,
) -> Result<Vec<u8>, AllocError>
    ensures lines { IfOk result (λ text. EndsLine text.items) }
    ensures shows { IfOk result (λ text. ShowsView view network.now text.items) }
{
    if let View::Graph = view {
        return dot_text(alloc, network);
    }
    progress.begin(network.stop());
    let measured = measure(alloc, network, progress)?;
    match view {
        View::Tables => report_text(alloc, network, &measured),
        View::Values => csv_text(alloc, network, &measured),
        View::Rows => rows_text(alloc, network, &measured),
        View::Delays => delays_text(alloc, network, &measured),
        View::Graph | View::Load => load_text(alloc, network, &measured),
    }
}

/// A view of the network of an input.
fn view_said<I: Inputs>(
    alloc: Global,
    topology: &str,
    view: View,
    inputs: &mut NamedInputs<I>,
    progress: &Progress,
) -> Result<Output, Status>
    ensures said { IfOk result (λ output. SaysOfInput (inputs_seen I.seen inputs.old)
        topology.now
        (SaysShown view) output.status output.text.items) }
    ensures fault { IfErr result (λ status. FailsOfInput
        (inputs_seen I.seen inputs.old) (inputs_seen I.seen inputs.new)
        topology.now IsRefused status) }
{
    let network = read_topology(alloc, inputs, topology)?;
    Output::of(view_text(alloc, &network, view, progress), Status::Done)
}

/// Prints a view of a network.
pub fn say_view<I: Inputs, O: Sink + Drop>(
    alloc: Global,
    topology: &str,
    view: View,
    inputs: &mut NamedInputs<I>,
    out: O,
    progress: &Progress,
) -> (Status, O)
    ensures { EndsShown (exchange I.seen O.seen inputs.old out)
        (exchange I.seen O.seen inputs.new result.1)
        view topology.entry.now result.0 }
{
    end(view_said(alloc, topology, view, inputs, progress), out)
}

/// Appends the lines of the records at the interface, in order.
fn push_at(iface: IfaceNo, records: &[Record], text: &mut Vec<u8>) -> Result<(), AllocError>
    requires { ArePacketLines text.old.items }
    ensures { OnOk result (ArePacketLines text.new.items) }
{
    for record in records {
        if record.iface == iface {
            push_packet_line(text, record)?;
        }
    }
    Ok(())
}

/// The packets that passed an interface, a line each, in the order of the one event list.
fn packets_text(alloc: Global, network: &Topology, iface: IfaceNo) -> Result<Vec<u8>, AllocError>
    ensures { IfOk result (λ text. ArePacketLines text.items) }
{
    let mut text = Vec::new(alloc);
    let mut tracer = Tracer::start_with(alloc, network, Wanted::One(iface))?;
    for _ in 0..u64::MAX {
        if !tracer.go_on(alloc, network)? {
            return Ok(text);
        }
        push_at(iface, tracer.trace(), &mut text)?;
    }
    Err(AllocError)
}

/// The packets that passed the interface of this name.
fn text_said<I: Inputs>(
    alloc: Global,
    topology: &str,
    iface: &str,
    inputs: &mut NamedInputs<I>,
) -> Result<Output, Status>
    ensures said { IfOk result (λ output. SaysOfInput (inputs_seen I.seen inputs.old)
        topology.now
        (SaysText iface.now) output.status output.text.items) }
    ensures fault { IfErr result (λ status. FailsOfInput
        (inputs_seen I.seen inputs.old) (inputs_seen I.seen inputs.new)
        topology.now (HasNoIface (Some iface.now)) status) }
{
    let (network, iface) = read_iface(alloc, inputs, topology, Some(iface))?;
    Output::of(packets_text(alloc, &network, iface), Status::Done)
}

/// Prints the packets that passed the interface of this name.
pub fn say_text<I: Inputs, O: Sink + Drop>(
    alloc: Global,
    topology: &str,
    iface: &str,
    inputs: &mut NamedInputs<I>,
    out: O,
) -> (Status, O)
    ensures { EndsText (exchange I.seen O.seen inputs.old out)
        (exchange I.seen O.seen inputs.new result.1)
        topology.entry.now iface.entry.now result.0 }
{
    end(text_said(alloc, topology, iface, inputs), out)
}
