//! The words `one`, `onehex`, `sent` and `received`: the trace file of one interface.

ghost use Rattle.std.specs.Prelude.{◌≡◌, ◌<◌, IfErr, IfOk, IfSome, Some};
ghost use Rattle.std.specs.Prelude.{length, option_map, position};
ghost use Rattle.std.specs.Str.{bytes_eq};
ghost use Rattle.nm_offline.specs.Input.{HasTopology, inputs_seen};
ghost use Rattle.nm_offline.specs.Output.{FailsOfInput, exchange};
ghost use Rattle.nm_offline.specs.Traces.{EndsTrace, HasNoIface, iface_named, outcome_status};
ghost use Rattle.nm_offline.specs.Traces.{trace_asked};

use crate::input::NamedInputs;
use crate::inputs::Inputs;
use crate::reading::read_topology;
use crate::trace_file::{Traced, write_trace_file};
use nm_base::{IfaceNo, Sink};
use nm_command::{Status, TraceArguments};
use nm_files::trace_file::TraceFault;
use nm_progress::Progress;
use nm_sim::trace::every_topology_has_a_trace;
use nm_topology::Topology;
use nm_topology::parts::Iface;
use std::alloc::Global;

/// Writes the trace file of an interface in a form, with the packets in these directions: of the
/// interface that has this name, or of interface 0 without a name.
pub fn write_trace<I: Inputs, O: Sink + Drop>(
    alloc: Global,
    words: &TraceArguments<'_>,
    inputs: &mut NamedInputs<I>,
    out: O,
    progress: &Progress,
) -> (Status, O)
    ensures { EndsTrace (exchange I.seen O.seen inputs.old out)
        (exchange I.seen O.seen inputs.new result.1) (trace_asked words.now) result.0 }
{
    match read_iface(alloc, inputs, words.topology, words.iface) {
        Ok((network, iface)) => {
            every_topology_has_a_trace(&network); // law: there is an answer, written or not
            progress.begin(network.stop());
            let traced = Traced {
                iface,
                ways: words.ways,
            };
            let (outcome, out) = write_trace_file(
                alloc, &network, words.form, &traced, out, progress,
            );
            (status_of(outcome), out)
        }
        Err(status) => (status, out),
    }
}

/// The topology in the input of a name, and its interface of a name, or interface 0 without a name.
pub(crate) fn read_iface<I: Inputs>(
    alloc: Global,
    inputs: &mut NamedInputs<I>,
    topology: &str,
    name: Option<&str>,
) -> Result<(Topology, IfaceNo), Status>
    ensures there { IfOk result (λ there. HasTopology (inputs_seen I.seen inputs.old)
        topology.now there.0
        × (iface_named there.0.ifaces (option_map (λ n. n.now) name.entry) ≡ Some there.1)) }
    ensures fault { IfErr result (λ status. FailsOfInput
        (inputs_seen I.seen inputs.old) (inputs_seen I.seen inputs.new) topology.now
        (HasNoIface (option_map (λ n. n.now) name.entry)) status) }
{
    let network = read_topology(alloc, inputs, topology)?;
    let iface = find_iface(&network, name).ok_or(Status::NoInterface)?;
    Ok((network, iface))
}

/// The status of a command whose trace file was written, or was not.
fn status_of(outcome: Result<(), TraceFault>) -> Status
    ensures { result ≡ outcome_status outcome }
{
    match outcome {
        Ok(()) => Status::Done,
        Err(TraceFault::Refused(_)) => Status::File,
        Err(TraceFault::Memory) => Status::Memory,
    }
}

/// The interface of this name, or interface 0 without a name.
fn find_iface(topology: &Topology, name: Option<&str>) -> Option<IfaceNo>
    ensures { result ≡ iface_named topology.now.ifaces (option_map (λ n. n.now) name.entry) }
{
    match name {
        Some(name) => named_iface(topology, name),
        None if topology.ifaces().is_empty() => None,
        None => Some(IfaceNo::new(0)),
    }
}

/// The interface of this name.
pub(crate) fn named_iface(topology: &Topology, name: &str) -> Option<IfaceNo>
    ensures { result ≡ position (λ i. bytes_eq i.name name.now) topology.now.ifaces }
{
    let index = index_of(topology.ifaces(), name)?;
    Some(topology.iface_number(index))
}

/// The index of an interface of this name.
fn index_of(ifaces: &[Iface], name: &str) -> Option<usize>
    ensures value { result ≡ position (λ i. bytes_eq i.name name.now) ifaces.now }
    ensures within { IfSome result (λ n. n < length ifaces.now) }
{
    ifaces.iter().position(|iface| iface.name() == name)
}
