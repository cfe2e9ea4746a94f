//! The word `check`: where a topology is at fault, or what it has.

ghost use Rattle.std.specs.Prelude.{◌≡◌, IfErr, IfOk};
ghost use Rattle.nm_command.specs.declared.status.Status.TheVariants.{Memory};
ghost use Rattle.nm_offline.specs.Check.{EndsCheck, SaysOf};
ghost use Rattle.nm_offline.specs.Input.{IsUnread, inputs_seen};
ghost use Rattle.nm_offline.specs.Output.{SaysOfInput, exchange};

use crate::input::NamedInputs;
use crate::inputs::Inputs;
use crate::output::{Output, end};
use crate::reading::read_text;
use nm_base::Sink;
use nm_check::{explain, least_lookahead, summary};
use nm_command::Status;
use nm_paths::way_remarks;
use nm_topology::{TopoFault, Topology};
use std::alloc::{AllocError, Global};

/// What an accepted topology has, and remarks on where its packets go.
fn overview(alloc: Global, network: &Topology) -> Result<Vec<u8>, AllocError> {
    let mut text = summary(alloc, network)?;
    let ways = way_remarks(alloc, network, least_lookahead(network))?;
    text.extend_from_slice(&ways)?;
    Ok(text)
}

/// What to print of a topology text: what it has, or where its first fault is.
fn check_output(alloc: Global, text: &[u8]) -> Result<Output, Status>
    ensures said { IfOk result (λ output. SaysOf text.now output.status output.text.items) }
    ensures fault { IfErr result (λ status. status ≡ Memory) }
{
    match Topology::read(alloc, text) {
        Ok(network) => Output::of(overview(alloc, &network), Status::Done),
        Err(TopoFault::Refused(refusal)) => {
            Output::of(explain(alloc, text, refusal), Status::Topology(refusal))
        }
        Err(TopoFault::Memory) => Err(Status::Memory),
    }
}

/// Where a topology is at fault, or what it has.
fn check_said<I: Inputs>(
    alloc: Global,
    topology: &str,
    inputs: &mut NamedInputs<I>,
) -> Result<Output, Status>
    ensures said { IfOk result (λ output. SaysOfInput (inputs_seen I.seen inputs.old)
        topology.now
        SaysOf output.status output.text.items) }
    ensures fault { IfErr result (λ status. IsUnread
        (inputs_seen I.seen inputs.old) (inputs_seen I.seen inputs.new) topology.now status) }
{
    let text = read_text(alloc, inputs, topology)?;
    check_output(alloc, text.as_slice())
}

/// Prints where a topology is at fault, or what it has.
pub fn say_check<I: Inputs, O: Sink + Drop>(
    alloc: Global,
    topology: &str,
    inputs: &mut NamedInputs<I>,
    out: O,
) -> (Status, O)
    ensures { EndsCheck (exchange I.seen O.seen inputs.old out)
        (exchange I.seen O.seen inputs.new result.1)
        topology.entry.now result.0 }
{
    end(check_said(alloc, topology, inputs), out)
}
