//! The word `packets`: the ways of the packets of a source.

ghost use Rattle.std.specs.Prelude.{IfErr, IfOk};
ghost use Rattle.nm_offline.specs.Input.{inputs_seen};
ghost use Rattle.nm_offline.specs.Output.{FailsOfInput, SaysOfInput, exchange};
ghost use Rattle.nm_offline.specs.Packets.{EndsPackets, HasNoSource, SaysPackets};

use crate::input::NamedInputs;
use crate::inputs::Inputs;
use crate::output::{Output, end};
use crate::reading::read_topology;
use nm_base::Sink;
use nm_command::{PacketsArguments, Status};
use nm_progress::Progress;
use nm_series::packets_text;
use std::alloc::Global;

/// The ways of the packets of a source.
fn packets_said<I: Inputs>(
    alloc: Global,
    words: &PacketsArguments<'_>,
    inputs: &mut NamedInputs<I>,
    progress: &Progress,
) -> Result<Output, Status>
    ensures said { IfOk result (λ output. SaysOfInput (inputs_seen I.seen inputs.old)
        words.now.topology.now
        (SaysPackets words.now.source) output.status output.text.items) }
    ensures fault { IfErr result (λ status. FailsOfInput
        (inputs_seen I.seen inputs.old) (inputs_seen I.seen inputs.new)
        words.now.topology.now (HasNoSource words.now.source) status) }
{
    let network = read_topology(alloc, inputs, words.topology)?;
    if words.source.index() >= network.sources().len() {
        return Err(Status::Usage);
    }
    progress.begin(network.stop());
    Output::of(
        packets_text(alloc, &network, words.source, progress),
        Status::Done,
    )
}

/// Prints the ways of the packets of a source.
pub fn say_packets<I: Inputs, O: Sink + Drop>(
    alloc: Global,
    words: &PacketsArguments<'_>,
    inputs: &mut NamedInputs<I>,
    out: O,
    progress: &Progress,
) -> (Status, O)
    ensures { EndsPackets (exchange I.seen O.seen inputs.old out)
        (exchange I.seen O.seen inputs.new result.1)
        words.now.topology.now words.now.source result.0 }
{
    end(packets_said(alloc, words, inputs, progress), out)
}
