//! The word `rounds`: all partitions in rounds.

ghost use Rattle.std.specs.Prelude.{◌≡◌, ℕ, ◌≤◌, ◌++◌, List, IfErr, IfOk, Ok, codes, decimal};
ghost use Rattle.std.specs.Arc.{arc_value};
ghost use Rattle.nm_base.specs.declared.limits.TheConstants.{MAX_ROUNDS};
ghost use Rattle.nm_command.specs.declared.status.Status.TheVariants.{Memory};
ghost use Rattle.nm_topology.specs.Topology.{topology_of};
ghost use Rattle.nm_offline.specs.Input.{IsRefused, inputs_seen};
ghost use Rattle.nm_offline.specs.Lines.{AreOfPartitions, AreTotals, iface_lines};
ghost use Rattle.nm_offline.specs.Output.{FailsOfInput, SaysOfInput, exchange};
ghost use Rattle.nm_offline.specs.Rounds.{EndsRounds, SaysRounds};

use crate::input::NamedInputs;
use crate::inputs::Inputs;
use crate::lines::push_lines;
use crate::output::{Output, end};
use crate::reading::read_shared;
use nm_base::{Packet, Sink, push_number, push_text};
use nm_book::Book;
use nm_command::Status;
use nm_forward::NodeState;
use nm_model::trace::interfaces_have_their_records;
use nm_progress::Progress;
use nm_rounds::rounds::{Rounds, run_rounds_over};
use nm_sim::trace::every_topology_has_a_trace;
use nm_topology::Topology;
use std::alloc::{AllocError, Global};
use std::sync::Arc;

/// A word with a number, and then the lines of all interfaces.
fn rounds_text(
    alloc: Global,
    word: &[u8],
    number: u64,
    topology: &Topology,
    books: &[Book],
) -> Result<Vec<u8>, AllocError>
    requires books { AreOfPartitions topology.now books.now }
    ensures { IfOk result (λ text. (totals : ℕ → ℕ × ℕ)
        → AreTotals topology.now books.now totals → text.items
        ≡ word.now ++ codes " " ++ decimal number ++ codes "\n"
        ++ iface_lines totals topology.now) }
{
    let mut text = Vec::new(alloc);
    push_text(&mut text, word)?;
    push_text(&mut text, b" ")?;
    push_number(&mut text, number)?;
    push_text(&mut text, b"\n")?;
    push_lines(&mut text, topology, books)?;
    Ok(text)
}

/// Runs all partitions in rounds, and makes the output.
fn rounds_output(
    alloc: Global,
    topology: &Arc<Topology>,
    max: u64,
    progress: &Progress,
) -> Result<Output, Status>
    requires some { 1 ≤ max }
    requires few { max ≤ MAX_ROUNDS }
    ensures said { IfOk result (λ output. (text : List ℕ)
        → topology_of text ≡ Ok (arc_value topology.now)
        → SaysRounds max text output.status output.text.items) }
    ensures fault { IfErr result (λ status. status ≡ Memory) }
{
    every_topology_has_a_trace(topology); // law: there is a trace of the whole run
    interfaces_have_their_records::<Packet, NodeState>(); // law: they are in their partition's too
    match run_rounds_over(alloc, topology, max, progress) {
        Ok(Rounds::Done { rounds, books }) => Output::of(
            rounds_text(alloc, b"done", rounds, topology, books.as_slice()),
            Status::Done,
        ),
        Ok(Rounds::Unfinished { rounds, books }) => Output::of(
            rounds_text(alloc, b"unfinished", rounds, topology, books.as_slice()),
            Status::Stalled,
        ),
        Err(_) => Err(Status::Memory),
    }
}

/// What all partitions come to in at most so many rounds.
fn rounds_said<I: Inputs>(
    alloc: Global,
    topology: &str,
    max: u64,
    inputs: &mut NamedInputs<I>,
    progress: &Progress,
) -> Result<Output, Status>
    requires some { 1 ≤ max }
    requires few { max ≤ MAX_ROUNDS }
    ensures said { IfOk result (λ output. SaysOfInput (inputs_seen I.seen inputs.old)
        topology.now
        (SaysRounds max) output.status output.text.items) }
    ensures fault { IfErr result (λ status. FailsOfInput
        (inputs_seen I.seen inputs.old) (inputs_seen I.seen inputs.new)
        topology.now IsRefused status) }
{
    let network = read_shared(alloc, inputs, topology)?;
    progress.begin(network.stop());
    rounds_output(alloc, &network, max, progress)
}

/// Runs all partitions in at most so many rounds, and prints the result: whether all was done, in
/// how many rounds, and how many records each interface has.
pub fn say_rounds<I: Inputs, O: Sink + Drop>(
    alloc: Global,
    topology: &str,
    max: u64,
    inputs: &mut NamedInputs<I>,
    out: O,
    progress: &Progress,
) -> (Status, O)
    requires some { 1 ≤ max }
    requires few { max ≤ MAX_ROUNDS }
    ensures { EndsRounds (exchange I.seen O.seen inputs.old out)
        (exchange I.seen O.seen inputs.new result.1)
        topology.entry.now max result.0 }
{
    end(rounds_said(alloc, topology, max, inputs, progress), out)
}
