//! The word `series`: what interfaces or sources do over time, written step by step.

ghost use Rattle.std.specs.Prelude.{◌≡◌, ◌*◌, ◌≤◌, ◌<◌, IfErr, IfOk, OnOk, Ok, length};
ghost use Rattle.nm_base.specs.Sink.{WroteAll, WrotePrefix};
ghost use Rattle.nm_base.specs.declared.limits.TheConstants.{MAX_IFACES, MAX_TIME};
ghost use Rattle.nm_command.specs.Status.{ended};
ghost use Rattle.nm_command.specs.declared.status.Status.TheVariants.{File};
ghost use Rattle.nm_series.specs.Series.{IsSeries};
ghost use Rattle.nm_series.specs.Steps.{steps_in};
ghost use Rattle.nm_series.specs.declared.steps.TheConstants.{MAX_ROWS};
ghost use Rattle.nm_offline.specs.Input.{HasTopology, inputs_seen};
ghost use Rattle.nm_offline.specs.Output.{FailsOfInput, exchange, output_seen};
ghost use Rattle.nm_offline.specs.Series.{EndsSeries, HasFewRows, HasManyRows, TellsOf};
ghost use Rattle.nm_offline.specs.Series.{WritesSteps, columns_of, rows_in};

use crate::input::NamedInputs;
use crate::inputs::Inputs;
use crate::reading::read_topology;
use nm_base::Sink;
use nm_base::sink::write_all;
use nm_command::{SeriesArguments, Status, Subject};
use nm_measure::{FlowTotals, IfaceTotals};
use nm_progress::Progress;
use nm_series::steps::{MAX_ROWS, steps_in};
use nm_series::{Series, Totals};
use nm_topology::Topology;
use nm_topology::topology::accepted_topologies_are_in_order;
use std::alloc::Global;

/// The names of the columns.
fn columns_of(subject: Subject) -> &'static [u8]
    ensures { result.now ≡ columns_of subject }
{
    match subject {
        Subject::Interfaces => {
            b"from_nanoseconds,interface,packets_in,octets_in,packets_out,octets_out,dropped,\
longest_queue,mean_queue_thousandths,longest_queue_octets,mean_queue_octets,busy_thousandths\n"
        }
        Subject::Sources => {
            b"from_nanoseconds,source,sent,delivered,lost,octets,mean_delay_nanoseconds,\
greatest_delay_nanoseconds,jitter_nanoseconds\n"
        }
    }
}

/// How many rows a step has.
fn rows_in(topology: &Topology, subject: Subject) -> usize
    ensures rows { result ≡ rows_in subject topology.now }
    ensures few { result ≤ MAX_IFACES }
{
    accepted_topologies_are_in_order(topology); // law: there are few interfaces and sources
    match subject {
        Subject::Interfaces => topology.ifaces().len(),
        Subject::Sources => topology.sources().len(),
    }
}

/// How many rows a series has.
fn rows_of(topology: &Topology, step: u64, subject: Subject) -> u64
    requires some { 1 ≤ step }
    requires short { step ≤ MAX_TIME }
    ensures { result ≡ steps_in step topology.now.stop * rows_in subject topology.now }
{
    accepted_topologies_are_in_order(topology); // law: `stop` is within its limit
    steps_in(topology, step) * rows_in(topology, subject) as u64
}

/// Gives a sink octets.
fn put<S: Sink>(sink: &mut S, octets: &[u8]) -> Result<(), Status>
    ensures whole { OnOk result (WroteAll (S.seen sink.old) (S.seen sink.new) octets.now) }
    ensures cut { IfErr result (λ status. (status ≡ File)
        × WrotePrefix (S.seen sink.old) (S.seen sink.new) octets.now) }
{
    match write_all(sink, octets) {
        Ok(()) => Ok(()),
        Err(_) => Err(Status::File),
    }
}

/// Writes the steps of a series from its begin.
fn write_from_begin<T: Totals, S: Sink>(
    alloc: Global,
    topology: &Topology,
    subject: Subject,
    series: &mut Series<T>,
    sink: &mut S,
    progress: &Progress,
) -> Result<(), Status>
    requires tells { TellsOf T.are_rows subject topology.now }
    requires series { IsSeries T.had topology.now series.old }
    requires begin { series.old.time ≡ 0 }
    ensures { WritesSteps (output_seen S.seen sink.old) (output_seen S.seen sink.new)
        subject series.old.step topology.now (ended result) }
{
    put(sink, columns_of(subject))?;
    for _ in 0..u64::MAX {
        let Some(text) = series.next(alloc, topology, progress)? else {
            return Ok(());
        };
        put(sink, text.as_slice())?;
    }
    Err(Status::Memory)
}

/// Writes the rows of interfaces or of sources, step by step.
fn write_all_steps<T: Totals, S: Sink>(
    alloc: Global,
    topology: &Topology,
    subject: Subject,
    step: u64,
    sink: &mut S,
    progress: &Progress,
) -> Result<(), Status>
    requires { TellsOf T.are_rows subject topology.now }
    ensures { WritesSteps (output_seen S.seen sink.old) (output_seen S.seen sink.new) subject step
        topology.now (ended result) }
{
    let mut series = Series::<T>::begin(alloc, topology, step)?;
    write_from_begin(alloc, topology, subject, &mut series, sink, progress)
}

/// Writes a series, step by step.
fn write_steps<S: Sink>(
    alloc: Global,
    topology: &Topology,
    words: &SeriesArguments<'_>,
    sink: &mut S,
    progress: &Progress,
) -> Result<(), Status>
    ensures { WritesSteps (output_seen S.seen sink.old) (output_seen S.seen sink.new)
        words.now.subject words.now.step topology.now (ended result) }
{
    let (subject, step) = (words.subject, words.step);
    match subject {
        Subject::Interfaces => write_all_steps::<IfaceTotals, S>(
            alloc, topology, subject, step, sink, progress,
        ),
        Subject::Sources => write_all_steps::<FlowTotals, S>(
            alloc, topology, subject, step, sink, progress,
        ),
    }
}

/// The topology of the series, which has not too many rows.
fn read_series<I: Inputs>(
    alloc: Global,
    words: &SeriesArguments<'_>,
    inputs: &mut NamedInputs<I>,
) -> Result<Topology, Status>
    requires some { 1 ≤ words.now.step }
    requires short { words.now.step ≤ MAX_TIME }
    ensures network { IfOk result (λ network. HasTopology (inputs_seen I.seen inputs.old)
        words.now.topology.now network) }
    ensures rows { IfOk result (HasFewRows words.now.subject words.now.step) }
    ensures fault { IfErr result (λ status. FailsOfInput
        (inputs_seen I.seen inputs.old) (inputs_seen I.seen inputs.new) words.now.topology.now
        (HasManyRows words.now.subject words.now.step) status) }
{
    let network = read_topology(alloc, inputs, words.topology)?;
    let rows = rows_of(&network, words.step, words.subject);
    if rows > MAX_ROWS {
        return Err(Status::Rows(rows));
    }
    Ok(network)
}

/// Writes what interfaces or sources do over time, and gives the sink back. The network runs as the
/// series is written: only what its steps need is kept, however long it runs.
pub fn write_series<I: Inputs, O: Sink + Drop>(
    alloc: Global,
    words: &SeriesArguments<'_>,
    inputs: &mut NamedInputs<I>,
    out: O,
    progress: &Progress,
) -> (Status, O)
    requires some { 1 ≤ words.now.step }
    requires short { words.now.step ≤ MAX_TIME }
    ensures { EndsSeries (exchange I.seen O.seen inputs.old out)
        (exchange I.seen O.seen inputs.new result.1)
        words.now.topology.now words.now.step words.now.subject result.0 }
{
    match read_series(alloc, words, inputs) {
        Ok(network) => {
            progress.begin(network.stop());
            let mut out = out;
            let outcome = write_steps(alloc, &network, words, &mut out, progress);
            (Status::of(outcome), out)
        }
        Err(status) => (status, out),
    }
}
