//! The word `all`: the trace files of interfaces, all by one event list.

ghost use Rattle.std.specs.Prelude.{◌≡◌, ◌⊎◌, ◌<◌, ℕ, List, [], IfErr, IfOk, OnOk, length, map};
ghost use Rattle.std.specs.Prelude.{string_bytes};
ghost use Rattle.nm_base.specs.declared.record.Record.{Record as TraceRecord};
ghost use Rattle.nm_command.specs.Status.{ended};
ghost use Rattle.nm_command.specs.declared.status.Status.TheVariants.{File, Memory};
ghost use Rattle.nm_base.specs.declared.wanted.Wanted.TheVariants.{All as AllWanted};
ghost use Rattle.nm_events.specs.Held.{pending_of};
ghost use Rattle.nm_files.specs.Files.{FilesTook};
ghost use Rattle.nm_files.specs.Outputs.{AreWhole, HasMade, HasMadeSome};
ghost use Rattle.nm_sim.specs.Trace.{IsTraceBefore};
ghost use Rattle.nm_sim.specs.Tracing.{IsTracing};
ghost use Rattle.nm_offline.specs.All.{MakesAll, all_asked, asked_files};
ghost use Rattle.nm_offline.specs.Output.{files_seen};

use crate::asked::{Asked, find_ifaces};
use crate::input::NamedInputs;
use crate::inputs::Inputs;
use crate::reading::read_topology;
use crate::trace_file::go_on;
use nm_base::Sink;
use nm_command::{AllArguments, Status};
use nm_files::{ClosedFiles, Folder, Outputs, TraceFiles, place_all};
use nm_progress::Progress;
use nm_sim::Tracer;
use nm_sim::trace::every_topology_has_a_trace;
use nm_topology::Topology;
use std::alloc::Global;

/// Runs a network from its start, and writes its records to the files of their interfaces.
fn record_all<S: Sink>(
    alloc: Global,
    network: &Topology,
    tracer: &mut Tracer,
    files: &mut TraceFiles<S>,
    progress: &Progress,
) -> Result<(), Status>
    requires tracing { IsTracing pending_of network.now tracer.old }
    requires keeping { tracer.old.records.keeping ≡ record { wanted = AllWanted; handed = 0 } }
    requires nothing { tracer.old.records.kept ≡ [] }
    ensures took { (records : List (TraceRecord (List ℕ)))
        → IsTraceBefore network.now network.now.stop records
        → OnOk result (FilesTook S.seen records
        files.old.files.items files.new.files.items) }
    ensures fault { IfErr result (λ s. (s ≡ File) ⊎ (s ≡ Memory)) }
{
    for event in 0..u64::MAX {
        let is_there = go_on(alloc, network, tracer, progress)?;
        if !is_there {
            return Ok(());
        }
        files.put_all(tracer.trace())?;
    }
    Err(Status::Memory)
}

/// Runs the network over the files that are asked for, then closes them, in a folder that has a
/// name.
fn write_files<F: Outputs>(
    alloc: Global,
    folder: &Folder<'_, Asked<'_>>,
    outputs: &mut F,
    progress: &Progress,
) -> Result<ClosedFiles<F::Closed>, Status>
    requires { 0 < length folder.now.name.now }
    ensures whole { (records : List (TraceRecord (List ℕ)))
        → IsTraceBefore folder.now.topology.now folder.now.topology.now.stop records
        → IfOk result (λ closed. AreWhole (F.made outputs.old)
        (map (λ c. F.closed c.file) closed.files.items)
        (asked_files folder.now.topology.now (map (λ n. string_bytes n) folder.now.choice.names.now)
        folder.now.name.now records)) }
    ensures same { F.made outputs.new ≡ F.made outputs.old }
    ensures fault { IfErr result (λ s. (s ≡ File) ⊎ (s ≡ Memory)) }
{
    every_topology_has_a_trace(folder.topology); // law: the files take one
    let mut files = folder.open(alloc, outputs)?;
    let mut tracer = Tracer::start(alloc, folder.topology)?;
    record_all(alloc, folder.topology, &mut tracer, &mut files, progress)?;
    Ok(folder.close(alloc, outputs, files)?)
}

/// Makes the files that are asked for. A folder with no name has none.
fn make_files<F: Outputs>(
    alloc: Global,
    folder: &Folder<'_, Asked<'_>>,
    outputs: &mut F,
    progress: &Progress,
) -> Result<(), Status>
    ensures made { (records : List (TraceRecord (List ℕ)))
        → IsTraceBefore folder.now.topology.now folder.now.topology.now.stop records
        → OnOk result (HasMade (F.made outputs.old) (F.made outputs.new)
        (asked_files folder.now.topology.now (map (λ n. string_bytes n) folder.now.choice.names.now)
        folder.now.name.now records)) }
    ensures some { (records : List (TraceRecord (List ℕ)))
        → IsTraceBefore folder.now.topology.now folder.now.topology.now.stop records
        → HasMadeSome (F.made outputs.old) (F.made outputs.new)
        (asked_files folder.now.topology.now (map (λ n. string_bytes n) folder.now.choice.names.now)
        folder.now.name.now records) }
    ensures fault { IfErr result (λ s. (s ≡ File) ⊎ (s ≡ Memory)) }
{
    if folder.name.is_empty() {
        return Err(Status::File);
    }
    let closed = write_files(alloc, folder, outputs, progress)?;
    Ok(place_all(outputs, closed)?)
}

/// Makes the trace files of interfaces of an input's network.
fn make_all<I: Inputs, F: Outputs>(
    alloc: Global,
    words: &AllArguments<'_>,
    inputs: &mut NamedInputs<I>,
    outputs: &mut F,
    progress: &Progress,
) -> Result<(), Status>
    ensures { MakesAll (files_seen I.seen F.made inputs.old outputs.old)
        (files_seen I.seen F.made inputs.new outputs.new) (all_asked words.now) (ended result) }
{
    let network = read_topology(alloc, inputs, words.topology)?;
    find_ifaces(&network, words.ifaces)?;
    every_topology_has_a_trace(&network); // law: there is an answer, also where it is not made
    progress.begin(network.stop());
    let folder = Folder {
        topology: &network,
        name: words.folder,
        choice: Asked {
            names: words.ifaces,
        },
    };
    make_files(alloc, &folder, outputs, progress)
}

/// Makes the trace files of interfaces, all by one event list: of those that have these names, or
/// of all if there are none.
pub fn write_all_traces<I: Inputs, F: Outputs>(
    alloc: Global,
    words: &AllArguments<'_>,
    inputs: &mut NamedInputs<I>,
    outputs: &mut F,
    progress: &Progress,
) -> Status
    ensures { MakesAll (files_seen I.seen F.made inputs.old outputs.old)
        (files_seen I.seen F.made inputs.new outputs.new) (all_asked words.now) result }
{
    Status::of(make_all(alloc, words, inputs, outputs, progress))
}
