//! The word `node`: one replica of a partition over TCP.

ghost use Rattle.std.specs.Prelude.{◌≡◌, ℕ, ◌<◌, ◌≤◌, ◌++◌, ◌⊎◌, List, Some, All};
ghost use Rattle.std.specs.Prelude.{IfErr, IfOk, OnOk, Ok, length, slice_get};
ghost use Rattle.std.specs.Arc.{arc_value};
ghost use Rattle.nm_peers.specs.Listeners.{AreListeners};
ghost use Rattle.nm_base.specs.declared.limits.TheConstants.{MAX_TIME};
ghost use Rattle.nm_book.specs.Book.{state_of};
ghost use Rattle.nm_process.specs.Process.{IsDoneReplica};
ghost use Rattle.nm_offline.specs.Input.{inputs_seen};
ghost use Rattle.nm_offline.specs.Output.{SaysOfInputs, files_seen};
ghost use Rattle.nm_program.specs.Node.{EndsNode, FailsNode, SaysServed, StopsNode, node_asked};
ghost use Rattle.nm_program.specs.Surroundings.{surroundings};
ghost use Rattle.nm_program.specs.Node.{AreOwnOpened, late_status, node_files, own_line, own_lines};
ghost use Rattle.nm_program.specs.Node.{process_status};
ghost use Rattle.nm_command.specs.declared.status.Status.TheVariants.{Done, File, Memory, Stalled};
ghost use Rattle.nm_files.specs.Outputs.{HasMade};
ghost use Rattle.nm_topology.specs.PartValues.{IfaceValue};
ghost use Rattle.nm_topology.specs.Topology.{topology_of};

use crate::means::Means;
use crate::node_inputs::{NodeArguments, read_both};
use crate::own_files::make_files;
use nm_base::{PartNo, Sink};
use nm_book::Book;
use nm_book::channels::partition_of;
use nm_command::Status;
use nm_files::{Folder, Outputs, TraceFiles};
use nm_known::OfPartition;
use nm_offline::input::NamedInputs;
use nm_offline::inputs::Inputs;
use nm_offline::lines::push_iface_line;
use nm_offline::output::{Output, end};
use nm_peers::Listener;
use nm_process::{Process, ProcessCause, ProcessEnd, ProcessFault, run_process};
use nm_replica::Served;
use nm_replica::limits::MAX_IDLE_PERIODS;
use nm_topology::Topology;
use std::alloc::{AllocError, Global};
use std::net::Net;
use std::sync::{Arc, Wait};
use std::time::Clock;

/// Appends the line of an interface, if that is of the partition.
fn push_own(
    text: &mut Vec<u8>,
    topology: &Topology,
    partition: PartNo,
    book: &Book,
    number: usize,
) -> Result<(), AllocError>
    requires there { number < length topology.now.ifaces }
    requires of { book.now.topology ≡ topology.now }
    ensures { (iface : IfaceValue) → slice_get topology.now.ifaces number ≡ Some iface
        → OnOk result (text.new.items ≡ text.old.items
        ++ own_line topology.now partition (state_of book.now).records (number, iface)) }
{
    let iface = topology.iface_number(number);
    if partition_of(topology, iface) != partition {
        return Ok(());
    }
    let (records, octets) = book.totals(iface);
    push_iface_line(text, topology.iface(iface), records, octets)
}

/// The lines of the interfaces of a partition, in the order of the topology's text.
fn own_text(
    alloc: Global,
    topology: &Topology,
    partition: PartNo,
    book: &Book,
) -> Result<Vec<u8>, AllocError>
    requires of { book.now.topology ≡ topology.now }
    ensures { IfOk result (λ text. text.items
        ≡ own_lines topology.now partition (state_of book.now).records) }
{
    let mut text = Vec::new(alloc);
    for number in 0..topology.ifaces().len() {
        push_own(&mut text, topology, partition, book, number)?;
    }
    Ok(text)
}

/// The folder of the partition's trace files, by the words.
fn own_folder<'a>(topology: &'a Topology, words: &NodeArguments<'a>) -> Folder<'a, OfPartition>
    ensures { (result.topology.now ≡ topology.now) × (result.name.now ≡ words.now.folder.now)
        × (result.choice.partition ≡ words.now.partition) }
{
    Folder {
        topology,
        name: words.folder,
        choice: OfPartition {
            partition: words.partition,
        },
    }
}

/// Makes the trace files of the partition that the words ask for, before anything is simulated.
fn open_files<F: Outputs>(
    alloc: Global,
    topology: &Topology,
    words: &NodeArguments<'_>,
    outputs: &mut F,
) -> Result<TraceFiles<F::File>, Status>
    ensures opened { IfOk result (λ files. AreOwnOpened F.File.seen (F.made outputs.old)
        topology.now words.now.partition files.files.items) }
    ensures same { F.made outputs.new ≡ F.made outputs.old }
    ensures fault { IfErr result (λ s. (s ≡ File) ⊎ (s ≡ Memory)) }
{
    Ok(own_folder(topology, words).open(alloc, outputs)?)
}

/// Writes the files of a replica that is done: the lines of its interfaces.
fn write_book<F: Outputs>(
    alloc: Global,
    topology: &Topology,
    words: &NodeArguments<'_>,
    files: TraceFiles<F::File>,
    book: &Book,
    outputs: &mut F,
) -> Result<Output, Status>
    requires opened { AreOwnOpened F.File.seen (F.made outputs.old) topology.now
        words.now.partition files.files.items }
    requires of { book.now.topology ≡ topology.now }
    requires whole { book.now.handed ≡ 0 }
    ensures made { IfOk result (λ _. HasMade (F.made outputs.old) (F.made outputs.new)
        (node_files topology.now words.now.partition words.now.folder.now words.now.keeps
        book.now)) }
    ensures said { IfOk result (λ output. (output.status ≡ Done) × (output.text.items
        ≡ own_lines topology.now words.now.partition (state_of book.now).records)) }
    ensures fault { IfErr result (λ s. (s ≡ File) ⊎ (s ≡ Memory)) }
{
    let folder = own_folder(topology, words);
    make_files(alloc, &folder, files, book, words.keeps, outputs)?;
    Output::of(
        own_text(alloc, topology, words.partition, book),
        Status::Done,
    )
}

/// What the fault of a replica is to the program.
fn status_of(fault: ProcessFault) -> Status
    ensures value { result ≡ process_status fault }
    ensures kinds { (result ≡ File) ⊎ (result ≡ Memory) ⊎ (result ≡ Stalled) }
{
    match fault {
        ProcessFault::Memory => Status::Memory,
        ProcessFault::Refused(ProcessCause::Stalled) => Status::Stalled,
        ProcessFault::Refused(ProcessCause::Net | ProcessCause::Broken) => Status::File,
    }
}

/// Serves the replica that the words ask for, over these listeners. It is stalled after a minute.
fn serve_asked<R: Net + Wait + Clock + Drop + Copy>(
    means: &Means<'_, R>,
    topology: &Arc<Topology>,
    listeners: &[Listener],
    words: &NodeArguments<'_>,
    process: &Process<'_>,
) -> Result<ProcessEnd, ProcessFault>
    requires asked { (process.now.topology ≡ topology) × (process.now.listeners ≡ listeners)
        × (process.now.partition ≡ words.now.partition)
        × (process.now.replica ≡ words.now.replica) }
    requires limit { process.now.idle_limit ≡ MAX_IDLE_PERIODS }
    ensures { IfOk result (λ end. IsDoneReplica (arc_value topology.now)
        words.now.partition words.now.replica end.book) }
{
    means.progress.begin(topology.stop());
    run_process(means.rt, means.alloc, process)
}

/// The result of a replica that was served.
fn end_of<R: Net + Wait + Clock + Drop + Copy>(
    means: &Means<'_, R>,
    topology: &Arc<Topology>,
    listeners: &[Listener],
    words: &NodeArguments<'_>,
) -> Result<ProcessEnd, Status>
    ensures done { IfOk result (λ end. IsDoneReplica (arc_value topology.now)
        words.now.partition words.now.replica end.book) }
    ensures fault { IfErr result (λ s. (s ≡ File) ⊎ (s ≡ Memory) ⊎ (s ≡ Stalled)) }
{
    let process = Process {
        topology,
        partition: words.partition,
        replica: words.replica,
        listeners,
        idle_limit: MAX_IDLE_PERIODS,
        progress: means.progress,
    };
    match serve_asked(means, topology, listeners, words, &process) {
        Ok(end) => Ok(end),
        Err(fault) => {
            means.note(matches!(&fault, ProcessFault::Refused(ProcessCause::Broken)));
            Err(status_of(fault))
        }
    }
}

/// The status of a replica that is done, if serving it ended otherwise than as done.
fn late_status(served: Served) -> Option<Status>
    ensures { result ≡ late_status served }
{
    match served {
        Served::Ended => None,
        Served::Stalled { .. } => Some(Status::Stalled),
        Served::Net | Served::File { .. } => Some(Status::File),
        Served::Memory => Some(Status::Memory),
    }
}

/// Makes the files of a replica, serves it until it is done, and writes them: the lines of its
/// interfaces. If serving it ended otherwise and it is done, the files are written too, and nothing
/// is printed.
fn serve<F: Outputs, R: Net + Wait + Clock + Drop + Copy>(
    means: &Means<'_, R>,
    topology: &Arc<Topology>,
    listeners: &[Listener],
    words: &NodeArguments<'_>,
    outputs: &mut F,
) -> Result<Output, Status>
    ensures said { IfOk result (λ output. (text : List ℕ) → (addresses : List ℕ)
        → topology_of text ≡ Ok (arc_value topology.now)
        → AreListeners addresses (arc_value topology.now).partitions words.now.partition
        words.now.replica listeners.now
        → SaysServed (node_asked words.now) (F.made outputs.old, F.made outputs.new)
        text addresses output.status output.text.items) }
    ensures fault { IfErr result (StopsNode (F.made outputs.old) (F.made outputs.new)) }
{
    if words.folder.is_empty() {
        return Err(Status::File); // its files would be at the root
    }
    let files = open_files(means.alloc, topology, words, outputs)?;
    let end = end_of(means, topology, listeners, words)?;
    let output = write_book(means.alloc, topology, words, files, &end.book, outputs)?;
    match late_status(end.served) {
        None => Ok(output),
        Some(status) => Ok(Output {
            text: Vec::new(means.alloc),
            status,
        }),
    }
}

/// The output of one replica of a partition that is served over TCP.
fn node_said<I: Inputs, F: Outputs, R: Net + Wait + Clock + Drop + Copy>(
    means: &Means<'_, R>,
    words: &NodeArguments<'_>,
    inputs: &mut NamedInputs<I>,
    outputs: &mut F,
) -> Result<Output, Status>
    ensures said { IfOk result (λ output. SaysOfInputs
        (inputs_seen I.seen inputs.old) words.now.topology.now words.now.addresses.now
        (SaysServed (node_asked words.now) (F.made outputs.old, F.made outputs.new))
        output.status output.text.items) }
    ensures fault { IfErr result (FailsNode (files_seen I.seen F.made inputs.old outputs.old)
        (files_seen I.seen F.made inputs.new outputs.new) (node_asked words.now)) }
{
    let (network, listeners) = read_both(means.alloc, inputs, words)?;
    serve(means, &network, listeners.as_slice(), words, outputs)
}

/// Serves one replica of a partition over TCP until it is done. Then its files are made, and the
/// lines of its interfaces are printed.
pub(crate) fn say_node<I: Inputs, F: Outputs, O: Sink + Drop, R: Net + Wait + Clock + Drop + Copy>(
    means: &Means<'_, R>,
    words: &NodeArguments<'_>,
    inputs: &mut NamedInputs<I>,
    outputs: &mut F,
    out: O,
) -> (Status, O)
    ensures { EndsNode (surroundings I.seen O.seen F.made inputs.old out outputs.old)
        (surroundings I.seen O.seen F.made inputs.new result.1 outputs.new)
        (node_asked words.now) result.0 }
{
    end(node_said(means, words, inputs, outputs), out)
}
