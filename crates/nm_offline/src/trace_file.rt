//! The trace file of one interface, written as the network makes its records.

ghost use Rattle.std.specs.Prelude.{◌≡◌, ◌≤◌, ℕ, All, List, [], ◌∷◌, false};
ghost use Rattle.nm_base.specs.declared.limits.TheConstants.{MAX_TIME};
ghost use Rattle.nm_base.specs.declared.record.Record.{Record as TraceRecord};
ghost use Rattle.nm_base.specs.declared.wanted.Wanted.TheVariants.{One};
ghost use Rattle.nm_events.specs.Held.{pending_of};
ghost use Rattle.nm_pcap.specs.Format.{file_header};
ghost use Rattle.nm_pcap.specs.Writing.{ending, written};
ghost use Rattle.nm_sim.specs.Records.{cut};
ghost use Rattle.nm_sim.specs.Trace.{IsTraceBefore};
ghost use Rattle.nm_sim.specs.Tracing.{ShowsNext, IsTracing};
ghost use Rattle.nm_files.specs.Writing.{Writes, WritesOn};
ghost use Rattle.nm_files.specs.TraceFile.{trace_file, written_at};
ghost use Rattle.nm_offline.specs.Traces.{goes, going};

use nm_base::{Dir, IfaceNo, Record, Sink, Wanted};
use nm_command::Ways;
use nm_files::trace_file::{TraceFault, sink_outcome, write_at};
use nm_pcap::{Form, PcapOut};
use nm_progress::Progress;
use nm_sim::Tracer;
use nm_sim::trace::every_topology_has_a_trace;
use nm_topology::Topology;
use nm_topology::topology::accepted_topologies_are_in_order;
use std::alloc::{AllocError, Global};

/// How far a run is is noted once in so many events: a counter that threads share costs as much as
/// a comparison of the heap.
const EVENTS_A_NOTE: u64 = 1_024;

/// The records of a trace file: the packets that pass an interface in these directions.
#[derive(Clone, Copy)]
pub struct Traced {
    pub iface: IfaceNo,
    pub ways: Ways,
}

/// Whether packets in this direction are among these.
fn goes(ways: Ways, dir: Dir) -> bool
    ensures { result ≡ goes ways dir }
{
    match (ways, dir) {
        (Ways::Both, _) | (Ways::Sent, Dir::Out) | (Ways::Received, Dir::In) => true,
        (Ways::Sent, Dir::In) | (Ways::Received, Dir::Out) => false,
    }
}

/// Writes a record if the file has it.
fn write_one<S: Sink>(
    traced: &Traced,
    record: &Record,
    file: &mut PcapOut<S>,
) -> Result<(), TraceFault>
    requires time { «record».now.time ≤ MAX_TIME }
    requires sound { file.old.failed ≡ false }
    ensures { WritesOn S.seen file.old file.new result
        (written_at file.old.form traced.now.iface (going traced.now.ways («record».now ∷ []))) }
{
    if !goes(traced.ways, record.dir) {
        return Ok(());
    }
    write_at(traced.iface, record, file)
}

/// Writes the trace file of an interface, and gives the sink back. The network runs as the file is
/// written: each record is dropped before the next is made. Progress is noted now and then.
///
/// # Errors
///
/// `Refused` if the sink failed: it took a prefix of the file. `Memory` if memory was refused: it
/// took a prefix of the file then too.
pub fn write_trace_file<S: Sink + Drop>(
    alloc: Global,
    topology: &Topology,
    form: Form,
    traced: &Traced,
    sink: S,
    progress: &Progress,
) -> (Result<(), TraceFault>, S)
    ensures { (records : List (TraceRecord (List ℕ)))
        → IsTraceBefore topology.now topology.now.stop records
        → Writes (S.seen sink) (S.seen result.1) result.0
        (trace_file form traced.now.iface (going traced.now.ways records)) }
{
    let mut file = PcapOut::in_form(sink, form);
    let outcome = write_file(alloc, topology, traced, &mut file, progress);
    (outcome, file.into_sink())
}

/// Writes a trace file from its begin, as the network runs.
fn write_file<S: Sink>(
    alloc: Global,
    topology: &Topology,
    traced: &Traced,
    file: &mut PcapOut<S>,
    progress: &Progress,
) -> Result<(), TraceFault>
    requires { file.old.failed ≡ false }
    ensures { (records : List (TraceRecord (List ℕ)))
        → IsTraceBefore topology.now topology.now.stop records
        → WritesOn S.seen file.old file.new result
        (trace_file file.old.form traced.now.iface (going traced.now.ways records)) }
{
    sink_outcome(file.start())?;
    let mut tracer = Tracer::start_with(alloc, topology, Wanted::One(traced.iface))?;
    write_all_of(alloc, topology, &mut tracer, traced, file, progress)?;
    sink_outcome(file.end())
}

/// Writes those of the records that the file has, in order.
fn write_some<S: Sink>(
    traced: &Traced,
    records: &[Record],
    file: &mut PcapOut<S>,
) -> Result<(), TraceFault>
    requires times { All (λ r. r.time ≤ MAX_TIME) records.now }
    requires sound { file.old.failed ≡ false }
    ensures { WritesOn S.seen file.old file.new result
        (written_at file.old.form traced.now.iface (going traced.now.ways records.now)) }
{
    for number in 0..records.len() {
        write_one(traced, &records[number], file)?;
    }
    Ok(())
}

/// Runs a network from its start, and writes those of its records that are at the interface.
fn write_all_of<S: Sink>(
    alloc: Global,
    topology: &Topology,
    tracer: &mut Tracer,
    traced: &Traced,
    file: &mut PcapOut<S>,
    progress: &Progress,
) -> Result<(), TraceFault>
    requires tracing { IsTracing pending_of topology.now tracer.old }
    requires keeping { tracer.old.records.keeping
        ≡ record { wanted = One traced.now.iface; handed = 0 } }
    requires nothing { tracer.old.records.kept ≡ [] }
    requires sound { file.old.failed ≡ false }
    ensures { (records : List (TraceRecord (List ℕ)))
        → IsTraceBefore topology.now topology.now.stop records
        → WritesOn S.seen file.old file.new result
        (written_at file.old.form traced.now.iface (going traced.now.ways
        (cut (One traced.now.iface) records))) }
{
    for event in 0..u64::MAX {
        let is_there = go_on(alloc, topology, tracer, progress)?;
        if !is_there {
            return Ok(());
        }
        write_some(traced, tracer.trace(), file)?;
    }
    Err(TraceFault::Memory)
}

/// Goes on to the next records of the trace; a trace file can hold their times. Progress is noted
/// now and then.
pub(crate) fn go_on(
    alloc: Global,
    topology: &Topology,
    tracer: &mut Tracer,
    progress: &Progress,
) -> Result<bool, AllocError>
    requires { IsTracing pending_of topology.now tracer.old }
    ensures tracing { IsTracing pending_of topology.now tracer.new }
    ensures next { (records : List (TraceRecord (List ℕ)))
        → IsTraceBefore topology.now topology.now.stop records
        → ShowsNext (cut tracer.old.records.keeping.wanted records)
        tracer.old.records result tracer.new.records }
    ensures still { tracer.new.records.keeping.wanted ≡ tracer.old.records.keeping.wanted }
    ensures times { All (λ r. r.time ≤ MAX_TIME) tracer.new.records.kept }
{
    accepted_topologies_are_in_order(topology); // law: `stop` is within its limit
    every_topology_has_a_trace(topology); // law: the records are those of a trace
    let outcome = tracer.go_on(alloc, topology);
    note_shown(tracer, progress);
    outcome
}

/// Notes the progress, now and then: all before the next event is done.
fn note_shown(tracer: &Tracer, progress: &Progress) {
    if tracer.events() % EVENTS_A_NOTE == 0
        && let Some(time) = tracer.next_time()
    {
        progress.note(time, tracer.made());
    }
}
