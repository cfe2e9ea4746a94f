//! The trace files of a run: those of each replica, and all together.

ghost use Rattle.std.specs.Prelude.{◌≡◌, ◌*◌, ◌<◌, All, IfErr, IfOk, IfSome, IsSomeAnd};
ghost use Rattle.std.specs.Prelude.{None, OnOk, Option, Some, get_or, length, map, slice_get};
ghost use Rattle.std.specs.Arc.{arc_value};
ghost use Rattle.nm_files.specs.Files.{AreCounted, IsCounted};
ghost use Rattle.nm_files.specs.Outputs.{AreWhole, Files, HasMade, HasMadeSome};
ghost use Rattle.nm_model.specs.Partition.{receiver_of};
ghost use Rattle.nm_sim.specs.Network.{net_of};
ghost use Rattle.nm_files.specs.Folder.{IsOneOf};
ghost use Rattle.nm_run.specs.Faults.{StopsFor, IsOfFiles, run_fault};
ghost use Rattle.nm_run.specs.declared.stop.Stop.TheVariants.{File};
ghost use Rattle.nm_run.specs.Files.{AreAsMany, AreClosed, AreOwnFiles, HoldsSome};

use crate::report::IfaceTotals;
use crate::run::RunPlan;
use crate::stop::Stop;
use nm_base::{IfaceNo, PartNo, Sink};
use nm_book::channels::partition_of;
use nm_files::{Choice, ClosedFiles, Folder, Outputs, TraceFiles, place_all};
use nm_frames::ReplicaName;
use nm_known::OfPartition;
use nm_pcap::PcapOut;
use nm_topology::Topology;
use std::alloc::Global;

/// All interfaces.
#[derive(Clone, Copy)]
struct Every;

impl Choice for Every {
    ghost use Rattle.std.specs.Prelude.{true};

    ghost chooses = { λ c t n iface. true };

    fn chooses(&self, _topology: &Topology, _iface: IfaceNo) -> bool {
        true
    }
}

/// The folder of a run, with the trace files of a partition's interfaces.
fn folder_of<'a>(plan: &RunPlan<'a>, partition: PartNo) -> Folder<'a, OfPartition>
    ensures name { result.name.now ≡ plan.now.folder.now }
    ensures topology { result.topology.now ≡ arc_value plan.now.topology.now }
    ensures choice { result.choice.partition ≡ partition }
{
    Folder {
        topology: plan.topology,
        name: plan.folder,
        choice: OfPartition { partition },
    }
}

/// Makes the trace files of a replica: those of its partition's interfaces if it is the first
/// replica of that, else none.
pub(crate) fn files_of<F: Outputs>(
    alloc: Global,
    plan: &RunPlan<'_>,
    name: ReplicaName,
    outputs: &mut F,
) -> Result<TraceFiles<F::File>, Stop>
    ensures own { IfOk result (λ f. AreOwnFiles (arc_value plan.now.topology.now) name.partition
        name.replica f.files.items) }
    ensures counted { IfOk result
        (λ f. AreCounted F.File.seen (F.made outputs.old) f.files.items) }
    ensures same { F.made outputs.new ≡ F.made outputs.old }
{
    if name.replica > 0 {
        return Ok(TraceFiles::new(alloc));
    }
    Ok(folder_of(plan, name.partition).open(alloc, outputs)?)
}

/// The trace file of an interface, if there is one. The first replica of its partition has it; its
/// files come after those of so many replicas of each partition before.
fn take_file<S: Sink>(
    topology: &Topology,
    replicas: u8,
    iface: IfaceNo,
    files: &mut Vec<TraceFiles<S>>,
) -> Option<PcapOut<S>>
    requires { iface < length topology.now.ifaces }
    ensures own { IfSome result (λ file. IsSomeAnd (slice_get files.old.items
        (receiver_of (net_of topology.now) iface * replicas))
        (λ own. get_or own.files.items iface None ≡ Some file)) }
    ensures counted { (made : Option Files)
        → All (λ own. AreCounted S.seen made own.files.items) files.old.items
        → IsCounted S.seen made result
        × All (λ own. AreCounted S.seen made own.files.items) files.new.items }
{
    let first = partition_of(topology, iface).index() * replicas as usize;
    files.get_mut(first)?.take(iface)
}

/// Checks that a trace file has as many octets as these totals.
fn check_octets<S>(iface: IfaceNo, file: &PcapOut<S>, totals: &IfaceTotals) -> Result<(), Stop>
    ensures many { OnOk result (file.now.written ≡ totals.now.octets) }
    ensures told { IfErr result (λ s. s ≡ File iface file.now.written) }
{
    let written = file.written_octets();
    if written != totals.octets {
        return Err(Stop::File { iface, written });
    }
    Ok(())
}

/// The trace files of all interfaces, each with as many octets as its totals.
///
/// # Errors
///
/// `File` if one has another number of octets. `Broken` if one is missing. `Memory` if memory was
/// refused.
fn gather_files<S: Sink + Drop>(
    alloc: Global,
    plan: &RunPlan<'_>,
    totals: &[IfaceTotals],
    files: Vec<TraceFiles<S>>,
) -> Result<TraceFiles<S>, Stop>
    requires { length totals.now ≡ length (arc_value plan.now.topology.now).ifaces }
    ensures count { IfOk result
        (λ all. length all.files.items ≡ length (arc_value plan.now.topology.now).ifaces) }
    ensures some { (made : Option Files)
        → All (λ own. AreCounted S.seen made own.files.items) files.items
        → IfOk result (λ all. All (HoldsSome S.seen made) all.files.items) }
    ensures totals { IfOk result (λ all. AreAsMany totals.now all.files.items) }
{
    let mut files = files;
    let mut all = TraceFiles::new(alloc);
    for number in 0..plan.topology.ifaces().len() {
        let iface = plan.topology.iface_number(number);
        let Some(file) = take_file(plan.topology, plan.replicas, iface, &mut files) else {
            return Err(Stop::Broken);
        };
        check_octets(iface, &file, &totals[number])?;
        all.add(file)?;
    }
    Ok(all)
}

/// Closes the trace files of all interfaces, in the order of the topology's text. They must have
/// these totals.
///
/// # Errors
///
/// `File` if one was not closed, or has another number of octets. `Broken` if one is missing.
/// `Memory` if memory was refused.
pub(crate) fn close_all<F: Outputs>(
    alloc: Global,
    plan: &RunPlan<'_>,
    totals: &[IfaceTotals],
    outputs: &mut F,
    files: Vec<TraceFiles<F::File>>,
) -> Result<ClosedFiles<F::Closed>, Stop>
    requires count { length totals.now ≡ length (arc_value plan.now.topology.now).ifaces }
    requires counted { All (λ own. AreCounted F.File.seen (F.made outputs.old) own.files.items)
        files.items }
    ensures closed { IfOk result (λ closed. AreClosed F.closed (F.made outputs.old)
        plan.now.folder.now (arc_value plan.now.topology.now) totals.now closed.files.items) }
    ensures same { F.made outputs.new ≡ F.made outputs.old }
{
    let files = gather_files(alloc, plan, totals, files)?;
    let folder = Folder {
        topology: plan.topology,
        name: plan.folder,
        choice: Every,
    };
    Ok(folder.close(alloc, outputs, files)?)
}

/// Gives closed trace files their names, and replaces files that had them.
pub(crate) fn place_files<F: Outputs>(
    outputs: &mut F,
    closed: ClosedFiles<F::Closed>,
) -> Result<(), Stop>
    ensures placed { (files : Files)
        → AreWhole (F.made outputs.old) (map (λ c. F.closed c.file) closed.files.items) files
        → OnOk result (HasMade (F.made outputs.old) (F.made outputs.new) files) }
    ensures some { (files : Files)
        → AreWhole (F.made outputs.old) (map (λ c. F.closed c.file) closed.files.items) files
        → HasMadeSome (F.made outputs.old) (F.made outputs.new) files }
    ensures fault { IfErr result (λ stop. IsOfFiles (run_fault stop)) }
    ensures told { IfErr result
        (StopsFor (IsOneOf (map (λ c. (c.iface, c.written)) closed.files.items))) }
{
    Ok(place_all(outputs, closed)?)
}
