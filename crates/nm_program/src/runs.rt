//! The word `run`: all partitions at once.

ghost use Rattle.std.specs.Prelude.{◌≡◌, ◌⊎◌, ℕ, ◌<◌, ◌≤◌, ◌++◌, List, Some, IfErr, IfOk, OnOk};
ghost use Rattle.std.specs.Prelude.{Ok, Option, codes, length, slice_get};
ghost use Rattle.std.specs.Arc.{arc_value};
ghost use Rattle.nm_base.specs.declared.record.Record.{Record as TraceRecord};
ghost use Rattle.nm_base.specs.declared.limits.TheConstants.{MAX_WORKERS};
ghost use Rattle.nm_files.specs.Outputs.{Files};
ghost use Rattle.nm_run.specs.Faults.{HasReason, IsOfFiles};
ghost use Rattle.nm_run.specs.Files.{AreNamed, HaveFiles};
ghost use Rattle.nm_run.specs.Report.{AreTotals, IsCertifiedRun};
ghost use Rattle.nm_sim.specs.Totals.{totals_of};
ghost use Rattle.nm_sim.specs.Trace.{IsTraceBefore};
ghost use Rattle.nm_topology.specs.PartValues.{IfaceValue};
ghost use Rattle.nm_topology.specs.Topology.{topology_of};
ghost use Rattle.nm_topology.specs.TopologyValue.{TopologyValue};
ghost use Rattle.nm_offline.specs.Input.{inputs_seen};
ghost use Rattle.nm_offline.specs.Lines.{iface_line, iface_lines};
ghost use Rattle.nm_offline.specs.Output.{SaysOfInput, files_seen};
ghost use Rattle.nm_program.specs.Run.{EndsRun, FailsRun, RunAsked, SaysCertified, SaysRun};
ghost use Rattle.nm_program.specs.Run.{StopsRun, run_asked, run_status};
ghost use Rattle.nm_program.specs.Surroundings.{surroundings};

use crate::means::Means;
use nm_base::{Sink, push_text};
use nm_command::{RunArguments, Status};
use nm_files::Outputs;
use nm_offline::input::NamedInputs;
use nm_offline::inputs::Inputs;
use nm_offline::lines::push_iface_line;
use nm_offline::output::{Output, end};
use nm_offline::reading::read_shared;
use nm_rounds::CertFault;
use nm_run::{IfaceTotals, Report, RunCause, RunFault, RunPlan, Runtime, run_all};
use nm_shared::OpenGate;
use nm_sim::trace::every_topology_has_a_trace;
use nm_topology::Topology;
use std::alloc::{AllocError, Global};
use std::sync::Arc;

/// Appends the line of an interface that has these totals.
fn push_total(
    text: &mut Vec<u8>,
    topology: &Topology,
    totals: &[IfaceTotals],
    number: usize,
) -> Result<(), AllocError>
    requires there { number < length topology.now.ifaces }
    requires are { AreTotals topology.now totals.now }
    ensures { (records : List (TraceRecord (List ℕ)))
        → IsTraceBefore topology.now topology.now.stop records → (iface : IfaceValue)
        → slice_get topology.now.ifaces number ≡ Some iface
        → OnOk result (text.new.items ≡ text.old.items
        ++ iface_line iface (totals_of number records)) }
{
    let found = totals[number];
    let iface = topology.iface(topology.iface_number(number));
    push_iface_line(text, iface, found.records, found.octets)
}

/// `certified`, and the lines of all interfaces.
fn run_text(
    alloc: Global,
    topology: &Topology,
    totals: &[IfaceTotals],
) -> Result<Vec<u8>, AllocError>
    requires { AreTotals topology.now totals.now }
    ensures { (records : List (TraceRecord (List ℕ)))
        → IsTraceBefore topology.now topology.now.stop records
        → IfOk result (λ text. text.items
        ≡ codes "certified\n" ++ iface_lines (λ i. totals_of i records) topology.now) }
{
    let mut text = Vec::new(alloc);
    push_text(&mut text, b"certified\n")?;
    for number in 0..topology.ifaces().len() {
        push_total(&mut text, topology, totals, number)?;
    }
    Ok(text)
}

/// Whether the program itself is at fault.
fn is_own(fault: &RunFault) -> bool {
    matches!(fault, RunFault::Refused(RunCause::Broken))
}

/// What the certificate found in the books of a run.
fn cert_fault_of(fault: &RunFault) -> Option<CertFault> {
    match fault {
        RunFault::Refused(RunCause::NotCertified(fault)) => Some(*fault),
        _ => None,
    }
}

/// What the fault of a run is to the program.
fn status_of(fault: RunFault) -> Status
    ensures value { result ≡ run_status fault }
    ensures stops { (network : TopologyValue) (asked : RunAsked) (before after : Option Files)
        → HasReason network asked.leaving.replicas fault → (IsOfFiles fault ⊎ (after ≡ before))
        → AreNamed before after asked.leaving network
        → StopsRun network asked before after result }
{
    match fault {
        RunFault::Memory => Status::Memory,
        RunFault::Refused(
            RunCause::File { .. } | RunCause::Known | RunCause::Net | RunCause::Broken,
        ) => Status::File,
        RunFault::Refused(RunCause::NotCertified(fault)) => Status::NotCertified(fault.number()),
        RunFault::Refused(RunCause::Stalled { .. }) => Status::Stalled,
    }
}

/// The text of a report.
fn report_text(
    alloc: Global,
    network: &Arc<Topology>,
    report: &Report,
) -> Result<Vec<u8>, AllocError>
    requires { IsCertifiedRun (arc_value network.now) report.now.totals.items }
    ensures { IfOk result (λ octets. (asked : RunAsked) (before after : Option Files)
        (text : List ℕ) → topology_of text ≡ Ok (arc_value network.now)
        → HaveFiles before after asked.leaving (arc_value network.now) report.now.totals.items
        → SaysCertified asked before after text octets.items) }
{
    every_topology_has_a_trace(network); // law: there is a trace of the whole run
    run_text(alloc, network, report.totals.as_slice())
}

/// Runs all partitions of a network at once, as the words say.
fn report_of<'x, F: Outputs, R: Runtime>(
    means: &Means<'_, R>,
    network: &Arc<Topology>,
    words: &RunArguments<'_>,
    plan: &'x RunPlan<'x>,
    outputs: &mut F,
) -> Result<Report, RunFault>
where
    F::File: Send,
    requires asked { (plan.now.topology ≡ network) × (plan.now.folder ≡ words.now.folder)
        × (plan.now.workers ≡ words.now.workers) × (plan.now.replicas ≡ words.now.replicas)
        × (plan.now.keeps ≡ words.now.keeps) }
    requires workers { (1 ≤ words.now.workers) × (words.now.workers ≤ MAX_WORKERS) }
    requires folder { 0 < length words.now.folder.now } // else its files would be at the root
    ensures certified { IfOk result (λ report. IsCertifiedRun (arc_value network.now)
        report.totals.items) }
    ensures placed { IfOk result (λ report. HaveFiles (F.made outputs.old) (F.made outputs.new)
        (run_asked words.now).leaving (arc_value network.now) report.totals.items) }
    ensures refused { IfErr result
        (HasReason (arc_value network.now) words.now.replicas) }
    ensures kept { IfErr result (λ fault. IsOfFiles fault
        ⊎ (F.made outputs.new ≡ F.made outputs.old)) }
    ensures named { AreNamed (F.made outputs.old) (F.made outputs.new)
        (run_asked words.now).leaving (arc_value network.now) }
{
    means.progress.begin(network.stop());
    run_all(means.rt, means.alloc, plan, outputs, &OpenGate)
}

/// Runs all partitions at once: the output.
fn run_network<F: Outputs, R: Runtime>(
    means: &Means<'_, R>,
    network: &Arc<Topology>,
    words: &RunArguments<'_>,
    outputs: &mut F,
) -> Result<Output, Status>
where
    F::File: Send,
    requires { (1 ≤ words.now.workers) × (words.now.workers ≤ MAX_WORKERS) }
    ensures said { IfOk result (λ output. (text : List ℕ)
        → topology_of text ≡ Ok (arc_value network.now)
        → SaysRun (run_asked words.now) (F.made outputs.old, F.made outputs.new) text
        output.status output.text.items) }
    ensures fault { IfErr result (StopsRun (arc_value network.now) (run_asked words.now)
        (F.made outputs.old) (F.made outputs.new)) }
{
    if words.folder.is_empty() {
        return Err(Status::File); // its files would be at the root
    }
    let plan = RunPlan {
        topology: network,
        folder: words.folder,
        workers: words.workers as usize,
        replicas: words.replicas,
        keeps: words.keeps,
        progress: means.progress,
    };
    match report_of(means, network, words, &plan, outputs) {
        Ok(report) => Output::of(report_text(means.alloc, network, &report), Status::Done),
        Err(fault) => {
            means.note(is_own(&fault));
            means.notes.cert_fault.set(cert_fault_of(&fault));
            Err(status_of(fault))
        }
    }
}

/// The output of all partitions at once.
fn run_said<I: Inputs, F: Outputs, R: Runtime>(
    means: &Means<'_, R>,
    words: &RunArguments<'_>,
    inputs: &mut NamedInputs<I>,
    outputs: &mut F,
) -> Result<Output, Status>
where
    F::File: Send,
    requires { (1 ≤ words.now.workers) × (words.now.workers ≤ MAX_WORKERS) }
    ensures said { IfOk result (λ output. SaysOfInput (inputs_seen I.seen inputs.old)
        words.now.topology.now
        (SaysRun (run_asked words.now) (F.made outputs.old, F.made outputs.new))
        output.status output.text.items) }
    ensures fault { IfErr result (FailsRun (files_seen I.seen F.made inputs.old outputs.old)
        (files_seen I.seen F.made inputs.new outputs.new) (run_asked words.now)) }
{
    let network = read_shared(means.alloc, inputs, words.topology)?;
    run_network(means, &network, words, outputs)
}

/// Runs all partitions at once, and prints that they are certified, and how many records each
/// interface has.
pub(crate) fn say_run<I: Inputs, F: Outputs, O: Sink + Drop, R: Runtime>(
    means: &Means<'_, R>,
    words: &RunArguments<'_>,
    inputs: &mut NamedInputs<I>,
    outputs: &mut F,
    out: O,
) -> (Status, O)
where
    F::File: Send,
    requires { (1 ≤ words.now.workers) × (words.now.workers ≤ MAX_WORKERS) }
    ensures { EndsRun (surroundings I.seen O.seen F.made inputs.old out outputs.old)
        (surroundings I.seen O.seen F.made inputs.new result.1 outputs.new)
        (run_asked words.now) result.0 }
{
    end(run_said(means, words, inputs, outputs), out)
}
