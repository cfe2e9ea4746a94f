//! The word `certify`: whether the files that replicas left, on several machines or on one, are
//! those of the one event list.

ghost use Rattle.std.specs.Prelude.{◌≡◌, ◌==◌, ◌≤◌, ◌<◌, ◌++◌, ℕ, List, IfErr, IfOk, Ok, codes};
ghost use Rattle.std.specs.Prelude.{false, length, map, string_bytes};
ghost use Rattle.std.specs.Arc.{arc_value};
ghost use Rattle.std.specs.List.{list_any};
ghost use Rattle.nm_base.specs.declared.fault.Fault.TheVariants.{Refused};
ghost use Rattle.nm_base.specs.declared.limits.TheConstants.{MAX_WORKERS};
ghost use Rattle.nm_certify.specs.declared.fault.CertifyCause.TheVariants.{Differs, Known};
ghost use Rattle.nm_offline.specs.Certify.{AreNotCertified, EndsCertify, ExplainsFiles};
ghost use Rattle.nm_offline.specs.Certify.{FailsCertify, IsStatusOfFiles, SaysFiles, certify_asked};
ghost use Rattle.nm_offline.specs.Finding.{AreCertifiedBooks};
ghost use Rattle.nm_offline.specs.Input.{inputs_seen};
ghost use Rattle.nm_offline.specs.Lines.{AreOfPartitions, AreTotals, iface_lines};
ghost use Rattle.nm_offline.specs.Output.{SaysOfInput, exchange};
ghost use Rattle.nm_topology.specs.PartValues.{IfaceValue};
ghost use Rattle.nm_topology.specs.Topology.{topology_of};

use crate::finding::find_all;
use crate::input::NamedInputs;
use crate::inputs::Inputs;
use crate::lines::push_lines;
use crate::output::{Output, end};
use crate::part_files::open_parts;
use crate::reading::read_shared;
use crate::verify::differs;
use nm_base::{Packet, PartNo, Sink, push_text};
use nm_book::Book;
use nm_certify::{CertifyCause, CertifyFault, certify_parts, unread};
use nm_command::{CertifyArguments, Status};
use nm_forward::NodeState;
use nm_known::KnownCause;
use nm_model::trace::interfaces_have_their_records;
use nm_rounds::CertFault;
use nm_sim::trace::every_topology_has_a_trace;
use nm_topology::Topology;
use std::alloc::{AllocError, Global};
use std::cell::Cell;
use std::sync::Arc;
use std::thread::Threads;

/// The books by the files in the folders, once they and the trace files are certified.
///
/// # Errors
///
/// The first fault in this order: the least partition that has no file of what is known; a trace
/// file that could not be opened, or its header not read; else that of `certify_parts`.
fn certified_books<I: Inputs, R: Threads + Sync>(
    rt: &R,
    alloc: Global,
    topology: &Arc<Topology>,
    words: &CertifyArguments<'_>,
    inputs: &NamedInputs<I>,
) -> Result<Vec<Book>, CertifyFault>
where
    I::File: Send,
    requires workers { (1 ≤ words.now.workers) × (words.now.workers ≤ MAX_WORKERS) }
    requires folders { list_any (λ f. length (string_bytes f) == 0) words.now.folders.now ≡ false }
    ensures books { IfOk result (λ books. AreCertifiedBooks (inputs_seen I.seen inputs.now)
        (map (λ f. string_bytes f) words.now.folders.now) (arc_value topology.now)
        books.items) }
    ensures fault { IfErr result (ExplainsFiles (inputs_seen I.seen inputs.now)
        (map (λ f. string_bytes f) words.now.folders.now) (arc_value topology.now)) }
{
    every_topology_has_a_trace(topology); // law: a file that differs differs from one of its
    let found = find_all(alloc, inputs, words.folders, topology)?;
    match open_parts(alloc, topology, inputs, found) {
        Ok(parts) => certify_parts(rt, alloc, topology, words.workers as usize, parts),
        Err(fault) => Err(unread(&fault)),
    }
}

/// `certified`, and the lines of all interfaces.
fn certified_text(alloc: Global, topology: &Topology, books: &[Book]) -> Result<Vec<u8>, AllocError>
    requires books { AreOfPartitions topology.now books.now }
    ensures { IfOk result (λ text. (totals : ℕ → ℕ × ℕ)
        → AreTotals topology.now books.now totals
        → text.items ≡ codes "certified\n" ++ iface_lines totals topology.now) }
{
    let mut text = Vec::new(alloc);
    push_text(&mut text, b"certified\n")?;
    push_lines(&mut text, topology, books)?;
    Ok(text)
}

/// The status for a refused file of what is known: its partition has no book then, or one of
/// another topology. A failure is counted.
fn refused_status<I: Inputs>(
    inputs: &mut NamedInputs<I>,
    partition: PartNo,
    cause: KnownCause,
) -> Status
    ensures { (ifaces : List IfaceValue) → IsStatusOfFiles (inputs_seen I.seen inputs.old)
        (inputs_seen I.seen inputs.new) ifaces (Refused (Known partition cause)) result }
{
    match cause {
        KnownCause::Topology => Status::NotCertified(CertFault::Topology.number()),
        KnownCause::Form => Status::NotCertified(CertFault::Missing { partition }.number()),
        KnownCause::Failed => {
            inputs.fail();
            Status::File
        }
    }
}

/// The status for files that are not certified. A failure is counted.
fn status_of<I: Inputs>(
    topology: &Topology,
    inputs: &mut NamedInputs<I>,
    fault: &CertifyFault,
) -> Status
    requires there { (own octet : ℕ) → fault.now ≡ Refused (Differs own octet)
        → own < length topology.now.ifaces }
    ensures { IsStatusOfFiles (inputs_seen I.seen inputs.old) (inputs_seen I.seen inputs.new)
        topology.now.ifaces fault.now result }
{
    match fault {
        CertifyFault::Memory => Status::Memory,
        CertifyFault::Refused(CertifyCause::Differs { iface, octet }) => {
            differs(topology, *iface, *octet)
        }
        CertifyFault::Refused(CertifyCause::NotCertified(fault)) => {
            Status::NotCertified(fault.number())
        }
        CertifyFault::Refused(CertifyCause::Known { partition, cause }) => {
            refused_status(inputs, *partition, *cause)
        }
        CertifyFault::Refused(CertifyCause::Failed) => {
            inputs.fail();
            Status::File
        }
    }
}

/// The certificate's fault in files that are not certified, or the one that a refused file of what
/// is known stands for.
fn shown_fault(fault: &CertifyFault) -> Option<CertFault> {
    match fault {
        CertifyFault::Refused(CertifyCause::NotCertified(fault)) => Some(*fault),
        CertifyFault::Refused(CertifyCause::Known { partition, cause }) => match cause {
            KnownCause::Topology => Some(CertFault::Topology),
            KnownCause::Form => Some(CertFault::Missing {
                partition: *partition,
            }),
            KnownCause::Failed => None,
        },
        _ => None,
    }
}

/// Whether one of the folders has no name: its files would be at the root.
fn has_root(folders: &[String]) -> bool
    ensures { result ≡ list_any (λ f. length (string_bytes f) == 0) folders.now }
{
    folders.iter().any(|folder| folder.is_empty())
}

/// Certifies the files of a network: what to print of them.
fn certify_network<I: Inputs, R: Threads + Sync>(
    rt: &R,
    alloc: Global,
    network: &Arc<Topology>,
    words: &CertifyArguments<'_>,
    inputs: &mut NamedInputs<I>,
    noted: &Cell<Option<CertFault>>,
) -> Result<Output, Status>
where
    I::File: Send,
    requires { (1 ≤ words.now.workers) × (words.now.workers ≤ MAX_WORKERS) }
    ensures said { (text : List ℕ) → topology_of text ≡ Ok (arc_value network.now)
        → IfOk result (λ output. SaysFiles (inputs_seen I.seen inputs.old)
        (certify_asked words.now) text output.status output.text.items) }
    ensures fault { (text : List ℕ) → topology_of text ≡ Ok (arc_value network.now)
        → IfErr result (AreNotCertified (inputs_seen I.seen inputs.old)
        (inputs_seen I.seen inputs.new) (certify_asked words.now) text) }
{
    every_topology_has_a_trace(network); // law: there is a trace of the whole run
    interfaces_have_their_records::<Packet, NodeState>(); // law: they are in their partition's too
    if has_root(words.folders) {
        inputs.fail();
        return Err(Status::File);
    }
    match certified_books(rt, alloc, network, words, inputs) {
        Ok(books) => Output::of(
            certified_text(alloc, network, books.as_slice()),
            Status::Done,
        ),
        Err(fault) => {
            noted.set(shown_fault(&fault));
            Err(status_of(network, inputs, &fault))
        }
    }
}

/// What to print of the files of an input's network.
fn certify_said<I: Inputs, R: Threads + Sync>(
    rt: &R,
    alloc: Global,
    words: &CertifyArguments<'_>,
    inputs: &mut NamedInputs<I>,
    noted: &Cell<Option<CertFault>>,
) -> Result<Output, Status>
where
    I::File: Send,
    requires { (1 ≤ words.now.workers) × (words.now.workers ≤ MAX_WORKERS) }
    ensures said { IfOk result (λ output. SaysOfInput (inputs_seen I.seen inputs.old)
        words.now.topology.now (SaysFiles (inputs_seen I.seen inputs.old)
        (certify_asked words.now)) output.status output.text.items) }
    ensures fault { IfErr result (FailsCertify (inputs_seen I.seen inputs.old)
        (inputs_seen I.seen inputs.new) (certify_asked words.now)) }
{
    let network = read_shared(alloc, inputs, words.topology)?;
    certify_network(rt, alloc, &network, words, inputs, noted)
}

/// Certifies what replicas left in folders. The file of what a replica of each partition knew makes
/// and runs a new book, beside the trace files of its interfaces. Prints that they are certified,
/// and how many records each interface has, or why not. The certificate's fault is noted; it
/// affects no result.
pub fn say_certify<I: Inputs, O: Sink + Drop, R: Threads + Sync>(
    rt: &R,
    alloc: Global,
    words: &CertifyArguments<'_>,
    inputs: &mut NamedInputs<I>,
    out: O,
    noted: &Cell<Option<CertFault>>,
) -> (Status, O)
where
    I::File: Send,
    requires { (1 ≤ words.now.workers) × (words.now.workers ≤ MAX_WORKERS) }
    ensures { EndsCertify (exchange I.seen O.seen inputs.old out)
        (exchange I.seen O.seen inputs.new result.1) (certify_asked words.now) result.0 }
{
    end(certify_said(rt, alloc, words, inputs, noted), out)
}
