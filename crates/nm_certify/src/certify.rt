//! The certificate of a run on several machines.

ghost use Rattle.std.specs.Prelude.{◌≡◌, ℕ, ◌≤◌, IfErr, IfOk, List, OnOk, Option, length};
ghost use Rattle.std.specs.Arc.{arc_value};
ghost use Rattle.nm_base.specs.declared.record.Record.{Record as TraceRecord};
ghost use Rattle.nm_rounds.specs.Certify.{AreCertified};
ghost use Rattle.nm_sim.specs.Trace.{IsTraceBefore};
ghost use Rattle.nm_certify.specs.Certify.{AreBooksOf, AreTraceFiles, ExplainsFault, HaveTexts};
ghost use Rattle.nm_certify.specs.Certify.{HeadersAreOwn};

use crate::books::{certificate_of, into_books, least_difference};
use crate::fault::{CertifyCause, CertifyFault, differs, unread};
use crate::part_files::PartFiles;
use crate::parts::{check_all, jobs_of};
use nm_base::Packet;
use nm_book::Book;
use nm_forward::NodeState;
use nm_model::trace::interfaces_have_their_records;
use nm_topology::Topology;
use std::alloc::Global;
use std::io::BufRead;
use std::sync::Arc;
use std::thread::Threads;

/// Certifies files of several machines; part p of the list is for partition p: the books that know
/// what is in the files of what is known. The trace files of interfaces that are looked at in their
/// own partition's part are those of the one event list then, whoever wrote any of the files. So
/// many partitions are worked on at a time; the records that are kept of each are those of a few
/// thousand events.
///
/// # Errors
///
/// The first fault in this order. `Known` with the least partition whose file of what is known is
/// refused. `NotCertified` with the certificate's fault: each book ran to its end, whatever the
/// trace files have. `Failed` if a trace file could not be read, for then not all were compared.
/// `Differs` with the least interface whose trace file differs. `Memory` if memory was refused.
pub fn certify_parts<B: BufRead + Drop + Send, R: Threads + Sync>(
    rt: &R,
    alloc: Global,
    topology: &Arc<Topology>,
    workers: usize,
    parts: Vec<PartFiles<B>>,
) -> Result<Vec<Book>, CertifyFault>
    requires workers { (1 ≤ workers) × (workers ≤ 64) }
    requires parts { length parts.items ≤ (arc_value topology.now).partitions }
    requires headers { HeadersAreOwn (arc_value topology.now) B.remaining parts.items }

    // The books are certified, one of each partition; they know what is in the files of what is
    // known.
    ensures certified { IfOk result (λ books. AreCertified (arc_value topology.now) books.items) }
    ensures books { IfOk result
        (λ books. AreBooksOf (arc_value topology.now) B.remaining parts.items books.items) }

    // The trace files are those of the one event list.
    ensures files { (texts : ℕ → Option (List ℕ)) (records : List (TraceRecord (List ℕ)))
        → IsTraceBefore (arc_value topology.now) (arc_value topology.now).stop records
        → HaveTexts (arc_value topology.now) B.remaining texts parts.items
        → OnOk result
        (AreTraceFiles (arc_value topology.now) B.remaining texts records parts.items) }

    // Or why not.
    ensures fault { IfErr result
        (ExplainsFault (arc_value topology.now) B.remaining parts.items) }
{
    interfaces_have_their_records::<Packet, NodeState>(); // law: they are in their partition's too
    let jobs = jobs_of(alloc, topology, parts)?;
    let ends = check_all(rt, alloc, topology, workers, jobs)?;
    if let Err(fault) = certificate_of(alloc, topology, ends.as_slice())? {
        return Err(CertifyFault::Refused(CertifyCause::NotCertified(fault)));
    }
    match least_difference(ends.as_slice()) {
        Ok(None) => Ok(into_books(alloc, ends)?),
        Ok(Some(found)) => Err(differs(found)),
        Err(fault) => Err(unread(&fault)),
    }
}
