//! One partition: its file of what is known makes its book, which is run beside its trace files.

ghost use Rattle.std.specs.Prelude.{◌≡◌, IfErr, IfOk, IfSome, [], length};
ghost use Rattle.std.specs.Arc.{arc_value};
ghost use Rattle.nm_book.specs.Book.{state_of};
ghost use Rattle.nm_known.specs.Known.{ExplainsText, known_octets};
ghost use Rattle.nm_certify.specs.Certify.{fresh_book};
ghost use Rattle.nm_certify.specs.Checking.{IsEnd, RefusesPart};

use crate::fault::{CertifyFault, known_fault};
use crate::part_files::PartFiles;
use crate::running::{Compared, check_traces};
use nm_base::PartNo;
use nm_book::{Book, BookFault};
use nm_known::{KnownCause, KnownFault, read_known};
use nm_topology::Topology;
use std::alloc::Global;
use std::io::BufRead;
use std::sync::Arc;

/// A partition that is to be checked.
#[derive(Drop)]
pub(crate) struct Job<B> {
    pub(crate) partition: PartNo,
    pub(crate) files: PartFiles<B>,
}

/// The result of a partition: its book at the end of its run, and the least interface whose trace
/// file differs, if one does.
#[derive(Drop)]
pub(crate) struct PartEnd {
    pub(crate) book: Book,
    pub(crate) traces: Compared,
}

/// A book that knows what is in a file. For a partition or a replica that is not there nothing is
/// read: `Failed`.
fn read_book<B: BufRead + Drop>(
    alloc: Global,
    topology: &Arc<Topology>,
    partition: PartNo,
    replica: u8,
    known: B,
) -> Result<Book, KnownFault>
    ensures fresh { IfOk result (λ b. b
        ≡ record (fresh_book (arc_value topology.now) partition replica) { knows = b.knows }) }
    ensures known { IfOk result
        (λ b. IfSome (B.remaining known) (λ text. text ≡ known_octets b)) }
    ensures fault { IfErr result (ExplainsText
        (fresh_book (arc_value topology.now) partition replica) (B.remaining known)) }
{
    let shared = topology.clone()?;
    let mut book = match Book::new(alloc, shared, partition, replica) {
        Ok(book) => book,
        Err(BookFault::Refused(_)) => return Err(KnownFault::Refused(KnownCause::Failed)),
        Err(BookFault::Memory) => return Err(KnownFault::Memory),
    };
    read_known(alloc, &mut book, known)?;
    Ok(book)
}

/// Checks the files of a partition: its book is run to its end, though a trace file differs.
pub(crate) fn check_part<B: BufRead + Drop>(
    alloc: Global,
    topology: &Arc<Topology>,
    job: Job<B>,
) -> Result<PartEnd, CertifyFault>
    ensures end { IfOk result (IsEnd (arc_value topology.now) B.remaining job) }
    ensures fault { IfErr result (RefusesPart (arc_value topology.now) B.remaining job) }
{
    let Job { partition, files } = job;
    let PartFiles {
        replica,
        known,
        traces,
    } = files;
    let mut book = match read_book(alloc, topology, partition, replica, known) {
        Ok(book) => book,
        Err(fault) => return Err(known_fault(partition, fault)),
    };
    let traces = check_traces(alloc, topology, partition, &mut book, traces)?;
    Ok(PartEnd { book, traces })
}
