//! The books of a run that is over, with all passes back.

ghost use Rattle.std.specs.Prelude.{◌≡◌, ◌+◌, All, IfOk, OnOk, Option, length, map, true};
ghost use Rattle.std.specs.Prelude.{vec_len};
ghost use Rattle.std.specs.Arc.{arc_value};
ghost use Rattle.std.specs.List.{flat_map, range_with_len, sum_by};
ghost use Rattle.nm_files.specs.Files.{AreCounted};
ghost use Rattle.nm_files.specs.Outputs.{Files};
ghost use Rattle.nm_run.specs.Passes.{pass_counts, given_back, more_of, one_more, pass_count};
ghost use Rattle.nm_run.specs.Passes.{side_books};
ghost use Rattle.nm_run.specs.Report.{AreOfRun, AreInPlace, CertifiesRun, IsInPlace};

use crate::fault::{RunCause, RunFault};
use crate::run::RunPlan;
use crate::sides::SideEnd;
use crate::stop::Stop;
use nm_base::Sink;
use nm_book::Book;
use nm_files::TraceFiles;
use nm_rounds::certify::certify;
use nm_shared::workers::BookPass;
use nm_shared::{Pass, Plain, SharedBook};
use nm_topology::Topology;
use std::alloc::{AllocError, Global};

/// The passes of each book.
#[derive(Drop)]
struct Passes {
    lists: Vec<Vec<Pass<Plain>>>,
}

impl Passes {
    /// No passes so far, of so many books.
    #[tactic(auto, using(std::proofs::lemmas::List::Sums::sum_by_push))]
    fn new(alloc: Global, books: usize) -> Result<Self, AllocError>
        ensures none { IfOk result (λ p. pass_count p ≡ 0) }
        ensures books { IfOk result (λ p. vec_len p.lists ≡ books) }
    {
        let mut lists = Vec::new(alloc);
        for number in 0..books {
            lists.push(Vec::new(alloc))?;
        }
        Ok(Passes { lists })
    }

    /// Adds a pass of a book.
    ///
    /// # Errors
    ///
    /// `Broken` if there is no such book. `Memory` if memory was refused.
    #[tactic(auto, using(crate::proofs::Passing::one_pass_more, crate::proofs::Passing::one_there))]
    fn add(&mut self, book: usize, pass: Pass<Plain>) -> Result<(), Stop>
        ensures one { OnOk result (pass_count self.new ≡ pass_count self.old + 1) }
        ensures at { OnOk result (pass_counts self.new ≡ one_more (pass_counts self.old) book) }
        ensures books { OnOk result (vec_len self.new.lists ≡ vec_len self.old.lists) }
    {
        let Some(list) = self.lists.get_mut(book) else {
            return Err(Stop::Broken);
        };
        list.push(pass)?;
        Ok(())
    }

    /// Adds a pass of each book, in order.
    ///
    /// # Errors
    ///
    /// Those of `add`.
    fn add_each(&mut self, passes: Vec<Pass<Plain>>) -> Result<(), Stop>
        ensures all { OnOk result (pass_count self.new ≡ pass_count self.old + vec_len passes) }
        ensures each { OnOk result (pass_counts self.new
            ≡ more_of (pass_counts self.old) (range_with_len 0 (length passes.items))) }
        ensures books { OnOk result (vec_len self.new.lists ≡ vec_len self.old.lists) }
    {
        for (book, pass) in passes.into_iter().enumerate() {
            self.add(book, pass)?;
        }
        Ok(())
    }
}

/// Adds the passes that replicas held. Answers their trace files.
///
/// # Errors
///
/// `Broken` if a pass is of no book. `Memory` if memory was refused.
#[tactic(auto, using(std::proofs::lemmas::List::Sums::sum_by_push))]
fn gather_sides<S: Sink + Drop>(
    alloc: Global,
    passes: &mut Passes,
    ends: Vec<SideEnd<S>>,
) -> Result<Vec<TraceFiles<S>>, Stop>
    ensures passes { OnOk result
        (pass_count passes.new ≡ pass_count passes.old + sum_by given_back ends.items) }
    ensures each { OnOk result (pass_counts passes.new
        ≡ more_of (pass_counts passes.old) (flat_map side_books ends.items)) }
    ensures books { OnOk result (vec_len passes.new.lists ≡ vec_len passes.old.lists) }
    ensures files { (made : Option Files)
        → All (λ end. AreCounted S.seen made end.files.files.items) ends.items
        → IfOk result (λ files. All (λ own. AreCounted S.seen made own.files.items) files.items) }
{
    let mut files = Vec::new(alloc);
    for end in ends {
        let SideEnd {
            index,
            pass,
            passes: others,
            files: own,
            ..
        } = end;
        passes.add(index, pass)?;
        passes.add_each(others)?;
        files.push(own)?;
    }
    Ok(files)
}

/// Adds the passes of jobs, and those with which a dispatcher read books.
///
/// # Errors
///
/// Those of `Passes::add`.
fn gather_others(passes: &mut Passes, others: Vec<BookPass<Plain>>) -> Result<(), Stop>
    ensures all { OnOk result (pass_count passes.new ≡ pass_count passes.old + vec_len others) }
    ensures each { OnOk result (pass_counts passes.new
        ≡ more_of (pass_counts passes.old) (map (λ p. p.book) others.items)) }
    ensures books { OnOk result (vec_len passes.new.lists ≡ vec_len passes.old.lists) }
{
    for other in others {
        passes.add(other.book, other.pass)?;
    }
    Ok(())
}

/// Whether a book is that of the replica with this number, if each partition has so many replicas.
fn is_in_place(book: &Book, replicas: u8, number: usize) -> bool
    ensures is { result ≡ true → IsInPlace replicas number book.now }
    ensures only { IsInPlace replicas number book.now → result ≡ true }
{
    let first = book.partition().index() * replicas as usize;
    book.replica() < replicas && number == first + book.replica() as usize
}

/// Closes a book, which must be that of the replica with this number.
fn close_one(
    book: SharedBook<Plain>,
    passes: Vec<Pass<Plain>>,
    replicas: u8,
    number: usize,
) -> Result<Book, Stop>
    ensures { IfOk result (IsInPlace replicas number) }
{
    let Ok(closed) = book.close(passes) else {
        return Err(Stop::Broken);
    };
    if !is_in_place(&closed.book, replicas, number) {
        return Err(Stop::Broken);
    }
    Ok(closed.book)
}

/// Closes all books.
///
/// # Errors
///
/// `Broken` if a pass is missing, or a book is not that of the replica at its place. `Memory` if
/// memory was refused.
fn close_books(
    alloc: Global,
    books: Vec<SharedBook<Plain>>,
    passes: Passes,
    replicas: u8,
) -> Result<Vec<Book>, Stop>
    requires { vec_len passes.lists ≡ vec_len books }
    ensures { IfOk result (λ closed. AreInPlace replicas closed.items) }
{
    let mut closed = Vec::new(alloc);
    for (book, own) in books.into_iter().zip(passes.lists) {
        let one = close_one(book, own, replicas, closed.len())?;
        closed.push(one)?;
    }
    Ok(closed)
}

/// The books and the trace files of a run that is over; its dispatcher had these passes.
pub(crate) fn close_run<S: Sink + Drop>(
    alloc: Global,
    plan: &RunPlan<'_>,
    books: Vec<SharedBook<Plain>>,
    ends: Vec<SideEnd<S>>,
    others: Vec<BookPass<Plain>>,
) -> Result<(Vec<Book>, Vec<TraceFiles<S>>), Stop>
    ensures books { IfOk result
        (λ run. AreOfRun (arc_value plan.now.topology.now) plan.now.replicas run.0.items) }
    ensures files { (made : Option Files)
        → All (λ end. AreCounted S.seen made end.files.files.items) ends.items
        → IfOk result (λ run. All (λ own. AreCounted S.seen made own.files.items) run.1.items) }
{
    let mut passes = Passes::new(alloc, books.len())?;
    let files = gather_sides(alloc, &mut passes, ends)?;
    gather_others(&mut passes, others)?;
    let closed = close_books(alloc, books, passes, plan.replicas)?;
    if closed.len() != plan.topology.partitions() as usize * plan.replicas as usize {
        return Err(Stop::Broken);
    }
    Ok((closed, files))
}

/// Certifies all books.
///
/// # Errors
///
/// `NotCertified` with the certificate's fault. `Memory` if memory was refused.
pub(crate) fn certify_all(
    alloc: Global,
    topology: &Topology,
    books: &[Book],
) -> Result<(), RunFault>
    ensures { CertifiesRun topology.now books.now result }
{
    let mut all = Vec::new(alloc);
    for number in 0..books.len() {
        if all.push(&books[number]).is_err() {
            return Err(RunFault::Memory);
        }
    }
    match certify(topology, all.as_slice()) {
        Ok(()) => Ok(()),
        Err(fault) => Err(RunFault::Refused(RunCause::NotCertified(fault))),
    }
}
