//! The other replicas of a run of one process.

ghost use Rattle.std.specs.Prelude.{◌+◌, ◌<◌, ◌≡◌, IfOk, IfSome, IsSomeAnd, None, false, length};
ghost use Rattle.std.specs.Prelude.{map, position, slice_get, true};
ghost use Rattle.nm_replica.specs.Served.{IsOneLeft, IsSomeLeft, WasDone, WereFinished};
ghost use Rattle.nm_replica.specs.Sisters.{MergesSister, is_sister_of, replica_name};

use crate::acts::Stand;
use crate::replica::{Holdings, Service};
use nm_book::Knowledge;
use nm_frames::ReplicaName;
use nm_shared::acts::CopyKnowledge;
use nm_shared::{Counts, MergeAnswer, Pass, SharedBook};
use std::alloc::{AllocError, Global};
use std::sync::Wait;

/// A merge of what one replica knew into another's book, or its refusal: only `Merged::of` makes
/// it, from the answer of that book.
#[derive(Clone, Copy)]
pub(crate) struct Merged {
    into: ReplicaName,
    from: ReplicaName,
}

/// What a replica knows.
#[derive(Drop)]
struct Copied {
    knowledge: Knowledge,
    from: ReplicaName,
}

impl Merged {
    /// The merge of what was copied, by the book's answer.
    fn of(answer: &MergeAnswer, copied: &Copied) -> Self
        ensures { (result.into ≡ replica_name answer.now.partition answer.now.replica)
            × (result.from ≡ copied.now.from) }
    {
        Merged {
            into: ReplicaName {
                partition: answer.partition,
                replica: answer.replica,
            },
            from: copied.from,
        }
    }
}

/// Which replica a book is.
fn name_of<C: Counts>(book: &SharedBook<C>) -> ReplicaName
    ensures { result ≡ replica_name book.now.partition book.now.replica }
{
    ReplicaName {
        partition: book.partition,
        replica: book.replica,
    }
}

/// Whether a book is that of the sister of a replica: the other one of its partition.
fn is_sister<C: Counts>(book: &SharedBook<C>, own: &SharedBook<C>) -> bool
    ensures { result ≡ is_sister_of (replica_name own.now.partition own.now.replica)
        (replica_name book.now.partition book.now.replica) }
{
    book.partition == own.partition && book.replica != own.replica
}

/// The place of its sister's book among these.
fn sister_in<C: Counts>(books: &[SharedBook<C>], own: &SharedBook<C>) -> Option<usize>
    ensures { result ≡ position
        (λ b. is_sister_of (replica_name own.now.partition own.now.replica)
        (replica_name b.partition b.replica)) books.now }
{
    books.iter().position(|book| is_sister(book, own))
}

/// A copy of what a replica knows.
fn copy_from<C: Counts, R: Wait>(
    rt: &R,
    alloc: Global,
    book: &SharedBook<C>,
    pass: &mut Pass<C>,
) -> Result<Copied, AllocError>
    ensures { IfOk result
        (λ c. c.from ≡ replica_name book.now.partition book.now.replica) }
{
    Ok(Copied {
        knowledge: book.act(rt, pass, CopyKnowledge { alloc })?,
        from: name_of(book),
    })
}

/// Merges what a replica knows into a book. A merge that is refused changes nothing.
fn merge_into<C: Counts, R: Wait>(
    rt: &R,
    alloc: Global,
    book: &SharedBook<C>,
    pass: &mut Pass<C>,
    copied: &Copied,
) -> Merged
    ensures { (result.into ≡ replica_name book.now.partition book.now.replica)
        × (result.from ≡ copied.now.from) }
{
    Merged::of(&book.merge(rt, pass, alloc, &copied.knowledge), copied)
}

/// Merges what the sister knows into the replica's own book, if there is a sister. Answers what was
/// merged into which book. A merge that is refused changes nothing, and the run goes on.
///
/// # Errors
///
/// If the copy was refused memory.
pub(crate) fn merge_sister<C: Counts, S, R: Wait>(
    rt: &R,
    alloc: Global,
    service: &Service<'_, C>,
    holdings: &mut Holdings<'_, C, S>,
) -> Result<Option<Merged>, AllocError>
    ensures merged { IfOk result (MergesSister
        (replica_name service.now.book.now.partition service.now.book.now.replica)
        (position (λ b. is_sister_of
        (replica_name service.now.book.now.partition service.now.book.now.replica)
        (replica_name b.partition b.replica)) service.now.books.now)
        (length holdings.old.passes.items)) }
    ensures same { (holdings.new.seats ≡ holdings.old.seats)
        × (holdings.new.files ≡ holdings.old.files)
        × (length holdings.new.passes.items ≡ length holdings.old.passes.items) }
{
    let Some(number) = sister_in(service.books, service.book) else {
        return Ok(None);
    };
    if number >= holdings.passes.len() {
        return Ok(None);
    }
    let sister = &service.books[number];
    let copied = copy_from(rt, alloc, sister, &mut holdings.passes[number])?;
    let own = service.book;
    Ok(Some(merge_into(rt, alloc, own, &mut holdings.pass, &copied)))
}

/// A replica whose book was seen to be done: only `see_done` makes it.
#[derive(Clone, Copy)]
struct Done {
    of: ReplicaName,
}

/// The first `count` of some replicas were seen to be done: only `and` counts one more.
#[derive(Clone, Copy)]
struct FirstDone {
    count: usize,
}

impl FirstDone {
    /// None so far.
    fn none() -> Self
        ensures { result.count ≡ 0 }
    {
        FirstDone { count: 0 }
    }

    /// One more: the replica of the next of these books.
    fn and<C: Counts>(self, books: &[SharedBook<C>], done: &Done) -> Self
        requires below { self.count < length books.now }
        requires next { IsSomeAnd (slice_get books.now self.count)
            (λ b. done.now.of ≡ replica_name b.partition b.replica) }
        ensures { result.count ≡ self.count + 1 }
    {
        FirstDone {
            count: self.count + 1,
        }
    }
}

/// Looks whether the book of a replica is done.
fn see_done<C: Counts, R: Wait>(rt: &R, book: &SharedBook<C>, pass: &mut Pass<C>) -> Option<Done>
    ensures of { IfSome result
        (λ d. d.of ≡ replica_name book.now.partition book.now.replica) }
    ensures done { IfSome result (λ _. WasDone C.exact (C.events_of pass.new.share)) }
    ensures left { result ≡ None → IsOneLeft }
{
    let standing = book.act(rt, pass, Stand);
    if !standing.is_done {
        return None;
    }
    Some(Done { of: name_of(book) })
}

/// Whether there are other replicas in the run, and all are done: each book was asked, with its own
/// pass.
pub(crate) fn all_are_done<C: Counts, R: Wait>(
    rt: &R,
    service: &Service<'_, C>,
    passes: &mut Vec<Pass<C>>,
) -> bool
    ensures passes { length passes.new.items ≡ length passes.old.items }
    ensures all { result ≡ true → WereFinished C.exact (length service.now.books.now)
        (map (λ p. C.events_of p.share) passes.new.items) }
    ensures some { result ≡ true → 0 < length service.now.books.now }
    ensures left { result ≡ false
        → IsSomeLeft (length service.now.books.now) (length passes.old.items) }
{
    if service.books.is_empty() || service.books.len() > passes.len() {
        return false;
    }
    let mut first = FirstDone::none();
    for number in 0..service.books.len() {
        let Some(done) = see_done(rt, &service.books[number], &mut passes[number]) else {
            return false;
        };
        first = first.and(service.books, &done);
    }
    first.count == service.books.len()
}
