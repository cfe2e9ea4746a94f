//! What a replica does itself after a wait: it runs its book, and merges what its sister knows.

ghost use Rattle.std.specs.Prelude.{◌&&◌};
ghost use Rattle.std.specs.Prelude.{◌≡◌, ◌≤◌, IfOk, IfSome, Ok, if◌then◌else◌, is_some, length};
ghost use Rattle.std.specs.Prelude.{not};
ghost use Rattle.std.specs.Prelude.{position, true};
ghost use Rattle.nm_replica.specs.Noted.{NotesProgress};
ghost use Rattle.nm_replica.specs.Polls.{RunsOwn, is_merge_due, runs_on};
ghost use Rattle.nm_replica.specs.Served.{WasSeen};
ghost use Rattle.nm_replica.specs.Sisters.{MergesSister, is_sister_of, replica_name};

use crate::acts::{Stand, Standing};
use crate::figuring::note_loan;
use crate::limits::MERGE_POLLS;
use crate::noting::{NotedProgress, note_progress};
use crate::replica::{Holdings, Service};
use crate::sisters::{Merged, merge_sister};
use nm_book::Ran;
use nm_shared::{Counts, Pass};
use std::alloc::{AllocError, Global};
use std::sync::Wait;

/// How many events the replica does at most after a poll: none while its book is lent.
fn own_limit(is_lent: bool, run_limit: u64) -> u64
    ensures { result ≡ (if is_lent then 0 else run_limit) }
{
    if is_lent { 0 } else { run_limit }
}

/// Whether the replica goes on at once with the events that its run left. If there is a pool, that
/// does them.
fn goes_on<C: Counts>(service: &Service<'_, C>) -> bool
    ensures { result ≡ not service.now.lending.now }
{
    let lent = service.lending.lend();
    note_loan(service, lent.is_some());
    lent.is_none()
}

/// Whether the replica goes on at once after a run, or after none.
///
/// # Errors
///
/// If the run was refused memory.
fn runs_on<C: Counts>(service: &Service<'_, C>, ran: Option<Ran>) -> Result<bool, AllocError>
    ensures { result ≡ runs_on service.now.lending.now ran }
{
    match ran {
        None | Some(Ran::All(_)) => Ok(false),
        Some(Ran::Limit(_)) => Ok(goes_on(service)),
        Some(Ran::Memory(_)) => Err(AllocError),
    }
}

/// Runs the book, if the replica is to.
fn run_own<C: Counts, R: Wait>(
    rt: &R,
    alloc: Global,
    service: &Service<'_, C>,
    pass: &mut Pass<C>,
) -> Option<Ran>
    ensures { RunsOwn service.now.lending.now service.now.run_limit result }
{
    let limit = own_limit(service.lending.is_lent(), service.run_limit);
    if limit == 0 {
        return None;
    }
    Some(service.book.run(rt, pass, alloc, limit))
}

/// What a replica did with its book.
#[derive(Clone, Copy)]
pub(crate) struct Own {
    /// The state of the book.
    pub standing: Standing,
    /// The answer of its run, if it ran.
    pub ran: Option<Ran>,
    /// It may run on at once; a replica with a pool never does.
    pub runs_on: bool,
    /// What was noted of its progress, if that was.
    noted: Option<NotedProgress>,
}

/// Runs the book, if the replica is to, and reads its state.
fn run_book<C: Counts, R: Wait>(
    rt: &R,
    alloc: Global,
    service: &Service<'_, C>,
    pass: &mut Pass<C>,
) -> Result<Own, AllocError>
    ensures seen { IfOk result (λ o. WasSeen C.exact C.home o.standing) }
    ensures late { IfOk result (λ o. C.exact ≡ true
        → C.events_of pass.new.share ≤ o.standing.events) }
    ensures ran { IfOk result (λ o. RunsOwn service.now.lending.now service.now.run_limit o.ran) }
    ensures on { IfOk result
        (λ o. runs_on service.now.lending.now o.ran ≡ Ok o.runs_on) }
    ensures noted { IfOk result
        (λ o. NotesProgress (service.now.notes_progress && is_some service.now.progress)
        o.standing o.noted) }
{
    let ran = run_own(rt, alloc, service, pass);
    let runs_on = runs_on(service, ran)?;
    let standing = service.book.act(rt, pass, Stand);
    let noted = note_progress(service, &standing);
    Ok(Own {
        standing,
        ran,
        runs_on,
        noted,
    })
}

/// Merges what the sister knows, if that is due after so many polls. Answers whether it was due,
/// and what was merged into which book.
fn merge_at<C: Counts, S, R: Wait>(
    rt: &R,
    alloc: Global,
    service: &Service<'_, C>,
    holdings: &mut Holdings<'_, C, S>,
    polls: u64,
) -> Result<Option<Option<Merged>>, AllocError>
    ensures due { IfOk result
        (λ m. is_some m ≡ is_merge_due polls) }
    ensures merged { IfOk result (λ m. IfSome m (MergesSister
        (replica_name service.now.book.now.partition service.now.book.now.replica)
        (position (λ b. is_sister_of
        (replica_name service.now.book.now.partition service.now.book.now.replica)
        (replica_name b.partition b.replica)) service.now.books.now)
        (length holdings.old.passes.items))) }
    ensures files { holdings.new.files ≡ holdings.old.files }
    ensures seats { holdings.new.seats ≡ holdings.old.seats }
    ensures passes { length holdings.new.passes.items ≡ length holdings.old.passes.items }
{
    if polls % MERGE_POLLS != MERGE_POLLS - 1 {
        return Ok(None);
    }
    Ok(Some(merge_sister(rt, alloc, service, holdings)?))
}

/// What the replica does itself after a poll: its events, and the merge.
pub(crate) fn act_alone<C: Counts, S, R: Wait>(
    rt: &R,
    alloc: Global,
    service: &Service<'_, C>,
    holdings: &mut Holdings<'_, C, S>,
    polls: u64,
) -> Result<(Own, Option<Option<Merged>>), AllocError>
    ensures seen { IfOk result (λ a. WasSeen C.exact C.home a.0.standing) }
    ensures ran { IfOk result
        (λ a. RunsOwn service.now.lending.now service.now.run_limit a.0.ran) }
    ensures on { IfOk result
        (λ a. runs_on service.now.lending.now a.0.ran ≡ Ok a.0.runs_on) }
    ensures merged { IfOk result (λ a. is_some a.1 ≡ is_merge_due polls) }
    ensures sister { IfOk result (λ a. IfSome a.1 (MergesSister
        (replica_name service.now.book.now.partition service.now.book.now.replica)
        (position (λ b. is_sister_of
        (replica_name service.now.book.now.partition service.now.book.now.replica)
        (replica_name b.partition b.replica)) service.now.books.now)
        (length holdings.old.passes.items))) }
    ensures files { holdings.new.files ≡ holdings.old.files }
    ensures seats { holdings.new.seats ≡ holdings.old.seats }
    ensures passes { length holdings.new.passes.items ≡ length holdings.old.passes.items }
{
    let merged = merge_at(rt, alloc, service, holdings, polls)?;
    Ok((run_book(rt, alloc, service, &mut holdings.pass)?, merged))
}
