//! One poll of a replica, and what follows it.

ghost use Rattle.std.specs.Prelude.{◌&&◌, ◌*◌, ◌+◌, ◌==◌, ◌||◌, ◌≡◌, ◌≤◌, ◌⊎◌, IfErr, IfOk, IfSome};
ghost use Rattle.std.specs.Prelude.{Ok, OnOk, false, is_some, length, nat_lt, not, position, true};
ghost use Rattle.nm_base.specs.Count.{saturated};
ghost use Rattle.nm_replica.specs.Connections.{IsNoneReady};
ghost use Rattle.nm_replica.specs.Noted.{IsAwaitedName};
ghost use Rattle.nm_replica.specs.declared.limits.TheConstants.{MAX_HANDED, MAX_HAND_OUTS};
ghost use Rattle.nm_replica.specs.Polls.{IsNews, RunsOwn, is_active, is_merge_due, runs_on};
ghost use Rattle.nm_replica.specs.Recording.{Streamed, Streams, WasEmptied, WroteAsCounted};
ghost use Rattle.nm_replica.specs.Seats.{AreKept, StandOnBoard};
ghost use Rattle.nm_replica.specs.Served.{AllWereFinished, EndsEarly, HasStayed, WasFinished};
ghost use Rattle.nm_replica.specs.Sisters.{MergesSister, is_sister_of, replica_name};
ghost use Rattle.nm_replica.specs.Staying.{HasOneLeft, StaysOn, WasFound, stay_after};
ghost use Rattle.nm_replica.specs.Turns.{MayDoMore, WaitsAndServes, links};
ghost use Rattle.nm_replica.specs.declared.served.Served.TheVariants.{Net};
ghost use Rattle.nm_transport.specs.Transport.{elapsed_after};

use crate::acting::serve_and_act;
use crate::figuring::{is_held, note_figures, note_hold};
use crate::news::{News, is_newly_done, note_news};
use crate::noting::{NotedAwaited, note_awaited};
use crate::recording::record;
use crate::replica::{Holdings, Service};
use crate::served::Served;
use crate::serving::Serving;
use crate::sisters::Merged;
use crate::staying::{is_served, may_end};
use crate::telling::tell_all;
use crate::turning::Moves;
use crate::waiting::await_transport;
use nm_base::Sink;
use nm_book::Ran;
use nm_shared::Counts;
use nm_transport::Transport;
use std::alloc::Global;
use std::sync::Wait;

/// The result of a poll.
#[derive(Clone, Copy)]
pub(crate) struct Polled {
    /// A period was over, or it could not wait.
    pub ran_out: bool,
    /// How many octets moved with peers, how many of them count as activity, and how many records
    /// were written.
    pub moved: u64,
    pub octets: u64,
    pub written: u64,
    /// The book did events since the poll before.
    pub was_run: bool,
    /// The answer of the book's run, if the replica ran it.
    pub ran: Option<Ran>,
    /// What was merged of what the sister knows, if that was due.
    pub merged: Option<Option<Merged>>,
    /// How the pool was notified, if it was.
    pub news: Option<News>,
    /// For which peer the replica waits, if that was noted.
    pub awaited: Option<NotedAwaited>,
    /// What moved in the turns in which connections also wrote, and whether its book may run on.
    pub said: Moves,
    pub runs_on: bool,
    /// Records may be left to hand out, and more may be done on connections or with the book.
    pub has_records: bool,
    pub has_more: bool,
    /// The replica is done, its links have ended or all replicas are done, and its trace files are
    /// written.
    pub is_done: bool,
}

impl Polled {
    /// Whether octets moved that count, records were written, or the book did events.
    pub(crate) fn is_active(&self) -> bool
        ensures { result ≡ is_active self.now.octets self.now.written self.now.was_run }
    {
        self.octets > 0 || self.written > 0 || self.was_run
    }
}

/// One poll, after the gate was called, and what follows it: the connections have their turns, the
/// replica does its own part, its clocks on the board are raised, and its records are written.
///
/// # Errors
///
/// How serving ends, if it ends early.
pub(crate) fn poll<C: Counts, S: Sink, T: Transport, R: Wait>(
    rt: &R,
    alloc: Global,
    service: &Service<'_, C>,
    holdings: &mut Holdings<'_, C, S>,
    transport: &mut T,
    serving: &mut Serving<T::Connection>,
) -> Result<Polled, Served>
    // The seats and the passes stay, and the board has the promise of each seat's channel.
    ensures seats { AreKept holdings.old.seats holdings.new.seats }
    ensures told { OnOk result (StandOnBoard C.exact C.home holdings.new.seats) }
    ensures passes { length holdings.new.passes.items ≡ length holdings.old.passes.items }

    // Of the records that were handed out each file took those at its interface; on failure, those
    // before the record at which a file failed.
    ensures streams { OnOk result (Streams S.seen C.exact C.home
        holdings.old.files.files.items holdings.new.files.files.items) }
    ensures so_far { IfErr result (λ _. Streamed S.seen C.exact C.home
        holdings.old.files.files.items holdings.new.files.files.items) }
    ensures net { IfErr result (λ s. s ≡ Net → Streams S.seen C.exact C.home
        holdings.old.files.files.items holdings.new.files.files.items) }

    // The octets that moved with peers are reported to the gate. A poll was active if octets moved
    // that count, records were written, or the book has done more events.
    ensures moved { IfOk result
        (λ p. serving.new.moved ≡ saturated (serving.old.moved + p.moved)) }
    ensures counted { IfOk result
        (λ p. serving.new.counted ≡ saturated (serving.old.counted + p.octets)) }
    ensures served { IfOk result (λ p. WaitsAndServes (links T.Connection.seen C.exact C.home)
        p.ran_out serving.old.connections serving.new.connections p.moved p.octets p.said) }
    ensures run { IfOk result
        (λ p. p.was_run ≡ not (serving.new.events == serving.old.events)) }
    ensures written { IfOk result (λ p. WroteAsCounted S.seen C.exact C.home p.written
        holdings.old.files.files.items holdings.new.files.files.items) }

    // Without a pool the book ran. What the sister knows is merged when the count of polls requires
    // it.
    ensures ran { IfOk result
        (λ p. RunsOwn service.now.lending.now service.now.run_limit p.ran) }
    ensures merged { IfOk result (λ p. is_some p.merged ≡ is_merge_due serving.old.polls) }
    ensures sister { IfOk result (λ p. IfSome p.merged (MergesSister
        (replica_name service.now.book.now.partition service.now.book.now.replica)
        (position (λ b. is_sister_of
        (replica_name service.now.book.now.partition service.now.book.now.replica)
        (replica_name b.partition b.replica)) service.now.books.now)
        (length holdings.old.passes.items))) }
    ensures polls { OnOk result (serving.new.polls ≡ saturated (serving.old.polls + 1)) }

    // A pool is notified if records were written, and if the book is done since this poll.
    ensures news { IfOk result (λ p. IsNews (serving.new.was_done && not serving.old.was_done)
        (nat_lt 0 p.written) p.news) }

    // The next poll waits only if there is nothing to read on any connection, and no record is left
    // to hand out, unless the book keeps them.
    ensures busy { OnOk result (serving.new.is_busy ≡ false
        → IsNoneReady serving.new.connections.open) }
    ensures records { OnOk result (serving.new.is_busy ≡ false
        → (service.now.keeps_records ≡ true) ⊎ WasEmptied C.exact C.home) }
    ensures busy_if { IfOk result
        (λ p. serving.new.is_busy ≡ (p.has_records || p.has_more)) }
    ensures more { IfOk result
        (λ p. MayDoMore p.said p.runs_on serving.new.connections.open p.has_more) }
    ensures on { IfOk result (λ p. runs_on service.now.lending.now p.ran ≡ Ok p.runs_on) }
    ensures all_written { IfOk result (λ p. p.has_records ≡ true
        → MAX_HAND_OUTS * MAX_HANDED ≤ p.written) }

    // A node notes for whom it waits, once a period.
    ensures noted { IfOk result (λ p. is_some p.awaited ≡ (p.ran_out
        && (service.now.notes_progress && is_some service.now.progress))) }
    ensures awaited { IfOk result (λ p. IfSome p.awaited
        (λ n. IsAwaitedName serving.new.connections.contacts n.peer)) }

    // It answers whether the wait ran out, and whether all is done. An early ending is no success.
    ensures idle { IfOk result (λ p. T.elapsed_periods transport.new
        ≡ elapsed_after (T.elapsed_periods transport.old) p.ran_out) }
    ensures waits { OnOk result
        ((T.asked transport.new).waits ≡ (T.asked transport.old).waits + 1) }
    ensures done { IfOk result (λ p. p.is_done ≡ true
        → WasFinished C.exact C.home service.now.keeps_records) }
    ensures goes_on { IfOk result (λ p. p.is_done ≡ false → StaysOn serving.new.was_done
        serving.new.connections.contacts serving.new.stay (length service.now.books.now)
        (length holdings.old.passes.items)
        ⊎ HasOneLeft C.exact C.home service.now.keeps_records) }
    ensures found { OnOk result (WasFound C.exact C.home serving.new.was_done) }
    ensures stays { IfOk result (λ p. serving.new.stay ≡ stay_after serving.new.was_done
        p.ran_out serving.new.connections.contacts serving.old.stay) }
    ensures leaves { IfOk result (λ p. p.is_done ≡ true
        → HasStayed p.ran_out serving.new.connections.contacts serving.old.stay serving.new.stay
        ⊎ AllWereFinished (length service.now.books.now)) }
    ensures early { IfErr result EndsEarly }
{
    let ran_out = await_transport(alloc, service, transport, serving)?;
    let acted = serve_and_act(rt, alloc, service, holdings, transport, serving)?;
    let standing = acted.standing;
    let moves = acted.moves;
    let ends = may_end(
        rt,
        service,
        &mut holdings.passes,
        &mut serving.stay,
        &serving.connections.contacts,
        standing.is_done,
        ran_out,
    );
    tell_all(rt, service.book, &mut holdings.pass, &mut holdings.seats);
    let recorded = record(rt, alloc, service, holdings, &standing)?;
    let is_new = is_newly_done(standing.is_done, serving.was_done);
    let news = note_news(service, recorded.written > 0, is_new);
    serving.was_done = standing.is_done;
    serving.is_busy = recorded.has_more || moves.has_more;
    note_figures(service, serving, &standing, acted.was_run, moves.given);
    let awaited = note_awaited(service, &serving.connections.contacts, ran_out);
    let is_held = is_held(serving.is_busy, standing.is_done);
    note_hold(rt, service, &mut holdings.pass, is_held);
    Ok(Polled {
        ran_out,
        moved: moves.moved,
        octets: moves.octets,
        written: recorded.written,
        was_run: acted.was_run,
        ran: acted.ran,
        merged: acted.merged,
        said: acted.said,
        runs_on: acted.runs_on,
        news,
        awaited,
        has_records: recorded.has_more,
        has_more: moves.has_more,
        is_done: ends && is_served(&standing, service.keeps_records, recorded.is_last),
    })
}
