//! What a replica does after a wait: its connections have turns before and after its own part.

ghost use Rattle.std.specs.Prelude.{◌+◌, ◌==◌, ◌||◌, ◌≡◌, IfErr, IfOk, IfSome, Ok, OnOk};
ghost use Rattle.std.specs.Prelude.{is_some, length, not, position};
ghost use Rattle.nm_base.specs.Count.{saturated};
ghost use Rattle.nm_replica.specs.Polls.{RunsOwn, is_merge_due, runs_on};
ghost use Rattle.nm_replica.specs.Served.{IsInterrupted, WasSeen};
ghost use Rattle.nm_replica.specs.Sisters.{MergesSister, is_sister_of, replica_name};
ghost use Rattle.nm_replica.specs.Turns.{MayDoMore, ServesTwice, links};

use crate::acts::Standing;
use crate::own_part::act_alone;
use crate::replica::{Holdings, Service};
use crate::served::Served;
use crate::serving::{Serving, serve_all};
use crate::sisters::Merged;
use crate::turning::{Does, Moves};
use nm_book::Ran;
use nm_shared::Counts;
use nm_transport::Transport;
use std::alloc::Global;
use std::sync::Wait;

/// What a replica did after a wait.
#[derive(Clone, Copy)]
pub(crate) struct Acted {
    /// The state of its book.
    pub standing: Standing,
    /// Its book did events since the last poll.
    pub was_run: bool,
    /// What moved, and whether more may be done at once.
    pub moves: Moves,
    /// What moved in the turns in which connections also wrote.
    pub said: Moves,
    /// Its book may run on at once.
    pub runs_on: bool,
    /// The answer of its book's run, if it ran.
    pub ran: Option<Ran>,
    /// What was merged, if that was due.
    pub merged: Option<Option<Merged>>,
}

/// Whether more may be done without a report of a connection: what a connection sent while others
/// wrote is not answered yet, one had all its turns, the book goes on, or there is more to read.
fn may_do_more(said: &Moves, runs_on: bool, have_more: bool) -> bool
    ensures { result
        ≡ (said.now.has_heard || said.now.has_more || runs_on || have_more) }
{
    said.has_heard || said.has_more || runs_on || have_more
}

/// The connections first only read, and the replica does its own part. Then they also write, so
/// that each peer is sent at once all that is new, and no promise that is outdated.
///
/// # Errors
///
/// How serving ends, if it ends early.
#[tactic(auto, using(crate::proofs::Polls::saturated_twice, crate::proofs::Turns::serves_twice, crate::proofs::Turns::may_do_more))]
pub(crate) fn serve_and_act<C: Counts, S, T: Transport, R: Wait>(
    rt: &R,
    alloc: Global,
    service: &Service<'_, C>,
    holdings: &mut Holdings<'_, C, S>,
    transport: &mut T,
    serving: &mut Serving<T::Connection>,
) -> Result<Acted, Served>
    // Files, seats and the periods that passed stay as they are.
    ensures idle { T.elapsed_periods transport.new ≡ T.elapsed_periods transport.old }
    ensures waits { (T.asked transport.new).waits ≡ (T.asked transport.old).waits }
    ensures files { holdings.new.files ≡ holdings.old.files }
    ensures seats { holdings.new.seats ≡ holdings.old.seats }
    ensures passes { length holdings.new.passes.items ≡ length holdings.old.passes.items }
    ensures stay { serving.new.stay ≡ serving.old.stay }
    ensures done { serving.new.was_done ≡ serving.old.was_done }
    ensures short { serving.new.short ≡ serving.old.short }
    ensures failed { serving.new.failed_waits ≡ serving.old.failed_waits }

    // Its answer was seen of the book, and an early ending is no success.
    ensures seen { IfOk result (λ a. WasSeen C.exact C.home a.standing) }
    ensures early { IfErr result IsInterrupted }

    // The octets that moved are those reported to the gate, those that count are among them, and
    // the events are the book's.
    ensures moved { IfOk result
        (λ a. serving.new.moved ≡ saturated (serving.old.moved + a.moves.moved)) }
    ensures counted { IfOk result
        (λ a. serving.new.counted ≡ saturated (serving.old.counted + a.moves.octets)) }
    ensures served { IfOk result (λ a. ServesTwice (links T.Connection.seen C.exact C.home)
        serving.old.connections serving.new.connections a.moves.moved a.moves.octets a.said) }
    ensures run { IfOk result (λ a. (serving.new.events ≡ a.standing.events)
        × (a.was_run ≡ not (a.standing.events == serving.old.events))) }

    // Without a pool its book ran. What its sister knows is merged when the count of polls requires
    // it.
    ensures ran { IfOk result
        (λ a. RunsOwn service.now.lending.now service.now.run_limit a.ran) }
    ensures merged { IfOk result (λ a. is_some a.merged ≡ is_merge_due serving.old.polls) }
    ensures sister { IfOk result (λ a. IfSome a.merged (MergesSister
        (replica_name service.now.book.now.partition service.now.book.now.replica)
        (position (λ b. is_sister_of
        (replica_name service.now.book.now.partition service.now.book.now.replica)
        (replica_name b.partition b.replica)) service.now.books.now)
        (length holdings.old.passes.items))) }
    ensures polls { OnOk result (serving.new.polls ≡ saturated (serving.old.polls + 1)) }

    // The second turns decide whether more is to be done at once, unless the book runs on, or there
    // is something to read on a connection.
    ensures more { IfOk result (λ a. MayDoMore a.said a.runs_on serving.new.connections.open
        a.moves.has_more) }
    ensures on { IfOk result (λ a. runs_on service.now.lending.now a.ran ≡ Ok a.runs_on) }
{
    let heard = serve_all(
        rt,
        service,
        &mut holdings.pass,
        transport,
        serving,
        Does::Hear,
    )?;
    let (own, merged) = act_alone(rt, alloc, service, holdings, serving.polls)?;
    let standing = own.standing;
    let was_run = standing.events != serving.events;
    serving.events = standing.events;
    serving.polls = serving.polls.saturating_add(1);
    let said = serve_all(
        rt,
        service,
        &mut holdings.pass,
        transport,
        serving,
        Does::Speak,
    )?;
    let mut moves = heard.with(said);
    moves.has_more = may_do_more(&said, own.runs_on, serving.connections.have_more());
    Ok(Acted {
        standing,
        was_run,
        moves,
        said,
        runs_on: own.runs_on,
        ran: own.ran,
        merged,
    })
}
