//! A replica over a transport, until it ends.

ghost use Rattle.std.specs.Prelude.{◌≡◌, ◌+◌, IfErr, IfOk, OnOk, ℕ, false, length, true};
ghost use Rattle.nm_base.specs.Count.{saturated};
ghost use Rattle.nm_replica.specs.Happened.{Happens};
ghost use Rattle.nm_replica.specs.Polls.{ending_of, idle_after, is_active};
ghost use Rattle.nm_replica.specs.Recording.{Streamed, Streams};
ghost use Rattle.nm_replica.specs.Seats.{AreKept, StandOnBoard};
ghost use Rattle.nm_replica.specs.Served.{EndsEarly, EndsWith, PolledOnce, took_all};
ghost use Rattle.nm_replica.specs.Turns.{links};
ghost use Rattle.nm_replica.specs.declared.served.Served.TheVariants.{Net, Stalled};

use crate::limits::MAX_POLLS;
use crate::neighbours::Neighbours;
use crate::polling::{Polled, poll};
use crate::seats::OwnSeats;
use crate::served::Served;
use crate::serving::Serving;
use nm_base::{PartNo, Sink};
use nm_files::TraceFiles;
use nm_frames::ReplicaName;
use nm_progress::Progress;
use nm_shared::{Counts, Gate, Lending, Pass, SharedBook};
use nm_topology::Topology;
use nm_transport::Transport;
use std::alloc::{AllocError, Global};
use std::sync::{Arc, Wait};

/// A replica, its peers, and its limits.
#[derive(Clone, Copy)]
pub struct Service<'a, C: Counts> {
    pub topology: &'a Arc<Topology>,
    /// Its book, which has its partition and number.
    pub book: &'a SharedBook<C>,
    /// The partitions of the peers that it calls: one for each replica of a partition above its own
    /// with which it shares a channel.
    pub peers: &'a [PartNo],
    /// The peers that call it: the replicas of partitions below its own with which it shares a
    /// channel.
    pub callers: &'a [ReplicaName],
    /// The books of all replicas of the run, its own included. None if it runs alone and merges
    /// with nobody.
    pub books: &'a [SharedBook<C>],
    /// It is stalled after so many periods in a row in which nothing moved and nothing was done.
    pub idle_limit: u64,
    /// How many events it does at most after each poll.
    pub run_limit: u64,
    /// Who runs its book. While that is lent, the replica does no event itself.
    pub lending: &'a Lending,
    /// Where it notes its figures, if they are asked for.
    pub progress: Option<&'a Progress>,
    /// It also notes the progress of its book there, since nobody else does.
    pub notes_progress: bool,
    /// Its book keeps its records until it is closed. Else they leave it while it runs, to the
    /// trace files, if there are any.
    pub keeps_records: bool,
}

impl<'a, C: Counts> Service<'a, C> {
    /// The replica and its peers.
    pub(crate) fn neighbours(&self) -> Neighbours<'a>
        ensures { (result.topology ≡ self.now.topology)
            × (result.partition ≡ self.now.book.now.partition)
            × (result.replica ≡ self.now.book.now.replica)
            × (result.peers ≡ self.now.peers) × (result.callers ≡ self.now.callers) }
    {
        let figures = match self.progress {
            Some(progress) => progress.figures(),
            None => None,
        };
        Neighbours {
            topology: self.topology,
            partition: self.book.partition,
            replica: self.book.replica,
            peers: self.peers,
            callers: self.callers,
            are_counted: figures.is_some(),
        }
    }
}

/// What a replica holds while it runs, and still has once it has ended.
#[derive(Drop)]
pub struct Holdings<'a, C: Counts, S> {
    /// The pass of its book.
    pub pass: Pass<C>,
    /// A pass of each book of the run, in the order of the books.
    pub passes: Vec<Pass<C>>,
    /// The seats of its outgoing channels on the board.
    pub seats: OwnSeats<'a>,
    /// The trace files to which its records go while it runs, unless its book keeps them.
    pub files: TraceFiles<S>,
}

/// For how many periods in a row nothing was moved or done, after one more poll.
fn idle_periods(before: u64, polled: &Polled) -> u64
    ensures { result ≡ idle_after before
        (is_active polled.now.octets polled.now.written polled.now.was_run) polled.now.ran_out }
{
    if polled.is_active() {
        return 0;
    }
    if polled.ran_out {
        return before.saturating_add(1);
    }
    before
}

/// How serving ends after so many polls and so many idle periods in a row, if it does.
fn ending_of(is_done: bool, idle: u64, limit: u64, polls: u64) -> Option<Served>
    ensures { result ≡ ending_of is_done idle limit polls }
{
    if is_done {
        return Some(Served::Ended);
    }
    if idle >= limit {
        return Some(Served::Stalled { polls });
    }
    None
}

/// A replica that is served poll by poll: its connections, and its counts.
#[derive(Drop)]
pub struct Running<W> {
    serving: Serving<W>,
    /// For how many periods in a row nothing was moved or done.
    pub idle: u64,
    /// How many polls were made, which stops at the greatest `u64`.
    pub polls: u64,
}

impl<W> Running<W> {
    /// A replica without connections.
    ///
    /// # Errors
    ///
    /// If memory was refused.
    pub fn new<C: Counts>(alloc: Global, service: &Service<'_, C>) -> Result<Self, AllocError>
        ensures { IfOk result (λ r. (r.idle ≡ 0) × (r.polls ≡ 0)) }
    {
        Ok(Running {
            serving: Serving::new(alloc, service)?,
            idle: 0,
            polls: 0,
        })
    }
}

/// Makes one poll of a replica. Answers how serving ends, if it does. `run_replica` repeats this.
///
/// # Errors
///
/// How serving ends if the replica was not seen to be done, and is not stalled.
#[tactic(auto, using(crate::proofs::Polls::polled_once))]
pub fn poll_replica<C: Counts, S: Sink, T: Transport, R: Wait>(
    rt: &R,
    alloc: Global,
    service: &Service<'_, C>,
    holdings: &mut Holdings<'_, C, S>,
    transport: &mut T,
    running: &mut Running<T::Connection>,
) -> Result<Option<Served>, Served>
    // Of the records that were handed out each file took those at its interface; on failure, those
    // before the record at which a file failed.
    ensures streams { OnOk result (Streams S.seen C.exact C.home
        holdings.old.files.files.items holdings.new.files.files.items) }
    ensures so_far { IfErr result (λ _. Streamed S.seen C.exact C.home
        holdings.old.files.files.items holdings.new.files.files.items) }
    ensures net { IfErr result (λ s. s ≡ Net → Streams S.seen C.exact C.home
        holdings.old.files.files.items holdings.new.files.files.items) }

    // Connections waited and had their turns, records were written, and the book did events or not.
    // That determines the count of idle periods, and whether serving ends.
    ensures exact { IfOk result (PolledOnce (Happens
        (links T.Connection.seen C.exact C.home) S.seen
        (service.now.keeps_records, length service.now.books.now)
        running.old.serving running.new.serving
        (holdings.old.files.files.items, holdings.new.files.files.items))
        service.now.idle_limit running.new.polls (running.old.idle, running.new.idle)
        (T.elapsed_periods transport.old, T.elapsed_periods transport.new)) }
    ensures polls { OnOk result (running.new.polls ≡ saturated (running.old.polls + 1)) }
    ensures waits { OnOk result
        ((T.asked transport.new).waits ≡ (T.asked transport.old).waits + 1) }
    ensures early { IfErr result EndsEarly }

    // The seats and the passes stay, and the board has the promise of each seat's channel.
    ensures seats { AreKept holdings.old.seats holdings.new.seats }
    ensures told { OnOk result (StandOnBoard C.exact C.home holdings.new.seats) }
    ensures passes { length holdings.new.passes.items ≡ length holdings.old.passes.items }
{
    let polled = poll(
        rt,
        alloc,
        service,
        holdings,
        transport,
        &mut running.serving,
    )?;
    running.idle = idle_periods(running.idle, &polled);
    running.polls = running.polls.saturating_add(1);
    Ok(ending_of(
        polled.is_done,
        running.idle,
        service.idle_limit,
        running.polls,
    ))
}

/// The answer of the gate, which was told how many octets have moved with peers.
#[derive(Clone, Copy)]
struct Asked {
    moved: u64,
    goes_on: bool,
}

/// Asks the gate whether a replica goes on, and tells it that so many octets have moved with peers.
fn ask<G: Gate>(gate: &G, moved: u64) -> Asked
    ensures { result.moved ≡ moved }
{
    Asked {
        moved,
        goes_on: gate.poll(moved),
    }
}

/// Asks the gate whether a replica goes on, and tells it how many octets have moved with peers.
fn ask_gate<G: Gate, W>(gate: &G, serving: &Serving<W>) -> Asked
    ensures { result.moved ≡ serving.now.moved }
{
    ask(gate, serving.moved)
}

/// How serving ends if the gate has answered that the replica is not to go on.
fn stopped(asked: &Asked) -> Served
    requires { asked.now.goes_on ≡ false }
    ensures { result ≡ Net }
{
    Served::Net
}

/// Serves the connections of a replica, and runs its book if it is to, until the replica is done
/// and its links have ended, or it ends for another reason. Passes, seats and files stay in
/// `holdings`. Meanwhile the trace files take the records that the book hands out, each those at
/// its interface.
///
/// The end that began a connection begins it again if it breaks. A wrong octet or Hello of a
/// stranger closes its connection; on any other it ends the replica. Before a poll ends, the board
/// has the promise of each outgoing channel. Before each poll the gate is called, with how many
/// octets have moved with peers, whether they count as activity or not.
///
/// `Ended` if the replica was seen to be done, with no record left to hand out. `File` if a trace
/// file failed. `Stalled` after no fewer periods than its limit, or after 10^9 polls. `Net` if a
/// peer broke the rules, a message was refused, the system refuses connections or waits, or the
/// gate stopped it. `Memory` if memory was refused.
pub fn run_replica<C: Counts, S: Sink, T: Transport, G: Gate, R: Wait>(
    rt: &R,
    alloc: Global,
    service: &Service<'_, C>,
    holdings: &mut Holdings<'_, C, S>,
    transport: &mut T,
    gate: &G,
) -> Served
    // Unless a file failed or memory was refused, each file took, of the records handed out, those
    // at its interface; in any case, those before a record at which a file failed.
    ensures streams { took_all result ≡ true → Streams S.seen C.exact C.home
        holdings.old.files.files.items holdings.new.files.files.items }
    ensures so_far { Streamed S.seen C.exact C.home
        holdings.old.files.files.items holdings.new.files.files.items }

    // The ending is true of the replica and of the time that passed.
    ensures ends { EndsWith C.exact C.home service.now.keeps_records service.now.idle_limit
        (T.elapsed_periods transport.old, T.elapsed_periods transport.new)
        ((T.asked transport.old).waits, (T.asked transport.new).waits) result }
    ensures polls { (polls : ℕ) → result ≡ Stalled polls
        → (T.asked transport.new).waits ≡ (T.asked transport.old).waits + polls }

    // The seats and the passes go back.
    ensures seats { AreKept holdings.old.seats holdings.new.seats }
    ensures passes { length holdings.new.passes.items ≡ length holdings.old.passes.items }
{
    let Ok(mut running) = Running::new(alloc, service) else {
        return Served::Memory;
    };
    for _made in 0..MAX_POLLS {
        let asked = ask_gate(gate, &running.serving);
        if !asked.goes_on {
            return stopped(&asked);
        }
        match poll_replica(rt, alloc, service, holdings, transport, &mut running) {
            Ok(None) => {}
            Ok(Some(served)) => return served,
            Err(served) => return served,
        }
    }
    Served::Stalled { polls: MAX_POLLS }
}
