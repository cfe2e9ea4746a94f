//! The replicas of a run, each in a thread of its own.

ghost use Rattle.std.specs.Prelude.{◌≡◌, ◌⊎◌, ◌≤◌, All, IfErr, IfOk, Option, Some, false, true};
ghost use Rattle.nm_replica.specs.declared.served.Served.TheVariants.{Ended, Memory, Net};
ghost use Rattle.nm_files.specs.Files.{AreCounted};
ghost use Rattle.nm_files.specs.Outputs.{Files};
ghost use Rattle.std.specs.IoError.{error_kind};
ghost use Rattle.nm_run.specs.Faults.{IsToldAs};
ghost use Rattle.nm_run.specs.Sides.{IsStartFault, StillCounts, own_events};
ghost use Rattle.nm_run.specs.Took.{TookSome};
ghost use Rattle.nm_run.specs.Watching.{AreOwns, names_of, owns_of};
ghost use Rattle.nm_shared.specs.Board.{IsSeatOf};

use crate::dispatching::{Dispatcher, dispatch};
use crate::gates::gate_of;
use crate::posts::Post;
use crate::runtime::Runtime;
use crate::stations::{Counted, Own};
use crate::stop::Stop;
use crate::threads::Threaded;
use crate::told::{Stopped, Told};
use nm_base::{PartNo, Sink};
use nm_files::TraceFiles;
use nm_frames::ReplicaName;
use nm_peers::Peers;
use nm_replica::limits::MAX_IDLE_PERIODS;
use nm_replica::{Holdings, Served, Service, run_replica};
use nm_shared::workers::BookPass;
use nm_shared::{Gate, Lending, Pass, Plain};
use nm_transport::TcpTransport;
use std::io::{self, ErrorKind};
use std::net::Net;
use std::snapshot::Snapshot;
use std::sync::Wait;
use std::thread::{self, Promise};
use std::time::Clock;

/// How many events a replica does itself after a poll, if its book has a pool. If more are left,
/// the pool does them. It is many, since to lend a book was measured to cost more time than a
/// second processor saves (docs/BENCH.md), probably since its packets are in the first one's cache.
const OWN_EVENTS: u64 = 16_384;

/// The same without a pool. With so few, records were measured to be written soonest, probably
/// since their packets are still in the cache.
const EVENTS_ALONE: u64 = 128;

/// A replica that is to run.
#[derive(Drop)]
pub(crate) struct Side<'a, S> {
    pub own: Own<'a>,
    pub holdings: Holdings<'a, Plain, S>,
    pub post: Post,
    pub peers: Peers,
}

/// A replica that has run.
#[derive(Drop)]
pub(crate) struct SideEnd<S> {
    /// The place of its book among those of the run.
    pub index: usize,
    pub served: Served,
    /// Whether the others were told to end, since it was not done.
    pub told: Told,
    /// It was counted among those that have ended.
    pub counted: Counted,
    /// The pass of its book.
    pub pass: Pass<Plain>,
    /// A pass of each book of the run, in the order of the books.
    pub passes: Vec<Pass<Plain>>,
    pub files: TraceFiles<S>,
}

/// The trace files with which the thread of a replica began. If the replica was done, they took
/// records.
#[derive(Drop)]
struct TookRecords<S>(Snapshot<TraceFiles<S>>);

impl<S: Sink> Promise<SideEnd<S>> for TookRecords<S> {
    ghost use Rattle.nm_replica.specs.declared.served.Served.TheVariants.{Ended};
    ghost use Rattle.nm_run.specs.Took.{TookSome};

    ghost kept_by = { λ p end. end.served ≡ Ended → TookSome S.seen
        p.0.value.files.items end.files.files.items };
}

/// The replica of the run that is served, and its peers.
#[derive(Clone, Copy)]
struct Role<'a> {
    own: Own<'a>,
    /// The partitions of the peers that it calls.
    peers: &'a [PartNo],
    /// The peers that call it.
    callers: &'a [ReplicaName],
}

/// How many events a replica does itself after a poll.
fn own_events(lending: &Lending) -> u64
    ensures { result ≡ own_events lending.now }
{
    if lending.has_pool() {
        OWN_EVENTS
    } else {
        EVENTS_ALONE
    }
}

/// Serves a replica of the run over its connections until it ends.
fn serve_as<S: Sink, G: Gate, R: Net + Wait + Clock + Drop + Copy>(
    rt: &R,
    threaded: &Threaded<'_, G>,
    role: Role<'_>,
    service: &Service<'_, Plain>,
    holdings: &mut Holdings<'_, Plain, S>,
    transport: &mut TcpTransport<R>,
) -> Served
    // It is this replica of this run, with these peers.
    requires own { (service.now.book ≡ role.own.book)
        × (service.now.lending.now ≡ role.own.station.now.lending) }
    requires run { (service.now.topology ≡ threaded.now.plan.now.topology)
        × (service.now.books ≡ threaded.now.books) }
    requires peers { (service.now.peers ≡ role.peers) × (service.now.callers ≡ role.callers) }

    // It is stalled after a minute, and its records leave its book while it runs.
    requires limits { (service.now.idle_limit ≡ MAX_IDLE_PERIODS)
        × (service.now.run_limit ≡ own_events service.now.lending.now)
        × (service.now.keeps_records ≡ false) }
    requires notes { (service.now.progress ≡ Some threaded.now.plan.now.progress)
        × (service.now.notes_progress ≡ false) }
    ensures took { result ≡ Ended → TookSome S.seen
        holdings.old.files.files.items holdings.new.files.files.items }
{
    let gate = gate_of(threaded, &role.own);
    run_replica(rt, threaded.alloc, service, holdings, transport, &gate)
}

/// Serves a replica over its connections until it ends. The dispatcher notes its progress.
fn serve<S: Sink, G: Gate, R: Net + Wait + Clock + Drop + Copy>(
    rt: &R,
    threaded: &Threaded<'_, G>,
    role: Role<'_>,
    holdings: &mut Holdings<'_, Plain, S>,
    transport: &mut TcpTransport<R>,
) -> Served
    ensures took { result ≡ Ended → TookSome S.seen
        holdings.old.files.files.items holdings.new.files.files.items }
{
    let service = Service {
        topology: threaded.plan.topology,
        book: role.own.book,
        peers: role.peers,
        callers: role.callers,
        books: threaded.books,
        idle_limit: MAX_IDLE_PERIODS,
        run_limit: own_events(&role.own.station.lending),
        lending: &role.own.station.lending,
        progress: Some(threaded.plan.progress),
        notes_progress: false,
        keeps_records: false,
    };
    serve_as(rt, threaded, role, &service, holdings, transport)
}

/// How serving ends if the transport could not be made.
fn served_of(error: &io::Error) -> Served
    ensures kind { IsToldAs (error_kind error.now) Memory Net result }
    ensures either { (result ≡ Memory) ⊎ (result ≡ Net) }
{
    if error.kind() == ErrorKind::OutOfMemory {
        Served::Memory
    } else {
        Served::Net
    }
}

/// Tells all other replicas to end too, unless this one ended as done.
fn tell_others<G, R: Wait>(rt: &R, threaded: &Threaded<'_, G>, served: &Served) -> Told
    ensures { (served.now ≡ Ended) ⊎ (result.are_all ≡ true) }
{
    if *served != Served::Ended {
        return threaded.fail(rt);
    }
    Told::NOBODY
}

/// Runs a replica until it ends. If it was not done, all others are told to end too.
pub(crate) fn run_side<S: Sink, G: Gate, R: Net + Wait + Clock + Drop + Copy>(
    rt: &R,
    threaded: &Threaded<'_, G>,
    side: Side<'_, S>,
) -> SideEnd<S>
    ensures told { (result.served ≡ Ended) ⊎ (result.told.are_all ≡ true) }
    ensures counted { result.counted.index ≡ side.entry.own.index }
    ensures index { result.index ≡ side.entry.own.index }
    ensures took { result.served ≡ Ended → TookSome S.seen
        side.entry.holdings.files.files.items result.files.files.items }
{
    let Side {
        own,
        mut holdings,
        post,
        peers,
    } = side;
    let index = own.index;
    let Post { bound, poll } = post;
    let Peers {
        partitions,
        addresses,
        callers,
    } = peers;
    let served = match TcpTransport::new(*rt, threaded.alloc, poll, bound, addresses) {
        Err(error) => served_of(&error),
        Ok(mut transport) => {
            let role = Role {
                own,
                peers: partitions.as_slice(),
                callers: callers.as_slice(),
            };
            serve(rt, threaded, role, &mut holdings, &mut transport)
        }
    };
    let told = tell_others(rt, threaded, &served);
    let counted = threaded.count_end(rt, &own);
    let Holdings {
        pass,
        passes,
        files,
        ..
    } = holdings;
    SideEnd {
        index,
        served,
        told,
        counted,
        pass,
        passes,
        files,
    }
}

/// Runs all replicas, each in a thread of its own, and the dispatcher in this one, until all have
/// ended. The dispatcher gives the books that are lent to it to the pool, and begins when all
/// replicas have begun. Answers how the replicas ended, and the passes that the dispatcher had.
///
/// # Errors
///
/// `Net` if the system refuses a thread: no event was done then. `Memory` if memory was refused.
/// The replicas that had begun were told to end, and have ended.
pub(crate) fn run_threads<S: Sink + Drop + Send, G: Gate + Sync, R: Runtime>(
    rt: &R,
    threaded: &Threaded<'_, G>,
    sides: Vec<Side<'_, S>>,
    dispatcher: Dispatcher<'_>,
) -> Result<(Vec<SideEnd<S>>, Vec<BookPass<Plain>>), Stopped>
    requires workers { (1 ≤ threaded.now.plan.now.workers) × (threaded.now.plan.now.workers ≤ 64) }
    requires seat { IsSeatOf threaded.now.board.now dispatcher.seat }
    requires owns { AreOwns (names_of threaded.now) (owns_of dispatcher.watched.items) }
    ensures counted { (made : Option Files)
        → All (λ s. AreCounted S.seen made s.holdings.files.files.items) sides.entry.items
        → IfOk result (λ run. All (StillCounts S.seen made) run.0.items) }
    ensures told { IfErr result (λ stopped. stopped.told.are_all ≡ true) }
    ensures stop { IfErr result (λ stopped. IsStartFault stopped.stop) }
{
    thread::scope(
        thread::scope_env(),
        rt,
        move |scope| -> Result<(Vec<SideEnd<S>>, Vec<BookPass<Plain>>), Stopped>
            requires workers { (1 ≤ threaded.now.plan.now.workers)
                × (threaded.now.plan.now.workers ≤ 64) }
            requires seat { IsSeatOf threaded.now.board.now dispatcher.seat }
            requires owns { AreOwns (names_of threaded.now) (owns_of dispatcher.watched.items) }
            ensures counted { (made : Option Files)
                → All (λ s. AreCounted S.seen made s.holdings.files.files.items) sides.entry.items
                → IfOk result (λ run. All (StillCounts S.seen made) run.0.items) }
            ensures told { IfErr result (λ stopped. stopped.told.are_all ≡ true) }
            ensures stop { IfErr result (λ stopped. IsStartFault stopped.stop) }
        {
            let mut dispatcher = dispatcher;
            let mut threads = Vec::new(threaded.alloc);
            for side in sides {
                let promise = TookRecords(Snapshot::of(&side.holdings.files));
                let begun = scope.spawn_with(
                    promise,
                    move || -> SideEnd<S>
                        ensures { result.served ≡ Ended → TookSome S.seen
                            side.entry.holdings.files.files.items result.files.files.items }
                    { run_side(rt, threaded, side) },
                );
                let Ok(thread) = begun else {
                    return Err(Stopped::of(Stop::Net, threaded.fail(rt)));
                };
                if threads.push(thread).is_err() {
                    return Err(Stopped::of(Stop::Memory, threaded.fail(rt)));
                }
            }
            let dispatched = dispatch(rt, threaded, &mut dispatcher)?;
            let mut ends = Vec::new(threaded.alloc);
            for thread in threads {
                if ends.push(thread.join(rt)).is_err() {
                    return Err(Stopped::of(Stop::Memory, threaded.fail(rt)));
                }
            }
            match dispatcher.into_passes(dispatched) {
                Ok(passes) => Ok((ends, passes)),
                Err(_) => Err(Stopped::of(Stop::Memory, threaded.fail(rt))),
            }
        },
    )
}
