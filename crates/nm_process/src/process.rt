//! One replica over TCP, until it is done.

ghost use Rattle.std.specs.Prelude.{◌≡◌, ◌↔◌, ◌^◌, IfErr, IfOk, IfSome, IsSomeAnd, IsTrue, None};
ghost use Rattle.std.specs.Prelude.{false, true};
ghost use Rattle.std.specs.Arc.{arc_value};
ghost use Rattle.nm_peers.specs.Peers.{own_address};
ghost use Rattle.nm_replica.specs.Finished.{IsDone};
ghost use Rattle.nm_process.specs.Process.{IsAt, IsDoneReplica, IsUnfinished, fault_without_book};
ghost use Rattle.nm_process.specs.Process.{is_stall};
ghost use Rattle.nm_shared.specs.Counted.{IsBlankOf};
ghost use Rattle.nm_shared.specs.Home.{home_at, home_of};

use crate::ending::{Ending, ProcessEnd, process_end, serve_over};
use crate::fault::{ProcessCause, ProcessFault, fault_of};
use mio::Poll;
use nm_base::{MemSink, PartNo};
use nm_book::{Book, BookFault};
use nm_files::TraceFiles;
use nm_peers::peers::own_address;
use nm_peers::{Listener, Peers, peers_of};
use nm_progress::Progress;
use nm_replica::{Holdings, OwnSeats, Service};
use nm_shared::counts::PARTS;
use nm_shared::{
    ClockBoard, Closed, Counts, Ledgers, Lending, Naming, Pass, PassesOut, SharedBook,
};
use nm_topology::Topology;
use nm_transport::{Bound, TcpTransport};
use std::alloc::Global;
use std::io::{self, ErrorKind};
use std::marker::Brand;
use std::net::{Net, SocketAddr};
use std::sync::ledger::{Blank, Ledger};
use std::sync::{Arc, Wait};
use std::time::Clock;

/// How many events a process does at most after each poll.
pub(crate) const RUN_EVENTS: u64 = 4_096;

/// A replica of a partition as a process of its own, and where the replicas of the network listen.
#[derive(Clone, Copy)]
pub struct Process<'a> {
    pub topology: &'a Arc<Topology>,
    pub partition: PartNo,
    /// 0 or 1.
    pub replica: u8,
    /// Those of all replicas that take part, its own included.
    pub listeners: &'a [Listener],
    /// It is stalled after so many periods of 50 ms in a row in which nothing moved.
    pub idle_limit: u64,
    /// Where it notes its progress.
    pub progress: &'a Progress,
}

/// Whether the address at which a socket listens is the one asked for: the same host, and the same
/// port unless the system was to choose one.
fn is_at(at: SocketAddr, asked: SocketAddr) -> bool
    ensures { IsTrue result ↔ IsAt at asked }
{
    at.ip() == asked.ip() && (asked.port() == 0 || at.port() == asked.port())
}

/// Listens at the address that the replica of a book has among these.
///
/// # Errors
///
/// `AddrNotAvailable` if it has none, or the socket listens at another one.
fn listen<C: Counts, R: Net>(
    rt: &R,
    process: &Process<'_>,
    book: &SharedBook<C>,
) -> io::Result<Bound>
    ensures { IfOk result (λ bound. IsSomeAnd (own_address process.now.listeners.now
        book.now.partition book.now.replica) (IsAt bound)) }
{
    let own = own_address(process.listeners, book.partition, book.replica);
    let own = own.ok_or(ErrorKind::AddrNotAvailable)?;
    let bound = Bound::listen(rt, own)?;
    if !is_at(bound.at(), own) {
        return Err(ErrorKind::AddrNotAvailable.into());
    }
    Ok(bound)
}

/// A transport that listens at the address that the replica of a book has among these, and calls
/// its peers at theirs.
fn open_transport<C: Counts, R: Net + Clock + Drop + Copy>(
    rt: &R,
    alloc: Global,
    process: &Process<'_>,
    book: &SharedBook<C>,
    addresses: Vec<SocketAddr>,
) -> io::Result<TcpTransport<R>>
    ensures peers { IfOk result (λ transport. transport.peers ≡ addresses.items) }
    ensures at { IfOk result (λ transport. IsSomeAnd (own_address process.now.listeners.now
        book.now.partition book.now.replica) (IsAt transport.at)) }
{
    let bound = listen(rt, process, book)?;
    TcpTransport::new(*rt, alloc, Poll::new(rt)?, bound, addresses)
}

/// Serves a replica that only this process has. Answers how serving ended, whether it is done or
/// not.
///
/// # Errors
///
/// If serving could not begin.
fn serve<C: Counts, R: Net + Wait + Clock + Drop + Copy>(
    rt: &R,
    alloc: Global,
    process: &Process<'_>,
    book: &SharedBook<C>,
    holdings: &mut Holdings<'_, C, MemSink>,
) -> Result<Ending, ProcessFault>
    ensures { IfErr result (λ f. is_stall f ≡ false) }
{
    let Peers {
        partitions,
        addresses,
        callers,
    } = peers_of(alloc, process.topology, book.partition, process.listeners)?;
    let mut transport = match open_transport(rt, alloc, process, book, addresses) {
        Ok(transport) => transport,
        Err(error) => return Err(fault_of(error)),
    };
    let lending = Lending::alone();
    let service = Service {
        topology: process.topology,
        book,
        peers: partitions.as_slice(),
        callers: callers.as_slice(),
        books: &[],
        idle_limit: process.idle_limit,
        run_limit: RUN_EVENTS,
        lending: &lending,
        progress: Some(process.progress),
        notes_progress: true,
        // Files are made of the records once it is done.
        keeps_records: true,
    };
    Ok(serve_over(rt, alloc, process, &service, holdings, &mut transport))
}

/// Why there is no book: memory was refused, or there is no such replica, which the command line
/// rules out.
fn fault_without_book(fault: &BookFault) -> ProcessFault
    ensures { result ≡ fault_without_book fault.now }
{
    match fault {
        BookFault::Memory => ProcessFault::Memory,
        BookFault::Refused(_) => ProcessFault::Refused(ProcessCause::Broken),
    }
}

/// The shared book of a replica. Types name it, so that no other book is of this type.
fn shared_of<M: Naming + Send + Sync, E: Ledger + Send + Sync>(
    alloc: Global,
    process: &Process<'_>,
    messages: Blank,
    events: Blank,
) -> Result<SharedBook<Ledgers<M, E>>, ProcessFault>
    requires messages { IsBlankOf M.name M.parts messages.name messages.parts }
    requires events { IsBlankOf E.name E.parts events.name events.parts }
    requires home { M.home
        ≡ home_at (arc_value process.now.topology.now) process.now.partition process.now.replica }
    ensures { IfErr result (λ f. is_stall f ≡ false) }
{
    let topology = Arc::try_clone(process.topology)?;
    let (counts, whole) = Ledgers::<M, E>::open(messages, events);
    let (partition, replica) = (process.partition, process.replica);
    match SharedBook::new(alloc, topology, partition, replica, counts, whole) {
        Ok(book) => Ok(book),
        Err(fault) => Err(fault_without_book(&fault)),
    }
}

/// Serves a replica with this pass of its book. Answers the pass, and how serving ended.
fn serve_with<C: Counts, R: Net + Wait + Clock + Drop + Copy>(
    rt: &R,
    alloc: Global,
    process: &Process<'_>,
    book: &SharedBook<C>,
    pass: Pass<C>,
) -> Result<(Pass<C>, Ending), ProcessFault>
    ensures { IfErr result (λ f. is_stall f ≡ false) }
{
    let (board, owners, _) = ClockBoard::new(alloc, process.topology)?;
    let seats = OwnSeats::of_book(alloc, process.topology, &board, book, owners)?;
    let mut holdings = Holdings {
        pass,
        passes: Vec::new(alloc),
        seats,
        // The book keeps its trace: files are made of it once the replica is done.
        files: TraceFiles::new(alloc),
    };
    let ending = serve(rt, alloc, process, book, &mut holdings)?;
    Ok((holdings.pass, ending))
}

/// The book of a replica if a pass is missing: nothing here needs the counts.
fn left_book<C: Counts>(out: PassesOut<C>) -> Book
    ensures { C.exact ≡ true → home_of result ≡ C.home }
{
    let PassesOut { held, passes: _ } = out;
    held.into_book()
}

/// The book of a replica, closed or not.
fn book_of<C: Counts>(closed: Result<Closed, PassesOut<C>>) -> Book
    requires { C.exact ≡ true → IfOk closed (λ r. home_of r.book ≡ C.home) }
    ensures { C.exact ≡ true → home_of result ≡ C.home }
{
    match closed {
        Ok(closed) => closed.book,
        Err(out) => left_book(out),
    }
}

/// The book of a replica that was served with this one pass, if it is done, however serving ended.
fn close<M: Naming + Send + Sync, E: Ledger + Send + Sync>(
    alloc: Global,
    shared: SharedBook<Ledgers<M, E>>,
    pass: Pass<Ledgers<M, E>>,
) -> Result<Option<Book>, ProcessFault>
    requires { (M.parts ≡ 2 ^ 32) × (E.parts ≡ 2 ^ 32) }
    ensures done { IfOk result (λ closed. IfSome closed
        (λ b. (home_of b ≡ M.home) × IsDone b × (b.handed ≡ 0))) }
    ensures left { IfOk result (λ closed. closed ≡ None → IsUnfinished M.home) }
    ensures fault { IfErr result (λ f. is_stall f ≡ false) }
{
    let mut passes = Vec::new(alloc);
    passes.push(pass)?;
    let book = book_of(shared.close(passes));
    if !book.done() || book.handed() > 0 {
        return Ok(None);
    }
    Ok(Some(book))
}

/// Serves a replica; types name its book and passes. Answers the result of the process.
fn run_named<M: Naming + Send + Sync, E: Ledger + Send + Sync, R: Net + Wait + Clock + Drop + Copy>(
    rt: &R,
    alloc: Global,
    process: &Process<'_>,
    messages: Blank,
    events: Blank,
) -> Result<ProcessEnd, ProcessFault>
    requires messages { IsBlankOf M.name M.parts messages.name messages.parts }
    requires events { IsBlankOf E.name E.parts events.name events.parts }
    requires home { M.home
        ≡ home_at (arc_value process.now.topology.now) process.now.partition process.now.replica }
    ensures done { IfOk result (λ end. IsDoneReplica (arc_value process.now.topology.now)
        process.now.partition process.now.replica end.book) }
    ensures stalled { IfErr result (λ f. is_stall f ≡ true
        → IsUnfinished (home_at (arc_value process.now.topology.now) process.now.partition
        process.now.replica)) }
{
    let shared = shared_of::<M, E>(alloc, process, messages, events)?;
    let pass = shared.pass(rt)?;
    let (pass, ending) = serve_with(rt, alloc, process, &shared, pass)?;
    process_end(close(alloc, shared, pass)?, ending)
}

/// Serves one replica of a partition over TCP until it is done and all its links have ended, or
/// until nothing moved for `idle_limit` periods of 50 ms in a row, or the network or memory fails.
/// On success its book knows all and did all of its events, however serving ended. It merges with
/// nobody, and nothing is certified.
///
/// # Errors
///
/// If the replica is not done: `Net` if it cannot listen at its address, a peer broke the rules or
/// sent what cannot be, or the system refuses connections or waits; `Stalled` if nothing moved for
/// so long; `Memory` if memory was refused. The book is dropped then. `Stalled` is never answered
/// for a replica that was done.
pub fn run_process<R: Net + Wait + Clock + Drop + Copy>(
    rt: &R,
    alloc: Global,
    process: &Process<'_>,
) -> Result<ProcessEnd, ProcessFault>
    ensures done { IfOk result (λ end. IsDoneReplica (arc_value process.now.topology.now)
        process.now.partition process.now.replica end.book) }
    ensures stalled { IfErr result (λ f. is_stall f ≡ true
        → IsUnfinished (home_at (arc_value process.now.topology.now) process.now.partition
        process.now.replica)) }
{
    run_named::<Brand, Brand, R>(rt, alloc, process, Blank::new(PARTS), Blank::new(PARTS))
}
