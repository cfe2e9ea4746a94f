//! Replicas that are served.

ghost use Rattle.std.specs.Prelude.{◌≤◌};

use mio::Poll;
use nm_base::{MemSink, PartNo};
use nm_book::Book;
use nm_files::TraceFiles;
use nm_frames::ReplicaName;
use nm_policy::limits::LINGER_PERIODS;
use nm_progress::{Figure, Progress};
use nm_replica::{Holdings, OwnSeats, Served, Service, run_replica};
use nm_shared::{ClockBoard, Entered, Gate, Lending, Pass, Plain, SharedBook};
use nm_topology::Topology;
use nm_transport::{Bound, TcpTransport, Transport};
use std::alloc::Global;
use std::net::{Ipv4Addr, Net, SocketAddr};
use std::process::Abort;
use std::sync::atomic::{AtomicU64, Ordering};
use std::sync::{Arc, Wait};
use std::time::Clock;

/// A replica that was served: how it ended, its book, and how many messages it wrote again.
#[derive(Drop)]
pub struct Closed {
    pub served: Served,
    pub book: Book,
    pub resent: u64,
}

/// After so many idle polls a replica is stalled that may have to stay for a caller first.
pub const STAYS: u64 = 2 * LINGER_PERIODS;

/// A replica of partition 0, which calls those of partition 1.
pub fn caller(replica: u8) -> ReplicaName {
    ReplicaName {
        partition: PartNo::new(0),
        replica,
    }
}

/// Replica 0 of one of two partitions, with whom it speaks, and when it is stalled.
#[derive(Clone, Copy)]
pub struct Company {
    /// Partition 1, which is called; or else partition 0, which calls.
    pub is_called: bool,
    /// Two replicas of partition 0 call, and not one.
    pub by_two: bool,
    pub idle_limit: u64,
}

/// A network, and a replica of it.
#[derive(Clone, Copy)]
struct Side<'a> {
    topology: &'a Arc<Topology>,
    company: Company,
}

impl Company {
    /// Its partition.
    fn partition(self) -> PartNo {
        PartNo::new(if self.is_called { 1 } else { 0 })
    }

    /// How many partitions it calls, and how many replicas call it.
    fn counts(self) -> (usize, usize)
        ensures { (result.0 ≤ 1) × (result.1 ≤ 2) }
    {
        match (self.is_called, self.by_two) {
            (false, _) => (1, 0),
            (true, false) => (0, 1),
            (true, true) => (0, 2),
        }
    }
}

/// A gate that notes how many octets have moved.
#[derive(Drop)]
pub struct Noting {
    pub moved: AtomicU64,
}

impl Noting {
    pub fn new() -> Self {
        Noting {
            moved: AtomicU64::new(0),
        }
    }
}

impl Gate for Noting {
    fn enter(&self, job: usize) -> Entered {
        Entered { job }
    }

    fn leave(&self, entered: Entered) {
        let Entered { job: _ } = entered;
    }

    fn poll(&self, moved: u64) -> bool {
        self.moved.store(moved, Ordering::SeqCst);
        true
    }
}

/// The network of a text, which has to be accepted.
pub fn topology_of<R: Abort>(rt: &R, alloc: Global, text: &str) -> Arc<Topology> {
    let topology = Topology::read(alloc, text.as_bytes()).expect(rt, "a network");
    Arc::new(alloc, topology).expect(rt, "memory")
}

/// A replica that knows nothing.
pub fn book_of<R: Abort>(
    rt: &R,
    alloc: Global,
    topology: &Arc<Topology>,
    partition: u32,
    replica: u8,
) -> SharedBook<Plain> {
    let (counts, whole) = Plain::open();
    let topology = Arc::try_clone(topology).expect(rt, "memory");
    let partition = PartNo::new(partition);
    SharedBook::new(alloc, topology, partition, replica, counts, whole).expect(rt, "a replica")
}

/// The replicas with these numbers of these partitions.
pub fn books_of<R: Abort>(
    rt: &R,
    alloc: Global,
    topology: &Arc<Topology>,
    [one, other]: [(u32, u8); 2],
) -> [SharedBook<Plain>; 2] {
    [
        book_of(rt, alloc, topology, one.0, one.1),
        book_of(rt, alloc, topology, other.0, other.1),
    ]
}

/// A replica of these that does its events itself.
fn service_of<'x>(
    side: Side<'x>,
    book: &'x SharedBook<Plain>,
    peers: &'x [PartNo],
    callers: &'x [ReplicaName],
    lending: &'x Lending,
    progress: &'x Progress,
) -> Service<'x, Plain> {
    Service {
        topology: side.topology,
        book,
        peers,
        callers,
        books: &[],
        idle_limit: side.company.idle_limit,
        run_limit: 4_096,
        lending,
        progress: Some(progress),
        notes_progress: false,
        keeps_records: true,
    }
}

/// How many messages a replica wrote again, by what was noted.
fn resent_of(progress: &Progress, partition: PartNo) -> u64 {
    match progress.figures() {
        Some(figures) => figures.of(partition, 0).get(Figure::Resent),
        None => 0,
    }
}

/// Serves a replica with a pass of its book: how it ended, the pass, and how many messages it wrote
/// again.
fn serve_with<N: Transport, R: Wait + Abort>(
    rt: &R,
    alloc: Global,
    side: Side<'_>,
    book: &SharedBook<Plain>,
    transport: &mut N,
    gate: &Noting,
) -> (Served, Pass<Plain>, u64) {
    let partition = side.company.partition();
    let (board, owners, _) = ClockBoard::new(alloc, side.topology).expect(rt, "memory");
    let seats = OwnSeats::of_replica(alloc, side.topology, &board, partition, 0, owners).expect(
        rt, "memory",
    );
    let mut holdings: Holdings<'_, Plain, MemSink> = Holdings {
        pass: book.pass(rt).expect(rt, "memory"),
        passes: Vec::new(alloc),
        seats,
        files: TraceFiles::new(alloc),
    };
    let lending = Lending::alone();
    let progress = Progress::with_figures(alloc).expect(rt, "memory");
    let (peers, callers) = ([PartNo::new(1)], [caller(0), caller(1)]);
    let (peer_count, caller_count) = side.company.counts();
    let service = service_of(
        side,
        book,
        &peers[..peer_count],
        &callers[..caller_count],
        &lending,
        &progress,
    );
    let served = run_replica(rt, alloc, &service, &mut holdings, transport, gate);
    (served, holdings.pass, resent_of(&progress, partition))
}

/// The book that has no pass but this one.
pub fn close<R: Abort>(
    rt: &R,
    alloc: Global,
    book: SharedBook<Plain>,
    pass: Pass<Plain>,
) -> nm_shared::Closed {
    let mut passes = Vec::new(alloc);
    passes.push(pass).expect(rt, "memory");
    match book.close(passes) {
        Ok(closed) => closed,
        Err(_) => panic!(rt; "no pass is missing"),
    }
}

/// Serves a replica that knows nothing at first, and closes its book.
pub fn serve<N: Transport, R: Wait + Abort>(
    rt: &R,
    alloc: Global,
    topology: &Arc<Topology>,
    company: Company,
    transport: &mut N,
    gate: &Noting,
) -> Closed {
    let book = book_of(rt, alloc, topology, company.partition().number(), 0);
    let side = Side { topology, company };
    let (served, pass, resent) = serve_with(rt, alloc, side, &book, transport, gate);
    let book = close(rt, alloc, book, pass).book;
    Closed {
        served,
        book,
        resent,
    }
}

/// An address of 127.0.0.1, at a port that is free then.
pub const ANY: (Ipv4Addr, u16) = (Ipv4Addr::LOCALHOST, 0);

/// A listener at an address.
pub fn listen<R: Net + Abort>(net: &R, address: SocketAddr) -> Bound {
    Bound::listen(net, address).expect(net, "a free port")
}

/// A transport over TCP with these peers.
pub fn over_tcp<R: Net + Clock + Abort + Drop + Copy>(
    net: &R,
    alloc: Global,
    poll: Poll,
    listener: Bound,
    peers: &[SocketAddr],
) -> TcpTransport<R> {
    let peers = peers.to_vec(alloc).expect(net, "memory");
    TcpTransport::new(*net, alloc, poll, listener, peers).expect(net, "a transport")
}
