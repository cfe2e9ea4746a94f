//! A run of all partitions.

ghost use Rattle.std.specs.Prelude.{◌≡◌, ◌⊎◌, ◌≤◌, ℕ, All, IfErr, IfOk, OnOk, length, map, true};
ghost use Rattle.std.specs.Prelude.{vec_len};
ghost use Rattle.std.specs.Arc.{arc_value};
ghost use Rattle.nm_book.specs.Book.{is_replica};
ghost use Rattle.nm_files.specs.Files.{AreCounted};
ghost use Rattle.nm_run.specs.Faults.{HasReason, IsOfFiles};
ghost use Rattle.std.specs.List.{filter};
ghost use Rattle.nm_replica.specs.Seats.{board_of, words_of};
ghost use Rattle.nm_replica.specs.Words.{is_word_of};
ghost use Rattle.nm_peers.specs.Peers.{ArePeers};
ghost use Rattle.nm_rounds.specs.Certify.{AreCertified};
ghost use Rattle.nm_run.specs.Files.{AreClosed, AreKeptBooks, AreNamed, AreOwnFiles, HaveFiles};
ghost use Rattle.nm_run.specs.Leaving.{leaving};
ghost use Rattle.nm_run.specs.Replicas.{AreAllReplicas, HaveDistinctNames};
ghost use Rattle.nm_run.specs.Watching.{AreOwns, names_of, owns_of};
ghost use Rattle.nm_shared.specs.Board.{AreFirstOwners, owned_word};
ghost use Rattle.nm_run.specs.Report.{AreOfRun, IsCertifiedRun};
ghost use Rattle.nm_run.specs.declared.stop.Stop.TheVariants.{Memory};

use crate::closing::{certify_all, close_run};
use crate::dispatching::Dispatcher;
use crate::endings::check_endings;
use crate::fault::RunFault;
use crate::files::{close_all, files_of, place_files};
use crate::jobs::Watched;
use crate::keeping::{keep_books, place_known};
use crate::posts::{Post, Posts, open_posts};
use crate::report::{Report, report_of};
use crate::runtime::Runtime;
use crate::sides::{Side, SideEnd, run_threads};
use crate::stations::Own;
use crate::stop::Stop;
use crate::threads::Threaded;
use crate::waking::{DispatcherWaker, woken_poll};
use mio::{Events, Poll};
use nm_base::PartNo;
use nm_book::{Book, BookFault};
use nm_files::{ClosedFiles, Outputs};
use nm_peers::peers_of;
use nm_progress::Progress;
use nm_replica::seats::Dealt;
use nm_replica::{Holdings, OwnSeats};
use nm_shared::workers::BookPass;
use nm_shared::{ClockBoard, Gate, OwnerSeat, Pass, Plain, Seat, SharedBook};
use nm_topology::Topology;
use std::alloc::{AllocError, Global};
use std::net::Net;
use std::sync::{Arc, OnceLock, Wait};

/// A network whose partitions run at once.
#[derive(Clone, Copy)]
pub struct RunPlan<'a> {
    pub topology: &'a Arc<Topology>,
    /// Where the trace files are made.
    pub folder: &'a str,
    /// How many threads run books: 1 to 64.
    pub workers: usize,
    /// How many replicas each partition has: 1 or 2.
    pub replicas: u8,
    /// Whether files of what the first replica of each partition knows are also made.
    pub keeps: bool,
    /// Where the progress of all is noted.
    pub progress: &'a Progress,
}

/// Shares a new replica of a partition.
fn share_one(
    alloc: Global,
    topology: &Arc<Topology>,
    partition: PartNo,
    replica: u8,
) -> Result<SharedBook<Plain>, Stop>
    ensures named { IfOk result (λ b. (b.partition ≡ partition) × (b.replica ≡ replica)) }
    ensures memory { is_replica (arc_value topology.now) partition replica ≡ true
        → IfErr result (λ s. s ≡ Memory) }
{
    let (counts, whole) = Plain::open();
    let topology = Arc::try_clone(topology)?;
    match SharedBook::new(alloc, topology, partition, replica, counts, whole) {
        Ok(book) => Ok(book),
        Err(BookFault::Refused(_)) => Err(Stop::Broken),
        Err(BookFault::Memory) => Err(Stop::Memory),
    }
}

/// Shares the replicas of all partitions, by partition and replica.
fn share_all(alloc: Global, plan: &RunPlan<'_>) -> Result<Vec<SharedBook<Plain>>, Stop>
    ensures { IfOk result (λ books. AreAllReplicas (arc_value plan.now.topology.now).partitions
        plan.now.replicas (map (λ b. (b.partition, b.replica)) books.items)) }
{
    let mut books = Vec::new(alloc);
    for partition in 0..plan.topology.partitions() {
        for replica in 0..plan.replicas {
            books.push(share_one(alloc, plan.topology, PartNo::new(partition), replica)?)?;
        }
    }
    Ok(books)
}

/// A pass of each book.
fn passes_of<R: Wait>(
    rt: &R,
    alloc: Global,
    books: &[SharedBook<Plain>],
) -> Result<Vec<Pass<Plain>>, AllocError>
    ensures { IfOk result (λ passes. map {B = ℕ × ℕ} (λ p. (p.partition, p.replica)) passes.items
        ≡ map (λ b. (b.partition, b.replica)) books.now) }
{
    let mut passes = Vec::with_capacity(alloc, books.len())?;
    for book in books {
        passes.push(book.pass(rt)?)?;
    }
    Ok(passes)
}

/// The holdings of a replica.
fn holdings_of<'a, F: Outputs, G, R: Wait>(
    rt: &R,
    threaded: &Threaded<'_, G>,
    own: Own<'_>,
    seats: OwnSeats<'a>,
    outputs: &mut F,
) -> Result<Holdings<'a, Plain, F::File>, Stop>
    ensures seats { IfOk result (λ h. h.seats ≡ seats.entry) }
    ensures counted { IfOk result
        (λ h. AreCounted F.File.seen (F.made outputs.old) h.files.files.items) }
    ensures own { IfOk result (λ h. AreOwnFiles (arc_value threaded.now.plan.now.topology.now)
        own.entry.book.now.partition own.entry.book.now.replica h.files.files.items) }
    ensures same { F.made outputs.new ≡ F.made outputs.old }
{
    Ok(Holdings {
        files: files_of(threaded.alloc, threaded.plan, own.name(), outputs)?,
        pass: own.book.pass(rt)?,
        passes: passes_of(rt, threaded.alloc, threaded.books)?,
        seats,
    })
}

/// A replica that is to run.
fn side_of<'a, F: Outputs, G, R: Wait>(
    rt: &R,
    threaded: &Threaded<'_, G>,
    own: Own<'a>,
    post: Post,
    seats: OwnSeats<'a>,
    outputs: &mut F,
) -> Result<Side<'a, F::File>, Stop>
    ensures own { IfOk result (λ s. s.own ≡ own.entry) }
    ensures post { IfOk result (λ s. s.post ≡ post) }
    ensures peers { IfOk result (λ s. ArePeers (arc_value threaded.now.plan.now.topology.now)
        own.entry.book.now.partition threaded.now.listeners.now s.peers) }
    ensures seats { IfOk result (λ s. s.holdings.seats ≡ seats.entry) }
    ensures files { IfOk result (λ s. AreOwnFiles (arc_value threaded.now.plan.now.topology.now)
        own.entry.book.now.partition own.entry.book.now.replica
        s.holdings.files.files.items) }
    ensures counted { IfOk result
        (λ s. AreCounted F.File.seen (F.made outputs.old) s.holdings.files.files.items) }
    ensures same { F.made outputs.new ≡ F.made outputs.old }
{
    let peers = peers_of(
        threaded.alloc,
        threaded.plan.topology,
        own.book.partition,
        threaded.listeners,
    )?;
    Ok(Side {
        own,
        holdings: holdings_of(rt, threaded, own, seats, outputs)?,
        post,
        peers,
    })
}

/// All replicas.
fn sides_of<'a, F: Outputs, G, R: Wait>(
    rt: &R,
    threaded: &Threaded<'a, G>,
    owners: Vec<OwnerSeat>,
    posts: Vec<Post>,
    outputs: &mut F,
) -> Result<Vec<Side<'a, F::File>>, Stop>
    requires owners { AreFirstOwners threaded.now.board.now owners.items }
    requires names { HaveDistinctNames (names_of threaded.now) }
    requires all { (vec_len posts ≡ length threaded.now.books.now)
        × (length threaded.now.stations.now ≡ length threaded.now.books.now) }
    ensures all { IfOk result (λ sides. vec_len sides ≡ length threaded.now.books.now) }
    ensures own { IfOk result (λ sides. AreOwns (names_of threaded.now)
        (map (λ s. s.own) sides.items)) }
    ensures posts { IfOk result (λ sides. map (λ s. s.post) sides.items ≡ posts.items) }
    ensures board { IfOk result
        (λ sides. All (λ s. board_of s.holdings.seats ≡ threaded.now.board.now) sides.items) }

    // Each has, of all seats, those of its own words.
    ensures seats { IfOk result (λ sides. All (λ s. words_of s.holdings.seats
        ≡ filter (is_word_of (arc_value threaded.now.plan.now.topology.now)
        s.own.book.now.partition s.own.book.now.replica) (map owned_word owners.items))
        sides.items) }
    ensures counted { IfOk result (λ sides. All (λ s. AreCounted F.File.seen
        (F.made outputs.old) s.holdings.files.files.items) sides.items) }
    ensures same { F.made outputs.new ≡ F.made outputs.old }
{
    let mut sides = Vec::new(threaded.alloc);
    let mut rest = OwnSeats::all(threaded.board, owners);
    for post in posts {
        let own = threaded.own_at(sides.len());
        let topology = threaded.plan.topology;
        let Dealt { own: seats, others } = rest.deal(threaded.alloc, topology, own.name())?;
        rest = others;
        sides.push(side_of(rt, threaded, own, post, seats, outputs)?)?;
    }
    Ok(sides)
}

/// The dispatcher's notes of each replica at first.
///
/// # Errors
///
/// `Memory` if memory was refused.
fn watch_all<'a, G, R: Wait>(
    rt: &R,
    threaded: &Threaded<'a, G>,
) -> Result<Vec<Watched<'a>>, AllocError>
    requires { length threaded.now.stations.now ≡ length threaded.now.books.now }
    ensures owns { IfOk result
        (λ watched. AreOwns (names_of threaded.now) (owns_of watched.items)) }
    ensures all { IfOk result (λ watched. vec_len watched ≡ length threaded.now.books.now) }
{
    let (topology, replicas) = (threaded.plan.topology, threaded.plan.replicas);
    let mut watched = Vec::new(threaded.alloc);
    for number in 0..threaded.books.len() {
        let own = threaded.own_at(number);
        let pass = own.book.pass(rt)?;
        watched.push(Watched::new(threaded.alloc, topology, replicas, own, pass)?)?;
    }
    Ok(watched)
}

/// A dispatcher at the beginning of a run. This poll wakes it.
fn dispatcher_of<'a, G, R: Wait>(
    rt: &R,
    threaded: &Threaded<'a, G>,
    poll: Poll,
    seat: Seat,
) -> Result<Dispatcher<'a>, AllocError>
    requires { length threaded.now.stations.now ≡ length threaded.now.books.now }
    ensures seat { IfOk result (λ d. d.seat ≡ seat) }
    ensures poll { IfOk result (λ d. d.poll ≡ poll) }
    ensures owns { IfOk result (λ d. AreOwns (names_of threaded.now) (owns_of d.watched.items)) }
    ensures all { IfOk result (λ d. vec_len d.watched ≡ length threaded.now.books.now) }
{
    Ok(Dispatcher {
        watched: watch_all(rt, threaded)?,
        seat,
        poll,
        events: Events::with_capacity(threaded.alloc, 1)?,
        looks_at_all: true,
        passes: Vec::new(threaded.alloc),
    })
}

/// Runs all replicas over their books until all have ended, each of them done. Answers how they
/// ended, and the passes that the dispatcher had.
fn run_books<'x, F: Outputs, G: Gate + Sync, R>(
    rt: &R,
    alloc: Global,
    plan: &'x RunPlan<'x>,
    books: &'x [SharedBook<Plain>],
    outputs: &mut F,
    gate: &'x G,
) -> Result<(Vec<SideEnd<F::File>>, Vec<BookPass<Plain>>), Stop>
where
    F::File: Send,
    R: Runtime,
    requires workers { (1 ≤ plan.now.workers) × (plan.now.workers ≤ 64) }
    requires names { HaveDistinctNames (map (λ b. (b.partition, b.replica)) books.now) }
    ensures counted { IfOk result (λ run. All (λ end. AreCounted F.File.seen
        (F.made outputs.old) end.files.files.items) run.0.items) }
    ensures same { F.made outputs.new ≡ F.made outputs.old }
{
    let (board, owners, mut seats) = ClockBoard::new(alloc, plan.topology)?;
    let Some(seat) = seats.pop() else {
        unreachable!()
    };
    let Posts {
        stations,
        posts,
        listeners,
    } = open_posts(rt, alloc, plan.topology.partitions(), books)?;
    let (poll, waker) = woken_poll(rt)?;
    let waker = DispatcherWaker::new(waker);
    let has_failed = OnceLock::new();
    let threaded = Threaded {
        alloc,
        plan: &*plan,
        books: &*books,
        stations: stations.as_slice(),
        listeners: listeners.as_slice(),
        board: &board,
        dispatcher: &waker,
        has_failed: &has_failed,
        gate: &*gate,
    };
    let sides = sides_of(rt, &threaded, owners, posts, outputs)?;
    let dispatcher = dispatcher_of(rt, &threaded, poll, seat)?;
    let (ends, passes) = run_threads(rt, &threaded, sides, dispatcher)?;
    check_endings(ends.as_slice())?;
    Ok((ends, passes))
}

/// What a certified run leaves before its files get their names.
#[derive(Drop)]
struct Certified<C> {
    report: Report,
    traces: ClosedFiles<C>,
    known: Vec<C>,
}

/// Runs all partitions, and closes their files once all books are certified.
#[tactic(auto, using(crate::proofs::Stops::stops_have_reason))]
fn run_certified<'x, F: Outputs, G: Gate + Sync, R>(
    rt: &R,
    alloc: Global,
    plan: &'x RunPlan<'x>,
    outputs: &mut F,
    gate: &'x G,
) -> Result<Certified<F::Closed>, RunFault>
where
    F::File: Send,
    R: Runtime,
    requires { (1 ≤ plan.now.workers) × (plan.now.workers ≤ 64) }
    ensures certified { IfOk result (λ run. IsCertifiedRun (arc_value plan.now.topology.now)
        run.report.totals.items) }
    ensures closed { IfOk result (λ run. AreClosed F.closed (F.made outputs.old)
        plan.now.folder.now (arc_value plan.now.topology.now) run.report.totals.items
        run.traces.files.items) }
    ensures kept { IfOk result (λ run. AreKeptBooks F.closed (F.made outputs.old) (leaving plan.now)
        (arc_value plan.now.topology.now) run.known.items) }
    ensures refused { IfErr result
        (HasReason (arc_value plan.now.topology.now) plan.now.replicas) }
    ensures same { F.made outputs.new ≡ F.made outputs.old }
{
    let shared = share_all(alloc, plan)?;
    let (ends, passes) = run_books(rt, alloc, &*plan, shared.as_slice(), outputs, &*gate)?;
    let (books, files) = close_run(alloc, plan, shared, ends, passes)?;
    let report = certified_report(alloc, plan.topology, plan.replicas, books.as_slice())?;
    let traces = close_all(alloc, plan, report.totals.as_slice(), outputs, files)?;
    let known = keep_books(alloc, plan, books.as_slice(), outputs)?;
    Ok(Certified {
        report,
        traces,
        known,
    })
}

/// Runs all partitions of a network at once: each as one or two replicas in threads of their own,
/// connected over TCP on 127.0.0.1. `workers` threads run their books. The traces are written to
/// files of the folder as they are made. When all have ended, their books are certified. Then the
/// files get their names, `NAME.pcap`, in the order of the topology's text. Each has as many octets
/// as its interface has in the trace of the one event list, and the report has these totals. If the
/// plan asks for them, the files of what the first replica of each partition knows follow.
///
/// # Errors
///
/// Those of `RunFault`. `NotCertified` has the first fault that the certificate finds in the books
/// of the run, one of each replica. No file has got its name then, unless one could not get it:
/// those before it have theirs.
#[tactic(auto, using(crate::proofs::Stops::stops_have_reason))]
pub fn run_all<'x, F: Outputs, G: Gate + Sync, R>(
    rt: &R,
    alloc: Global,
    plan: &'x RunPlan<'x>,
    outputs: &mut F,
    gate: &'x G,
) -> Result<Report, RunFault>
where
    F::File: Send,
    R: Runtime,
    requires { (1 ≤ plan.now.workers) × (plan.now.workers ≤ 64) }
    ensures certified { IfOk result (λ report. IsCertifiedRun (arc_value plan.now.topology.now)
        report.totals.items) }
    ensures placed { IfOk result (λ report. HaveFiles (F.made outputs.old) (F.made outputs.new)
        (leaving plan.now) (arc_value plan.now.topology.now) report.totals.items) }
    ensures refused { IfErr result
        (HasReason (arc_value plan.now.topology.now) plan.now.replicas) }
    ensures kept { IfErr result (λ fault. IsOfFiles fault
        ⊎ (F.made outputs.new ≡ F.made outputs.old)) }

    // However it ends, no file gets its name before the run is certified.
    ensures named { AreNamed (F.made outputs.old) (F.made outputs.new) (leaving plan.now)
        (arc_value plan.now.topology.now) }
{
    let Certified {
        report,
        traces,
        known,
    } = run_certified(rt, alloc, &*plan, outputs, &*gate)?;
    place_files(outputs, traces)?;
    place_known(outputs, known)?;
    Ok(report)
}

/// The report of books, once they are certified.
#[tactic(auto, using(crate::proofs::Stops::stops_have_reason))]
fn certified_report(
    alloc: Global,
    topology: &Topology,
    replicas: u8,
    books: &[Book],
) -> Result<Report, RunFault>
    requires { AreOfRun topology.now replicas books.now }
    ensures books { OnOk result (AreCertified topology.now books.now) }
    ensures certified { IfOk result
        (λ report. IsCertifiedRun topology.now report.totals.items) }
    ensures refused { IfErr result (HasReason topology.now replicas) }
{
    certify_all(alloc, topology, books)?;
    match report_of(alloc, topology, books) {
        Ok(report) => Ok(report),
        Err(AllocError) => Err(RunFault::Memory),
    }
}
