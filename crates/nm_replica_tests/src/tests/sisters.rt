//! A replica whose sister knows all.

use crate::tests::messages::{message, null};
use crate::tests::scripted::{NEVER, Scripted};
use crate::tests::sides::{Noting, books_of, caller, topology_of};
use nm_base::{MemSink, PartNo};
use nm_book::ChannelMessage;
use nm_files::TraceFiles;
use nm_fixtures::SPLIT;
use nm_frames::ReplicaName;
use nm_replica::acts::Stand;
use nm_replica::{Holdings, OwnSeats, Served, Service, run_replica};
use nm_shared::{ClockBoard, Lending, Pass, Plain, SharedBook};
use nm_topology::Topology;
use std::alloc::Global;
use std::process::Abort;
use std::sync::{Arc, Wait};

/// A pass of a book that gets one message and learns that nothing else comes, and does its events.
fn finish<R: Wait + Abort>(rt: &R, alloc: Global, book: &SharedBook<Plain>) -> Pass<Plain> {
    let mut pass = book.pass(rt).expect(rt, "memory");
    let only = message(rt, alloc, 1, 0, 1_100_000);
    book.accept(rt, &mut pass, &only).expect(rt, "it is taken");
    let told = ChannelMessage::Null(null(1, 1, 11_000_000));
    book.accept(rt, &mut pass, &told).expect(rt, "it is taken");
    let _ran = book.run(rt, &mut pass, alloc, 100);
    pass
}

/// Replica 1 beside its sister.
fn sister_of<'x>(
    topology: &'x Arc<Topology>,
    books: &'x [SharedBook<Plain>],
    own: &'x SharedBook<Plain>,
    callers: &'x [ReplicaName],
    lending: &'x Lending,
) -> Service<'x, Plain> {
    Service {
        topology,
        book: own,
        peers: &[],
        callers,
        books,
        idle_limit: 2_000,
        run_limit: 4_096,
        lending,
        progress: None,
        notes_progress: false,
        keeps_records: false,
    }
}

/// Serves replica 1, to which nobody speaks, with a pass of each of both books.
fn serve_beside<R: Wait + Abort>(
    rt: &R,
    alloc: Global,
    topology: &Arc<Topology>,
    books: &[SharedBook<Plain>],
    own: &SharedBook<Plain>,
    passes: Vec<Pass<Plain>>,
) -> Served {
    let (board, owners, _) = ClockBoard::new(alloc, topology).expect(rt, "memory");
    let partition = PartNo::new(1);
    let seats = OwnSeats::of_replica(alloc, topology, &board, partition, 1, owners).expect(
        rt, "memory",
    );
    let mut holdings: Holdings<'_, Plain, MemSink> = Holdings {
        pass: own.pass(rt).expect(rt, "memory"),
        passes,
        seats,
        files: TraceFiles::new(alloc),
    };
    let callers = [caller(0)];
    let lending = Lending::alone();
    let service = sister_of(topology, books, own, &callers, &lending);
    let mut transport = Scripted::new(alloc, Vec::new(alloc), true, NEVER);
    run_replica(
        rt,
        alloc,
        &service,
        &mut holdings,
        &mut transport,
        &Noting::new(),
    )
}

/// Both replicas of partition 1; the first knows all.
fn serve_both<R: Wait + Abort>(
    rt: &R,
    alloc: Global,
    topology: &Arc<Topology>,
    books: &[SharedBook<Plain>; 2],
) -> Served {
    let mut passes = Vec::new(alloc);
    let known = finish(rt, alloc, &books[0]);
    passes.push(known).expect(rt, "memory");
    let own = books[1].pass(rt).expect(rt, "memory");
    passes.push(own).expect(rt, "memory");
    serve_beside(rt, alloc, topology, books, &books[1], passes)
}

/// It merges what its sister knows, and ends once all replicas are done, without a link. Of the
/// records that it made it keeps none.
#[test]
fn a_sister_is_merged(rt: HostRuntime) {
    let alloc = rt.alloc();
    let topology = topology_of(&rt, alloc, SPLIT);
    let books = books_of(&rt, alloc, &topology, [(1, 0), (1, 1)]);
    assert!(rt; serve_both(&rt, alloc, &topology, &books) == Served::Ended);
    let mut pass = books[1].pass(&rt).expect(&rt, "memory");
    let standing = books[1].act(&rt, &mut pass, Stand);
    assert!(rt; standing.records == 1 && standing.handed == 1);
}
