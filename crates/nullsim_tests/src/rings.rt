//! Runs of three routers in a ring, of a partition that is alone, and of one with much to do at
//! once.

use crate::gates::Watching;
use nm_base::{IfaceNo, PartNo};
use nm_files::MemOutputs;
use nm_fixtures::{DUO, RING};
use nm_progress::{Figure, Figures, Progress};
use nm_run::{Report, RunCause, RunFault, RunPlan, run_all};
use nm_topology::Topology;
use std::alloc::Global;
use std::net::Net;
use std::process::Abort;
use std::sync::atomic::Ordering;
use std::sync::{Arc, Wait};
use std::test::Fail;
use std::thread::Threads;
use std::time::Clock;
use std::{io, net};

/// A host and a router, between which 10,001 packets go, and in the other partition a host at a
/// link of 1 s. The first packet goes at once, so that the first job of partition 0 is done before
/// the others go, from 5.1 s on: all within one window of 1 s.
const BURST: &str = r#"format = 1
stop = 6000000000
mtu = 1500
node = [ {name = "a", kind = "host", partition = 0},
  {name = "r", kind = "router", partition = 0, ports = [9]},
  {name = "b", kind = "host", partition = 1} ]
iface = [ {name = "a0", node = "a", address = "10.0.0.1", queue = 4},
  {name = "r0", node = "r", address = "10.0.0.2", queue = 4},
  {name = "r1", node = "r", address = "10.0.1.1", queue = 4},
  {name = "b0", node = "b", address = "10.0.1.2", queue = 4} ]
link = [ {a = "a0", b = "r0", rate = 100000000, delay = 0},
  {a = "r1", b = "b0", rate = 100000000, delay = 1000000000} ]
route = [ {node = "a", to = "10.0.0.0/24", via = "a0"} ]
source = [
  {kind = "cbr", node = "a", to = "10.0.0.2", sport = 1000, dport = 9, size = 72, start = 0, interval = 1, count = 1},
  {kind = "cbr", node = "a", to = "10.0.0.2", sport = 1000, dport = 9, size = 72, start = 5100000000, interval = 80000, count = 10000} ]
"#;

/// Files in memory: so many, of so many octets at most.
fn files_of(alloc: Global, room: usize, file_octets: usize) -> MemOutputs {
    MemOutputs {
        alloc,
        file_octets,
        room,
        places: room,
        files: Vec::new(alloc),
    }
}

/// Runs the network of a text.
fn run_text<R>(
    rt: &R,
    text: &str,
    replicas: u8,
    outputs: &mut MemOutputs,
    gate: &Watching,
    progress: &Progress,
) -> io::Result<Result<Report, RunFault>>
where
    R: Net<Stream = net::TcpStream, Listener = net::TcpListener>
        + Threads
        + Wait
        + Clock
        + AllocGlobal
        + Sync
        + Drop
        + Copy,
{
    let alloc = rt.alloc();
    let Ok(topology) = Topology::read(alloc, text.as_bytes()) else {
        return Err(io::ErrorKind::Other.into());
    };
    let topology = Arc::new(alloc, topology)?;
    let plan = RunPlan {
        topology: &topology,
        folder: "out",
        workers: 2,
        replicas,
        keeps: false,
        progress,
    };
    Ok(run_all(rt, alloc, &plan, outputs, gate))
}

/// The octets of all files.
fn octets_of(outputs: &MemOutputs) -> usize {
    let mut octets = 0usize;
    for file in &outputs.files {
        octets = octets.saturating_add(file.octets.len());
    }
    octets
}

/// The run has the ring's totals, and as many files.
fn is_whole(rt: &impl Abort, outcome: &Result<Report, RunFault>, outputs: &MemOutputs) {
    let wanted = [256u64, 256, 256, 256, 24, 24];
    let Ok(report) = outcome else {
        assert!(rt; false, "no report");
        return;
    };
    assert!(rt; report.totals.len() == 6 && outputs.files.len() == 6);
    for number in 0..6 {
        assert!(rt; report.totals[number].octets == wanted[number]);
    }
    assert!(rt; octets_of(outputs) == 4 * 256 + 2 * 24);
}

/// A run with one replica of each partition, and with two.
#[test]
fn a_ring_is_certified(rt: HostRuntime) -> Result<(), Fail> {
    for replicas in 1..3 {
        let gate = Watching::new(true, false);
        let mut outputs = files_of(rt.alloc(), 6, 1_000);
        let outcome = run_text(&rt, RING, replicas, &mut outputs, &gate, &Progress::new())?;
        is_whole(&rt, &outcome, &outputs);
        assert!(rt; gate.most.load(Ordering::SeqCst) >= 48);
        // the first job of each book: what is left is short, and stays on its thread
        assert!(rt; gate.jobs.load(Ordering::SeqCst) == 3 * u64::from(replicas));
    }
    Ok(())
}

/// A partition that is alone is run by its replicas' own threads: no job is given for it.
#[test]
fn a_partition_alone_has_no_job(rt: HostRuntime) -> Result<(), Fail> {
    for replicas in 1..3 {
        let gate = Watching::new(true, false);
        let mut outputs = files_of(rt.alloc(), 2, 1_000);
        let progress = Progress::new();
        let outcome = run_text(&rt, DUO, replicas, &mut outputs, &gate, &progress)?;
        assert!(rt; outcome.is_ok());
        assert!(rt; gate.jobs.load(Ordering::SeqCst) == 0);
        // a file header, a record header and the packet
        assert!(rt; octets_of(&outputs) == 2 * (24 + 16 + 100));
    }
    Ok(())
}

/// A replica's own thread does 16,384 events of a window of 30,000. For the others its book is lent
/// to the pool again, which does them in jobs of up to 4,096.
#[test]
fn a_long_window_is_lent_again(rt: HostRuntime) -> Result<(), Fail> {
    let gate = Watching::new(true, false);
    let mut outputs = files_of(rt.alloc(), 4, 2_000_000);
    let outcome = run_text(&rt, BURST, 1, &mut outputs, &gate, &Progress::new())?;
    let Ok(report) = outcome else {
        return Err("no report".into());
    };
    // a file header, and a record header and the packet of each
    let octets = 24 + 10_001 * (16 + 100);
    assert!(rt; report.totals.len() == 4 && report.totals[0].octets == octets);
    assert!(rt; octets_of(&outputs) as u64 == 2 * octets + 2 * 24);
    // the first job of both books, and four more at least
    assert!(rt; gate.jobs.load(Ordering::SeqCst) >= 6);
    Ok(())
}

/// A figure of all replicas of the ring.
fn sum_of(figures: &Figures, figure: Figure) -> u64 {
    let mut sum = 0u64;
    for partition in 0..3u32 {
        let one = figures.of(PartNo::new(partition), 0).get(figure);
        sum = sum.saturating_add(one);
    }
    sum
}

/// What the replicas do is counted if it is asked for: a job each, their events, each of the four
/// messages once, and a connection of each two at both ends. One that a peer lets go since all
/// replicas are done may count as broken.
#[test]
fn what_replicas_do_is_counted(rt: HostRuntime) -> Result<(), Fail> {
    let progress = Progress::with_figures(rt.alloc())?;
    let mut outputs = files_of(rt.alloc(), 6, 1_000);
    let gate = Watching::new(true, false);
    let outcome = run_text(&rt, RING, 1, &mut outputs, &gate, &progress)?;
    is_whole(&rt, &outcome, &outputs);
    let Some(figures) = progress.figures() else {
        return Err("figures were asked for".into());
    };
    assert!(rt; sum_of(figures, Figure::Jobs) == 3);
    assert!(rt; sum_of(figures, Figure::Records) == 8);
    assert!(rt; sum_of(figures, Figure::Messages) == 4);
    let begun = sum_of(figures, Figure::Begun);
    assert!(rt; begun >= 6 && sum_of(figures, Figure::Broken) <= begun);
    Ok(())
}

/// Two workers run two books at once.
#[test]
fn run_two_at_once(rt: HostRuntime) -> Result<(), Fail> {
    let gate = Watching::new(true, true);
    let mut outputs = files_of(rt.alloc(), 6, 1_000);
    let outcome = run_text(&rt, RING, 1, &mut outputs, &gate, &Progress::new())?;
    is_whole(&rt, &outcome, &outputs);
    assert!(rt; gate.first.load(Ordering::SeqCst) && gate.second.load(Ordering::SeqCst));
    assert!(rt; !gate.was_alone.load(Ordering::SeqCst));
    Ok(())
}

/// A gate that lets nobody go on ends the run.
#[test]
fn run_asks_its_polls(rt: HostRuntime) -> Result<(), Fail> {
    let gate = Watching::new(false, false);
    let mut outputs = files_of(rt.alloc(), 6, 1_000);
    let outcome = run_text(&rt, RING, 1, &mut outputs, &gate, &Progress::new())?;
    assert!(rt; outcome.err() == Some(RunFault::Refused(RunCause::Net)));
    Ok(())
}

/// Whether the file of one of these interfaces failed when it had so many octets.
fn has_failed(fault: &Option<RunFault>, ifaces: &[u32], written: u64) -> bool {
    for number in ifaces {
        let iface = IfaceNo::new(*number);
        if *fault == Some(RunFault::Refused(RunCause::File { iface, written })) {
            return true;
        }
    }
    false
}

/// A file that cannot be made, and one that takes less than it is to have. With 200 octets each, any
/// of the files that are to have 256 may be the first to fail.
#[test]
fn files_that_fail(rt: HostRuntime) -> Result<(), Fail> {
    for (room, octets, ifaces, written) in [
        (3usize, 1_000usize, [2u32, 2, 2, 2], 0u64),
        (6, 10, [0, 0, 0, 0], 10),
        (6, 200, [0, 1, 2, 3], 200),
    ] {
        let gate = Watching::new(true, false);
        let mut outputs = files_of(rt.alloc(), room, octets);
        let fault = run_text(&rt, RING, 1, &mut outputs, &gate, &Progress::new())?.err();
        assert!(rt; has_failed(&fault, &ifaces, written));
        assert!(rt; outputs.files.is_empty());
    }
    Ok(())
}

/// The fourth file of a certified run does not get its name: the three before it have theirs.
#[test]
fn a_file_that_is_not_named(rt: HostRuntime) -> Result<(), Fail> {
    let gate = Watching::new(true, false);
    let mut outputs = files_of(rt.alloc(), 6, 1_000);
    outputs.places = 3;
    let fault = run_text(&rt, RING, 1, &mut outputs, &gate, &Progress::new())?.err();
    assert!(rt; has_failed(&fault, &[0, 1, 2, 3], 256) || has_failed(&fault, &[4, 5, 4, 5], 24));
    assert!(rt; outputs.files.len() == 3);
    Ok(())
}
