//! Work over the topology of a file: its parts at their start, and runs of the whole network.

ghost use Rattle.std.specs.Prelude.{◌≤◌};

use crate::callers::{acts, pool_jobs};
use crate::replica::replica_told;
use nm_base::PartNo;
use nm_events::HeapList;
use nm_sim::{Part, Tracer, one_list};
use nm_topology::{TopoFault, Topology};
use std::alloc::{AllocError, Global};
use std::fs;
use std::io::{Error, ErrorKind};
use std::rt::Files;
use std::sync::Wait;
use std::thread::Threads;

/// What is done with the topology.
#[derive(Clone, Copy)]
pub(crate) enum Task {
    /// Nothing: it is read, and its nodes are counted.
    Read,
    /// Two parts for each partition are started, kept and counted.
    Parts,
    /// The whole network is run to its stop; its records are counted, and kept to the end.
    Kept,
    /// The same, but each record is dropped as it is made.
    Flat,
    /// A replica gets messages, which it takes and which are counted.
    Told,
    /// So many threads act on one shared book, or each on a book of its own; what was taken is
    /// counted.
    Acts(Threading),
    /// A pool does many jobs that find nothing to do, which are counted.
    Jobs,
}

/// How many threads act, and whether each has a book of its own.
#[derive(Clone, Copy)]
pub(crate) enum Threading {
    One,
    Two,
    Four,
    TwoApart,
    FourApart,
}

impl Threading {
    /// How many threads.
    fn threads(self) -> usize
        ensures { 1 ≤ result }
    {
        match self {
            Threading::One => 1,
            Threading::Two | Threading::TwoApart => 2,
            Threading::Four | Threading::FourApart => 4,
        }
    }

    /// Whether each has a book of its own.
    fn apart(self) -> bool {
        matches!(self, Threading::TwoApart | Threading::FourApart)
    }
}

/// The topology of a file.
pub(crate) fn topology_at<R: Files + AllocGlobal>(rt: &R, path: &str) -> Result<Topology, Error> {
    let text = fs::read(rt, path)?;
    match Topology::read(rt.alloc(), text.as_slice()) {
        Ok(topology) => Ok(topology),
        Err(TopoFault::Memory) => Err(ErrorKind::OutOfMemory.into()),
        Err(TopoFault::Refused(_)) => Err(ErrorKind::InvalidData.into()),
    }
}

/// Two parts for each partition, at their start.
fn start_twice(alloc: Global, topology: &Topology) -> Result<Vec<Part<HeapList>>, AllocError> {
    let mut parts = Vec::new(alloc);
    for number in 0..topology.partitions() {
        for _ in 0..2 {
            let part = Part::start(alloc, topology, Some(PartNo::new(number)))?;
            parts.push(part)?;
        }
    }
    Ok(parts)
}

/// Runs the whole network to its stop, and drops each record once it was shown: how many there
/// were.
fn let_go(alloc: Global, topology: &Topology) -> Result<u64, AllocError> {
    let mut tracer = Tracer::start(alloc, topology)?;
    for event in 0..u64::MAX {
        if !tracer.go_on(alloc, topology)? {
            return Ok(tracer.handed());
        }
    }
    Ok(u64::MAX)
}

/// Does a task with the topology of a file, and gives what it counts.
pub(crate) fn work_over<R: Files + AllocGlobal + Threads + Wait + Sync>(
    rt: &R,
    task: Task,
    path: &str,
) -> Result<u64, Error> {
    let topology = topology_at(rt, path)?;
    let count = match task {
        Task::Read => topology.nodes().len() as u64,
        Task::Parts => start_twice(rt.alloc(), &topology)?.len() as u64,
        Task::Kept => one_list(rt.alloc(), &topology, topology.stop())?.len() as u64,
        Task::Flat => let_go(rt.alloc(), &topology)?,
        Task::Told => return replica_told(rt.alloc(), topology),
        Task::Acts(threading) => {
            let (threads, apart) = (threading.threads(), threading.apart());
            return acts(rt, rt.alloc(), topology, threads, apart);
        }
        Task::Jobs => return pool_jobs(rt, rt.alloc(), topology),
    };
    Ok(count)
}
