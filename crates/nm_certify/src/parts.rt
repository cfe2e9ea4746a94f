//! All partitions, some at a time.

ghost use Rattle.std.specs.Prelude.{◌≡◌, ◌⊎◌, ℕ, ◌≤◌, IfErr, IfOk, List, Ok, length};
ghost use Rattle.std.specs.Prelude.{map};
ghost use Rattle.std.specs.Arc.{arc_value};
ghost use Rattle.std.specs.List.{AllZip};
ghost use denote.Param.Send.{IsSync};
ghost use Rattle.nm_base.specs.declared.fault.Fault.TheVariants.{Memory};
ghost use Rattle.nm_certify.specs.Checking.{IsEnd, IsFirstFault, RefusesOne, RefusesPart};
ghost use Rattle.nm_certify.specs.Checking.{jobs_from};

use crate::fault::CertifyFault;
use crate::part::{Job, PartEnd, check_part};
use crate::part_files::PartFiles;
use nm_base::PartNo;
use nm_topology::Topology;
use nm_topology::topology::accepted_topologies_are_in_order;
use std::alloc::{AllocError, Global};
use std::io::BufRead;
use std::sync::Arc;
use std::thread;
use std::thread::Threads;

/// The partitions that are to be checked, each with its number.
pub(crate) fn jobs_of<B: Drop>(
    alloc: Global,
    topology: &Topology,
    parts: Vec<PartFiles<B>>,
) -> Result<Vec<Job<B>>, AllocError>
    requires { length parts.items ≤ topology.now.partitions }
    ensures { IfOk result (λ jobs. jobs.items ≡ jobs_from 0 parts.items) }
{
    accepted_topologies_are_in_order(topology); // law: there are few partitions
    let mut jobs = Vec::new(alloc);
    let mut number = 0;
    for files in parts {
        jobs.push(Job {
            partition: PartNo::new(number),
            files,
        })?;
        number += 1;
    }
    Ok(jobs)
}

/// What came of all, or the first fault.
fn all_ends(
    alloc: Global,
    results: Vec<Result<PartEnd, CertifyFault>>,
) -> Result<Vec<PartEnd>, CertifyFault>
    ensures all { IfOk result (λ ends. map (λ end. Ok end) ends.items ≡ results.items) }
    ensures first { IfErr result (λ f. (f ≡ Memory) ⊎ IsFirstFault results.items f) }
{
    let mut ends = Vec::new(alloc);
    for result in results {
        ends.push(result?)?;
    }
    Ok(ends)
}

/// Checks partitions side by side, each in a thread of its own.
fn check_piece<B: BufRead + Drop + Send, R: Threads + Sync>(
    rt: &R,
    alloc: Global,
    topology: &Arc<Topology>,
    jobs: Vec<Job<B>>,
) -> Result<Vec<PartEnd>, CertifyFault>
    ensures ends { IfOk result
        (λ ends. AllZip (IsEnd (arc_value topology.now) B.remaining) jobs.items ends.items) }
    ensures fault { IfErr result (RefusesOne (arc_value topology.now) B.remaining jobs.items) }
{
    let results = thread::map_vec(
        rt,
        jobs,
        &|job: Job<B>| -> Result<PartEnd, CertifyFault>
            ensures end { IfOk result (IsEnd (arc_value topology.entry.now) B.remaining job) }
            ensures fault { IfErr result
                (RefusesPart (arc_value topology.entry.now) B.remaining job) }
        { check_part(alloc, topology, job) },
    )?;
    all_ends(alloc, results)
}

/// Checks all partitions, at most so many at a time: what came of each.
pub(crate) fn check_all<B: BufRead + Drop + Send, R: Threads + Sync>(
    rt: &R,
    alloc: Global,
    topology: &Arc<Topology>,
    workers: usize,
    jobs: Vec<Job<B>>,
) -> Result<Vec<PartEnd>, CertifyFault>
    requires { 1 ≤ workers }
    ensures ends { IfOk result
        (λ ends. AllZip (IsEnd (arc_value topology.now) B.remaining) jobs.items ends.items) }
    ensures fault { IfErr result (RefusesOne (arc_value topology.now) B.remaining jobs.items) }
{
    let mut ends = Vec::new(alloc);
    let mut piece = jobs;
    while !piece.is_empty() {
        let rest = piece.split_off(workers.min(piece.len()))?;
        let mut more = check_piece(rt, alloc, topology, piece)?;
        ends.append(&mut more)?;
        piece = rest;
    }
    Ok(ends)
}
