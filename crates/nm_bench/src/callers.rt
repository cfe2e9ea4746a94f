//! Shared books at work: threads that act on them, and a pool.

ghost use Rattle.std.specs.Prelude.{◌≡◌, ◌≤◌, ◌<◌, vec_len, IfOk, All};

use crate::replica::incoming;
use nm_base::{ChanNo, PartNo, Time};
use nm_book::{Book, ChannelMessage, Null};
use nm_shared::{Job, OpenGate, Plain, SharedBook, pool};
use nm_topology::Topology;
use nm_topology::topology::accepted_topologies_are_in_order;
use std::alloc::{AllocError, Global};
use std::io::{Error, ErrorKind};
use std::sync::{Arc, Wait};
use std::thread::{Threads, map_indices};

/// How many acts there are in all.
const ACTS: u64 = 1_000_000;

/// How many jobs a pool is given, and by how many threads it does them.
const JOBS: usize = 100_000;

const WORKERS: usize = 4;

/// So many shared books, each a new replica 0 of partition 0.
fn books_of(
    alloc: Global,
    topology: &Arc<Topology>,
    count: usize,
) -> Result<Vec<SharedBook<Plain>>, Error> {
    let mut books = Vec::with_capacity(alloc, count)?;
    for _ in 0..count {
        let (counts, whole) = Plain::open();
        let topology = Arc::try_clone(topology)?;
        match SharedBook::new(alloc, topology, PartNo::new(0), 0, counts, whole) {
            Ok(book) => books.push(book)?,
            Err(_) => return Err(ErrorKind::InvalidInput.into()),
        }
    }
    Ok(books)
}

/// A channel that comes into partition 0.
fn channel_in(alloc: Global, topology: &Arc<Topology>) -> Result<ChanNo, Error> {
    accepted_topologies_are_in_order(topology); // law: there are at most 512 channels
    let channels = topology.receivers().len() as u32;
    let Ok(book) = Book::new(alloc, Arc::try_clone(topology)?, PartNo::new(0), 0) else {
        return Err(ErrorKind::InvalidInput.into());
    };
    match incoming(alloc, &book, channels)?.first() {
        Some(channel) => Ok(*channel),
        None => Err(ErrorKind::InvalidInput.into()),
    }
}

/// Tells a book so many null messages, each with a later clock: how many it took.
fn tell<R: Wait>(
    rt: &R,
    book: &SharedBook<Plain>,
    channel: ChanNo,
    acts: u64,
) -> Result<u64, AllocError> {
    let mut pass = book.pass(rt)?;
    let mut taken = 0u64;
    for number in 0..acts {
        let null = ChannelMessage::Null(Null {
            channel,
            count: 0,
            clock: Time::from_nanoseconds(number),
        });
        if book.accept(rt, &mut pass, &null).is_ok() {
            taken = taken.saturating_add(1);
        }
    }
    Ok(taken)
}

/// So many threads give null messages to one book, or each to a book of its own: how many were
/// taken.
pub(crate) fn acts<R: Threads + Wait + Sync>(
    rt: &R,
    alloc: Global,
    topology: Topology,
    threads: usize,
    apart: bool,
) -> Result<u64, Error>
    requires { 1 ≤ threads }
{
    let Ok(topology) = Arc::new(alloc, topology) else {
        return Err(ErrorKind::OutOfMemory.into());
    };
    let channel = channel_in(alloc, &topology)?;
    let books = books_of(alloc, &topology, if apart { threads } else { 1 })?;
    let books = books.as_slice();
    let acts = ACTS / threads as u64;
    let told = map_indices(
        rt,
        alloc,
        threads,
        &|thread: usize| -> Result<u64, AllocError> {
            match books.get(thread).or(books.first()) {
                Some(book) => tell(rt, book, channel, acts),
                None => Ok(0),
            }
        },
    )?;
    let mut taken = 0u64;
    for count in told {
        taken = taken.saturating_add(count?);
    }
    Ok(taken)
}

/// Jobs for books in turn.
fn jobs_for(alloc: Global, books: usize) -> Result<Vec<Job>, AllocError>
    requires { 1 ≤ books }
    ensures { IfOk result (λ v. All (λ j. j.book < books) v.items) }
{
    let mut jobs = Vec::with_capacity(alloc, JOBS)?;
    for number in 0..JOBS {
        jobs.push(Job {
            book: number % books,
            limit: 1,
        })?;
    }
    Ok(jobs)
}

/// A pool runs books that have nothing to do, as many as it has threads: how many answers it gave.
pub(crate) fn pool_jobs<R: Threads + Wait + Sync>(
    rt: &R,
    alloc: Global,
    topology: Topology,
) -> Result<u64, Error> {
    let Ok(topology) = Arc::new(alloc, topology) else {
        return Err(ErrorKind::OutOfMemory.into());
    };
    let books = books_of(alloc, &topology, WORKERS)?;
    let jobs = jobs_for(alloc, WORKERS)?;
    if books.len() != WORKERS {
        return Ok(0);
    }
    let report = pool(rt, alloc, &books, &jobs, WORKERS, &OpenGate)?;
    Ok(report.answers.len() as u64)
}
