//! All partitions of a network in rounds.

use nm_base::limits::MAX_ROUNDS;
use nm_book::Book;
use nm_rounds::rounds::{Rounds, run_rounds};
use nm_topology::TopoFault;
use std::fs;
use std::io::{Error, ErrorKind};
use std::rt::Files;

/// How many records these books have made in all.
fn records_of(books: &[Book]) -> u64 {
    books
        .iter()
        .fold(0, |sum: u64, book| sum.saturating_add(book.records()))
}

/// Lets all partitions of the topology of a file run in rounds until all are done: how many rounds
/// it took, and how many records were made.
pub(crate) fn rounds_over<R: Files + AllocGlobal>(rt: &R, path: &str) -> Result<(u64, u64), Error> {
    let text = fs::read(rt, path)?;
    match run_rounds(rt.alloc(), text.as_slice(), MAX_ROUNDS) {
        Ok(Rounds::Done { rounds, books }) => Ok((rounds, records_of(books.as_slice()))),
        Ok(Rounds::Unfinished { .. }) => Err(ErrorKind::TimedOut.into()),
        Err(TopoFault::Refused(_)) => Err(ErrorKind::InvalidData.into()),
        Err(TopoFault::Memory) => Err(ErrorKind::OutOfMemory.into()),
    }
}
