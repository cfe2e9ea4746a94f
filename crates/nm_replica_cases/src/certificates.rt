//! Certificates of replicas, by their numbers.
//!
//! | Command | Does and answers |
//! |---|---|
//! | `finish ROUNDS` | makes a replica of each partition, and does so many rounds in which all learn all |
//! | `certify B ..` | `certified`, or the fault with its numbers: `topology`, `missing P`, `unfinished P`, `prefix C N`, `clock C`, `promise C` |
//! | `part B` | `same` if its trace is its partition's part of the trace of the one event list |
//! | `change OLD / NEW` | `certify` of all replicas against the text with NEW in the place of OLD, and whether the digest is another |
//! | `other B OLD / NEW` | B merges what a new replica of its partition in that text knows |

use crate::bench::{Bench, book, book_mut, book_of, network};
use crate::drains::are_part;
use crate::said::{certified, merged};
use crate::truth::{channels_of, do_round};
use crate::words::{Words, number};
use nm_base::{IfaceNo, PartNo};
use nm_book::Book;
use nm_rounds::certify::certify;
use nm_sim::one_list;
use nm_topology::Topology;
use std::alloc::Global;
use std::io;
use std::sync::Arc;

/// A replica of each partition that is done.
fn finish(bench: &mut Bench, alloc: Global, rounds: u64) -> io::Result<String> {
    for partition in 0..bench.topology.partitions() {
        let book = book_of(alloc, &bench.topology, partition, 0)?;
        bench.books.push(book)?;
    }
    let channels = channels_of(&bench.topology);
    for _ in 0..rounds {
        do_round(alloc, bench.books.as_mut_slice(), channels)?;
    }
    Ok(String::from_str(alloc, "ok")?)
}

/// The replicas of these numbers.
fn chosen<'b>(alloc: Global, books: &'b [Book], words: &[&str]) -> io::Result<Vec<&'b Book>> {
    let mut chosen = Vec::new(alloc);
    for word in words {
        chosen.push(book(books, number(word)? as usize)?)?;
    }
    Ok(chosen)
}

/// The certificate of these replicas.
fn certificate(
    alloc: Global,
    topology: &Topology,
    books: &[Book],
    words: &[&str],
) -> io::Result<String> {
    let chosen = chosen(alloc, books, words)?;
    Ok(certified(alloc, &certify(topology, &chosen))?)
}

/// All replicas.
fn all(alloc: Global, books: &[Book]) -> io::Result<Vec<&Book>> {
    let mut all = Vec::new(alloc);
    for book in books {
        all.push(book)?;
    }
    Ok(all)
}

/// The network of the text with a change.
fn changed(bench: &Bench, alloc: Global, old: &str, new: &str) -> io::Result<Arc<Topology>> {
    if !bench.text.contains(old) {
        return Err(io::Error::other("the text has no such piece"));
    }
    let text = bench.text.replace(alloc, old, new)?;
    network(alloc, text.as_str())
}

/// The certificate of all replicas against the text with a change.
fn certify_changed(bench: &Bench, alloc: Global, old: &str, new: &str) -> io::Result<String> {
    let other = changed(bench, alloc, old, new)?;
    let is_same = other.digest() == bench.topology.digest();
    let word = if is_same { "same" } else { "other" };
    let books = all(alloc, bench.books.as_slice())?;
    let said = certified(alloc, &certify(&other, &books))?;
    Ok(format!(in alloc; "{said} {word}")?)
}

/// A replica merges what a new one of its partition in the text with a change knows.
fn merge_other(
    bench: &mut Bench,
    alloc: Global,
    of: usize,
    old: &str,
    new: &str,
) -> io::Result<String> {
    let other = changed(bench, alloc, old, new)?;
    let book = book_mut(bench.books.as_mut_slice(), of)?;
    let stranger = book_of(alloc, &other, book.partition().number(), 0)?;
    let known = stranger.copy_knowledge(alloc)?;
    let answer = book.merge(alloc, &known);
    Ok(merged(alloc, &answer)?)
}

/// The partition of an interface.
pub fn partition_of(topology: &Topology, iface: IfaceNo) -> Option<PartNo> {
    let described = topology.ifaces().get(iface.index())?;
    let node = topology.nodes().get(described.node().index())?;
    Some(node.partition())
}

/// A replica's trace beside the one event list's.
fn part(bench: &Bench, alloc: Global, of: usize) -> io::Result<String> {
    let book = book(bench.books.as_slice(), of)?;
    let whole = one_list(alloc, &bench.topology, bench.topology.stop())?;
    let same = are_part(&bench.topology, &whole, book.partition(), book.trace());
    Ok(String::from_str(alloc, if same { "same" } else { "other" })?)
}

/// What a line about certificates answers, or None if it is about something else.
pub fn answer(bench: &mut Bench, alloc: Global, words: Words) -> io::Result<Option<String>> {
    if words.is("finish") {
        return Ok(Some(finish(bench, alloc, words.number(1)?)?));
    }
    let books = bench.books.as_slice();
    if words.is("certify") {
        return Ok(Some(certificate(alloc, &bench.topology, books, words.from(1))?));
    }
    if words.is("part") {
        return Ok(Some(part(bench, alloc, words.index(1)?)?));
    }
    Ok(None)
}

/// The old and the new piece of a change.
fn pieces(rest: &str) -> io::Result<(&str, &str)> {
    match rest.split_once(" / ") {
        Some(pieces) => Ok(pieces),
        None => Err(io::Error::other("a change has an old and a new piece")),
    }
}

/// What a line `change OLD / NEW` answers.
pub fn change(bench: &Bench, alloc: Global, rest: &str) -> io::Result<String> {
    let (old, new) = pieces(rest)?;
    certify_changed(bench, alloc, old, new)
}

/// What a line `other B OLD / NEW` answers.
pub fn other(bench: &mut Bench, alloc: Global, rest: &str) -> io::Result<String> {
    let Some((of, rest)) = rest.split_once(' ') else {
        return Err(io::Error::other("whose knowledge merges?"));
    };
    let (old, new) = pieces(rest)?;
    merge_other(bench, alloc, number(of)? as usize, old, new)
}
