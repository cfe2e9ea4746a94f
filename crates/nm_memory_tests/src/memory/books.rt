//! Replicas.

use crate::same::{eq_answer, eq_number, holds};
use crate::split::{CHANNELS, book_of, network, null};
use crate::words::refused;
use nm_alike::are_alike;
use nm_base::ChanNo;
use nm_book::{AcceptFault, Book, ChannelMessage, Data, Knowledge, MergeFault, Ran};
use nm_fixtures::{SHIFT, SPLIT};
use nm_knowledge::Accepted;
use nm_topology::Topology;
use std::alloc::Global;
use std::process::Abort;
use std::sync::Arc;
use std::test::Fail;

/// An answer in a word and its number.
fn accepted(answer: &Result<Accepted, AcceptFault>) -> (&'static str, u64) {
    match answer {
        Ok(Accepted::New) => ("new", 0),
        Ok(Accepted::Known) => ("known", 0),
        Ok(Accepted::Raised) => ("raised", 0),
        Err(AcceptFault::Stranger) => ("stranger", 0),
        Err(AcceptFault::Known(fault)) => refused(fault),
    }
}

/// What a run did, in a word and its number.
fn ran(answer: Ran) -> (&'static str, u64) {
    match answer {
        Ran::All(done) => ("all", done),
        Ran::Limit(done) => ("limit", done),
        Ran::Memory(done) => ("memory", done),
    }
}

/// A replica, and its twin, which gets, does and merges the same.
#[derive(Drop)]
struct Pair {
    book: Book,
    twin: Book,
}

/// A new replica and its twin.
fn pair_of(
    rt: &(impl Abort + AllocGlobal),
    topology: &Arc<Topology>,
    partition: u32,
) -> Result<Pair, Fail> {
    let book = book_of(rt, topology, partition)?;
    let twin = book_of(rt, topology, partition)?;
    Ok(Pair { book, twin })
}

/// Both are the same.
fn same(rt: &impl Abort, what: &str, pair: &Pair) {
    holds(rt, what, are_alike(&pair.book, &pair.twin, CHANNELS));
}

/// What a replica answers to something that it gets, asked again if memory was refused.
fn told_again(book: &mut Book, message: &ChannelMessage) -> (&'static str, u64) {
    let answer = accepted(&book.accept(message));
    if answer.0 == "memory" {
        return accepted(&book.accept(message));
    }
    answer
}

/// A replica gets something, again if memory was refused: then it is as it was.
fn told(rt: &impl Abort, pair: &mut Pair, message: &ChannelMessage, want: &'static str) {
    let mut answer = accepted(&pair.book.accept(message));
    if answer.0 == "memory" {
        same(rt, "as before", pair);
        answer = accepted(&pair.book.accept(message));
    }
    eq_answer(rt, 0, answer, (want, 0));
    eq_answer(rt, 1, told_again(&mut pair.twin, message), (want, 0));
    same(rt, "told", pair);
}

/// How many events a replica does, asked again if memory was refused.
fn runs_again(alloc: Global, book: &mut Book) -> u64 {
    let (word, done) = ran(book.run_safe(alloc, 100));
    if word != "memory" {
        return done;
    }
    let (_word, more) = ran(book.run_safe(alloc, 100));
    done.saturating_add(more)
}

/// A replica runs, again if memory was refused: then it is as one that was to do as many events. So
/// many events in all.
fn runs(rt: &(impl Abort + AllocGlobal), pair: &mut Pair, want: u64) {
    let (word, done) = ran(pair.book.run_safe(rt.alloc(), 100));
    let mut count = done;
    if word == "memory" {
        let _ran = pair.twin.run_safe(rt.alloc(), done);
        same(rt, "whole events", pair);
        let (_word, more) = ran(pair.book.run_safe(rt.alloc(), 100));
        count = done.saturating_add(more);
    }
    eq_number(rt, "events", count, want);
    let _ran = runs_again(rt.alloc(), &mut pair.twin);
    same(rt, "run", pair);
}

/// What a replica knows, again if memory was refused.
fn knowledge(alloc: Global, book: &Book) -> Result<Knowledge, Fail> {
    match book.copy_knowledge(alloc) {
        Ok(known) => Ok(known),
        Err(_) => Ok(book.copy_knowledge(alloc)?),
    }
}

/// A replica merges, again if memory was refused: then it is as it was.
fn merges(rt: &(impl Abort + AllocGlobal), pair: &mut Pair, known: &Knowledge) {
    let mut answer = pair.book.merge(rt.alloc(), known);
    if answer == Err(MergeFault::Memory) {
        same(rt, "as before", pair);
        answer = pair.book.merge(rt.alloc(), known);
    }
    holds(rt, "merged", answer == Ok(()));
    let first = pair.twin.merge(rt.alloc(), known);
    let second = pair.twin.merge(rt.alloc(), known);
    holds(rt, "merged", first == Ok(()) || second == Ok(()));
    same(rt, "merged", pair);
}

/// The first message that a replica sent on a channel, again if memory was refused.
fn message(book: &Book, channel: u32) -> Result<ChannelMessage, Fail> {
    let channel = ChanNo::new(channel);
    let found: Option<Data> = book.data(channel, 0).or(book.data(channel, 0))?;
    match found {
        Some(data) => Ok(ChannelMessage::Data(data)),
        None => Err("there is a message".into()),
    }
}

/// A late replica merges what another one knows and does so many events: it is then as that one.
fn merges_late(
    rt: &(impl Abort + AllocGlobal),
    topology: &Arc<Topology>,
    known: &Knowledge,
    other: &Book,
    events: u64,
) -> Result<(), Fail> {
    let mut late = pair_of(rt, topology, other.partition().number())?;
    merges(rt, &mut late, known);
    runs(rt, &mut late, events);
    holds(rt, "the other one", are_alike(&late.book, other, CHANNELS));
    Ok(())
}

/// The same with what that one knows.
fn catches_up(
    rt: &(impl Abort + AllocGlobal),
    topology: &Arc<Topology>,
    other: &Book,
    events: u64,
) -> Result<(), Fail> {
    let known = knowledge(rt.alloc(), other)?;
    merges_late(rt, topology, &known, other, events)
}

/// A partition learns that nothing comes before 1,000,000 ns on its incoming channel, which has its
/// own number, and does two events: the message that it sent on the other channel.
fn sends(
    rt: &(impl Abort + AllocGlobal),
    topology: &Arc<Topology>,
    sender: u32,
) -> Result<ChannelMessage, Fail> {
    let mut pair = pair_of(rt, topology, sender)?;
    told(rt, &mut pair, &null(sender, 0, 1_000_000), "raised");
    runs(rt, &mut pair, 2);
    message(&pair.book, 1 - sender.min(1))
}

/// The other partition gets this message and learns that nothing else comes before 2,000,000 ns,
/// and does so many events; so does a late sister.
fn hears(
    rt: &(impl Abort + AllocGlobal),
    topology: &Arc<Topology>,
    receiver: u32,
    data: &ChannelMessage,
    events: u64,
) -> Result<(), Fail> {
    let mut pair = pair_of(rt, topology, receiver)?;
    told(rt, &mut pair, data, "new");
    told(rt, &mut pair, &null(receiver, 1, 2_000_000), "raised");
    runs(rt, &mut pair, events);
    catches_up(rt, topology, &pair.book, events)
}

/// a sends a packet to b, where it arrives.
#[test]
fn book_calls(rt: HostRuntime) -> Result<(), Fail> {
    let topology = network(rt.alloc(), SPLIT)?;
    let data = sends(&rt, &topology, 0)?;
    hears(&rt, &topology, 1, &data, 1)
}

/// b asks a, which is behind a router: the request comes to a, and the reply goes out, in six
/// events beside the four of a datagram.
#[test]
fn book_calls_of_a_router(rt: HostRuntime) -> Result<(), Fail> {
    let topology = network(rt.alloc(), SHIFT)?;
    let data = sends(&rt, &topology, 1)?;
    hears(&rt, &topology, 0, &data, 10)
}
