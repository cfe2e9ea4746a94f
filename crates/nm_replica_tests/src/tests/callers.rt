//! Threads that give one shared book the same messages.

ghost use Rattle.std.specs.Prelude.{◌≡◌, ◌^◌};
ghost use Rattle.std.specs.Arc.{arc_value};
ghost use Rattle.nm_shared.specs.Counted.{IsBlankOf};
ghost use Rattle.nm_shared.specs.Home.{home_at};

use crate::tests::messages::{message, messages, null};
use crate::tests::sides::topology_of;
use nm_base::PartNo;
use nm_book::ChannelMessage;
use nm_fixtures::SPLIT;
use nm_knowledge::Accepted;
use nm_shared::counts::PARTS;
use nm_shared::{Closed, Counts, Ledgers, Naming, Pass, PassesOut, SharedBook};
use nm_topology::Topology;
use std::alloc::Global;
use std::marker::Brand;
use std::process::Abort;
use std::sync::ledger::{Blank, Ledger};
use std::sync::{Arc, Wait};
use std::thread::{Threads, map_indices};

/// The book of a replica of a network's partition 1, with a name of its own.
pub(crate) fn shared_of<M: Naming + Send + Sync, E: Ledger + Send + Sync, R: Abort>(
    rt: &R,
    alloc: Global,
    topology: Arc<Topology>,
    replica: u8,
    messages: Blank,
    events: Blank,
) -> SharedBook<Ledgers<M, E>>
    requires messages { IsBlankOf M.name M.parts messages.name messages.parts }
    requires events { IsBlankOf E.name E.parts events.name events.parts }
    requires home { M.home ≡ home_at (arc_value topology) 1 replica }
{
    let (counts, whole) = Ledgers::<M, E>::open(messages, events);
    SharedBook::new(alloc, topology, PartNo::new(1), replica, counts, whole).expect(rt, "a replica")
}

/// So many threads that give a book the same messages.
#[derive(Clone, Copy)]
struct Crowd<'a> {
    threads: usize,
    all: &'a [ChannelMessage],
}

/// What a thread was answered, and what it then saw.
#[derive(Clone, Copy)]
struct Told {
    new: u64,
    known: u64,
    seen: u64,
}

/// What threads were answered in all, the least and the most messages that one then saw, and the
/// totals of the book that they shared.
#[derive(Clone, Copy)]
struct Handed {
    new: u64,
    known: u64,
    least: u64,
    most: u64,
    messages: u64,
    events: u64,
}

/// Hands messages to a book and then the null message of so many, with a pass of its own, and
/// looks.
fn hand_all<C: Counts, R: Wait + Abort>(
    rt: &R,
    shared: &SharedBook<C>,
    all: &[ChannelMessage],
) -> (Pass<C>, Told) {
    let mut pass = shared.pass(rt).expect(rt, "memory");
    let (mut new, mut known) = (0u64, 0u64);
    for message in all {
        match shared.accept(rt, &mut pass, message) {
            Ok(Accepted::New) => new = new.saturating_add(1),
            Ok(Accepted::Known) => known = known.saturating_add(1),
            _ => {}
        }
    }
    let later = ChannelMessage::Null(null(1, all.len() as u64, 2_000_000));
    let _answer = shared.accept(rt, &mut pass, &later);
    let seen = shared.look(rt, &mut pass).messages;
    (pass, Told { new, known, seen })
}

/// Gathers what threads were answered, and their passes.
fn gather<C: Counts, R: Abort>(
    rt: &R,
    told: Vec<(Pass<C>, Told)>,
    passes: &mut Vec<Pass<C>>,
) -> Handed {
    let mut handed = Handed {
        new: 0,
        known: 0,
        least: u64::MAX,
        most: 0,
        messages: 0,
        events: 0,
    };
    for (pass, told) in told {
        handed.new = handed.new.saturating_add(told.new);
        handed.known = handed.known.saturating_add(told.known);
        handed.least = handed.least.min(told.seen);
        handed.most = handed.most.max(told.seen);
        passes.push(pass).expect(rt, "memory");
    }
    handed
}

/// Threads give a book the same messages, each with a pass of its own.
fn hand_at_once<M: Naming + Send + Sync, E: Ledger + Send + Sync, R: Threads + Wait + Sync + Abort>(
    rt: &R,
    alloc: Global,
    book: &SharedBook<Ledgers<M, E>>,
    crowd: Crowd<'_>,
) -> Vec<(Pass<Ledgers<M, E>>, Told)> {
    map_indices(
        rt,
        alloc,
        crowd.threads,
        &|_thread: usize| -> (Pass<Ledgers<M, E>>, Told) { hand_all(rt, book, crowd.all) },
    )
    .expect(rt, "memory")
}

/// Closes a book with all its passes; the last comes late. Without that one it does not close: all
/// comes back, and nothing is lost.
fn close_at_last<M: Naming + Send + Sync, E: Ledger + Send + Sync, R: Abort>(
    rt: &R,
    shared: SharedBook<Ledgers<M, E>>,
    passes: Vec<Pass<Ledgers<M, E>>>,
) -> Closed
    requires { (M.parts ≡ 2 ^ 32) × (E.parts ≡ 2 ^ 32) }
{
    let mut passes = passes;
    let late = passes.pop().expect(rt, "a pass");
    let held_back = passes.len();
    let Err(PassesOut { held, mut passes }) = shared.close(passes) else {
        panic!(rt; "a pass is missing");
    };
    assert!(rt; passes.len() == held_back, "the others come back");
    passes.push(late).expect(rt, "memory");
    match SharedBook::again(held).close(passes) {
        Ok(closed) => closed,
        Err(_) => panic!(rt; "no pass is missing"),
    }
}

/// So many threads give one book the same messages.
fn handed_by_many<
    M: Naming + Send + Sync,
    E: Ledger + Send + Sync,
    R: Threads + Wait + Sync + Abort,
>(
    rt: &R,
    alloc: Global,
    topology: Arc<Topology>,
    messages: Blank,
    events: Blank,
    crowd: Crowd<'_>,
) -> Handed
    requires messages { IsBlankOf M.name M.parts messages.name messages.parts }
    requires events { IsBlankOf E.name E.parts events.name events.parts }
    requires home { M.home ≡ home_at (arc_value topology) 1 0 }
{
    let shared = shared_of::<M, E, R>(rt, alloc, topology, 0, messages, events);
    let told = hand_at_once(rt, alloc, &shared, crowd);
    let mut passes = Vec::new(alloc);
    let handed = gather(rt, told, &mut passes);
    let closed = close_at_last(rt, shared, passes);
    Handed {
        messages: closed.messages,
        events: closed.events,
        ..handed
    }
}

/// Threads give the book of SPLIT's partition 1 the same messages.
fn hands<R: Threads + Wait + Sync + Abort>(rt: &R, alloc: Global, crowd: Crowd<'_>) -> Handed {
    let topology = topology_of(rt, alloc, SPLIT);
    let (messages, events) = (Blank::new(PARTS), Blank::new(PARTS));
    handed_by_many::<Brand, Brand, R>(rt, alloc, topology, messages, events, crowd)
}

/// One of two threads gives it first: one answer is `New` and the other `Known`.
#[test]
fn one_is_new_and_one_is_known(rt: HostRuntime) {
    let all = [message(&rt, rt.alloc(), 1, 0, 1_100_000)];
    let crowd = Crowd {
        threads: 2,
        all: &all,
    };
    let handed = hands(&rt, rt.alloc(), crowd);
    assert!(rt; handed.new == 1 && handed.known == 1);
    assert!(rt; handed.least == 1 && handed.most == 1);
    assert!(rt; handed.messages == 1 && handed.events == 0);
}

/// Of eight threads with the same thousand messages each message is new to one.
#[test]
fn each_message_is_new_once(rt: HostRuntime) {
    let all = messages(&rt, rt.alloc(), 1, 1_000);
    let crowd = Crowd {
        threads: 8,
        all: all.as_slice(),
    };
    let handed = hands(&rt, rt.alloc(), crowd);
    assert!(rt; handed.new == 1_000 && handed.known == 7_000);
    assert!(rt; handed.messages == 1_000 && handed.events == 0);
}
