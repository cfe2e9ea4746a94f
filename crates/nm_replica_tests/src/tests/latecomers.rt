//! A replica that is made again, and takes in what its sister knows.

ghost use Rattle.std.specs.Prelude.{◌≡◌, ◌^◌};
ghost use Rattle.std.specs.Arc.{arc_value};
ghost use Rattle.nm_shared.specs.Counted.{IsBlankOf};
ghost use Rattle.nm_shared.specs.Home.{home_at};

use crate::tests::callers::shared_of;
use crate::tests::messages::{message, null};
use crate::tests::sides::topology_of;
use nm_base::Record;
use nm_book::{Book, ChannelMessage, Knowledge, Null, Ran};
use nm_fixtures::SPLIT;
use nm_shared::acts::{CopyKnowledge, MakeNull, Merge};
use nm_shared::counts::PARTS;
use nm_shared::{Counts, Ledgers, Naming, Pass, SharedBook};
use nm_topology::Topology;
use std::alloc::Global;
use std::marker::Brand;
use std::process::Abort;
use std::sync::ledger::{Blank, Ledger};
use std::sync::{Arc, Wait};

/// A replica that is made: which one, and what its sister knows, if it is to merge that.
#[derive(Clone, Copy)]
struct Made<'a> {
    replica: u8,
    sister: Option<&'a Knowledge>,
}

/// The result of a replica: its book, the totals of all its passes, and the null message of channel
/// 0, which goes out.
#[derive(Drop)]
struct Finished {
    book: Book,
    messages: u64,
    events: u64,
    promise: Option<Null>,
}

/// A replica does its one event, and closes with the sums of its passes.
fn finish<M: Naming + Send + Sync, E: Ledger + Send + Sync, R: Wait + Abort>(
    rt: &R,
    alloc: Global,
    shared: SharedBook<Ledgers<M, E>>,
    pass: Pass<Ledgers<M, E>>,
) -> Finished
    requires { (M.parts ≡ 2 ^ 32) × (E.parts ≡ 2 ^ 32) }
{
    let mut pass = pass;
    let ran = shared.run(rt, &mut pass, alloc, 10);
    assert!(rt; matches!(ran, Ran::All(1)), "it does its event");
    let channel = null(0, 0, 0).channel;
    let promise = shared.act(rt, &mut pass, MakeNull { channel });
    let mut passes = Vec::new(alloc);
    passes.push(pass).expect(rt, "memory");
    match shared.close(passes) {
        Ok(closed) => Finished {
            book: closed.book,
            messages: closed.messages,
            events: closed.events,
            promise,
        },
        Err(_) => panic!(rt; "no pass is missing"),
    }
}

/// Tells a replica all messages of its channel.
fn tell_all<C: Counts, R: Wait + Abort>(
    rt: &R,
    alloc: Global,
    shared: &SharedBook<C>,
    pass: &mut Pass<C>,
) {
    let told = [
        message(rt, alloc, 1, 0, 1_100_000),
        ChannelMessage::Null(null(1, 1, 2_000_000)),
    ];
    for one in &told {
        assert!(rt; shared.accept(rt, pass, one).is_ok(), "it is taken");
    }
}

/// A replica gets all messages, or merges what its sister knows, and does its event: the result,
/// and what it knew before.
fn made_of<M: Naming + Send + Sync, E: Ledger + Send + Sync, R: Wait + Abort>(
    rt: &R,
    alloc: Global,
    topology: Arc<Topology>,
    made: Made<'_>,
    messages: Blank,
    events: Blank,
) -> (Finished, Knowledge)
    requires messages { IsBlankOf M.name M.parts messages.name messages.parts }
    requires events { IsBlankOf E.name E.parts events.name events.parts }
    requires home { M.home ≡ home_at (arc_value topology) 1 made.replica }
{
    let shared = shared_of::<M, E, R>(rt, alloc, topology, made.replica, messages, events);
    let mut pass = shared.pass(rt).expect(rt, "memory");
    match made.sister {
        None => tell_all(rt, alloc, &shared, &mut pass),
        Some(knowledge) => {
            let merge = Merge { alloc, knowledge };
            assert!(rt; shared.act(rt, &mut pass, merge).is_ok(), "it is merged");
        }
    }
    let knowledge = shared
        .act(rt, &mut pass, CopyKnowledge { alloc })
        .expect(rt, "memory");
    (finish(rt, alloc, shared, pass), knowledge)
}

/// The same of a replica of SPLIT's partition 1, with a name of its own.
fn make<R: Wait + Abort>(
    rt: &R,
    alloc: Global,
    topology: &Arc<Topology>,
    made: Made<'_>,
) -> (Finished, Knowledge) {
    let topology = topology.clone().expect(rt, "memory");
    let (messages, events) = (Blank::new(PARTS), Blank::new(PARTS));
    made_of::<Brand, Brand, R>(rt, alloc, topology, made, messages, events)
}

/// Replica 1, made again of what its sister knows: the result.
fn made_anew<R: Wait + Abort>(
    rt: &R,
    alloc: Global,
    topology: &Arc<Topology>,
    sister: &Knowledge,
) -> Finished {
    let made = Made {
        replica: 1,
        sister: Some(sister),
    };
    let (finished, _) = make(rt, alloc, topology, made);
    finished
}

/// Whether two records are the same.
fn is_same(one: &Record, other: &Record) -> bool {
    one.time == other.time
        && one.iface == other.iface
        && one.dir == other.dir
        && one.packet.octets() == other.packet.octets()
}

/// Both know and did as much, promise the same, and have the same trace, of one record.
fn are_alike<R: Abort>(rt: &R, one: &Finished, other: &Finished) {
    assert!(rt; one.messages == 1 && other.messages == 1, "what they know");
    assert!(rt; one.events == 1 && other.events == 1, "what they did");
    match (&one.promise, &other.promise) {
        (Some(a), Some(b)) => {
            assert!(rt;
                a.count == b.count && a.clock == b.clock,
                "what they promise"
            );
        }
        _ => assert!(rt; false, "channel 0 goes out"),
    }
    match (one.book.trace(), other.book.trace()) {
        ([a], [b]) => assert!(rt; is_same(a, b), "their traces"),
        _ => assert!(rt; false, "each has a record"),
    }
}

/// A replica that was dropped after its event is made again. It merges what its sister knows and
/// runs: then it knows and did as much, promises the same, and has the same trace; and the passes
/// of each are accounted for.
#[test]
fn a_replica_made_anew_does_what_its_sister_did(rt: HostRuntime) {
    let alloc = rt.alloc();
    let topology = topology_of(&rt, alloc, SPLIT);
    let made = Made {
        replica: 0,
        sister: None,
    };
    let (one, knowledge) = make(&rt, alloc, &topology, made);
    let early = made_anew(&rt, alloc, &topology, &knowledge);
    are_alike(&rt, &one, &early);
    drop(early);
    let anew = made_anew(&rt, alloc, &topology, &knowledge);
    are_alike(&rt, &one, &anew);
}
