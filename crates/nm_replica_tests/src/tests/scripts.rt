//! Replicas over transports with scripts: who speaks with them, and which calls fail.

use crate::tests::scripted::{Fails, Manner, NEVER, Scripted};
use crate::tests::sides::{Company, Noting, STAYS, serve, topology_of};
use crate::tests::talks::{HELLO_OCTETS, Voice, digest_of, said_by};
use nm_fixtures::SPLIT;
use nm_policy::limits::{
    GREETING_PERIODS, HELLO_PERIODS, LINGER_PERIODS, MAX_STRANGERS, SILENCE_PERIODS,
};
use nm_replica::Served;
use nm_replica::limits::SHORT_PERIODS;
use std::alloc::Global;
use std::process::Abort;
use std::sync::Wait;
use std::sync::atomic::Ordering;

/// A replica of SPLIT, and what its transport does.
#[derive(Clone, Copy)]
struct Script {
    company: Company,
    /// Who speaks, in turn: so many of each over a connection each.
    voices: &'static [(usize, Voice)],
    fails: Fails,
    /// How connections give their octets.
    manner: Manner,
    /// A wait reports no connection.
    is_silent: bool,
    /// The system has too little for one more connection.
    is_short: bool,
}

/// What came of a script.
#[derive(Clone, Copy)]
struct Outcome {
    served: Served,
    /// How many octets moved, by its answer.
    moved: u64,
    /// How many connections were begun, and how many waits ran out.
    given: u64,
    waited: u64,
    /// How many connections were open at its end, and the most at one time.
    open: u64,
    most: u64,
}

/// What the other ends send, the last of them first.
fn sources_of<R: Abort>(rt: &R, alloc: Global, script: &Script) -> Vec<Vec<u8>> {
    let digest = digest_of(rt, alloc);
    let mut sources = Vec::new(alloc);
    for (count, voice) in script.voices.iter().rev() {
        for _ in 0..*count {
            let said = said_by(rt, alloc, *voice, script.company.is_called, &digest);
            sources.push(said).expect(rt, "memory");
        }
    }
    sources
}

/// Serves a replica by a script.
fn came_of<R: Wait + Abort>(rt: &R, alloc: Global, script: &Script) -> Outcome {
    let topology = topology_of(rt, alloc, SPLIT);
    let sources = sources_of(rt, alloc, script);
    let mut transport = Scripted::new(alloc, sources, script.company.is_called, script.fails);
    transport.manner = script.manner;
    transport.is_silent = script.is_silent;
    transport.is_short = script.is_short;
    let gate = Noting::new();
    let served = serve(rt, alloc, &topology, script.company, &mut transport, &gate).served;
    Outcome {
        served,
        moved: gate.moved.load(Ordering::SeqCst),
        given: transport.given,
        waited: transport.waited,
        open: transport.watched,
        most: transport.most_watched,
    }
}

/// Partition 1, which one replica calls, with whom these speak.
fn called_by(voices: &'static [(usize, Voice)], idle_limit: u64) -> Script {
    Script {
        company: Company {
            is_called: true,
            by_two: false,
            idle_limit,
        },
        voices,
        fails: NEVER,
        manner: Manner::Whole,
        is_silent: false,
        is_short: false,
    }
}

/// Which replicas speak, in turn, and what came of it.
#[derive(Clone, Copy)]
struct Row {
    /// Partition 1, which is called; or else partition 0, which calls.
    is_called: bool,
    /// The replica in each connection's Hello.
    voices: &'static [(usize, Voice)],
    /// A wait reports no connection.
    is_silent: bool,
    /// It ends as done, and is not stalled.
    ends: bool,
    /// How many connections were begun.
    given: u64,
    /// It stays for two seconds, since nobody knows whether its Bye came.
    stays: bool,
}

/// Of partition 1 two replicas of partition 0 are to end: whoever ends twice is one of them. Of
/// partition 0 the peer is called once more after its end.
const ROWS: &[Row] = &[
    Row {
        is_called: true,
        voices: &[(1, Voice::Peer(0)), (1, Voice::Peer(1))],
        is_silent: false,
        ends: true,
        given: 2,
        stays: true,
    },
    Row {
        is_called: true,
        voices: &[(1, Voice::Peer(0)), (1, Voice::Peer(1))],
        is_silent: true,
        ends: true,
        given: 2,
        stays: true,
    },
    Row {
        is_called: true,
        voices: &[(2, Voice::Peer(0))],
        is_silent: false,
        ends: false,
        given: 2,
        stays: true,
    },
    Row {
        is_called: false,
        voices: &[(2, Voice::Peer(0))],
        is_silent: false,
        ends: true,
        given: 2,
        stays: false,
    },
    Row {
        is_called: false,
        voices: &[(1, Voice::Peer(0))],
        is_silent: true,
        ends: true,
        given: 1,
        stays: true,
    },
];

/// A row is so.
fn ends<R: Wait + Abort>(rt: &R, alloc: Global, number: usize, row: &Row) {
    let script = Script {
        company: Company {
            is_called: row.is_called,
            by_two: true,
            idle_limit: STAYS,
        },
        voices: row.voices,
        fails: NEVER,
        manner: Manner::Whole,
        is_silent: row.is_silent,
        is_short: false,
    };
    let came = came_of(rt, alloc, &script);
    let is_so = matches!(came.served, Served::Ended) == row.ends
        && matches!(came.served, Served::Stalled { .. }) != row.ends;
    assert!(rt; is_so, "row {number}: how it ends");
    assert!(rt;
        came.given == row.given,
        "row {number}: how many connections"
    );
    let stays = came.waited >= LINGER_PERIODS;
    assert!(rt; stays == row.stays, "row {number}: how long it stays");
}

/// Links end as often as replicas, and the one that called last calls once more.
#[test]
fn links_end(rt: HostRuntime) {
    for (number, row) in ROWS.iter().enumerate() {
        ends(&rt, rt.alloc(), number, row);
    }
}

/// How a replica of SPLIT ends if its only peer sends all at once, over two connections if it has
/// to: partition 0 calls it, partition 1 is called.
fn ending_of<R: Wait + Abort>(
    rt: &R,
    alloc: Global,
    me: u32,
    fails: Fails,
    idle_limit: u64,
) -> Served {
    let script = Script {
        company: Company {
            is_called: me != 0,
            by_two: false,
            idle_limit,
        },
        voices: &[(2, Voice::Peer(0))],
        fails,
        manner: Manner::Whole,
        is_silent: false,
        is_short: false,
    };
    came_of(rt, alloc, &script).served
}

/// No call fails, and a call that failed is made again.
#[test]
fn a_failing_call_is_made_again(rt: HostRuntime) {
    for me in 0..2u32 {
        for at in 0..12u64 {
            let fails = Fails {
                at,
                for_good: false,
            };
            let served = ending_of(&rt, rt.alloc(), me, fails, STAYS);
            assert!(rt; served == Served::Ended, "partition {me}, call {at}");
        }
    }
}

/// Calls that fail for good: no connection comes, and the replica is stalled at its limit. If that
/// is far, waits that fail end it, since nobody may wait.
#[test]
fn calls_that_fail_for_good_end(rt: HostRuntime) {
    for me in 0..2u32 {
        let fails = Fails {
            at: 1,
            for_good: true,
        };
        let served = ending_of(&rt, rt.alloc(), me, fails, 4);
        assert!(rt; served == Served::Stalled { polls: 4 });
        let served = ending_of(&rt, rt.alloc(), me, fails, STAYS);
        assert!(rt; served == Served::Net);
    }
}

/// Partition 0, which calls one replica, with whom these speak in this manner.
fn calling(voices: &'static [(usize, Voice)], manner: Manner, idle_limit: u64) -> Script {
    Script {
        company: Company {
            is_called: false,
            by_two: false,
            idle_limit,
        },
        voices,
        fails: NEVER,
        manner,
        is_silent: false,
        is_short: false,
    }
}

/// A call that nobody answers is given up after five seconds, and made again a period later. So is
/// one on which nothing comes for five seconds after the Hello.
#[test]
fn calls_have_an_end(rt: HostRuntime) {
    const SILENT: &[(usize, Voice)] = &[(9, Voice::Silent)];
    const GREETED: &[(usize, Voice)] = &[(9, Voice::Greeted(0))];
    for (voices, time) in [(SILENT, HELLO_PERIODS), (GREETED, SILENCE_PERIODS)] {
        let script = calling(voices, Manner::Whole, 2 * time + time / 2);
        let came = came_of(&rt, rt.alloc(), &script);
        assert!(rt; matches!(came.served, Served::Stalled { .. }));
        assert!(rt; came.given == 3 && came.most == 1);
    }
}

/// A call that is held, and then one that is answered; or one to a peer that vanished after its
/// Hello: the replica is done.
#[test]
fn a_call_that_was_held_is_made_again(rt: HostRuntime) {
    const HELD: &[(usize, Voice)] = &[(1, Voice::Silent), (2, Voice::Peer(0))];
    const VANISHED: &[(usize, Voice)] = &[(1, Voice::Greeted(0)), (2, Voice::Peer(0))];
    for voices in [HELD, VANISHED] {
        let script = calling(voices, Manner::Whole, 2 * HELLO_PERIODS);
        let came = came_of(&rt, rt.alloc(), &script);
        assert!(rt; came.served == Served::Ended && came.given == 3);
    }
}

/// A peer that sends its Hello and cuts is called once a period, and is no progress: the gate
/// counts the octets of its Hellos, and the replica is stalled.
#[test]
fn who_greets_and_cuts_stalls(rt: HostRuntime) {
    let limit = 2 * GREETING_PERIODS;
    let script = calling(&[(500, Voice::Greeted(0))], Manner::Cut, limit);
    let came = came_of(&rt, rt.alloc(), &script);
    assert!(rt; matches!(came.served, Served::Stalled { .. }) && came.moved >= 48);
    assert!(rt; came.given > 2 && came.given <= limit + 1);
}

/// What a peer sends slowly counts from a second after its Hello on: the replica is not stalled
/// while it comes, however long that takes.
#[test]
fn slow_octets_count(rt: HostRuntime) {
    let limit = 2 * GREETING_PERIODS;
    let script = calling(&[(2, Voice::Peer(0))], Manner::Slow(HELLO_OCTETS), limit);
    let came = came_of(&rt, rt.alloc(), &script);
    assert!(rt; came.served == Served::Ended && came.waited > 5 * limit);
    assert!(rt; came.moved > 40);
}

/// Rubbish before a Hello costs that connection alone; after a Hello it ends the replica.
#[test]
fn rubbish(rt: HostRuntime) {
    let before = called_by(&[(1, Voice::Rubbish), (1, Voice::Peer(0))], STAYS);
    assert!(rt; came_of(&rt, rt.alloc(), &before).served == Served::Ended);
    let after = called_by(&[(1, Voice::RubbishBehindHello)], STAYS);
    assert!(rt; came_of(&rt, rt.alloc(), &after).served == Served::Net);
}

/// The gate never counts the octets of strangers, and the replica is stalled as if nobody had
/// called.
fn are_never_told<R: Wait + Abort>(rt: &R, alloc: Global, strangers: &'static [(usize, Voice)]) {
    let came = came_of(rt, alloc, &called_by(strangers, 4));
    assert!(rt; came.served == Served::Stalled { polls: 5 });
    assert!(rt; came.moved == 0 && came.most == 3);
}

/// Of strangers that stop in the middle of a Hello, and of silent ones.
#[test]
fn octets_of_strangers_are_never_told(rt: HostRuntime) {
    are_never_told(&rt, rt.alloc(), &[(3, Voice::Begun)]);
    are_never_told(&rt, rt.alloc(), &[(3, Voice::Silent)]);
}

/// The gate counts all that moves with a peer, its Hello with it.
#[test]
fn octets_of_a_peer_are_told(rt: HostRuntime) {
    let came = came_of(&rt, rt.alloc(), &called_by(&[(1, Voice::Peer(0))], STAYS));
    assert!(rt; came.served == Served::Ended && came.moved >= 48);
}

/// How many connections are open of a replica that one silent stranger called, after so many idle
/// polls.
fn open_after<R: Wait + Abort>(rt: &R, alloc: Global, idle_limit: u64) -> u64 {
    came_of(rt, alloc, &called_by(&[(1, Voice::Silent)], idle_limit)).open
}

/// A stranger that sends no Hello is let go after its polls, and not before.
#[test]
fn a_stranger_is_let_go(rt: HostRuntime) {
    let limit = HELLO_PERIODS;
    assert!(rt; open_after(&rt, rt.alloc(), limit.saturating_sub(1)) == 1);
    assert!(rt; open_after(&rt, rt.alloc(), limit.saturating_add(1)) == 0);
}

/// How many connections of partition 1 are open in the end, on which these sent Hello.
fn open_of<R: Wait + Abort>(rt: &R, alloc: Global, voices: &'static [(usize, Voice)]) -> u64 {
    let came = came_of(rt, alloc, &called_by(voices, 4));
    assert!(rt; came.given == 2 && came.most == 2);
    came.open
}

/// A caller's second connection takes the place of its first, and not of another replica's.
#[test]
fn a_second_connection_takes_the_place_of_the_first(rt: HostRuntime) {
    const TWICE: &[(usize, Voice)] = &[(2, Voice::Greeted(0))];
    const BOTH: &[(usize, Voice)] = &[(1, Voice::Greeted(0)), (1, Voice::Greeted(1))];
    assert!(rt; open_of(&rt, rt.alloc(), TWICE) == 1);
    assert!(rt; open_of(&rt, rt.alloc(), BOTH) == 2);
}

/// Many strangers, and then the peer.
const MANY: &[(usize, Voice)] = &[(3 * MAX_STRANGERS, Voice::Silent), (1, Voice::Peer(0))];

/// Of many strangers the last ones stay, and the peer that comes behind them is served.
#[test]
fn many_strangers_leave_room_for_the_peer(rt: HostRuntime) {
    let came = came_of(&rt, rt.alloc(), &called_by(MANY, STAYS));
    assert!(rt; came.served == Served::Ended);
    assert!(rt; came.most == MAX_STRANGERS as u64 + 1);
}

/// What comes of partition 1, to which the system refuses connections, and which one silent
/// stranger called before.
fn short_of<R: Wait + Abort>(rt: &R, alloc: Global, idle_limit: u64) -> Outcome {
    let mut script = called_by(&[(1, Voice::Silent)], idle_limit);
    script.is_short = true;
    came_of(rt, alloc, &script)
}

/// A replica to which the system refuses connections lets strangers go, and ends after a second of
/// that, and not before.
#[test]
fn a_shortage_ends_a_replica(rt: HostRuntime) {
    let before = short_of(&rt, rt.alloc(), SHORT_PERIODS.saturating_sub(1));
    assert!(rt;
        before.served
            == Served::Stalled {
                polls: SHORT_PERIODS
            }
    );
    assert!(rt; before.open == 0 && before.most == 1);
    let after = short_of(&rt, rt.alloc(), SHORT_PERIODS);
    assert!(rt; after.served == Served::Net);
}
