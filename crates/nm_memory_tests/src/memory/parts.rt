//! Parts of a network.

ghost use Rattle.std.specs.Prelude.{IfOk};
ghost use Rattle.nm_memory_tests.specs.Whole.{IsWhole};

use crate::same::{eq_number, holds};
use crate::split::network;
use nm_base::{IfaceNo, Key, NodeNo, Wanted};
use nm_events::HeapList;
use nm_fixtures::{SHIFT, SPLIT};
use nm_forward::Counter;
use nm_sim::{Part, one_list};
use nm_topology::Topology;
use std::alloc::{AllocError, Global};
use std::process::Abort;
use std::test::Fail;

/// Whether each node of two parts counted the same, and each interface dropped and holds as much.
fn have_same_devices(topology: &Topology, one: &Part<HeapList>, other: &Part<HeapList>) -> bool {
    for number in 0..topology.nodes().len().min(100) as u32 {
        let node = NodeNo::new(number);
        for counter in Counter::ALL {
            if one.counter(node, counter) != other.counter(node, counter) {
                return false;
            }
        }
    }
    for number in 0..topology.ifaces().len().min(100) as u32 {
        let iface = IfaceNo::new(number);
        if one.dropped(iface) != other.dropped(iface)
            || one.waiting(iface) != other.waiting(iface)
        {
            return false;
        }
    }
    true
}

/// Whether two parts are the same in all that they answer.
fn are_alike(topology: &Topology, one: &Part<HeapList>, other: &Part<HeapList>) -> bool {
    one.least() == other.least()
        && one.events() == other.events()
        && one.trace() == other.trace()
        && have_same_devices(topology, one, other)
}

/// Does the first event of the whole network.
fn step(
    alloc: Global,
    topology: &Topology,
    part: &mut Part<HeapList>,
) -> Result<Option<Key>, AllocError>
    requires { IsWhole topology.now part.old }
    ensures { IsWhole topology.now part.new }
{
    part.step(alloc, topology, topology.stop())
}

/// Does the first event of the whole network, again if memory was refused.
fn step_again(
    alloc: Global,
    topology: &Topology,
    part: &mut Part<HeapList>,
) -> Result<Option<Key>, AllocError>
    requires { IsWhole topology.now part.old }
    ensures { IsWhole topology.now part.new }
{
    match step(alloc, topology, part) {
        Ok(done) => Ok(done),
        Err(_) => step(alloc, topology, part),
    }
}

/// The same; a refused step leaves all as it is in the twin, which is as far.
fn step_at_last(
    rt: &(impl Abort + AllocGlobal),
    topology: &Topology,
    part: &mut Part<HeapList>,
    twin: &Part<HeapList>,
) -> Result<Option<Key>, AllocError>
    requires { IsWhole topology.now part.old }
    ensures { IsWhole topology.now part.new }
{
    match step(rt.alloc(), topology, part) {
        Ok(done) => Ok(done),
        Err(_) => {
            holds(rt, "as it was", are_alike(topology, part, twin));
            step(rt.alloc(), topology, part)
        }
    }
}

/// The whole network, of fewer than 100 events, does them, and so does its twin: after each they
/// are the same.
fn run(
    rt: &(impl Abort + AllocGlobal),
    topology: &Topology,
    part: &mut Part<HeapList>,
    twin: &mut Part<HeapList>,
)
    requires part { IsWhole topology.now part.old }
    requires twin { IsWhole topology.now twin.old }
{
    for _ in 0..100 {
        let done = step_at_last(rt, topology, part, twin).expect(rt, "there is memory");
        let same = step_again(rt.alloc(), topology, twin).expect(rt, "there is memory");
        holds(
            rt,
            "one event",
            done == same && are_alike(topology, part, twin),
        );
        if done.is_none() {
            return;
        }
    }
    holds(rt, "it ends", false);
}

/// The whole network at its start, with these wanted records, asked for again if memory was
/// refused.
fn started(
    alloc: Global,
    topology: &Topology,
    wanted: &Wanted,
) -> Result<Part<HeapList>, AllocError>
    ensures { IfOk result (λ p. IsWhole topology.now p) }
{
    match Part::start_with(alloc, topology, None, wanted.again()) {
        Ok(part) => Ok(part),
        Err(_) => {
            let part = Part::start_with(alloc, topology, None, wanted.again())?;
            Ok(part)
        }
    }
}

/// The result of a run: so many events and records, of which so many are kept, and what nodes
/// counted.
type Want<'w> = (u64, u64, u64, &'w [(u32, Counter, u64)]);

/// A part has this result.
fn came_to(rt: &impl Abort, part: &Part<HeapList>, want: Want) {
    let (events, records, kept, counts) = want;
    eq_number(rt, "events", part.events(), events);
    eq_number(rt, "records", part.made(), records);
    eq_number(rt, "records that are kept", part.trace().len() as u64, kept);
    for (node, counter, count) in counts {
        let found = part.counter(NodeNo::new(*node), *counter);
        holds(rt, counter.name(), found == Some(*count));
    }
}

/// The run of a network has this result.
fn runs_to(
    rt: &(impl Abort + AllocGlobal),
    topology: &Topology,
    wanted: &Wanted,
    want: Want,
) -> Result<(), AllocError> {
    let mut part = started(rt.alloc(), topology, wanted)?;
    let mut twin = started(rt.alloc(), topology, wanted)?;
    run(rt, topology, &mut part, &mut twin);
    came_to(rt, &part, want);
    Ok(())
}

/// One packet is sent and arrives, in three events.
#[test]
fn part_step(rt: HostRuntime) -> Result<(), Fail> {
    let topology = network(rt.alloc(), SPLIT)?;
    let counts = [(0, Counter::Originated, 1), (1, Counter::Udp, 1)];
    Ok(runs_to(&rt, &topology, &Wanted::All, (3, 2, 2, &counts))?)
}

/// Three datagrams of five events and four records go through a router, and two requests with their
/// replies, of nine events and eight records.
#[test]
fn part_step_of_a_router(rt: HostRuntime) -> Result<(), Fail> {
    let topology = network(rt.alloc(), SHIFT)?;
    let counts = [
        (0, Counter::Originated, 5),
        (0, Counter::Echo, 2),
        (1, Counter::Forwarded, 7),
        (2, Counter::Originated, 2),
        (2, Counter::Udp, 3),
        (2, Counter::Icmp, 2),
    ];
    let rows = [
        (Wanted::All, 28),
        (Wanted::Nothing, 0),
        (Wanted::One(IfaceNo::new(0)), 7),
    ];
    for (wanted, kept) in &rows {
        runs_to(&rt, &topology, wanted, (33, 28, *kept, &counts))?;
    }
    Ok(())
}

#[test]
fn part_whole(rt: HostRuntime) -> Result<(), Fail> {
    let topology = network(rt.alloc(), SPLIT)?;
    let first = one_list(rt.alloc(), &topology, topology.stop());
    let second = one_list(rt.alloc(), &topology, topology.stop());
    eq_number(&rt, "records", first.or(second)?.len() as u64, 2);
    Ok(())
}
