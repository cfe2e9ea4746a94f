//! `nm_events`: events of random times leave both lists in order.

ghost use Rattle.std.specs.Prelude.{◌≡◌};
ghost use Rattle.std.specs.FinMap.{empty};

use nm_base::{Event, IfaceNo, Time};
use nm_events::{EventList, HeapList, SortedList};
use std::alloc::AllocError;
use std::process::Abort;

/// How many events are put into a heap, and into a list in order, which moves others for each.
const MANY: u64 = 100_000;

const FEW: u64 = 2_000;

/// Times are below this many nanoseconds, and no two of them are the same: they are those of a
/// linear congruential generator of full period.
const PERIOD: u64 = 1 << 20;

/// Puts so many events, at random times.
fn fill<L: EventList>(list: &mut L, count: u64) -> Result<(), AllocError>
    requires { L.pending list.old ≡ empty }
{
    list.reserve(count as usize)?;
    let mut time: u64 = 1;
    for number in 0..count {
        time = (time * 1_664_525 + 1_013_904_223) % PERIOD;
        let event = Event::Completion(IfaceNo::new(0));
        list.put(Time::from_nanoseconds(time), number, event);
    }
    Ok(())
}

/// Whether so many events leave the list, each after the one before.
fn leaves_in_order<L: EventList>(list: &mut L, count: u64) -> bool {
    let mut last = Time::from_nanoseconds(0);
    for _ in 0..count {
        let Some(entry) = list.take_least() else {
            return false;
        };
        let (time, _, _) = entry;
        if time < last {
            return false;
        }
        last = time;
    }
    list.is_empty()
}

/// Events that come in random order leave the list in order.
fn sorts<L: EventList + Drop>(rt: &(impl Abort + AllocGlobal), count: u64) {
    let mut list = L::new(rt.alloc());
    fill(&mut list, count).expect(rt, "it succeeds");
    assert!(rt; leaves_in_order(&mut list, count));
}

#[test]
fn a_heap_sorts(rt: HostRuntime) {
    sorts::<HeapList>(&rt, MANY)
}

#[test]
fn a_list_in_order_sorts(rt: HostRuntime) {
    sorts::<SortedList>(&rt, FEW)
}
