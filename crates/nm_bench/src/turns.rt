//! Events that leave a list and come again later.

ghost use Rattle.std.specs.Prelude.{◌≡◌, ℕ, ◌≤◌, None, OnOk};
ghost use Rattle.std.specs.FinMap.{empty, get};
ghost use Rattle.nm_base.specs.declared.key.Key.{Key as EventKey};

use nm_base::{Event, IfaceNo, Time};
use nm_events::EventList;
use std::alloc::AllocError;

/// The order in which keys come.
#[derive(Clone, Copy)]
pub(crate) enum Order {
    /// Each up to 2^20 nanoseconds after the one that left, by a linear congruential generator.
    Random,
    /// Each about 2^20 nanoseconds after the one that left.
    Nearly,
}

/// How many nanoseconds a key is after the one that left, by a random number below 2^20.
fn step(order: Order, random: u64) -> u64 {
    match order {
        Order::Random => random,
        Order::Nearly => (1 << 20) + random % 64,
    }
}

/// The number below 2^20 that comes after this one: each comes once before one comes again.
fn next(random: u64) -> u64
    requires { random ≤ 1048575 }
    ensures { result ≤ 1048575 }
{
    (random * 1_664_525 + 1_013_904_223) % (1 << 20)
}

/// Fills a list with so many events, with room for one more.
fn fill<L: EventList>(list: &mut L, count: u64) -> Result<(), AllocError>
    requires empty { L.pending list.old ≡ empty }
    requires few { count ≤ 65536 }
    ensures room { OnOk result (1 ≤ L.room list.new) }
    ensures fresh { OnOk result
        ((q : EventKey) → count ≤ q.number → get (L.pending list.new) q ≡ None) }
{
    list.reserve(count as usize + 1)?;
    let mut random: u64 = 1;
    for number in 0..count {
        random = next(random);
        let event = Event::Completion(IfaceNo::new(0));
        list.put(Time::from_nanoseconds(random), number, event);
    }
    Ok(())
}

/// So many times takes the least event and puts a later one, among so many. Gives the last time.
pub(crate) fn turn_over<L: EventList>(
    list: &mut L,
    order: Order,
    count: u64,
    turns: u64,
) -> Result<u64, AllocError>
    requires empty { L.pending list.old ≡ empty }
    requires few { count ≤ 65536 }
    requires turns { turns ≤ 4294967296 }
{
    fill(list, count)?;
    let mut random: u64 = 1;
    let mut time: u64 = 0;
    for number in count..count + turns {
        let Some(entry) = list.take_least() else {
            return Ok(time);
        };
        let (least, _, event) = entry;
        random = next(random);
        time = least.nanoseconds().wrapping_add(step(order, random));
        list.put(Time::from_nanoseconds(time), number, event);
    }
    Ok(time)
}
