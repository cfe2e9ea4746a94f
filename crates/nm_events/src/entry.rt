//! What an event list keeps of an event.

ghost use Rattle.std.specs.Prelude.{◌≡◌, ◌<◌, ◌^◌};
ghost use Rattle.nm_base.specs.Event.{event_place};
ghost use Rattle.nm_base.specs.Key.{index_of, place_number};

use nm_base::{Event, Time};

/// An event, the time and the number of its key, and its place's number in the order of places: the
/// event has its place itself, and entries of one time are compared by two numbers. Entries are
/// ordered by their keys.
#[derive(Drop)]
pub(crate) struct Entry {
    pub(crate) time: Time,
    pub(crate) rank: u64,
    pub(crate) number: u64,
    pub(crate) event: Event,
    ghost ranked: { rank ≡ place_number (2 ^ 32) (event_place event) },
    ghost indexed: { index_of (event_place event) < 2 ^ 32 },
}

impl Entry {
    /// The entry of an event of this time and number.
    #[inline(always)]
    pub(crate) fn new(time: Time, number: u64, event: Event) -> Self
        ensures time { result.time ≡ time }
        ensures number { result.number ≡ number }
        ensures event { result.event ≡ event }
    {
        let rank = event.place().rank();
        Entry {
            time,
            rank,
            number,
            event,
        }
    }
}
