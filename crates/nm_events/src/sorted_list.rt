//! An event list as one list in order.

ghost use Rattle.std.specs.Prelude.{◌≡◌, ◌≤◌, length, true, false};
ghost use Rattle.std.specs.List.Sorted.{IsPartitionPoint};
ghost use Rattle.std.specs.Ordering.{is_lt};
ghost use Rattle.nm_base.specs.Key.{key_cmp};

use crate::entry::Entry;
use crate::event_list::EventList;
use nm_base::{Event, Key, Time};
use std::alloc::{AllocError, Global};
use std::collections::VecDeque;
use std::marker::Model;

/// Keeps the events in the order of their keys, the least first: the plain form of an event list.
/// An event is put by a search for its place, and a move of the events before it or behind it,
/// whichever are fewer; the least is taken in constant time.
#[derive(Drop)]
pub struct SortedList {
    entries: VecDeque<Entry>,
}

impl Model for SortedList {
    ghost use Rattle.std.specs.Prelude.{◌≡◌, ◌-◌, true};
    ghost use Rattle.std.specs.VecDeque.{deque_len, deque_capacity};
    ghost use Rattle.std.specs.FinMap.{is_sorted};
    ghost use Rattle.nm_base.specs.Key.{key_cmp};
    ghost use Rattle.nm_events.specs.Entries.{pairs};
    ghost use Rattle.nm_events.specs.Held.{Held};

    ghost Value = { Held };

    ghost view = { λ s. record {
      entries = pairs s.entries.items;
      room = deque_capacity s.entries - deque_len s.entries;
    } };

    ghost invariant = { λ s. is_sorted key_cmp (pairs s.entries.items) ≡ true };
}

impl SortedList {
    /// How many events have a lesser key. They come first.
    fn place_of(&self, key: &Key) -> usize
        ensures bound { result ≤ length self.now.entries }
        ensures parted { IsPartitionPoint (λ e. is_lt (key_cmp e.0 key.now) ≡ true)
            (λ e. is_lt (key_cmp e.0 key.now) ≡ false) self.now.entries result }
    {
        self.entries.partition_point(|entry| entry.key() < *key)
    }
}

impl EventList for SortedList {
    ghost use Rattle.nm_events.specs.Held.{pending_of};

    ghost pending = { pending_of };

    ghost room = { λ s. s.room };

    fn new(alloc: Global) -> Self {
        SortedList {
            entries: VecDeque::new(alloc),
        }
    }

    fn reserve(&mut self, count: usize) -> Result<(), AllocError> {
        self.entries.reserve(count)
    }

    fn put(&mut self, time: Time, number: u64, event: Event) {
        let entry = Entry::new(time, number, event);
        let place = self.place_of(&entry.key());
        self.entries.insert(place, entry).unwrap();
    }

    fn least(&self) -> Option<Key> {
        let entry = self.entries.front()?;
        Some(entry.key())
    }

    fn is_due(&self, before: Time) -> bool {
        match self.entries.front() {
            Some(entry) => entry.time < before,
            None => false,
        }
    }

    fn take_least(&mut self) -> Option<(Time, u64, Event)> {
        let entry = self.entries.pop_front()?;
        Some((entry.time, entry.number, entry.event))
    }

    fn len(&self) -> usize {
        self.entries.len()
    }

    fn is_empty(&self) -> bool {
        self.entries.is_empty()
    }
}
