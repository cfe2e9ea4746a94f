//! An event list as a heap.

ghost use Rattle.std.specs.Prelude.{◌≡◌};
ghost use Rattle.nm_base.specs.Key.{key_of};
ghost use Rattle.nm_base.specs.Event.{event_place};

use crate::entry::Entry;
use crate::event_list::EventList;
use nm_base::{Event, Key, Time};
use std::alloc::{AllocError, Global};
use std::cmp::Reverse;
use std::collections::BinaryHeap;
use std::marker::Model;

/// Keeps the events in one binary heap, so that an event is put, and the least is taken, in
/// logarithmic time whatever the order in which their keys come.
///
/// Of two entries the one of the lesser key is the greater, and a heap has its greatest first.
#[derive(Drop)]
pub struct HeapList {
    heap: BinaryHeap<Reverse<Entry>>,
}

impl Model for HeapList {
    ghost use Rattle.std.specs.Prelude.{◌-◌};
    ghost use Rattle.std.specs.BinaryHeap.{heap_items, heap_len, heap_capacity, IsHeap};
    ghost use Rattle.nm_events.specs.Entries.{AreDistinct, heap_cmp, heap_pairs};
    ghost use Rattle.nm_events.specs.Held.{Held};

    ghost Value = { Held };

    ghost view = { λ h. record {
      entries = heap_pairs (heap_items h.heap);
      room = heap_capacity h.heap - heap_len h.heap;
    } };

    ghost invariant = { λ h. IsHeap heap_cmp (heap_items h.heap)
        × AreDistinct (heap_pairs (heap_items h.heap)) };
}

impl EventList for HeapList {
    ghost use Rattle.nm_events.specs.Held.{pending_of};

    ghost pending = { pending_of };

    ghost room = { λ s. s.room };

    fn new(alloc: Global) -> Self {
        HeapList {
            heap: BinaryHeap::new(alloc),
        }
    }

    fn reserve(&mut self, count: usize) -> Result<(), AllocError> {
        self.heap.reserve(count)
    }

    fn put(&mut self, time: Time, number: u64, event: Event) {
        let entry = Entry::new(time, number, event);
        self.heap.push(Reverse(entry)).unwrap();
    }

    fn least(&self) -> Option<Key> {
        let entry = self.heap.peek()?;
        Some(entry.0.key())
    }

    fn is_due(&self, before: Time) -> bool {
        match self.heap.peek() {
            Some(entry) => entry.0.time < before,
            None => false,
        }
    }

    fn take_least(&mut self) -> Option<(Time, u64, Event)> {
        let Reverse(entry) = self.heap.pop()?;
        Some((entry.time, entry.number, entry.event))
    }

    fn len(&self) -> usize {
        self.heap.len()
    }

    fn is_empty(&self) -> bool {
        self.heap.is_empty()
    }
}
