//! What every event list does.

ghost use Rattle.std.specs.Prelude.{◌≡◌, ℕ, ◌+◌, ◌≤◌, ◌==◌, List, Option, None, OnOk, IfSome};
ghost use Rattle.std.specs.Prelude.{IfNone};
ghost use Rattle.std.specs.Option.{option_map};
ghost use Rattle.std.specs.FinMap.{FinMap, empty, get, insert, len as size, remove};
ghost use Rattle.nm_base.specs.Event.{event_place};
ghost use Rattle.nm_base.specs.Key.{key_cmp, key_of};
ghost use Rattle.nm_base.specs.declared.event.Event.{Event as PendingEvent};
ghost use Rattle.nm_model.specs.EventList.{is_before, least as least_entry};
ghost use Rattle.nm_model.specs.Run.{keyed};

use nm_base::{Event, Key, Time};
use std::alloc::{AllocError, Global};

/// The events that are still to come (J. Misra, 1986, section 1). A clause sees a finite map from
/// keys to events, and for how many more events there is room. Only `reserve` takes memory.
pub trait EventList: Sized {
    // The pending events.
    ghost pending: { Self → FinMap key_cmp (PendingEvent (List ℕ)) };

    // For how many more events there is room.
    ghost room: { Self → ℕ };

    /// An event list with no event.
    fn new(alloc: Global) -> Self
        ensures { pending result ≡ empty };

    /// Makes room for so many more events.
    ///
    /// # Errors
    ///
    /// `AllocError` if the list could not grow. It has the same events then, and room for as many
    /// more as it had.
    fn reserve(&mut self, count: usize) -> Result<(), AllocError>
        ensures same { pending self.new ≡ pending self.old }
        ensures room { OnOk result (count ≤ room self.new) }
        ensures keeps { room self.old ≤ room self.new };

    /// Adds an event. Its key, which no other event has, is this time, its own place and this
    /// number.
    fn put(&mut self, time: Time, number: u64, event: Event)
        requires fresh { get (pending self.old) (key_of time (event_place event) number) ≡ None }
        requires room { 1 ≤ room self.old }
        ensures pending { pending self.new
            ≡ insert (pending self.old) (key_of time (event_place event) number) event }
        ensures room { room self.old ≤ room self.new + 1 };

    /// The least key.
    fn least(&self) -> Option<Key>
        ensures { result ≡ option_map (λ entry. entry.0) (least_entry (pending self.now)) };

    /// Whether an event comes before this time.
    fn is_due(&self, before: Time) -> bool
        ensures { result ≡ is_before before (least_entry (pending self.now)) };

    /// Takes the event of the least key out: the key's time, its number, and the event, which has
    /// its place. There is room for another then.
    fn take_least(&mut self) -> Option<(Time, u64, Event)>
        ensures least { option_map (λ e. keyed e.0 e.1 e.2) result
            ≡ least_entry (pending self.old) }
        ensures rest { IfSome result (λ e. pending self.new
            ≡ remove (pending self.old) (key_of e.0 (event_place e.2) e.1)) }
        ensures none { IfNone result (pending self.new ≡ pending self.old) }
        ensures room { IfSome result (λ e. room self.new ≡ room self.old + 1) };

    /// How many events there are.
    fn len(&self) -> usize
        ensures { result ≡ size (pending self.now) };

    /// Whether there is no event.
    fn is_empty(&self) -> bool
        ensures { result ≡ (size (pending self.now) == 0) };
}
