//! Counts of one type for all books of a list: nothing ties their amounts to totals.

ghost use Rattle.std.specs.Prelude.{◌≡◌, ◌^◌, false};
ghost use Rattle.nm_shared.specs.Counted.{nowhere};

use crate::counts::{Counts, PARTS};

/// The totals of a book.
#[derive(Drop)]
pub struct Plain {
    messages: u64,
    events: u64,
}

/// The amounts of a pass, which stop at the greatest `u64`.
#[derive(Drop)]
pub struct PlainShare {
    parts: u64,
    messages: u64,
    events: u64,
}

impl Plain {
    /// Fresh totals, and the whole share.
    pub fn open() -> (Plain, PlainShare)
        ensures totals { (result.0.messages ≡ 0) × (result.0.events ≡ 0) }
        ensures share { (result.1.parts ≡ 2 ^ 32) × (result.1.messages ≡ 0)
            × (result.1.events ≡ 0) }
    {
        let totals = Plain {
            messages: 0,
            events: 0,
        };
        let share = PlainShare {
            parts: PARTS,
            messages: 0,
            events: 0,
        };
        (totals, share)
    }
}

impl Counts for Plain {
    type Share = PlainShare;

    ghost home = { nowhere };

    ghost exact = { false };

    ghost cut = { λ _. Unit {0} };

    ghost messages = { λ c. c.messages };

    ghost events = { λ c. c.events };

    ghost parts = { λ s. s.parts };

    ghost messages_of = { λ s. s.messages };

    ghost events_of = { λ s. s.events };

    fn add(&mut self, share: &mut PlainShare, new_messages: u64, new_events: u64) {
        self.messages += new_messages;
        self.events += new_events;
        share.messages = share.messages.saturating_add(new_messages);
        share.events = share.events.saturating_add(new_events);
    }

    fn audit(&mut self, share: &mut PlainShare) {
        let _ = share.parts;
    }

    fn split(share: &mut PlainShare) -> PlainShare {
        share.parts -= 1;
        PlainShare {
            parts: 1,
            messages: 0,
            events: 0,
        }
    }

    fn merge(share: &mut PlainShare, other: PlainShare) {
        share.parts = share.parts.saturating_add(other.parts);
        share.messages = share.messages.saturating_add(other.messages);
        share.events = share.events.saturating_add(other.events);
    }
}
