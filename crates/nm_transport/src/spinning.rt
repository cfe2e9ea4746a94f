//! Waits that spin before they sleep. A thread that sleeps and is woken costs more time than a
//! null message takes over loopback, so a wait first looks a few times for what is ready. Where
//! that is in vain, as on a host with more threads than processors, it is tried ever more seldom.

ghost use Rattle.std.specs.Prelude.{◌≡◌, ◌+◌, ℕ, IsSome, false, is_some, slice_get, true};
ghost use Rattle.mio.specs.Events.{items};
ghost use Rattle.nm_transport.specs.Spinning.{after_sleep, after_spin, first_spinning};

use crate::limits::{MAX_LOOKS, MAX_PAUSE_WAITS};
use mio::{Events, Poll};
use std::marker::Model;
use std::time::Duration;

/// Which waits spin.
#[derive(Drop)]
pub(crate) struct Spinning {
    /// How many waits sleep at once before the next one that spins.
    left: u32,
    /// How many will after the next one that spins in vain.
    pause: u32,
}

impl Model for Spinning {
    ghost use Rattle.nm_transport.specs.Spinning.{SpinningSeen};

    ghost Value = { SpinningSeen };

    ghost view = { λ s. record { left = s.left; pause = s.pause } };
}

/// Looks for what is ready, `MAX_LOOKS` times at most. Answers whether it found something.
fn has_found(poll: &mut Poll, events: &mut Events) -> bool
    ensures { result ≡ is_some (slice_get (items events.new) 0) }
{
    for _ in 1..MAX_LOOKS {
        let _ = poll.poll(events, Some(Duration::ZERO));
        if !events.is_empty() {
            return true;
        }
    }
    let _ = poll.poll(events, Some(Duration::ZERO));
    !events.is_empty()
}

impl Spinning {
    /// The first wait spins.
    pub(crate) fn new() -> Self
        ensures { result ≡ first_spinning }
    {
        Spinning { left: 0, pause: 1 }
    }

    /// A wait that slept at once.
    fn note_sleep(&mut self)
        ensures { self.new ≡ after_sleep self.old }
    {
        self.left = self.left.saturating_sub(1);
    }

    /// A wait that spun, and whether it found something.
    fn note_spin(&mut self, has_found: bool)
        ensures { self.new ≡ after_spin has_found self.old }
    {
        *self = if has_found {
            Spinning::new()
        } else {
            Spinning {
                left: self.pause,
                pause: self.pause.saturating_mul(2).min(MAX_PAUSE_WAITS),
            }
        };
    }

    /// A wait looks for what is ready, if it is one that spins. Answers whether it found something.
    pub(crate) fn spin(&mut self, poll: &mut Poll, events: &mut Events) -> bool
        ensures slept { (n : ℕ) → self.old.left ≡ n + 1
            → (result ≡ false) × (self.new ≡ after_sleep self.old) }
        ensures spun { self.old.left ≡ 0 → self.new ≡ after_spin result self.old }
        ensures found { result ≡ true → IsSome (slice_get (items events.new) 0) }
    {
        if self.left > 0 {
            self.note_sleep();
            return false;
        }
        let has_found = has_found(poll, events);
        self.note_spin(has_found);
        has_found
    }
}
