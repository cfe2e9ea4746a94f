//! Time by a clock, in periods that follow one another.

ghost use Rattle.std.specs.Prelude.{◌≡◌, Option};
ghost use Rattle.std.specs.declared.time.Instant.{Instant as InstantValue};
ghost use Rattle.std.specs.Duration.{as_nanos};
ghost use Rattle.std.specs.Result.{result_ok};
ghost use Rattle.nm_transport.specs.Period.{ReadsClock, begun_after, is_over, left_by};
ghost use Rattle.nm_transport.specs.Period.{nanoseconds_left};

use crate::limits::PERIOD_MILLISECONDS;
use crate::reading::Reading;
use std::time::{Clock, Duration, Instant};

/// A period, and when it began, if the clock could be read then.
#[derive(Clone, Copy, Drop)]
pub(crate) struct Period {
    begun: Option<Instant>,
}

/// How much is left at `now` of a period that began at `begun`.
fn left_of(begun: Instant, now: Instant) -> Duration
    ensures { as_nanos result ≡ nanoseconds_left begun now }
{
    Duration::from_millis(PERIOD_MILLISECONDS).saturating_sub(now.duration_since(begun))
}

impl Period {
    /// A period that begins now.
    pub(crate) fn begin(clock: &impl Clock) -> Self {
        Period {
            begun: Reading::of(clock).instant(),
        }
    }

    /// How much of it is left: all of it if the clock can't be read.
    pub(crate) fn left(&self, clock: &impl Clock) -> Duration
        ensures { (now : Option InstantValue) × (as_nanos result ≡ left_by self.now.begun now) }
    {
        self.left_at(Reading::of(clock))
    }

    /// The same, by this reading of the clock.
    fn left_at(&self, now: Reading) -> Duration
        ensures { as_nanos result ≡ left_by self.now.begun (result_ok now.answer) }
    {
        match (self.begun, now.instant()) {
            (Some(begun), Some(now)) => left_of(begun, now),
            _ => Duration::from_millis(PERIOD_MILLISECONDS),
        }
    }

    /// Whether it is over, and the next one begins now. If the clock can't be read, it is over once
    /// a wait for the rest of it found nothing.
    pub(crate) fn ends(&mut self, clock: &impl Clock, was_waited_for: bool) -> bool
        ensures { ReadsClock self.old.begun was_waited_for self.new.begun result }
    {
        self.ends_at(Reading::of(clock), was_waited_for)
    }

    /// The same, by this reading of the clock.
    fn ends_at(&mut self, now: Reading, was_waited_for: bool) -> bool
        ensures ends { result ≡ is_over self.old.begun (result_ok now.answer) was_waited_for }
        ensures begun { self.new.begun ≡ begun_after self.old.begun (result_ok now.answer) result }
    {
        let now = now.instant();
        let is_over = match (self.begun, now) {
            (Some(begun), Some(now)) => left_of(begun, now).is_zero(),
            _ => was_waited_for,
        };
        if is_over || self.begun.is_none() {
            self.begun = now;
        }
        is_over
    }
}
