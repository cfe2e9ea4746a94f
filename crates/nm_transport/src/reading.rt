//! Readings of a clock.

ghost use Rattle.std.specs.Prelude.{◌≡◌};
ghost use Rattle.std.specs.Result.{result_ok};

use std::io;
use std::time::{Clock, Instant};

/// A reading of a clock, or why it could not be read. Only `Reading::of` makes one.
#[derive(Drop)]
pub(crate) struct Reading {
    answer: io::Result<Instant>,
}

impl Reading {
    /// Reads the clock.
    pub(crate) fn of(clock: &impl Clock) -> Self {
        Reading {
            answer: Instant::now(clock),
        }
    }

    /// The time that was read, if the clock could be read.
    pub(crate) fn instant(&self) -> Option<Instant>
        ensures { result ≡ result_ok self.now.answer }
    {
        match &self.answer {
            Ok(instant) => Some(*instant),
            Err(_) => None,
        }
    }
}
