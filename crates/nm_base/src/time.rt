//! Simulated time.

ghost use Rattle.std.specs.Prelude.{◌≡◌, ℕ};

use std::marker::Model;

/// A moment of simulated time, in whole nanoseconds from the start of the run. A clause sees the
/// nanoseconds.
#[derive(Clone, Copy, Debug, PartialEq, Eq, PartialOrd, Ord)]
pub struct Time {
    nanoseconds: u64,
}

impl Model for Time {
    ghost Value = { ℕ };

    ghost view = { λ t. t.nanoseconds };

    ghost inverse = { λ n. record { nanoseconds = n } };
}

impl Time {
    /// The moment this many nanoseconds after the start.
    pub fn from_nanoseconds(nanoseconds: u64) -> Self
        ensures { result ≡ nanoseconds }
    {
        Time { nanoseconds }
    }

    /// The nanoseconds since the start.
    pub fn nanoseconds(self) -> u64
        ensures { result ≡ self }
    {
        self.nanoseconds
    }
}
