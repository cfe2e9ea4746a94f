//! A count that contracts see and no memory holds.

ghost use Rattle.std.specs.Prelude.{◌≡◌, ◌+◌};

use crate::octets::Octets;
use std::marker::Model;

/// How often something has failed: a whole number without bound, for contracts alone. It takes no
/// memory.
#[derive(Drop)]
pub struct FailureCount {
    /// An octet for each failure.
    marks: Octets,
}

impl Model for FailureCount {
    ghost use Rattle.std.specs.Prelude.{ℕ, length};

    ghost Value = { ℕ };

    ghost view = { λ f. length f.marks.list };
}

impl FailureCount {
    /// No failure so far.
    pub fn new() -> Self
        ensures { result ≡ 0 }
    {
        FailureCount {
            marks: Octets::new(),
        }
    }

    /// One more failure.
    pub fn rise(&mut self)
        ensures { self.new ≡ self.old + 1 }
    {
        self.marks.add(&[0]);
    }
}
