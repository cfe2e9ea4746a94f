//! How many cases were run, and how many of them differ.

use std::io;

/// A count of cases.
#[derive(Clone, Copy)]
pub struct Tally {
    pub ran: u64,
    pub differing: u64,
}

impl Tally {
    /// No case.
    pub fn new() -> Self {
        Tally {
            ran: 0,
            differing: 0,
        }
    }

    /// One case.
    pub fn of_case(differs: bool) -> Self {
        Tally {
            ran: 1,
            differing: u64::from(differs),
        }
    }

    /// Counts the cases of another tally too.
    pub fn add(&mut self, other: Tally) {
        self.ran = self.ran.saturating_add(other.ran);
        self.differing = self.differing.saturating_add(other.differing);
    }

    /// An error if a case differs.
    pub fn conclude(self) -> io::Result<()> {
        if self.differing > 0 {
            return Err(io::Error::other("a case differs"));
        }
        Ok(())
    }
}
