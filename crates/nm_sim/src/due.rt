//! When an event is due.

use nm_base::Time;

/// When an event is due, and its number at its place.
#[derive(Clone, Copy)]
pub struct Due {
    pub time: Time,
    pub number: u64,
}
