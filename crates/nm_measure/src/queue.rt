//! The queue of an interface, over time.

ghost use Rattle.std.specs.Prelude.{◌≡◌};
ghost use Rattle.nm_measure.specs.Waiting.{queue_begun, queue_empty, queue_later};

use crate::level::Level;
use nm_base::Time;

/// What waits at an interface, behind the packet that it transmits.
#[derive(Clone, Copy, Drop)]
pub struct Waits {
    pub packets: u64,
    /// How many octets the packets that wait have.
    pub octets: u64,
}

/// The queue of an interface, over time.
#[derive(Drop)]
pub struct Queue {
    pub packets: Level,
    pub octets: Level,
}

impl Queue {
    /// Nothing waited yet.
    pub(crate) fn new() -> Self
        ensures { result ≡ queue_empty }
    {
        Queue {
            packets: Level::new(),
            octets: Level::new(),
        }
    }

    /// Starts the count of the most that wait at one time again.
    pub(crate) fn begin_recent(&mut self)
        ensures { self.new ≡ queue_begun self.old }
    {
        self.packets.begin_recent();
        self.octets.begin_recent();
    }

    /// Notes what waits from now on.
    pub(crate) fn change(&mut self, waits: Waits, now: Time)
        ensures { self.new ≡ queue_later self.old waits now }
    {
        self.packets.change(waits.packets, now);
        self.octets.change(waits.octets, now);
    }
}
