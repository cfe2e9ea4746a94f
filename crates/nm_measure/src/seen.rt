//! What is seen of one interface: its queue, and how it transmits.

ghost use Rattle.std.specs.Prelude.{◌≤◌};
ghost use Rattle.nm_base.specs.declared.limits.TheConstants.{MAX_PACKET_OCTETS};
ghost use Rattle.nm_measure.specs.Interfaces.{HasQueue, HasStarted};

use crate::queue::{Queue, Waits};
use crate::usage::Usage;
use nm_base::Time;

/// What is seen of one interface.
#[derive(Drop)]
pub struct Seen {
    pub queue: Queue,
    pub usage: Usage,
}

impl Seen {
    /// Notes what waits from now on.
    pub(crate) fn change(&mut self, waits: Waits, now: Time)
        ensures { HasQueue now waits self.old self.new }
    {
        self.queue.change(waits, now);
    }

    /// The transmission of a packet of so many octets starts now, `left` nanoseconds before `stop`.
    pub(crate) fn start(&mut self, octets: usize, now: Time, left: u64)
        requires { octets ≤ MAX_PACKET_OCTETS }
        ensures { HasStarted octets now left self.old self.new }
    {
        self.usage.start(octets, now, left);
    }
}
