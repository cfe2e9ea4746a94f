//! How much of what a source sent arrived, and how late.

ghost use Rattle.std.specs.Prelude.{◌≡◌, ℕ, ◌+◌, ◌-◌, OnOk, List, [], ◌∷◌, ◌++◌};
ghost use Rattle.nm_base.specs.Count.{saturated};
ghost use Rattle.nm_measure.specs.Delays.{AreDelays};
ghost use Rattle.nm_measure.specs.Rates.{rate_between};
ghost use Rattle.nm_measure.specs.Starts.{IsRecent, begun_by, nothing_begun, start_of};

use crate::delays::Delays;
use nm_base::Time;
use std::alloc::{AllocError, Global};

/// How much of what a source sent arrived, and how late.
#[derive(Drop)]
pub struct FlowTimes {
    /// The octets of the IPv4 packets that were delivered, up to 2^64 - 1.
    octets: u64,
    /// The time of the source's first event, if it had one.
    begun: Option<Time>,
    /// When a packet was delivered last.
    ended: Time,
    /// From the source's event to the arrival, of the packets that were delivered.
    pub delays: Delays,
    /// From the source's event to the arrival of an echo reply at the source's node.
    pub round_trips: Delays,
}

/// How many nanoseconds a later time is after an earlier one.
fn nanoseconds_between(earlier: Time, later: Time) -> u64
    ensures { result ≡ later - earlier }
{
    later.nanoseconds().saturating_sub(earlier.nanoseconds())
}

/// The rate of so many octets, in bits per second, from one time to another, rounded down; 0 where
/// that is no time.
pub fn rate_of(octets: u64, from: Option<Time>, until: Time) -> u64
    ensures { result ≡ rate_between octets from until }
{
    let Some(from) = from else {
        return 0;
    };
    let time = nanoseconds_between(from, until);
    if time == 0 {
        return 0;
    }
    let bits = u128::from(octets) * 8 * 1_000_000_000;
    u64::try_from(bits / u128::from(time)).unwrap_or(u64::MAX)
}

impl FlowTimes {
    /// Nothing was sent.
    pub(crate) fn new(alloc: Global) -> Self
        ensures octets { result.octets ≡ 0 }
        ensures ended { result.ended ≡ 0 }
        ensures start { start_of result ≡ nothing_begun }
        ensures delays { AreDelays [] result.delays }
        ensures trips { AreDelays [] result.round_trips }
    {
        FlowTimes {
            octets: 0,
            begun: None,
            ended: Time::from_nanoseconds(0),
            delays: Delays::new(alloc),
            round_trips: Delays::new(alloc),
        }
    }

    /// The octets of the IPv4 packets that were delivered, up to 2^64 - 1.
    pub fn octets(&self) -> u64
        ensures { result ≡ self.now.octets }
    {
        self.octets
    }

    /// The time of the source's first event, if it had one.
    pub fn begun(&self) -> Option<Time>
        ensures { result ≡ self.now.begun }
    {
        self.begun
    }

    /// When a packet was delivered last; 0 where none was.
    pub fn ended(&self) -> Time
        ensures { result ≡ self.now.ended }
    {
        self.ended
    }

    /// The rate of delivery, in bits per second, from the source's first event to the last arrival,
    /// rounded down; 0 if no time is between.
    pub fn rate(&self) -> u64
        ensures { result ≡ rate_between self.now.octets self.now.begun self.now.ended }
    {
        rate_of(self.octets, self.begun, self.ended)
    }

    /// The source had an event.
    pub(crate) fn begin(&mut self, now: Time)
        ensures start { start_of self.new ≡ begun_by now (start_of self.old) }
        ensures octets { self.new.octets ≡ self.old.octets }
        ensures ended { self.new.ended ≡ self.old.ended }
        ensures delays { self.new.delays ≡ self.old.delays }
        ensures trips { self.new.round_trips ≡ self.old.round_trips }
    {
        if self.begun.is_none() {
            self.begun = Some(now);
        }
    }

    /// A packet of so many octets, made by its source at `sent`, is delivered.
    ///
    /// # Errors
    ///
    /// If memory was refused.
    pub(crate) fn deliver(&mut self, octets: u64, sent: Time, now: Time) -> Result<(), AllocError>
        ensures start { OnOk result (start_of self.new ≡ start_of self.old) }
        ensures octets { self.new.octets ≡ saturated (self.old.octets + octets) }
        ensures ended { self.new.ended ≡ now }
        ensures count { OnOk result (self.new.delays.spread.count
            ≡ saturated (self.old.delays.spread.count + 1)) }
        ensures added { OnOk result ((ds : List ℕ) → AreDelays ds self.old.delays
            → AreDelays (ds ++ (now - sent) ∷ []) self.new.delays) }
        ensures trips { self.new.round_trips ≡ self.old.round_trips }
    {
        self.octets = self.octets.saturating_add(octets);
        self.ended = now;
        self.delays.add(nanoseconds_between(sent, now))
    }

    /// The greatest delay of those that arrive from now on is looked for.
    pub(crate) fn begin_recent(&mut self)
        ensures { IsRecent self.old self.new }
    {
        self.delays.begin_recent();
    }

    /// The reply to a packet that was made at `sent` arrived at the source's node.
    ///
    /// # Errors
    ///
    /// If memory was refused.
    pub(crate) fn answer(&mut self, sent: Time, now: Time) -> Result<(), AllocError>
        ensures start { start_of self.new ≡ start_of self.old }
        ensures octets { self.new.octets ≡ self.old.octets }
        ensures ended { self.new.ended ≡ self.old.ended }
        ensures count { OnOk result (self.new.round_trips.spread.count
            ≡ saturated (self.old.round_trips.spread.count + 1)) }
        ensures added { OnOk result ((ds : List ℕ) → AreDelays ds self.old.round_trips
            → AreDelays (ds ++ (now - sent) ∷ []) self.new.round_trips) }
        ensures delays { self.new.delays ≡ self.old.delays }
    {
        self.round_trips.add(nanoseconds_between(sent, now))
    }
}
