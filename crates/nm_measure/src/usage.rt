//! How interfaces transmit.

ghost use Rattle.std.specs.Prelude.{◌≡◌, ◌≤◌, ◌+◌, min, IfSome, None};
ghost use Rattle.nm_base.specs.Count.{saturated};
ghost use Rattle.nm_base.specs.declared.limits.TheConstants.{MAX_PACKET_OCTETS, MAX_RATE};
ghost use Rattle.nm_iface.specs.Transmission.{transmission_time as time_of};
ghost use Rattle.nm_measure.specs.Usage.{part_from, share_at, span_after};

use crate::share::thousandths;
use nm_base::Time;
use nm_iface::transmission_time;

/// How long a packet of so many octets takes, in nanoseconds.
#[derive(Clone, Copy, Drop)]
struct Taken {
    octets: usize,
    time: u64,
}

/// How an interface transmits.
#[derive(Drop)]
pub struct Usage {
    /// For how many nanoseconds before `stop` it transmitted.
    busy: u64,
    /// For how many of these it transmitted the last packet.
    last_busy: u64,
    /// When the first packet started and when the last.
    starts: Option<(Time, Time)>,
    /// How long packets of the last two sizes take. Most have one of them, which saves a division.
    last: Taken,
    other: Taken,
    /// Bits per second.
    rate: u64,
    ghost least: { 1 ≤ rate },
    ghost greatest: { rate ≤ MAX_RATE },
    ghost takes: { last.time ≡ time_of rate last.octets },
    ghost took: { other.time ≡ time_of rate other.octets },
}

impl Usage {
    /// Nothing was transmitted yet, at this rate in bits per second.
    pub(crate) fn new(rate: u64) -> Self
        requires least { 1 ≤ rate }
        requires greatest { rate ≤ MAX_RATE }
        ensures rate { result.rate ≡ rate }
        ensures busy { result.busy ≡ 0 }
        ensures starts { result.starts ≡ None }
    {
        let none = Taken {
            octets: 0,
            time: transmission_time(rate, 0),
        };
        Usage {
            busy: 0,
            last_busy: 0,
            starts: None,
            last: none,
            other: none,
            rate,
        }
    }

    /// For how many nanoseconds before `stop` it transmitted.
    pub(crate) fn busy(&self) -> u64
        ensures { result ≡ self.now.busy }
    {
        self.busy
    }

    /// For how many nanoseconds before this time it transmitted. No transmission started later.
    pub(crate) fn busy_before(&self, time: Time) -> u64
        ensures { result ≡ part_from self.now.starts self.now.busy self.now.last_busy time }
    {
        let Some((_, last)) = self.starts else {
            return self.busy;
        };
        let end = last.nanoseconds().saturating_add(self.last_busy);
        self.busy
            .saturating_sub(end.saturating_sub(time.nanoseconds()))
    }

    /// The share of the time from the start of its first packet to that of its last in which it
    /// transmitted, in thousandths, rounded down. `None` if there are fewer than two packets.
    pub(crate) fn share(&self) -> Option<u64>
        ensures value { result ≡ share_at self.now.starts self.now.busy self.now.last_busy }
        ensures most { IfSome result (λ share. share ≤ 1000) }
    {
        let (first, last) = self.starts?;
        let time = last.nanoseconds().saturating_sub(first.nanoseconds());
        if time == 0 {
            return None;
        }
        Some(thousandths(self.busy.saturating_sub(self.last_busy), time))
    }

    /// How long a packet of so many octets takes, in nanoseconds.
    fn time_of(&mut self, octets: usize) -> u64
        requires { octets ≤ MAX_PACKET_OCTETS }
        ensures time { result ≡ time_of self.old.rate octets }
        ensures rate { self.new.rate ≡ self.old.rate }
        ensures busy { self.new.busy ≡ self.old.busy }
        ensures starts { self.new.starts ≡ self.old.starts }
    {
        if octets != self.last.octets {
            let last = self.last;
            self.last = self.other;
            self.other = last;
        }
        if octets != self.last.octets {
            let time = transmission_time(self.rate, octets);
            self.last = Taken { octets, time };
        }
        self.last.time
    }

    /// The transmission of a packet of so many octets starts, `left` nanoseconds before `stop`.
    pub(crate) fn start(&mut self, octets: usize, now: Time, left: u64)
        requires { octets ≤ MAX_PACKET_OCTETS }
        ensures rate { self.new.rate ≡ self.old.rate }
        ensures busy { self.new.busy
            ≡ saturated (self.old.busy + min (time_of self.old.rate octets) left) }
        ensures last { self.new.last_busy ≡ min (time_of self.old.rate octets) left }
        ensures starts { self.new.starts ≡ span_after self.old.starts now }
    {
        let busy = self.time_of(octets).min(left);
        if let Some((_, last)) = &mut self.starts {
            *last = now;
        } else {
            self.starts = Some((now, now));
        }
        self.last_busy = busy;
        self.busy = self.busy.saturating_add(busy);
    }
}
