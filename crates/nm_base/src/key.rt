//! Keys of events: when, where and which.

ghost use Rattle.std.specs.Prelude.{◌≡◌, ◌<◌, ◌^◌, refl};
ghost use Rattle.std.specs.Cmp.{partial_order_from_total, partial_equiv_from_equiv};
ghost use Rattle.std.specs.Cmp.{eq_by_cmp_equiv};
ghost use Rattle.std.specs.Ordering.{as_partial_cmp, eq_by_cmp};
ghost use Rattle.nm_base.specs.Key.{index_of, key_cmp, key_cmp_total, place_number, IsPlaceOf};

use crate::{IfaceNo, SourceNo, Time};
use std::cmp::Ordering;

/// The place of an event. At one moment arrivals and completions come by the number of their
/// interface, an interface's arrival before its completion, and sources come after all interfaces.
#[derive(Clone, Copy, Debug)]
pub enum Place {
    /// A packet arrives at an interface.
    Arrive(IfaceNo),
    /// An interface completes a transmission.
    Complete(IfaceNo),
    /// A source makes its next packet.
    Fire(SourceNo),
}

impl Place {
    /// Its number in the order of places. Sources come after every interface that a number of 32
    /// bits can name.
    #[inline(always)]
    pub fn rank(self) -> u64
        ensures rank { result ≡ place_number (2 ^ 32) self }
        ensures place { IsPlaceOf (2 ^ 32) self }
        ensures index { index_of self < 2 ^ 32 }
    {
        match self {
            Place::Arrive(iface) => 2 * u64::from(iface.number()),
            Place::Complete(iface) => 2 * u64::from(iface.number()) + 1,
            Place::Fire(source) => (1 << 33) + u64::from(source.number()),
        }
    }
}

/// The key of an event. Events are done in the order of their keys: by time, then place, then
/// number.
#[derive(Clone, Copy, Debug)]
pub struct Key {
    pub time: Time,
    pub place: Place,
    /// Counts the events of the place from 0.
    pub number: u64,
}

impl PartialEq for Key {
    ghost eq = { eq_by_cmp key_cmp };

    ghost laws = { partial_equiv_from_equiv (eq_by_cmp_equiv key_cmp_total) };

    fn eq(&self, other: &Key) -> bool {
        self.cmp(other).is_eq()
    }
}

impl Eq for Key {
    ghost laws = { eq_by_cmp_equiv key_cmp_total };
}

impl PartialOrd for Key {
    ghost partial_cmp = { as_partial_cmp key_cmp };

    ghost laws = { partial_order_from_total key_cmp_total };

    fn partial_cmp(&self, other: &Key) -> Option<Ordering> {
        Some(self.cmp(other))
    }
}

impl Ord for Key {
    ghost cmp = { key_cmp };

    ghost total = { key_cmp_total };

    ghost matches_partial_cmp = { λ x y. refl };

    ghost matches_eq = { λ x y. refl };

    #[tactic(auto, unfolding(crate::specs::Key::key_cmp))]
    fn cmp(&self, other: &Key) -> Ordering {
        // An event list compares keys all the time, and mostly their times differ.
        let by_time = self.time.cmp(&other.time);
        if by_time.is_ne() {
            return by_time;
        }
        let by_place = self.place.rank().cmp(&other.place.rank());
        if by_place.is_ne() {
            return by_place;
        }
        self.number.cmp(&other.number)
    }
}
