//! The order of what an event list keeps.

ghost use Rattle.std.specs.Prelude.{◌≡◌, refl};
ghost use Rattle.std.specs.Cmp.{partial_order_from_total, partial_equiv_from_equiv};
ghost use Rattle.std.specs.Cmp.{eq_by_cmp_equiv};
ghost use Rattle.std.specs.Ordering.{as_partial_cmp, eq_by_cmp};
ghost use Rattle.nm_events.specs.Entries.{by_key, by_key_total, entry_key};

use crate::entry::Entry;
use nm_base::Key;
use std::cmp::Ordering;

impl Entry {
    /// The event's key.
    #[inline(always)]
    pub(crate) fn key(&self) -> Key
        ensures { result ≡ entry_key self.now }
    {
        Key {
            time: self.time,
            place: self.event.place(),
            number: self.number,
        }
    }

    /// Which of two keys of one time comes first.
    #[inline(always)]
    fn cmp_at_one_time(&self, other: &Entry) -> Ordering
        requires { self.now.time ≡ other.now.time }
        ensures { result ≡ by_key self.now other.now }
    {
        if self.rank == other.rank {
            self.number.cmp(&other.number)
        } else if self.rank < other.rank {
            Ordering::Less
        } else {
            Ordering::Greater
        }
    }
}

impl PartialEq for Entry {
    ghost eq = { eq_by_cmp by_key };

    ghost laws = { partial_equiv_from_equiv (eq_by_cmp_equiv by_key_total) };

    fn eq(&self, other: &Entry) -> bool {
        self.cmp(other).is_eq()
    }
}

impl Eq for Entry {
    ghost laws = { eq_by_cmp_equiv by_key_total };
}

impl PartialOrd for Entry {
    ghost partial_cmp = { as_partial_cmp by_key };

    ghost laws = { partial_order_from_total by_key_total };

    fn partial_cmp(&self, other: &Entry) -> Option<Ordering> {
        Some(self.cmp(other))
    }
}

impl Ord for Entry {
    ghost cmp = { by_key };

    ghost total = { by_key_total };

    ghost matches_partial_cmp = { λ x y. refl };

    ghost matches_eq = { λ x y. refl };

    #[inline(always)]
    #[tactic(auto, using(crate::proofs::Times::earlier, crate::proofs::Times::later))]
    fn cmp(&self, other: &Entry) -> Ordering {
        // Which of two events comes first no processor foresees, but mostly their times differ. So
        // the only jump here is that for equal times.
        if self.time == other.time {
            self.cmp_at_one_time(other)
        } else if self.time < other.time {
            Ordering::Less
        } else {
            Ordering::Greater
        }
    }
}
