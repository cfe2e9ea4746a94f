//! The events of a world that has a name.

use crate::flow::Reach;
use crate::weather::{Called, Fate, Loss, Spell};
use nm_replica::Served;

/// Any machine.
pub(crate) const ANY: usize = usize::MAX;

/// The fate of calls from the first of these machines to the second, of those with numbers from the
/// first of these on and below the second, which are made before this time.
#[derive(Clone, Copy)]
pub(crate) struct Rule {
    pub machines: [usize; 2],
    pub numbers: [usize; 2],
    pub until: u64,
    pub fate: Fate,
}

/// The events of a world, and what has to follow.
#[derive(Clone, Copy)]
pub(crate) struct Script {
    pub name: &'static str,
    pub network: &'static str,
    /// How many replicas each partition has.
    pub replicas: u8,
    /// How long an octet is on its way, in milliseconds.
    pub delay: u64,
    /// The first that fits decides about a call. If none does it is made.
    pub rules: &'static [Rule],
    /// No octet arrives from the first of these times to the second.
    pub outage: [u64; 2],
    pub shortage: Spell,
    pub loss: Option<Loss>,
    /// All replicas end as done, none before the first of these times and each before the second.
    pub ends: [u64; 2],
    /// They end as stalled, and not as done.
    pub stalls: bool,
    /// So many calls are made at most.
    pub calls: usize,
}

impl Rule {
    /// Whether it is for this call.
    fn fits(&self, called: Called) -> bool {
        let [from, to] = self.machines;
        let [first, end] = self.numbers;
        (from == ANY || from == called.machines[0])
            && (to == ANY || to == called.machines[1])
            && first <= called.number
            && called.number < end
            && called.now < self.until
    }
}

impl Script {
    /// What becomes of a call.
    pub(crate) fn fate(&self, called: Called) -> Fate {
        for rule in self.rules {
            if rule.fits(called) {
                return rule.fate;
            }
        }
        Fate::Made {
            delay: self.delay,
            there: Reach::WHOLE,
            back: Reach::WHOLE,
        }
    }

    /// Whether a replica ended as it has to.
    pub(crate) fn expects(&self, served: Option<Served>) -> bool {
        match served {
            Some(Served::Ended) => !self.stalls,
            Some(Served::Stalled { .. }) => self.stalls,
            _ => false,
        }
    }
}
