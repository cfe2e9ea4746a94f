//! What a world does to calls and connections, by its seed or its script.

use crate::chance::Chance;
use crate::flow::Reach;
use crate::scripts::Script;

/// The longest that the weather is bad, in milliseconds, and in every other world.
const MAX_BAD: u64 = 30_000;

const SHORT_BAD: u64 = 2_000;

/// The longest outage, and the longest that the system waits after it before it sends again.
const MAX_OUTAGE: u64 = 20_000;

const MAX_BACKOFF: u64 = 60_000;

/// The longest delays in bad weather and in calm, in milliseconds, and the octets of a connection
/// that breaks.
const MAX_DELAY: u64 = 400;

const CALM_DELAY: u64 = 50;

const MAX_LIFE: u64 = 2_000;

/// The longest that a machine stops, and that it has too little for one more connection, in
/// milliseconds. A second of that would end its replica.
const MAX_PAUSE: u64 = 10_000;

const MAX_SHORTAGE: u64 = 800;

/// The longest that a machine is away, in milliseconds.
const MAX_AWAY: u64 = 5_000;

/// A time in which something is so of one machine: from the first of these to the second.
#[derive(Clone, Copy)]
pub(crate) struct Spell {
    pub machine: usize,
    pub times: [u64; 2],
}

impl Spell {
    /// Whether it is so of a machine at this time.
    pub(crate) fn is_of(&self, machine: usize, now: u64) -> bool {
        self.machine == machine && self.times[0] <= now && now < self.times[1]
    }
}

/// What becomes of a call.
#[derive(Clone, Copy)]
pub(crate) enum Fate {
    /// It fails at once.
    Refused,
    /// It fails once it is looked at: nobody is there.
    Gone,
    /// Nobody answers, ever, so that nothing can be written.
    Hangs,
    /// Somebody takes what is written, and reads it never.
    Unread,
    /// Somebody accepts it and cuts it.
    Cut,
    /// It is made, each octet is on its way so long, and it reaches so far each way.
    Made {
        delay: u64,
        there: Reach,
        back: Reach,
    },
}

/// A call that is made.
#[derive(Clone, Copy)]
pub(crate) struct Called {
    /// From which machine, and to which.
    pub machines: [usize; 2],
    /// How many calls between these came before it.
    pub number: usize,
    pub now: u64,
    /// The machine that is called is there.
    pub is_there: bool,
}

/// The weather of a world.
#[derive(Drop)]
pub(crate) struct Weather {
    pub chance: Chance,
    /// From this time on each call is made, and no connection breaks.
    pub calm_at: u64,
    /// From the first of these times to the second no octet arrives.
    outage: [u64; 2],
    /// A machine stops, and one has too little for one more connection.
    pub pause: Spell,
    pub shortage: Spell,
    pub loss: Option<Loss>,
    schedule: Schedule,
}

/// A machine that vanishes, and is begun again.
#[derive(Clone, Copy)]
pub(crate) struct Loss {
    pub machine: usize,
    pub at: u64,
    pub back_at: u64,
    /// Nobody learns it.
    pub is_silent: bool,
    /// It is lost even if it is done: others that wait for it have not ended then.
    pub may_be_done: bool,
}

/// What is drawn, or listed by name.
#[derive(Clone, Copy)]
pub(crate) enum Schedule {
    /// All is drawn from this seed.
    Drawn(u64),
    /// All is listed.
    Told(Script),
}

/// At no time.
pub(crate) const NEVER: Spell = Spell {
    machine: 0,
    times: [0, 0],
};

/// A loss that the seed draws, if it does: while the weather is bad.
fn drawn_loss(chance: &mut Chance, calm_at: u64, machines: usize) -> Option<Loss> {
    if machines == 0 || calm_at == 0 || !chance.once_in(2) {
        return None;
    }
    let machine = chance.below(machines as u64) as usize;
    let at = chance.below(calm_at);
    let back_at = at.saturating_add(chance.below(MAX_AWAY)).min(calm_at);
    Some(Loss {
        machine,
        at,
        back_at,
        is_silent: chance.once_in(2),
        may_be_done: false,
    })
}

/// A time that the seed draws of one of so many machines, if it does, before this one.
fn drawn_spell(chance: &mut Chance, machines: usize, longest: u64, calm_at: u64) -> Spell {
    let machine = chance.below(machines.max(1) as u64) as usize;
    let begin = chance.below(MAX_BAD);
    let end = begin
        .saturating_add(chance.below(longest.max(1)))
        .min(calm_at);
    if chance.once_in(3) {
        Spell {
            machine,
            times: [begin, end],
        }
    } else {
        NEVER
    }
}

impl Weather {
    /// That of a schedule, for so many machines.
    pub(crate) fn new(schedule: Schedule, machines: usize) -> Self {
        match schedule {
            Schedule::Drawn(seed) => Weather::drawn(seed, machines),
            Schedule::Told(script) => Weather {
                chance: Chance::new(1),
                calm_at: 0,
                outage: script.outage,
                pause: NEVER,
                shortage: script.shortage,
                loss: script.loss,
                schedule,
            },
        }
    }

    /// That of a seed, for so many machines.
    fn drawn(seed: u64, machines: usize) -> Self {
        let mut chance = Chance::new(seed);
        let calm_at = if chance.once_in(2) {
            chance.below(MAX_BAD)
        } else {
            chance.below(SHORT_BAD)
        };
        let begin = chance.below(MAX_BAD);
        let outage = if chance.once_in(3) {
            [
                begin,
                begin.saturating_add(chance.below(MAX_OUTAGE)).min(calm_at),
            ]
        } else {
            [0, 0]
        };
        let pause = drawn_spell(&mut chance, machines, MAX_PAUSE, calm_at);
        let shortage = drawn_spell(&mut chance, machines, MAX_SHORTAGE, calm_at);
        let loss = drawn_loss(&mut chance, calm_at, machines);
        Weather {
            chance,
            calm_at,
            outage,
            pause,
            shortage,
            loss,
            schedule: Schedule::Drawn(seed),
        }
    }

    /// Whether no octet arrives now.
    pub(crate) fn is_out(&self, now: u64) -> bool {
        self.outage[0] <= now && now < self.outage[1]
    }

    /// When what is written during the outage arrives: the system sends it again later and later.
    pub(crate) fn after_outage(&mut self) -> u64 {
        self.outage[1].saturating_add(self.chance.below(MAX_BACKOFF))
    }

    /// How far a direction reaches: it may break after some octets, or at its Bye.
    fn reach(&mut self) -> Reach {
        let octets = if self.chance.once_in(2) {
            self.chance.below(MAX_LIFE) as usize
        } else {
            usize::MAX
        };
        Reach {
            octets,
            loses_bye: self.chance.once_in(4),
        }
    }

    /// What becomes of a call.
    pub(crate) fn fate(&mut self, called: Called) -> Fate {
        if !called.is_there {
            return match self.chance.below(4) {
                0 => Fate::Hangs,
                1 => Fate::Refused,
                _ => Fate::Gone,
            };
        }
        match self.schedule {
            Schedule::Drawn(_) => self.drawn_fate(called.now),
            Schedule::Told(_) if self.is_out(called.now) => Fate::Hangs,
            Schedule::Told(script) => script.fate(called),
        }
    }

    /// The fate of a call by the seed.
    fn drawn_fate(&mut self, now: u64) -> Fate {
        if now >= self.calm_at {
            let delay = self.chance.below(CALM_DELAY);
            return Fate::Made {
                delay,
                there: Reach::WHOLE,
                back: Reach::WHOLE,
            };
        }
        if self.is_out(now) {
            return Fate::Hangs;
        }
        match self.chance.below(9) {
            0 => Fate::Refused,
            1 => Fate::Hangs,
            2 => Fate::Unread,
            3 => Fate::Cut,
            _ => Fate::Made {
                delay: self.chance.below(MAX_DELAY),
                there: self.reach(),
                back: self.reach(),
            },
        }
    }
}
