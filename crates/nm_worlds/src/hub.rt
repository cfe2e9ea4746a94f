//! What joins the machines of a world: calls on their way, and the connections that were made.

ghost use Rattle.std.specs.Prelude.{◌≡◌, IfOk, IfSome, Some};
ghost use Rattle.nm_worlds.specs.Wires.{IsNew};

use crate::flow::{Clock, Reach, Way, has_arrived, way};
use crate::weather::{Called, Fate, Weather};
use crate::wire::WorldWire;
use std::alloc::{AllocError, Global};
use std::cell::RefCell;
use std::collections::VecDeque;
use std::rc::Rc;

/// A call that arrives at this time.
#[derive(Drop)]
struct Call {
    at: u64,
    wire: WorldWire,
    ghost is_new: { IsNew wire },
}

/// No machine: one that vanished had this end.
const NOBODY: usize = usize::MAX;

/// A connection between two machines: the way from the first to the second, and the way back.
#[derive(Drop)]
struct Pair {
    machines: [usize; 2],
    ways: [Way; 2],
}

/// A machine reads no more from this way, or a connection broke.
fn cut(way: &Way) {
    if let Ok(mut flow) = way.try_borrow_mut() {
        flow.is_cut = true;
    }
}

/// A machine writes no more on this way.
fn end(way: &Way) {
    if let Ok(mut flow) = way.try_borrow_mut() {
        flow.is_over = true;
    }
}

/// The network of a world.
#[derive(Drop)]
pub(crate) struct Hub {
    alloc: Global,
    clock: Clock,
    pub weather: Weather,
    /// The calls to each machine.
    calls: Vec<VecDeque<Call>>,
    /// Whether each machine is there.
    are_there: Vec<bool>,
    pairs: Vec<Pair>,
    /// The calls that were made: who called whom.
    pub made: Vec<[usize; 2]>,
}

/// A network that all machines have.
pub(crate) type Shared = Rc<RefCell<Hub>>;

impl Hub {
    /// So many machines, which are there and are not connected.
    pub(crate) fn new(
        alloc: Global,
        clock: Clock,
        weather: Weather,
        machines: usize,
    ) -> Result<Self, AllocError> {
        let (mut calls, mut are_there) = (Vec::new(alloc), Vec::new(alloc));
        for _ in 0..machines {
            calls.push(VecDeque::new(alloc))?;
            are_there.push(true)?;
        }
        Ok(Hub {
            alloc,
            clock,
            weather,
            calls,
            are_there,
            pairs: Vec::new(alloc),
            made: Vec::new(alloc),
        })
    }

    /// Both ends of a connection from one machine to another, that takes so long, and how far each
    /// direction of it reaches.
    fn join(
        &mut self,
        from: usize,
        to: usize,
        peer: usize,
        delay: u64,
        reaches: [Reach; 2],
    ) -> Result<(WorldWire, WorldWire), AllocError>
        ensures caller { IfOk result (λ ends. IsNew ends.0 × (ends.0.peer ≡ Some peer)) }
        ensures callee { IfOk result (λ ends. IsNew ends.1) }
    {
        let there = way(self.alloc, delay, reaches[0])?;
        let back = way(self.alloc, delay, reaches[1])?;
        let caller = WorldWire::new(
            self.clock.clone()?,
            back.clone()?,
            there.clone()?,
            Some(peer),
        );
        let callee = WorldWire::new(self.clock.clone()?, there.clone()?, back.clone()?, None);
        self.pairs.push(Pair {
            machines: [from, to],
            ways: [there, back],
        })?;
        Ok((caller, callee))
    }

    /// A machine calls another, which is its peer of this number.
    pub(crate) fn call(&mut self, from: usize, to: usize, peer: usize) -> Option<WorldWire>
        ensures { IfSome result (λ w. IsNew w × (w.peer ≡ Some peer)) }
    {
        let now = self.clock.get();
        if self.is_short(from) {
            return None;
        }
        let called = Called {
            machines: [from, to],
            number: self.calls_made(from, to),
            now,
            is_there: *self.are_there.get(to)?,
        };
        self.made.push([from, to]).ok()?;
        let (delay, reaches) = match self.weather.fate(called) {
            Fate::Refused => return None,
            Fate::Made { delay, there, back } => (delay, [there, back]),
            fate => return self.fail(from, to, peer, fate),
        };
        let (caller, callee) = self.join(from, to, peer, delay, reaches).ok()?;
        let call = Call {
            at: now.saturating_add(delay),
            wire: callee,
        };
        self.calls.get_mut(to)?.push_back(call).ok()?;
        Some(caller)
    }

    /// How many calls a machine has made to another.
    fn calls_made(&self, from: usize, to: usize) -> usize {
        let mut count = 0usize;
        for machines in self.made.iter() {
            if machines[0] == from && machines[1] == to {
                count = count.saturating_add(1);
            }
        }
        count
    }

    /// A call that meets this fate, and leads to nobody.
    fn fail(&mut self, from: usize, to: usize, peer: usize, fate: Fate) -> Option<WorldWire>
        ensures { IfSome result (λ w. IsNew w × (w.peer ≡ Some peer)) }
    {
        let (caller, callee) = self
            .join(from, to, peer, 0, [Reach::WHOLE, Reach::WHOLE])
            .ok()?;
        callee.fail(fate);
        Some(caller)
    }

    /// Whether something has come to a machine: a call, or what it has not read on a connection.
    pub(crate) fn has_news(&self, machine: usize) -> bool {
        let now = self.clock.get();
        for pair in self.pairs.iter() {
            let [there, back] = &pair.ways;
            if pair.machines[0] == machine && has_arrived(back, now) {
                return true;
            }
            if pair.machines[1] == machine && has_arrived(there, now) {
                return true;
            }
        }
        match self.calls.get(machine) {
            Some(calls) => match calls.front() {
                Some(call) => call.at <= now,
                None => false,
            },
            None => false,
        }
    }

    /// Whether a machine is stopped.
    pub(crate) fn is_paused(&self, machine: usize) -> bool {
        self.weather.pause.is_of(machine, self.clock.get())
    }

    /// Whether a machine has too little for one more connection.
    pub(crate) fn is_short(&self, machine: usize) -> bool {
        self.weather.shortage.is_of(machine, self.clock.get())
    }

    /// The next connection that a caller began to this machine, if it has arrived.
    pub(crate) fn accept(&mut self, machine: usize) -> Option<WorldWire>
        ensures { IfSome result IsNew }
    {
        if self.is_short(machine) {
            return None;
        }
        let now = self.clock.get();
        let calls = self.calls.get_mut(machine)?;
        if calls.front()?.at > now {
            return None;
        }
        let call = calls.pop_front()?;
        Some(call.wire)
    }

    /// A machine vanishes. Its connections break, or nobody learns it; calls to it are lost.
    pub(crate) fn lose(&mut self, machine: usize, is_silent: bool) {
        if let Some(slot) = self.are_there.get_mut(machine) {
            *slot = false;
        }
        if let Some(calls) = self.calls.get_mut(machine) {
            calls.clear();
        }
        for pair in self.pairs.iter_mut() {
            if !is_silent && pair.machines.contains(&machine) {
                cut(&pair.ways[0]);
                cut(&pair.ways[1]);
            }
            for end in pair.machines.iter_mut() {
                if *end == machine {
                    *end = NOBODY;
                }
            }
        }
    }

    /// A replica has ended, and the system closes its connections. Calls to it find nobody.
    pub(crate) fn leave(&mut self, machine: usize) {
        if let Some(slot) = self.are_there.get_mut(machine) {
            *slot = false;
        }
        for pair in self.pairs.iter() {
            let [there, back] = &pair.ways;
            if pair.machines[0] == machine {
                end(there);
                cut(back);
            }
            if pair.machines[1] == machine {
                end(back);
                cut(there);
            }
        }
    }

    /// It is there again.
    pub(crate) fn find(&mut self, machine: usize) {
        if let Some(slot) = self.are_there.get_mut(machine) {
            *slot = true;
        }
    }

    /// What is written now arrives after the outage, if there is one.
    pub(crate) fn hold(&mut self) {
        if !self.weather.is_out(self.clock.get()) {
            return;
        }
        for pair in self.pairs.iter() {
            let until = self.weather.after_outage();
            for way in pair.ways.iter() {
                if let Ok(mut flow) = way.try_borrow_mut() {
                    flow.hold(until);
                }
            }
        }
    }
}
