//! One end of a connection of a world.

ghost use Rattle.std.specs.Prelude.{◌≡◌};
ghost use Rattle.nm_worlds.specs.Wires.{IsNew};

use crate::flow::{Clock, Found, Way, has_arrived};
use crate::weather::Fate;
use nm_base::failures::FailureCount;
use nm_base::wire::{Read, Written};
use nm_base::{Octets, Wire};

/// One end of a connection.
#[derive(Drop)]
pub(crate) struct WorldWire {
    clock: Clock,
    from: Way,
    to: Way,
    /// The peer to which it was begun.
    pub peer: Option<usize>,
    got: Octets,
    sent: Octets,
    ended: FailureCount,
    failed: FailureCount,
}

impl WorldWire {
    /// An end that reads from one direction and writes into the other, begun to a peer or by
    /// somebody else.
    pub(crate) fn new(clock: Clock, from: Way, to: Way, peer: Option<usize>) -> Self
        ensures peer { result.peer ≡ peer }
        ensures new { IsNew result }
    {
        WorldWire {
            clock,
            from,
            to,
            peer,
            got: Octets::new(),
            sent: Octets::new(),
            ended: FailureCount::new(),
            failed: FailureCount::new(),
        }
    }

    /// This end is closed: the other end learns it.
    pub(crate) fn close(&self) {
        if let Ok(mut flow) = self.to.try_borrow_mut() {
            flow.is_over = true;
        }
        if let Ok(mut flow) = self.from.try_borrow_mut() {
            flow.is_cut = true;
            flow.is_let_go = true;
        }
    }

    /// Nobody has this end: the call that led to it met this fate.
    pub(crate) fn fail(&self, fate: Fate) {
        if let Ok(mut flow) = self.from.try_borrow_mut() {
            flow.is_let_go = true;
            flow.is_held = matches!(fate, Fate::Hangs);
            flow.is_cut = matches!(fate, Fate::Cut | Fate::Gone);
        }
        if let Ok(mut flow) = self.to.try_borrow_mut() {
            flow.is_over = matches!(fate, Fate::Cut);
            flow.is_cut = matches!(fate, Fate::Gone);
        }
    }

    /// Whether a read would find something.
    pub(crate) fn is_ready(&self) -> bool {
        has_arrived(&self.from, self.clock.get())
    }

    /// What a read finds.
    fn find(&self, buffer: &mut [u8]) -> Found {
        match self.from.try_borrow_mut() {
            Ok(mut flow) => flow.take(self.clock.get(), buffer),
            Err(_) => Found::Nothing,
        }
    }

    /// Writes: how many octets were taken, if the connection did not break.
    fn put(&self, octets: &[u8]) -> Option<usize> {
        match self.to.try_borrow_mut() {
            Ok(mut flow) => flow.put(self.clock.get(), octets),
            Err(_) => Some(0),
        }
    }
}

impl Wire for WorldWire {
    ghost seen = { λ w. record {
      given = w.got.list;
      taken = w.sent.list;
      ends = w.ended;
      failures = w.failed;
    } };

    fn read_some(&mut self, buffer: &mut [u8]) -> Read {
        match self.find(buffer) {
            Found::Octets(found) => {
                let count = found.min(buffer.len());
                if count == 0 {
                    return Read::Later;
                }
                self.got.add(&buffer[..count]);
                Read::Got(count)
            }
            Found::Nothing => Read::Later,
            Found::Over => {
                self.ended.rise();
                Read::End
            }
            Found::Cut => {
                self.failed.rise();
                Read::Fault
            }
        }
    }

    fn write_some(&mut self, octets: &[u8]) -> Written {
        let Some(taken) = self.put(octets) else {
            self.failed.rise();
            return Written::Fault;
        };
        let count = taken.min(octets.len());
        if count == 0 {
            return Written::Later;
        }
        self.sent.add(&octets[..count]);
        Written::Took(count)
    }
}
