//! Wires between two links of one thread that break.

ghost use Rattle.std.specs.Prelude.{◌≡◌, ℕ, ◌≤◌, ◌<◌, List, length};

use crate::chance::Chance;
use crate::pipes::{Way, move_in, move_out, ways};
use nm_base::failures::FailureCount;
use nm_base::wire::{Read, Written};
use nm_base::{Octets, Wire};
use std::alloc::{AllocError, Global};

/// A wire breaks after less octets than this, each way.
const MAX_LIFE: u64 = 1_000;

/// No call moves more octets than this.
const MAX_PIECE: u64 = 200;

/// When a wire breaks.
#[derive(Clone, Copy)]
struct Cut {
    /// How many octets it still gives, and how many it still takes.
    gives: usize,
    takes: usize,
    /// Whether a read then finds the end, and not a fault.
    ends: bool,
    /// The most octets that one call moves.
    piece: usize,
}

/// One end of a connection in memory, which breaks by itself: the other end does not learn it.
#[derive(Drop)]
pub(crate) struct CutWire {
    from: Way,
    to: Way,
    cut: Cut,
    got: Octets,
    sent: Octets,
    ended: FailureCount,
    failed: FailureCount,
}

/// When a wire breaks, by chance.
fn cut_of(chance: &mut Chance) -> Cut {
    Cut {
        gives: chance.below(MAX_LIFE) as usize,
        takes: chance.below(MAX_LIFE) as usize,
        ends: chance.once_in(2),
        piece: 1 + chance.below(MAX_PIECE) as usize,
    }
}

impl CutWire {
    /// An end that reads from one direction and writes into the other.
    fn new(from: Way, to: Way, cut: Cut) -> Self {
        CutWire {
            from,
            to,
            cut,
            got: Octets::new(),
            sent: Octets::new(),
            ended: FailureCount::new(),
            failed: FailureCount::new(),
        }
    }
}

/// Both ends of a connection. Each breaks after a random number of octets.
pub(crate) fn cut_pipe(
    alloc: Global,
    chance: &mut Chance,
) -> Result<(CutWire, CutWire), AllocError> {
    let (there, back) = ways(alloc)?;
    let zero = CutWire::new(back.clone()?, there.clone()?, cut_of(chance));
    Ok((zero, CutWire::new(there, back, cut_of(chance))))
}

impl Wire for CutWire {
    ghost seen = { λ w. record {
      given = w.got.list;
      taken = w.sent.list;
      ends = w.ended;
      failures = w.failed;
    } };

    fn read_some(&mut self, buffer: &mut [u8]) -> Read {
        if self.cut.gives == 0 {
            if self.cut.ends {
                self.ended.rise();
                return Read::End;
            }
            self.failed.rise();
            return Read::Fault;
        }
        let most = self.cut.gives.min(self.cut.piece).min(buffer.len());
        let count = move_out(&self.from, &mut buffer[..most]);
        if count == 0 {
            return Read::Later;
        }
        self.cut.gives -= count;
        self.got.add(&buffer[..count]);
        Read::Got(count)
    }

    fn write_some(&mut self, octets: &[u8]) -> Written {
        let most = self.cut.takes.min(self.cut.piece).min(octets.len());
        let taken = if most == 0 {
            None
        } else {
            move_in(&self.to, &octets[..most])
        };
        match taken {
            None => {
                self.failed.rise();
                Written::Fault
            }
            Some(0) => Written::Later,
            Some(count) => {
                self.cut.takes -= count;
                self.sent.add(&octets[..count]);
                Written::Took(count)
            }
        }
    }
}
