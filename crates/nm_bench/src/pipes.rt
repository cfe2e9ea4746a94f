//! Wires between two links of one thread.

ghost use Rattle.std.specs.Prelude.{◌≡◌, ℕ, ◌≤◌, List, length, IfSome};

use nm_base::failures::FailureCount;
use nm_base::wire::{Read, Written};
use nm_base::{Octets, Wire};
use std::alloc::{AllocError, Global};
use std::cell::RefCell;
use std::rc::Rc;

/// The most octets that are on their way in one direction.
const MAX_HELD: usize = 65_536;

/// The octets that are on their way in one direction.
pub(crate) type Way = Rc<RefCell<Vec<u8>>>;

/// One end of a connection in memory.
#[derive(Drop)]
pub(crate) struct PipeWire {
    from: Way,
    to: Way,
    got: Octets,
    sent: Octets,
    failed: FailureCount,
}

/// Moves octets out of one direction, to the front of a buffer: how many.
pub(crate) fn move_out(way: &Way, buffer: &mut [u8]) -> usize
    ensures { result ≤ length buffer.new }
{
    let Ok(mut octets) = way.try_borrow_mut() else {
        return 0;
    };
    let count = octets.len().min(buffer.len());
    buffer[..count].copy_from_slice(&octets[..count]);
    octets.drain(..count);
    count
}

/// Moves the first octets of a list into one direction: how many it had room for, if there was
/// memory.
pub(crate) fn move_in(way: &Way, octets: &[u8]) -> Option<usize>
    ensures { IfSome result (λ count. count ≤ length octets.now) }
{
    let Ok(mut held) = way.try_borrow_mut() else {
        return None;
    };
    let count = MAX_HELD.saturating_sub(held.len()).min(octets.len());
    match held.extend_from_slice(&octets[..count]) {
        Ok(()) => Some(count),
        Err(_) => None,
    }
}

impl PipeWire {
    /// An end that reads from one direction and writes into the other.
    fn new(from: Way, to: Way) -> Self {
        PipeWire {
            from,
            to,
            got: Octets::new(),
            sent: Octets::new(),
            failed: FailureCount::new(),
        }
    }
}

/// Both directions of a connection.
pub(crate) fn ways(alloc: Global) -> Result<(Way, Way), AllocError> {
    let Ok(there) = Rc::new(alloc, RefCell::new(Vec::new(alloc))) else {
        return Err(AllocError);
    };
    let Ok(back) = Rc::new(alloc, RefCell::new(Vec::new(alloc))) else {
        return Err(AllocError);
    };
    Ok((there, back))
}

/// Both ends of a connection.
pub(crate) fn pipe(alloc: Global) -> Result<(PipeWire, PipeWire), AllocError> {
    let (there, back) = ways(alloc)?;
    let zero = PipeWire::new(back.clone()?, there.clone()?);
    Ok((zero, PipeWire::new(there, back)))
}

impl Wire for PipeWire {
    ghost seen = { λ w. record {
      given = w.got.list;
      taken = w.sent.list;
      ends = 0;
      failures = w.failed;
    } };

    fn read_some(&mut self, buffer: &mut [u8]) -> Read {
        let count = move_out(&self.from, buffer);
        if count == 0 {
            return Read::Later;
        }
        self.got.add(&buffer[..count]);
        Read::Got(count)
    }

    fn write_some(&mut self, octets: &[u8]) -> Written {
        match move_in(&self.to, octets) {
            None => {
                self.failed.rise();
                Written::Fault
            }
            Some(0) => Written::Later,
            Some(count) => {
                self.sent.add(&octets[..count]);
                Written::Took(count)
            }
        }
    }
}
