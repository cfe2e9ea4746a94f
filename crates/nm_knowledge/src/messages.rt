//! Lists of messages, in blocks that copies share.

ghost use Rattle.std.specs.Prelude.{◌≡◌, ◌<◌, ◌≤◌, [], ◌∷◌, ◌++◌, length, Some, IfOk, OnOk, OnErr};
ghost use Rattle.std.specs.Prelude.{if◌then◌else◌};
ghost use Rattle.std.specs.Option.{option_map};
ghost use Rattle.nm_model.specs.Lists.{nth};
ghost use Rattle.nm_model.specs.Accept.{last_from, Late};
ghost use Rattle.nm_model.specs.Join.{first_differs, late_past};
ghost use Rattle.nm_base.specs.declared.limits.TheConstants.{MAX_MESSAGES};
ghost use Rattle.nm_knowledge.specs.Blocks.{in_blocks, AreBlocks};
ghost use Rattle.nm_knowledge.specs.Octets.{same_octets};

use nm_base::{Packet, Time};
use std::alloc::{AllocError, Global};
use std::marker::Model;
use std::sync::Arc;

/// How many messages a full block has.
const BLOCK_LEN: usize = 256;

/// Messages with their times of arrival, at most 2^50, in blocks of 256. Copies share the full
/// blocks. A clause sees the list of (time, packet).
#[derive(Drop)]
pub(crate) struct Messages {
    full: Vec<Arc<Vec<(Time, Packet)>>>,
    /// The messages behind the full blocks, at most as many as a block has. It is no `Arc`: by its
    /// type no copy can share it.
    last: Vec<(Time, Packet)>,
}

impl Model for Messages {
    ghost use Rattle.std.specs.Prelude.{ℕ, List};
    ghost use Rattle.nm_knowledge.specs.Blocks.{in_blocks, AreBlocks};

    ghost Value = { List (ℕ × List ℕ) };

    ghost view = { λ m. in_blocks m.full.items m.last.items };

    ghost invariant = { λ m. AreBlocks m.full.items m.last.items };
}

/// Makes room for a message in the last block: one that is full goes behind the full blocks.
fn make_room(
    full: &mut Vec<Arc<Vec<(Time, Packet)>>>,
    last: &mut Vec<(Time, Packet)>,
) -> Result<(), AllocError>
    requires { AreBlocks full.old.items last.old.items }
    ensures blocks { AreBlocks full.new.items last.new.items }
    ensures same { in_blocks full.new.items last.new.items
        ≡ in_blocks full.old.items last.old.items }
    ensures room { OnOk result (length last.new.items < 256) }
{
    if last.len() < BLOCK_LEN {
        return Ok(());
    }
    full.reserve(1)?;
    let alloc = *last.allocator();
    let block = std::mem::replace(last, Vec::new(alloc));
    match Arc::new(alloc, block) {
        Ok(block) => {
            full.push(block).unwrap();
            Ok(())
        }
        Err(refused) => {
            *last = refused.value;
            Err(AllocError)
        }
    }
}

impl Messages {
    /// No message.
    pub(crate) fn new(alloc: Global) -> Self
        ensures { result ≡ [] }
    {
        Messages {
            full: Vec::new(alloc),
            last: Vec::new(alloc),
        }
    }

    /// Where their memory comes from.
    pub(crate) fn alloc(&self) -> Global {
        *self.last.allocator()
    }

    /// How many there are.
    pub(crate) fn len(&self) -> usize
        ensures value { result ≡ length self.now }
        ensures most { result ≤ MAX_MESSAGES }
    {
        self.full.len() * BLOCK_LEN + self.last.len()
    }

    /// The message of this number.
    pub(crate) fn get(&self, number: usize) -> Option<&(Time, Packet)>
        ensures { option_map (λ m. m.now) result ≡ nth self.now number }
    {
        match self.full.get(number / BLOCK_LEN) {
            Some(block) => block.get(number % BLOCK_LEN),
            None => self.last.get(number - self.full.len() * BLOCK_LEN),
        }
    }

    /// The message of this number, which is there.
    pub(crate) fn at(&self, number: usize) -> &(Time, Packet)
        requires { number < length self.now }
        ensures { nth self.now number ≡ Some result.now }
    {
        self.get(number).unwrap()
    }

    /// The same messages. Full blocks are shared, and so are the octets of the packets of the last.
    pub(crate) fn copy(&self, alloc: Global) -> Result<Self, AllocError>
        ensures { IfOk result (λ copy. copy ≡ self.now) }
    {
        let mut full = Vec::new(alloc);
        full.extend_with_clones(&self.full)?;
        let mut last = Vec::new(alloc);
        last.extend_with_clones(&self.last)?;
        Ok(Messages { full, last })
    }

    /// Adds a message behind the others.
    pub(crate) fn push(&mut self, message: (Time, Packet)) -> Result<(), AllocError>
        requires { length self.old < MAX_MESSAGES }
        ensures ok { OnOk result (self.new ≡ self.old ++ message ∷ []) }
        ensures err { OnErr result (self.new ≡ self.old) }
    {
        make_room(&mut self.full, &mut self.last)?;
        self.last.push(message)?;
        Ok(())
    }

    /// The first number at which both lists have a message and these differ.
    pub(crate) fn first_difference(&self, other: &Messages) -> Option<usize>
        ensures { result ≡ first_differs same_octets 0 self.now other.now }
    {
        let shared = self.len().min(other.len());
        for number in 0..shared {
            if self.at(number) != other.at(number) {
                return Some(number);
            }
        }
        None
    }

    /// Whether the last message, if there is one, arrives at this time or later.
    pub(crate) fn is_at_last(&self, time: Time) -> bool
        ensures { result ≡ last_from time self.now }
    {
        let count = self.len();
        if count == 0 {
            return false;
        }
        let (last, _) = self.at(count - 1);
        time <= *last
    }

    /// Whether the message of this number, if there is one, arrives before the clock.
    pub(crate) fn is_before(&self, number: usize, clock: Time) -> bool
        ensures { late_past clock (nth self.now number)
            ≡ (if result then Some (Late clock) else None) }
    {
        match self.get(number) {
            Some((time, _)) => *time < clock,
            None => false,
        }
    }
}
