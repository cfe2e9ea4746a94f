//! A wire in memory with a script: what it gives is in a list, and what it takes has a budget.

ghost use Rattle.std.specs.Prelude.{◌≡◌, ◌<◌, ◌≤◌, [], IfOk, drop, length};
ghost use Rattle.nm_base.specs.Wire.{next_read, next_write};

use crate::failures::FailureCount;
use crate::wire::{Read, Wire, Written};
use std::alloc::{AllocError, Global};
use std::collections::VecDeque;
use std::marker::Model;

/// What a read of a wire in memory answers if it gives nothing.
#[derive(Clone, Copy)]
pub enum Ending {
    End,
    Later,
    Fault,
}

/// What a script has one read do.
#[derive(Clone, Copy)]
pub enum ScriptedRead {
    /// It gives so many octets, or as many as are left and the buffer takes. If that is none, it
    /// answers the wire's ending.
    Gives(usize),
    /// It gives nothing and answers so.
    Answers(Ending),
}

/// What a script has one write do.
#[derive(Clone, Copy)]
pub enum ScriptedWrite {
    /// It takes so many octets, or as many as there are and there is room for. If that is none, it
    /// fails.
    Takes(usize),
    /// Nothing is taken now.
    Later,
    /// The wire fails.
    Fault,
}

/// Answers by a script, in its order. After the script it gives a list in pieces, and takes up to a
/// budget of octets, after which each write fails. A clause sees `MemoryWire`.
#[derive(Drop)]
pub struct MemWire {
    /// What the next reads and writes do.
    reads: VecDeque<ScriptedRead>,
    writes: VecDeque<ScriptedWrite>,
    source: Vec<u8>,
    at: usize,
    ending: Ending,
    held: Vec<u8>,
    room: usize,
    piece: usize,
    /// How often a read found the end, which is counted as failures are.
    ended: FailureCount,
    failed: FailureCount,
}

impl Model for MemWire {
    ghost use Rattle.std.specs.Prelude.{◌+◌, ◌≤◌, vec_len, vec_capacity};
    ghost use Rattle.nm_base.specs.Wire.{MemoryWire};

    ghost Value = { MemoryWire };

    ghost view = { λ w. record {
      reads = w.reads.items;
      writes = w.writes.items;
      source = w.source.items;
      at = w.at;
      ending = w.ending;
      taken = w.held.items;
      room = w.room;
      piece = w.piece;
      ends = w.ended;
      failures = w.failed;
    } };

    ghost invariant = { λ w. (w.at ≤ vec_len w.source)
        × (vec_len w.held + w.room ≤ vec_capacity w.held)
        × (1 ≤ w.piece) };
}

impl MemWire {
    /// A wire without a script: it gives the octets of `source` and then answers with this ending,
    /// and it takes `room` octets. No call moves more than `piece` octets. Its memory is taken
    /// here, so that no later call takes any.
    pub fn new(
        alloc: Global,
        source: Vec<u8>,
        ending: Ending,
        room: usize,
        piece: usize,
    ) -> Result<Self, AllocError>
        requires { 1 ≤ piece }
        ensures { IfOk result (λ wire. wire ≡ record {
          reads = [];
          writes = [];
          source = source.items;
          at = 0;
          ending = ending;
          taken = [];
          room = room;
          piece = piece;
          ends = 0;
          failures = 0;
        }) }
    {
        Ok(MemWire {
            reads: VecDeque::new(alloc),
            writes: VecDeque::new(alloc),
            source,
            at: 0,
            ending,
            held: Vec::with_capacity(alloc, room)?,
            room,
            piece,
            ended: FailureCount::new(),
            failed: FailureCount::new(),
        })
    }

    /// The wire with a script: its next reads and writes do this, in this order, and those after
    /// them what it did without.
    pub fn with_script(self, reads: VecDeque<ScriptedRead>, writes: VecDeque<ScriptedWrite>) -> Self
        ensures { result ≡ record self { reads = reads.items; writes = writes.items } }
    {
        MemWire {
            reads,
            writes,
            ..self
        }
    }

    /// What the next read does. A read of the script is over with it.
    fn next_read(&mut self) -> ScriptedRead
        ensures read { result ≡ next_read self.old }
        ensures rest { self.new ≡ record self.old { reads = drop 1 self.old.reads } }
    {
        match self.reads.pop_front() {
            Some(read) => read,
            None => ScriptedRead::Gives(self.piece),
        }
    }

    /// What the next write does. A write of the script is over with it.
    fn next_write(&mut self) -> ScriptedWrite
        ensures write { result ≡ next_write self.old }
        ensures rest { self.new ≡ record self.old { writes = drop 1 self.old.writes } }
    {
        match self.writes.pop_front() {
            Some(write) => write,
            None => ScriptedWrite::Takes(self.piece),
        }
    }

    /// The octets taken so far.
    pub fn octets(&self) -> &[u8]
        ensures { result.now ≡ self.now.taken }
    {
        self.held.as_slice()
    }
}

impl Wire for MemWire {
    ghost use Rattle.std.specs.Prelude.{drop, take};
    ghost use Rattle.nm_base.specs.Wire.{ReadDoes, after_copy, after_read, after_write};
    ghost use Rattle.nm_base.specs.Wire.{memory_seen, read_answer, read_count, write_answer};
    ghost use Rattle.nm_base.specs.Wire.{write_count};

    ghost seen = { memory_seen };

    /// Does the next step of the script, and past the script gives a piece.
    fn read_some(&mut self, buffer: &mut [u8]) -> Read
        requires { 0 < length buffer.old }
        ensures reads { ReadDoes (memory_seen self.old) (memory_seen self.new) result buffer.new }
        ensures answer { result
            ≡ read_answer self.old (read_count self.old (length buffer.old)) }
        ensures wire { self.new ≡ after_read self.old (read_count self.old (length buffer.old)) }
        ensures buffer { buffer.new ≡ after_copy
            (take (read_count self.old (length buffer.old)) (drop self.old.at self.old.source))
            buffer.old }
    {
        let (most, ending) = match self.next_read() {
            ScriptedRead::Gives(most) => (most, self.ending),
            ScriptedRead::Answers(ending) => (0, ending),
        };
        let left = self.source.len() - self.at;
        let count = left.min(most).min(buffer.len());
        if count == 0 {
            return match ending {
                Ending::End => {
                    self.ended.rise();
                    Read::End
                }
                Ending::Later => Read::Later,
                Ending::Fault => {
                    self.failed.rise();
                    Read::Fault
                }
            };
        }
        buffer[..count].copy_from_slice(&self.source[self.at..self.at + count]);
        self.at += count;
        Read::Got(count)
    }

    /// Does the next step of the script, and past the script takes a piece.
    fn write_some(&mut self, octets: &[u8]) -> Written
        requires { 0 < length octets.now }
        ensures answer { result
            ≡ write_answer self.old (write_count self.old (length octets.now)) }
        ensures wire { self.new
            ≡ after_write self.old octets.now (write_count self.old (length octets.now)) }
    {
        let most = match self.next_write() {
            ScriptedWrite::Takes(most) => most,
            ScriptedWrite::Later => return Written::Later,
            ScriptedWrite::Fault => 0,
        };
        let count = self.room.min(most).min(octets.len());
        if count == 0 {
            self.failed.rise();
            return Written::Fault;
        }
        self.held.extend_from_slice(&octets[..count]).unwrap();
        self.room -= count;
        Written::Took(count)
    }
}
