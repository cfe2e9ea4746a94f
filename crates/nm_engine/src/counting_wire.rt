//! A wire that counts its octets, and is read only if there may be something to read.

ghost use Rattle.std.specs.Prelude.{◌≡◌, ◌+◌, ◌<◌, false, length, nat_lt, true};
ghost use Rattle.nm_base.specs.Count.{saturated};
ghost use Rattle.nm_base.specs.Wire.{ReadDoes, WriteDoes};
ghost use Rattle.nm_base.specs.declared.wire.Read.TheVariants.{Later};
ghost use Rattle.nm_engine.specs.CountingWire.{noted, reported, written_on};

use nm_base::Wire;
use nm_base::wire::{Read, Written};
use std::marker::Model;

/// A wire, and how many octets moved on it both ways; counts stop at the greatest `u64`. A read
/// asks the wire only if there may be something to read: at first, and after a report, up to the
/// read that finds no more. So an idle connection costs no call of the system.
#[derive(Drop)]
pub struct CountingWire<W> {
    wire: W,
    /// How many octets were received.
    came: u64,
    /// How many octets were written.
    written: u64,
    /// There may be something to read.
    is_ready: bool,
    /// A read found the end.
    has_ended: bool,
}

impl<W> Model for CountingWire<W> {
    ghost use Rattle.nm_engine.specs.CountingWire.{CountingWireValue};

    ghost Value = { CountingWireValue W };

    ghost view = { λ c. record {
      wire = c.wire;
      came = c.came;
      written = c.written;
      is_ready = c.is_ready;
      has_ended = c.has_ended;
    } };
}

impl<W> CountingWire<W> {
    /// None has moved.
    pub fn new(wire: W) -> Self
        ensures { result ≡ record {
          wire = wire;
          came = 0;
          written = 0;
          is_ready = true;
          has_ended = false;
        } }
    {
        CountingWire {
            wire,
            came: 0,
            written: 0,
            is_ready: true,
            has_ended: false,
        }
    }

    /// How many octets moved.
    pub fn moved(&self) -> u64
        ensures { result ≡ saturated (self.now.came + self.now.written) }
    {
        self.came.saturating_add(self.written)
    }

    /// How many of them were received.
    pub fn came(&self) -> u64
        ensures { result ≡ self.now.came }
    {
        self.came
    }

    /// Whether octets were written.
    pub fn has_written(&self) -> bool
        ensures { result ≡ nat_lt 0 self.now.written }
    {
        self.written > 0
    }

    /// Whether a read found the end.
    pub fn has_ended(&self) -> bool
        ensures { result ≡ self.now.has_ended }
    {
        self.has_ended
    }

    /// Whether there may be something to read.
    pub fn is_ready(&self) -> bool
        ensures { result ≡ self.now.is_ready }
    {
        self.is_ready
    }

    /// There may be something to read.
    pub fn report(&mut self)
        ensures { self.new ≡ reported self.old }
    {
        self.is_ready = true;
    }

    /// The wire.
    pub fn into_wire(self) -> W
        ensures { result ≡ self.wire }
    {
        self.wire
    }

    /// Notes the answer of a read: how many octets, or that the peer sends no more. If it found
    /// none, the wire is read again after the next report.
    fn note(&mut self, read: Read)
        ensures { self.new ≡ noted self.old read }
    {
        match read {
            Read::Got(octets) => self.came = self.came.saturating_add(octets as u64),
            Read::End => {
                self.has_ended = true;
                self.is_ready = false;
            }
            Read::Later => self.is_ready = false,
            Read::Fault => {}
        }
    }

    /// So many octets were written.
    fn count_written(&mut self, octets: usize)
        ensures { self.new
            ≡ record self.old { written = saturated (self.old.written + octets) } }
    {
        self.written = self.written.saturating_add(octets as u64);
    }
}

impl<W: Wire> CountingWire<W> {
    /// Reads, if there may be something to read, and notes the answer.
    fn read_noted(&mut self, buffer: &mut [u8]) -> Read
        requires { 0 < length buffer.old }
        ensures noted { self.new ≡ record (noted self.old result) { wire = self.new.wire } }
        ensures rests { self.old.is_ready ≡ false
            → (result ≡ Later) × (self.new ≡ self.old) }
        ensures reads { ReadDoes (W.seen self.old.wire) (W.seen self.new.wire) result buffer.new }
        ensures keeps { (W.seen self.new.wire).taken ≡ (W.seen self.old.wire).taken }
    {
        if !self.is_ready {
            return Read::Later;
        }
        let read = self.wire.read_some(buffer);
        self.note(read);
        read
    }
}

impl<W: Wire> Wire for CountingWire<W> {
    ghost seen = { λ c. W.seen c.wire };

    fn read_some(&mut self, buffer: &mut [u8]) -> Read
        requires { 0 < length buffer.old }
        ensures reads { ReadDoes (W.seen self.old.wire) (W.seen self.new.wire) result buffer.new }
        ensures keeps { (W.seen self.new.wire).taken ≡ (W.seen self.old.wire).taken }

        // The answer is noted.
        ensures noted { self.new ≡ record (noted self.old result) { wire = self.new.wire } }
    {
        self.read_noted(buffer)
    }

    fn write_some(&mut self, octets: &[u8]) -> Written
        requires { 0 < length octets.now }
        ensures writes { WriteDoes (W.seen self.old.wire) (W.seen self.new.wire) result octets.now }
        ensures keeps { ((W.seen self.new.wire).given ≡ (W.seen self.old.wire).given)
            × ((W.seen self.new.wire).ends ≡ (W.seen self.old.wire).ends) }

        // What the wire took is counted.
        ensures counted { self.new
            ≡ record (written_on self.old result) { wire = self.new.wire } }
    {
        let written = self.wire.write_some(octets);
        if let Written::Took(count) = written {
            self.count_written(count);
        }
        written
    }
}
