//! Wires: both ways of one connection, in pieces of any length. No call waits.

ghost use Rattle.std.specs.Prelude.{◌≡◌, ◌<◌, length};

/// What a read of a wire found.
#[derive(Clone, Copy)]
pub enum Read {
    /// So many octets are at the front of the buffer: at least one, at most its length.
    Got(usize),
    /// The other side sends no more.
    End,
    /// Nothing has come yet.
    Later,
    /// The wire failed.
    Fault,
}

/// What a write to a wire did.
#[derive(Clone, Copy)]
pub enum Written {
    /// So many octets from the front of the list were taken: at least one, at most its length.
    Took(usize),
    /// Nothing is taken now.
    Later,
    /// The wire failed.
    Fault,
}

/// One connection. A clause sees the octets that it gave and took so far, how often a read found
/// that the other side sends no more, and how often the connection has failed.
pub trait Wire {
    ghost use Rattle.nm_base.specs.Wire.{ReadDoes, WireSeen, WriteDoes};

    // What is seen of it: the octets that were read so far, and those that were written, how often
    // a read found the end, and how often the wire has failed.
    ghost seen: { Self → WireSeen };

    /// Reads what came next into the front of a buffer that is not empty.
    fn read_some(&mut self, buffer: &mut [u8]) -> Read
        requires { 0 < length buffer.old }
        ensures reads { ReadDoes (seen self.old) (seen self.new) result buffer.new }
        ensures keeps { (seen self.new).taken ≡ (seen self.old).taken };

    /// Writes the first octets of a list that is not empty.
    fn write_some(&mut self, octets: &[u8]) -> Written
        requires { 0 < length octets.now }
        ensures writes { WriteDoes (seen self.old) (seen self.new) result octets.now }
        ensures keeps { ((seen self.new).given ≡ (seen self.old).given)
            × ((seen self.new).ends ≡ (seen self.old).ends) };
}
