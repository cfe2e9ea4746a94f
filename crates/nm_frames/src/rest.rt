//! The octets at the end of a stream of which no whole frame has come.

ghost use Rattle.std.specs.Prelude.{◌≡◌, ◌++◌, [], IfOk, OnErr, OnOk, length, take};
ghost use Rattle.nm_frames.specs.Reader.{rest_octets};

use bytes::{Bytes, BytesMut};
use std::alloc::{AllocError, Global};
use std::mem;

/// Octets in two parts. Between two pieces of a stream one of them is empty.
#[derive(Drop)]
pub(crate) struct Rest {
    /// What is left of a block from which frames were cut. Their packets share the block.
    pub(crate) cut: Bytes,
    /// What came after it.
    pub(crate) open: BytesMut,
}

impl Rest {
    /// No octets.
    pub(crate) fn new(alloc: Global) -> Self
        ensures { rest_octets result ≡ [] }
    {
        Rest {
            cut: Bytes::new(),
            open: BytesMut::new(alloc),
        }
    }

    /// How many octets there are.
    pub(crate) fn len(&self) -> usize
        ensures { result ≡ length (rest_octets self.now) }
    {
        self.cut.len() + self.open.len()
    }

    /// Adds a piece, and moves all octets into the open part. A new one has room for these octets
    /// alone, so that a packet which is kept keeps no more than what came with it.
    ///
    /// # Errors
    ///
    /// `AllocError` if memory was refused. The octets are as before.
    pub(crate) fn add(&mut self, alloc: Global, piece: &[u8]) -> Result<(), AllocError>
        ensures whole { OnOk result (self.new.open.items ≡ rest_octets self.old ++ piece.now) }
        ensures moved { OnOk result (self.new.cut ≡ []) }
        ensures err { OnErr result (rest_octets self.new ≡ rest_octets self.old) }
    {
        if self.cut.is_empty() && !self.open.is_empty() {
            return self.open.extend_from_slice(piece);
        }
        let count = self.cut.len().saturating_add(piece.len());
        let mut octets = Vec::with_capacity(alloc, count)?;
        octets.extend_from_slice(self.cut.as_slice())?;
        octets.extend_from_slice(self.open.as_slice())?;
        octets.extend_from_slice(piece)?;
        self.cut = Bytes::new();
        self.open = BytesMut::from_vec(octets);
        Ok(())
    }

    /// Takes all octets out of the open part, as a block from which packets can be cut.
    ///
    /// # Errors
    ///
    /// `AllocError` if memory for the count of owners was refused. So many octets are kept then,
    /// those that were there before a piece was added.
    pub(crate) fn freeze(&mut self, alloc: Global, held: usize) -> Result<Bytes, AllocError>
        ensures block { IfOk result (λ block. block ≡ self.old.open.items) }
        ensures none { OnOk result (self.new.open.items ≡ []) }
        ensures err { OnErr result (self.new.open.items ≡ take held self.old.open.items) }
        ensures keeps { self.new.cut ≡ self.old.cut }
    {
        let open = mem::replace(&mut self.open, BytesMut::new(alloc));
        match open.freeze() {
            Ok(block) => Ok(block),
            Err(failed) => {
                self.open = failed.value;
                self.open.truncate(held);
                Err(AllocError)
            }
        }
    }
}
