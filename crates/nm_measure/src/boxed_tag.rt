//! A tag in a block of its own.

ghost use Rattle.std.specs.Prelude.{◌≡◌, IfOk};
ghost use Rattle.nm_measure.specs.Ways.{nobodys, reply_tag};

use crate::tag::Tag;
use std::alloc::{AllocError, Global};
use std::marker::Model;

/// A tag in a block of its own: links and queues pass on where it lies. So a hop moves one word,
/// and the queues of links are short enough to stay in a processor's first cache.
#[derive(Drop)]
pub(crate) struct BoxedTag {
    tag: Box<Tag>,
}

impl Model for BoxedTag {
    ghost use Rattle.nm_measure.specs.declared.tag.Tag.{Tag};

    ghost Value = { Tag };

    ghost view = { λ b. b.tag.value };
}

impl BoxedTag {
    /// A block with this tag.
    ///
    /// # Errors
    ///
    /// If memory was refused.
    pub(crate) fn new(alloc: Global, tag: Tag) -> Result<Self, AllocError>
        ensures { IfOk result (λ b. b ≡ tag) }
    {
        Ok(BoxedTag {
            tag: Box::new(alloc, tag)?,
        })
    }

    /// The tag.
    pub(crate) fn get(&self) -> &Tag
        ensures { result.now ≡ self.now }
    {
        self.tag.as_ref()
    }

    /// The same block, with the tag of the echo reply to this packet.
    pub(crate) fn into_reply(self) -> Self
        ensures { result ≡ reply_tag self }
    {
        let reply = self.tag.as_ref().of_reply();
        self.with(reply)
    }

    /// The same block, with the tag of a packet that counts for no source.
    pub(crate) fn into_nobodys(self) -> Self
        ensures { result ≡ nobodys }
    {
        self.with(Tag::of_nobody())
    }

    /// The same block, with another tag.
    fn with(self, tag: Tag) -> Self
        ensures { result ≡ tag }
    {
        let mut block = self.tag;
        let _old = Box::replace(&mut block, tag);
        BoxedTag { tag: block }
    }
}

/// The blocks of packets whose ways are over. The packets to come get them again.
#[derive(Drop)]
pub(crate) struct SpareBlocks {
    alloc: Global,
    blocks: Vec<BoxedTag>,
}

impl SpareBlocks {
    /// No blocks.
    pub(crate) fn new(alloc: Global) -> Self {
        SpareBlocks {
            alloc,
            blocks: Vec::new(alloc),
        }
    }

    /// A block with this tag.
    ///
    /// # Errors
    ///
    /// If memory was refused.
    pub(crate) fn block(&mut self, tag: Tag) -> Result<BoxedTag, AllocError>
        ensures { IfOk result (λ b. b ≡ tag) }
    {
        match self.blocks.pop() {
            Some(block) => Ok(block.with(tag)),
            None => BoxedTag::new(self.alloc, tag),
        }
    }

    /// The way of a packet is over. Where memory for one block more is refused, its block is given
    /// back to the system.
    pub(crate) fn take_back(&mut self, block: BoxedTag) {
        let _kept = self.blocks.push(block);
    }
}
