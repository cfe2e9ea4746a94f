//! One read of a link.

ghost use Rattle.std.specs.Prelude.{◌≡◌, [], false, length};
ghost use Rattle.nm_base.specs.declared.limits.TheConstants.{MAX_READ_OCTETS};
ghost use Rattle.nm_engine.specs.Link.{IsPart};
ghost use Rattle.nm_engine.specs.Reading.{FeedsReader, Reads};

use crate::answer::Cause;
use nm_base::Wire;
use nm_base::limits::MAX_READ_OCTETS;
use nm_base::wire::Read;
use nm_frames::{Frame, FrameFault, Reader};
use std::alloc::{AllocError, Global};

/// The octets between a wire and a reader. One buffer serves all links of a thread.
#[derive(Drop)]
pub struct ReadBuffer {
    pub(crate) octets: Vec<u8>,
    ghost size: { length octets.items ≡ MAX_READ_OCTETS },
}

impl ReadBuffer {
    /// A buffer of 65,536 octets.
    ///
    /// # Errors
    ///
    /// If memory was refused.
    pub fn new(alloc: Global) -> Result<Self, AllocError> {
        Ok(ReadBuffer {
            octets: vec![in alloc; 0u8; MAX_READ_OCTETS]?,
        })
    }
}

/// Feeds received octets to the reader, and puts the frames that are whole now into a list.
#[tactic(auto, using(crate::proofs::Readings::short_part))]
fn feed(
    alloc: Global,
    reader: &mut Reader,
    octets: &[u8],
    frames: &mut Vec<Frame>,
) -> Result<usize, Cause>
    requires sound { reader.old.failed ≡ false }
    requires none { frames.old.items ≡ [] }
    requires part { IsPart reader.old.rest }
    ensures feeds { FeedsReader reader.old octets.now frames.new.items reader.new result }
    ensures part { IsPart reader.new.rest }
{
    match reader.feed(alloc, octets, frames) {
        Ok(()) => Ok(octets.len()),
        Err(FrameFault::BadLength) => Err(Cause::Frame),
        Err(FrameFault::BadKind) => Err(Cause::Frame),
        Err(FrameFault::BadBody) => Err(Cause::Frame),
        Err(FrameFault::Memory) => Err(Cause::Memory),
        Err(FrameFault::Failed) => unreachable!(),
    }
}

/// Reads once into the front of a list of octets, and puts the frames that are whole into a list.
/// Answers how many octets were received.
pub(crate) fn read_in<W: Wire>(
    alloc: Global,
    wire: &mut W,
    reader: &mut Reader,
    may_end: bool,
    octets: &mut [u8],
    frames: &mut Vec<Frame>,
) -> Result<usize, Cause>
    // The buffer has its size, no fault was read, and earlier frames were taken.
    requires size { length octets.old ≡ MAX_READ_OCTETS }
    requires sound { reader.old.failed ≡ false }
    requires none { frames.old.items ≡ [] }
    requires part { IsPart reader.old.rest }

    // The octets received are those of frames and the part of one that is kept.
    ensures reads { Reads (W.seen wire.old) (W.seen wire.new) may_end reader.old reader.new
        (frames.new.items, result) }
    ensures part { IsPart reader.new.rest }

    // Nothing is written.
    ensures keeps { (W.seen wire.new).taken ≡ (W.seen wire.old).taken }
{
    match wire.read_some(octets) {
        Read::Got(count) => feed(alloc, reader, &octets[..count], frames),
        Read::End => { if may_end { Ok(0) } else { Err(Cause::End) } }
        Read::Later => Ok(0),
        Read::Fault => Err(Cause::Fault),
    }
}
