//! A stream that comes in pieces.

ghost use Rattle.std.specs.Prelude.{◌≡◌, ◌≤◌, ◌==◌, drop, length, [], None, true, false, IfOk};
ghost use Rattle.std.specs.Prelude.{IfErr, IfSome};
ghost use Rattle.nm_frames.specs.Reader.{ReaderValue, Cuts, CutsTo, CutsOne, Feeds, LeavesOf};
ghost use Rattle.nm_frames.specs.Reader.{shows_fault};
ghost use Rattle.nm_frames.specs.Stream.{fault_shown, IsShort};

use crate::fault::FrameFault;
use crate::frame::Frame;
use crate::parse::{next_frame, whole_frame};
use crate::rest::Rest;
use bytes::Bytes;
use std::alloc::Global;
use std::marker::Model;

/// Takes a stream of octets in any pieces and makes frames of it. A clause sees the octets of the
/// frame that has not come whole, and whether the stream has shown a fault.
#[derive(Drop)]
pub struct Reader {
    /// The octets of the frame that has not come whole; none once the stream has failed.
    rest: Rest,
    failed: bool,
}

impl Model for Reader {
    ghost use Rattle.nm_frames.specs.Reader.{ReaderValue, rest_octets};

    ghost Value = { ReaderValue };

    ghost view = { λ r. record { rest = rest_octets r.rest; failed = r.failed } };
}

/// Puts the frame at this place of a block into a list, and answers the place after it.
#[tactic(auto, using(crate::proofs::Cutting::cuts_one, crate::proofs::Cutting::shorter))]
fn cut_one(
    alloc: Global,
    block: &Bytes,
    at: usize,
    frames: &mut Vec<Frame>,
) -> Result<Option<usize>, FrameFault>
    requires { at ≤ length block.now }
    ensures one { CutsOne (λ next. drop next block.now) (drop at block.now) frames.old.items
        frames.new.items result }
    ensures within { IfOk result (λ next. IfSome next (λ n. n ≤ length block.now)) }
{
    match next_frame(alloc, block, at) {
        Err(fault) => Err(fault),
        Ok(None) => Ok(None),
        Ok(Some((frame, next))) => {
            if frames.push(frame).is_err() {
                return Err(FrameFault::Memory);
            }
            Ok(Some(next))
        }
    }
}

/// Puts the frames of a block into a list, and answers where the octets after them begin.
fn cut(alloc: Global, block: &Bytes, frames: &mut Vec<Frame>) -> Result<usize, FrameFault>
    ensures ok { IfOk result
        (λ at. Cuts block.now (drop at block.now) frames.old.items frames.new.items) }
    ensures none { IfOk result (λ at. fault_shown (drop at block.now) ≡ None) }
    ensures short { IfOk result (λ at. IsShort (drop at block.now)) }
    ensures within { IfOk result (λ at. at ≤ length block.now) }
    ensures err { IfErr result (λ e. CutsTo e block.now frames.old.items frames.new.items) }
{
    let mut at = 0;
    while let Some(next) = cut_one(alloc, block, at, frames)? {
        at = next;
    }
    Ok(at)
}

/// Cuts all frames off a block and puts them into a list. Gives what is left of the block, which
/// begins with the octets held before.
fn cut_block(
    alloc: Global,
    block: Bytes,
    held: usize,
    frames: &mut Vec<Frame>,
) -> (Bytes, Result<(), FrameFault>)
    ensures { LeavesOf block held frames.old.items frames.new.items result.0 result.1 }
{
    let before = frames.len();
    let mut left = block;
    match cut(alloc, &left, frames) {
        Ok(at) => {
            left.advance(at);
            (left, Ok(()))
        }
        Err(FrameFault::Memory) => {
            frames.truncate(before);
            left.truncate(held);
            (left, Err(FrameFault::Memory))
        }
        Err(fault) => {
            left.clear();
            (left, Err(fault))
        }
    }
}

/// Whether a stream showed a fault.
fn shows_fault(outcome: &Result<(), FrameFault>) -> bool
    ensures { result ≡ shows_fault outcome.now }
{
    !matches!(outcome, Ok(()) | Err(FrameFault::Memory))
}

impl Reader {
    /// A reader at the front of a stream.
    pub fn new(alloc: Global) -> Self
        ensures { result ≡ record { rest = []; failed = false } }
    {
        Reader {
            rest: Rest::new(alloc),
            failed: false,
        }
    }

    /// Whether no octets are held of a frame that has not come whole.
    pub fn is_empty(&self) -> bool
        ensures { result ≡ (length self.now.rest == 0) }
    {
        self.rest.len() == 0
    }

    /// Takes the next piece of the stream, and puts each frame that is whole now at the end of a
    /// list. Packets are cut off the octets that came, with no copy: one that is kept keeps the
    /// octets of the piece.
    ///
    /// # Errors
    ///
    /// `BadLength`, `BadKind` and `BadBody` come with the piece that brings the octet at which they
    /// show; the frames before it are put into the list, and every later call answers `Failed` and
    /// changes nothing. `Memory` changes nothing, and the piece may be fed again.
    pub fn feed(
        &mut self,
        alloc: Global,
        piece: &[u8],
        frames: &mut Vec<Frame>,
    ) -> Result<(), FrameFault>
        ensures { Feeds self.old self.new piece.now frames.old.items frames.new.items result }
    {
        if self.failed {
            return Err(FrameFault::Failed);
        }
        let held = self.rest.len();
        if self.rest.add(alloc, piece).is_err() {
            return Err(FrameFault::Memory);
        }
        if let Ok(None) = whole_frame(self.rest.open.as_slice()) {
            return Ok(());
        }
        let Ok(block) = self.rest.freeze(alloc, held) else {
            return Err(FrameFault::Memory);
        };
        let (left, outcome) = cut_block(alloc, block, held, frames);
        self.failed = shows_fault(&outcome);
        self.rest.cut = left;
        outcome
    }
}
