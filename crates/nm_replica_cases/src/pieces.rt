//! Frames that octets are read as, in pieces.

use nm_frames::{Frame, FrameFault, Reader, write_frame};
use std::alloc::Global;
use std::io;

/// Frames that octets are read as, fed in pieces of so many, and the answer to the last piece.
pub fn read_in_pieces(
    alloc: Global,
    octets: &[u8],
    size: usize,
) -> (Vec<Frame>, Result<(), FrameFault>) {
    let mut reader = Reader::new(alloc);
    let mut frames = Vec::new(alloc);
    let mut answer = Ok(());
    for piece in octets.chunks(size.max(1)) {
        answer = reader.feed(alloc, piece, &mut frames);
    }
    (frames, answer)
}

/// The octets of frames.
pub fn written(alloc: Global, frames: &[Frame]) -> io::Result<Vec<u8>> {
    let mut out = Vec::new(alloc);
    for frame in frames {
        write_frame(frame, &mut out)?;
    }
    Ok(out)
}

/// The word of an answer of a reader.
pub fn word_of(answer: Result<(), FrameFault>) -> &'static str {
    match answer {
        Ok(()) => "ok",
        Err(FrameFault::BadLength) => "badlength",
        Err(FrameFault::BadKind) => "badkind",
        Err(FrameFault::BadBody) => "badbody",
        Err(FrameFault::Failed) => "failed",
        Err(FrameFault::Memory) => "memory",
    }
}
