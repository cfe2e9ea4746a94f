//! Frames at work: written into octets, and read from them in pieces.

ghost use Rattle.std.specs.Prelude.{◌≤◌};

use bytes::Bytes;
use nm_base::{ChanNo, Packet, Time};
use nm_book::Data;
use nm_frames::{Frame, Reader, write_frame};
use std::alloc::Global;
use std::io::{Error, ErrorKind};

/// How many messages are written: each with a packet of 100 octets, in a frame of 125.
const MESSAGES: u64 = 200_000;

/// Octets of many messages.
fn written(alloc: Global) -> Result<Vec<u8>, Error> {
    let octets = Vec::from_slice(alloc, &[69; 100])?;
    let packet = Packet::new(alloc, Bytes::from_vec(octets)?)?.ok_or(ErrorKind::InvalidData)?;
    let mut stream = Vec::new(alloc);
    for number in 0..MESSAGES {
        let frame = Frame::Data(Data {
            channel: ChanNo::new(0),
            number,
            time: Time::from_nanoseconds(number),
            packet: packet.clone()?,
        });
        write_frame(&frame, &mut stream)?;
    }
    Ok(stream)
}

/// The octets are read in pieces of this size, and each frame is dropped: how many there were.
fn read_in(alloc: Global, stream: &[u8], piece: usize) -> Result<u64, Error>
    requires { 1 ≤ piece }
{
    let mut reader = Reader::new(alloc);
    let mut frames = Vec::new(alloc);
    let mut count = 0u64;
    for octets in stream.chunks(piece) {
        if reader.feed(alloc, octets, &mut frames).is_err() {
            return Err(ErrorKind::InvalidData.into());
        }
        count = count.saturating_add(frames.len() as u64);
        frames.clear();
    }
    Ok(count)
}

/// Many messages are written, and read in pieces of this size, if it is not 0: how many octets were
/// written, or frames read.
pub(crate) fn frames_read(alloc: Global, piece: usize) -> Result<u64, Error> {
    let stream = written(alloc)?;
    if piece == 0 {
        return Ok(stream.len() as u64);
    }
    read_in(alloc, &stream, piece)
}
