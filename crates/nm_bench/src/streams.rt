//! Streams of frames from a file, each in pieces, and what a reader makes of them: what
//! `dev/check/frames` compares with a model of its own.
//!
//! The file has the streams one after another: the number of pieces, and each piece behind its
//! length; numbers have four octets, the greatest first.

use nm_frames::{Frame, Reader};
use std::io::{self, ErrorKind};

/// The number at a place.
fn number_at(octets: &[u8], place: usize) -> Option<usize> {
    let end = place.checked_add(4)?;
    let mut number = 0usize;
    for octet in octets.get(place..end)? {
        number = number.checked_mul(256)?.checked_add(usize::from(*octet))?;
    }
    Some(number)
}

/// The line of a frame.
fn show(rt: &(impl Print + AllocGlobal), frame: &Frame) -> io::Result<()> {
    match frame {
        Frame::Hello(hello) => {
            let digest = hex::encode(rt.alloc(), &hello.digest)?;
            let partition = hello.partition.index();
            println!(rt;
                "hello {} {partition} {} {digest}",
                hello.version, hello.replica
            )?;
        }
        Frame::Have(have) => println!(rt; "have {} {}", have.channel.index(), have.count)?,
        Frame::Data(data) => {
            let packet = hex::encode(rt.alloc(), data.packet.octets())?;
            let time = data.time.nanoseconds();
            println!(rt;
                "data {} {} {time} {packet}",
                data.channel.index(),
                data.number
            )?;
        }
        Frame::Null(null) => {
            let clock = null.clock.nanoseconds();
            println!(rt; "null {} {} {clock}", null.channel.index(), null.count)?;
        }
        Frame::Bye => println!(rt; "bye")?,
    }
    Ok(())
}

/// Reads a stream in its pieces, and shows each frame and each piece that was refused. Gives the
/// place behind the stream.
fn read_stream(
    rt: &(impl Print + AllocGlobal),
    octets: &[u8],
    place: usize,
    pieces: usize,
) -> io::Result<usize> {
    let mut reader = Reader::new(rt.alloc());
    let mut frames = Vec::new(rt.alloc());
    let mut place = place;
    for number in 0..pieces {
        let length = number_at(octets, place).ok_or(ErrorKind::InvalidData)?;
        let front = place.saturating_add(4);
        place = front.saturating_add(length);
        let piece = octets.get(front..place).ok_or(ErrorKind::InvalidData)?;
        if let Err(fault) = reader.feed(rt.alloc(), piece, &mut frames) {
            println!(rt; "piece {number} fault {}", fault.number())?;
        }
        for frame in &frames {
            show(rt, frame)?;
        }
        frames.clear();
    }
    Ok(place)
}

/// Reads the streams of a file: how many there are.
pub(crate) fn read_streams(rt: &(impl Print + AllocGlobal), octets: &[u8]) -> io::Result<u64> {
    let mut place = 0usize;
    let mut count = 0u64;
    for _ in 0..octets.len() {
        let Some(pieces) = number_at(octets, place) else {
            return Ok(count);
        };
        println!(rt; "stream {count}")?;
        place = read_stream(rt, octets, place.saturating_add(4), pieces)?;
        count = count.saturating_add(1);
    }
    Ok(count)
}
