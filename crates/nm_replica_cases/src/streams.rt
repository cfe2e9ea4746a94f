//! Octets to frames, and back. HEX is one word or more in hexadecimal.
//!
//! | Command | Does and answers |
//! |---|---|
//! | `pieces SIZE HEX` | what is read of it in pieces of so many octets, written again: `same` or `other`, and `ok` or the fault |
//! | `cuts HEX` | the same, in two pieces, for each octet at which it can be cut: `same ok` |
//! | `shows HEX` | without the last octet how many frames, `ok`; with it the fault; and then, fed a Bye, `failed` and as many frames |
//! | `greatest SIZE` | the greatest message, read in pieces of so many octets |

use crate::octets::octets_of;
use crate::pieces::{read_in_pieces, word_of, written};
use crate::words::Words;
use nm_frames::{Frame, FrameFault, Reader};
use std::alloc::Global;
use std::io;

/// The octets of a Bye.
const BYE: &[u8] = &[0, 0, 0, 1, 5];

/// Whether frames are written as these octets, and the answer of their reader.
fn compared(
    alloc: Global,
    octets: &[u8],
    frames: &[Frame],
    answer: Result<(), FrameFault>,
) -> io::Result<String> {
    let again = written(alloc, frames)?;
    let same = if again.as_slice() == octets {
        "same"
    } else {
        "other"
    };
    Ok(format!(in alloc; "{same} {}", word_of(answer))?)
}

/// A stream in pieces of so many octets.
fn in_pieces(alloc: Global, octets: &[u8], size: usize) -> io::Result<String> {
    let (frames, answer) = read_in_pieces(alloc, octets, size);
    compared(alloc, octets, &frames, answer)
}

/// A stream in two pieces.
fn in_two(alloc: Global, octets: &[u8], at: usize) -> io::Result<String> {
    let (first, second) = octets.split_at(at.min(octets.len()));
    let mut reader = Reader::new(alloc);
    let mut frames = Vec::new(alloc);
    let before = reader.feed(alloc, first, &mut frames);
    if before.is_err() {
        return compared(alloc, octets, &frames, before);
    }
    let answer = reader.feed(alloc, second, &mut frames);
    compared(alloc, octets, &frames, answer)
}

/// A stream that is cut at each octet.
fn cut_everywhere(alloc: Global, octets: &[u8]) -> io::Result<String> {
    let mut said = String::new(alloc);
    for at in 0..octets.len() {
        said = in_two(alloc, octets, at)?;
        if said.as_str() != "same ok" {
            return Ok(format!(in alloc; "{said} {at}")?);
        }
    }
    Ok(said)
}

/// What the last octet of a stream shows.
fn shows(alloc: Global, octets: &[u8]) -> io::Result<String> {
    let Some((last, front)) = octets.split_last() else {
        return Err(io::Error::other("no octet"));
    };
    let mut reader = Reader::new(alloc);
    let mut frames = Vec::new(alloc);
    let before = word_of(reader.feed(alloc, front, &mut frames));
    let count = frames.len();
    let shown = word_of(reader.feed(alloc, &[*last], &mut frames));
    let then = word_of(reader.feed(alloc, BYE, &mut frames));
    Ok(format!(in alloc; "{count} {before} {shown} {then} {}", frames.len())?)
}

/// The greatest message: 65,560 octets with its length.
fn greatest(alloc: Global) -> io::Result<Vec<u8>> {
    let mut octets = octets_of(
        alloc,
        &["0001001403000000010000000000000002000000000000000300"],
        &[],
    )?;
    octets.resize(65_560, 7)?;
    Ok(octets)
}

/// What a line about streams answers, or None if it is about something else.
pub fn answer(alloc: Global, words: Words) -> io::Result<Option<String>> {
    if words.is("pieces") {
        let octets = octets_of(alloc, words.from(2), &[])?;
        return Ok(Some(in_pieces(alloc, &octets, words.index(1)?)?));
    }
    if words.is("cuts") {
        return Ok(Some(cut_everywhere(alloc, &octets_of(alloc, words.from(1), &[])?)?));
    }
    if words.is("shows") {
        return Ok(Some(shows(alloc, &octets_of(alloc, words.from(1), &[])?)?));
    }
    if words.is("greatest") {
        return Ok(Some(in_pieces(alloc, &greatest(alloc)?, words.index(1)?)?));
    }
    Ok(None)
}
