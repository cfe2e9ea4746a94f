//! What a replica promises of a channel.

use nm_base::{ChanNo, Time};
use nm_book::{Book, Null};
use std::alloc::Global;
use std::io;

/// The promise, the old one, and how many messages were sent.
type Promised = (Time, Time, u64);

/// Whether a null message has these fields.
fn says(null: Option<Null>, clock: Time, count: u64) -> bool {
    match null {
        Some(null) => null.clock == clock && null.count == count,
        None => false,
    }
}

/// The promise, if the channel goes out.
fn promised(book: &Book, channel: ChanNo) -> Option<Promised> {
    let tight = book.promise(channel)?;
    let old = book.old_promise(channel)?;
    let count = book.out_len(channel)?;
    Some((tight, old, count))
}

/// The promise, the old promise and how many messages were sent, if both null messages agree;
/// `inward` if nothing is promised at all.
pub fn promises(alloc: Global, book: &Book, channel: ChanNo) -> io::Result<String> {
    let (null, old_null) = (book.null(channel), book.old_null(channel));
    let Some((tight, old, count)) = promised(book, channel) else {
        let none = null.is_none() && old_null.is_none() && book.data(channel, 0)?.is_none();
        let word = if none { "inward" } else { "some" };
        return Ok(String::from_str(alloc, word)?);
    };
    if !says(null, tight, count) || !says(old_null, old, count) {
        return Ok(String::from_str(alloc, "unlike")?);
    }
    let (tight, old) = (tight.nanoseconds(), old.nanoseconds());
    Ok(format!(in alloc; "{tight} {old} {count}")?)
}
