//! What a session gives next of its channels.

ghost use Rattle.std.specs.Prelude.{◌≡◌, None, IfOk, if◌then◌else◌};
ghost use Rattle.std.specs.List.{list_all};
ghost use Rattle.nm_book.specs.Book.{is_outgoing, null_on, only_if};
ghost use Rattle.nm_frames.specs.Owed.{MayHaveNext, have_owed, is_last, is_told, message_owed};
ghost use Rattle.nm_frames.specs.Owed.{null_owed, owed_at};
ghost use Rattle.nm_frames.specs.Version.{promising};

use crate::frame::{Frame, Have};
use crate::side::{ChannelIn, ChannelOut};
use crate::version::Version;
use nm_base::ChanNo;
use nm_book::Book;
use nm_book::message::Null;
use std::alloc::AllocError;

/// Have for the first channel for which it was not given.
pub(crate) fn next_have(incoming: &[ChannelIn], book: &Book) -> Option<Frame>
    ensures owed { result ≡ have_owed book.now incoming.now }
    ensures next { MayHaveNext result }
{
    for side in incoming {
        if side.have_given {
            continue;
        }
        if let Some(know) = book.know(side.channel) {
            return Some(Frame::Have(Have {
                channel: side.channel,
                count: know.len() as u64,
            }));
        }
    }
    None
}

/// The null message of a channel in a session of this version.
fn null_of(book: &Book, version: Version, channel: ChanNo) -> Option<Null>
    ensures { result ≡ only_if (is_outgoing book.now channel)
        (null_on (promising version) book.now channel) }
{
    match version {
        Version::One => book.old_null(channel),
        Version::Two => book.null(channel),
    }
}

/// Whether the last null message had the same fields.
fn is_last(last: &Option<Null>, null: &Null) -> bool
    ensures { result ≡ is_last last.now null.now }
{
    match last {
        None => false,
        Some(last) => last.count == null.count && last.clock == null.clock,
    }
}

/// The null message, if it is not the last one.
fn next_null(last: &Option<Null>, null: Null) -> Option<Frame>
    ensures { result ≡ null_owed last.now null }
{
    if is_last(last, &null) {
        return None;
    }
    Some(Frame::Null(null))
}

/// What is owed on a channel.
fn next_at(side: &ChannelOut, version: Version, book: &Book) -> Result<Option<Frame>, AllocError>
    ensures owed { IfOk result (λ f. f ≡ if is_outgoing book.now side.now.channel
        then owed_at book.now (promising version) side.now side.now.cursor else None) }
    ensures next { IfOk result MayHaveNext }
{
    let Some(number) = side.cursor else {
        return Ok(None);
    };
    let Some(null) = null_of(book, version, side.channel) else {
        return Ok(None);
    };
    if number > null.count {
        return Ok(None);
    }
    if number == null.count {
        return Ok(next_null(&side.last_null, null));
    }
    match book.data(side.channel, number)? {
        None => Ok(None),
        Some(message) => Ok(Some(Frame::Data(message))),
    }
}

/// What is owed on the first channel on which something is.
pub(crate) fn next_message(
    outgoing: &[ChannelOut],
    version: Version,
    book: &Book,
) -> Result<Option<Frame>, AllocError>
    ensures owed { IfOk result
        (λ f. f ≡ message_owed book.now (promising version) outgoing.now) }
    ensures next { IfOk result MayHaveNext }
{
    for side in outgoing {
        match next_at(side, version, book) {
            Err(error) => return Err(error),
            Ok(None) => {}
            Ok(Some(frame)) => return Ok(Some(frame)),
        }
    }
    Ok(None)
}

/// Whether all messages of a channel were given, and its null message last.
fn is_told(side: &ChannelOut, version: Version, book: &Book) -> bool
    ensures { result ≡ is_told book.now (promising version) side.now }
{
    let Some(number) = side.cursor else {
        return false;
    };
    let Some(null) = null_of(book, version, side.channel) else {
        return false;
    };
    number == null.count && is_last(&side.last_null, &null)
}

/// Whether that holds of each.
pub(crate) fn are_told(outgoing: &[ChannelOut], version: Version, book: &Book) -> bool
    ensures { result ≡ list_all (λ o. is_told book.now (promising version) o) outgoing.now }
{
    for side in outgoing {
        if !is_told(side, version, book) {
            return false;
        }
    }
    true
}
