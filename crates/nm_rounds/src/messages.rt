//! The messages of a channel, given again.

ghost use Rattle.std.specs.Prelude.{◌≡◌, ◌<◌, true, IfOk, OnOk, length};
ghost use Rattle.nm_book.specs.Book.{is_outgoing, sent_over};
ghost use Rattle.nm_rounds.specs.World.{AreMessages, IsPushed};

use nm_base::ChanNo;
use nm_book::{Book, ChannelMessage};
use std::alloc::{AllocError, Global};

/// Message `number` of a channel, which was sent, behind others.
fn push_message(
    messages: &mut Vec<ChannelMessage>,
    book: &Book,
    channel: ChanNo,
    number: u64,
) -> Result<(), AllocError>
    requires goes { is_outgoing book.now channel ≡ true }
    requires sent { number < length (sent_over book.now channel) }
    ensures { OnOk result (IsPushed book.now channel number messages.old.items messages.new.items) }
{
    if let Some(message) = book.data(channel, number)? {
        messages.push(ChannelMessage::Data(message))?;
    }
    Ok(())
}

/// The messages of a channel from number `first` on, of which `count` were sent. There are none
/// from `count` on.
pub(crate) fn messages_from(
    alloc: Global,
    book: &Book,
    channel: ChanNo,
    first: u64,
    count: u64,
) -> Result<Vec<ChannelMessage>, AllocError>
    requires goes { is_outgoing book.now channel ≡ true }
    requires sent { length (sent_over book.now channel) ≡ count }
    ensures { IfOk result (λ v. AreMessages book.now channel first v.items) }
{
    let mut messages = Vec::new(alloc);
    for number in first..count {
        push_message(&mut messages, book, channel, number)?;
    }
    Ok(messages)
}
