//! The use of a frame that a session took.

use nm_book::message::ChannelMessage;

/// The use of a frame.
#[derive(Drop)]
pub enum Taken {
    /// It says who the peer is.
    Greeted,
    /// It says how many messages of a channel the peer holds.
    Cursor,
    /// It is for the book, which accepts it on a channel.
    ForBook(ChannelMessage),
    /// The peer sends no more.
    Ended,
}
