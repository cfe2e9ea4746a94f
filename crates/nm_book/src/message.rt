//! What partitions send each other.

ghost use Rattle.std.specs.Prelude.{◌≡◌};
ghost use Rattle.nm_book.specs.Book.{message_channel};

use nm_base::{ChanNo, Packet, Time};

/// A message of a channel (J. Misra, 1986, section 2): a packet, and when it arrives.
#[derive(Drop)]
pub struct Data {
    pub channel: ChanNo,
    /// How many messages the channel had before it.
    pub number: u64,
    /// When the packet arrives, in nanoseconds.
    pub time: Time,
    pub packet: Packet,
}

/// A null message (J. Misra, 1986, section 3): all messages of the channel from number `count` on
/// arrive at `clock` or later.
#[derive(Clone, Copy)]
pub struct Null {
    pub channel: ChanNo,
    pub count: u64,
    /// In nanoseconds.
    pub clock: Time,
}

/// A message of a channel, or a null message.
#[derive(Drop)]
pub enum ChannelMessage {
    Data(Data),
    Null(Null),
}

/// A shorter name of a message of a channel.
pub type ChanMsg = ChannelMessage;

impl ChannelMessage {
    /// The channel of the message.
    pub fn channel(&self) -> ChanNo
        ensures { result ≡ message_channel self.now }
    {
        match self {
            ChannelMessage::Data(data) => data.channel,
            ChannelMessage::Null(null) => null.channel,
        }
    }
}
