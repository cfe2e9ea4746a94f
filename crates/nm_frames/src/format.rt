//! The kinds of frames, the places of their fields, and their lengths in octets, each named once.
//!
//! A frame is the length of its body and the body, and that is a kind and the kind's fields. All
//! numbers are big-endian. [`laws`](crate::laws) says which kinds and how many octets these are.

/// The kinds of frames, as the first octet of a body. No frame has another one.
pub mod kind {
    /// Who speaks.
    pub const HELLO: u8 = 1;

    /// How many messages of a channel its receiver holds.
    pub const HAVE: u8 = 2;

    /// A message of a channel.
    pub const DATA: u8 = 3;

    /// A null message of a channel.
    pub const NULL: u8 = 4;

    /// The last frame. No kind is greater.
    pub const BYE: u8 = 5;
}

/// The places of a frame's fields, in octets from the front of its body.
pub mod field {
    pub const KIND: usize = 0;

    /// Of a Hello: [`MAGIC`](super::MAGIC).
    pub const MAGIC: usize = 1;

    /// Of a Hello.
    pub const VERSION: usize = 5;

    /// Of a Hello.
    pub const PARTITION: usize = 7;

    /// Of a Hello.
    pub const REPLICA: usize = 11;

    /// Of a Hello, up to its end.
    pub const DIGEST: usize = 12;

    /// Of Have, Data and Null.
    pub const CHANNEL: usize = 1;

    /// Of Have and Null the number of messages, of Data the number of the message.
    pub const COUNT: usize = 5;

    /// Of Data the time at which the packet arrives, of Null the clock.
    pub const TIME: usize = 13;

    /// Of Data, up to its end.
    pub const PACKET: usize = 21;
}

/// The magic octets of a Hello, which show a stranger.
pub const MAGIC: [u8; 4] = *b"NMS1";

/// The octets of a length, which does not count itself.
pub const LENGTH_OCTETS: usize = 4;

/// The octets of a kind.
pub const KIND_OCTETS: usize = 1;

/// The octets of a frame before its fields: the length and the kind.
pub const HEAD_OCTETS: usize = LENGTH_OCTETS + KIND_OCTETS;

/// The octets of a digest: SHA-256 of the topology text.
pub const DIGEST_OCTETS: usize = 32;

/// The octets of a Hello's fields before the digest: the magic octets, and who speaks.
pub const SPEAKER_OCTETS: usize = field::DIGEST - field::MAGIC;

/// The octets of a channel and the number of messages behind it.
pub const CHANNEL_AND_COUNT_OCTETS: usize = field::TIME - field::CHANNEL;

/// The octets of a time.
pub const TIME_OCTETS: usize = field::PACKET - field::TIME;

/// The octets of the body of a Hello.
pub const HELLO_OCTETS: usize = field::DIGEST + DIGEST_OCTETS;

/// The octets of the body of a Have.
pub const HAVE_OCTETS: usize = KIND_OCTETS + CHANNEL_AND_COUNT_OCTETS;

/// The octets of the body of a Data before its packet, which has at least one.
pub const DATA_HEADER_OCTETS: usize = field::PACKET;

/// The octets of the body of a Null.
pub const NULL_OCTETS: usize = HAVE_OCTETS + TIME_OCTETS;

/// The octets of the body of a Bye, which has no fields.
pub const BYE_OCTETS: usize = KIND_OCTETS;
