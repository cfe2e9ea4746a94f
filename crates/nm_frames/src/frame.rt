//! Frames: what the two ends of a connection send each other.

use crate::format::DIGEST_OCTETS;
use nm_base::{ChanNo, PartNo};
use nm_book::message::{Data, Null};

/// Who speaks: the first frame of each end.
#[derive(Clone, Copy)]
pub struct Hello {
    pub version: u16,
    pub partition: PartNo,
    pub replica: u8,
    /// SHA-256 of the topology text.
    pub digest: [u8; DIGEST_OCTETS],
}

/// How many messages of a channel its receiver holds, which is the number of the next one.
#[derive(Clone, Copy)]
pub struct Have {
    pub channel: ChanNo,
    pub count: u64,
}

/// What one end of a connection sends the other.
#[derive(Drop)]
pub enum Frame {
    Hello(Hello),
    Have(Have),
    Data(Data),
    Null(Null),
    /// The last frame.
    Bye,
}
