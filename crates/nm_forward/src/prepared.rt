//! A packet to be sent, and what a node is about to do.

ghost use Rattle.std.specs.Prelude.{◌≡◌};
ghost use Rattle.nm_forward.specs.Prepared.{body_of};
ghost use Rattle.nm_forward.specs.Originate.{protocol_of};

use crate::counter::Counter;
use nm_base::{IfaceNo, Twin};
use nm_packet::{Address, MessageKind, Ports, icmp, udp};

/// What follows the counter of a row, with its memory taken.
#[derive(Drop)]
pub enum Prepared {
    Nothing,
    /// A further counter rises.
    Counts(Counter),
    /// A packet is sent on by this interface.
    Sends(IfaceNo, Twin),
    /// A packet is originated, and leaves by this interface.
    Originates(IfaceNo, Twin),
}

/// What follows a source's packet, with its memory taken.
#[derive(Drop)]
pub enum Handed {
    /// It goes by this interface as it is.
    AsItIs(IfaceNo, Twin),
    /// A packet with it is originated, or is not.
    InPacket(Prepared),
}

/// The payload of a packet that is to be originated.
#[derive(Clone, Copy)]
pub enum Body<'a> {
    /// A UDP datagram.
    Datagram {
        ports: Ports,
        data: &'a [u8],
    },
    /// An ICMP message of these parts.
    Message {
        kind: MessageKind,
        rest: [u8; 4],
        data: &'a [u8],
    },
    /// An ICMP message, octet by octet.
    Whole(&'a [u8]),
}

impl Body<'_> {
    /// The number of its protocol in an IPv4 header.
    pub fn protocol(&self) -> u8
        ensures { result ≡ protocol_of (body_of self.now) }
    {
        match self {
            Body::Datagram { .. } => udp::PROTOCOL,
            Body::Message { .. } | Body::Whole(_) => icmp::PROTOCOL,
        }
    }
}

/// A packet that is to be originated.
#[derive(Clone, Copy)]
pub struct Draft<'a> {
    /// The address that it comes from, if not that of the interface by which it leaves.
    pub source: Option<Address>,
    pub destination: Address,
    pub time_to_live: u8,
    pub body: Body<'a>,
}
