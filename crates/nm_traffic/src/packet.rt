//! What a source gives to its node.

ghost use Rattle.std.specs.Prelude.{◌≡◌, ℕ, ◌≤◌, List, length, IfOk};

use bytes::Bytes;
use nm_base::{Packet, Time};
use std::alloc::{AllocError, Global};
use std::marker::Model;

/// The data of a UDP datagram, or `NO_DATA` for none; an ICMP message; or the octets of a raw
/// packet: the source decides which of them it is. A clause sees the octets.
#[derive(Clone, Drop)]
pub struct SourcePacket {
    packet: Packet,
}

/// A packet of a source and its time, if there is one; or memory was refused for it.
pub type TimedPacket = Result<Option<(Time, SourcePacket)>, AllocError>;

impl Model for SourcePacket {
    ghost Value = { List ℕ };

    ghost view = { λ p. p.packet };

    ghost inverse = { λ l. record { packet = l } };
}

impl SourcePacket {
    /// These octets, for a node.
    pub fn new(packet: Packet) -> Self
        ensures { result ≡ packet }
    {
        SourcePacket { packet }
    }

    /// The packet of 1 to 65,535 octets.
    pub(crate) fn of_octets(alloc: Global, octets: Vec<u8>) -> Result<Self, AllocError>
        requires least { 1 ≤ length octets.items }
        requires greatest { length octets.items ≤ 65535 }
        ensures { IfOk result (λ p. p ≡ octets.items) }
    {
        let packet = Packet::from_octets(alloc, Bytes::from_vec(octets)?)?;
        Ok(SourcePacket { packet })
    }

    /// The octets.
    pub fn packet(&self) -> &Packet
        ensures { result.now ≡ self.now }
    {
        &self.packet
    }

    /// The octets.
    pub fn into_packet(self) -> Packet
        ensures { result ≡ self }
    {
        self.packet
    }
}
