//! Sources of traffic.

ghost use Rattle.std.specs.Prelude.{◌≡◌};

use nm_base::{IfaceNo, NodeNo, Packet, Time};
use nm_packet::Address;
use std::marker::Model;

/// Packet n of a source, for n from 0 below `count`, is at `start` + n * `interval` nanoseconds.
#[derive(Clone, Copy, PartialEq, Eq)]
pub struct Flow {
    /// Octets of data in each packet.
    pub size: u16,
    /// Each data octet.
    pub fill: u8,
    pub start: Time,
    /// Nanoseconds, 1 to 10^12.
    pub interval: u64,
    /// How many packets, 0 to 10^9.
    pub count: u32,
    /// The time to live of each packet, 1 to 255.
    pub ttl: u8,
}

/// UDP datagrams at a constant bit rate.
#[derive(Clone, Copy, PartialEq, Eq)]
pub struct Cbr {
    pub to: Address,
    pub source_port: u16,
    pub destination_port: u16,
    pub flow: Flow,
}

/// Echo requests (RFC 792).
#[derive(Clone, Copy, PartialEq, Eq)]
pub struct Echo {
    pub to: Address,
    pub identifier: u16,
    pub flow: Flow,
}

/// Octets that an interface gets as they are.
#[derive(Drop)]
pub struct RawPacket {
    pub at: Time,
    pub packet: Packet,
}

/// Packets that an interface gets as they are, one after another.
#[derive(Drop)]
pub struct Raw {
    via: IfaceNo,
    packets: Vec<RawPacket>,
}

impl Model for Raw {
    ghost use Rattle.nm_topology.specs.RawValue.{RawValue};

    ghost Value = { RawValue };

    ghost view = { λ r. record { via = r.via; packets = r.packets.items } };
}

impl Raw {
    /// Packets for this interface.
    pub fn new(via: IfaceNo, packets: Vec<RawPacket>) -> Self
        ensures { result ≡ record { via = via; packets = packets.items } }
    {
        Raw { via, packets }
    }

    /// The interface.
    pub fn via(&self) -> IfaceNo
        ensures { result ≡ self.now.via }
    {
        self.via
    }

    /// The packets, in the order of their times.
    pub fn packets(&self) -> &[RawPacket]
        ensures { result.now ≡ self.now.packets }
    {
        &self.packets
    }
}

/// What a source sends.
#[derive(Drop)]
pub enum Traffic {
    Cbr(Cbr),
    Echo(Echo),
    Raw(Raw),
}

/// A source of traffic at a node.
#[derive(Drop)]
pub struct Source {
    pub node: NodeNo,
    pub traffic: Traffic,
}
