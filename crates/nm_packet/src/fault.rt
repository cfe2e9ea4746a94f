//! What is wrong with octets that are no packet, each the first test that fails, with its number.

ghost use Rattle.std.specs.Prelude.{◌≡◌};
ghost use Rattle.nm_packet.specs.Fault.{header_fault_number, icmp_fault_number, udp_fault_number};

use std::fmt;
use thiserror::Error;

/// Why octets are no IPv4 packet (RFC 791, section 3.1). Tested in this order.
#[derive(Clone, Copy, Debug, PartialEq, Eq, Error)]
pub enum HeaderFault {
    Short = 1,
    Version = 2,
    Ihl = 3,
    Checksum = 4,
    Total = 5,
}

impl HeaderFault {
    /// The number of the fault, from 1 in the order of the tests.
    pub fn number(self) -> u8
        ensures { result ≡ header_fault_number self }
    {
        self as u8
    }

    /// The fault in words.
    fn message(self) -> &'static str {
        match self {
            HeaderFault::Short => "fewer than 20 octets",
            HeaderFault::Version => "the version is not 4",
            HeaderFault::Ihl =>
                "the header length is below 20 octets, or above the octets that came",
            HeaderFault::Checksum => "the header checksum is wrong",
            HeaderFault::Total =>
                "the total length is below the header length, or above the octets that came",
        }
    }
}

impl fmt::Display for HeaderFault {
    fn fmt<W: fmt::Write>(&self, f: &mut fmt::Formatter<W>) -> fmt::Result {
        f.write_str(self.message())
    }
}

/// Why octets are no UDP datagram (RFC 768). Tested in this order.
#[derive(Clone, Copy, Debug, PartialEq, Eq, Error)]
pub enum UdpFault {
    Short = 1,
    Length = 2,
    Checksum = 3,
}

impl UdpFault {
    /// The number of the fault, from 1 in the order of the tests.
    pub fn number(self) -> u8
        ensures { result ≡ udp_fault_number self }
    {
        self as u8
    }

    /// The fault in words.
    fn message(self) -> &'static str {
        match self {
            UdpFault::Short => "fewer than 8 octets",
            UdpFault::Length => "the length is below 8 octets, or above the octets that came",
            UdpFault::Checksum => "the checksum is wrong",
        }
    }
}

impl fmt::Display for UdpFault {
    fn fmt<W: fmt::Write>(&self, f: &mut fmt::Formatter<W>) -> fmt::Result {
        f.write_str(self.message())
    }
}

/// Why octets are no ICMP message (RFC 792). Tested in this order.
#[derive(Clone, Copy, Debug, PartialEq, Eq, Error)]
pub enum IcmpFault {
    Short = 1,
    Checksum = 2,
}

impl IcmpFault {
    /// The number of the fault, from 1 in the order of the tests.
    pub fn number(self) -> u8
        ensures { result ≡ icmp_fault_number self }
    {
        self as u8
    }

    /// The fault in words.
    fn message(self) -> &'static str {
        match self {
            IcmpFault::Short => "fewer than 8 octets",
            IcmpFault::Checksum => "the checksum is wrong",
        }
    }
}

impl fmt::Display for IcmpFault {
    fn fmt<W: fmt::Write>(&self, f: &mut fmt::Formatter<W>) -> fmt::Result {
        f.write_str(self.message())
    }
}
