//! ICMP messages (RFC 792).

ghost use Rattle.std.specs.Prelude.{◌≡◌, ◌+◌, ◌≤◌, List, [], ℕ, length, Some, None, Ok, IfOk};
ghost use Rattle.std.specs.Prelude.{MatchResult};
ghost use Rattle.nm_packet.specs.declared.limits.TheConstants.{MAX_DATAGRAM_DATA, MAX_PACKET_DATA};
ghost use Rattle.nm_packet.specs.Ipv4.{IsIpv4, checked, packet_octets, plain_header};
ghost use Rattle.nm_packet.specs.Icmp.{IcmpHeader, IsIcmp, icmp_checked, icmp_data_of, icmp_fault};
ghost use Rattle.nm_packet.specs.Icmp.{icmp_fields_of, icmp_header, icmp_octets, message_octets};
ghost use Rattle.nm_packet.specs.Octets.{word_at};

use crate::checksum::sum_words;
use crate::fault::IcmpFault;
use crate::ipv4::{Ipv4Header, write_in_parts};
use crate::octets::{set_word, word_at};
use nm_base::Packet;
use std::alloc::{AllocError, Global};
use std::marker::Model;

/// The places of a message's fields, in octets from its front (RFC 792).
mod field {
    pub const MESSAGE_TYPE: usize = 0;

    pub const CODE: usize = 1;

    pub const CHECKSUM: usize = 2;

    /// What the type gives a meaning.
    pub const REST: usize = 4;

    /// Of an echo request or reply, in the rest.
    pub const IDENTIFIER: usize = 4;

    /// Of an echo request or reply, in the rest.
    pub const SEQUENCE_NUMBER: usize = 6;

    pub const DATA: usize = 8;
}

/// The octets before the data.
const HEADER_OCTETS: usize = field::DATA;

/// The number of the protocol in an IPv4 header.
pub const PROTOCOL: u8 = 1;

/// The type of an echo reply (RFC 792, page 14).
pub const ECHO_REPLY: u8 = 0;

/// The type of an error about a packet that did not reach its destination (RFC 792, page 4).
pub const DESTINATION_UNREACHABLE: u8 = 3;

/// The type of a message that asks for less (RFC 792, page 10). No node here sends one.
pub const SOURCE_QUENCH: u8 = 4;

/// The type of a message that names another router (RFC 792, page 12). No node here sends one.
pub const REDIRECT: u8 = 5;

/// The type of an echo request (RFC 792, page 14).
pub const ECHO_REQUEST: u8 = 8;

/// The type of an error about a packet whose time is over (RFC 792, page 6).
pub const TIME_EXCEEDED: u8 = 11;

/// The type of an error about a header (RFC 792, page 8). No node here sends one.
pub const PARAMETER_PROBLEM: u8 = 12;

/// The code of an echo request or reply (RFC 792, page 14).
pub const ECHO_CODE: u8 = 0;

/// Of [`DESTINATION_UNREACHABLE`]: no route leads to the network (RFC 792, page 4).
pub const NETWORK_UNREACHABLE: u8 = 0;

/// Of [`DESTINATION_UNREACHABLE`]: the host does not know the protocol (RFC 792, page 4).
pub const PROTOCOL_UNREACHABLE: u8 = 2;

/// Of [`DESTINATION_UNREACHABLE`]: nothing listens at the port (RFC 792, page 4).
pub const PORT_UNREACHABLE: u8 = 3;

/// Of [`TIME_EXCEEDED`]: the time to live was over on the way (RFC 792, page 6).
pub const IN_TRANSIT: u8 = 0;

/// The protocol ICMP.
#[derive(Clone, Copy)]
pub struct Icmp;

/// What a message is: its type, and its code among those of the type.
#[derive(Clone, Copy)]
pub struct MessageKind {
    pub message_type: u8,
    pub code: u8,
}

/// A message that passed the tests. A clause sees its octets.
#[derive(Drop)]
pub struct IcmpView<'a> {
    octets: &'a [u8],
}

impl<'a> Model for IcmpView<'a> {
    ghost Value = { List ℕ };

    ghost view = { λ v. v.octets.now };

    ghost invariant = { λ v. 8 ≤ length v.octets.now };
}

/// The octets of the header with this checksum. The meaning of the last four depends on the type.
fn header_with(kind: MessageKind, checksum: u16, rest: [u8; 4]) -> [u8; HEADER_OCTETS]
    ensures { result ≡ icmp_octets (record (icmp_header kind rest) { checksum = checksum }) [] }
{
    let mut octets = [0; HEADER_OCTETS];
    octets[field::MESSAGE_TYPE] = kind.message_type;
    octets[field::CODE] = kind.code;
    set_word(&mut octets, field::CHECKSUM, checksum);
    octets[field::REST..].copy_from_slice(&rest);
    octets
}

/// The octets before these data, with their checksum.
fn header(kind: MessageKind, rest: [u8; 4], data: &[u8]) -> [u8; HEADER_OCTETS]
    ensures { result ≡ icmp_octets (icmp_checked (icmp_header kind rest) «data».now) [] }
{
    let sum = sum_words(sum_words(0, &header_with(kind, 0, rest)), data);
    header_with(kind, !sum, rest)
}

impl Icmp {
    /// The message that these octets are, all of them, lent and not copied.
    pub fn read(octets: &[u8]) -> Result<IcmpView<'_>, IcmpFault>
        // What is read is a message, spelled by its fields and its data.
        ensures found { IfOk result (λ v. IsIcmp (icmp_fields_of v) (icmp_data_of v) v) }
        // A message is read.
        ensures only { (h : IcmpHeader) (payload : List ℕ) → IsIcmp h payload octets.now
            → result ≡ Ok octets.now }
        // Which octets these are, and which fault it is.
        ensures exact { MatchResult result
            (λ v. (icmp_fault octets.now ≡ None) × (v ≡ octets.now))
            (λ e. icmp_fault octets.now ≡ Some e) }
    {
        tested(octets)
    }

    /// The message of this kind, with this rest of the header and these data. Up to
    /// [`MAX_PACKET_DATA`](crate::limits::MAX_PACKET_DATA) octets of data fit a packet.
    pub fn write(
        alloc: Global,
        kind: MessageKind,
        rest: [u8; 4],
        data: &[u8],
    ) -> Result<Vec<u8>, AllocError>
        requires { length «data».now ≤ MAX_DATAGRAM_DATA }
        ensures value { IfOk result
            (λ v. v.items ≡ message_octets (icmp_header kind rest) «data».now) }
        ensures grammar { IfOk result
            (λ v. IsIcmp (icmp_checked (icmp_header kind rest) «data».now) «data».now v.items) }
    {
        let mut octets = Vec::with_capacity(alloc, HEADER_OCTETS + data.len())?;
        octets.extend_from_slice(&header(kind, rest, data))?;
        octets.extend_from_slice(data)?;
        Ok(octets)
    }

    /// A packet with such a message as its payload. The header's protocol should be
    /// [`PROTOCOL`].
    pub fn write_packet(
        alloc: Global,
        packet_header: &Ipv4Header,
        kind: MessageKind,
        rest: [u8; 4],
        data: &[u8],
    ) -> Result<Packet, AllocError>
        requires { length «data».now ≤ MAX_PACKET_DATA }
        ensures value { IfOk result (λ p. p ≡ packet_octets
            (plain_header packet_header.now (8 + length «data».now))
            (message_octets (icmp_header kind rest) «data».now)) }
        ensures grammar { IfOk result (IsIpv4
            (checked (plain_header packet_header.now (8 + length «data».now)))
            (message_octets (icmp_header kind rest) «data».now)) }
    {
        let front = header(kind, rest, data);
        write_in_parts(alloc, packet_header, &front, data)
    }
}

/// The message that these octets are, or the first test that fails.
fn tested(octets: &[u8]) -> Result<IcmpView<'_>, IcmpFault>
    ensures { MatchResult result (λ v. (icmp_fault octets.now ≡ None) × (v ≡ octets.now))
        (λ e. icmp_fault octets.now ≡ Some e) }
{
    if octets.len() < HEADER_OCTETS {
        return Err(IcmpFault::Short);
    }
    if sum_words(0, octets) != 0xffff {
        return Err(IcmpFault::Checksum);
    }
    Ok(IcmpView { octets })
}

impl<'a> IcmpView<'a> {
    /// The octets of the message.
    pub fn octets(&self) -> &'a [u8]
        ensures value { result.now ≡ self.now }
        ensures least { 8 ≤ length self.now }
    {
        self.octets
    }

    /// What the message is, as [`ECHO_REQUEST`] or [`TIME_EXCEEDED`].
    pub fn message_type(&self) -> u8
        ensures { result ≡ (icmp_fields_of self.now).message_type }
    {
        self.octets[field::MESSAGE_TYPE]
    }

    pub fn code(&self) -> u8
        ensures { result ≡ (icmp_fields_of self.now).code }
    {
        self.octets[field::CODE]
    }

    pub fn checksum(&self) -> u16
        ensures { result ≡ (icmp_fields_of self.now).checksum }
    {
        word_at(self.octets, field::CHECKSUM)
    }

    /// The last four octets of the header, whose meaning depends on the type.
    pub fn rest(&self) -> [u8; 4]
        ensures { result ≡ (icmp_fields_of self.now).rest }
    {
        [
            self.octets[field::REST],
            self.octets[field::REST + 1],
            self.octets[field::REST + 2],
            self.octets[field::REST + 3],
        ]
    }

    /// The identifier of an echo request or reply: the first half of the rest of the header.
    pub fn identifier(&self) -> u16
        ensures { result ≡ word_at (icmp_fields_of self.now).rest 0 }
    {
        word_at(self.octets, field::IDENTIFIER)
    }

    /// The sequence number of an echo request or reply: the second half of the rest of the header.
    pub fn sequence_number(&self) -> u16
        ensures { result ≡ word_at (icmp_fields_of self.now).rest 2 }
    {
        word_at(self.octets, field::SEQUENCE_NUMBER)
    }

    /// What follows the header.
    pub fn data(&self) -> &'a [u8]
        ensures { result.now ≡ icmp_data_of self.now }
    {
        &self.octets[field::DATA..]
    }
}
