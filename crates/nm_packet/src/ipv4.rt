//! IPv4 packets (RFC 791, section 3.1).

ghost use Rattle.std.specs.Prelude.{IfOk, Ok, ◌++◌, ◌≡◌, ◌+◌, ◌==◌, ◌%◌, ◌<◌, ◌≤◌, List, ℕ, length};
ghost use Rattle.std.specs.Prelude.{None, Some, MatchResult};
ghost use Rattle.std.specs.Bool.{OnTrue, OnFalse};
ghost use Rattle.nm_base.specs.declared.limits.TheConstants.{MAX_PACKET_OCTETS};
ghost use Rattle.nm_base.specs.Packet.{overwritten};
ghost use Rattle.nm_packet.specs.declared.limits.TheConstants.{MAX_PAYLOAD};
ghost use Rattle.nm_packet.specs.Octets.{IsOctets};
ghost use Rattle.nm_packet.specs.Ipv4.{Header, HeaderFits, IsIpv4, IsPacket, checked, cut_of};
ghost use Rattle.nm_packet.specs.Ipv4.{fields_of, header_fault, header_length_of, header_octets};
ghost use Rattle.nm_packet.specs.Ipv4.{header_of, lowered, packet_octets, payload_of, plain_header};
ghost use Rattle.nm_packet.specs.Ipv4.{quote_of};

use crate::Address;
use crate::checksum::{checksum_of, sum_header, updated_checksum};
use crate::fault::HeaderFault;
use crate::octets::{long_word_at, set_long_word, set_word, word, word_at};
use bytes::BytesMut;
use nm_base::Packet;
use std::alloc::{AllocError, Global};
use std::marker::Model;

/// The places of a header's fields, in octets from its front (RFC 791, section 3.1).
mod field {
    /// The version in the high four bits, and the length of the header in the low ones.
    pub const VERSION_AND_IHL: usize = 0;

    pub const TYPE_OF_SERVICE: usize = 1;

    pub const TOTAL_LENGTH: usize = 2;

    pub const IDENTIFICATION: usize = 4;

    /// The flags in the high three bits, and the fragment offset in the others.
    pub const FLAGS_AND_OFFSET: usize = 6;

    pub const TIME_TO_LIVE: usize = 8;

    pub const PROTOCOL: usize = 9;

    pub const HEADER_CHECKSUM: usize = 10;

    pub const SOURCE: usize = 12;

    pub const DESTINATION: usize = 16;

    pub const OPTIONS: usize = 20;
}

/// The octets of a header without options.
pub(crate) const LEAST_HEADER_OCTETS: usize = field::OPTIONS;

/// The octets of the payload that an error message quotes, at most.
const QUOTED_PAYLOAD_OCTETS: usize = 8;

/// The protocol IPv4.
#[derive(Clone, Copy)]
pub struct Ipv4;

/// A packet whose header passed the tests, over the octets up to its total length. A clause sees
/// these octets.
#[derive(Drop)]
pub struct Ipv4View<'a> {
    octets: &'a [u8],
}

impl<'a> Model for Ipv4View<'a> {
    ghost Value = { List ℕ };

    ghost view = { λ v. v.octets.now };

    ghost invariant = { λ v. IsPacket v.octets.now × IsOctets v.octets.now };
}

/// The octets of the header, by its field in words of four octets.
#[inline(always)]
fn header_length(octets: &[u8]) -> usize
    requires { 0 < length octets.now }
    ensures { result ≡ header_length_of octets.now }
{
    4 * usize::from(octets[field::VERSION_AND_IHL] & 0x0f)
}

/// The packet at the front of these octets, or the first test that fails.
#[inline(always)]
fn tested(octets: &[u8]) -> Result<Ipv4View<'_>, HeaderFault>
    ensures exact { MatchResult result
        (λ v. (header_fault octets.now ≡ None) × (v ≡ cut_of octets.now))
        (λ e. header_fault octets.now ≡ Some e) }
    ensures packet { IfOk result (λ v. IsPacket v × IsOctets v) }
{
    if octets.len() < LEAST_HEADER_OCTETS {
        return Err(HeaderFault::Short);
    }
    if octets[field::VERSION_AND_IHL] >> 4 != 4 {
        return Err(HeaderFault::Version);
    }
    let header_length = header_length(octets);
    if header_length < LEAST_HEADER_OCTETS || octets.len() < header_length {
        return Err(HeaderFault::Ihl);
    }
    if sum_header(&octets[..header_length]) != 0xffff {
        return Err(HeaderFault::Checksum);
    }
    let total_length = usize::from(word_at(octets, field::TOTAL_LENGTH));
    if total_length < header_length || octets.len() < total_length {
        return Err(HeaderFault::Total);
    }
    Ok(Ipv4View {
        octets: &octets[..total_length],
    })
}

impl Ipv4 {
    /// The packet at the front of these octets, which are lent and not copied. What follows its
    /// total length is left out.
    #[inline(always)]
    pub fn read(octets: &[u8]) -> Result<Ipv4View<'_>, HeaderFault>
        // What is read is a packet, spelled by its fields and its payload.
        ensures found { IfOk result (λ v. IsIpv4 (fields_of v) (payload_of v) v) }
        // A packet is read, whatever follows it.
        ensures only { (h : Header) (payload packet rest : List ℕ) → IsIpv4 h payload packet
            → octets.now ≡ packet ++ rest → result ≡ Ok packet }
        // Which octets these are, and which fault it is.
        ensures exact { MatchResult result
            (λ v. (header_fault octets.now ≡ None) × (v ≡ cut_of octets.now))
            (λ e. header_fault octets.now ≡ Some e) }
    {
        tested(octets)
    }
}

impl<'a> Ipv4View<'a> {
    /// The octets of the packet, header and payload.
    pub fn octets(&self) -> &'a [u8]
        ensures value { result.now ≡ self.now }
        ensures packet { IsPacket self.now }
        ensures small { IsOctets self.now }
    {
        self.octets
    }

    /// The length of the header in words of four octets, 5 to 15.
    pub fn ihl(&self) -> u8
        ensures { result ≡ (fields_of self.now).ihl }
    {
        self.octets[field::VERSION_AND_IHL] & 0x0f
    }

    pub fn type_of_service(&self) -> u8
        ensures { result ≡ (fields_of self.now).type_of_service }
    {
        self.octets[field::TYPE_OF_SERVICE]
    }

    /// The octets of header and payload.
    pub fn total_length(&self) -> u16
        ensures { result ≡ (fields_of self.now).total_length }
    {
        word_at(self.octets, field::TOTAL_LENGTH)
    }

    pub fn identification(&self) -> u16
        ensures { result ≡ (fields_of self.now).identification }
    {
        word_at(self.octets, field::IDENTIFICATION)
    }

    /// The three bits of the flags: 4 is reserved, 2 is don't fragment, 1 is more fragments.
    pub fn flags(&self) -> u8
        ensures { result ≡ (fields_of self.now).flags }
    {
        (word_at(self.octets, field::FLAGS_AND_OFFSET) >> 13) as u8
    }

    /// Whether the flag is set that more fragments follow.
    pub fn more_fragments(&self) -> bool
        ensures { result ≡ ((fields_of self.now).flags % 2 == 1) }
    {
        self.flags() & 1 == 1
    }

    /// The place of the fragment in its datagram, in units of eight octets.
    pub fn fragment_offset(&self) -> u16
        ensures { result ≡ (fields_of self.now).fragment_offset }
    {
        word_at(self.octets, field::FLAGS_AND_OFFSET) & 0x1fff
    }

    pub fn time_to_live(&self) -> u8
        ensures { result ≡ (fields_of self.now).time_to_live }
    {
        self.octets[field::TIME_TO_LIVE]
    }

    /// The number of the protocol of the payload: 1 is ICMP, 17 is UDP.
    pub fn protocol(&self) -> u8
        ensures { result ≡ (fields_of self.now).protocol }
    {
        self.octets[field::PROTOCOL]
    }

    pub fn header_checksum(&self) -> u16
        ensures { result ≡ (fields_of self.now).header_checksum }
    {
        word_at(self.octets, field::HEADER_CHECKSUM)
    }

    pub fn source(&self) -> Address
        ensures { result ≡ (fields_of self.now).source }
    {
        Address::from_bits(long_word_at(self.octets, field::SOURCE))
    }

    pub fn destination(&self) -> Address
        ensures { result ≡ (fields_of self.now).destination }
    {
        Address::from_bits(long_word_at(self.octets, field::DESTINATION))
    }

    /// The options as they came, with their padding.
    pub fn options(&self) -> &'a [u8]
        ensures { result.now ≡ (fields_of self.now).options }
    {
        &self.header()[field::OPTIONS..]
    }

    /// The octets of the header, with its options.
    pub fn header(&self) -> &'a [u8]
        ensures value { result.now ≡ header_of self.now }
        ensures least { 20 ≤ length result.now }
        ensures greatest { length result.now ≤ 60 }
    {
        &self.octets[..header_length(self.octets)]
    }

    /// What follows the header.
    pub fn payload(&self) -> &'a [u8]
        ensures value { result.now ≡ payload_of self.now }
        ensures greatest { length result.now ≤ MAX_PAYLOAD }
    {
        &self.octets[header_length(self.octets)..]
    }
}

/// The fields that a writer of packets chooses. The rest is plain: no options, no flags, no
/// fragment.
#[derive(Clone, Copy)]
pub struct Ipv4Header {
    pub type_of_service: u8,
    pub identification: u16,
    pub time_to_live: u8,
    /// The number of the protocol of the payload: 1 is ICMP, 17 is UDP.
    pub protocol: u8,
    pub source: Address,
    pub destination: Address,
}

impl Ipv4Header {
    /// The octets of the header with this checksum, before a payload of so many octets.
    fn octets_with(self, size: u16, checksum: u16) -> [u8; LEAST_HEADER_OCTETS]
        requires { size ≤ MAX_PAYLOAD }
        ensures value { result
            ≡ header_octets (record (plain_header self size) { header_checksum = checksum }) }
        ensures fits { HeaderFits (record (plain_header self size) { header_checksum = checksum }) }
    {
        let mut octets = [0; LEAST_HEADER_OCTETS];
        octets[field::VERSION_AND_IHL] = 0x45;
        octets[field::TYPE_OF_SERVICE] = self.type_of_service;
        set_word(&mut octets, field::TOTAL_LENGTH, 20 + size);
        set_word(&mut octets, field::IDENTIFICATION, self.identification);
        octets[field::TIME_TO_LIVE] = self.time_to_live;
        octets[field::PROTOCOL] = self.protocol;
        set_word(&mut octets, field::HEADER_CHECKSUM, checksum);
        set_long_word(&mut octets, field::SOURCE, self.source.bits());
        set_long_word(&mut octets, field::DESTINATION, self.destination.bits());
        octets
    }

    /// The octets of the header before a payload of so many octets.
    fn octets(&self, size: u16) -> [u8; LEAST_HEADER_OCTETS]
        requires { size ≤ MAX_PAYLOAD }
        ensures value { result ≡ header_octets (checked (plain_header self.now size)) }
        ensures fits { HeaderFits (plain_header self.now size) }
    {
        let others = self.octets_with(size, 0);
        self.octets_with(size, checksum_of(&others))
    }
}

/// The packet with this header and this payload, which may have up to 65,515 octets.
pub fn write_ipv4(alloc: Global, header: &Ipv4Header, payload: &[u8]) -> Result<Packet, AllocError>
    requires { length payload.now ≤ MAX_PAYLOAD }
    ensures value { IfOk result
        (λ p. p ≡ packet_octets (plain_header header.now (length payload.now)) payload.now) }
    ensures grammar { IfOk result
        (IsIpv4 (checked (plain_header header.now (length payload.now))) payload.now) }
{
    write_in_parts(alloc, header, &[], payload)
}

/// The packet with this header and a payload that is given in two parts.
pub(crate) fn write_in_parts(
    alloc: Global,
    header: &Ipv4Header,
    front: &[u8],
    back: &[u8],
) -> Result<Packet, AllocError>
    requires { length front.now + length back.now ≤ MAX_PAYLOAD }
    ensures value { IfOk result (λ p. p ≡ packet_octets
        (plain_header header.now (length front.now + length back.now)) (front.now ++ back.now)) }
    ensures grammar { IfOk result (IsIpv4
        (checked (plain_header header.now (length front.now + length back.now)))
        (front.now ++ back.now)) }
{
    let size = front.len() + back.len();
    let mut octets = BytesMut::with_capacity(alloc, LEAST_HEADER_OCTETS + size)?;
    octets.extend_from_slice(&header.octets(size as u16))?;
    octets.extend_from_slice(front)?;
    octets.extend_from_slice(back)?;
    Packet::from_own(alloc, octets)
}

/// What an error message quotes of a packet (RFC 792): its header as it came, with its options, and
/// the first eight octets of its payload, or all of them if there are fewer. At most 68 octets.
pub fn quote(alloc: Global, packet: &Ipv4View<'_>) -> Result<Vec<u8>, AllocError>
    ensures value { IfOk result (λ v. v.items ≡ quote_of packet.now) }
    ensures greatest { IfOk result (λ v. length v.items ≤ 68) }
{
    let octets = packet.octets();
    let end = header_length(octets) + QUOTED_PAYLOAD_OCTETS;
    Vec::from_slice(alloc, &octets[..end.min(octets.len())])
}

/// The packet one hop on: its time to live is one less and its header checksum is that of the new
/// header, and nothing else changes, options and payload included. Asks for a time to live of at
/// least 1; the octets are copied once.
///
/// # Errors
///
/// `AllocError` if memory was refused.
pub fn lower_ttl(alloc: Global, packet: &Ipv4View<'_>) -> Result<Packet, AllocError>
    requires { 1 ≤ (fields_of packet.now).time_to_live }
    ensures value { IfOk result
        (λ p. p ≡ packet_octets (lowered (fields_of packet.now)) (payload_of packet.now)) }
    ensures grammar { IfOk result
        (IsIpv4 (checked (lowered (fields_of packet.now))) (payload_of packet.now)) }
{
    let time_to_live = packet.time_to_live() - 1;
    let checksum = lowered_checksum(packet);
    lowered_packet(alloc, packet.octets(), time_to_live, checksum)
}

/// Makes a packet the one that is one hop on, as `lower_ttl` has it, in its own octets, if
/// nobody else has them. Whether it did; else nothing changed. Asks for a time to live of at
/// least 1. It takes no memory.
pub fn lower_in_place(packet: &mut Packet) -> bool
    requires packet { IsPacket packet.old }
    requires live { 1 ≤ (fields_of packet.old).time_to_live }
    ensures lowered { OnTrue result (packet.new
        ≡ packet_octets (lowered (fields_of packet.old)) (payload_of packet.old)) }
    ensures kept { OnFalse result (packet.new ≡ packet.old) }
{
    let changed = changed_octets(packet.octets());
    packet.overwrite(field::TIME_TO_LIVE, &changed)
}

/// What the packet one hop on has from its time to live to its header checksum.
fn changed_octets(octets: &[u8]) -> [u8; 4]
    requires packet { IsPacket octets.now }
    requires live { 1 ≤ (fields_of octets.now).time_to_live }
    ensures hop { overwritten octets.now 8 result
        ≡ packet_octets (lowered (fields_of octets.now)) (payload_of octets.now) }
    ensures count { length result ≡ 4 }
{
    let view = Ipv4View { octets };
    let time_to_live = view.time_to_live() - 1;
    let protocol = view.protocol();
    let [high, low] = word(lowered_checksum(&view));
    [time_to_live, protocol, high, low]
}

/// The packet with this time to live and this header checksum.
fn lowered_packet(
    alloc: Global,
    octets: &[u8],
    time_to_live: u8,
    checksum: u16,
) -> Result<Packet, AllocError>
    requires packet { IsPacket octets.now }
    requires small { IsOctets octets.now }
    requires live { time_to_live + 1 ≡ (fields_of octets.now).time_to_live }
    requires checksum { checksum ≡ (checked (lowered (fields_of octets.now))).header_checksum }
    ensures { IfOk result
        (λ p. p ≡ packet_octets (lowered (fields_of octets.now)) (payload_of octets.now)) }
{
    let mut copy = BytesMut::copy_from_slice(alloc, octets)?;
    lower(copy.as_mut_slice(), time_to_live, checksum);
    Packet::from_own(alloc, copy)
}

/// The header checksum of the packet one hop on, by the one word that changes.
fn lowered_checksum(packet: &Ipv4View<'_>) -> u16
    requires { 1 ≤ (fields_of packet.now).time_to_live }
    ensures { result ≡ (checked (lowered (fields_of packet.now))).header_checksum }
{
    let octets = packet.octets();
    let live = word_at(octets, field::TIME_TO_LIVE);
    updated_checksum(packet.header_checksum(), live, live - 256)
}

/// Writes the time to live and the header checksum of the packet one hop on. It reads nothing of
/// what was just copied, which a processor would have to wait for.
fn lower(octets: &mut [u8], time_to_live: u8, checksum: u16)
    requires packet { IsPacket octets.old }
    requires small { IsOctets octets.old }
    requires live { time_to_live + 1 ≡ (fields_of octets.old).time_to_live }
    requires checksum { checksum ≡ (checked (lowered (fields_of octets.old))).header_checksum }
    ensures { octets.new ≡ packet_octets (lowered (fields_of octets.old)) (payload_of octets.old) }
{
    octets[field::TIME_TO_LIVE] = time_to_live;
    set_word(octets, field::HEADER_CHECKSUM, checksum);
}
