//! UDP datagrams (RFC 768).

ghost use Rattle.std.specs.Prelude.{◌≡◌, ◌+◌, ◌++◌, ◌≤◌, List, [], ℕ, length, Some, None, Ok, IfOk};
ghost use Rattle.std.specs.Prelude.{MatchResult};
ghost use Rattle.nm_packet.specs.declared.limits.TheConstants.{MAX_DATAGRAM_DATA, MAX_PACKET_DATA};
ghost use Rattle.nm_packet.specs.Checksum.{folded, word_sum};
ghost use Rattle.nm_packet.specs.Ipv4.{IsIpv4, checked, packet_octets, plain_header};
ghost use Rattle.nm_packet.specs.Udp.{IsDatagram, IsUdp, UdpHeader, datagram_octets, udp_checked};
ghost use Rattle.nm_packet.specs.Udp.{pseudo_header, udp_cut_of, udp_data_of, udp_fault};
ghost use Rattle.nm_packet.specs.Udp.{udp_fields_of, udp_header, udp_octets};

use crate::Address;
use crate::checksum::sum_words;
use crate::fault::UdpFault;
use crate::ipv4::{Ipv4Header, write_in_parts};
use crate::octets::{set_word, word, word_at};
use nm_base::Packet;
use std::alloc::{AllocError, Global};
use std::marker::Model;

/// The places of a datagram's fields, in octets from its front (RFC 768).
mod field {
    pub const SOURCE_PORT: usize = 0;

    pub const DESTINATION_PORT: usize = 2;

    pub const LENGTH: usize = 4;

    pub const CHECKSUM: usize = 6;

    pub const DATA: usize = 8;
}

/// The octets before the data.
pub(crate) const HEADER_OCTETS: usize = field::DATA;

/// The number of the protocol in an IPv4 header.
pub const PROTOCOL: u8 = 17;

/// The protocol UDP.
#[derive(Clone, Copy)]
pub struct Udp;

/// The ports between which a datagram goes.
#[derive(Clone, Copy)]
pub struct Ports {
    pub source: u16,
    pub destination: u16,
}

/// A datagram that passed the tests, over the octets up to its length. A clause sees these octets.
#[derive(Drop)]
pub struct UdpView<'a> {
    octets: &'a [u8],
}

impl<'a> Model for UdpView<'a> {
    ghost Value = { List ℕ };

    ghost view = { λ v. v.octets.now };

    ghost invariant = { λ v. IsDatagram v.octets.now };
}

/// The one's complement sum of the pseudo header and then of these octets, for a datagram of so
/// many octets.
fn sum_from_pseudo_header(source: Address, destination: Address, size: u16, octets: &[u8]) -> u16
    ensures { result ≡ folded (word_sum (pseudo_header source destination size ++ octets.now)) }
{
    let [s0, s1, s2, s3] = source.octets();
    let [d0, d1, d2, d3] = destination.octets();
    let [l0, l1] = word(size);
    let pseudo_header = [s0, s1, s2, s3, d0, d1, d2, d3, 0, PROTOCOL, l0, l1];
    sum_words(sum_words(0, &pseudo_header), octets)
}

/// The datagram at the front of these octets, or the first test that fails.
fn tested(source: Address, destination: Address, octets: &[u8]) -> Result<UdpView<'_>, UdpFault>
    ensures exact { MatchResult result
        (λ v. (udp_fault source destination octets.now ≡ None) × (v ≡ udp_cut_of octets.now))
        (λ e. udp_fault source destination octets.now ≡ Some e) }
    ensures whole { IfOk result IsDatagram }
{
    if octets.len() < HEADER_OCTETS {
        return Err(UdpFault::Short);
    }
    let length = word_at(octets, field::LENGTH);
    let size = usize::from(length);
    if size < HEADER_OCTETS || octets.len() < size {
        return Err(UdpFault::Length);
    }
    let datagram = &octets[..size];
    if word_at(octets, field::CHECKSUM) != 0
        && sum_from_pseudo_header(source, destination, length, datagram) != 0xffff
    {
        return Err(UdpFault::Checksum);
    }
    Ok(UdpView { octets: datagram })
}

/// The octets of the header with this checksum, before data of so many octets.
fn header_with(ports: Ports, size: u16, checksum: u16) -> [u8; HEADER_OCTETS]
    requires { size ≤ MAX_DATAGRAM_DATA }
    ensures { result ≡ udp_octets (record (udp_header ports size) { checksum = checksum }) [] }
{
    let mut octets = [0; HEADER_OCTETS];
    set_word(&mut octets, field::SOURCE_PORT, ports.source);
    set_word(&mut octets, field::DESTINATION_PORT, ports.destination);
    set_word(&mut octets, field::LENGTH, 8 + size);
    set_word(&mut octets, field::CHECKSUM, checksum);
    octets
}

impl Udp {
    /// The datagram at the front of the payload of a packet between these addresses, lent and not
    /// copied. What follows its length is left out.
    pub fn read(
        source: Address,
        destination: Address,
        octets: &[u8],
    ) -> Result<UdpView<'_>, UdpFault>
        // What is read is a datagram, spelled by its fields and its data.
        ensures found { IfOk result
            (λ v. IsUdp source destination (udp_fields_of v) (udp_data_of v) v) }
        // A datagram is read, whatever follows it.
        ensures only { (h : UdpHeader) (payload datagram rest : List ℕ)
            → IsUdp source destination h payload datagram
            → octets.now ≡ datagram ++ rest → result ≡ Ok datagram }
        // Which octets these are, and which fault it is.
        ensures exact { MatchResult result
            (λ v. (udp_fault source destination octets.now ≡ None) × (v ≡ udp_cut_of octets.now))
            (λ e. udp_fault source destination octets.now ≡ Some e) }
    {
        tested(source, destination, octets)
    }

    /// The datagram with these ports and data, with a checksum, for a packet between these
    /// addresses. Up to [`MAX_DATAGRAM_DATA`](crate::limits::MAX_DATAGRAM_DATA) octets of data fit
    /// a datagram, and up to [`MAX_PACKET_DATA`](crate::limits::MAX_PACKET_DATA) of them a packet.
    pub fn write(
        alloc: Global,
        source: Address,
        destination: Address,
        ports: Ports,
        data: &[u8],
    ) -> Result<Vec<u8>, AllocError>
        requires { length «data».now ≤ MAX_DATAGRAM_DATA }
        ensures value { IfOk result (λ v. v.items ≡ datagram_octets source destination
            (udp_header ports (length «data».now)) «data».now) }
        ensures grammar { IfOk result (λ v. IsUdp source destination
            (udp_checked source destination (udp_header ports (length «data».now)) «data».now)
            «data».now v.items) }
    {
        let mut octets = Vec::with_capacity(alloc, HEADER_OCTETS + data.len())?;
        octets.extend_from_slice(&header(source, destination, ports, data))?;
        octets.extend_from_slice(data)?;
        Ok(octets)
    }

    /// A packet with such a datagram as its payload. The header's protocol should be
    /// [`PROTOCOL`].
    pub fn write_packet(
        alloc: Global,
        packet_header: &Ipv4Header,
        ports: Ports,
        data: &[u8],
    ) -> Result<Packet, AllocError>
        requires { length «data».now ≤ MAX_PACKET_DATA }
        ensures value { let h = packet_header.now in IfOk result (λ p. p ≡ packet_octets
            (plain_header h (8 + length «data».now)) (datagram_octets h.source h.destination
            (udp_header ports (length «data».now)) «data».now)) }
        ensures grammar { let h = packet_header.now in IfOk result (IsIpv4
            (checked (plain_header h (8 + length «data».now))) (datagram_octets h.source
            h.destination (udp_header ports (length «data».now)) «data».now)) }
    {
        let (source, destination) = (packet_header.source, packet_header.destination);
        let front = header(source, destination, ports, data);
        write_in_parts(alloc, packet_header, &front, data)
    }
}

/// The octets before these data, with their checksum.
pub(crate) fn header(
    source: Address,
    destination: Address,
    ports: Ports,
    data: &[u8],
) -> [u8; HEADER_OCTETS]
    requires { length «data».now ≤ MAX_DATAGRAM_DATA }
    ensures { result ≡ udp_octets (udp_checked source destination
        (udp_header ports (length «data».now)) «data».now) [] }
{
    let size = data.len() as u16;
    let bare = header_with(ports, size, 0);
    let sum = sum_words(
        sum_from_pseudo_header(source, destination, 8 + size, &bare),
        data,
    );
    let checksum = match !sum {
        0 => 0xffff,
        checksum => checksum,
    };
    header_with(ports, size, checksum)
}

impl<'a> UdpView<'a> {
    /// The octets of the datagram.
    pub fn octets(&self) -> &'a [u8]
        ensures value { result.now ≡ self.now }
        ensures whole { IsDatagram self.now }
    {
        self.octets
    }

    pub fn source_port(&self) -> u16
        ensures { result ≡ (udp_fields_of self.now).source_port }
    {
        word_at(self.octets, field::SOURCE_PORT)
    }

    pub fn destination_port(&self) -> u16
        ensures { result ≡ (udp_fields_of self.now).destination_port }
    {
        word_at(self.octets, field::DESTINATION_PORT)
    }

    /// The octets of header and data.
    pub fn length(&self) -> u16
        ensures { result ≡ (udp_fields_of self.now).length }
    {
        word_at(self.octets, field::LENGTH)
    }

    /// The checksum that came, 0 if the sender made none.
    pub fn checksum(&self) -> u16
        ensures { result ≡ (udp_fields_of self.now).checksum }
    {
        word_at(self.octets, field::CHECKSUM)
    }

    /// What follows the header.
    pub fn data(&self) -> &'a [u8]
        ensures { result.now ≡ udp_data_of self.now }
    {
        &self.octets[field::DATA..]
    }
}
