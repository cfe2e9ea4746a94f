//! How many octets fit a packet, a datagram and a message, each from the greatest packet down.

use crate::ipv4::LEAST_HEADER_OCTETS;
use crate::udp;
use nm_base::limits::MAX_PACKET_OCTETS;

/// The greatest payload of a packet without options: 65,515 octets.
pub const MAX_PAYLOAD: usize = MAX_PACKET_OCTETS - LEAST_HEADER_OCTETS;

/// The greatest data of a datagram or of a message that fits a packet without options: 65,507
/// octets. The headers of both have eight octets.
pub const MAX_PACKET_DATA: usize = MAX_PAYLOAD - udp::HEADER_OCTETS;

/// The headers of a datagram in a packet without options, or of an ICMP message: 28 octets.
pub const HEADERS: u64 = (LEAST_HEADER_OCTETS + udp::HEADER_OCTETS) as u64;

/// The greatest data of a datagram: its length counts its header too and has 16 bits, as that of a
/// packet (RFC 768): 65,527 octets.
pub const MAX_DATAGRAM_DATA: usize = MAX_PACKET_OCTETS - udp::HEADER_OCTETS;
