//! Laws of the definitions: each function has an empty body, and its contract is the law.

ghost use Rattle.std.specs.Prelude.{◌≡◌, ℕ, ◌+◌, ◌-◌, ◌*◌, ◌<◌, ◌≤◌, ◌⊎◌, ◌++◌, List, length, None};
ghost use Rattle.nm_packet.specs.declared.icmp.TheConstants as icmp;
ghost use Rattle.nm_packet.specs.declared.limits.TheConstants as limits;
ghost use Rattle.nm_packet.specs.declared.udp.TheConstants as udp;
ghost use Rattle.nm_packet.specs.Checksum.{updated_checksum};
ghost use Rattle.nm_packet.specs.Ipv4.{Header, HeaderFits, IsIpv4, checked, cut_of, fields_of};
ghost use Rattle.nm_packet.specs.Ipv4.{header_fault, lowered, packet_octets, payload_of};
ghost use Rattle.nm_packet.specs.Udp.{IsUdp, UdpFits, UdpHeader, datagram_octets, udp_checked};
ghost use Rattle.nm_packet.specs.Udp.{udp_cut_of, udp_data_of, udp_fault, udp_fields_of};
ghost use Rattle.nm_packet.specs.Icmp.{IcmpFits, IcmpHeader, IsIcmp, icmp_checked, icmp_data_of};
ghost use Rattle.nm_packet.specs.Icmp.{icmp_fault, icmp_fields_of, message_octets};

/// A packet is read with the fields and the payload that it was made of, whatever follows it. So
/// octets are a packet with one header and one payload at most.
pub fn ipv4_is_read_as_made()
    ensures { (h : Header) (payload octets rest : List ℕ) → IsIpv4 h payload octets
        → (header_fault (octets ++ rest) ≡ None) × (cut_of (octets ++ rest) ≡ octets)
        × (fields_of octets ≡ h) × (payload_of octets ≡ payload) }
{}

/// What is written of fields that fit is a packet with these fields and the checksum over all other
/// words.
pub fn ipv4_is_written_well()
    ensures { (h : Header) (payload : List ℕ) → HeaderFits (record h { header_checksum = 0 })
        → h.total_length ≡ 4 * h.ihl + length payload
        → IsIpv4 (checked h) payload (packet_octets h payload) }
{}

/// The octets of a packet are what is written of its fields and its payload. The one exception is a
/// checksum of ffff in place of 0000, which passes the test and is never written.
pub fn ipv4_is_what_is_written()
    ensures { (h : Header) (payload octets : List ℕ) → IsIpv4 h payload octets
        → (octets ≡ packet_octets h payload)
        ⊎ ((h.header_checksum ≡ 65535) × ((checked h).header_checksum ≡ 0)) }
{}

/// The checksum of the header one hop on, over all its other words, is also the one that RFC 1624
/// makes of the checksum that came and the one word that changed.
pub fn lowered_checksum_by_difference()
    ensures { (h : Header) (payload octets : List ℕ) → IsIpv4 h payload octets → 1 ≤ h.time_to_live
        → (checked (lowered h)).header_checksum ≡ updated_checksum h.header_checksum
        (h.time_to_live * 256 + h.protocol) ((h.time_to_live - 1) * 256 + h.protocol) }
{}

/// A datagram is read with the fields and the data that it was made of, whatever follows it.
pub fn udp_is_read_as_made()
    ensures { (source destination : ℕ) (h : UdpHeader) (payload octets rest : List ℕ)
        → IsUdp source destination h payload octets
        → (udp_fault source destination (octets ++ rest) ≡ None)
        × (udp_cut_of (octets ++ rest) ≡ octets) × (udp_fields_of octets ≡ h)
        × (udp_data_of octets ≡ payload) }
{}

/// What is written of fields that fit is a datagram with these fields and a checksum that is not 0.
pub fn udp_is_written_well()
    ensures { (source destination : ℕ) (h : UdpHeader) (payload : List ℕ)
        → UdpFits (record h { checksum = 0 }) → h.length ≡ 8 + length payload
        → IsUdp source destination (udp_checked source destination h payload) payload
        (datagram_octets source destination h payload)
        × (0 < (udp_checked source destination h payload).checksum) }
{}

/// A message is read with the fields and the data that it was made of.
pub fn icmp_is_read_as_made()
    ensures { (h : IcmpHeader) (payload octets : List ℕ) → IsIcmp h payload octets
        → (icmp_fault octets ≡ None) × (icmp_fields_of octets ≡ h)
        × (icmp_data_of octets ≡ payload) }
{}

/// What is written of fields that fit is a message with these fields and the checksum over all
/// other words.
pub fn icmp_is_written_well()
    ensures { (h : IcmpHeader) (payload : List ℕ) → IcmpFits (record h { checksum = 0 })
        → IsIcmp (icmp_checked h payload) payload (message_octets h payload) }
{}

/// The numbers of the two protocols in a header are those of RFC 790.
pub fn protocol_numbers()
    ensures icmp { icmp.PROTOCOL ≡ 1 }
    ensures udp { udp.PROTOCOL ≡ 17 }
{}

/// The numbers of the types of messages are those of RFC 792.
pub fn message_types()
    ensures echo_reply { icmp.ECHO_REPLY ≡ 0 }
    ensures destination_unreachable { icmp.DESTINATION_UNREACHABLE ≡ 3 }
    ensures source_quench { icmp.SOURCE_QUENCH ≡ 4 }
    ensures redirect { icmp.REDIRECT ≡ 5 }
    ensures echo_request { icmp.ECHO_REQUEST ≡ 8 }
    ensures time_exceeded { icmp.TIME_EXCEEDED ≡ 11 }
    ensures parameter_problem { icmp.PARAMETER_PROBLEM ≡ 12 }
{}

/// The numbers of their codes are those of RFC 792.
pub fn message_codes()
    ensures echo { icmp.ECHO_CODE ≡ 0 }
    ensures network { icmp.NETWORK_UNREACHABLE ≡ 0 }
    ensures protocol { icmp.PROTOCOL_UNREACHABLE ≡ 2 }
    ensures port { icmp.PORT_UNREACHABLE ≡ 3 }
    ensures in_transit { icmp.IN_TRANSIT ≡ 0 }
{}

/// How many octets fit, as numbers.
pub fn greatest_sizes()
    ensures payload { limits.MAX_PAYLOAD ≡ 65515 }
    ensures packet_data { limits.MAX_PACKET_DATA ≡ 65507 }
    ensures datagram_data { limits.MAX_DATAGRAM_DATA ≡ 65527 }
{}
