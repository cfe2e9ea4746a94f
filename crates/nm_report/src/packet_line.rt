//! A packet as a line, in the manner of tcpdump.

ghost use Rattle.std.specs.Prelude.{OnOk};
ghost use Rattle.nm_measure.specs.Lines.{EndsLine};

use crate::units::push_address;
use nm_base::{Dir, Record, push_number, push_text};
use nm_measure::{Appended, end_line};
use nm_packet::icmp::{self, IcmpView};
use nm_packet::ipv4::Ipv4View;
use nm_packet::{HeaderFault, Icmp, Ipv4, Udp, udp};

/// Codes that no node here sends (RFC 792): of a host that cannot be reached, and of fragments that
/// did not all come.
const HOST_UNREACHABLE: u8 = 1;

const IN_REASSEMBLY: u8 = 1;

/// Appends a word and a number.
fn push_field(text: &mut Vec<u8>, word: &[u8], value: u64) -> Appended {
    push_text(text, word)?;
    push_number(text, value)
}

/// The meaning of ICMP messages, in words (RFC 792): of a type and a code, or of a type whatever
/// its code.
const WORDS: &[(u8, Option<u8>, &str)] = &[
    (icmp::ECHO_REPLY, Some(icmp::ECHO_CODE), "echo reply"),
    (
        icmp::DESTINATION_UNREACHABLE,
        Some(icmp::NETWORK_UNREACHABLE),
        "destination unreachable: network",
    ),
    (
        icmp::DESTINATION_UNREACHABLE,
        Some(HOST_UNREACHABLE),
        "destination unreachable: host",
    ),
    (
        icmp::DESTINATION_UNREACHABLE,
        Some(icmp::PROTOCOL_UNREACHABLE),
        "destination unreachable: protocol",
    ),
    (
        icmp::DESTINATION_UNREACHABLE,
        Some(icmp::PORT_UNREACHABLE),
        "destination unreachable: port",
    ),
    (icmp::SOURCE_QUENCH, Some(0), "source quench"),
    (icmp::REDIRECT, None, "redirect"),
    (icmp::ECHO_REQUEST, Some(icmp::ECHO_CODE), "echo request"),
    (
        icmp::TIME_EXCEEDED,
        Some(icmp::IN_TRANSIT),
        "time exceeded in transit",
    ),
    (
        icmp::TIME_EXCEEDED,
        Some(IN_REASSEMBLY),
        "time exceeded in reassembly",
    ),
    (icmp::PARAMETER_PROBLEM, None, "parameter problem"),
];

/// The meaning of an ICMP message, in words.
fn words_of(message_type: u8, code: u8) -> Option<&'static str> {
    for (kind, of, words) in WORDS {
        if *kind == message_type && of.unwrap_or(code) == code {
            return Some(*words);
        }
    }
    None
}

/// Appends the meaning of an ICMP message.
fn push_message(text: &mut Vec<u8>, message: &IcmpView<'_>) -> Appended {
    push_text(text, b": ICMP ")?;
    match words_of(message.message_type(), message.code()) {
        Some(words) => push_text(text, words.as_bytes())?,
        None => {
            push_field(text, b"type ", u64::from(message.message_type()))?;
            push_field(text, b" code ", u64::from(message.code()))?;
        }
    }
    if matches!(
        message.message_type(),
        icmp::ECHO_REPLY | icmp::ECHO_REQUEST
    ) {
        push_field(text, b", id ", u64::from(message.identifier()))?;
        push_field(text, b", seq ", u64::from(message.sequence_number()))?;
    }
    Ok(())
}

/// Appends an address, and a port if there is one.
fn push_place(text: &mut Vec<u8>, address: nm_packet::Address, port: Option<u16>) -> Appended {
    push_address(text, address)?;
    match port {
        Some(port) => push_field(text, b".", u64::from(port)),
        None => Ok(()),
    }
}

/// Appends the source and the destination of a packet.
fn push_way(text: &mut Vec<u8>, header: &Ipv4View<'_>, ports: Option<(u16, u16)>) -> Appended {
    let (from, to) = match ports {
        Some((from, to)) => (Some(from), Some(to)),
        None => (None, None),
    };
    push_place(text, header.source(), from)?;
    push_text(text, b" > ")?;
    push_place(text, header.destination(), to)
}

/// Appends the words for a UDP datagram.
fn push_datagram(text: &mut Vec<u8>, header: &Ipv4View<'_>, payload: &[u8]) -> Appended {
    match Udp::read(header.source(), header.destination(), payload) {
        Ok(datagram) => {
            let ports = (datagram.source_port(), datagram.destination_port());
            push_way(text, header, Some(ports))?;
            push_field(text, b": UDP, length ", datagram.data().len() as u64)
        }
        Err(_) => {
            push_way(text, header, None)?;
            push_field(text, b": bad UDP, length ", payload.len() as u64)
        }
    }
}

/// Appends the words for a payload of ICMP.
fn push_control(text: &mut Vec<u8>, payload: &[u8]) -> Appended {
    match Icmp::read(payload) {
        Ok(message) => {
            push_message(text, &message)?;
            push_field(text, b", length ", payload.len() as u64)
        }
        Err(_) => push_field(text, b": bad ICMP, length ", payload.len() as u64),
    }
}

/// Appends the words for a payload of another protocol.
fn push_other(text: &mut Vec<u8>, protocol: u8, payload: &[u8]) -> Appended {
    push_field(text, b": protocol ", u64::from(protocol))?;
    push_field(text, b", length ", payload.len() as u64)
}

/// Appends what a packet carries, if it is no fragment.
fn push_payload(text: &mut Vec<u8>, header: &Ipv4View<'_>) -> Appended {
    let (protocol, payload) = (header.protocol(), header.payload());
    if protocol == udp::PROTOCOL {
        return push_datagram(text, header, payload);
    }
    push_way(text, header, None)?;
    if protocol == icmp::PROTOCOL {
        push_control(text, payload)
    } else {
        push_other(text, protocol, payload)
    }
}

/// Appends a packet with a header that is in order.
fn push_packet(text: &mut Vec<u8>, header: &Ipv4View<'_>) -> Appended {
    if header.more_fragments() || header.fragment_offset() > 0 {
        push_way(text, header, None)?;
        push_field(
            text,
            b": fragment at ",
            u64::from(header.fragment_offset()) * 8,
        )?;
        push_field(text, b", length ", header.payload().len() as u64)?;
    } else {
        push_payload(text, header)?;
    }
    push_field(text, b", ttl ", u64::from(header.time_to_live()))
}

/// What is wrong with a header.
fn fault_of(fault: HeaderFault) -> &'static str {
    match fault {
        HeaderFault::Short => "too short",
        HeaderFault::Version => "version",
        HeaderFault::Ihl => "header length",
        HeaderFault::Checksum => "checksum",
        HeaderFault::Total => "total length",
    }
}

/// Appends a record as a line: its time in nanoseconds, whether the packet came in or went out,
/// from where to where it goes, what it carries and how many octets of that, and its time to live.
/// Of a packet with a bad header it has the fault, and the number of octets.
///
/// # Errors
///
/// If memory was refused. A part of the line may have been appended.
pub fn push_packet_line(text: &mut Vec<u8>, record: &Record) -> Appended
    ensures { OnOk result (EndsLine text.new.items) }
{
    push_number(text, record.time.nanoseconds())?;
    push_text(
        text,
        match record.dir {
            Dir::In => b" in  ",
            Dir::Out => b" out ",
        },
    )?;
    match Ipv4::read(record.packet.octets()) {
        Ok(header) => push_packet(text, &header)?,
        Err(fault) => {
            push_text(text, b"bad IPv4 header (")?;
            push_text(text, fault_of(fault).as_bytes())?;
            push_field(text, b"), length ", record.packet.octet_count() as u64)?;
        }
    }
    end_line(text)
}
