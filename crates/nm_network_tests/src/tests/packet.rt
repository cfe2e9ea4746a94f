//! `nm_packet`: packets, datagrams and messages at worked values, the text of addresses and faults,
//! and that each writer succeeds if there is memory.

use crate::tests::same::{eq_number, eq_numbers, eq_octets, eq_shown, holds};
use nm_packet::{
    Address, HeaderFault, Icmp, IcmpFault, Ipv4, Ipv4Header, MessageKind, Ports, Udp, UdpFault,
    lower_ttl, quote, write_ipv4,
};
use std::process::Abort;

/// Each address has its text, and the text is that of its octets.
fn are_texts(rt: &(impl Abort + AllocGlobal), rows: &[(&str, [u8; 4])]) {
    for (text, octets) in rows {
        let address = Address::from_octets(*octets);
        holds(rt, text, Address::parse(text.as_bytes()) == Some(address));
        eq_octets(rt, text, &address.octets(), octets);
        eq_shown(rt, address, text);
    }
}

#[test]
fn addresses_have_one_text(rt: HostRuntime) {
    are_texts(
        &rt,
        &[
            ("0.0.0.0", [0, 0, 0, 0]),
            ("10.0.0.1", [10, 0, 0, 1]),
            ("192.168.0.199", [192, 168, 0, 199]),
            ("1.2.3.4", [1, 2, 3, 4]),
            ("255.255.255.255", [255, 255, 255, 255]),
        ],
    )
}

fn are_no_texts(rt: &impl Abort, texts: &[&[u8]]) {
    for text in texts {
        assert!(rt; Address::parse(text).is_none(), "{text:?}");
    }
}

#[test]
fn addresses_have_no_other_text(rt: HostRuntime) {
    are_no_texts(
        &rt,
        &[
            b"",
            b".",
            b"1.2.3",
            b"1.2.3.",
            b".1.2.3",
            b"1..2.3",
            b"1.2.3.4.",
            b"1.2.3.4.5",
            b"1.2.3.4 ",
            b" 1.2.3.4",
            b"01.2.3.4",
            b"1.2.3.00",
            b"256.1.1.1",
            b"1.1.1.256",
            b"1.1.1.1000",
            b"+1.2.3.4",
            b"-1.2.3.4",
            b"1.2.3.0x4",
            b"1,2,3,4",
            b"a.b.c.d",
            b"10.0.0.0/8",
            b"167772161",
            b"\xff",
        ],
    );
}

fn offend(rt: &impl Abort, offends: bool, rows: &[[u8; 4]]) {
    for octets in rows {
        let address = Address::from_octets(*octets);
        assert!(rt; address.is_martian() == offends, "{octets:?}");
    }
}

#[test]
fn addresses_offend_in_four_ranges(rt: HostRuntime) {
    offend(
        &rt,
        true,
        &[
            [0, 0, 0, 0],
            [0, 255, 255, 255],
            [127, 0, 0, 0],
            [127, 255, 255, 255],
            [224, 0, 0, 0],
            [239, 255, 255, 255],
            [240, 0, 0, 0],
            [255, 255, 255, 255],
        ],
    );
    offend(
        &rt,
        false,
        &[
            [1, 0, 0, 0],
            [126, 255, 255, 255],
            [128, 0, 0, 0],
            [223, 255, 255, 255],
        ],
    );
}

#[test]
fn faults_are_numbered(rt: HostRuntime) {
    let header = [
        HeaderFault::Short,
        HeaderFault::Version,
        HeaderFault::Ihl,
        HeaderFault::Checksum,
        HeaderFault::Total,
    ]
    .map(|fault| u64::from(fault.number()));
    eq_numbers(&rt, "of headers", &header, &[1, 2, 3, 4, 5]);
    let udp = [UdpFault::Short, UdpFault::Length, UdpFault::Checksum].map(|fault| u64::from(
        fault.number(),
    ));
    eq_numbers(&rt, "of datagrams", &udp, &[1, 2, 3]);
    let icmp = [IcmpFault::Short, IcmpFault::Checksum].map(|fault| u64::from(fault.number()));
    eq_numbers(&rt, "of messages", &icmp, &[1, 2]);
}

/// These octets and then so many zeros.
fn padded(rt: &(impl Abort + AllocGlobal), text: &str, zeros: usize) -> Vec<u8> {
    let mut octets = hex::decode(rt.alloc(), text).expect(rt, "it succeeds");
    for _ in 0..zeros {
        octets.push(0).expect(rt, "it succeeds");
    }
    octets
}

/// How many octets a packet has, or its fault.
type HeaderAnswer = Result<usize, HeaderFault>;

/// Rows of a packet's octets, of how many zeros follow them, and of what is read.
fn packets_are_read(rt: &(impl Abort + AllocGlobal), rows: &[(&str, usize, HeaderAnswer)]) {
    for (text, zeros, want) in rows {
        let octets = padded(rt, text, *zeros);
        let found = Ipv4::read(octets.as_slice()).map(|view| view.octets().len());
        assert!(rt; found == *want, "{text} and {zeros} zeros");
    }
}

#[test]
fn packets_are_tested_in_order(rt: HostRuntime) {
    packets_are_read(
        &rt,
        &[
            ("45000073000040004011b861c0a80001c0a800c7", 95, Ok(115)),
            // what follows the total length is left out
            ("45000073000040004011b861c0a80001c0a800c7", 96, Ok(115)),
            (
                "45000073000040004011b861c0a80001c0a800c7",
                94,
                Err(HeaderFault::Total),
            ),
            (
                "45000073000040004011b861c0a80001c0a800c7",
                0,
                Err(HeaderFault::Total),
            ),
            // the checksum is tested before the total length
            (
                "45000073000040004011b862c0a80001c0a800c7",
                0,
                Err(HeaderFault::Checksum),
            ),
            (
                "45000073000040004011b861c0a80001c0a800",
                0,
                Err(HeaderFault::Short),
            ),
            ("", 0, Err(HeaderFault::Short)),
            (
                "65000073000040004011b861c0a80001c0a800c7",
                95,
                Err(HeaderFault::Version),
            ),
            (
                "64000073000040004011b861c0a80001c0a800c7",
                95,
                Err(HeaderFault::Version),
            ),
            (
                "44000073000040004011b861c0a80001c0a800c7",
                95,
                Err(HeaderFault::Ihl),
            ),
            (
                "46000073000040004011b861c0a80001c0a800c7",
                0,
                Err(HeaderFault::Ihl),
            ),
            (
                "46000073000040004011b861c0a80001c0a800c7",
                95,
                Err(HeaderFault::Checksum),
            ),
            // a total length below that of the header
            (
                "450000130000000040116ad80a0000010a000002",
                0,
                Err(HeaderFault::Checksum),
            ),
            (
                "4500001300000000401166d80a0000010a000002",
                0,
                Err(HeaderFault::Total),
            ),
            // the sum comes out right with 0000 and with ffff
            ("45000064a4870000011100000a0000010a000102", 80, Ok(100)),
            ("45000064a48700000111ffff0a0000010a000102", 80, Ok(100)),
        ],
    )
}

#[test]
fn packets_have_fields(rt: HostRuntime) {
    let octets = padded(&rt, "45100017abcd20050763d29f0a0000010a000102", 3);
    let view = Ipv4::read(octets.as_slice()).expect(&rt, "it succeeds");
    let found = [
        u64::from(view.ihl()),
        u64::from(view.type_of_service()),
        u64::from(view.total_length()),
        u64::from(view.identification()),
        u64::from(view.flags()),
        u64::from(view.fragment_offset()),
        u64::from(view.more_fragments()),
        u64::from(view.time_to_live()),
        u64::from(view.protocol()),
        u64::from(view.header_checksum()),
    ];
    eq_numbers(
        &rt,
        "fields",
        &found,
        &[5, 16, 23, 0xabcd, 1, 5, 1, 7, 99, 0xd29f],
    );
}

#[test]
fn packets_have_addresses(rt: HostRuntime) {
    let octets = padded(&rt, "45000073000040004011b861c0a80001c0a800c7", 95);
    let view = Ipv4::read(octets.as_slice()).expect(&rt, "it succeeds");
    eq_octets(&rt, "source", &view.source().octets(), &[192, 168, 0, 1]);
    eq_octets(
        &rt,
        "destination",
        &view.destination().octets(),
        &[192, 168, 0, 199],
    );
    eq_number(&rt, "flags", u64::from(view.flags()), 2);
    holds(&rt, "no more fragments", !view.more_fragments());
}

#[test]
fn packets_have_parts(rt: HostRuntime) {
    let octets = padded(&rt, "4600002c000000004063626c0a0000010a00010201010100", 20);
    let view = Ipv4::read(octets.as_slice()).expect(&rt, "it succeeds");
    eq_octets(&rt, "options", view.options(), &[1, 1, 1, 0]);
    eq_number(&rt, "words", u64::from(view.ihl()), 6);
    eq_number(&rt, "header", view.header().len() as u64, 24);
    eq_number(&rt, "payload", view.payload().len() as u64, 20);
}

/// A packet, with so many zeros behind it, has this header after its time to live is one lower.
fn is_lowered_to(rt: &(impl Abort + AllocGlobal), text: &str, zeros: usize, want: &str) {
    let octets = padded(rt, text, zeros);
    let want = padded(rt, want, zeros);
    let view = Ipv4::read(octets.as_slice()).expect(rt, "it succeeds");
    assert!(rt; view.time_to_live() >= 1);
    let lowered = lower_ttl(rt.alloc(), &view).expect(rt, "it succeeds");
    eq_octets(rt, text, lowered.octets(), want.as_slice());
}

#[test]
fn packets_lose_one_hop(rt: HostRuntime) {
    let zero = "45000064a4870000011100000a0000010a000102";
    // the checksum becomes 0000 and not ffff
    is_lowered_to(&rt, "45000064a48700000211feff0a0000010a000102", 80, zero);
    is_lowered_to(&rt, zero, 80, "45000064a4870000001101000a0000010a000102");
    is_lowered_to(
        &rt,
        "4500006400000000401165870a0000010a000102",
        80,
        "45000064000000003f1166870a0000010a000102",
    );
    is_lowered_to(
        &rt,
        "4600002c000000004063626c0a0000010a00010201010100",
        20,
        "4600002c000000003f63636c0a0000010a00010201010100",
    )
}

/// Of a packet, with so many zeros behind it, so many octets are quoted.
fn is_quoted(rt: &(impl Abort + AllocGlobal), text: &str, zeros: usize, count: usize) {
    let octets = padded(rt, text, zeros);
    let view = Ipv4::read(octets.as_slice()).expect(rt, "it succeeds");
    let quoted = quote(rt.alloc(), &view).expect(rt, "it succeeds");
    let want = octets.as_slice().get(..count).expect(rt, "fewer octets");
    eq_octets(rt, text, quoted.as_slice(), want);
}

#[test]
fn packets_are_quoted(rt: HostRuntime) {
    is_quoted(
        &rt,
        "4600002c000000004063626c0a0000010a00010201010100",
        20,
        32,
    );
    is_quoted(
        &rt,
        "4600001b000000004063627d0a0000010a00010201010100",
        3,
        27,
    );
    is_quoted(&rt, "45000073000040004011b861c0a80001c0a800c7", 95, 28)
}

fn header(time_to_live: u8, protocol: u8, source: [u8; 4], destination: [u8; 4]) -> Ipv4Header {
    Ipv4Header {
        type_of_service: 0,
        identification: 0,
        time_to_live,
        protocol,
        source: Address::from_octets(source),
        destination: Address::from_octets(destination),
    }
}

#[test]
fn packets_are_written(rt: HostRuntime) {
    let payload = [0x03, 0xe8, 0x00, 0x09, 0x00, 0x50, 0xe6, 0x5a];
    let header = header(1, 17, [10, 0, 0, 1], [10, 0, 1, 2]);
    let packet = write_ipv4(rt.alloc(), &header, &payload).expect(&rt, "it succeeds");
    let want = padded(
        &rt,
        "4500001c000000000111a4cf0a0000010a00010203e800090050e65a",
        0,
    );
    eq_octets(&rt, "a packet", packet.octets(), want.as_slice());
}

fn ports() -> Ports {
    Ports {
        source: 1000,
        destination: 9,
    }
}

#[test]
fn packets_are_written_with_a_datagram(rt: HostRuntime) {
    let header = header(1, 17, [10, 0, 0, 1], [10, 0, 1, 2]);
    let packet = Udp::write_packet(rt.alloc(), &header, ports(), &[0; 72]).expect(
        &rt,
        "it succeeds",
    );
    let want = padded(
        &rt,
        "45000064000000000111a4870a0000010a00010203e800090050e65a",
        72,
    );
    eq_octets(&rt, "a packet", packet.octets(), want.as_slice());
}

/// A router's answer to a packet that may live no longer.
#[test]
fn packets_are_written_with_a_message(rt: HostRuntime) {
    let quoted = b"\x45\x00\x00\x64\x00\x00\x00\x00\x01\x11\xa4\x87\x0a\x00\x00\x01\
\x0a\x00\x01\x02\x03\xe8\x00\x09\x00\x50\xe6\x5a";
    let header = header(64, 1, [10, 0, 0, 2], [10, 0, 0, 1]);
    let kind = MessageKind {
        message_type: 11,
        code: 0,
    };
    let error = Icmp::write_packet(rt.alloc(), &header, kind, [0; 4], quoted).expect(
        &rt,
        "it succeeds",
    );
    let want = padded(
        &rt,
        "4500003800000000400166c30a0000020a0000010b000a6400000000\
45000064000000000111a4870a0000010a00010203e800090050e65a",
        0,
    );
    eq_octets(&rt, "an error", error.octets(), want.as_slice());
}

fn source() -> Address {
    Address::from_octets([10, 0, 0, 1])
}

fn destination() -> Address {
    Address::from_octets([10, 0, 0, 2])
}

/// A datagram of these data has these octets.
fn datagram_is(rt: &(impl Abort + AllocGlobal), data: &[u8], want: &[u8]) {
    assert!(rt; data.len() <= 2);
    let octets = Udp::write(rt.alloc(), source(), destination(), ports(), data).expect(
        rt,
        "it succeeds",
    );
    eq_octets(rt, "a datagram", octets.as_slice(), want);
}

#[test]
fn datagrams_are_written(rt: HostRuntime) {
    datagram_is(
        &rt,
        b"\xe7\xe6",
        b"\x03\xe8\x00\x09\x00\x0a\xff\xff\xe7\xe6",
    );
    datagram_is(&rt, b"\xab", b"\x03\xe8\x00\x09\x00\x09\x3c\xe8\xab");
    datagram_is(&rt, b"", b"\x03\xe8\x00\x09\x00\x08\xe7\xea")
}

#[test]
fn datagrams_have_fields(rt: HostRuntime) {
    let octets = b"\x03\xe8\x00\x09\x00\x0a\xff\xff\xe7\xe6";
    let view = Udp::read(source(), destination(), octets).expect(&rt, "it succeeds");
    let found = [
        u64::from(view.source_port()),
        u64::from(view.destination_port()),
        u64::from(view.length()),
        u64::from(view.checksum()),
    ];
    eq_numbers(&rt, "fields", &found, &[1000, 9, 10, 0xffff]);
    eq_octets(&rt, "data", view.data(), &[0xe7, 0xe6]);
}

/// How many octets of data a datagram has, or its fault.
type UdpAnswer = Result<usize, UdpFault>;

fn datagrams_are_read(rt: &(impl Abort + AllocGlobal), rows: &[(&str, UdpAnswer)]) {
    for (text, want) in rows {
        let octets = padded(rt, text, 0);
        let found = Udp::read(source(), destination(), octets.as_slice());
        assert!(rt; found.map(|view| view.data().len()) == *want, "{text}");
    }
}

#[test]
fn datagrams_are_tested_in_order(rt: HostRuntime) {
    datagrams_are_read(
        &rt,
        &[
            ("03e80009000affffe7e6", Ok(2)),
            // without a checksum
            ("03e80009000a0000e7e6", Ok(2)),
            ("03e8000900093ce8ab", Ok(1)),
            // what follows the length is left out of the data and of the sum
            ("03e8000900093ce8abcd", Ok(1)),
            ("03e80009000b0000aabbcc", Ok(3)),
            ("03e80009000700", Err(UdpFault::Short)),
            ("", Err(UdpFault::Short)),
            ("03e8000900070000", Err(UdpFault::Length)),
            ("03e80009000a0000", Err(UdpFault::Length)),
            ("03e8000900093ce8ac", Err(UdpFault::Checksum)),
            ("03e80009000a3ce8ac", Err(UdpFault::Length)),
        ],
    )
}

#[test]
fn messages_have_fields(rt: HostRuntime) {
    let octets = b"\x08\x00\xf7\xf8\x00\x07\x00\x00";
    let view = Icmp::read(octets).expect(&rt, "it succeeds");
    let found = [
        u64::from(view.message_type()),
        u64::from(view.code()),
        u64::from(view.checksum()),
        u64::from(view.identifier()),
        u64::from(view.sequence_number()),
    ];
    eq_numbers(&rt, "fields", &found, &[8, 0, 0xf7f8, 7, 0]);
    eq_octets(&rt, "rest", &view.rest(), &[0, 7, 0, 0]);
    eq_number(&rt, "data", view.data().len() as u64, 0);
    eq_octets(&rt, "octets", view.octets(), octets);
}

/// How many octets of data a message has, or its fault.
type IcmpAnswer = Result<usize, IcmpFault>;

fn messages_are_read(rt: &(impl Abort + AllocGlobal), rows: &[(&str, IcmpAnswer)]) {
    for (text, want) in rows {
        let octets = padded(rt, text, 0);
        let found = Icmp::read(octets.as_slice());
        assert!(rt; found.map(|view| view.data().len()) == *want, "{text}");
    }
}

#[test]
fn messages_are_tested_in_order(rt: HostRuntime) {
    messages_are_read(
        &rt,
        &[
            ("0800f7f800070000", Ok(0)),
            ("0000fff800070000", Ok(0)),
            // an odd octet is padded with a zero behind it
            ("08004cf800070000ab", Ok(1)),
            ("0800f7f800070000ab", Err(IcmpFault::Checksum)),
            ("0800f7f900070000", Err(IcmpFault::Checksum)),
            ("0800f7f8000700", Err(IcmpFault::Short)),
            ("", Err(IcmpFault::Short)),
        ],
    )
}

/// A message of this type, code, rest and data has these octets.
fn message_is(
    rt: &(impl Abort + AllocGlobal),
    (message_type, code): (u8, u8),
    rest: [u8; 4],
    data: &[u8],
    want: &[u8],
) {
    assert!(rt; data.len() <= 1);
    let kind = MessageKind { message_type, code };
    let octets = Icmp::write(rt.alloc(), kind, rest, data).expect(rt, "it succeeds");
    eq_octets(rt, "a message", octets.as_slice(), want);
}

#[test]
fn messages_are_written(rt: HostRuntime) {
    let rest = [0, 7, 0, 0];
    message_is(&rt, (8, 0), rest, b"", b"\x08\x00\xf7\xf8\x00\x07\x00\x00");
    message_is(&rt, (0, 0), rest, b"", b"\x00\x00\xff\xf8\x00\x07\x00\x00");
    message_is(
        &rt,
        (8, 0),
        rest,
        b"\xab",
        b"\x08\x00\x4c\xf8\x00\x07\x00\x00\xab",
    );
    message_is(
        &rt,
        (3, 3),
        [0; 4],
        b"\x45",
        b"\x03\x03\xb7\xfc\x00\x00\x00\x00\x45",
    )
}
