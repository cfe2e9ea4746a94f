//! What a number of a topology text counts, and an example.

use nm_topology::keys::key::TableKey;

/// What the number behind a key counts, with an example.
pub fn unit_of(key: TableKey) -> Option<&'static str> {
    match key {
        TableKey::Stop => Some("whole nanoseconds: 1000000000 for 1 s"),
        TableKey::Delay | TableKey::Start | TableKey::Interval | TableKey::At => {
            Some("whole nanoseconds: 1000000 for 1 ms")
        }
        TableKey::Rate => Some("whole bits per second: 100000000 for 100 Mbit/s"),
        TableKey::Mtu => Some("octets of a packet: 1500 for Ethernet"),
        TableKey::Queue => Some("packets that may wait: 100"),
        TableKey::QueueOctets => Some("octets that may wait: 150000 for 100 packets of 1500"),
        TableKey::Size => Some(
            "octets of data, without the 28 of two headers: 1472 for an mtu of 1500",
        ),
        TableKey::Count => Some("packets: 1000"),
        TableKey::Ttl => Some("hops: 64"),
        TableKey::Partition => Some("a number from 0 on: 0 where there is one partition"),
        TableKey::SourcePort | TableKey::DestinationPort | TableKey::Ports => Some("UDP ports: 53"),
        TableKey::Fill => Some("each octet of data: 0"),
        _ => None,
    }
}
