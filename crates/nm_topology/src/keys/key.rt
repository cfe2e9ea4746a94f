//! The keys of a topology text.

ghost use Rattle.std.specs.Prelude.{◌≡◌};
ghost use Rattle.nm_topology.specs.Keys.{key_text};

/// A key of a topology text.
#[derive(Clone, Copy)]
pub enum TableKey {
    Format,
    Stop,
    Mtu,
    Node,
    Iface,
    Link,
    Route,
    Source,
    Name,
    Kind,
    Partition,
    Ports,
    Address,
    Queue,
    QueueOctets,
    A,
    B,
    Rate,
    Delay,
    To,
    Via,
    SourcePort,
    DestinationPort,
    Identifier,
    Size,
    Fill,
    Start,
    Interval,
    Count,
    Ttl,
    Packet,
    At,
    Data,
}

impl TableKey {
    /// The key, as a text has it.
    pub fn text(self) -> &'static str
        ensures { result.now ≡ key_text self }
    {
        match self {
            TableKey::Format => "format",
            TableKey::Stop => "stop",
            TableKey::Mtu => "mtu",
            TableKey::Node => "node",
            TableKey::Iface => "iface",
            TableKey::Link => "link",
            TableKey::Route => "route",
            TableKey::Source => "source",
            TableKey::Name => "name",
            TableKey::Kind => "kind",
            TableKey::Partition => "partition",
            TableKey::Ports => "ports",
            TableKey::Address => "address",
            TableKey::Queue => "queue",
            TableKey::QueueOctets => "queue_octets",
            TableKey::A => "a",
            TableKey::B => "b",
            TableKey::Rate => "rate",
            TableKey::Delay => "delay",
            TableKey::To => "to",
            TableKey::Via => "via",
            TableKey::SourcePort => "sport",
            TableKey::DestinationPort => "dport",
            TableKey::Identifier => "ident",
            TableKey::Size => "size",
            TableKey::Fill => "fill",
            TableKey::Start => "start",
            TableKey::Interval => "interval",
            TableKey::Count => "count",
            TableKey::Ttl => "ttl",
            TableKey::Packet => "packet",
            TableKey::At => "at",
            TableKey::Data => "data",
        }
    }
}
