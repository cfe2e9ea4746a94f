//! The fields of each kind of table, in the order in which they are read. Readers read by a range,
//! and definitions name it; a law says which numbers it has (`laws::ranges_of_numbers`). What the
//! crates above rely on is in terms of `nm_base::limits` (`specs/Limits.antt`), and follows.

ghost use Rattle.std.specs.Prelude.{◌≡◌};
ghost use Rattle.nm_topology.specs.Keys.{packet_table, size_under, time_from};

use crate::keys::array::Array;
use crate::keys::field::{Bounds, Field, Form};
use crate::keys::key::TableKey;
use nm_base::limits::{
    MAX_COUNT, MAX_DELAY, MAX_INTERVAL, MAX_MTU, MAX_PARTITION, MAX_QUEUE, MAX_QUEUE_OCTETS,
    MAX_RATE, MAX_TIME, MIN_MTU, MIN_RATE,
};
use nm_packet::limits::HEADERS;

/// A field: its key, and its value. (A constant can call no function.)
macro_rules! field {
    ($key:ident, $form:expr) => {
        Field {
            key: TableKey::$key,
            form: $form,
        }
    };
}

macro_rules! within {
    ($least:expr, $greatest:expr) => {
        Bounds {
            least: $least,
            greatest: $greatest,
        }
    };
}

pub const FORMAT: Bounds = within!(1, 2);

pub const STOP: Bounds = within!(1, MAX_TIME);

pub const MTU: Bounds = within!(MIN_MTU, MAX_MTU);

pub const PARTITION: Bounds = within!(0, MAX_PARTITION);

pub const PORT: Bounds = within!(0, 65_535);

pub const QUEUE: Bounds = within!(0, MAX_QUEUE);

pub const QUEUE_OCTETS: Bounds = within!(0, MAX_QUEUE_OCTETS);

pub const RATE: Bounds = within!(MIN_RATE, MAX_RATE);

pub const DELAY: Bounds = within!(0, MAX_DELAY);

pub const IDENTIFIER: Bounds = within!(0, 65_535);

pub const FILL: Bounds = within!(0, 255);

pub const START: Bounds = within!(0, MAX_TIME);

pub const INTERVAL: Bounds = within!(1, MAX_INTERVAL);

pub const COUNT: Bounds = within!(0, MAX_COUNT);

pub const TTL: Bounds = within!(1, 255);

/// Octets of data of a source's packet: what two headers leave of the mtu.
pub fn size_under(mtu: u16) -> Bounds
    ensures { result ≡ size_under mtu }
{
    within!(0, u64::from(mtu).saturating_sub(HEADERS))
}

/// The time of a packet of a raw source, in nanoseconds: after the packet before it.
pub fn time_from(least: u64) -> Bounds
    ensures { result ≡ time_from least }
{
    within!(least, MAX_TIME)
}

/// These fields, and the arrays of the top table.
macro_rules! before_arrays {
    ($($field:expr),*) => {
        [
            $($field,)*
            field!(Node, Form::Tables(Array::Node)),
            field!(Iface, Form::Tables(Array::Iface)),
            field!(Link, Form::Tables(Array::Link)),
            field!(Route, Form::Tables(Array::Route)),
            field!(Source, Form::Tables(Array::Source)),
        ]
    };
}

/// The top table: its head, and then its arrays.
pub const TOP_TABLE: [Field; 8] = before_arrays![
    field!(Format, Form::Number(FORMAT)),
    field!(Stop, Form::Number(STOP)),
    field!(Mtu, Form::Number(MTU))
];

/// The head of the top table.
pub const HEAD: [Field; 3] = [
    field!(Format, Form::Number(FORMAT)),
    field!(Stop, Form::Number(STOP)),
    field!(Mtu, Form::Number(MTU)),
];

/// The arrays of the top table, which are read once its head is.
pub const ARRAYS: [Field; 5] = before_arrays![];

/// A table of `node`.
pub const NODE_TABLE: [Field; 4] = [
    field!(Name, Form::Name),
    field!(Kind, Form::NodeKind),
    field!(Partition, Form::Number(PARTITION)),
    field!(Ports, Form::Ports),
];

/// A table of `iface`, and these fields behind the others.
macro_rules! iface_table {
    ($($field:expr),*) => {
        [
            field!(Name, Form::Name),
            field!(Node, Form::Name),
            field!(Address, Form::Address),
            field!(Queue, Form::Number(QUEUE)),
            $($field,)*
        ]
    };
}

/// A table of `iface` in format 1.
pub const IFACE_TABLE_ONE: [Field; 4] = iface_table![];

/// A table of `iface` in format 2.
pub const IFACE_TABLE_TWO: [Field; 5] = iface_table![field!(
    QueueOctets,
    Form::OptionalNumber(QUEUE_OCTETS)
)];

/// A table of `link`.
pub const LINK_TABLE: [Field; 4] = [
    field!(A, Form::Name),
    field!(B, Form::Name),
    field!(Rate, Form::Number(RATE)),
    field!(Delay, Form::Number(DELAY)),
];

/// A table of `route`.
pub const ROUTE_TABLE: [Field; 3] = [
    field!(Node, Form::Name),
    field!(To, Form::Prefix),
    field!(Via, Form::Name),
];

/// The kind of a source, which is read before all else.
pub const KIND_OF_SOURCE: [Field; 1] = [field!(Kind, Form::SourceKind)];

/// A table of `source` with packets that are alike: these fields, and those of its flow.
macro_rules! flow_table {
    ($($field:expr),*) => {
        [
            field!(Kind, Form::SourceKind),
            field!(Node, Form::Name),
            field!(To, Form::Address),
            $($field,)*
            field!(Size, Form::Size),
            field!(Fill, Form::OptionalNumber(FILL)),
            field!(Start, Form::Number(START)),
            field!(Interval, Form::Number(INTERVAL)),
            field!(Count, Form::Number(COUNT)),
            field!(Ttl, Form::OptionalNumber(TTL)),
        ]
    };
}

/// A table of `source` of kind "cbr".
pub const CBR_TABLE: [Field; 11] = flow_table![
    field!(SourcePort, Form::Number(PORT)),
    field!(DestinationPort, Form::Number(PORT))
];

/// A table of `source` of kind "echo".
pub const ECHO_TABLE: [Field; 10] = flow_table![field!(Identifier, Form::Number(IDENTIFIER))];

/// A table of `source` of kind "raw".
pub const RAW_TABLE: [Field; 4] = [
    field!(Kind, Form::SourceKind),
    field!(Node, Form::Name),
    field!(Via, Form::Name),
    field!(Packet, Form::Packets),
];

/// A table of `packet` with a time of at least so many nanoseconds.
pub fn packet_table(least: u64) -> [Field; 2]
    ensures { result ≡ packet_table least }
{
    [
        field!(At, Form::Number(time_from(least))),
        field!(Data, Form::Octets),
    ]
}
