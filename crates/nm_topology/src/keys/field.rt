//! The values of the keys of a table.

use crate::keys::array::Array;
use crate::keys::key::TableKey;

/// The least and the greatest of a whole number.
#[derive(Clone, Copy)]
pub struct Bounds {
    pub least: u64,
    pub greatest: u64,
}

/// The value of a key.
#[derive(Clone, Copy)]
pub enum Form {
    /// A whole number within these bounds.
    Number(Bounds),
    /// The same, but the key may be absent.
    OptionalNumber(Bounds),
    /// Octets of data of a source's packet, within the bounds of `fields::size_under`.
    Size,
    /// The name of a node or of an interface.
    Name,
    /// An address that is no martian.
    Address,
    /// A prefix.
    Prefix,
    /// "host" or "router".
    NodeKind,
    /// "cbr", "echo" or "raw".
    SourceKind,
    /// UDP ports, at most 64. The key may be absent.
    Ports,
    /// Tables. The key may be absent.
    Tables(Array),
    /// The packets of a raw source.
    Packets,
    /// Hexadecimal, 1 to mtu octets.
    Octets,
}

/// A key of a table, and its value.
#[derive(Clone, Copy)]
pub struct Field {
    pub key: TableKey,
    pub form: Form,
}
