//! The arrays of tables of a topology text.

ghost use Rattle.std.specs.Prelude.{◌≡◌};
ghost use Rattle.nm_topology.specs.Keys.{array_key, array_limit};

use crate::keys::key::TableKey;
use nm_base::limits::{MAX_IFACES, MAX_LINKS, MAX_NODES, MAX_ROUTES, MAX_SOURCES};

/// An array of tables of a topology text.
#[derive(Clone, Copy, PartialEq, Eq)]
pub enum Array {
    Node,
    Iface,
    Link,
    Route,
    Source,
}

impl Array {
    /// The key of the array.
    pub fn key(self) -> TableKey
        ensures { result ≡ array_key self }
    {
        match self {
            Array::Node => TableKey::Node,
            Array::Iface => TableKey::Iface,
            Array::Link => TableKey::Link,
            Array::Route => TableKey::Route,
            Array::Source => TableKey::Source,
        }
    }

    /// How many tables it may have.
    pub fn limit(self) -> usize
        ensures { result ≡ array_limit self }
    {
        match self {
            Array::Node => MAX_NODES,
            Array::Iface => MAX_IFACES,
            Array::Link => MAX_LINKS,
            Array::Route => MAX_ROUTES,
            Array::Source => MAX_SOURCES,
        }
    }
}
