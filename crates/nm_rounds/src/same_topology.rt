//! Whether two topologies are the same.

ghost use Rattle.std.specs.Prelude.{◌≡◌, ◌↔◌, IsTrue};
ghost use Rattle.nm_rounds.specs.SameTopology.{SaysSame};

use nm_base::IfaceNo;
use nm_topology::Topology;
use nm_topology::parts::{Iface, Link, Node, Route};
use nm_topology::traffic::{Raw, RawPacket, Source, Traffic};

/// A part of a topology that is compared by its value.
trait Same {
    /// Whether both have the same value.
    fn is_same(&self, other: &Self) -> bool
        ensures { IsTrue result ↔ (self.now ≡ other.now) };
}

impl Same for Route {
    fn is_same(&self, other: &Self) -> bool {
        self == other
    }
}

impl Same for IfaceNo {
    fn is_same(&self, other: &Self) -> bool {
        self == other
    }
}

impl Same for Link {
    fn is_same(&self, other: &Self) -> bool {
        self == other
    }
}

impl Same for Node {
    fn is_same(&self, other: &Self) -> bool {
        self.name() == other.name()
            && self.kind() == other.kind()
            && self.partition() == other.partition()
            && self.ports() == other.ports()
            && are_same(self.routes(), other.routes())
    }
}

impl Same for Iface {
    fn is_same(&self, other: &Self) -> bool {
        self.name() == other.name()
            && self.node() == other.node()
            && self.address() == other.address()
            && self.queue() == other.queue()
            && self.queue_octets() == other.queue_octets()
            && self.far() == other.far()
    }
}

impl Same for RawPacket {
    fn is_same(&self, other: &Self) -> bool {
        self.at == other.at && self.packet == other.packet
    }
}

impl Same for Raw {
    fn is_same(&self, other: &Self) -> bool {
        self.via() == other.via() && are_same(self.packets(), other.packets())
    }
}

impl Same for Traffic {
    fn is_same(&self, other: &Self) -> bool {
        match (self, other) {
            (Traffic::Cbr(a), Traffic::Cbr(b)) => a == b,
            (Traffic::Echo(a), Traffic::Echo(b)) => a == b,
            (Traffic::Raw(a), Traffic::Raw(b)) => a.is_same(b),
            _ => false,
        }
    }
}

impl Same for Source {
    fn is_same(&self, other: &Self) -> bool {
        self.node == other.node && self.traffic.is_same(&other.traffic)
    }
}

/// Whether two lists have the same members in the same order.
fn are_same<T: Same>(a: &[T], b: &[T]) -> bool
    ensures { IsTrue result ↔ (a.now ≡ b.now) }
{
    if a.len() != b.len() {
        return false;
    }
    for i in 0..a.len() {
        if !a[i].is_same(&b[i]) {
            return false;
        }
    }
    true
}

/// Whether two topologies are the same: all is compared but the digests of their texts, which also
/// count comments and blanks. It takes no memory.
pub fn same_topology(a: &Topology, b: &Topology) -> bool
    ensures { IsTrue result ↔ SaysSame a.now b.now }
{
    if a.stop() != b.stop() || a.mtu() != b.mtu() || a.partitions() != b.partitions() {
        return false;
    }
    if !are_same(a.receivers(), b.receivers()) || !are_same(a.links(), b.links()) {
        return false;
    }
    if !are_same(a.nodes(), b.nodes()) || !are_same(a.ifaces(), b.ifaces()) {
        return false;
    }
    are_same(a.sources(), b.sources())
}
