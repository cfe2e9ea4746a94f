//! The parts of a topology that are plain values.

ghost use Rattle.std.specs.Prelude.{◌≡◌, [], ◌∷◌, ◌++◌, OnOk, OnErr};

use crate::node::NodeKind;
use crate::parse::tables::{IfaceTable, NodeTable};
use crate::prefix::Prefix;
use nm_base::{IfaceNo, NodeNo, PartNo};
use nm_packet::Address;
use std::alloc::{AllocError, Global};
use std::marker::Model;

/// A link between two interfaces.
#[derive(Clone, Copy, PartialEq, Eq)]
pub struct Link {
    pub a: IfaceNo,
    pub b: IfaceNo,
    /// Bits per second, 1,000 to 10^12.
    pub rate: u64,
    /// Nanoseconds, 0 to 10^12, and at least 1 between two partitions.
    pub delay: u64,
}

/// A route of a node: packets to this prefix leave by this interface.
#[derive(Clone, Copy, PartialEq, Eq)]
pub struct Route {
    pub to: Prefix,
    pub via: IfaceNo,
}

/// A route, and its node.
#[derive(Clone, Copy)]
pub struct PlacedRoute {
    pub node: NodeNo,
    pub route: Route,
}

/// What an interface is linked to.
#[derive(Clone, Copy, PartialEq, Eq)]
pub struct Far {
    pub iface: IfaceNo,
    /// Bits per second.
    pub rate: u64,
    /// Nanoseconds.
    pub delay: u64,
}

/// The routes of one node, in the order of the text. A clause sees the list.
#[derive(Drop)]
pub struct NodeRoutes {
    routes: Vec<Route>,
}

impl Model for NodeRoutes {
    ghost use Rattle.std.specs.Prelude.{List};
    ghost use Rattle.nm_topology.specs.declared.parts.Route.{Route};

    ghost Value = { List Route };

    ghost view = { λ t. t.routes.items };
}

impl NodeRoutes {
    /// No routes.
    pub fn new(alloc: Global) -> Self
        ensures { result ≡ [] }
    {
        NodeRoutes {
            routes: Vec::new(alloc),
        }
    }

    /// Adds a route at the end. An `Err` changes nothing.
    pub fn push(&mut self, route: Route) -> Result<(), AllocError>
        ensures ok { OnOk result (self.new ≡ self.old ++ route ∷ []) }
        ensures err { OnErr result (self.new ≡ self.old) }
    {
        self.routes.push(route)?;
        Ok(())
    }

    /// The routes.
    pub fn as_slice(&self) -> &[Route]
        ensures { result.now ≡ self.now }
    {
        &self.routes
    }
}

/// A node.
#[derive(Drop)]
pub struct Node {
    name: String,
    kind: NodeKind,
    partition: PartNo,
    ports: Vec<u16>,
    routes: NodeRoutes,
}

impl Model for Node {
    ghost use Rattle.std.specs.Prelude.{string_bytes};
    ghost use Rattle.nm_topology.specs.PartValues.{NodeValue};

    ghost Value = { NodeValue };

    ghost view = { λ n. record {
      name = string_bytes n.name;
      kind = n.kind;
      partition = n.partition;
      ports = n.ports.items;
      routes = n.routes;
    } };
}

impl Node {
    /// The node of a table, with its routes.
    pub(crate) fn new(table: NodeTable, routes: NodeRoutes) -> Self
        ensures { result
            ≡ record {
              name = table.name;
              kind = table.kind;
              partition = table.partition;
              ports = table.ports;
              routes = routes;
            } }
    {
        let NodeTable {
            name,
            kind,
            partition,
            ports,
        } = table;
        Node {
            name,
            kind,
            partition: PartNo::new(partition as u32),
            ports,
            routes,
        }
    }

    pub fn name(&self) -> &str
        ensures { result.now ≡ self.now.name }
    {
        self.name.as_str()
    }

    pub fn kind(&self) -> NodeKind
        ensures { result ≡ self.now.kind }
    {
        self.kind
    }

    pub fn partition(&self) -> PartNo
        ensures { result ≡ self.now.partition }
    {
        self.partition
    }

    /// The UDP ports at which something listens, in the order of the text. One may come twice.
    pub fn ports(&self) -> &[u16]
        ensures { result.now ≡ self.now.ports }
    {
        &self.ports
    }

    /// The routes, in the order of the text.
    pub fn routes(&self) -> &[Route]
        ensures { result.now ≡ self.now.routes }
    {
        self.routes.as_slice()
    }
}

/// An interface.
#[derive(Drop)]
pub struct Iface {
    name: String,
    node: NodeNo,
    address: Address,
    queue: u16,
    queue_octets: Option<u32>,
    far: Far,
}

impl Model for Iface {
    ghost use Rattle.std.specs.Prelude.{string_bytes};
    ghost use Rattle.nm_topology.specs.PartValues.{IfaceValue};

    ghost Value = { IfaceValue };

    ghost view = { λ i. record {
      name = string_bytes i.name;
      node = i.node;
      address = i.address;
      queue = i.queue;
      queue_octets = i.queue_octets;
      far = i.far;
    } };
}

impl Iface {
    /// The interface of a table, at this node, with this far end.
    pub(crate) fn new(table: IfaceTable, node: NodeNo, far: Far) -> Self
        ensures { result
            ≡ record {
              name = table.name;
              node = node;
              address = table.address;
              queue = table.queue;
              queue_octets = table.queue_octets;
              far = far;
            } }
    {
        let IfaceTable {
            name,
            node: _,
            address,
            queue,
            queue_octets,
        } = table;
        Iface {
            name,
            node,
            address,
            queue,
            queue_octets,
            far,
        }
    }

    pub fn name(&self) -> &str
        ensures { result.now ≡ self.now.name }
    {
        self.name.as_str()
    }

    /// The node that has the interface.
    pub fn node(&self) -> NodeNo
        ensures { result ≡ self.now.node }
    {
        self.node
    }

    pub fn address(&self) -> Address
        ensures { result ≡ self.now.address }
    {
        self.address
    }

    /// How many packets may wait, 0 to 10,000.
    pub fn queue(&self) -> u16
        ensures { result ≡ self.now.queue }
    {
        self.queue
    }

    /// How many octets may wait, 0 to 655,350,000, or `None` without such a limit.
    pub fn queue_octets(&self) -> Option<u32>
        ensures { result ≡ self.now.queue_octets }
    {
        self.queue_octets
    }

    /// The interface at the other end of the link, and the link's rate and delay.
    pub fn far(&self) -> Far
        ensures { result ≡ self.now.far }
    {
        self.far
    }
}
