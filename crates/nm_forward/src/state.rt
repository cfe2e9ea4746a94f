//! What a node knows of itself and counts.

ghost use Rattle.std.specs.Prelude.{◌≡◌, ◌<◌, ◌≤◌, IfOk, length, slice_index};
ghost use Rattle.nm_forward.specs.Counter.{counter_number};
ghost use Rattle.nm_forward.specs.Routes.{route_of};
ghost use Rattle.nm_forward.specs.State.{Knows, after_originating, first_state, is_own, listens};
ghost use Rattle.nm_forward.specs.State.{state_counted};

use crate::addresses::Addresses;
use crate::counter::Counter;
use crate::counters::Counters;
use crate::routes::Routes;
use nm_base::{IfaceNo, NodeNo};
use nm_packet::Address;
use nm_topology::{NodeKind, Topology};
use std::alloc::{AllocError, Global};
use std::marker::Model;

/// The state of a node: what the topology says of it, laid out for look-ups, and what changes with
/// the packets that it gets. A clause sees the tables as lists, the next identification and the
/// counts.
#[derive(Drop)]
pub struct NodeState {
    node: NodeNo,
    kind: NodeKind,
    ports: Vec<u16>,
    routes: Routes,
    addresses: Addresses,
    identification: u16,
    counters: Counters,
}

impl Model for NodeState {
    ghost use Rattle.nm_forward.specs.State.{NodeStateValue};

    ghost Value = { NodeStateValue };

    ghost view = { λ s. record {
      table = record {
        node = s.node;
        kind = s.kind;
        ports = s.ports.items;
        routes = s.routes;
        addresses = s.addresses;
      };
      identification = s.identification;
      counters = s.counters;
    } };
}

impl NodeState {
    /// The node at the start of a run: nothing is counted, and the next identification is 0.
    ///
    /// # Errors
    ///
    /// If memory for its tables was refused.
    #[tactic(auto, unfolding(crate::specs::State::table_of))]
    pub fn new(alloc: Global, topology: &Topology, node: NodeNo) -> Result<Self, AllocError>
        requires { node < length topology.now.nodes }
        ensures first { IfOk result (λ s. s ≡ first_state topology.now node) }
        // So it is a state that `react` takes.
        ensures table { IfOk result (Knows topology.now) }
    {
        let described = topology.node(node);
        Ok(NodeState {
            node,
            kind: described.kind(),
            ports: Vec::from_slice(alloc, described.ports())?,
            routes: Routes::new(alloc, topology, node)?,
            addresses: Addresses::of_node(alloc, topology.ifaces(), node)?,
            identification: 0,
            counters: Counters::new(),
        })
    }

    /// How often the node counted this, up to 2^64 - 1.
    pub fn counter(&self, counter: Counter) -> u64
        ensures { result ≡ slice_index self.now.counters (counter_number counter) }
    {
        self.counters.get(counter)
    }

    /// The node's number.
    pub fn node(&self) -> NodeNo
        ensures { result ≡ self.now.table.node }
    {
        self.node
    }

    /// Whether it is a host or a router.
    pub(crate) fn kind(&self) -> NodeKind
        ensures { result ≡ self.now.table.kind }
    {
        self.kind
    }

    /// The identification of the next packet that the node originates.
    pub(crate) fn identification(&self) -> u16
        ensures { result ≡ self.now.identification }
    {
        self.identification
    }

    /// Whether the address is one of the node's own.
    pub(crate) fn is_own(&self, address: Address) -> bool
        ensures { result ≡ is_own self.now.table address }
    {
        self.addresses.contains(address)
    }

    /// Whether something listens at this UDP port of the node.
    pub(crate) fn listens(&self, port: u16) -> bool
        ensures { result ≡ listens self.now.table port }
    {
        self.ports.iter().any(|open| port == *open)
    }

    /// The interface by which the longest route to the address leads.
    pub(crate) fn look(&self, address: Address) -> Option<IfaceNo>
        ensures { result ≡ route_of self.now.table.routes address }
    {
        self.routes.look(address)
    }

    /// Raises a counter by one.
    pub(crate) fn count(&mut self, counter: Counter)
        ensures { self.new ≡ state_counted counter self.old }
    {
        self.counters.rise(counter);
    }

    /// A packet with the next identification was originated.
    pub(crate) fn count_originated(&mut self)
        ensures { self.new ≡ after_originating self.old }
    {
        self.identification = self.identification.wrapping_add(1);
        self.counters.rise(Counter::Originated);
    }
}
