//! Laws of the definitions: each function does nothing, and its contract is the law.

ghost use Rattle.std.specs.Prelude.{◌≡◌, ℕ, ◌≤◌, List, Some, length, slice_get};
ghost use Rattle.nm_base.specs.declared.limits.TheConstants.{MAX_PACKET_OCTETS};
ghost use Rattle.nm_base.specs.declared.event.Origin.{Origin};
ghost use Rattle.nm_topology.specs.declared.parts.Route.{Route};
ghost use Rattle.nm_topology.specs.TopologyValue.{TopologyValue};
ghost use Rattle.nm_forward.specs.declared.counter.Counter.{Counter};
ghost use Rattle.nm_forward.specs.declared.counter.TheConstants.Counter.{ALL};
ghost use Rattle.nm_forward.specs.Counter.{counter_number};
ghost use Rattle.nm_forward.specs.Routes.{IsRouteTo, longest_route};
ghost use Rattle.nm_forward.specs.State.{IsIfaceOf, NodeStateValue};
ghost use Rattle.nm_forward.specs.Reaction.{FitsOrigin, reaction};

use nm_topology::Topology;
use nm_topology::topology::accepted_topologies_are_in_order;

/// The route to an address is one of the routes, and its prefix holds the address and is the
/// longest that does. There is one if any prefix holds the address.
pub fn routes_are_longest()
    ensures { (routes : List Route) (address : ℕ)
        → IsRouteTo routes address (longest_route routes address) }
{}

/// What a node knows of itself stays as it is.
pub fn a_node_keeps_its_tables()
    ensures { (t : TopologyValue) (v : ℕ) (n : NodeStateValue) (o : Origin) (x : List ℕ)
        → (reaction t v n o x).0.table ≡ n.table }
{}

/// Whatever comes to a node, in whatever state, it sends by an interface of its own. So a node that
/// isn't there sends nothing: no interface is one of it.
pub fn a_node_sends_by_its_own_interfaces(topology: &Topology)
    ensures { (v : ℕ) (n : NodeStateValue) (o : Origin) (x : List ℕ) (s : ℕ × List ℕ)
        → (reaction topology.now v n o x).1 ≡ Some s → IsIfaceOf topology.now.ifaces v s.0 }
{
    accepted_topologies_are_in_order(topology); // law: routes and sources lead by own interfaces
}

/// What a node sends is a packet if what comes to it is one, and the data of a source fit: it has 1
/// to 65,535 octets.
pub fn a_sent_packet_fits()
    ensures { (t : TopologyValue) (v : ℕ) (n : NodeStateValue) (o : Origin) (x : List ℕ)
        (s : ℕ × List ℕ) → 1 ≤ length x → length x ≤ MAX_PACKET_OCTETS → FitsOrigin t o x
        → (reaction t v n o x).1 ≡ Some s → (1 ≤ length s.1) × (length s.1 ≤ MAX_PACKET_OCTETS) }
{}

/// All counters have every counter at its number. There are no others, since they are 19.
pub fn every_counter_stands_at_its_number()
    ensures every { (c : Counter) → slice_get ALL (counter_number c) ≡ Some c }
    ensures count { length ALL ≡ 19 }
{}
