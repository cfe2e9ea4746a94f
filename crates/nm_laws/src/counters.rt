//! Laws of the counters of nodes.

ghost use Rattle.std.specs.Prelude.{ℕ};
ghost use Rattle.nm_laws.specs.Counted.{ArrivalsAreCounted, RowsAreCounted, SendingsAreCounted};

use nm_base::Packet;
use nm_forward::NodeState;
use nm_model::orderly::every_state_is_orderly;
use nm_sim::network::every_topology_is_a_network;
use nm_topology::Topology;

/// After any number of events, the packets that arrived at the interfaces of a node are as many as
/// the sum of its counters of arrivals; each is the number of those that its row fits. Those that
/// the node offered to its interfaces are as many as the sum of what it sent on, what it originated
/// and what its raw sources gave to it.
pub fn packets_are_counted(topology: &Topology)
    ensures arrivals { (n v : ℕ) → ArrivalsAreCounted topology.now n v }
    ensures rows { (n v : ℕ) → RowsAreCounted topology.now n v }
    ensures sendings { (n v : ℕ) → SendingsAreCounted topology.now n v }
{
    every_topology_is_a_network(topology); // law: a node sends by its own interfaces
    every_state_is_orderly::<Packet, NodeState>(); // law: events happen at their own nodes
}
