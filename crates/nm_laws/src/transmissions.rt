//! Laws of transmissions.

ghost use Rattle.std.specs.Prelude.{ℕ, List, min};
ghost use Rattle.nm_base.specs.declared.record.Record.{Record};
ghost use Rattle.nm_model.specs.Run.{one_list};
ghost use Rattle.nm_sim.specs.Network.{net_of};
ghost use Rattle.nm_sim.specs.Trace.{IsTraceBefore};
ghost use Rattle.nm_laws.specs.Transmissions.{AllArrive, ArriveInOrder, DoNotOverlap, AreOfPackets};

use nm_base::Packet;
use nm_forward::NodeState;
use nm_forward::laws::a_sent_packet_fits;
use nm_model::orderly::every_state_is_orderly;
use nm_model::trace::what_starts_arrives;
use nm_sim::network::every_topology_is_a_network;
use nm_topology::Topology;
use nm_topology::topology::accepted_topologies_are_in_order;
use nm_traffic::laws::source_times_rise;

/// Each record is of a packet that has 1 to 65,535 octets.
pub fn packets_have_octets(topology: &Topology)
    ensures events { (n : ℕ) → AreOfPackets (one_list (net_of topology.now) n).records }
    ensures trace { (until : ℕ) (records : List (Record (List ℕ)))
        → IsTraceBefore topology.now until records → AreOfPackets records }
{
    every_topology_is_a_network(topology); // law: transmissions take time
    accepted_topologies_are_in_order(topology); // law: limits
    source_times_rise(topology); // law: packets of sources
    a_sent_packet_fits(); // law: packets that nodes send
    every_state_is_orderly::<Packet, NodeState>(); // law: sources bring their own packets
    what_starts_arrives::<Packet, NodeState>(); // law: what arrives has started
}

/// The transmissions of an interface do not overlap: after any number of events, and so in a trace.
pub fn transmissions_do_not_overlap(topology: &Topology)
    ensures events { (n : ℕ)
        → DoNotOverlap topology.now (one_list (net_of topology.now) n).records }
    ensures trace { (until : ℕ) (records : List (Record (List ℕ)))
        → IsTraceBefore topology.now until records → DoNotOverlap topology.now records }
{
    every_topology_is_a_network(topology); // law: `net_of` is a network of the model
    packets_have_octets(topology); // law: so their time is that of their octets
    what_starts_arrives::<Packet, NodeState>(); // law: transmissions of the model stand apart
}

/// What arrives at an interface are the transmissions at the far end of its link, in the order in
/// which they started, each later by its transmission time and the link's delay: after any number
/// of events the first of them, and in a trace all that arrive before its end.
pub fn transmissions_arrive_in_order(topology: &Topology)
    ensures events { (n : ℕ)
        → ArriveInOrder topology.now (one_list (net_of topology.now) n).records }
    ensures trace { (until : ℕ) (records : List (Record (List ℕ)))
        → IsTraceBefore topology.now until records
        → AllArrive topology.now (min until topology.now.stop) records }
{
    every_topology_is_a_network(topology); // law: links have two ends
    packets_have_octets(topology); // law: so their time is that of their octets
    what_starts_arrives::<Packet, NodeState>(); // law: what starts arrives, and nothing else
}
