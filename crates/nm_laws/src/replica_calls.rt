//! What a replica did stays, whatever is done with it.

ghost use Rattle.std.specs.Prelude.{◌≡◌, ℕ, ◌≤◌, List};
ghost use Rattle.nm_model.specs.Lists.{IsPrefix};
ghost use Rattle.nm_model.specs.Replica.{IsWithin};
ghost use Rattle.nm_sim.specs.Network.{net_of};
ghost use Rattle.nm_book.specs.Book.{BookValue, knowledge, sent_over, state_of};
ghost use Rattle.nm_laws.specs.ReplicaCalls.{AreInOrder, Call, GoesOn};

use nm_base::Packet;
use nm_forward::NodeState;
use nm_knowledge::laws::packets_are_told_apart;
use nm_model::knowledge::{accept_laws, join_faults_are_right, join_laws, under_laws};
use nm_model::replica::what_was_done_stays;
use nm_sim::network::every_topology_is_a_network;
use nm_topology::Topology;

/// Over any calls of a replica, in whatever order, by whomever and whatever they answered, what it
/// recorded and what it sent stays, and more is put behind it; what was handed out and done is not
/// taken back. So what two looks at a replica find, with any calls between them, are a beginning
/// and more of it.
pub fn what_was_done_stays_done(topology: &Topology)
    ensures { (b last : BookValue) (calls : List (Call × BookValue)) → b.topology ≡ topology.now
        → AreInOrder b.knows
        → IsWithin (net_of b.topology) b.partition (knowledge b) b.events
        → GoesOn b calls last
        → IsPrefix (state_of b).records (state_of last).records
        × ((c : ℕ) → IsPrefix (sent_over b c) (sent_over last c))
        × (b.handed ≤ last.handed) × (b.events ≤ last.events) × AreInOrder last.knows }
{
    every_topology_is_a_network(topology); // law: `net_of` is a network of the model
    packets_are_told_apart(); // law: equal octets are found equal, and others not
    accept_laws::<Packet>(); // law: taking a message or a null message adds to what is known
    under_laws::<Packet>(); // law: adding to what was added to adds
    join_laws::<Packet>(); // law: a join is in order
    join_faults_are_right::<Packet>(); // law: what has no fault is joined
    what_was_done_stays::<Packet, NodeState>(); // law: over more knowledge it stays
}
