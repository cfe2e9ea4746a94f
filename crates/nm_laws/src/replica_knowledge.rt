//! Replicas are what they know.

ghost use Rattle.std.specs.Prelude.{◌≡◌, false};
ghost use Rattle.nm_model.specs.Replica.{IsWithin};
ghost use Rattle.nm_model.specs.Run.{pends_before};
ghost use Rattle.nm_sim.specs.Network.{net_of};
ghost use Rattle.nm_book.specs.Book.{BookValue, knowledge, safe_of, state_of};
ghost use Rattle.nm_book.specs.Sisters.{KnowTheSame};

use nm_base::Packet;
use nm_forward::NodeState;
use nm_model::world::equal_knowledge_gives_equal_replicas;
use nm_sim::network::{channels_are_those_of_the_network, every_topology_is_a_network};
use nm_topology::Topology;
use nm_topology::topology::channels_are_numbered_by_their_receivers;

/// Two replicas of a partition with equal knowledge that have run all that is safe have done
/// equally many events, even if they belong to different replays, runs or nodes. By
/// `nm_book::laws::equal_knowledge_gives_equal_replicas` they are then equal: in their states, and
/// so in their traces, and in what they sent and promise.
pub fn equal_knowledge_runs_equally_far(topology: &Topology)
    ensures { (a b : BookValue) → a.topology ≡ topology.now → KnowTheSame a b
        → IsWithin (net_of a.topology) a.partition (knowledge a) a.events
        → IsWithin (net_of b.topology) b.partition (knowledge b) b.events
        → pends_before (safe_of a) (state_of a) ≡ false
        → pends_before (safe_of b) (state_of b) ≡ false → a.events ≡ b.events }
{
    every_topology_is_a_network(topology); // law: `net_of` is a network of the model
    channels_are_those_of_the_network(topology); // law: what comes in is a channel
    channels_are_numbered_by_their_receivers(topology); // law: with a number of its own
    equal_knowledge_gives_equal_replicas::<Packet, NodeState>(); // law: of the model's replicas
}
