//! The headline.

ghost use Rattle.std.specs.Prelude.{List};
ghost use Rattle.nm_book.specs.Book.{BookValue};
ghost use Rattle.nm_rounds.specs.Headline.{Headline};
ghost use Rattle.nm_rounds.specs.Replay.{IsReplay};
ghost use Rattle.nm_rounds.specs.declared.replay.ReplayEnd.{ReplayEnd as AnEnding};
ghost use Rattle.nm_rounds.specs.declared.step.StepAnswer.{StepAnswer as AnAnswer};
ghost use Rattle.nm_rounds.specs.declared.step.WorldStep.{WorldStep as AStep};

use nm_base::Packet;
use nm_forward::NodeState;
use nm_knowledge::laws::packets_are_told_apart;
use nm_model::knowledge::join_laws;
use nm_model::replica::{cut_law, equal_knowledge_gives_equal_states, safe_time_is_the_least};
use nm_model::run::{keys_rise, times_pass};
use nm_model::world::{equal_knowledge_gives_equal_replicas, prefix_theorem};
use nm_sim::network::{channels_are_those_of_the_network, every_topology_is_a_network};
use nm_topology::Topology;
use nm_topology::topology::channels_are_numbered_by_their_receivers;

/// Whatever a replay reports, the headline holds of it: for every list of runs, messages sent and
/// sent again, null messages, deliveries, merges and restarts, what each replica knows, did, sent
/// and promises is what the network's one event list does, and what two replicas of a partition
/// know has a join.
pub fn the_headline_holds_of_every_replay(topology: &Topology)
    ensures { (steps : List AStep) (answers : List AnAnswer) (books : List BookValue)
        (ending : AnEnding) → IsReplay topology.now steps answers books ending
        → Headline topology.now answers books }
{
    every_topology_is_a_network(topology); // law: `net_of` is a network of the model
    channels_are_those_of_the_network(topology); // law: what comes in is a channel
    channels_are_numbered_by_their_receivers(topology); // law: with a number of its own
    packets_are_told_apart(); // law: equal packets are the same
    prefix_theorem::<Packet, NodeState>(); // law: the prefix theorem of the model's world
    safe_time_is_the_least::<Packet, NodeState>(); // law: the safe time is at most `stop`
    times_pass::<Packet, NodeState>(); // law: the network reaches `stop`
    cut_law::<Packet, NodeState>(); // law: a state of the network has done as many events
    keys_rise::<Packet, NodeState>(); // law: what comes by a channel rises in time
    join_laws::<Packet>(); // law: the join of what is true of one history
    equal_knowledge_gives_equal_states::<Packet, NodeState>();
    equal_knowledge_gives_equal_replicas::<Packet, NodeState>();
}
