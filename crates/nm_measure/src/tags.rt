//! The run over packets with tags.

ghost use Rattle.std.specs.Prelude.{ℕ, true};
ghost use Rattle.nm_model.specs.Network.{IsNet};
ghost use Rattle.nm_model.specs.Orderly.{IsOrderly};
ghost use Rattle.nm_model.specs.Run.{one_list};
ghost use Rattle.nm_model.specs.RunLaws.{KeysRise};
ghost use Rattle.nm_model.specs.Tags.{IsUntagged};
ghost use Rattle.nm_sim.specs.Network.{net_of};
ghost use Rattle.nm_measure.specs.Tagged.{SendsByOwn};
ghost use Rattle.nm_measure.specs.Ways.{tagged_list, tagged_net};

use crate::tag::Tag;
use nm_base::Packet;
use nm_forward::NodeState;
use nm_forward::laws::a_node_sends_by_its_own_interfaces;
use nm_model::orderly::every_state_is_orderly;
use nm_model::run::keys_rise;
use nm_model::tags::{tags_change_nothing, tags_keep_networks};
use nm_sim::network::every_topology_is_a_network;
use nm_topology::Topology;

/// The one event list over packets with tags is that without, and the laws of networks hold of it.
pub(crate) fn tags_change_no_run(topology: &Topology)
    ensures same { (n : ℕ)
        → IsUntagged (tagged_list topology.now n) (one_list (net_of topology.now) n) }
    ensures network { IsNet (tagged_net topology.now) }
    ensures orderly { (n : ℕ)
        → IsOrderly (tagged_net topology.now) (λ q. true) (tagged_list topology.now n) }
    ensures rises { (n : ℕ) → KeysRise (tagged_net topology.now) n }
    ensures counts { (n : ℕ) → KeysRise (net_of topology.now) n }
    ensures own { SendsByOwn topology.now }
{
    every_topology_is_a_network(topology); // law: `net_of` is a network of the model
    a_node_sends_by_its_own_interfaces(topology); // law: reactions
    tags_change_nothing::<Packet, NodeState, Tag>(); // law: no event reads a tag
    tags_keep_networks::<Packet, NodeState, Tag>(); // law: it is a network of the model
    every_state_is_orderly::<(Tag, Packet), NodeState>(); // law: what is pending
    keys_rise::<(Tag, Packet), NodeState>(); // law: numbers of events
    keys_rise::<Packet, NodeState>(); // law: numbers of events
}
