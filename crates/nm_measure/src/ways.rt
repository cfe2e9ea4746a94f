//! Laws of the ways of packets.

ghost use Rattle.std.specs.Prelude.{◌≡◌, ℕ, ◌≤◌, Some};
ghost use Rattle.nm_model.specs.Lists.{nth};
ghost use Rattle.nm_measure.specs.Courses.{hops_in, passes_in};
ghost use Rattle.nm_measure.specs.declared.courses.Hop.{Hop};

use crate::tag::Tag;
use crate::tags::tags_change_no_run;
use nm_base::Packet;
use nm_forward::NodeState;
use nm_model::trace::records_in_order;
use nm_topology::Topology;

/// Along the way of a packet, from hop to hop, time does not go back.
pub fn time_passes_along_ways(topology: &Topology)
    ensures { (j k n a b : ℕ) (g h : Hop) → a ≤ b
        → nth (hops_in j k (passes_in topology.now n)) a ≡ Some g
        → nth (hops_in j k (passes_in topology.now n)) b ≡ Some h → g.time ≤ h.time }
{
    tags_change_no_run(topology); // law: packets with tags are a network of the model
    records_in_order::<(Tag, Packet), NodeState>(); // law: of any network
}
