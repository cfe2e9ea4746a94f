//! A node in its topology.

ghost use Rattle.nm_forward.specs.State.{Knows};

use crate::state::NodeState;
use nm_topology::Topology;

/// The state of a node, and the topology that it comes from. Nothing changes while they are looked
/// at.
#[derive(Clone, Copy)]
pub(crate) struct NodeView<'a> {
    pub topology: &'a Topology,
    pub state: &'a NodeState,
    ghost known: { Knows topology.now state.now },
}
