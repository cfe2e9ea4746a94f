//! The trace files beside a file of what a replica knows: those of its partition.

use nm_base::{IfaceNo, PartNo};
use nm_book::channels::partition_of;
use nm_files::Choice;
use nm_topology::Topology;

/// The interfaces of a partition.
#[derive(Clone, Copy)]
pub struct OfPartition {
    pub partition: PartNo,
}

impl Choice for OfPartition {
    ghost use Rattle.std.specs.Prelude.{◌==◌};
    ghost use Rattle.nm_model.specs.Partition.{receiver_of};
    ghost use Rattle.nm_sim.specs.Network.{net_of};

    ghost chooses = { λ c t n iface. receiver_of (net_of t) n == c.partition };

    fn chooses(&self, topology: &Topology, iface: IfaceNo) -> bool {
        partition_of(topology, iface) == self.partition
    }
}
