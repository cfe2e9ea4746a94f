//! A source of traffic of an accepted topology.

ghost use Rattle.std.specs.Prelude.{◌≡◌, ℕ, ◌<◌, Some, length, IfOk};
ghost use Rattle.nm_traffic.specs.Source.{packet_at, source_at, source_of};

use crate::kind::Kind;
use crate::packet::TimedPacket;
use nm_base::{SourceNo, Time};
use nm_topology::Topology;
use nm_topology::topology::accepted_topologies_are_in_order;
use std::alloc::{AllocError, Global};
use std::marker::Model;

/// A source of traffic. A clause sees when the run stops, and the source of the topology.
#[derive(Drop)]
pub struct Source {
    stop: Time,
    kind: Kind,
}

impl Model for Source {
    ghost use Rattle.nm_traffic.specs.Kinds.{traffic_of};
    ghost use Rattle.nm_traffic.specs.SourceValues.{SourceValue};

    ghost Value = { SourceValue };

    ghost view = { λ s. record { stop = s.stop; traffic = traffic_of s.kind } };
}

impl Source {
    /// The source with this number. What its packets share is made here, once.
    #[tactic(auto, unfolding(crate::specs::Source::source_at, crate::specs::Source::source_of))]
    pub fn new(alloc: Global, topology: &Topology, source: SourceNo) -> Result<Self, AllocError>
        requires { source < length topology.now.sources }
        ensures value { IfOk result (λ s. source_of topology.now source ≡ Some s) }
        // So what `next` answers is the packet of this source of the topology.
        ensures packets { IfOk result (λ s. (number : ℕ)
            → source_at topology.now source number ≡ packet_at s.stop s.traffic number) }
    {
        accepted_topologies_are_in_order(topology); // law: the source is within its limits
        let traffic = &topology.sources()[source.index()].traffic;
        Ok(Source {
            stop: topology.stop(),
            kind: Kind::new(alloc, topology.mtu(), traffic)?,
        })
    }

    /// Packet `number`, from 0, and its time; `None` if the source has no such packet, or none
    /// before the run stops. Nothing is changed: after an `Err` the same call may succeed.
    pub fn next(&self, alloc: Global, number: u64) -> TimedPacket
        ensures { IfOk result (λ p. p ≡ packet_at self.now.stop self.now.traffic number) }
    {
        self.kind.packet(alloc, self.stop, number)
    }
}
