//! Laws of what is offered to interfaces.

ghost use Rattle.std.specs.Prelude.{ℕ};
ghost use Rattle.nm_sim.specs.Network.{net_of};
ghost use Rattle.nm_laws.specs.Offered.{AreAccountedFor};

use nm_topology::Topology;

/// After any number of events, the packets that were offered to an interface are as many as those
/// whose transmission started, those that wait and those that were dropped; and those that were not
/// dropped start in the order in which they were offered.
pub fn offers_are_accounted_for(topology: &Topology)
    ensures { (n i : ℕ) → AreAccountedFor (net_of topology.now) n i }
{}
