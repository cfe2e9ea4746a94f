//! The steps of a run.

ghost use Rattle.std.specs.Prelude.{◌≡◌, ◌+◌, ◌*◌, ◌<◌, ◌≤◌, min, length};
ghost use Rattle.nm_base.specs.declared.limits.TheConstants.{MAX_TIME};
ghost use Rattle.nm_series.specs.Steps.{steps_in};

use nm_base::Time;
use nm_topology::Topology;
use nm_topology::topology::accepted_topologies_are_in_order;

/// The most rows of a series.
pub const MAX_ROWS: u64 = 10_000_000;

/// The end of a step that begins at this time and is this long, in nanoseconds: `stop`, if that
/// comes first.
pub(crate) fn end_of(topology: &Topology, from: Time, step: u64) -> Time
    ensures { result ≡ min (from + step) topology.now.stop }
{
    accepted_topologies_are_in_order(topology); // law: `stop` is within its limit
    let end = from.nanoseconds().saturating_add(step);
    Time::from_nanoseconds(end.min(topology.stop().nanoseconds()))
}

/// How many steps of so many nanoseconds a run has; the last may be shorter.
pub fn steps_in(topology: &Topology, step: u64) -> u64
    requires { 1 ≤ step }
    ensures { result ≡ steps_in step topology.now.stop }
{
    accepted_topologies_are_in_order(topology); // law: `stop` is within its limit
    topology.stop().nanoseconds().div_ceil(step)
}
