//! The steps of a series add up to the run.

ghost use Rattle.std.specs.Prelude.{ℕ};
ghost use Rattle.nm_laws.specs.Series.{BeginAt, HadAddsUp};

use nm_topology::Topology;

/// The additions of an interface in each step of a series, from the first one on, sum up to its
/// counts at the end of the last of them: packets and octets that came and went, and packets
/// dropped. So the rows of a whole series add up to the counts of a report.
pub fn steps_add_up(topology: &Topology)
    ensures { (step : ℕ) (events : ℕ → ℕ) → BeginAt topology.now events step
        → HadAddsUp topology.now events }
{}
