//! A measured run of a whole network.

ghost use Rattle.std.specs.Prelude.{IfOk};
ghost use Rattle.nm_measure.specs.Measured.{IsMeasured};

use crate::measured::Measured;
use nm_progress::Progress;
use nm_topology::Topology;
use std::alloc::{AllocError, Global};

/// Runs a whole network by one event list to its `stop`, and measures it. Progress is noted now and
/// then.
///
/// # Errors
///
/// If memory was refused.
pub fn measure(
    alloc: Global,
    topology: &Topology,
    progress: &Progress,
) -> Result<Measured, AllocError>
    ensures { IfOk result (IsMeasured topology.now) }
{
    let mut measured = Measured::begin(alloc, topology, None)?;
    measured.advance(alloc, topology, topology.stop(), progress)?;
    Ok(measured)
}
