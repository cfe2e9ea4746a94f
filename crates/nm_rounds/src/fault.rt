//! Why there is no report.

use nm_topology::TopoFault;

/// Why a replay did not begin: the topology text is refused, or memory was before the first step,
/// in the reading of the text too. Nothing is left behind.
pub type ReplayFault = TopoFault;
