//! Which replica of a network it is.

use nm_base::PartNo;

/// Which replica of a network it is.
#[derive(Clone, Copy, PartialEq, Eq)]
pub struct ReplicaName {
    pub partition: PartNo,
    /// 0 or 1.
    pub replica: u8,
}
