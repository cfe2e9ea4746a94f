//! The files of a partition.

use nm_files::LeastChecked;

/// The files of a partition: a file of what one of its replicas knew, and trace files, with headers
/// read up to the first that differs. Those of its own interfaces are looked at.
#[derive(Drop)]
pub struct PartFiles<B> {
    /// Which replica it was: 0 or 1. For another one nothing is read, and the answer is `Failed`.
    pub replica: u8,
    pub known: B,
    pub traces: LeastChecked<B>,
}
