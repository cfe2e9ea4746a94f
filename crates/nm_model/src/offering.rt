//! What becomes of what a node sends.

use nm_base::IfaceNo;

/// What becomes of the packet that a node sends in an event, if it sends one.
#[derive(Clone, Copy)]
pub enum Offering {
    /// The node sends nothing.
    Nothing,
    /// The packet's transmission starts at this interface.
    Started(IfaceNo),
    /// It waits there, behind others.
    Waits(IfaceNo),
    /// There is no room there, and it is gone.
    Dropped(IfaceNo),
}
