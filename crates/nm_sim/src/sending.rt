//! What became of what a node sent.

use nm_base::IfaceNo;
use nm_iface::Start;
use nm_model::Offering;

/// What became of what a node sent, if it sent something.
#[derive(Drop)]
pub struct Sending {
    pub offering: Offering,
    /// The transmission that starts, and at which interface, if one does.
    pub start: Option<(IfaceNo, Start)>,
}
