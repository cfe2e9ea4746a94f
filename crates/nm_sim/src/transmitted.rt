//! What the trace is to have of a transmission.

use nm_base::{IfaceNo, Packet};

/// A transmission that started, for the trace.
#[derive(Drop)]
pub struct Transmitted {
    pub iface: IfaceNo,
    /// How many octets the packet has.
    pub octets: u16,
    /// A copy of the packet, if it is to be recorded.
    pub copy: Option<Packet>,
}
