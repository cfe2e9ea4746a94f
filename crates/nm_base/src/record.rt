//! Records of a trace.

use crate::{IfaceNo, Packet, Time};

/// Which way a packet passed its interface.
#[derive(Clone, Copy, PartialEq, Eq)]
pub enum Dir {
    /// The packet arrived.
    In,
    /// Its transmission started.
    Out,
}

/// One line of a trace: a packet that arrived at an interface, or whose transmission started there.
#[derive(Drop, PartialEq, Eq)]
pub struct Record<P = Packet> {
    pub time: Time,
    pub dir: Dir,
    pub iface: IfaceNo,
    pub packet: P,
}
