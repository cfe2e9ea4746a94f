//! A packet on its way over a link.

use crate::due::Due;
use nm_base::{IfaceNo, Packet};

/// A packet on its way over a link, from one of its two interfaces to the other, and when it
/// arrives there, with its number.
#[derive(Drop)]
pub struct InFlight {
    pub from: IfaceNo,
    pub to: IfaceNo,
    pub due: Due,
    pub packet: Packet,
}
