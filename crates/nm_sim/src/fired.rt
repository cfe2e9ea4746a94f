//! What follows when a source makes a packet.

use nm_base::Time;
use nm_forward::Reaction;
use nm_traffic::SourcePacket;

/// What follows when a source makes a packet.
#[derive(Drop)]
pub struct Fired {
    /// What its node does with the packet.
    pub reaction: Reaction,
    /// The source's next packet, and when it comes.
    pub follows: Option<(Time, SourcePacket)>,
}
