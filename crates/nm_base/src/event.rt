//! Events, and where the packets that a node reacts to come from.

ghost use Rattle.std.specs.Prelude.{◌≡◌};
ghost use Rattle.nm_base.specs.Event.{event_place};

use crate::{IfaceNo, Packet, Place, SourceNo};

/// An event that is to come: what happens, and where. The time and the number of its `Key` say
/// when, and which of its place's events it is.
#[derive(Drop)]
pub enum Event<P = Packet> {
    /// A packet comes to its node: it arrives at an interface, or a source makes it.
    Delivery(Origin, P),
    /// An interface completes a transmission.
    Completion(IfaceNo),
}

impl Event {
    /// Its place in the order of keys.
    pub fn place(&self) -> Place
        ensures { result ≡ event_place self.now }
    {
        match self {
            Event::Delivery(Origin::Arrival(iface), _) => Place::Arrive(*iface),
            Event::Delivery(Origin::Source(source), _) => Place::Fire(*source),
            Event::Completion(iface) => Place::Complete(*iface),
        }
    }
}

/// Where a packet that a node reacts to comes from.
#[derive(Clone, Copy)]
pub enum Origin {
    /// It arrived at this interface of the node.
    Arrival(IfaceNo),
    /// This source of the node makes it.
    Source(SourceNo),
}
