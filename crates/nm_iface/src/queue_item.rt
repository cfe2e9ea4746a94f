//! What a port transmits.

ghost use Rattle.std.specs.Prelude.{◌≡◌, IsSome, IfSome};
ghost use Rattle.std.proofs.Props.{props};

use nm_base::{Packet, Twin};

/// A packet that waits or is transmitted, and its copy, if it is to be recorded.
#[derive(Drop)]
pub struct QueueItem {
    pub packet: Packet,
    pub copy: Option<Packet>,
    ghost equal: { IfSome copy (λ other. other ≡ packet) } by { Prim.hlevel props },
}

impl QueueItem {
    /// A packet that is to be recorded.
    #[inline(always)]
    pub fn of(twin: Twin) -> Self
        ensures packet { result.packet ≡ twin.packet }
        ensures copy { IsSome result.copy }
    {
        QueueItem {
            packet: twin.packet,
            copy: Some(twin.copy),
        }
    }

    /// A packet without a record.
    #[inline(always)]
    pub fn alone(packet: Packet) -> Self
        ensures { result.packet ≡ packet }
    {
        QueueItem { packet, copy: None }
    }
}
