//! Kinds of nodes.

/// What a node does with a packet for another node.
#[derive(Clone, Copy, PartialEq, Eq)]
pub enum NodeKind {
    /// It drops the packet.
    Host,
    /// It forwards the packet (RFC 1812).
    Router,
}
