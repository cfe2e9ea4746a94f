//! How a packet counts for a source.

/// How a packet counts for a source.
#[derive(Clone, Copy, Drop)]
pub(crate) enum Role {
    /// The source made it.
    Sent,
    /// It is the echo reply to a packet that the source made.
    Reply,
    /// Not at all: it is an ICMP error.
    Nothing,
}
