//! The head of a topology text, on which the reading of its tables depends.

/// The formats of topology texts.
#[derive(Clone, Copy)]
pub enum Format {
    /// Queues have a limit in packets.
    One,
    /// Queues may have a limit in octets too.
    Two,
}

/// The head of a text.
#[derive(Clone, Copy)]
pub struct Head {
    pub format: Format,
    /// The greatest total length of an IPv4 packet, in octets.
    pub mtu: u16,
}
