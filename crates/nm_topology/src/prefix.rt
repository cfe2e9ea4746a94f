//! Prefixes of addresses, to which routes lead.

use nm_packet::Address;

/// A prefix: the addresses that begin with the first `length` bits of `address`, whose other bits
/// are 0 (RFC 4632, section 3.1).
#[derive(Clone, Copy, PartialEq, Eq)]
pub struct Prefix {
    pub address: Address,
    pub length: u8,
}
