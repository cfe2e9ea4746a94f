//! IPv4, UDP and ICMP, read from octets and written as octets, exactly.
#![tactic(auto)]

pub mod address;
mod checksum;
pub mod fault;
pub mod icmp;
pub mod ipv4;
pub mod laws;
pub mod limits;
mod octets;
pub mod udp;

pub use address::Address;
pub use fault::{HeaderFault, IcmpFault, UdpFault};
pub use icmp::{Icmp, IcmpView, MessageKind};
pub use ipv4::{Ipv4, Ipv4Header, Ipv4View, lower_in_place, lower_ttl, quote, write_ipv4};
pub use udp::{Ports, Udp, UdpView};
