//! What interfaces and sources do over time, how delays are spread, and the ways of packets, each
//! as comma-separated values (RFC 4180).
#![tactic(auto)]

mod buckets;
mod cells;
mod flow_rows;
mod iface_rows;
mod packets;
mod series;
pub mod steps;

pub use buckets::delays_text;
pub use packets::packets_text;
pub use series::{Series, Span, Totals};
