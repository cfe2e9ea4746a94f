//! Links: a session over a wire that may break at any octet.
#![tactic(auto)]

pub mod acceptor;
pub mod acts;
pub mod answer;
pub mod counting_wire;
pub mod given;
pub mod given_before;
mod giving;
pub mod laws;
pub mod link;
mod out;
mod parts;
pub mod reading;
mod taking;
mod turning;
mod writing;

pub use acceptor::Acceptor;
pub use answer::{Cause, Turn};
pub use counting_wire::CountingWire;
pub use given::{Given, GivenCounts, GivenMessages};
pub use given_before::GivenBefore;
pub use link::Link;
pub use reading::ReadBuffer;
