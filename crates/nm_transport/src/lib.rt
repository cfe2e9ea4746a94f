//! What carries the octets of a replica: connections and a wait for them, over TCP or scripted by a
//! test. Time is counted in periods.
#![tactic(auto)]

pub mod ask_log;
pub mod bound;
pub mod laws;
pub mod limits;
mod period;
mod reading;
mod shortage;
mod spinning;
pub mod tcp_transport;
pub mod tcp_wire;
pub mod transport;

pub use ask_log::{AskLog, AskedToWait};
pub use bound::Bound;
pub use tcp_transport::TcpTransport;
pub use tcp_wire::TcpWire;
pub use transport::{Reported, Transport, Waited};
