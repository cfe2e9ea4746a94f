//! What a receiver knows of a channel: the messages that came, in their order, and the channel
//! clock (Misra, "Distributed Discrete-Event Simulation", Computing Surveys 18(1), 1986, section
//! 2).
//!
//! Knowledge grows by messages, by null messages and by joining a replica's. What contradicts it is
//! refused and changes nothing, so that frames may be lost, repeated and come in any order.
#![tactic(auto)]

pub mod answer;
pub mod gain;
pub mod know;
pub mod laws;
mod messages;

pub use answer::{Accepted, KnowFault};
pub use gain::Gain;
pub use know::Know;
