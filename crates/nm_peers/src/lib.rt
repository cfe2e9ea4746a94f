//! Where the replicas of a network listen, as a text, and which of them are peers.
#![tactic(auto)]

pub mod fault;
pub mod laws;
mod line;
pub mod listener;
pub mod peers;
pub mod read;

pub use fault::{ListenersFault, NoListeners};
pub use listener::Listener;
pub use peers::{Peers, peers_of};
pub use read::read_listeners;
