//! A file of what a replica knows: written when the replica is done, and read into a fresh book, so
//! that a certificate can be made of what replicas on several machines knew. Its octets are frames,
//! as of a connection.
#![tactic(auto)]

pub mod keeping;
pub mod known_fault;
pub mod laws;
pub mod own_traces;
pub mod reading;
mod taking;
pub mod writing;

pub use keeping::{keep_known, known_name};
pub use known_fault::{KnownCause, KnownFault, KnownWriteFault};
pub use own_traces::OfPartition;
pub use reading::read_known;
pub use writing::write_known;
