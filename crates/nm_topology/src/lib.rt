//! From the topology text to the network, or to the first fault, in the passes of a compiler:
//! `parse` (the text, then its tables, with names), `names` (names and their numbers), `resolve`
//! (numbers in place of names), `build` (the wiring) and `validate` (the tests of the whole, in
//! their order).
#![tactic(auto)]

pub mod build;
pub mod fault;
pub mod keys;
pub mod laws;
pub mod names;
pub mod node;
pub mod parse;
pub mod parts;
pub mod prefix;
pub mod resolve;
pub mod topology;
pub mod traffic;
pub mod validate;

pub use fault::{Refusal, TopoFault, fault_number};
pub use node::NodeKind;
pub use prefix::Prefix;
pub use topology::Topology;
