//! The meaning of a network's run, what a partition computes from the messages that it received,
//! and the laws that tie the two together.
//!
//! The definitions are in `specs/`, over an abstract network with opaque packets and nodes. Each
//! function here has an empty body, and its contract is a law: `docs/MODEL.md` lists them.
#![tactic(auto)]

pub mod certificate;
pub mod example;
pub mod knowledge;
pub mod offering;
pub mod orderly;
pub mod port;
pub mod promise;
pub mod replica;
pub mod rounds;
pub mod run;
pub mod steps;
pub mod tags;
pub mod trace;
pub mod world;

pub use offering::Offering;
