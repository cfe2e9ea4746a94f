//! The sources of traffic of an accepted topology: when their packets come, and what they give to
//! their nodes.
#![tactic(auto)]

mod cbr;
mod echo;
mod flow;
mod kind;
pub mod laws;
pub mod packet;
mod raw;
pub mod source;

pub use packet::SourcePacket;
pub use source::Source;
