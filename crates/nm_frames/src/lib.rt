//! Frames: what replicas of two partitions send each other over a connection, octet by octet, and
//! what a connection owes next.
#![tactic(auto)]

pub mod channels;
pub mod fault;
pub mod format;
pub mod frame;
pub mod laws;
mod owed;
mod parse;
pub mod reader;
pub mod replica_name;
mod rest;
pub mod session;
pub mod session_fault;
pub mod side;
pub mod taken;
pub mod version;
mod write;

pub use fault::FrameFault;
pub use frame::{Frame, Have, Hello};
pub use reader::Reader;
pub use replica_name::ReplicaName;
pub use session::Session;
pub use session_fault::SessionFault;
pub use taken::Taken;
pub use version::Version;
pub use write::write_frame;
