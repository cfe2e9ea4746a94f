//! One replica of a partition as a process of its own, over TCP.
#![tactic(auto)]

pub mod ending;
pub mod fault;
pub mod laws;
pub mod process;

pub use ending::ProcessEnd;
pub use fault::{ProcessCause, ProcessFault};
pub use process::{Process, run_process};
