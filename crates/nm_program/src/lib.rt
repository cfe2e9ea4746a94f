//! The program of nullsim as one function over words, inputs and sinks.
#![tactic(auto)]

pub mod means;
mod node;
mod node_inputs;
mod own_files;
pub mod program;
mod runs;

pub use means::{Means, Notes};
pub use nm_offline::{Inputs, MemInputs, NamedInputs};
pub use nm_run::Runtime;
pub use program::{conclude, report, run};
