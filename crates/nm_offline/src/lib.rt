//! The words of nullsim that open no connection: each as a function over inputs and a sink.
#![tactic(auto)]

pub mod all;
pub mod asked;
pub mod certify;
pub mod checking;
mod finding;
pub mod input;
pub mod inputs;
pub mod lines;
pub mod mem_inputs;
mod opening;
pub mod output;
pub mod packets;
mod part_files;
pub mod path;
pub mod reading;
pub mod rounds;
pub mod script;
pub mod series;
pub mod shown;
pub mod trace_file;
pub mod traces;
pub mod verify;

pub use input::NamedInputs;
pub use inputs::Inputs;
pub use mem_inputs::MemInputs;
