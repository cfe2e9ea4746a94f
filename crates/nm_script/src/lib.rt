//! Scripts of a world: a text to its steps, and what the steps answered to a text.
#![tactic(auto)]

pub mod fault;
pub mod laws;
pub mod line;
mod numbers;
pub mod report;
pub mod script;
mod tokens;

pub use fault::{BadLine, ScriptFault};
pub use report::report_text;
pub use script::read_script;
