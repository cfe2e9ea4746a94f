//! Why a script is refused.

use nm_base::Fault;
use thiserror::Error;

/// The first line, counted from 1, that is no line of a script, that has no line feed at its end,
/// or that is a step past the first 1,000,000 (`MAX_SCRIPT_STEPS`).
#[derive(Clone, Copy, Debug, PartialEq, Eq, Error)]
#[error("line {number} of the script")]
pub struct BadLine {
    pub number: u64,
}

/// Why a script is not read: a line is bad, or memory was refused.
pub type ScriptFault = Fault<BadLine>;
