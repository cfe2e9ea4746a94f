//! All partitions of a network at once, each as one or two replicas over TCP, and the certificate
//! of their books.
#![tactic(auto)]

mod closing;
mod dispatching;
mod endings;
pub mod fault;
mod files;
mod gates;
mod going;
mod jobs;
mod keeping;
mod loans;
mod placing;
mod posts;
pub mod report;
pub mod run;
pub mod runtime;
mod sides;
mod stations;
pub mod stop;
mod threads;
mod told;
mod waiting;
mod waking;

pub use fault::{RunCause, RunFault};
pub use report::{IfaceTotals, Report};
pub use run::{RunPlan, run_all};
pub use runtime::Runtime;
