//! Measurements of a run of a whole network, event by event: traffic, drops, queues, busy times,
//! and what becomes of the packets of sources.
#![tactic(auto)]

mod boxed_tag;
pub mod courses;
pub mod delays;
mod fates;
pub mod flow_counts;
pub mod flow_times;
mod flows;
mod interfaces;
mod lane;
pub mod level;
pub mod lines;
pub mod measured;
mod measuring;
pub mod queue;
mod role;
pub mod seen;
pub mod share;
pub mod spread;
mod sums;
mod tag;
mod tags;
pub mod totals;
pub mod usage;
mod watched;
pub mod ways;

pub use courses::{Course, Ended, Hop};
pub use delays::Delays;
pub use flow_counts::{FlowCounts, PacketOutcome};
pub use flow_times::{FlowTimes, rate_of};
pub use lines::{Appended, MadeText, end_line};
pub use measured::Measured;
pub use measuring::measure;
pub use share::thousandths;
pub use totals::{FlowTotals, IfaceTotals};
