//! The simulator: a part of a simulation, the whole network with one event list or one partition
//! that is fed with messages, goes on event by event.
#![tactic(auto)]

mod devices;
mod due;
mod fired;
mod here;
mod in_flight;
pub mod network;
mod outgoing;
pub mod part;
mod records;
mod sending;
mod timeline;
pub mod told;
pub mod trace;
pub mod tracer;
pub mod traffic;
mod transmitted;

pub use part::Part;
pub use told::{Arrived, Happened, Started, Told};
pub use trace::one_list;
pub use tracer::Tracer;
pub use traffic::{Amount, IfaceTraffic};
