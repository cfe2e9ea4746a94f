//! One replica over a transport: its connections, and the loop that serves them.
#![tactic(auto)]

mod acting;
pub mod acts;
mod closing;
mod connection;
mod connections;
mod figuring;
pub mod laws;
pub mod limits;
mod neighbours;
mod news;
mod noting;
mod opening;
mod own_part;
mod polling;
mod recording;
pub mod replica;
pub mod seats;
pub mod served;
mod serving;
mod sessions;
mod settling;
mod sisters;
mod staying;
mod telling;
mod turning;
mod waiting;

pub use replica::{Holdings, Running, Service, poll_replica, run_replica};
pub use seats::OwnSeats;
pub use served::Served;
