//! Interfaces: the transmission of packets, one at a time, and the queue behind it.
#![tactic(auto)]

mod octets;
pub mod port;
pub mod queue_item;
pub mod transmission;

pub use port::{Offered, OfferedAlone, Port, Start};
pub use queue_item::QueueItem;
pub use transmission::transmission_time;
