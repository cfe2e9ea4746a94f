//! What a node does with a packet.
#![tactic(auto)]

mod addresses;
pub mod counter;
mod counters;
pub mod in_place;
pub mod laws;
mod node;
mod originate;
mod prepared;
pub mod reaction;
pub mod routes;
mod row;
pub mod state;

pub use counter::Counter;
pub use in_place::{Handled, react_in_place};
pub use nm_base::Origin;
pub use reaction::{Reaction, react};
pub use routes::Routes;
pub use state::NodeState;
