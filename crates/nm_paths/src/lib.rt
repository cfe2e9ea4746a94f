//! Where packets go, before one moves: with static routes a packet's way depends on its destination
//! and its time to live alone.
//!
//! That a walk takes the turns of `nm_forward`'s table, by the same routes, is proved
//! (`ways::walk`, `laws`). Which remarks there are (`survey`), and in which words, is tested by
//! cases and not proved.
#![tactic(auto)]

mod demand;
mod ending;
pub mod laws;
mod load;
mod path;
mod places;
mod raw;
mod sender;
mod survey;
pub mod tables;
pub mod turn;
pub mod ways;

pub use path::path_text;
pub use survey::way_remarks;
pub use tables::Tables;
pub use turn::WalkEnd;
pub use ways::{Way, walk, walk_by};
