//! What is wrong with a topology text and where, and what an accepted one has, in words.
//!
//! Each kind of table is a list of fields (`nm_topology::keys`): its keys in the order in which
//! they are read, and the value of each. A table's fault is at the first field that is refused, and
//! the text's fault in the first table that its reader refuses (`place::find`). That the lists
//! refuse what the readers of `nm_topology` refuse is proved (`laws`), and that the text is refused
//! for what is refused there (`locate`). The faults of the whole, as of a link to nothing, are
//! found by tests of their own (`whole`), most of which are tested and not proved.
#![tactic(auto)]

mod doubles;
mod expected;
mod explanation;
mod faults;
mod field_sentence;
mod first;
mod hint;
mod lack;
pub mod laws;
mod line;
mod locate;
mod names;
pub mod nearest;
mod overview;
mod packet;
mod pieces;
mod place;
mod reading;
mod remarks;
mod sentence;
mod spot;
mod units;
mod whole;
mod whole_sentence;

pub use explanation::explain;
pub use overview::{least_lookahead, summary};
