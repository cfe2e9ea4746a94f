//! Event lists: the events of a simulation that are still to come, by key.
#![tactic(auto)]

mod entry;
pub mod event_list;
pub mod heap_list;
mod order;
pub mod sorted_list;

pub use event_list::EventList;
pub use heap_list::HeapList;
pub use sorted_list::SortedList;
