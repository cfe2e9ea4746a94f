//! A replica of a partition: what it knows of the channels that come in, and what it did with it.
#![tactic(auto)]

pub mod book;
pub mod channels;
pub mod fault;
pub mod knowledge;
pub mod laws;
mod learning;
mod merging;
pub mod message;
mod promise;
pub mod running;
mod safe;

pub use book::Book;
pub use fault::{AcceptFault, BookFault, BookRefusal, MergeFault, MergeRefusal};
pub use knowledge::Knowledge;
pub use message::{ChanMsg, ChannelMessage, Data, Null};
pub use running::Ran;
