//! What threads share: replicas behind locks, a board of clocks without a lock, and a pool of
//! workers.
#![tactic(auto)]

pub mod act;
pub mod acts;
pub mod board;
mod calls;
pub mod counts;
mod flag;
pub mod known;
pub mod ledgers;
pub mod lending;
pub mod plain;
pub mod shared_book;
mod word;
pub mod workers;

pub use act::Act;
pub use board::{ClockBoard, OwnerSeat, Seat};
pub use calls::{MergeAnswer, OwnRun};
pub use counts::Counts;
pub use ledgers::{Ledgers, Naming};
pub use lending::{GivenBack, Lending, Lent, NotLent, Notified, TakenNews};
pub use plain::Plain;
pub use shared_book::{Closed, Pass, PassesOut, SharedBook};
pub use workers::{Entered, Gate, Job, OpenGate, PoolReport, pool};
