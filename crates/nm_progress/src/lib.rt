//! How far a run is: noted by the threads that run it, and shown to whoever waits for it.
#![tactic(auto)]

pub mod figures;
pub mod line;
pub mod peers;
pub mod progress;
pub mod table;

pub use figures::{Figure, Figures, ReplicaFigures};
pub use line::push_line;
pub use peers::{CallerName, PeerName};
pub use progress::{Progress, Seen};
pub use table::{push_state, push_table};
