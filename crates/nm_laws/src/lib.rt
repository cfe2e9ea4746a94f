//! Laws, each over every topology and every number of events. Of its network and the one event
//! list, in the words of network engineers: what nodes count (`counters`), what ports are offered
//! (`offers`), when and in which order packets are transmitted (`transmissions`), and that the rows
//! of a series add up (`series`). Of replicas: what they know decides how far they are
//! (`replica_knowledge`), no call takes back what was done (`replica_calls`), and two sessions that
//! talk with each other end with Bye (`sessions`).
//!
//! The definitions are in `specs/`. Each function here does nothing but call the laws on which its
//! own rests, and its contract is a law.
#![tactic(auto)]

pub mod counters;
pub mod offers;
pub mod replica_calls;
pub mod replica_knowledge;
pub mod series;
pub mod sessions;
pub mod transmissions;
