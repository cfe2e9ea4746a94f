//! Tests of refused memory, from parts and replicas up to replays: a refused growth is an error
//! after which nothing has changed, and the same call then answers as if nothing had been refused.
//!
//! The gate runs them with memory granted. `dev/attack/refuse-growths nm_memory_tests` runs them
//! with each allocation refused in turn. What a test only needs is asked for twice, so that it is
//! there even if memory was refused.
#![tactic(auto)]

#[cfg(test)]
mod memory;
#[cfg(test)]
mod same;
#[cfg(test)]
mod split;
#[cfg(test)]
mod words;
