//! Tests of the layers below `nm_sim`: what no contract says, and no case of `nullsim_cases` can
//! show.
//!
//! Values come from outside. Those in `memory` are to be run with each allocation refused in turn
//! (`dev/attack/refuse-growths`).
#![tactic(auto)]

#[cfg(test)]
mod tests;
