//! Tests of the program, and of runs of all partitions: what no case of `nullsim_cases` can show.
#![tactic(auto)]

#[cfg(test)]
mod certifying;
#[cfg(test)]
mod fixtures;
#[cfg(test)]
mod gates;
#[cfg(test)]
mod inputs;
#[cfg(test)]
mod nodes;
#[cfg(test)]
mod progress;
#[cfg(test)]
mod rings;
#[cfg(test)]
mod statuses;
#[cfg(test)]
mod verifying;
