//! Tests of what threads share, and of replicas over transports that fail and over loopback: what
//! no contract says, and each call once.
//!
//! Values come from outside. Several threads take part, and every schedule gives the same answers.
#![tactic(auto)]

#[cfg(test)]
mod tests;
