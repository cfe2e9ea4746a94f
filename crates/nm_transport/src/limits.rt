//! The limits of transports, each stated once.

/// How long a period lasts, in milliseconds by a clock. If nothing is left to do, a poll waits
/// until the period is over. The first poll that ends after that ran out.
pub const PERIOD_MILLISECONDS: u64 = 50;

/// The most reports of one wait.
pub const MAX_REPORTS: usize = 64;

/// How often a wait looks for what is ready before it sleeps, if it spins: some 40 microseconds.
pub const MAX_LOOKS: u32 = 128;

/// The most waits in a row that sleep at once, since those before spun in vain.
pub const MAX_PAUSE_WAITS: u32 = 1024;
