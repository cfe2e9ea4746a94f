//! The limits of the loop, each stated once. Periods are those of a transport
//! (`nm_transport::limits`).

/// After so many periods in a row, a minute, in which nothing moved and nothing was done, a replica
/// is stalled.
pub const MAX_IDLE_PERIODS: u64 = 1_200;

/// After so many polls a replica is stalled, whatever moved.
pub const MAX_POLLS: u64 = 1_000_000_000;

/// The most connections that are accepted after one poll.
pub const MAX_ACCEPTED: usize = 64;

/// The most turns that a link has after one poll.
pub const MAX_TURNS: usize = 64;

/// After so many periods, half a second, a replica to which the system refuses connections closes
/// strangers.
pub const SCARCE_PERIODS: u64 = 10;

/// After so many such periods, a second, the replica ends.
pub const SHORT_PERIODS: u64 = 20;

/// So many waits in a row may fail. At the next failure a replica ends: the system lets it wait no
/// more.
pub const MAX_FAILED_WAITS: u32 = 20;

/// The sister's knowledge is merged every so many polls.
pub const MERGE_POLLS: u64 = 1_024;

/// The most records that a book hands out in one act.
pub const MAX_HANDED: usize = 256;

/// The most such acts after one poll.
pub const MAX_HAND_OUTS: usize = 64;
