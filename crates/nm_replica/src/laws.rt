//! The limits of replicas, as numbers.

ghost use Rattle.std.specs.Prelude.{◌≡◌};
ghost use Rattle.nm_replica.specs.declared.limits.TheConstants as limits;

/// A replica is stalled after 1,200 idle periods, which is a minute, or after 10^9 polls. If the
/// system lacks resources for one more connection, strangers are closed after ten periods, and the
/// replica ends after twenty. Twenty waits in a row may fail.
pub fn limits_of_time()
    ensures { (limits.MAX_IDLE_PERIODS ≡ 1200) × (limits.MAX_POLLS ≡ 1000000000)
        × (limits.SCARCE_PERIODS ≡ 10) × (limits.SHORT_PERIODS ≡ 20)
        × (limits.MAX_FAILED_WAITS ≡ 20) }
{}

/// After a poll at most 64 connections are accepted, each has at most 64 turns, and at most 64
/// times 256 records are written. What the sister knows is merged every 1,024 polls.
pub fn limits_of_polls()
    ensures { (limits.MAX_ACCEPTED ≡ 64) × (limits.MAX_TURNS ≡ 64) × (limits.MAX_HAND_OUTS ≡ 64)
        × (limits.MAX_HANDED ≡ 256) × (limits.MERGE_POLLS ≡ 1024) }
{}
