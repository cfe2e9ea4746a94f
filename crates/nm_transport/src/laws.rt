//! What holds of transports.

ghost use Rattle.std.specs.Prelude.{◌≡◌, false, true};
ghost use Rattle.nm_transport.specs.declared.limits.TheConstants.{MAX_LOOKS, MAX_PAUSE_WAITS};
ghost use Rattle.nm_transport.specs.declared.limits.TheConstants.{MAX_REPORTS, PERIOD_MILLISECONDS};
ghost use Rattle.nm_transport.specs.Spinning.{after_sleep, after_spin, first_spinning};

/// A period lasts 50 ms, and a wait makes 64 reports at most. A wait that spins looks 128 times,
/// and 1,024 waits in a row sleep at once at most.
pub fn limits_of_transports()
    ensures limits { (PERIOD_MILLISECONDS ≡ 50) × (MAX_REPORTS ≡ 64) }
    ensures spinning { (MAX_LOOKS ≡ 128) × (MAX_PAUSE_WAITS ≡ 1024) }
{}

/// After a wait that spun in vain one wait sleeps at once, after two such waits two do, and after a
/// wait that found something the next one spins.
pub fn waits_that_spin()
    ensures once { (after_spin false first_spinning).left ≡ 1 }
    ensures twice { (after_spin false (after_sleep (after_spin false first_spinning))).left ≡ 2 }
    ensures found { (after_spin true (after_spin false first_spinning)).left ≡ 0 }
{}
