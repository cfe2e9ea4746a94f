//! What holds of processes.

ghost use Rattle.std.specs.Prelude.{◌≡◌};
ghost use Rattle.nm_process.specs.declared.process.TheConstants.{RUN_EVENTS};

/// A node does 4,096 events after a poll at most.
pub fn limits_of_processes()
    ensures { RUN_EVENTS ≡ 4096 }
{}
