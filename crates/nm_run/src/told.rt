//! Whether the replicas of a run were told to end.

ghost use Rattle.std.specs.Prelude.{◌≡◌, true};

use crate::stop::Stop;
use crate::threads::AllWoken;
use std::sync::{OnceLock, OnceToken};

/// Whether all replicas were told to end, since the run has failed.
#[derive(Clone, Copy)]
pub(crate) struct Told {
    are_all: bool,
}

impl Told {
    /// Nobody was told.
    pub(crate) const NOBODY: Told = Told { are_all: false };

    /// All were: the run's failure is noted, which nothing clears, and they are woken.
    pub(crate) fn all(has_failed: &OnceLock<()>, noted: &OnceToken<'_, ()>, _: AllWoken) -> Told
        requires { noted.now.of ≡ has_failed.now.id }
        ensures { result.are_all ≡ true }
    {
        Told { are_all: true }
    }
}

/// Why a run stops; its replicas were told to end.
#[derive(Clone, Copy)]
pub(crate) struct Stopped {
    stop: Stop,
    told: Told,
}

impl Stopped {
    pub(crate) fn of(stop: Stop, told: Told) -> Self
        ensures { (result.stop ≡ stop) × (result.told ≡ told) }
    {
        Stopped { stop, told }
    }
}

impl From<Stopped> for Stop {
    ghost from_gives = { λ stopped s. s ≡ stopped.stop };

    fn from(stopped: Stopped) -> Self {
        stopped.stop
    }
}
