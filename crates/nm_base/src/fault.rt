//! Why something was not made.

ghost use Rattle.std.specs.Prelude.{◌≡◌};
ghost use Rattle.nm_base.specs.declared.fault.Fault.TheVariants.{Memory};

use std::alloc::{AllocError, AllocFailed};
use std::fmt;
use thiserror::Error;

/// What was asked for is refused, for this reason; or memory was. Nothing is left behind.
#[derive(Clone, Copy, Debug, PartialEq, Eq, Error)]
pub enum Fault<R> {
    /// It is refused. The same call is refused again.
    Refused(R),
    /// An allocation was refused. The same call may succeed with more memory.
    Memory,
}

impl<R: fmt::Display> fmt::Display for Fault<R> {
    fn fmt<W: fmt::Write>(&self, f: &mut fmt::Formatter<W>) -> fmt::Result {
        match self {
            Fault::Refused(reason) => reason.fmt(f),
            Fault::Memory => f.write_str("out of memory"),
        }
    }
}

impl<R> From<AllocError> for Fault<R> {
    ghost from_gives = { λ _ fault. fault ≡ Memory };

    fn from(_: AllocError) -> Self {
        Fault::Memory
    }
}

impl<R, T: Drop> From<AllocFailed<T>> for Fault<R> {
    ghost from_gives = { λ _ fault. fault ≡ Memory };

    fn from(_: AllocFailed<T>) -> Self {
        Fault::Memory
    }
}
