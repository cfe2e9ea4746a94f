//! A flag that threads share.

ghost use Rattle.std.specs.Prelude.{◌≡◌};

use std::marker::PhantomData;
use std::sync::atomic::{AtomicBool, Ordering};

/// A flag that threads share. Its kind says what it is for, so that no flag is taken for another.
#[derive(Drop)]
pub(crate) struct Flag<K> {
    value: AtomicBool,
    kind: PhantomData<K>,
}

/// A flag of this kind was set to this: only `Flag::set` makes it.
#[derive(Clone, Copy)]
pub(crate) struct WasSet<K> {
    value: bool,
    kind: PhantomData<K>,
}

/// A flag of this kind was set, and is cleared now: only `Flag::take` makes it.
#[derive(Drop)]
pub(crate) struct WasTaken<K> {
    kind: PhantomData<K>,
}

impl<K> Flag<K> {
    /// It is set to this at first.
    pub(crate) fn new(value: bool) -> Self {
        Flag {
            value: AtomicBool::new(value),
            kind: PhantomData,
        }
    }

    /// It is set to this now.
    pub(crate) fn set(&self, value: bool) -> WasSet<K>
        ensures { result.value ≡ value }
    {
        self.value.store(value, Ordering::SeqCst);
        WasSet {
            value,
            kind: PhantomData,
        }
    }

    /// Whether it is set.
    pub(crate) fn is_set(&self) -> bool {
        self.value.load(Ordering::SeqCst)
    }

    /// Clears it. Answers a witness if it was set.
    pub(crate) fn take(&self) -> Option<WasTaken<K>> {
        if self.value.swap(false, Ordering::SeqCst) {
            Some(WasTaken { kind: PhantomData })
        } else {
            None
        }
    }
}
