//! The first thing that is in a list twice.

ghost use Rattle.std.specs.Prelude.{IfOk};
ghost use Rattle.nm_check.specs.Doubles.{IsFirstDouble};

use indexmap::IndexSet;
use std::alloc::{AllocError, Global};
use std::hash::Hash;

/// Two places of a list, from 0, that have the same.
#[derive(Clone, Copy)]
pub struct Double {
    pub first: usize,
    pub second: usize,
}

/// The first place of a list that has what a place before it has, and that place. That the place
/// before it is the right one is not stated.
pub fn first_double<T: Eq + Hash + Copy>(
    alloc: Global,
    items: &[T],
) -> Result<Option<Double>, AllocError>
    ensures { IfOk result (λ found. IsFirstDouble T.eq items.now found) }
{
    let mut seen = IndexSet::new(alloc);
    let mut second = 0;
    for item in items {
        let (first, fresh) = seen.insert_full(*item)?;
        if !fresh {
            return Ok(Some(Double { first, second }));
        }
        second += 1;
    }
    Ok(None)
}
