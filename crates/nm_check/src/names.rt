//! The names of nodes and of interfaces.

ghost use Rattle.std.specs.Prelude.{IfOk, map};
ghost use Rattle.std.specs.Str.{bytes_eq};
ghost use Rattle.nm_check.specs.Doubles.{IsFirstDouble};

use crate::doubles::{Double, first_double};
use nm_topology::names::{Named, names_of};
use std::alloc::{AllocError, Global};

/// Two of these that have one name.
pub fn double_name<T: Named>(alloc: Global, items: &[T]) -> Result<Option<Double>, AllocError>
    ensures { IfOk result (λ found. IsFirstDouble bytes_eq (map T.name items.now) found) }
{
    let names = names_of(alloc, items)?;
    first_double(alloc, &names)
}
