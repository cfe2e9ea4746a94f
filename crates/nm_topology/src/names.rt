//! Names and their numbers.

ghost use Rattle.std.specs.Prelude.{◌≡◌, ℕ, ◌≤◌, ◌<◌, List, [], true, false, map, length, IfOk};
ghost use Rattle.std.specs.Prelude.{MatchOption};
ghost use Rattle.nm_topology.specs.Fault.{Gives};
ghost use Rattle.nm_base.specs.declared.limits.TheConstants.{MAX_IFACES};
ghost use Rattle.nm_topology.specs.Names.{has_double, distinct_names};
ghost use Rattle.nm_topology.specs.Resolve.{number_of_name};

use crate::fault::{Refusal, TopoFault};
use indexmap::IndexSet;
use std::alloc::{AllocError, Global};
use std::hash::Hash;
use std::marker::Model;

/// The items as a set in their order, or `None` if one of them comes twice.
pub fn distinct<T: Eq + Hash + Copy>(
    alloc: Global,
    items: &[T],
) -> Result<Option<IndexSet<T>>, AllocError>
    ensures { IfOk result
        (λ set. MatchOption set (has_double T.eq items.now ≡ true)
        (λ s. (has_double T.eq items.now ≡ false) × (s.keys ≡ items.now))) }
{
    let mut set = IndexSet::new(alloc);
    if insert_all(&mut set, items)? {
        Ok(Some(set))
    } else {
        Ok(None)
    }
}

/// Puts the items into an empty set, in their order, up to the first that is there already. Whether
/// each is in it.
// A function of its own, since a `?` is dear to prove while the set is owned.
fn insert_all<T: Eq + Hash + Copy>(set: &mut IndexSet<T>, items: &[T]) -> Result<bool, AllocError>
    requires { set.old.keys ≡ [] }
    ensures { IfOk result (λ all.
        (all ≡ true → (has_double T.eq items.now ≡ false) × (set.new.keys ≡ items.now))
        × (all ≡ false → has_double T.eq items.now ≡ true)) }
{
    for item in items {
        let fresh = set.insert(*item)?;
        if !fresh {
            return Ok(false);
        }
    }
    Ok(true)
}

/// What has a name.
pub trait Named {
    // Its name.
    ghost name: { Self → List ℕ };

    /// Its name.
    fn name(&self) -> &str
        ensures { result.now ≡ name self.now };
}

/// The name of each.
pub fn names_of<T: Named>(alloc: Global, items: &[T]) -> Result<Vec<&str>, AllocError>
    ensures len { IfOk result (λ v. length v.items ≡ length items.now) }
    ensures names { IfOk result (λ v. map (λ k. k.now) v.items ≡ map T.name items.now) }
{
    let mut names = Vec::new(alloc);
    for item in items {
        names.push(item.name())?;
    }
    Ok(names)
}

/// Distinct names, each with its number. They are hashed, so that no search is quadratic. A clause
/// sees the list of names.
#[derive(Drop)]
pub struct Names<'a> {
    set: IndexSet<&'a str>,
}

impl<'a> Model for Names<'a> {
    ghost use Rattle.std.specs.Prelude.{ℕ, ◌≤◌, List, map, length};
    ghost use Rattle.nm_base.specs.declared.limits.TheConstants.{MAX_IFACES};

    ghost Value = { List (List ℕ) };

    ghost view = { λ n. map (λ k. k.now) n.set.keys };

    ghost invariant = { λ n. length n.set.keys ≤ MAX_IFACES };
}

impl<'a> Names<'a> {
    /// These names, or the refusal if two are the same.
    pub fn new(alloc: Global, names: &[&'a str]) -> Result<Self, TopoFault>
        requires { length names.now ≤ MAX_IFACES }
        ensures len { IfOk result (λ n. length n ≡ length names.now) }
        ensures value { Gives (λ n. n) result (distinct_names (map (λ k. k.now) names.now)) }
    {
        match distinct(alloc, names)? {
            Some(set) => Ok(Names { set }),
            None => Err(TopoFault::Refused(Refusal::DoubleName)),
        }
    }

    /// The names of these, or the refusal if two are the same.
    pub fn of_all<T: Named>(alloc: Global, items: &'a [T]) -> Result<Self, TopoFault>
        requires { length items.now ≤ MAX_IFACES }
        ensures len { IfOk result (λ n. length n ≡ length items.now) }
        ensures value { Gives (λ n. n) result (distinct_names (map T.name items.now)) }
    {
        Names::new(alloc, &names_of(alloc, items)?)
    }

    /// The number of a name.
    pub fn number(&self, name: &str) -> Result<u32, TopoFault>
        ensures within { IfOk result (λ n. n < length self.now) }
        ensures value { Gives (λ n. n) result (number_of_name self.now name.now) }
    {
        match self.set.get_index_of(name) {
            Some(index) => Ok(index as u32),
            None => Err(TopoFault::Refused(Refusal::NoSuch)),
        }
    }
}
