//! The replicas that are to call.

ghost use Rattle.std.specs.Prelude.{◌≡◌, IfOk, count_by, map, not};
ghost use Rattle.std.specs.List.{list_all};
ghost use Rattle.nm_policy.specs.Ends.{ended_by, has_ended, is_named};
ghost use Rattle.nm_policy.specs.Ends.{is_sure, new_caller};

use crate::ends::Ends;
use crate::names::{are_same, copy_of};
use nm_frames::ReplicaName;
use std::alloc::{AllocError, Global};

/// A replica that is to call, and how often its link has ended.
#[derive(Clone, Copy, Drop)]
pub struct Caller {
    pub name: ReplicaName,
    pub ends: Ends,
}

/// The replicas that are to call, each known by its name, whichever connection it uses.
#[derive(Drop)]
pub struct Callers {
    pub all: Vec<Caller>,
}

impl Caller {
    /// A caller with a link that has not ended.
    fn new(name: &ReplicaName) -> Caller
        ensures { result ≡ new_caller name.now }
    {
        Caller {
            name: copy_of(name),
            ends: Ends::Open,
        }
    }

    /// Whether it is the one with this name.
    fn is_named(&self, name: &ReplicaName) -> bool
        ensures { result ≡ is_named name.now self.now }
    {
        are_same(&self.name, name)
    }

    /// The same, after the link with this name has ended once more.
    fn ended_by(self, name: &ReplicaName) -> Caller
        ensures { result ≡ ended_by name.now self }
    {
        if !self.is_named(name) {
            return self;
        }
        Caller {
            name: self.name,
            ends: self.ends.once_more(),
        }
    }
}

/// The link of the replica with this name has ended.
fn end_of(callers: &mut [Caller], name: &ReplicaName)
    ensures { callers.new ≡ map (ended_by name.now) callers.old }
{
    for caller in callers.iter_mut() {
        *caller = caller.ended_by(name);
    }
}

/// How many links have not ended.
fn count_open(callers: &[Caller]) -> usize
    ensures { result ≡ count_by (λ k. not (has_ended k.ends)) callers.now }
{
    let mut count = 0usize;
    for caller in callers {
        if !caller.ends.has_ended() {
            count += 1;
        }
    }
    count
}

impl Callers {
    /// No link has ended.
    ///
    /// # Errors
    ///
    /// If memory was refused.
    pub fn new(alloc: Global, names: &[ReplicaName]) -> Result<Self, AllocError>
        ensures { IfOk result (λ c. c.all.items ≡ map new_caller names.now) }
    {
        let mut all = Vec::new(alloc);
        for name in names {
            all.push(Caller::new(name))?;
        }
        Ok(Callers { all })
    }

    /// The link of the replica with this name has ended. If no such replica is to call, nothing
    /// changes.
    pub fn end(&mut self, name: &ReplicaName)
        ensures { self.new.all.items ≡ map (ended_by name.now) self.old.all.items }
    {
        end_of(self.all.as_mut_slice(), name);
    }

    /// How many links have not ended.
    pub fn open_count(&self) -> usize
        ensures { result ≡ count_by (λ k. not (has_ended k.ends)) self.now.all.items }
    {
        count_open(self.all.as_slice())
    }

    /// Whether the links of all have ended.
    pub fn have_ended(&self) -> bool
        ensures { result ≡ list_all (λ c. has_ended c.ends) self.now.all.items }
    {
        self.all.iter().all(|caller| caller.ends.has_ended())
    }

    /// Whether the ends of all links are sure.
    pub fn are_sure(&self) -> bool
        ensures { result ≡ list_all (λ c. is_sure c.ends) self.now.all.items }
    {
        self.all.iter().all(|caller| caller.ends.is_sure())
    }
}
