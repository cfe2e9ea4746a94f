//! Which messages were given to which replica on connections that are gone.

ghost use Rattle.std.specs.Prelude.{◌≡◌, []};
ghost use Rattle.nm_engine.specs.GivenBefore.{KeepsGiven, KeepsOf, place_of_replica, resent_in};

use crate::given::{Given, GivenMessages};
use nm_frames::ReplicaName;
use std::alloc::Global;

/// Which messages were given to which replica on connections that are gone. It affects no answer:
/// if memory was refused, some are not noted.
#[derive(Drop)]
pub struct GivenBefore {
    all: Vec<(ReplicaName, GivenMessages)>,
    /// How many messages were given to a replica that had been given them before, up to 2^64 - 1.
    resent: u64,
}

impl GivenBefore {
    /// None.
    pub fn new(alloc: Global) -> Self
        ensures none { result.all.items ≡ [] }
        ensures resent { result.resent ≡ 0 }
    {
        GivenBefore {
            all: Vec::new(alloc),
            resent: 0,
        }
    }

    /// How many messages were given to a replica that had been given them before.
    pub fn resent(&self) -> u64
        ensures { result ≡ self.now.resent }
    {
        self.resent
    }

    /// The place of a replica among those to which something was given.
    fn place_of(&self, name: &ReplicaName) -> Option<usize>
        ensures { result ≡ place_of_replica name.now self.now.all.items }
    {
        self.all.iter().position(|given| given.0 == *name)
    }

    /// A connection to a replica is gone; these messages were given on it.
    fn keep_of(&mut self, name: ReplicaName, messages: GivenMessages)
        ensures { KeepsOf name messages self.old self.new }
    {
        self.resent = self.resent.saturating_add(self.resent_to(&name, &messages));
        match self.place_of(&name) {
            Some(place) => self.all[place].1.merge(&messages),
            None => {
                let _ = self.all.push((name, messages));
            }
        }
    }

    /// A connection is gone. `name`: its peer, if that was known; `given`: what was given, if that
    /// was counted.
    pub fn keep(&mut self, name: Option<ReplicaName>, given: Option<Given>)
        ensures { KeepsGiven name given self.old self.new }
    {
        if let (Some(name), Some(given)) = (name, given) {
            self.keep_of(name, given.messages);
        }
    }

    /// How many of these messages, given to this replica, had been given to it on connections that
    /// are gone.
    pub fn resent_to(&self, name: &ReplicaName, messages: &GivenMessages) -> u64
        ensures { result ≡ resent_in self.now.all.items name.now messages.now }
    {
        match self.place_of(name) {
            Some(place) => messages.common_count(&self.all[place].1),
            None => 0,
        }
    }
}
