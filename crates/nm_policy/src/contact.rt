//! A connection, and the peer to which it leads.

ghost use Rattle.std.specs.Prelude.{◌≡◌, Some};
ghost use Rattle.nm_policy.specs.Contact.{accepted_contact, called_contact, does_count};
ghost use Rattle.nm_policy.specs.Contact.{has_greeted, has_settled, heard, is_from};
ghost use Rattle.nm_policy.specs.Contact.{is_guest, is_overdue, is_silent, is_stale, is_stranger};
ghost use Rattle.nm_policy.specs.Contact.{met, polled, replaced_by};

use crate::lasting::Lasted;
use crate::limits::{GREETING_PERIODS, HELLO_PERIODS, SILENCE_PERIODS};
use crate::names::{are_same, copy_of};
use nm_frames::ReplicaName;

/// A connection: who began it, who is at its other end, and for how long it has existed and been
/// silent.
#[derive(Clone, Copy, Drop)]
pub struct Contact {
    /// The peer to which it was begun. `None` if somebody else began it.
    pub peer: Option<usize>,
    /// The replica that sent Hello on it.
    pub name: Option<ReplicaName>,
    /// How many connections were accepted up to it, itself included.
    pub came: u64,
    /// How long it has existed; once its Hello was received, since then.
    pub lasted: Lasted,
    /// How long nothing has been received on it.
    pub silent: Lasted,
    /// The replica began it and waits for its peer: their link had not ended.
    pub waits: bool,
    /// Its caller has begun another connection since: it is closed once all that was received is
    /// read.
    pub is_replaced: bool,
}

impl Contact {
    /// A connection that the replica began to this peer, for which it waits or does not.
    pub fn called(peer: usize, waits: bool) -> Contact
        ensures { result ≡ called_contact peer waits }
    {
        Contact {
            peer: Some(peer),
            name: None,
            came: 0,
            lasted: Lasted::new(),
            silent: Lasted::new(),
            waits,
            is_replaced: false,
        }
    }

    /// A connection that somebody began, as the one with this number.
    pub fn accepted(came: u64) -> Contact
        ensures { result ≡ accepted_contact came }
    {
        Contact {
            peer: None,
            name: None,
            came,
            lasted: Lasted::new(),
            silent: Lasted::new(),
            waits: false,
            is_replaced: false,
        }
    }

    /// Whether the peer sent Hello.
    pub fn has_greeted(&self) -> bool
        ensures { result ≡ has_greeted self.now }
    {
        self.name.is_some()
    }

    /// Whether it is a stranger's: somebody else began it and has sent no Hello.
    pub fn is_stranger(&self) -> bool
        ensures { result ≡ is_stranger self.now }
    {
        self.peer.is_none() && self.name.is_none()
    }

    /// Whether a caller began it that sent Hello and has begun no other since.
    pub fn is_guest(&self) -> bool
        ensures { result ≡ is_guest self.now }
    {
        self.peer.is_none() && self.name.is_some() && !self.is_replaced
    }

    /// Whether the replica with this name began it.
    pub fn is_from(&self, name: &ReplicaName) -> bool
        ensures { result ≡ is_from name.now self.now }
    {
        match (self.peer, &self.name) {
            (None, Some(own)) => are_same(own, name),
            _ => false,
        }
    }

    /// Whether it is closed because its Hello was not received in time, whoever began it.
    pub fn is_overdue(&self) -> bool
        ensures { result ≡ is_overdue self.now }
    {
        !self.has_greeted() && self.lasted.is_past(HELLO_PERIODS)
    }

    /// Whether the replica waits for its peer and has received nothing on it for as long.
    pub fn is_silent(&self) -> bool
        ensures { result ≡ is_silent self.now }
    {
        self.has_greeted() && self.waits && self.silent.is_past(SILENCE_PERIODS)
    }

    /// Whether it is closed, and begun again if the replica began it.
    pub fn is_stale(&self) -> bool
        ensures { result ≡ is_stale self.now }
    {
        self.is_overdue() || self.is_silent()
    }

    /// Whether a whole period is over since its Hello.
    pub fn has_settled(&self) -> bool
        ensures { result ≡ has_settled self.now }
    {
        self.has_greeted() && self.lasted.is_past(1)
    }

    /// Whether its octets count: its greeting is over.
    pub fn does_count(&self) -> bool
        ensures { result ≡ does_count self.now }
    {
        self.has_greeted() && self.lasted.is_past(GREETING_PERIODS)
    }

    /// The same connection after a poll; `ran_out`: a period was over.
    pub fn polled(&self, ran_out: bool) -> Contact
        ensures { result ≡ polled ran_out self.now }
    {
        let (mut lasted, mut silent) = (self.lasted, self.silent);
        lasted.pass_poll(ran_out);
        silent.pass_poll(ran_out);
        Contact {
            peer: self.peer,
            name: self.name_copy(),
            came: self.came,
            lasted,
            silent,
            waits: self.waits,
            is_replaced: self.is_replaced,
        }
    }

    /// The same connection, after octets were received.
    pub fn heard(&self) -> Contact
        ensures { result ≡ heard self.now }
    {
        Contact {
            peer: self.peer,
            name: self.name_copy(),
            came: self.came,
            lasted: self.lasted,
            silent: Lasted::new(),
            waits: self.waits,
            is_replaced: self.is_replaced,
        }
    }

    /// The same connection, after the replica with this name has begun another.
    pub fn replaced_by(&self, name: &ReplicaName) -> Contact
        ensures { result ≡ replaced_by name.now self.now }
    {
        Contact {
            peer: self.peer,
            name: self.name_copy(),
            came: self.came,
            lasted: self.lasted,
            silent: self.silent,
            waits: self.waits,
            is_replaced: self.is_replaced || self.is_from(name),
        }
    }

    /// The replica that sent Hello on it.
    fn name_copy(&self) -> Option<ReplicaName>
        ensures { result ≡ self.now.name }
    {
        match &self.name {
            Some(name) => Some(copy_of(name)),
            None => None,
        }
    }

    /// The same connection, after a Hello by the replica with this name.
    pub fn met(&self, name: &ReplicaName) -> Contact
        ensures { result ≡ met name.now self.now }
    {
        Contact {
            peer: self.peer,
            name: Some(copy_of(name)),
            came: self.came,
            lasted: Lasted::new(),
            silent: Lasted::new(),
            waits: self.waits,
            is_replaced: self.is_replaced,
        }
    }
}
