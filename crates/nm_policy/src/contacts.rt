//! The contacts of a replica.

ghost use Rattle.std.specs.Prelude.{◌≡◌, IfOk, None, map, option_map, slice_set};
ghost use Rattle.nm_policy.specs.Contact.{heard, polled, replaced_by};
ghost use Rattle.nm_policy.specs.Contacts.{after, contact_at, with_contact};
ghost use Rattle.nm_policy.specs.Laws.{at_first};
ghost use Rattle.nm_policy.specs.Peers.{rested};
ghost use Rattle.nm_policy.specs.declared.contact_event.ContactEvent.TheVariants as event;

use crate::callers::Callers;
use crate::contact::Contact;
use crate::contact_event::ContactEvent;
use crate::limits::MAX_STRANGERS;
use crate::peer::Peer;
use nm_frames::ReplicaName;
use std::alloc::{AllocError, Global};
use std::marker::Model;

/// The peers that a replica calls, the replicas that call it, and the open connections. Only events
/// change it, by the table `after`.
#[derive(Drop)]
pub struct Contacts {
    /// By their numbers.
    pub(crate) peers: Vec<Peer>,
    pub(crate) callers: Callers,
    /// By their keys.
    pub(crate) connections: Vec<Option<Contact>>,
    /// How many connections were accepted. It stops at the greatest `u64`.
    accepted: u64,
}

impl Model for Contacts {
    ghost use Rattle.nm_policy.specs.Contacts.{ContactsValue};

    ghost Value = { ContactsValue };

    ghost view = { λ s. record {
      peers = s.peers.items;
      callers = s.callers.all.items;
      connections = s.connections.items;
      accepted = s.accepted;
    } };
}

/// A poll was made: each peer has rested.
fn rest_all(peers: &mut [Peer], ran_out: bool)
    ensures { peers.new ≡ map (rested ran_out) peers.old }
{
    for peer in peers.iter_mut() {
        *peer = peer.rested(ran_out);
    }
}

/// A slot after a poll; `ran_out`: a period was over.
fn polled(slot: &Option<Contact>, ran_out: bool) -> Option<Contact>
    ensures { result ≡ option_map (polled ran_out) slot.now }
{
    match slot {
        Some(contact) => Some(contact.polled(ran_out)),
        None => None,
    }
}

/// A slot, after the replica with this name has begun another connection.
fn replaced_by(slot: &Option<Contact>, name: &ReplicaName) -> Option<Contact>
    ensures { result ≡ option_map (replaced_by name.now) slot.now }
{
    match slot {
        Some(contact) => Some(contact.replaced_by(name)),
        None => None,
    }
}

/// A slot, after octets were received on its connection.
fn heard(slot: &Option<Contact>) -> Option<Contact>
    ensures { result ≡ option_map heard slot.now }
{
    match slot {
        Some(contact) => Some(contact.heard()),
        None => None,
    }
}

/// A poll was made: each connection has lasted.
fn pass_all(connections: &mut [Option<Contact>], ran_out: bool)
    ensures { connections.new ≡ map (option_map (polled ran_out)) connections.old }
{
    for slot in connections.iter_mut() {
        *slot = polled(slot, ran_out);
    }
}

/// The replica with this name has begun another connection than these.
fn replace_all(connections: &mut [Option<Contact>], name: &ReplicaName)
    ensures { connections.new ≡ map (option_map (replaced_by name.now)) connections.old }
{
    for slot in connections.iter_mut() {
        *slot = replaced_by(slot, name);
    }
}

/// Takes the connection with this key out, if there is one.
fn take_at(connections: &mut Vec<Option<Contact>>, key: usize) -> Option<Contact>
    ensures gone { connections.new.items ≡ slice_set connections.old.items key None }
    ensures value { result ≡ contact_at connections.old.items key }
{
    connections.get_mut(key)?.take()
}

impl Contacts {
    /// `peers` peers are to be called, and `callers` are to call. Nobody is connected.
    ///
    /// # Errors
    ///
    /// If memory was refused.
    pub fn new(alloc: Global, peers: usize, callers: &[ReplicaName]) -> Result<Self, AllocError>
        ensures { IfOk result (λ s. s ≡ at_first peers callers.now) }
    {
        let mut all = Vec::new(alloc);
        all.resize(peers, Peer::new())?;
        let strangers = MAX_STRANGERS
            .saturating_add(callers.len())
            .saturating_mul(2);
        let mut connections: Vec<Option<Contact>> = Vec::new(alloc);
        connections.resize(peers.saturating_add(strangers), None)?;
        Ok(Contacts {
            peers: all,
            callers: Callers::new(alloc, callers)?,
            connections,
            accepted: 0,
        })
    }

    /// Takes in an event. A connection has a key below `key_count`.
    pub fn take(&mut self, event: ContactEvent)
        ensures { self.new ≡ after self.old event }
    {
        match event {
            ContactEvent::Polled { ran_out } => self.pass_poll(ran_out),
            ContactEvent::Called { key, peer } => self.call(key, peer),
            ContactEvent::NotCalled { peer } => self.rest(peer),
            ContactEvent::Accepted { key } => self.accept(key),
            ContactEvent::Heard { key } => self.hear(key),
            ContactEvent::Greeted { key, name } => self.greet(key, &name),
            ContactEvent::Ended { key } => self.end(key),
            ContactEvent::Broke { key, was_there } => self.break_off(key, was_there),
        }
    }

    /// A poll was made; `ran_out`: a period was over.
    fn pass_poll(&mut self, ran_out: bool)
        ensures { self.new ≡ record self.old {
          peers = map (rested ran_out) self.old.peers;
          connections = map (option_map (polled ran_out)) self.old.connections;
        } }
    {
        rest_all(self.peers.as_mut_slice(), ran_out);
        pass_all(self.connections.as_mut_slice(), ran_out);
    }

    /// A connection has this key.
    fn keep(&mut self, key: usize, contact: Contact)
        ensures { self.new ≡ record self.old {
          connections = with_contact key contact self.old.connections;
        } }
    {
        if key < self.connections.len() {
            self.connections[key] = Some(contact);
        }
    }

    /// A connection to this peer was begun.
    fn call(&mut self, key: usize, peer: usize)
        ensures { self.new ≡ after self.old (event.Called key peer) }
    {
        let waits = match self.peers.get(peer) {
            Some(peer) => !peer.ends.has_ended(),
            None => true,
        };
        self.keep(key, Contact::called(peer, waits));
        if peer < self.peers.len() {
            self.peers[peer] = self.peers[peer].called();
        }
    }

    /// No connection to this peer could be begun.
    fn rest(&mut self, peer: usize)
        ensures { self.new ≡ after self.old (event.NotCalled peer) }
    {
        if peer < self.peers.len() {
            self.peers[peer] = self.peers[peer].not_called();
        }
    }

    /// A connection that somebody began was accepted.
    fn accept(&mut self, key: usize)
        ensures { self.new ≡ after self.old (event.Accepted key) }
    {
        self.accepted = self.accepted.saturating_add(1);
        self.keep(key, Contact::accepted(self.accepted));
    }

    /// Octets were received on this connection.
    fn hear(&mut self, key: usize)
        ensures { self.new ≡ after self.old (event.Heard key) }
    {
        if let Some(slot) = self.connections.get_mut(key) {
            *slot = heard(slot);
        }
    }

    /// The replica with this name has begun another connection.
    fn replace(&mut self, name: &ReplicaName)
        ensures { self.new ≡ record self.old {
          connections = map (option_map (replaced_by name.now)) self.old.connections;
        } }
    {
        replace_all(self.connections.as_mut_slice(), name);
    }

    /// The replica with this name sent Hello on this connection.
    fn greet(&mut self, key: usize, name: &ReplicaName)
        ensures { self.new ≡ after self.old (event.Greeted key name.now) }
    {
        let Some(Some(contact)) = self.connections.get(key) else {
            return;
        };
        if contact.has_greeted() {
            return;
        }
        let (met, is_called) = (contact.met(name), contact.peer.is_some());
        if is_called {
            self.keep(key, met);
            return;
        }
        self.replace(name);
        self.keep(key, met);
    }

    /// The link over this connection has ended.
    fn end(&mut self, key: usize)
        ensures { self.new ≡ after self.old (event.Ended key) }
    {
        let Some(contact) = take_at(&mut self.connections, key) else {
            return;
        };
        match (contact.peer, &contact.name) {
            (Some(peer), _) => {
                if peer < self.peers.len() {
                    self.peers[peer] = self.peers[peer].link_ended();
                }
            }
            (None, Some(name)) => self.callers.end(name),
            (None, None) => {}
        }
    }

    /// This connection is closed; `was_there`: somebody was at its other end.
    fn break_off(&mut self, key: usize, was_there: bool)
        ensures { self.new ≡ after self.old (event.Broke key was_there) }
    {
        let Some(contact) = take_at(&mut self.connections, key) else {
            return;
        };
        let Some(peer) = contact.peer else {
            return;
        };
        if peer < self.peers.len() {
            self.peers[peer] = self.peers[peer].link_broke(
                contact.has_greeted(),
                contact.has_settled(),
                was_there,
            );
        }
    }
}
