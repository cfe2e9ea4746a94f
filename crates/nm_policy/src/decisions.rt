//! What a replica's contacts require it to do.

ghost use Rattle.std.specs.Prelude.{◌≡◌, ◌+◌, ◌<◌, count_by, length, option_copied};
ghost use Rattle.std.specs.List.{list_all, list_any};
ghost use Rattle.nm_policy.specs.Contact.{does_count, has_greeted, is_guest, is_stale};
ghost use Rattle.nm_policy.specs.Contact.{is_stranger};
ghost use Rattle.nm_policy.specs.Contacts.{contact_at, is_free_at, is_slot, peer_of};
ghost use Rattle.nm_policy.specs.Decisions.{IsFirstBelow, IsFirstStranger, IsToDrop, are_missing};
ghost use Rattle.nm_policy.specs.Decisions.{are_serving, are_too_many, came_of, is_due_at};
ghost use Rattle.nm_policy.specs.Ends.{has_ended, is_sure};
ghost use Rattle.nm_policy.specs.Links.{are_sure, have_ended};
ghost use Rattle.nm_policy.specs.Peers.{is_missing};

use crate::contact::Contact;
use crate::contacts::Contacts;
use crate::limits::MAX_STRANGERS;
use crate::peer::Peer;

/// How many connections are strangers'.
fn count_strangers(connections: &[Option<Contact>]) -> usize
    ensures { result ≡ count_by (is_slot is_stranger) connections.now }
{
    let mut count = 0usize;
    for slot in connections {
        if is_stranger(slot) {
            count += 1;
        }
    }
    count
}

/// Whether the connection of a slot is a stranger's.
fn is_stranger(slot: &Option<Contact>) -> bool
    ensures { result ≡ is_slot is_stranger slot.now }
{
    match slot {
        Some(contact) => contact.is_stranger(),
        None => false,
    }
}

/// Whether the connection of a slot is that of a caller that sent Hello and has begun no other
/// since.
fn is_guest(slot: &Option<Contact>) -> bool
    ensures { result ≡ is_slot is_guest slot.now }
{
    match slot {
        Some(contact) => contact.is_guest(),
        None => false,
    }
}

/// How many connections are of callers that sent Hello and have begun no other since.
fn count_guests(connections: &[Option<Contact>]) -> usize
    ensures { result ≡ count_by (is_slot is_guest) connections.now }
{
    let mut count = 0usize;
    for slot in connections {
        if is_guest(slot) {
            count += 1;
        }
    }
    count
}

/// Whether a slot has a connection on which the peer sent Hello.
fn is_greeted(slot: &Option<Contact>) -> bool
    ensures { result ≡ is_slot has_greeted slot.now }
{
    match slot {
        Some(contact) => contact.has_greeted(),
        None => false,
    }
}

/// How many connections were accepted up to the one with this key, itself included.
fn came_at(connections: &[Option<Contact>], key: usize) -> u64
    ensures { result ≡ came_of (contact_at connections.now key) }
{
    match connections.get(key) {
        Some(Some(contact)) => contact.came,
        _ => 0,
    }
}

/// The first stranger up to this key, if `first` is the first stranger below it.
fn first_up_to(connections: &[Option<Contact>], key: usize, first: Option<usize>) -> Option<usize>
    requires { key < length connections.now }
    ensures { IsFirstBelow connections.now key first
        → IsFirstBelow connections.now (key + 1) result }
{
    if !is_stranger(&connections[key]) {
        return first;
    }
    match first {
        Some(other) if came_at(connections, other) <= came_at(connections, key) => first,
        _ => Some(key),
    }
}

/// The key of the oldest stranger, if there is one.
fn first_of(connections: &[Option<Contact>]) -> Option<usize>
    ensures { IsFirstStranger connections.now result }
{
    let mut first = None;
    for key in 0..connections.len() {
        first = first_up_to(connections, key, first);
    }
    first
}

/// Whether one of these peers is not connected, and its link has not ended.
fn is_one_missing(peers: &[Peer]) -> bool
    ensures { result ≡ list_any is_missing peers.now }
{
    peers.iter().any(|peer| peer.is_missing())
}

/// Whether the links of all these peers have ended.
fn have_ended(peers: &[Peer]) -> bool
    ensures { result ≡ list_all (λ p. has_ended p.ends) peers.now }
{
    peers.iter().all(|peer| peer.ends.has_ended())
}

/// Whether the ends of the links of all these peers are sure.
fn are_sure(peers: &[Peer]) -> bool
    ensures { result ≡ list_all (λ p. is_sure p.ends) peers.now }
{
    peers.iter().all(|peer| peer.ends.is_sure())
}

impl Contacts {
    /// How many peers there are.
    pub fn peer_count(&self) -> usize
        ensures { result ≡ length self.now.peers }
    {
        self.peers.len()
    }

    /// Each connection has a key below this.
    pub fn key_count(&self) -> usize
        ensures { result ≡ length self.now.connections }
    {
        self.connections.len()
    }

    /// The connection with this key, if there is one.
    pub fn contact(&self, key: usize) -> Option<&Contact>
        ensures { option_copied result ≡ contact_at self.now.connections key }
    {
        match self.connections.get(key) {
            Some(Some(contact)) => Some(contact),
            _ => None,
        }
    }

    /// Whether there is room for a connection with this key, and none has it.
    pub fn is_free(&self, key: usize) -> bool
        ensures { result ≡ is_free_at self.now.connections key }
    {
        match self.connections.get(key) {
            Some(slot) => slot.is_none(),
            None => false,
        }
    }

    /// Whether the peer with this number is to be called.
    pub fn is_due(&self, peer: usize) -> bool
        ensures { result ≡ is_due_at self.now.peers peer }
    {
        match self.peers.get(peer) {
            Some(peer) => peer.is_due(),
            None => false,
        }
    }

    /// Whether the connection with this key is to be closed: its Hello was not received in time, or
    /// nothing for as long from a peer for which the replica waits.
    pub fn is_stale(&self, key: usize) -> bool
        ensures { result ≡ is_slot is_stale (contact_at self.now.connections key) }
    {
        match self.contact(key) {
            Some(contact) => contact.is_stale(),
            None => false,
        }
    }

    /// Whether the caller of the connection with this key has begun another since.
    pub fn is_replaced(&self, key: usize) -> bool
        ensures { result ≡ is_slot (λ c. c.is_replaced) (contact_at self.now.connections key) }
    {
        match self.contact(key) {
            Some(contact) => contact.is_replaced,
            None => false,
        }
    }

    /// Whether a Hello was received on the connection with this key.
    pub fn has_greeted(&self, key: usize) -> bool
        ensures { result ≡ is_slot has_greeted (contact_at self.now.connections key) }
    {
        match self.contact(key) {
            Some(contact) => contact.has_greeted(),
            None => false,
        }
    }

    /// Whether the octets of the connection with this key count.
    pub fn does_count(&self, key: usize) -> bool
        ensures { result ≡ is_slot does_count (contact_at self.now.connections key) }
    {
        match self.contact(key) {
            Some(contact) => contact.does_count(),
            None => false,
        }
    }

    /// The peer to which the replica began the connection with this key, if it did.
    pub fn peer_at(&self, key: usize) -> Option<usize>
        ensures { result ≡ peer_of (contact_at self.now.connections key) }
    {
        self.contact(key)?.peer
    }

    /// The oldest stranger, if there is one.
    pub fn first_stranger(&self) -> Option<usize>
        ensures { IsFirstStranger self.now.connections result }
    {
        first_of(self.connections.as_slice())
    }

    /// Whether there are so many strangers that the next one replaces the oldest.
    fn are_too_many(&self) -> bool
        ensures { result ≡ are_too_many self.now }
    {
        let most = MAX_STRANGERS.saturating_add(self.callers.all.len());
        count_strangers(self.connections.as_slice()) >= most
    }

    /// The stranger that the next one replaces: the oldest, if there are as many as there may be.
    pub fn stranger_to_drop(&self) -> Option<usize>
        ensures { IsToDrop self.now result }
    {
        if self.are_too_many() {
            self.first_stranger()
        } else {
            None
        }
    }

    /// Whether a link has not ended and its peer or caller is not connected.
    pub fn are_missing(&self) -> bool
        ensures { result ≡ are_missing self.now }
    {
        is_one_missing(self.peers.as_slice())
            || count_guests(self.connections.as_slice()) < self.callers.open_count()
    }

    /// Whether a connection is open on which the peer sent Hello. That peer may have been
    /// restarted, and then all is sent to it again.
    pub fn are_serving(&self) -> bool
        ensures { result ≡ are_serving self.now }
    {
        self.connections.iter().any(|slot| is_greeted(slot))
    }

    /// Whether all links have ended.
    pub fn have_ended(&self) -> bool
        ensures { result ≡ have_ended self.now.callers self.now.peers }
    {
        self.callers.have_ended() && have_ended(self.peers.as_slice())
    }

    /// Whether the ends of all links are sure, so that nobody is to call again.
    pub fn are_sure(&self) -> bool
        ensures { result ≡ are_sure self.now.callers self.now.peers }
    {
        self.callers.are_sure() && are_sure(self.peers.as_slice())
    }
}
