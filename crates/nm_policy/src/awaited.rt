//! For whom a replica waits.

ghost use Rattle.std.specs.Prelude.{◌≡◌, option_copied};
ghost use Rattle.std.specs.List.{list_any};
ghost use Rattle.nm_policy.specs.Awaited.{IsFirstAwaited, first_awaited_caller, is_awaited_at};
ghost use Rattle.nm_policy.specs.Awaited.{is_awaited_caller, is_met_peer};
ghost use Rattle.nm_policy.specs.Contact.{is_from};
ghost use Rattle.nm_policy.specs.Contacts.{is_slot};

use crate::callers::Caller;
use crate::contact::Contact;
use crate::contacts::Contacts;
use nm_frames::ReplicaName;

/// Whether the connection of a slot was begun to this peer, which sent Hello on it.
fn is_met_peer(slot: &Option<Contact>, peer: usize) -> bool
    ensures { result ≡ is_slot (is_met_peer peer) slot.now }
{
    match slot {
        Some(contact) => match contact.peer {
            Some(own) => own == peer && contact.has_greeted(),
            None => false,
        },
        None => false,
    }
}

/// Whether the replica with this name began the connection of a slot.
fn is_from(slot: &Option<Contact>, name: &ReplicaName) -> bool
    ensures { result ≡ is_slot (is_from name.now) slot.now }
{
    match slot {
        Some(contact) => contact.is_from(name),
        None => false,
    }
}

/// Whether one of these connections was begun to this peer, which sent Hello on it.
fn has_met(connections: &[Option<Contact>], peer: usize) -> bool
    ensures { result ≡ list_any (is_slot (is_met_peer peer)) connections.now }
{
    connections.iter().any(|slot| is_met_peer(slot, peer))
}

/// Whether the replica with this name began one of these connections.
fn has_come(connections: &[Option<Contact>], name: &ReplicaName) -> bool
    ensures { result ≡ list_any (is_slot (is_from name.now)) connections.now }
{
    connections.iter().any(|slot| is_from(slot, name))
}

/// Whether a replica with these connections waits for this caller.
fn is_awaited_caller(connections: &[Option<Contact>], caller: &Caller) -> bool
    ensures { result ≡ is_awaited_caller connections.now caller.now }
{
    !caller.ends.has_ended() && !has_come(connections, &caller.name)
}

impl Contacts {
    /// Whether the replica waits for the peer with this number: their link has not ended, and on no
    /// open connection to it has it sent Hello.
    fn is_awaited(&self, peer: usize) -> bool
        ensures { result ≡ is_awaited_at self.now peer }
    {
        match self.peers.get(peer) {
            Some(found) => {
                !found.ends.has_ended() && !has_met(self.connections.as_slice(), peer)
            }
            None => false,
        }
    }

    /// The first peer for which the replica waits, if it waits for one that it calls.
    pub fn first_awaited(&self) -> Option<usize>
        ensures { IsFirstAwaited self.now result }
    {
        for peer in 0..self.peers.len() {
            if self.is_awaited(peer) {
                return Some(peer);
            }
        }
        None
    }

    /// The first caller for which the replica waits, if it waits for one.
    pub fn first_awaited_caller(&self) -> Option<&Caller>
        ensures { option_copied result ≡ first_awaited_caller self.now }
    {
        let connections = self.connections.as_slice();
        let mut callers = self.callers.all.iter();
        callers.find(|caller| is_awaited_caller(connections, caller))
    }
}
