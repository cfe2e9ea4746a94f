//! What the last turn of a connection requires of its replica.

ghost use Rattle.std.specs.Prelude.{◌≡◌, IfErr, None, OnOk};
ghost use Rattle.slab.specs.Slab.{Updates, get};
ghost use Rattle.nm_policy.specs.Contacts.{after, contact_at};
ghost use Rattle.nm_policy.specs.declared.contact_event.ContactEvent.TheVariants as event;
ghost use Rattle.nm_replica.specs.Breaks.{fault_in, is_peer, turn_served};
ghost use Rattle.nm_replica.specs.Connections.{connections_begun, heard_at, is_abandoned};
ghost use Rattle.nm_replica.specs.Connections.{known_after, learned, with_session_back};
ghost use Rattle.nm_replica.specs.Served.{IsInterrupted};
ghost use Rattle.nm_replica.specs.Turns.{SettlesKey};

use crate::connections::Connections;
use crate::noting::NotedTurn;
use crate::served::Served;
use nm_engine::{Cause, Turn};
use nm_policy::ContactEvent;
use nm_transport::Transport;

impl<W> Connections<W> {
    /// Notes that octets were received on the connection with this key, if they were.
    fn hear(&mut self, key: usize, has_heard: bool)
        ensures contacts { self.new.contacts ≡ heard_at key has_heard self.old.contacts }
        ensures open { self.new.open ≡ self.old.open }
        ensures sessions { self.new.sessions ≡ self.old.sessions }
    {
        if has_heard {
            self.contacts.take(ContactEvent::Heard { key });
        }
    }

    /// Learns which replica the peer of the connection with this key is, once its Hello was
    /// received.
    fn learn(&mut self, key: usize)
        ensures contacts { self.new.contacts
            ≡ learned key (get self.old.open key) self.old.contacts }
        ensures begun { self.new.begun
            ≡ connections_begun key (get self.old.open key) self.old.contacts self.old.begun }
        ensures open { self.new.open ≡ self.old.open }
        ensures sessions { self.new.sessions ≡ self.old.sessions }
    {
        let Some(connection) = self.open.get(key) else {
            return;
        };
        let Some(name) = connection.link.greeted_by() else {
            return;
        };
        if !self.contacts.has_greeted(key) {
            self.begun = self.begun.saturating_add(1);
        }
        self.contacts.take(ContactEvent::Greeted { key, name });
    }

    /// Whether the peer sends no more on the connection with this key, or has begun another. Such a
    /// connection is closed after its next turn, and not at once: a Bye on it may not be read yet.
    fn is_abandoned(&self, key: usize) -> bool
        ensures { result ≡ is_abandoned (contact_at self.now.contacts.connections key)
            (get self.now.open key) }
    {
        let has_ended = match self.open.get(key) {
            Some(connection) => connection.link.wire().has_ended(),
            None => false,
        };
        has_ended || self.contacts.is_replaced(key)
    }

    /// Closes the connection with this key, whose link has ended. The session of its peer comes
    /// back.
    fn end_at<T: Transport<Connection = W>>(&mut self, transport: &mut T, key: usize)
        ensures idle { T.elapsed_periods transport.new ≡ T.elapsed_periods transport.old }
        ensures waits { (T.asked transport.new).waits ≡ (T.asked transport.old).waits }
        ensures contacts { self.new.contacts ≡ after self.old.contacts (event.Ended key) }
        ensures sessions { self.new.sessions
            ≡ with_session_back (contact_at self.old.contacts.connections key)
            (get self.old.open key) self.old.sessions }
        ensures open { Updates self.old.open self.new.open key None }
    {
        let _ = self.remove(transport, key);
        self.contacts.take(ContactEvent::Ended { key });
    }

    /// Does what the last turn of the connection with this key requires; `has_heard`: octets were
    /// received in it. What is to be noted of its peer was noted before, since the connection may
    /// go.
    ///
    /// # Errors
    ///
    /// How serving ends, if it does.
    pub(crate) fn settle<T: Transport<Connection = W>>(
        &mut self,
        transport: &mut T,
        key: usize,
        turn: Turn,
        has_heard: bool,
        noted: &NotedTurn,
    ) -> Result<(), Served>
        requires { noted.now.key ≡ key }
        ensures idle { T.elapsed_periods transport.new ≡ T.elapsed_periods transport.old }
        ensures waits { (T.asked transport.new).waits ≡ (T.asked transport.old).waits }
        ensures early { IfErr result IsInterrupted }
        ensures settled { OnOk result (SettlesKey key self.old self.new turn has_heard) }
        ensures served { fault_in result ≡ turn_served turn (is_peer (contact_at
            (known_after key has_heard (get self.old.open key) self.old.contacts).connections key)
            (get self.old.open key)) }
    {
        self.hear(key, has_heard);
        self.learn(key);
        match turn {
            Turn::Progress | Turn::Idle => {
                if self.is_abandoned(key) {
                    self.let_go(transport, key, Cause::End)?;
                }
                Ok(())
            }
            Turn::Ended => {
                self.end_at(transport, key);
                Ok(())
            }
            Turn::Broken(cause) => self.let_go(transport, key, cause),
            Turn::Failed => Err(Served::Net),
        }
    }
}
