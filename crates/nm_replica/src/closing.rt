//! Connections that are closed: to make room, since they are stale, or since they broke.

ghost use Rattle.std.specs.Prelude.{◌≡◌, ℕ, IfErr, None, OnOk, Option, is_some, true};
ghost use Rattle.std.specs.Prelude.{if◌then◌else◌};
ghost use Rattle.slab.specs.Slab.{Updates, get};
ghost use Rattle.nm_transport.specs.Asked.{after_unwatch};
ghost use Rattle.nm_policy.specs.Contacts.{after, contact_at};
ghost use Rattle.nm_policy.specs.Decisions.{IsFirstStranger, IsToDrop};
ghost use Rattle.nm_policy.specs.declared.contact_event.ContactEvent.TheVariants as event;
ghost use Rattle.nm_replica.specs.Breaks.{fault_in, is_peer};
ghost use Rattle.nm_replica.specs.Connections.{DropsStranger, LetsGo, LetsStaleGo, MakesRoom};
ghost use Rattle.nm_replica.specs.Connections.{TakesFirstOut, TakesStaleOut, broken_after};
ghost use Rattle.nm_replica.specs.Connections.{with_session_back};
ghost use Rattle.nm_replica.specs.Moved.{has_written, is_end, was_there};
ghost use Rattle.nm_replica.specs.Served.{IsInterrupted, break_served};

use crate::connections::Connections;
use crate::served::{Served, break_served};
use nm_engine::Cause;
use nm_policy::ContactEvent;
use nm_transport::Transport;

/// What is still needed of a connection that was taken out.
#[derive(Clone, Copy)]
pub(crate) struct Left {
    /// It was a peer's, which the replica calls or which sent Hello.
    pub is_peer: bool,
    /// Octets were written on it, so that somebody was there.
    pub has_written: bool,
}

/// Whether a link broke because the peer sends no more.
fn is_end(cause: Cause) -> bool
    ensures { result ≡ is_end cause }
{
    matches!(cause, Cause::End)
}

impl<W> Connections<W> {
    /// Takes the connection with this key out, if it is there. The session of a peer that is called
    /// comes back. Answers whether the connection was a peer's, and whether octets were written on
    /// it.
    pub(crate) fn remove<T: Transport<Connection = W>>(
        &mut self,
        transport: &mut T,
        key: usize,
    ) -> Left
        ensures idle { T.elapsed_periods transport.new ≡ T.elapsed_periods transport.old }
        ensures waits { (T.asked transport.new).waits ≡ (T.asked transport.old).waits }
        ensures contacts { self.new.contacts ≡ self.old.contacts }
        ensures peer { result.is_peer
            ≡ is_peer (contact_at self.old.contacts.connections key) (get self.old.open key) }
        ensures written { result.has_written ≡ has_written (get self.old.open key) }
        ensures unwatched { T.asked transport.new ≡ (if is_some (get self.old.open key)
            then after_unwatch (T.asked transport.old) else T.asked transport.old) }
        ensures accepts { (T.asked transport.new).accepts ≡ (T.asked transport.old).accepts }
        ensures sessions { self.new.sessions
            ≡ with_session_back (contact_at self.old.contacts.connections key)
            (get self.old.open key) self.old.sessions }
        ensures open { Updates self.old.open self.new.open key None }
    {
        let peer = self.contacts.peer_at(key);
        let Some(mut connection) = self.open.try_remove(key) else {
            return Left {
                is_peer: peer.is_some(),
                has_written: false,
            };
        };
        self.given
            .keep(connection.link.greeted_by(), connection.link.take_given());
        let (mut wire, session, has_written) = connection.into_parts();
        transport.unwatch(&mut wire);
        let is_peer = peer.is_some() || session.is_some();
        if let (Some(peer), Some(session)) = (peer, session) {
            self.sessions.take_back(peer, session);
        }
        Left {
            is_peer,
            has_written,
        }
    }

    /// Closes the connection with this key to make room.
    fn drop_at<T: Transport<Connection = W>>(&mut self, transport: &mut T, key: usize)
        ensures idle { T.elapsed_periods transport.new ≡ T.elapsed_periods transport.old }
        ensures waits { (T.asked transport.new).waits ≡ (T.asked transport.old).waits }
        ensures drops { LetsGo key self.old.contacts self.new.contacts }
        ensures told { self.new.contacts ≡ after self.old.contacts (event.Broke key true) }
        ensures sessions { self.new.sessions
            ≡ with_session_back (contact_at self.old.contacts.connections key)
            (get self.old.open key) self.old.sessions }
        ensures accepts { (T.asked transport.new).accepts ≡ (T.asked transport.old).accepts }
        ensures open { Updates self.old.open self.new.open key None }
    {
        let _ = self.remove(transport, key);
        self.contacts.take(ContactEvent::Broke {
            key,
            was_there: true,
        });
    }

    /// Closes the oldest stranger, if there is one.
    pub(crate) fn drop_first<T: Transport<Connection = W>>(&mut self, transport: &mut T)
        ensures idle { T.elapsed_periods transport.new ≡ T.elapsed_periods transport.old }
        ensures waits { (T.asked transport.new).waits ≡ (T.asked transport.old).waits }
        ensures drops { DropsStranger self.old.contacts self.new.contacts }
        ensures gone { (first : Option ℕ) × IsFirstStranger self.old.contacts.connections first
            × TakesFirstOut first self.old.open self.new.open }
        ensures accepts { (T.asked transport.new).accepts ≡ (T.asked transport.old).accepts }
    {
        if let Some(key) = self.contacts.first_stranger() {
            self.drop_at(transport, key);
        }
    }

    /// Closes the oldest stranger, if there are as many as there may be.
    pub(crate) fn make_room<T: Transport<Connection = W>>(&mut self, transport: &mut T)
        ensures idle { T.elapsed_periods transport.new ≡ T.elapsed_periods transport.old }
        ensures waits { (T.asked transport.new).waits ≡ (T.asked transport.old).waits }
        ensures room { MakesRoom self.old.contacts self.new.contacts }
        ensures gone { (first : Option ℕ) × IsToDrop self.old.contacts first
            × TakesFirstOut first self.old.open self.new.open }
        ensures accepts { (T.asked transport.new).accepts ≡ (T.asked transport.old).accepts }
    {
        if let Some(key) = self.contacts.stranger_to_drop() {
            self.drop_at(transport, key);
        }
    }

    /// Notes that the connection with this key broke; `was_there`: somebody was at its other end.
    fn note_broken(&mut self, key: usize, was_there: bool)
        ensures contacts { self.new.contacts
            ≡ after self.old.contacts (event.Broke key was_there) }
        ensures broken { self.new.broken ≡ broken_after key self.old.contacts self.old.broken }
        ensures open { self.new.open ≡ self.old.open }
        ensures sessions { self.new.sessions ≡ self.old.sessions }
    {
        if self.contacts.has_greeted(key) {
            self.broken = self.broken.saturating_add(1);
        }
        self.contacts.take(ContactEvent::Broke { key, was_there });
    }

    /// Closes a connection on which nothing was received in time. If the replica is to call again,
    /// its session starts again.
    fn break_at<T: Transport<Connection = W>>(&mut self, transport: &mut T, key: usize)
        ensures idle { T.elapsed_periods transport.new ≡ T.elapsed_periods transport.old }
        ensures waits { (T.asked transport.new).waits ≡ (T.asked transport.old).waits }
        ensures goes { LetsGo key self.old.contacts self.new.contacts }
        ensures told { self.new.contacts ≡ after self.old.contacts
            (event.Broke key (has_written (get self.old.open key))) }
        ensures open { Updates self.old.open self.new.open key None }
        ensures sessions { self.new.sessions
            ≡ with_session_back (contact_at self.old.contacts.connections key)
            (get self.old.open key) self.old.sessions }
        ensures accepts { (T.asked transport.new).accepts ≡ (T.asked transport.old).accepts }
    {
        let Left { has_written, .. } = self.remove(transport, key);
        self.note_broken(key, has_written);
    }

    /// Closes the connections without a Hello in time, or with a peer for which the replica waits
    /// and which sent nothing for as long.
    fn let_stale_go<T: Transport<Connection = W>>(&mut self, transport: &mut T)
        ensures idle { T.elapsed_periods transport.new ≡ T.elapsed_periods transport.old }
        ensures waits { (T.asked transport.new).waits ≡ (T.asked transport.old).waits }
        ensures stale { LetsStaleGo self.old.contacts self.new.contacts }
        ensures gone { TakesStaleOut self.old.contacts self.old.open self.new.open }
        ensures accepts { (T.asked transport.new).accepts ≡ (T.asked transport.old).accepts }
    {
        for key in 0..self.contacts.key_count() {
            if self.contacts.is_stale(key) {
                self.break_at(transport, key);
            }
        }
    }

    /// A poll was made; `ran_out`: a period was over. Stale connections are closed, and calls among
    /// them are made again.
    pub(crate) fn pass_poll<T: Transport<Connection = W>>(
        &mut self,
        transport: &mut T,
        ran_out: bool,
    )
        ensures idle { T.elapsed_periods transport.new ≡ T.elapsed_periods transport.old }
        ensures waits { (T.asked transport.new).waits ≡ (T.asked transport.old).waits }
        ensures stale { LetsStaleGo (after self.old.contacts (event.Polled ran_out))
            self.new.contacts }
        ensures gone { TakesStaleOut (after self.old.contacts (event.Polled ran_out))
            self.old.open self.new.open }
        ensures accepts { (T.asked transport.new).accepts ≡ (T.asked transport.old).accepts }
    {
        self.contacts.take(ContactEvent::Polled { ran_out });
        self.let_stale_go(transport);
    }

    /// Closes a broken connection. If the replica is to call again, its session starts again.
    ///
    /// # Errors
    ///
    /// How serving ends, if it does.
    pub(crate) fn let_go<T: Transport<Connection = W>>(
        &mut self,
        transport: &mut T,
        key: usize,
        cause: Cause,
    ) -> Result<(), Served>
        ensures idle { T.elapsed_periods transport.new ≡ T.elapsed_periods transport.old }
        ensures waits { (T.asked transport.new).waits ≡ (T.asked transport.old).waits }
        ensures early { IfErr result IsInterrupted }
        ensures served { fault_in result ≡ break_served cause
            (is_peer (contact_at self.old.contacts.connections key) (get self.old.open key)) }
        ensures goes { OnOk result (LetsGo key self.old.contacts self.new.contacts) }
        ensures told { OnOk result (self.new.contacts ≡ after self.old.contacts
            (event.Broke key (was_there cause (get self.old.open key)))) }
        ensures open { Updates self.old.open self.new.open key None }
        ensures sessions { self.new.sessions
            ≡ with_session_back (contact_at self.old.contacts.connections key)
            (get self.old.open key) self.old.sessions }
    {
        let Left {
            is_peer,
            has_written,
        } = self.remove(transport, key);
        if let Some(served) = break_served(cause, is_peer) {
            return Err(served);
        }
        // A peer that ends a connection is there, even if nothing could be written.
        self.note_broken(key, has_written || is_end(cause));
        Ok(())
    }
}
