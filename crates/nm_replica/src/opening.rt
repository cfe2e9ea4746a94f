//! Connections that begin: to the peers that are to be called, and those that others began.

ghost use Rattle.std.specs.Arc.{arc_value};
ghost use Rattle.std.specs.Prelude.{◌+◌, ◌≡◌, ◌⊎◌, IfSome, OnOk, Some, false, true, ℕ};
ghost use Rattle.nm_transport.specs.Asked.{after_watch};
ghost use Rattle.nm_policy.specs.Contacts.{is_free_at};
ghost use Rattle.nm_policy.specs.Decisions.{is_due_at};
ghost use Rattle.nm_replica.specs.Connections.{Admits, AsksFor, Awaits, CallsAll, Dials, Keeps};
ghost use Rattle.nm_replica.specs.declared.limits.TheConstants.{MAX_ACCEPTED};

use crate::connection::Connection;
use crate::connections::Connections;
use crate::limits::MAX_ACCEPTED;
use crate::neighbours::Neighbours;
use nm_engine::{Acceptor, CountingWire, Link};
use nm_policy::ContactEvent;
use nm_transport::Transport;
use std::alloc::{AllocError, Global};
use std::sync::Arc;

/// A wire that the transport watches under this key: only `watch_at` makes it.
#[derive(Drop)]
struct Watched<W> {
    wire: W,
    key: usize,
}

/// Has the transport watch a wire under this key, if it can.
fn watch_at<T: Transport>(
    transport: &mut T,
    wire: T::Connection,
    key: usize,
) -> Option<Watched<T::Connection>>
    ensures same { IfSome result (λ w. (w.wire ≡ wire) × (w.key ≡ key)) }
    ensures idle { T.elapsed_periods transport.new ≡ T.elapsed_periods transport.old }
    ensures asked { T.asked transport.new ≡ after_watch (T.asked transport.old) }
{
    let wire = transport.watch(wire, key)?;
    Some(Watched { wire, key })
}

/// A connection to this peer that the transport watches under this key, if it can.
fn connect<T: Transport>(
    transport: &mut T,
    peer: usize,
    key: usize,
) -> Option<Watched<T::Connection>>
    ensures leads { IfSome result (λ w. T.leads_to w.wire ≡ Some peer) }
    ensures key { IfSome result (λ w. w.key ≡ key) }
    ensures idle { T.elapsed_periods transport.new ≡ T.elapsed_periods transport.old }
    ensures waits { (T.asked transport.new).waits ≡ (T.asked transport.old).waits }
    ensures accepts { (T.asked transport.new).accepts ≡ (T.asked transport.old).accepts }
    ensures called { (T.asked transport.new).calls ≡ (T.asked transport.old).calls + 1 }
{
    let wire = transport.connect(peer)?;
    watch_at(transport, wire, key)
}

/// A link; `is_counted`: what it gives is counted.
fn counted<W>(alloc: Global, link: Link<W>, is_counted: bool) -> Link<W>
    ensures { result ≡ link }
{
    let mut link = link;
    if is_counted {
        link.count_given(alloc);
    }
    link
}

impl<W> Connections<W> {
    /// Calls this peer, if the transport can.
    fn dial<T: Transport<Connection = W>>(
        &mut self,
        alloc: Global,
        transport: &mut T,
        peer: usize,
    ) -> Result<(), AllocError>
        requires { is_due_at self.old.contacts.peers peer ≡ true }
        ensures idle { T.elapsed_periods transport.new ≡ T.elapsed_periods transport.old }
        ensures waits { (T.asked transport.new).waits ≡ (T.asked transport.old).waits }
        ensures dials { OnOk result
            (Dials T.leads_to (self.old.sessions, self.new.sessions) peer self.old.contacts
            self.new.contacts self.new.open) }

        // The transport is asked for a connection, unless no key is free for one.
        ensures asked { OnOk result
            ((is_free_at self.old.contacts.connections self.old.open.vacant_key ≡ false)
            ⊎ ((T.asked transport.new).calls ≡ (T.asked transport.old).calls + 1)) }
        ensures accepts { (T.asked transport.new).accepts ≡ (T.asked transport.old).accepts }
    {
        self.open.reserve(1)?;
        let key = self.open.vacant_key();
        if !self.contacts.is_free(key) {
            self.contacts.take(ContactEvent::NotCalled { peer });
            return Ok(());
        }
        let Some(Watched { wire, key }) = connect(transport, peer, key) else {
            self.contacts.take(ContactEvent::NotCalled { peer });
            return Ok(());
        };
        let Some(session) = self.sessions.give(peer) else {
            self.contacts.take(ContactEvent::NotCalled { peer });
            return Ok(());
        };
        let link = Link::connected(alloc, CountingWire::new(wire), session);
        let link = counted(alloc, link, self.is_counted);
        self.open.insert_reserved(Connection::new(link));
        self.contacts.take(ContactEvent::Called { key, peer });
        Ok(())
    }

    /// Calls all peers that are to be called.
    pub(crate) fn dial_all<T: Transport<Connection = W>>(
        &mut self,
        alloc: Global,
        transport: &mut T,
    ) -> Result<(), AllocError>
        ensures idle { T.elapsed_periods transport.new ≡ T.elapsed_periods transport.old }
        ensures waits { (T.asked transport.new).waits ≡ (T.asked transport.old).waits }
        ensures all { OnOk result (CallsAll self.old.contacts self.new.contacts) }
        ensures accepts { (T.asked transport.new).accepts ≡ (T.asked transport.old).accepts }
    {
        for peer in 0..self.contacts.peer_count() {
            if self.contacts.is_due(peer) {
                self.dial(alloc, transport, peer)?;
            }
        }
        Ok(())
    }

    /// Keeps a connection that somebody began, if there is room and the transport watches it.
    fn keep<T: Transport<Connection = W>>(
        &mut self,
        alloc: Global,
        neighbours: &Neighbours<'_>,
        transport: &mut T,
        wire: W,
    ) -> Result<(), AllocError>
        ensures idle { T.elapsed_periods transport.new ≡ T.elapsed_periods transport.old }
        ensures waits { (T.asked transport.new).waits ≡ (T.asked transport.old).waits }
        ensures keeps { OnOk result (Keeps self.old.contacts self.new.contacts) }
        ensures awaits { OnOk result (Awaits (record {
          topology = arc_value neighbours.now.topology.now;
          me = neighbours.now.partition;
          replica = neighbours.now.replica;
        }) self.old.contacts self.new.contacts self.new.open) }

        // The transport is to watch it, unless no key is free for it.
        ensures watched { OnOk result
            ((is_free_at self.old.contacts.connections self.old.open.vacant_key ≡ false)
            ⊎ ((T.asked transport.new).watches ≡ (T.asked transport.old).watches + 1)) }
        ensures accepts { (T.asked transport.new).accepts ≡ (T.asked transport.old).accepts }
    {
        let topology = Arc::try_clone(neighbours.topology)?;
        self.open.reserve(1)?;
        let key = self.open.vacant_key();
        if !self.contacts.is_free(key) {
            return Ok(());
        }
        let Some(Watched { wire, key }) = watch_at(transport, wire, key) else {
            return Ok(());
        };
        let acceptor = Acceptor::new(topology, neighbours.partition, neighbours.replica);
        let link = Link::accepted(alloc, CountingWire::new(wire), acceptor);
        let link = counted(alloc, link, self.is_counted);
        self.open.insert_reserved(Connection::new(link));
        self.contacts.take(ContactEvent::Accepted { key });
        Ok(())
    }

    /// Accepts the connections that others began. If there are as many strangers as there may be,
    /// the oldest is closed.
    pub(crate) fn accept_all<T: Transport<Connection = W>>(
        &mut self,
        alloc: Global,
        neighbours: &Neighbours<'_>,
        transport: &mut T,
    ) -> Result<(), AllocError>
        ensures idle { T.elapsed_periods transport.new ≡ T.elapsed_periods transport.old }
        ensures waits { (T.asked transport.new).waits ≡ (T.asked transport.old).waits }
        ensures admits { OnOk result
            ((n : ℕ) × Admits n self.old.contacts self.new.contacts) }

        // The transport is asked until it has none, or as many as may be were accepted.
        ensures asked { OnOk result ((n : ℕ) × Admits n self.old.contacts self.new.contacts
            × AsksFor n MAX_ACCEPTED (T.asked transport.old).accepts
            (T.asked transport.new).accepts) }
    {
        for _had in 0..MAX_ACCEPTED {
            let Some(wire) = transport.accept() else {
                return Ok(());
            };
            self.make_room(transport);
            self.keep(alloc, neighbours, transport, wire)?;
        }
        Ok(())
    }
}
