//! The connections of a replica, and on which there may be something to read.

ghost use Rattle.std.specs.Arc.{arc_value};
ghost use Rattle.std.specs.Option.{option_map};
ghost use Rattle.std.specs.Prelude.{◌≡◌, ◌≤◌, IfOk, false, length, true, ℕ};
ghost use Rattle.slab.specs.Slab.{Updates, get};
ghost use Rattle.nm_policy.specs.Laws.{at_first};
ghost use Rattle.nm_replica.specs.Connections.{AreAllReady, IsNoneReady, is_ready};
ghost use Rattle.nm_replica.specs.Connections.{reported_connection};
ghost use Rattle.nm_replica.specs.Sessions.{first_sessions};

use crate::connection::Connection;
use crate::neighbours::Neighbours;
use crate::sessions::Sessions;
use nm_engine::GivenBefore;
use nm_policy::Contacts;
use nm_transport::Reported;
use slab::Slab;
use std::alloc::{AllocError, Global};

/// The open connections, and the contacts of the replica.
#[derive(Drop)]
pub(crate) struct Connections<W> {
    pub open: Slab<Connection<W>>,
    pub contacts: Contacts,
    pub sessions: Sessions,
    /// On how many connections the peer sent Hello, and how many of these broke.
    pub begun: u64,
    pub broken: u64,
    /// Whether what links give is counted, for figures; and what links gave on connections that are
    /// gone.
    pub is_counted: bool,
    pub given: GivenBefore,
}

impl<W> Connections<W> {
    /// No connection so far.
    pub(crate) fn new(alloc: Global, neighbours: &Neighbours<'_>) -> Result<Self, AllocError>
        ensures contacts { IfOk result (λ c. c.contacts
            ≡ at_first (length neighbours.now.peers.now) neighbours.now.callers.now) }
        ensures sessions { IfOk result (λ c. c.sessions
            ≡ first_sessions (arc_value neighbours.now.topology.now) neighbours.now.partition
            neighbours.now.replica neighbours.now.peers.now) }
        ensures figures { IfOk result (λ c. (c.begun ≡ 0) × (c.broken ≡ 0)
            × (c.is_counted ≡ neighbours.now.are_counted)) }
    {
        let contacts = Contacts::new(alloc, neighbours.peers.len(), neighbours.callers)?;
        let sessions = Sessions::new(alloc, neighbours)?;
        Ok(Connections {
            open: Slab::new(alloc),
            contacts,
            sessions,
            begun: 0,
            broken: 0,
            is_counted: neighbours.are_counted,
            given: GivenBefore::new(alloc),
        })
    }

    /// A key above those of all connections.
    pub(crate) fn key_end(&self) -> usize
        ensures { length self.now.open.slots ≤ result }
    {
        self.open.capacity()
    }

    /// Whether more may be read without a wait's report.
    pub(crate) fn have_more(&self) -> bool
        ensures none { result ≡ false → IsNoneReady self.now.open }
        ensures some { result ≡ true
            → (key : ℕ) × (is_ready (get self.now.open key) ≡ true) }
    {
        for key in 0..self.key_end() {
            if self.is_ready(key) {
                return true;
            }
        }
        false
    }

    /// Whether there may be something to read on the connection with this key.
    fn is_ready(&self, key: usize) -> bool
        ensures { result ≡ is_ready (get self.now.open key) }
    {
        match self.open.get(key) {
            Some(connection) => connection.link.wire().is_ready(),
            None => false,
        }
    }

    /// Notes a report of a wait; its connection may be gone.
    pub(crate) fn note(&mut self, report: Reported)
        ensures contacts { self.new.contacts ≡ self.old.contacts }
        ensures open { Updates self.old.open self.new.open report.key
            (option_map reported_connection (get self.old.open report.key)) }
    {
        if let Some(connection) = self.open.get_mut(report.key) {
            connection.link.report();
        }
    }

    /// A wait ran out: each connection is to be read, whatever was reported.
    pub(crate) fn note_all(&mut self)
        ensures contacts { self.new.contacts ≡ self.old.contacts }
        ensures ready { AreAllReady self.new.open }
    {
        for key in 0..self.key_end() {
            self.note(Reported { key });
        }
    }

    /// How many of the messages that were given had been given to the same replica on an earlier
    /// connection, if that is counted.
    pub(crate) fn resent(&self) -> u64 {
        let mut count = self.given.resent();
        for (_, connection) in self.open.iter() {
            count = count.saturating_add(connection.resent(&self.given));
        }
        count
    }
}
