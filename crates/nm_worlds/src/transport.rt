//! The transport of a machine of a world.

ghost use Rattle.std.specs.Prelude.{◌≡◌, IfSome, Some};
ghost use Rattle.nm_worlds.specs.Wires.{IsNew};

use crate::hub::Shared;
use crate::wire::WorldWire;
use nm_base::failures::FailureCount;
use nm_transport::limits::PERIOD_MILLISECONDS;
use nm_transport::{AskLog, Reported, Transport, Waited};

/// The transport of a machine: the others that it calls, by the numbers of its peers.
#[derive(Drop)]
pub(crate) struct WorldTransport {
    hub: Shared,
    machine: usize,
    peers: Vec<usize>,
    /// Its time, in milliseconds, and when its period is over.
    now: u64,
    period_end: u64,
    idle: FailureCount,
    log: AskLog,
    /// The machine had too little for one more connection when it was asked for one last.
    is_short: bool,
    /// The last wait was asked to wait.
    was_to_wait: bool,
    /// Something came at its last poll, so that more may be left to do.
    is_busy: bool,
}

impl WorldTransport {
    /// That of this machine.
    pub(crate) fn new(hub: Shared, machine: usize, peers: Vec<usize>, now: u64) -> Self {
        WorldTransport {
            hub,
            machine,
            peers,
            now,
            period_end: now.saturating_add(PERIOD_MILLISECONDS),
            idle: FailureCount::new(),
            log: AskLog::new(),
            is_short: false,
            was_to_wait: false,
            is_busy: true,
        }
    }

    /// Time went on: whether a wait ends now. A period is over, something has come, or something
    /// had come before.
    pub(crate) fn wakes(&mut self, now: u64) -> bool {
        let has_news = match self.hub.try_borrow_mut() {
            Ok(hub) => hub.has_news(self.machine),
            Err(_) => true,
        };
        let wakes = has_news || self.is_busy || now >= self.period_end;
        self.is_busy = has_news;
        self.now = now;
        wakes
    }

    /// A connection that the network makes, or does not.
    fn call(&self, peer: usize) -> Option<WorldWire>
        ensures { IfSome result (λ w. IsNew w × (w.peer ≡ Some peer)) }
    {
        let to = *self.peers.get(peer)?;
        let Ok(mut hub) = self.hub.try_borrow_mut() else {
            return None;
        };
        hub.call(self.machine, to, peer)
    }
}

impl Transport for WorldTransport {
    type Connection = WorldWire;

    ghost use Rattle.std.specs.Prelude.{Some};

    ghost asked = { λ n. n.log };

    ghost has_too_little = { λ n. n.is_short };

    ghost reported = { λ n number. Some number };

    ghost elapsed_periods = { λ n. n.idle };

    ghost was_to_wait = { λ n. n.was_to_wait };

    ghost leads_to = { λ w. w.peer };

    fn connect(&mut self, peer: usize) -> Option<WorldWire> {
        self.log.note_call();
        self.call(peer)
    }

    fn accept(&mut self) -> Option<WorldWire> {
        self.log.note_accept();
        match self.hub.try_borrow_mut() {
            Ok(mut hub) => {
                self.is_short = hub.is_short(self.machine);
                hub.accept(self.machine)
            }
            Err(_) => None,
        }
    }

    fn is_short(&self) -> bool {
        self.is_short
    }

    fn watch(&mut self, connection: WorldWire, _key: usize) -> Option<WorldWire> {
        self.log.note_watch();
        Some(connection)
    }

    fn unwatch(&mut self, connection: &mut WorldWire) {
        self.log.note_unwatch();
        connection.close();
    }

    fn wait(&mut self, may_wait: bool) -> Waited {
        self.log.note_wait().wait();
        self.was_to_wait = may_wait;
        if self.now < self.period_end {
            return Waited::Ready;
        }
        self.period_end = self.now.saturating_add(PERIOD_MILLISECONDS);
        self.idle.rise();
        Waited::RanOut
    }

    fn report(&self, number: usize) -> Option<Reported> {
        Some(Reported { key: number })
    }
}
