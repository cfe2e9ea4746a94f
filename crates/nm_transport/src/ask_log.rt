//! The calls of a transport, counted for contracts alone.

ghost use Rattle.std.specs.Prelude.{◌≡◌};
ghost use Rattle.nm_transport.specs.Asked.{after_accept, after_call, after_unwatch, after_wait};
ghost use Rattle.nm_transport.specs.Asked.{after_watch, nothing_asked};

use crate::spinning::Spinning;
use mio::{Events, Poll};
use nm_base::failures::FailureCount as Count;
use std::marker::Model;
use std::time::Duration;

/// How often each function of a transport was called, as contracts see it. It takes no memory.
#[derive(Drop)]
pub struct AskLog {
    calls: Count,
    accepts: Count,
    watches: Count,
    unwatches: Count,
    waits: Count,
}

impl Model for AskLog {
    ghost use Rattle.nm_transport.specs.Asked.{Asked};

    ghost Value = { Asked };

    ghost view = { λ l. record {
      calls = l.calls;
      accepts = l.accepts;
      watches = l.watches;
      unwatches = l.unwatches;
      waits = l.waits;
    } };
}

/// A wait that was asked for. It can only be spent by one wait.
pub struct AskedToWait(());

impl AskedToWait {
    /// Waits until something is ready on a poll, at most for `limit`: it may spin before it sleeps.
    /// Answers whether it could wait.
    pub(crate) fn poll(
        self,
        poll: &mut Poll,
        events: &mut Events,
        limit: Duration,
        spinning: &mut Spinning,
    ) -> bool {
        let AskedToWait(()) = self;
        if !limit.is_zero() && spinning.spin(poll, events) {
            return true;
        }
        poll.poll(events, Some(limit)).is_ok()
    }

    /// Waits in another way.
    pub fn wait(self) {
        let AskedToWait(()) = self;
    }
}

impl AskLog {
    /// Nothing was asked for so far.
    pub fn new() -> Self
        ensures { result ≡ nothing_asked }
    {
        AskLog {
            calls: Count::new(),
            accepts: Count::new(),
            watches: Count::new(),
            unwatches: Count::new(),
            waits: Count::new(),
        }
    }

    /// A connection to a peer is asked for.
    pub fn note_call(&mut self)
        ensures { self.new ≡ after_call self.old }
    {
        self.calls.rise();
    }

    /// A connection that somebody began is asked for.
    pub fn note_accept(&mut self)
        ensures { self.new ≡ after_accept self.old }
    {
        self.accepts.rise();
    }

    /// A connection is to be watched.
    pub fn note_watch(&mut self)
        ensures { self.new ≡ after_watch self.old }
    {
        self.watches.rise();
    }

    /// A connection is no longer to be watched.
    pub fn note_unwatch(&mut self)
        ensures { self.new ≡ after_unwatch self.old }
    {
        self.unwatches.rise();
    }

    /// One wait is to be made.
    pub fn note_wait(&mut self) -> AskedToWait
        ensures { self.new ≡ after_wait self.old }
    {
        self.waits.rise();
        AskedToWait(())
    }
}
