//! Connections over TCP.

ghost use Rattle.std.specs.Prelude.{◌≡◌, ◌==◌, ◌↔◌, ◌&&◌, ◌||◌, Bool, IfErr, IfOk, IfSome, IsSome};
ghost use Rattle.std.specs.Prelude.{IsSomeAnd};
ghost use Rattle.std.specs.Prelude.{IsTrue, [], None, Some, false, if◌then◌else◌, is_ok, length};
ghost use Rattle.std.specs.Prelude.{true};
ghost use Rattle.nm_transport.specs.Period.{ReadsClock};
ghost use Rattle.std.specs.Duration.{as_nanos};
ghost use Rattle.nm_transport.specs.Shortage.{IsOfShortage};
ghost use Rattle.nm_transport.specs.Transport.{IsCallTo, IsFresh, elapsed_after, has_run_out};
ghost use Rattle.std.specs.List.{list_any};
ghost use Rattle.mio.specs.Events.{items};
ghost use Rattle.nm_transport.specs.Asked.{after_accept, after_call, after_wait, nothing_asked};
ghost use Rattle.nm_transport.specs.Transport.{is_listener, waited_as};

use crate::ask_log::AskLog;
use crate::bound::Bound;
use crate::limits::MAX_REPORTS;
use crate::period::Period;
use crate::shortage::is_shortage;
use crate::spinning::Spinning;
use crate::tcp_wire::{Called, Registered, TcpWire};
use crate::transport::{Reported, Transport, Waited};
use mio::net::TcpStream;
use mio::{Events, Poll, Token};
use nm_base::failures::FailureCount;
use std::alloc::Global;
use std::io;
use std::marker::Model;
use std::net::{Net, SocketAddr};
use std::time::{Clock, Duration};

/// The token of the listener. Connections have their keys, and wakers the tokens next below.
const LISTENER: Token = Token(usize::MAX);

/// A listener, the addresses of the peers to call, and a poll. A clause sees where it listens and
/// those addresses, whether somebody may have called, whether the system lacks resources for one
/// more connection, whether the last wait was asked to wait, what it reported, how many waits ran
/// out, and how often it was called.
#[derive(Drop)]
pub struct TcpTransport<R> {
    net: R,
    poll: Poll,
    events: Events,
    listener: Bound,
    peers: Vec<SocketAddr>,
    /// Somebody may have called.
    is_called: bool,
    /// The system lacked resources for one more connection, when it was asked last.
    is_short: bool,
    /// The last wait was asked to wait, not only to look.
    was_to_wait: bool,
    /// The current period.
    period: Period,
    /// Which waits spin.
    spinning: Spinning,
    idle: FailureCount,
    log: AskLog,
}

impl<R> Model for TcpTransport<R> {
    ghost use Rattle.mio.specs.Events.{items};
    ghost use Rattle.nm_transport.specs.Transport.{TcpTransportSeen};

    ghost Value = { TcpTransportSeen };

    ghost view = { λ t. record {
      at = t.listener;
      peers = t.peers.items;
      is_called = t.is_called;
      is_short = t.is_short;
      was_to_wait = t.was_to_wait;
      reported = items t.events;
      elapsed = t.idle;
      begun = t.period.begun;
      asked = t.log;
    } };
}

/// How long a wait may last: what is left of the period, or 0 if it only looks.
fn wait_limit(may_wait: bool, left: Duration) -> Duration
    ensures { as_nanos result ≡ (if may_wait then as_nanos left else 0) }
{
    if may_wait { left } else { Duration::ZERO }
}

/// The answer of a wait, by whether a period was over and whether it could wait.
fn waited_as(is_over: bool, has_waited: bool) -> Waited
    ensures { result ≡ waited_as is_over has_waited }
{
    match (is_over, has_waited) {
        (true, _) => Waited::RanOut,
        (false, true) => Waited::Ready,
        (false, false) => Waited::Fault,
    }
}

/// Whether somebody may have called after a wait: it was so before, the listener was reported, or a
/// period is over, after which the listener is asked whatever was reported.
fn may_be_called(was_called: bool, waited: Waited, has_call: bool) -> bool
    ensures { result ≡ (was_called || has_run_out waited || has_call) }
{
    was_called || waited.has_run_out() || has_call
}

/// The connection, if the system registered it with the poll under this key.
fn if_registered(connection: TcpWire, registered: &Registered, key: usize) -> Option<TcpWire>
    requires { registered.now.key ≡ key }
    ensures { result ≡ (if is_ok registered.now.answer then Some connection else None) }
{
    if registered.is_done() {
        Some(connection)
    } else {
        None
    }
}

/// Whether the listener was reported.
fn has_call(events: &Events) -> bool
    ensures { result ≡ list_any is_listener (items events.now) }
{
    events.iter().any(|event| event.token() == LISTENER)
}

impl<R: Net + Clock> TcpTransport<R> {
    /// A transport over this listener, to peers with these addresses. A waker of the poll ends a
    /// wait.
    ///
    /// # Errors
    ///
    /// If memory was refused, or the system does not watch the listener. Nothing is left then.
    pub fn new(
        net: R,
        alloc: Global,
        poll: Poll,
        mut listener: Bound,
        peers: Vec<SocketAddr>,
    ) -> io::Result<Self>
    where
        R: Drop,
        ensures { IfOk result
            (λ t. t ≡ record {
              at = listener;
              peers = peers.items;
              is_called = true;
              is_short = false;
              was_to_wait = false;
              reported = [];
              elapsed = 0;
              begun = t.begun;
              asked = nothing_asked;
            }) }
    {
        let events = Events::with_capacity(alloc, MAX_REPORTS)?;
        listener.register(poll.registry(), LISTENER)?;
        let period = Period::begin(&net);
        Ok(TcpTransport {
            net,
            poll,
            events,
            listener,
            peers,
            is_called: true,
            is_short: false,
            was_to_wait: false,
            period,
            spinning: Spinning::new(),
            idle: FailureCount::new(),
            log: AskLog::new(),
        })
    }

    /// Begins a connection to the peer with this number, at its address.
    fn call(&mut self, peer: usize) -> Option<TcpWire>
        ensures fresh { IfSome result (λ w. IsFresh w.wire) }
        ensures called { IfSome result (λ w. IsSomeAnd w.called (IsCallTo self.old.peers peer)) }
        ensures asked { self.new ≡ record self.old { asked = after_call self.old.asked } }
    {
        self.log.note_call();
        let address = *self.peers.get(peer)?;
        let wire = TcpWire::call(&self.net, Called { peer, address })?;
        let own = wire.own_address();
        wire.unless_from(own)
    }

    /// Takes the listener's answer: a connection that somebody began, or an error if the system
    /// refused one or has none.
    fn take_call(&mut self, answer: io::Result<(TcpStream, SocketAddr)>) -> Option<TcpWire>
        ensures call { IfOk answer (λ a. IsSome result × (self.new ≡ record self.old {
          is_short = false;
        })) }
        ensures refusal { IfErr answer (λ e. (result ≡ None)
            × (IsTrue self.new.is_short ↔ IsOfShortage e)
            × (self.new ≡ record self.old { is_called = false; is_short = self.new.is_short })) }
        ensures fresh { IfSome result (λ w. IsFresh w.wire) }
    {
        match answer {
            Ok((stream, _)) => {
                self.is_short = false;
                Some(TcpWire::accepted(stream))
            }
            Err(error) => {
                self.is_called = false;
                self.is_short = is_shortage(&error);
                None
            }
        }
    }

    /// The next connection that somebody began, if there is one.
    fn next_call(&mut self) -> Option<TcpWire>
        // The system is asked if somebody may have called, until it has no more.
        ensures quiet { self.old.is_called ≡ false → (result ≡ None)
            × (self.new ≡ record self.old { asked = after_accept self.old.asked }) }
        ensures asked { self.new.asked ≡ after_accept self.old.asked }
        ensures none { result ≡ None → self.new.is_called ≡ false }
        ensures fresh { IfSome result (λ w. IsFresh w.wire) }
        ensures idle { self.new.elapsed ≡ self.old.elapsed }
    {
        self.log.note_accept();
        if !self.is_called {
            return None;
        }
        let answer = self.listener.accept();
        self.take_call(answer)
    }

    /// Waits until a connection is ready or the period is over, or only looks.
    fn wait_for(&mut self, may_wait: bool) -> Waited
        ensures idle { self.new.elapsed ≡ elapsed_after self.old.elapsed (has_run_out result) }
        ensures waits { self.new.was_to_wait ≡ may_wait }
        ensures asked { self.new.asked ≡ after_wait self.old.asked }

        // The clock decides whether a period is over. If it can't be read, a wait for the rest of
        // the period that found nothing ends it.
        ensures period { (has_waited is_over : Bool) × (result ≡ waited_as is_over has_waited)
            × ReadsClock self.old.begun (may_wait && has_waited && length self.new.reported == 0)
            self.new.begun is_over }

        // Somebody may have called if that was so before, a period was over, or the listener was
        // reported.
        ensures called { self.new.is_called ≡ (self.old.is_called || has_run_out result
            || list_any is_listener self.new.reported) }
    {
        let asked = self.log.note_wait();
        self.was_to_wait = may_wait;
        let limit = wait_limit(may_wait, self.period.left(&self.net));
        let has_waited = asked.poll(&mut self.poll, &mut self.events, limit, &mut self.spinning);
        let was_quiet = may_wait && has_waited && self.events.is_empty();
        let waited = waited_as(self.period.ends(&self.net, was_quiet), has_waited);
        self.is_called = may_be_called(self.is_called, waited, has_call(&self.events));
        if waited.has_run_out() {
            self.idle.rise();
        }
        waited
    }
}

impl<R: Net + Clock> Transport for TcpTransport<R> {
    type Connection = TcpWire;

    ghost use Rattle.std.specs.Option.{option_map};
    ghost use Rattle.std.specs.Prelude.{slice_get};
    ghost use Rattle.nm_transport.specs.Transport.{token_of};

    ghost asked = { λ t. t.asked };

    ghost has_too_little = { λ t. t.is_short };

    ghost elapsed_periods = { λ t. t.elapsed };

    ghost was_to_wait = { λ t. t.was_to_wait };

    ghost reported = { λ t number. option_map token_of (slice_get t.reported number) };

    ghost leads_to = { λ w. option_map (λ called. called.peer) w.called };

    fn connect(&mut self, peer: usize) -> Option<TcpWire> {
        self.call(peer)
    }

    fn accept(&mut self) -> Option<TcpWire> {
        self.next_call()
    }

    fn is_short(&self) -> bool {
        self.is_short
    }

    fn watch(&mut self, connection: TcpWire, key: usize) -> Option<TcpWire> {
        self.log.note_watch();
        let mut connection = connection;
        let registered = connection.register(self.poll.registry(), key);
        if_registered(connection, &registered, key)
    }

    fn unwatch(&mut self, connection: &mut TcpWire) {
        self.log.note_unwatch();
        let _ = connection.deregister(self.poll.registry());
    }

    fn wait(&mut self, may_wait: bool) -> Waited {
        self.wait_for(may_wait)
    }

    fn report(&self, number: usize) -> Option<Reported> {
        let Token(key) = self.events.iter().nth(number)?.token();
        Some(Reported { key })
    }
}
