//! What a replica's loop needs of what carries its octets. A call that fails is made again at a
//! later poll.

ghost use Rattle.std.specs.Prelude.{◌≡◌, ℕ, [], Bool, IfSome, Option, Some};
ghost use Rattle.nm_transport.specs.Transport.{has_run_out};

use nm_base::Wire;

/// The answer of a wait.
#[derive(Clone, Copy, Debug, PartialEq, Eq)]
pub enum Waited {
    /// A connection may be ready, a waker ended the wait, or it was only to look.
    Ready,
    /// A period was over, whatever was ready.
    RanOut,
    /// It could not wait.
    Fault,
}

impl Waited {
    /// Whether a period was over, or it could not wait.
    pub fn has_run_out(self) -> bool
        ensures { result ≡ has_run_out self }
    {
        match self {
            Waited::Ready => false,
            Waited::RanOut | Waited::Fault => true,
        }
    }
}

/// A connection that a wait reported as possibly ready.
#[derive(Clone, Copy)]
pub struct Reported {
    /// The connection's key.
    pub key: usize,
}

/// Connections with other replicas, and a wait for them. No call waits but `wait`. Time is counted
/// in periods of `limits::PERIOD_MILLISECONDS`, which no caller can prolong. A clause sees how many
/// were over.
pub trait Transport {
    ghost use Rattle.std.specs.Option.{option_map};
    ghost use Rattle.nm_transport.specs.Asked.{Asked, after_accept, after_call, after_unwatch};
    ghost use Rattle.nm_transport.specs.Asked.{after_wait, after_watch};
    ghost use Rattle.nm_transport.specs.Transport.{IsFresh, has_run_out, elapsed_after};

    type Connection: Wire + Drop;

    // How often each of its functions was called so far.
    ghost asked: { Self → Asked };

    // The system lacked resources for one more connection, when it was asked for one last.
    ghost has_too_little: { Self → Bool };

    // How many waits ended because a period was over, or because it could not wait.
    ghost elapsed_periods: { Self → ℕ };

    // The last wait was asked to wait, not only to look.
    ghost was_to_wait: { Self → Bool };

    // The key in the last wait's report with this number, if it made so many.
    ghost reported: { Self → ℕ → Option ℕ };

    // The number of the peer to which the connection was begun, if it was begun here.
    ghost leads_to: { Self.Connection → Option ℕ };

    /// Begins a connection to the peer with this number, if it can. It may be established later.
    fn connect(&mut self, peer: usize) -> Option<Self::Connection>
        ensures fresh { IfSome result (λ w. IsFresh (Self.Connection.seen w)) }
        ensures leads { IfSome result (λ w. leads_to w ≡ Some peer) }
        ensures asked { asked self.new ≡ after_call (asked self.old) }
        ensures idle { elapsed_periods self.new ≡ elapsed_periods self.old };

    /// The next connection that a peer began, if there is one.
    fn accept(&mut self) -> Option<Self::Connection>
        ensures fresh { IfSome result (λ w. IsFresh (Self.Connection.seen w)) }
        ensures asked { asked self.new ≡ after_accept (asked self.old) }
        ensures idle { elapsed_periods self.new ≡ elapsed_periods self.old };

    /// Whether the system, when last asked, refused a connection that somebody began for lack of
    /// resources: no peer is to blame.
    fn is_short(&self) -> bool
        ensures { result ≡ has_too_little self.now };

    /// Makes `wait` end when the connection is ready; its report has this key. A connection that
    /// can't be watched is closed.
    fn watch(&mut self, connection: Self::Connection, key: usize) -> Option<Self::Connection>
        ensures same { IfSome result (λ w. w ≡ connection) }
        ensures asked { asked self.new ≡ after_watch (asked self.old) }
        ensures idle { elapsed_periods self.new ≡ elapsed_periods self.old };

    /// Ends the watch of a connection.
    fn unwatch(&mut self, connection: &mut Self::Connection)
        ensures same { connection.new ≡ connection.old }
        ensures asked { asked self.new ≡ after_unwatch (asked self.old) }
        ensures idle { elapsed_periods self.new ≡ elapsed_periods self.old };

    /// Waits until a connection is ready or the period is over, or only looks. The first call that
    /// ends once a period is over answers `RanOut`, and the next period begins then.
    fn wait(&mut self, may_wait: bool) -> Waited
        ensures idle { elapsed_periods self.new
            ≡ elapsed_after (elapsed_periods self.old) (has_run_out result) }
        ensures waits { was_to_wait self.new ≡ may_wait }
        ensures asked { asked self.new ≡ after_wait (asked self.old) };

    /// The last wait's report with this number, if it made so many. A connection that is not
    /// reported is read when a period is over: to report all is as right as to report nothing, and
    /// as slow.
    fn report(&self, number: usize) -> Option<Reported>
        ensures key { option_map (λ r. r.key) result ≡ reported self.now number };
}
