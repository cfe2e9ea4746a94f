//! How two sessions come to their end.

ghost use Rattle.std.specs.Prelude.{◌≡◌, ℕ, ◌+◌, List, None, true};
ghost use Rattle.nm_model.specs.Certificate.{is_done};
ghost use Rattle.nm_model.specs.Promise.{Plain};
ghost use Rattle.nm_sim.specs.Network.{net_of};
ghost use Rattle.nm_topology.specs.Topology.{receiving_iface};
ghost use Rattle.nm_book.specs.Book.{BookValue, promise_on, replica_of};
ghost use Rattle.nm_frames.specs.Owed.{owed};
ghost use Rattle.nm_frames.specs.Session.{SessionValue};
ghost use Rattle.nm_laws.specs.Sessions.{AreNeighbours, HoldsSent, Talks, Turn, session_of};

/// Two replicas of neighbouring partitions have nothing left to do, and neither holds messages that
/// the other one did not send. Their sessions talk over a connection that loses nothing, one frame
/// at a time, in any order. When neither has a frame more to give, both have taken Bye. By
/// `nm_frames::laws::bye_comes_last` each channel was sent before, its last promise too: so
/// whatever two replicas send each other, they do not fall silent before all is sent.
pub fn both_part_with_bye()
    ensures { (a b : BookValue) → AreNeighbours a b → HoldsSent a b → HoldsSent b a
        → (turns : List Turn) (s t : SessionValue)
        → Talks (a, b) turns (session_of a b, session_of b a) (s, t)
        → owed s a ≡ None → owed t b ≡ None
        → (s.bye_taken ≡ true) × (t.bye_taken ≡ true) }
{}

/// A replica with nothing left to do promises, with the plain promise of version 1, that nothing
/// more comes by a channel before `stop` and the delay of its link. So the null message before Bye
/// has that in either version, since the tight promise is no earlier.
pub fn a_done_replica_promises_stop()
    ensures { (b : BookValue) (c : ℕ)
        → is_done (net_of b.topology) b.partition (replica_of b) ≡ true
        → promise_on Plain b c ≡ (net_of b.topology).stop
        + (net_of b.topology).delay ((net_of b.topology).far_end (receiving_iface b.topology c)) }
{}
