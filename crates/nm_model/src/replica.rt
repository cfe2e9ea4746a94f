//! Laws of the replica from scratch: what a partition computes from its knowledge alone.

ghost use Rattle.std.specs.Prelude.{◌≡◌, ℕ, ◌<◌, ◌≤◌, true, []};
ghost use Rattle.nm_model.specs.Lists.{set_at};
ghost use Rattle.nm_model.specs.Network.{Net, IsNet};
ghost use Rattle.nm_model.specs.Knowledge.{Knowledge, Know, IsUnder, no_knowledge};
ghost use Rattle.nm_model.specs.Partition.{comes_in};
ghost use Rattle.nm_model.specs.Replica.{from_scratch, inbox_events, safe_time, IsWithin};
ghost use Rattle.nm_model.specs.Replica.{IsUnderAll};
ghost use Rattle.nm_model.specs.Before.{IsKnowledge};
ghost use Rattle.nm_model.specs.ReplicaLaws.{AreEqualStates, HasGrown, IsCutOf, StaysOver};
ghost use Rattle.nm_model.specs.ReplicaLaws.{TakesOneMore};

/// The cut law: a partition over valid knowledge computes its part of the whole network. `agrees`:
/// each of its states is the cut to the partition of every state of the network that has done as
/// many events there; `reached`: there is such a one. `prefix`, `exact`: so its trace begins the
/// partition's trace, and is all of it before the safe time once all that is safe has run.
pub fn cut_law<P, N>()
    ensures { (net : Net P N) → IsNet net → (p : ℕ) (K : Knowledge P) → IsKnowledge net p K
        → IsCutOf net p K }
{}

/// Over more knowledge a partition is as before, with the new messages pending.
pub fn law_of_books<P, N>()
    ensures { (net : Net P N) → IsNet net → (p : ℕ) (K J : Knowledge P) → IsUnderAll net p K J
        → (k : ℕ) → IsWithin net p K k → StaysOver net p K J k }
{}

/// To take one new message is to put one new event, and to raise a clock changes nothing.
pub fn told_one_more<P, N>()
    ensures { (net : Net P N) → IsNet net → (p : ℕ) (K : Knowledge P) (k : ℕ) → IsWithin net p K k
        → (c : ℕ) → comes_in net p c ≡ true → TakesOneMore net p K k c }
{}

/// More of one channel is more knowledge.
pub fn more_of_one_channel_is_more<P, N>()
    ensures { (net : Net P N) (p : ℕ) (K : Knowledge P) (c : ℕ) (a : Know P) → IsUnder (K c) a
        → IsUnderAll net p K (set_at K c a) }
{}

/// What was put on a channel and what was recorded stays, whatever is done and whatever more is
/// known.
pub fn what_was_done_stays<P, N>()
    ensures { (net : Net P N) → IsNet net → (p : ℕ) (K J : Knowledge P) → IsUnderAll net p K J
        → (k m : ℕ) → k ≤ m → IsWithin net p K k → HasGrown net p K J k m }
{}

/// Over no knowledge a partition begins with its sources' events alone.
pub fn nothing_known_puts_nothing<P, N>()
    ensures { (net : Net P N) (p : ℕ) → inbox_events net p no_knowledge ≡ [] }
{}

/// Who knows the same of each incoming channel has the same states and makes the same promises,
/// whoever it is.
pub fn equal_knowledge_gives_equal_states<P, N>()
    ensures { (net : Net P N) → IsNet net → (p : ℕ) (K J : Knowledge P)
        → ((c : ℕ) → comes_in net p c ≡ true → K c ≡ J c) → AreEqualStates net p K J }
{}

/// The safe time is at most `stop` and the clock of each channel that comes in, and it is the
/// greatest such time.
pub fn safe_time_is_the_least<P, N>()
    ensures stop { (net : Net P N) (p : ℕ) (K : Knowledge P) → safe_time net p K ≤ net.stop }
    ensures clocks { (net : Net P N) (p : ℕ) (K : Knowledge P) (c : ℕ) → c < net.ifaces
        → comes_in net p c ≡ true → safe_time net p K ≤ (K c).clock }
    ensures greatest { (net : Net P N) (p : ℕ) (K : Knowledge P) (t : ℕ) → t ≤ net.stop
        → ((c : ℕ) → comes_in net p c ≡ true → t ≤ (K c).clock) → t ≤ safe_time net p K }
{}

/// Clocks change no state: over the same messages a partition's states are the same.
pub fn clocks_change_no_state<P, N>()
    ensures { (net : Net P N) (p : ℕ) (K J : Knowledge P)
        → ((c : ℕ) → comes_in net p c ≡ true → (K c).list ≡ (J c).list)
        → (k : ℕ) → from_scratch net p K k ≡ from_scratch net p J k }
{}
