//! Laws of what partitions send and promise.

ghost use Rattle.std.specs.Prelude.{ℕ, ◌+◌, ◌≤◌};
ghost use Rattle.nm_model.specs.Network.{Net, IsNet};
ghost use Rattle.nm_model.specs.Knowledge.{Knowledge, Know};
ghost use Rattle.nm_model.specs.Replica.{IsUnderAll};
ghost use Rattle.nm_model.specs.Promise.{Plain, Tight, promise};
ghost use Rattle.nm_model.specs.Before.{IsKnowledge};
ghost use Rattle.nm_model.specs.PromiseLaws.{KeepsPromises, NeverFalls, PromisesAtLeast};

/// What a partition sends is the beginning of what the whole network sends, and its promises are
/// kept: the plain one and the tight one, which is later than the plain one by the least time of a
/// transmission, or by more.
pub fn promises_kept<P, N>()
    ensures kept { (net : Net P N) → IsNet net → (p : ℕ) (K : Knowledge P) → IsKnowledge net p K
        → KeepsPromises net p K }
    ensures tighter { (net : Net P N) (p : ℕ) (K : Knowledge P) (k c : ℕ)
        → promise net Plain p K k c + net.least_tx (net.far_end c) ≤ promise net Tight p K k c }
{}

/// The safe time and the promises never fall, whatever is done and whatever more is known.
pub fn promises_never_fall<P, N>()
    ensures { (net : Net P N) → IsNet net → (p : ℕ) (K J : Knowledge P) → IsUnderAll net p K J
        → NeverFalls net p K J }
{}

/// The least that a promise is: the plain one is exactly the link's delay after the next event that
/// may cause a message; the tight one counts that event too, and the transmission under way, and
/// then the least time of a transmission and the delay.
pub fn promises_from_below<P, N>()
    ensures { (net : Net P N) (p : ℕ) (K : Knowledge P) (k : ℕ) → PromisesAtLeast net p K k }
{}
