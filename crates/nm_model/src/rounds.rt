//! Laws of rounds.

ghost use Rattle.std.specs.Prelude.{◌≡◌, ℕ, ◌*◌, ◌<◌, ◌≤◌, Bool, List, true};
ghost use Rattle.nm_model.specs.Network.{Net, IsNet, IsParted};
ghost use Rattle.nm_model.specs.Knowledge.{Knowledge, Know};
ghost use Rattle.nm_model.specs.Accept.{IsReflexive};
ghost use Rattle.nm_model.specs.Partition.{comes_in};
ghost use Rattle.nm_model.specs.Replica.{safe_time};
ghost use Rattle.nm_model.specs.Promise.{Promising};
ghost use Rattle.nm_model.specs.World.{Replica, Step, replica_after};
ghost use Rattle.nm_model.specs.Rounds.{IsRounds, round_count};
ghost use Rattle.nm_model.specs.RoundLaws.{RoundsBound};

/// There are rounds of each network, with either promise.
pub fn there_are_rounds<P, N>()
    ensures { (net : Net P N) → IsNet net → (same : P → P → Bool) (kind : Promising)
        → (b : ℕ → ℕ → Replica P) × IsRounds net same kind b }
{}

/// If each channel's lookahead is at least `lead`, all is done in the round after `j` of them, once
/// `j * lead` reaches stop; with either promise. Whenever a partition's safe time is `stop`, it has
/// its whole trace once it has run (`early`).
pub fn rounds_bound<P, N>()
    ensures { (net : Net P N) → IsNet net → (same : P → P → Bool) → IsReflexive same
        → (kind : Promising) (b : ℕ → ℕ → Replica P) → IsRounds net same kind b
        → RoundsBound net kind b }
{}

/// So `round_count stop lead` rounds and one more are enough.
pub fn so_many_rounds_are_enough()
    ensures { (stop lead : ℕ) → 1 ≤ lead → stop ≤ round_count stop lead * lead }
{}

/// And one if there is no channel: all is safe.
pub fn a_lone_partition_is_safe<P, N>()
    ensures { (net : Net P N) (p : ℕ) → ((c : ℕ) → comes_in net p c ≡ true → ⊥)
        → (K : Knowledge P) → safe_time net p K ≡ net.stop }
{}

/// Rounds are one of the ways that the world may go: the books after so many rounds are replicas 0
/// after some steps of it, so all that holds over every list of steps holds of them.
pub fn rounds_are_steps<P, N>()
    ensures { (net : Net P N) → IsNet net → IsParted net → (same : P → P → Bool) → IsReflexive same
        → (kind : Promising) (b : ℕ → ℕ → Replica P) → IsRounds net same kind b → (j : ℕ)
        → (steps : List Step)
        × ((p : ℕ) → p < net.parts → replica_after net same steps p 0 ≡ b j p) }
{}
