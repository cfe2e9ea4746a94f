//! Laws of the single steps of the world: what each does, what it answers, and when it names
//! nothing.

ghost use Rattle.std.specs.Prelude.{◌≡◌, ◌≢◌, ◌⊎◌, ℕ, ◌<◌, ◌≤◌, Bool, true};
ghost use Rattle.nm_model.specs.Network.{Net};
ghost use Rattle.nm_model.specs.Partition.{goes_out, receiver_of};
ghost use Rattle.nm_model.specs.Before.{IsCount};
ghost use Rattle.nm_model.specs.World.{World, Replica, is_replica};
ghost use Rattle.nm_model.specs.StepLaws.{BeginsAnew, Delivers, DoesWhatIsSafe, HasTwoEnds};
ghost use Rattle.nm_model.specs.StepLaws.{JoinsSisters, MayNameNothing, OneChanges, PutsFrames};

/// Each partition that is there has replicas 0 and 1, and no others.
pub fn two_replicas<P, N>()
    ensures there { (net : Net P N) (p : ℕ) → p < net.parts
        → (is_replica net p 0 ≡ true) × (is_replica net p 1 ≡ true) }
    ensures only { (net : Net P N) (p r : ℕ) → is_replica net p r ≡ true
        → (p < net.parts) × ((r ≡ 0) ⊎ (r ≡ 1)) }
{}

/// A channel is a direction of a link with ends in different partitions. It goes out of the
/// partition of the far end and comes into that of the interface that names it.
pub fn channels_have_two_ends<P, N>()
    ensures { (net : Net P N) (p c : ℕ) → HasTwoEnds net p c }
{}

/// If one replica changes, the others and the frames stay.
pub fn one_replica_changes<P>()
    ensures { (w : World P) (p r : ℕ) (x : Replica P) → OneChanges w p r x }
{}

/// A run does n further events and answers Limit n if more are safe; else it does all that are safe
/// and answers All with how many it did. Nothing else changes.
pub fn a_run_answers<P, N>()
    ensures { (net : Net P N) (same : P → P → Bool) (w : World P) (p r n count : ℕ)
        → is_replica net p r ≡ true → IsCount net p (w.replica p r).knowledge count
        → (w.replica p r).ran ≤ count → DoesWhatIsSafe net same w (p, r) n count }
{}

/// What a replica sends is put behind the frames that were sent before, and nothing else changes: a
/// message, all messages from a number on, or a null message with the number of messages and the
/// promise. The answer is how many frames were put.
pub fn sending_puts_frames<P, N>()
    ensures { (net : Net P N) (same : P → P → Bool) (w : World P) (p r c : ℕ)
        → is_replica net p r ≡ true → goes_out net p c ≡ true → PutsFrames net same w p r c }
{}

/// A delivery gives its frame to one replica of the receiver, and answers what taking it answers.
pub fn a_delivery_tells_the_receiver<P, N>()
    ensures { (net : Net P N) (same : P → P → Bool) (w : World P) (i r c : ℕ)
        → is_replica net (receiver_of net c) r ≡ true → Delivers net same w i r c }
{}

/// A merge joins what the other replica of the partition knows, channel by channel, or names the
/// first channel that can't be joined.
pub fn a_merge_joins_the_sisters<P, N>()
    ensures { (net : Net P N) (same : P → P → Bool) (w : World P) (p r s : ℕ)
        → is_replica net p r ≡ true → is_replica net p s ≡ true → r ≢ s
        → JoinsSisters net same w p r s }
{}

/// A restart leaves a replica that knows nothing and has done nothing.
pub fn a_restart_begins_anew<P, N>()
    ensures { (net : Net P N) (same : P → P → Bool) (w : World P) (p r : ℕ)
        → is_replica net p r ≡ true → BeginsAnew net same w p r }
{}

/// A step that names a partition, replica, channel, frame or message that isn't there changes
/// nothing and says so.
pub fn a_step_may_name_nothing<P, N>()
    ensures { (net : Net P N) (same : P → P → Bool) (w : World P) → MayNameNothing net same w }
{}
