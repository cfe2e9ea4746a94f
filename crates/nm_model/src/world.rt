//! Laws over every list of steps of the world.

ghost use Rattle.std.specs.Prelude.{◌≡◌, ℕ, ◌+◌, ◌≤◌, min, Bool, List};
ghost use Rattle.nm_model.specs.Network.{Net, IsNet};
ghost use Rattle.nm_model.specs.Knowledge.{Knowledge};
ghost use Rattle.nm_model.specs.Accept.{IsReflexive};
ghost use Rattle.nm_model.specs.Before.{IsCount};
ghost use Rattle.nm_model.specs.World.{Step, advance};
ghost use Rattle.nm_model.specs.WorldLaws.{KnowledgeDecides, PrefixTheorem};

/// The prefix theorem. Whatever replicas run, send, receive, merge and restart, whichever promises
/// they make, and whatever frames are lost, repeated or late: all knowledge is true of the network
/// (`valid`); each trace is a beginning of the network's trace of that partition (`prefix`) and
/// exactly that before the safe time once what is safe has run (`exact`); each state is the cut of
/// the network's (`agrees`); what was sent is a beginning of what the network sends, and what the
/// network sends past it keeps the promise (`sent`, `promised`); and only gaps are refused.
pub fn prefix_theorem<P, N>()
    ensures { (net : Net P N) → IsNet net → (same : P → P → Bool) → IsReflexive same
        → (steps : List Step) → PrefixTheorem net same steps }
{}

/// A run of at most n events goes to the lesser of n events more and the count of what is safe.
pub fn a_run_goes_to_what_is_safe<P, N>()
    ensures { (net : Net P N) → IsNet net → (p : ℕ) (K : Knowledge P) (count n k : ℕ)
        → IsCount net p K count → k ≤ count → advance net p K n k ≡ min (k + n) count }
{}

/// Replicas of a partition, in one world or in two, that know the same of each incoming channel and
/// have done as many events have equal states, so equal traces, outgoing lists and ports, and make
/// equal promises; once both have run all that is safe, they have done as many.
pub fn equal_knowledge_gives_equal_replicas<P, N>()
    ensures { (net : Net P N) → IsNet net → KnowledgeDecides net }
{}
