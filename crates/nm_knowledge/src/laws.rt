//! Laws of the definitions: a function's contract is the law, and its body does nothing but call
//! the laws that it rests on.

ghost use Rattle.std.specs.Prelude.{◌≡◌, ℕ, ◌≤◌, Bool, List, length, Contains, ◌↔◌};
ghost use Rattle.nm_model.specs.Knowledge.{Know as Knowledge, IsKnow};
ghost use Rattle.nm_model.specs.Accept.{IsReflexive, TellsApart};
ghost use Rattle.nm_base.specs.declared.limits.TheConstants.{MAX_MESSAGES};
ghost use Rattle.nm_knowledge.specs.Octets.{same_octets};
ghost use Rattle.nm_knowledge.specs.Order.{Tidings, AreAccepted, accept_all};

use crate::know::Know;
/// The laws of the model's knowledge: what a message and a null message add to it; that a join of
/// two is the least that both are under, the same in any order and however often; and that two are
/// not joined exactly if they contradict each other.
pub use nm_model::knowledge::{accept_laws, join_faults_are_right, join_laws, under_laws};

/// Packets are the same exactly if their octets are.
pub fn packets_are_told_apart()
    ensures same { IsReflexive same_octets }
    ensures apart { TellsApart same_octets }
{}

/// The order in which messages and null messages are accepted does not matter, nor how often each
/// is: two lists of the same ones, all accepted all along, leave the same knowledge. A refusal
/// changes nothing, so a refused one may be between them.
pub fn order_does_not_matter<P>()
    ensures { (same : P → P → Bool) → TellsApart same → (a : Knowledge P) → IsKnow a
        → (k l : List (Tidings P))
        → AreAccepted same a k → AreAccepted same a l
        → ((x : Tidings P) → Contains k x ↔ Contains l x)
        → accept_all same a k ≡ accept_all same a l }
{
    accept_laws::<P>();
}

/// The times of known messages rise, up to the clock, and there are at most 2^50 of them.
pub fn what_is_known(know: &Know)
    ensures known { IsKnow know.now }
    ensures most { length know.now.list ≤ MAX_MESSAGES }
{
    let _messages = know.len();
    let _clock = know.clock();
}
