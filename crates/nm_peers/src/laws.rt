//! Laws of the definitions: each function has an empty body, and its contract is the law.

ghost use Rattle.std.specs.Prelude.{◌≡◌, ℕ, ◌<◌, ◌^◌, List};
ghost use Rattle.nm_peers.specs.Listeners.{AreListeners};
ghost use Rattle.nm_peers.specs.declared.listener.Listener.{Listener as ListenerValue};

/// A text has at most one list of listeners, in one order, whichever replica reads it.
pub fn a_text_says_one_list()
    ensures { (text : List ℕ) (partitions p q r s : ℕ) (one other : List ListenerValue)
        → partitions < 2 ^ 32 → AreListeners text partitions p r one
        → AreListeners text partitions q s other → one ≡ other }
{}
