//! Laws of the definitions: each function has an empty body, and its contract is the law. The first
//! two hold after every list of events that may come, however often connections break and whoever
//! calls; the others hold of every state.

ghost use Rattle.std.specs.Prelude.{◌≡◌, ◌≢◌, ℕ, ◌<◌, ◌^◌, Bool, List, None, Some, false, is_some};
ghost use Rattle.std.specs.Prelude.{nat_le, slice_index_or, true};
ghost use Rattle.nm_frames.specs.declared.replica_name.ReplicaName.{ReplicaName};
ghost use Rattle.nm_policy.specs.Contact.{heard, is_overdue, is_silent, is_stranger};
ghost use Rattle.nm_policy.specs.Contacts.{ContactsValue, after, contact_at, is_slot};
ghost use Rattle.nm_policy.specs.Decisions.{IsToDrop, is_due_at};
ghost use Rattle.nm_policy.specs.Laws.{LeadsTo, MayAllCome, after_all, at_first, polled_for};
ghost use Rattle.nm_policy.specs.Peers.{new_peer};
ghost use Rattle.nm_policy.specs.declared.contact.Contact.{Contact};
ghost use Rattle.nm_policy.specs.declared.contact_event.ContactEvent.{ContactEvent};
ghost use Rattle.nm_policy.specs.declared.contact_event.ContactEvent.TheVariants.{Broke, Ended};
ghost use Rattle.nm_policy.specs.declared.limits.TheConstants as limits;

/// The periods, 20 of which are a second, and the limits are these.
pub fn limits_are_these()
    ensures { (limits.REST_PERIODS ≡ 1) × (limits.RECALL_PERIODS ≡ 20)
        × (limits.HELLO_PERIODS ≡ 100) × (limits.SILENCE_PERIODS ≡ 100)
        × (limits.GREETING_PERIODS ≡ 20) × (limits.MAX_STRANGERS ≡ 64)
        × (limits.LINGER_PERIODS ≡ 40) × (limits.QUIET_POLLS ≡ 4) }
{}

/// No peer is called while it is connected.
pub fn nobody_is_called_twice()
    ensures { (peers : ℕ) (callers : List ReplicaName) (events : List ContactEvent)
        → MayAllCome (at_first peers callers) events → (key peer : ℕ)
        → LeadsTo (after_all (at_first peers callers) events) key peer
        → is_due_at (after_all (at_first peers callers) events).peers peer ≡ false }
{}

/// No two connections lead to one peer.
pub fn a_peer_has_one_connection()
    ensures { (peers : ℕ) (callers : List ReplicaName) (events : List ContactEvent)
        → MayAllCome (at_first peers callers) events → (one other peer : ℕ)
        → LeadsTo (after_all (at_first peers callers) events) one peer
        → LeadsTo (after_all (at_first peers callers) events) other peer → one ≡ other }
{}

/// A connection without a Hello is closed once it has lasted for its periods, and not before. One
/// with a Hello is never closed for that reason.
pub fn a_hello_has_its_time()
    ensures waits { (c : Contact) (n : ℕ) → c.name ≡ None → c.lasted.periods ≡ 0 → n < 2 ^ 64
        → is_overdue (polled_for n c) ≡ nat_le limits.HELLO_PERIODS n }
    ensures greeted { (c : Contact) → is_some c.name ≡ true → is_overdue c ≡ false }
{}

/// A connection with a peer for which the replica waits is begun again once nothing was received on
/// it for so many periods, and not before.
pub fn silence_has_its_time()
    ensures { (c : Contact) (n : ℕ) → is_some c.name ≡ true → c.waits ≡ true
        → n < 2 ^ 64 → is_silent (polled_for n (heard c)) ≡ nat_le limits.SILENCE_PERIODS n }
{}

/// The end or the break of a link changes the peer to which its connection led, and no other.
pub fn an_end_is_told_to_its_peer()
    ensures { (s : ContactsValue) (key peer other : ℕ) (was_there : Bool) → LeadsTo s key peer
        → other ≢ peer
        → (slice_index_or (after s (Ended key)).peers other new_peer
        ≡ slice_index_or s.peers other new_peer)
        × (slice_index_or (after s (Broke key was_there)).peers other new_peer
        ≡ slice_index_or s.peers other new_peer) }
{}

/// No connection with a Hello is ever closed for a stranger.
pub fn a_stranger_makes_room_for_strangers()
    ensures { (s : ContactsValue) (key : ℕ) → IsToDrop s (Some key)
        → is_slot is_stranger (contact_at s.connections key) ≡ true }
{}
