//! Laws of every state of a run, of the whole network or of a part, whatever the part receives: a
//! program that does the steps relies on them.

ghost use Rattle.std.specs.Prelude.{◌≡◌, ℕ, Bool, true, false};
ghost use Rattle.std.specs.FinMap.{insert};
ghost use Rattle.nm_base.specs.declared.key.Place.{Place};
ghost use Rattle.nm_base.specs.declared.key.Place.TheVariants.{Arrive};
ghost use Rattle.nm_base.specs.declared.event.Event.TheVariants.{Delivery};
ghost use Rattle.nm_base.specs.declared.event.Origin.TheVariants.{Arrival};
ghost use Rattle.nm_base.specs.Key.{key_of};
ghost use Rattle.nm_model.specs.Network.{Net, IsNet};
ghost use Rattle.nm_model.specs.Run.{State};
ghost use Rattle.nm_model.specs.Partition.{in_part};
ghost use Rattle.nm_model.specs.Orderly.{IsByNode, IsOrderly};
ghost use Rattle.nm_model.specs.OrderlyLaws.{NewKeysAreNew, OnlyToldArrives, StatesAreOrderly};

/// Every state is orderly: at the start and after each event; so of the whole network, and of a
/// replica over anything that it received, true or not.
pub fn every_state_is_orderly<P, N>()
    ensures { (net : Net P N) → IsNet net → StatesAreOrderly net }
{}

/// A message that is put by a channel keeps a state orderly.
pub fn a_message_keeps_order<P, N>()
    ensures { (net : Net P N) (here : Place → Bool) (s : State P N) → IsOrderly net here s
        → (c t n : ℕ) (x : P) → here (Arrive c) ≡ true → here (Arrive (net.far_end c)) ≡ false
        → IsOrderly net here
        (record s { pending = insert s.pending (key_of t (Arrive c) n) (Delivery (Arrival c) x) }) }
{}

/// The nodes decide what is in a partition.
pub fn partitions_are_by_node<P, N>()
    ensures { (net : Net P N) (p : ℕ) → IsByNode net (in_part net p) }
{}

/// In an orderly state the events that the next event makes have new keys, all different.
pub fn new_keys_are_new<P, N>()
    ensures { (net : Net P N) → IsNet net → NewKeysAreNew net }
{}

/// Only messages bring arrivals on channels: at the start none is pending at all, and what a
/// partition did not receive is not pending after a step either.
pub fn only_messages_bring_arrivals<P, N>()
    ensures { (net : Net P N) → OnlyToldArrives net }
{}
