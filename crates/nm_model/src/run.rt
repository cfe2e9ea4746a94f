//! Laws of runs: of the whole network with its one event list, and of a partition over what it
//! knows.

ghost use Rattle.std.specs.Prelude.{ℕ, ◌<◌, ◌≤◌, length};
ghost use Rattle.nm_base.specs.declared.key.Key.{Key};
ghost use Rattle.nm_base.specs.declared.event.Event.{Event};
ghost use Rattle.nm_model.specs.Network.{Net, IsNet};
ghost use Rattle.nm_model.specs.Run.{State, made};
ghost use Rattle.nm_model.specs.RunLaws.{KeysRise, MakesLaterOnes, TimesPass};

/// Each time is passed after some number of events, of the whole network and of a partition over
/// what it knows.
pub fn times_pass<P, N>()
    ensures { (net : Net P N) → IsNet net → TimesPass net }
{}

/// The keys taken strictly rise, the events of a place are taken in the order of their numbers 0,
/// 1, 2 and so on, and what is put on an interface has strictly rising times.
pub fn keys_rise<P, N>()
    ensures { (net : Net P N) → IsNet net → (n : ℕ) → KeysRise net n }
{}

/// An event makes at most three others, all strictly later: in the whole network and in a partition
/// over anything that it received.
pub fn events_make_later_ones<P, N>()
    ensures later { (net : Net P N) → IsNet net → MakesLaterOnes net }
    ensures few { (net : Net P N) (s : State P N) (e : Key × Event P) → length (made net s e) ≤ 3 }
{}
