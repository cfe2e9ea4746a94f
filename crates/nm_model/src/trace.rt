//! Laws of traces.

ghost use Rattle.std.specs.Prelude.{◌≡◌, ℕ, ◌<◌, ◌==◌, length};
ghost use Rattle.nm_base.specs.declared.record.Dir.TheVariants.{In};
ghost use Rattle.nm_model.specs.Lists.{keep_where};
ghost use Rattle.nm_model.specs.Network.{Net, IsNet};
ghost use Rattle.nm_model.specs.Run.{one_list};
ghost use Rattle.nm_model.specs.Knowledge.{Knowledge, Know};
ghost use Rattle.nm_model.specs.Replica.{from_scratch};
ghost use Rattle.nm_model.specs.Trace.{passed};
ghost use Rattle.nm_model.specs.Partition.{receiver_of};
ghost use Rattle.nm_model.specs.Before.{trace};
ghost use Rattle.nm_model.specs.TraceLaws.{RecordsInOrder, StartsArrive};

/// The count of arrivals in a state is that of its records, so it says nothing of its own.
pub fn arrivals_are_recorded<P, N>()
    ensures whole { (net : Net P N) (n c : ℕ)
        → (one_list net n).arrived c ≡ length (passed In c (one_list net n).records) }
    ensures part { (net : Net P N) (p : ℕ) (K : Knowledge P) (k c : ℕ)
        → (from_scratch net p K k).arrived c
        ≡ length (passed In c (from_scratch net p K k).records) }
{}

/// The n-th packet whose transmission starts at an interface is the n-th that arrives at the far
/// end, after its transmission and the link's delay, once that time is passed; and no other
/// arrives. Transmissions of an interface do not overlap.
pub fn what_starts_arrives<P, N>()
    ensures { (net : Net P N) → IsNet net → StartsArrive net }
{}

/// Records are in the order of time: in the whole network and in a partition over anything that it
/// received.
pub fn records_in_order<P, N>()
    ensures { (net : Net P N) → IsNet net → RecordsInOrder net }
{}

/// The records of an interface in the trace of its partition are those in the trace of the whole
/// network.
pub fn interfaces_have_their_records<P, N>()
    ensures { (net : Net P N) (p i last : ℕ) → p ≡ receiver_of net i
        → keep_where (λ r. r.iface == i) (trace net p last)
        ≡ keep_where (λ r. r.iface == i) (one_list net last).records }
{}
