//! What follows from the definitions alone.

ghost use Rattle.std.specs.Prelude.{◌≢◌, Some};
ghost use Rattle.nm_base.specs.declared.fault.Fault.{Fault as FaultValue};
ghost use Rattle.nm_base.specs.declared.fault.Fault.TheVariants.{Refused};
ghost use Rattle.nm_book.specs.Book.{BookValue};
ghost use Rattle.nm_known.specs.declared.known_fault.KnownCause.{KnownCause};
ghost use Rattle.nm_known.specs.declared.known_fault.KnownCause.TheVariants.{Form, Topology};
ghost use Rattle.nm_known.specs.Known.{ExplainsText, IsOfReplica, known_octets};

/// A file that was written of a book is not refused by a book of the same replica: if it is not
/// read to its end, a read failed, or memory was refused.
pub fn what_was_written_is_not_refused()
    ensures { (b written : BookValue) → IsOfReplica b written → (fault : FaultValue KnownCause)
        → ExplainsText b (Some (known_octets written)) fault
        → (fault ≢ Refused Form) × (fault ≢ Refused Topology) }
{}
