//! Laws of the certificate.

ghost use Rattle.std.specs.Prelude.{◌≡◌, ℕ, ◌≤◌, true, Bool, List, [], Some, None};
ghost use Rattle.nm_model.specs.Network.{Net, IsNet, IsParted};
ghost use Rattle.nm_model.specs.Accept.{IsReflexive, TellsApart};
ghost use Rattle.nm_model.specs.Promise.{Promising};
ghost use Rattle.nm_model.specs.Before.{IsBefore, trace};
ghost use Rattle.nm_model.specs.World.{Replica, fresh};
ghost use Rattle.nm_model.specs.Certificate.{AreFinished, Book, CertificateFault, FaultShows};
ghost use Rattle.nm_model.specs.Certificate.{IsCertified};
ghost use Rattle.nm_model.specs.Certificate.{is_done, certify};
ghost use Rattle.nm_model.specs.WorldLaws.{HasWholeTrace};
ghost use Rattle.nm_model.specs.CertificateLaws.{AreWithin, CertifiesExactly, ClocksArePromised};
ghost use Rattle.nm_model.specs.CertificateLaws.{HaveWholeTraces};

/// Finished books whose lists and clocks agree have the whole network's traces, wherever they know
/// it from. Nothing is asked of who sent what: the argument goes by time, since a message up to a
/// time comes from events before it.
pub fn certificate<P, N>()
    ensures whole { (net : Net P N) → IsNet net → (books : ℕ → Replica P) → AreFinished net books
        → (p : ℕ) → HasWholeTrace net p (books p) }
    ensures listed { (net : Net P N) → IsNet net → IsParted net → (kind : Promising)
        (books : List (Book P)) → AreWithin net books → IsCertified net kind books
        → HaveWholeTraces net books }
{}

/// The certificate finds no fault exactly if each partition has a book, each book is done and all
/// match.
pub fn certify_is_exact<P, N>()
    ensures { (net : Net P N) (same : P → P → Bool) → IsReflexive same → TellsApart same
        → (kind : Promising) (books : List (Book P)) → CertifiesExactly net books same kind }
{}

/// Then no receiver's clock is past its sender's promise, unless its last message raised it.
pub fn certified_clocks_are_promised<P, N>()
    ensures { (net : Net P N) → IsNet net → (same : P → P → Bool) → IsReflexive same
        → TellsApart same → (kind : Promising) (books : List (Book P))
        → certify net same kind books ≡ None → ClocksArePromised net books kind }
{}

/// A fault of the certificate is as it says: the least partition that has no book; else the first
/// book that is not done; else, by receiving book, channel and sending book, the first two that do
/// not match, and where.
pub fn certify_faults_are_right<P, N>()
    ensures { (net : Net P N) → IsNet net → (same : P → P → Bool) → IsReflexive same
        → TellsApart same → (kind : Promising) (books : List (Book P)) (f : CertificateFault)
        → certify net same kind books ≡ Some f → FaultShows net kind books f }
{}

/// A partition that isn't there has an empty book, which is done from the start.
pub fn no_partition_no_events<P, N>()
    ensures done { (net : Net P N) → IsNet net → IsParted net → (p : ℕ) → net.parts ≤ p
        → is_done net p fresh ≡ true }
    ensures empty { (net : Net P N) → IsNet net → IsParted net → (p last : ℕ) → net.parts ≤ p
        → IsBefore net net.stop last → trace net p last ≡ [] }
{}
