//! The books of all partitions, with what came of their trace files.

ghost use Rattle.std.specs.Prelude.{◌≡◌, ◌⊎◌, ◌≤◌, IfOk, IfSome, Some, map};
ghost use Rattle.nm_certify.specs.Checking.{IsLeastOf};
ghost use Rattle.nm_rounds.specs.Certify.{Certifies};

use crate::part::PartEnd;
use crate::running::Compared;
use nm_book::Book;
use nm_files::Difference;
use nm_rounds::CertFault;
use nm_rounds::certify::certify;
use nm_topology::Topology;
use std::alloc::{AllocError, Global};

/// What the certificate of the books is.
///
/// # Errors
///
/// If memory was refused.
pub(crate) fn certificate_of(
    alloc: Global,
    topology: &Topology,
    ends: &[PartEnd],
) -> Result<Result<(), CertFault>, AllocError>
    ensures { IfOk result (Certifies topology.now (map (λ end. end.book) ends.now)) }
{
    let mut books = Vec::new(alloc);
    for number in 0..ends.len() {
        books.push(&ends[number].book)?;
    }
    Ok(certify(topology, books.as_slice()))
}

/// The difference of the lesser interface of two; the first may not be there.
fn lesser(least: Option<Difference>, found: Difference) -> Difference
    ensures one { (result ≡ found) ⊎ (least ≡ Some result) }
    ensures least { (result.iface ≤ found.iface) × IfSome least (λ d. result.iface ≤ d.iface) }
{
    match least {
        Some(other) if other.iface.index() < found.iface.index() => other,
        _ => found,
    }
}

/// The difference of the least interface, if a trace file differs.
///
/// # Errors
///
/// The first part with a trace file that could not be read.
pub(crate) fn least_difference(ends: &[PartEnd]) -> Compared
    ensures least { IfOk result (IsLeastOf ends.now) }
{
    let mut least = None;
    for number in 0..ends.len() {
        if let Some(found) = ends[number].traces? {
            least = Some(lesser(least, found));
        }
    }
    Ok(least)
}

/// The books alone.
pub(crate) fn into_books(alloc: Global, ends: Vec<PartEnd>) -> Result<Vec<Book>, AllocError>
    ensures { IfOk result (λ books. books.items ≡ map (λ end. end.book) ends.items) }
{
    let mut books = Vec::new(alloc);
    for end in ends {
        books.push(end.book)?;
    }
    Ok(books)
}
