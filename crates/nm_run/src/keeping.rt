//! The files of what the replicas of a run know.

ghost use Rattle.std.specs.Prelude.{◌≡◌, ◌++◌, IfErr, IfOk, OnOk, map};
ghost use Rattle.nm_files.specs.Outputs.{AreWhole, Files, HasMade, HasMadeSome};
ghost use Rattle.nm_run.specs.Faults.{IsOfFiles, run_fault};
ghost use Rattle.nm_run.specs.Files.{kept_file, kept_files};
ghost use Rattle.nm_run.specs.Leaving.{leaving};

use crate::run::RunPlan;
use crate::stop::Stop;
use nm_book::Book;
use nm_files::{Outputs, place_each};
use nm_known::keep_known;
use std::alloc::Global;

/// Makes and closes the file of what a replica knows, if it is the first of its partition.
fn keep_one<F: Outputs>(
    alloc: Global,
    folder: &str,
    book: &Book,
    outputs: &mut F,
    known: &mut Vec<F::Closed>,
) -> Result<(), Stop>
    ensures kept { (files : Files)
        → AreWhole (F.made outputs.old) (map F.closed known.old.items) files
        → OnOk result (AreWhole (F.made outputs.old) (map F.closed known.new.items)
        (files ++ kept_file folder.now book.now)) }
    ensures same { F.made outputs.new ≡ F.made outputs.old }
{
    if book.replica() > 0 {
        return Ok(());
    }
    Ok(keep_known(alloc, folder, book, outputs, known)?)
}

/// Makes and closes the files of what the first replica of each partition knows, if the plan asks
/// for them.
///
/// # Errors
///
/// `Known` if one was not made or closed. `Memory` if memory was refused.
pub(crate) fn keep_books<F: Outputs>(
    alloc: Global,
    plan: &RunPlan<'_>,
    books: &[Book],
    outputs: &mut F,
) -> Result<Vec<F::Closed>, Stop>
    ensures kept { IfOk result (λ known. AreWhole (F.made outputs.old) (map F.closed known.items)
        (kept_files (leaving plan.now) books.now)) }
    ensures same { F.made outputs.new ≡ F.made outputs.old }
{
    let mut known = Vec::new(alloc);
    if !plan.keeps {
        return Ok(known);
    }
    for number in 0..books.len() {
        keep_one(alloc, plan.folder, &books[number], outputs, &mut known)?;
    }
    Ok(known)
}

/// Gives closed files their names, and replaces files that had them.
pub(crate) fn place_known<F: Outputs>(outputs: &mut F, known: Vec<F::Closed>) -> Result<(), Stop>
    ensures placed { (files : Files)
        → AreWhole (F.made outputs.old) (map F.closed known.items) files
        → OnOk result (HasMade (F.made outputs.old) (F.made outputs.new) files) }
    ensures some { (files : Files)
        → AreWhole (F.made outputs.old) (map F.closed known.items) files
        → HasMadeSome (F.made outputs.old) (F.made outputs.new) files }
    ensures fault { IfErr result (λ stop. IsOfFiles (run_fault stop)) }
{
    Ok(place_each(outputs, known)?)
}
