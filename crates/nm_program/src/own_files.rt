//! The files of a replica that is done: its partition's trace files, and that of what it knows.

ghost use Rattle.std.specs.Prelude.{◌≡◌, ◌⊎◌, ◌≤◌, All, IfErr, IfOk, map};
ghost use Rattle.nm_base.specs.declared.limits.TheConstants.{MAX_TIME};
ghost use Rattle.nm_book.specs.Book.{state_of};
ghost use Rattle.nm_command.specs.declared.status.Status.TheVariants.{File, Memory};
ghost use Rattle.nm_files.specs.Outputs.{AreWhole, HasMade};
ghost use Rattle.nm_program.specs.Node.{AreOwnOpened, asked_known, node_files, own_files};

use nm_base::Record;
use nm_book::Book;
use nm_book::laws::records_have_times_of_a_file;
use nm_command::Status;
use nm_files::{ClosedFiles, Folder, OutputFault, Outputs, TraceFiles, place_all, place_each};
use nm_known::{OfPartition, keep_known};
use std::alloc::Global;

/// The trace of a book of which nothing was handed out. A trace file can hold its times.
fn trace_of(book: &Book) -> &[Record]
    requires { book.now.handed ≡ 0 }
    ensures value { result.now ≡ (state_of book.now).records }
    ensures times { All (λ r. r.time ≤ MAX_TIME) result.now }
{
    records_have_times_of_a_file(book); // law: their times are before `stop`
    book.trace()
}

/// Writes these records to the trace files of a partition's interfaces, and closes them.
fn close_traces<F: Outputs>(
    alloc: Global,
    folder: &Folder<'_, OfPartition>,
    files: TraceFiles<F::File>,
    records: &[Record],
    outputs: &mut F,
) -> Result<ClosedFiles<F::Closed>, Status>
    requires opened { AreOwnOpened F.File.seen (F.made outputs.old) folder.now.topology.now
        folder.now.choice.partition files.files.items }
    requires times { All (λ r. r.time ≤ MAX_TIME) records.now }
    ensures closed { IfOk result (λ traces. AreWhole (F.made outputs.old)
        (map (λ c. F.closed c.file) traces.files.items)
        (own_files folder.now.topology.now folder.now.choice.partition folder.now.name.now
        records.now)) }
    ensures same { F.made outputs.new ≡ F.made outputs.old }
    ensures fault { IfErr result (λ s. (s ≡ File) ⊎ (s ≡ Memory)) }
{
    let mut files = files;
    files.put_all(records)?;
    Ok(folder.close(alloc, outputs, files)?)
}

/// Makes the file of what a replica knows, if it is asked for, and closes it.
fn close_known<F: Outputs>(
    alloc: Global,
    folder: &str,
    book: &Book,
    keeps: bool,
    outputs: &mut F,
) -> Result<Vec<F::Closed>, OutputFault>
    ensures closed { IfOk result (λ known. AreWhole (F.made outputs.old)
        (map F.closed known.items) (asked_known keeps folder.now book.now)) }
    ensures same { F.made outputs.new ≡ F.made outputs.old }
{
    let mut known = Vec::new(alloc);
    if !keeps {
        return Ok(known);
    }
    keep_known(alloc, folder, book, outputs, &mut known)?;
    Ok(known)
}

/// Writes the files of a replica that is done, in a folder: the trace files of its partition's
/// interfaces, which are open, and, if it is asked for, that of what it knows. They get their names
/// once all are closed.
///
/// # Errors
///
/// `File` if one could not be made, written whole or given its name; `Memory` if memory was
/// refused. Before all are closed none has its name.
pub(crate) fn make_files<F: Outputs>(
    alloc: Global,
    folder: &Folder<'_, OfPartition>,
    files: TraceFiles<F::File>,
    book: &Book,
    keeps: bool,
    outputs: &mut F,
) -> Result<(), Status>
    requires opened { AreOwnOpened F.File.seen (F.made outputs.old) folder.now.topology.now
        folder.now.choice.partition files.files.items }
    requires whole { book.now.handed ≡ 0 }
    ensures made { IfOk result (λ _. HasMade (F.made outputs.old) (F.made outputs.new)
        (node_files folder.now.topology.now folder.now.choice.partition folder.now.name.now keeps
        book.now)) }
    ensures fault { IfErr result (λ s. (s ≡ File) ⊎ (s ≡ Memory)) }
{
    let traces = close_traces(alloc, folder, files, trace_of(book), outputs)?;
    let known = close_known(alloc, folder.name, book, keeps, outputs)?;
    place_all(outputs, traces)?;
    Ok(place_each(outputs, known)?)
}
