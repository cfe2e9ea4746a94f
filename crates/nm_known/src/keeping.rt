//! Files of what replicas know, in a folder: their names, and how they are made.

ghost use Rattle.std.specs.Prelude.{◌≡◌, ◌∷◌, [], ◌++◌, IfOk, OnOk, map, string_bytes};
ghost use Rattle.nm_files.specs.Outputs.{AreWhole, Files, IsWhole};
ghost use Rattle.nm_known.specs.Keeping.{known_file, known_name};

use crate::known_fault::KnownWriteFault;
use crate::writing::write_known;
use itoa::Buffer;
use nm_base::PartNo;
use nm_book::Book;
use nm_files::{OutputFault, Outputs};
use std::alloc::{AllocError, Global};

/// The name of the file of what a replica of a partition knows, in a folder.
///
/// # Errors
///
/// If memory was refused.
pub fn known_name(
    alloc: Global,
    folder: &str,
    partition: PartNo,
    replica: u8,
) -> Result<String, AllocError>
    ensures { IfOk result
        (λ name. string_bytes name ≡ known_name folder.now partition replica) }
{
    let mut name = String::new(alloc);
    name.push_str(folder)?;
    name.push_str("/")?;
    name.push_str(Buffer::new().format(partition.number()))?;
    name.push_str("-")?;
    name.push_str(Buffer::new().format(replica))?;
    name.push_str(".known")?;
    Ok(name)
}

/// Makes the file of what a replica knows in a folder, and closes it. It does not have its name
/// yet.
fn close_known<F: Outputs>(
    alloc: Global,
    folder: &str,
    book: &Book,
    outputs: &mut F,
) -> Result<F::Closed, OutputFault>
    ensures whole { IfOk result (λ file.
        IsWhole (F.made outputs.old) (F.closed file) (known_file folder.now book.now)) }
    ensures same { F.made outputs.new ≡ F.made outputs.old }
{
    let name = known_name(alloc, folder, book.partition(), book.replica())?;
    let mut file = outputs.create(name.as_str())?;
    match write_known(alloc, book, &mut file) {
        Ok(()) => outputs.close(name.as_str(), file),
        Err(KnownWriteFault::Refused(_)) => Err(OutputFault::Failed),
        Err(KnownWriteFault::Memory) => Err(OutputFault::Memory),
    }
}

/// Makes the file of what a replica knows in a folder, and closes it, behind others that do not
/// have their names yet.
///
/// # Errors
///
/// `Failed` if it could not be made, written whole or closed, `Memory` if memory was refused. It
/// never gets its name then.
pub fn keep_known<F: Outputs>(
    alloc: Global,
    folder: &str,
    book: &Book,
    outputs: &mut F,
    kept: &mut Vec<F::Closed>,
) -> Result<(), OutputFault>
    ensures kept { (files : Files)
        → AreWhole (F.made outputs.old) (map F.closed kept.old.items) files
        → OnOk result (AreWhole (F.made outputs.old) (map F.closed kept.new.items)
        (files ++ known_file folder.now book.now ∷ [])) }
    ensures same { F.made outputs.new ≡ F.made outputs.old }
{
    let file = close_known(alloc, folder, book, outputs)?;
    kept.push(file)?;
    Ok(())
}
