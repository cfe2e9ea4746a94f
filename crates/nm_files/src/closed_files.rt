//! Trace files that are closed, and get their names.

ghost use Rattle.std.specs.Option.{option_to_list};
ghost use Rattle.std.specs.Prelude.{◌≡◌, ◌++◌, IfErr, OnOk, [], map};
ghost use Rattle.nm_files.specs.Folder.{IsOneOf};
ghost use Rattle.nm_files.specs.Outputs.{AreWhole, Files, HasMade, HasMadeSome};

use crate::outputs::{OutputFault, Outputs};
use crate::trace_files::{FileFault, FilesFault, files_fault};
use nm_base::IfaceNo;
use std::alloc::{AllocError, Global};

/// The trace file of an interface that is closed and does not have its name yet, with how many
/// octets were written to it, which stops at 2^64 - 1.
#[derive(Drop)]
pub(crate) struct ClosedFile<C> {
    pub iface: IfaceNo,
    pub written: u64,
    pub file: C,
}

/// Trace files that are closed and do not have their names yet.
#[derive(Drop)]
pub struct ClosedFiles<C> {
    files: Vec<ClosedFile<C>>,
}

impl<C: Drop> ClosedFiles<C> {
    /// None so far.
    pub(crate) fn new(alloc: Global) -> Self
        ensures { result.files.items ≡ [] }
    {
        ClosedFiles {
            files: Vec::new(alloc),
        }
    }

    /// Adds the one that there is.
    pub(crate) fn push(&mut self, file: Option<ClosedFile<C>>) -> Result<(), AllocError>
        ensures { OnOk result
            (self.new.files.items ≡ self.old.files.items ++ option_to_list file) }
    {
        if let Some(file) = file {
            self.files.push(file)?;
        }
        Ok(())
    }
}

/// Gives closed files their names, in order, in place of what had them.
///
/// # Errors
///
/// That of the one that could not get its name. Those before it have theirs, and of the names of
/// the others what had them stays.
pub fn place_each<F: Outputs>(outputs: &mut F, closed: Vec<F::Closed>) -> Result<(), OutputFault>
    ensures placed { OnOk result ((files : Files)
        → AreWhole (F.made outputs.old) (map F.closed closed.items) files
        → HasMade (F.made outputs.old) (F.made outputs.new) files) }
    ensures some { (files : Files)
        → AreWhole (F.made outputs.old) (map F.closed closed.items) files
        → HasMadeSome (F.made outputs.old) (F.made outputs.new) files }
{
    for file in closed {
        outputs.place(file)?;
    }
    Ok(())
}

/// Gives closed trace files their names, in order, in place of what had them.
///
/// # Errors
///
/// `Refused` with the one that could not get its name, and how many octets it has; `Memory` if
/// memory was refused. Those before it have their names, and what had the names of the others
/// stays.
pub fn place_all<F: Outputs>(
    outputs: &mut F,
    closed: ClosedFiles<F::Closed>,
) -> Result<(), FilesFault>
    ensures placed { OnOk result ((files : Files)
        → AreWhole (F.made outputs.old) (map (λ c. F.closed c.file) closed.files.items) files
        → HasMade (F.made outputs.old) (F.made outputs.new) files) }
    ensures some { (files : Files)
        → AreWhole (F.made outputs.old) (map (λ c. F.closed c.file) closed.files.items) files
        → HasMadeSome (F.made outputs.old) (F.made outputs.new) files }
    ensures told { IfErr result
        (IsOneOf (map (λ c. (c.iface, c.written)) closed.files.items)) }
{
    for one in closed.files {
        if let Err(fault) = outputs.place(one.file) {
            let (iface, written) = (one.iface, one.written);
            return Err(files_fault(fault, FileFault { iface, written }));
        }
    }
    Ok(())
}
