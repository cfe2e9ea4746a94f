//! Existing trace files of interfaces, read side by side for the least interface whose file
//! differs.

ghost use Rattle.std.specs.Prelude.{◌≡◌, ℕ, ◌≤◌, ◌++◌, ◌∷◌, [], All, List, OnOk, Option, Some};
ghost use Rattle.std.specs.Prelude.{take};
ghost use Rattle.nm_base.specs.declared.fault.Fault.TheVariants.{Refused};
ghost use Rattle.nm_base.specs.declared.limits.TheConstants.{MAX_TIME};
ghost use Rattle.nm_base.specs.declared.record.Record.{Record as TraceRecord};
ghost use Rattle.nm_files.specs.Checked.{HaveRead};
ghost use Rattle.nm_files.specs.Least.{AreReadBelow, IsFinished, found_difference};
ghost use Rattle.nm_files.specs.declared.checked_file.CheckCause.TheVariants.{Differs};

use crate::checked_file::{CheckCause, CheckFault, ReadFailed, ReadFault};
use crate::checked_files::CheckedFiles;
use nm_base::{IfaceNo, Record};
use std::io::BufRead;

/// The trace file of this interface differs at this octet, counted from 0, which stops at 2^64 - 1,
/// and at none before it.
#[derive(Clone, Copy)]
pub struct Difference {
    pub iface: IfaceNo,
    pub octet: u64,
}

/// The file that differs, or why that is not known.
pub fn found_difference(fault: &CheckFault) -> Result<Difference, ReadFault>
    ensures { result ≡ found_difference fault.now }
{
    match fault {
        CheckFault::Refused(CheckCause::Differs { iface, octet }) => Ok(Difference {
            iface: *iface,
            octet: *octet,
        }),
        CheckFault::Refused(CheckCause::Failed) => Err(ReadFault::Refused(ReadFailed)),
        CheckFault::Memory => Err(ReadFault::Memory),
    }
}

/// Trace files that are read on while they are as they are to be. Once one differs, it and those of
/// greater interfaces are closed: only a lesser one can be the least that differs.
#[derive(Drop)]
pub struct LeastChecked<B> {
    files: CheckedFiles<B>,
    /// The least that differs so far.
    differs: Option<Difference>,
}

impl<B: Drop> LeastChecked<B> {
    /// Files with headers read, up to the first whose header differs, if one does.
    pub fn new(files: CheckedFiles<B>, differs: Option<Difference>) -> Self
        ensures { result ≡ record { files = files; differs = differs } }
    {
        LeastChecked { files, differs }
    }

    /// The least interface whose file differs so far.
    pub fn difference(&self) -> Option<Difference>
        ensures { result ≡ self.now.differs }
    {
        self.differs
    }

    /// Keeps the difference of a file that was open so far: it is the least.
    fn keep(&mut self, fault: &CheckFault) -> Result<(), ReadFault>
        ensures { OnOk result ((own octet : ℕ) × (fault.now ≡ Refused (Differs own octet))
            × (self.new.files.files.items ≡ take own self.old.files.files.items)
            × (self.new.differs ≡ Some (record { iface = own; octet = octet }))) }
    {
        let found = found_difference(fault)?;
        self.files.close_from(found.iface);
        self.differs = Some(found);
        Ok(())
    }
}

impl<B: BufRead + Drop> LeastChecked<B> {
    /// Reads on over a record in the file of its interface, if that is open.
    fn put(&mut self, record: &Record) -> Result<(), ReadFault>
        requires { «record».now.time ≤ MAX_TIME }
        ensures { (texts : ℕ → Option (List ℕ)) (begun : _)
            (before : List (TraceRecord (List ℕ)))
            → AreReadBelow texts B.remaining begun before self.old
            → OnOk result (AreReadBelow texts B.remaining begun (before ++ «record».now ∷ [])
            self.new) }
    {
        match self.files.put(record) {
            Ok(()) => Ok(()),
            Err(fault) => self.keep(&fault),
        }
    }

    /// Reads on over records in the files of their interfaces that are open, in order.
    ///
    /// # Errors
    ///
    /// If a read failed, or memory was refused. That a file differs is no error.
    pub fn put_all(&mut self, records: &[Record]) -> Result<(), ReadFault>
        requires { All (λ r. r.time ≤ MAX_TIME) records.now }
        ensures { (texts : ℕ → Option (List ℕ)) (begun : _)
            (before : List (TraceRecord (List ℕ)))
            → AreReadBelow texts B.remaining begun before self.old
            → OnOk result
            (AreReadBelow texts B.remaining begun (before ++ records.now) self.new) }
    {
        for number in 0..records.len() {
            self.put(&records[number])?;
        }
        Ok(())
    }

    /// Sees whether something comes behind what was read of the file of an interface, if that is
    /// open.
    ///
    /// # Errors
    ///
    /// If the read failed, or memory was refused. That something comes is no error.
    pub fn finish(&mut self, iface: IfaceNo) -> Result<(), ReadFault>
        ensures { (texts : ℕ → Option (List ℕ)) (records : List (TraceRecord (List ℕ)))
            → HaveRead texts B.remaining records self.old.files.files.items
            → OnOk result (IsFinished texts B.remaining records iface self.old self.new) }
    {
        match self.files.finish(iface) {
            Ok(()) => Ok(()),
            Err(fault) => self.keep(&fault),
        }
    }
}
