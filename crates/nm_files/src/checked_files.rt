//! The trace files of interfaces that are there, read side by side as records are made.

ghost use Rattle.std.specs.Prelude.{◌≡◌, ℕ, ◌≤◌, ◌++◌, ◌∷◌, All, IfErr, IfSome, List, [], OnOk};
ghost use Rattle.std.specs.Prelude.{OnErr, Option, Some, false, is_some, length, slice_get, take};
ghost use Rattle.std.specs.Prelude.{true};
ghost use Rattle.nm_base.specs.declared.limits.TheConstants.{MAX_TIME};
ghost use Rattle.nm_base.specs.declared.record.Record.{Record as TraceRecord};
ghost use Rattle.nm_files.specs.Checked.{DiffersInOne, HaveRead, IsLonger, IsUnlike};
ghost use Rattle.nm_files.specs.Checked.{is_looked_at, looked_at};
ghost use Rattle.nm_files.specs.TraceFile.{octets_after};
ghost use Rattle.nm_pcap.specs.Format.{file_header, record_octets};

use crate::checked_file::{CheckFault, CheckedFile};
use nm_base::{IfaceNo, Record};
use std::alloc::{AllocError, Global};
use std::io::BufRead;

/// Trace files that are there, by the numbers of their interfaces. An interface may have none that
/// is looked at.
#[derive(Drop)]
pub struct CheckedFiles<B> {
    files: Vec<Option<CheckedFile<B>>>,
}

impl<B: Drop> CheckedFiles<B> {
    /// No files.
    pub fn new(alloc: Global) -> Self
        ensures { result.files.items ≡ [] }
    {
        CheckedFiles {
            files: Vec::new(alloc),
        }
    }

    /// The file of the next interface is not looked at.
    ///
    /// # Errors
    ///
    /// If memory was refused: no file more is there then.
    pub fn skip(&mut self) -> Result<(), AllocError>
        ensures looked { OnOk result (looked_at self.new.files.items
            ≡ looked_at self.old.files.items ++ false ∷ []) }
        ensures read { (texts : ℕ → Option (List ℕ)) (left : B → Option (List ℕ))
            → HaveRead texts left [] self.old.files.items
            → OnOk result (HaveRead texts left [] self.new.files.items) }
        ensures kept { OnErr result (self.new.files.items ≡ self.old.files.items) }
    {
        self.files.push(None)?;
        Ok(())
    }

    /// Closes the files of an interface and of all behind it.
    pub(crate) fn close_from(&mut self, iface: IfaceNo)
        ensures { self.new.files.items ≡ take iface self.old.files.items }
    {
        self.files.truncate(iface.index());
    }

    /// The file of an interface, if it is looked at.
    pub fn get(&self, iface: IfaceNo) -> Option<&CheckedFile<B>>
        ensures file { IfSome result
            (λ file. slice_get self.now.files.items iface ≡ Some (Some file.now)) }
        ensures looked { is_some result ≡ is_looked_at self.now.files.items iface }
    {
        match self.files.get(iface.index()) {
            Some(Some(file)) => Some(file),
            _ => None,
        }
    }
}

impl<B: BufRead + Drop> CheckedFiles<B> {
    /// The next interface, which has this number, has this file, with its header read.
    ///
    /// # Errors
    ///
    /// `Differs` if it has no such header, `Failed` if a read failed, `Memory` if memory was
    /// refused. No file more is there then.
    pub fn open(&mut self, iface: IfaceNo, reader: B) -> Result<(), CheckFault>
        requires { iface ≡ length self.old.files.items }
        ensures looked { OnOk result (looked_at self.new.files.items
            ≡ looked_at self.old.files.items ++ true ∷ []) }
        ensures read { (texts : ℕ → Option (List ℕ))
            → IfSome (texts iface) (λ text. B.remaining reader ≡ Some text)
            → HaveRead texts B.remaining [] self.old.files.items
            → OnOk result (HaveRead texts B.remaining [] self.new.files.items) }
        ensures unlike { (texts : ℕ → Option (List ℕ))
            → IfSome (texts iface) (λ text. B.remaining reader ≡ Some text)
            → IfErr result (IsUnlike texts iface [] file_header) }
        ensures kept { OnErr result (self.new.files.items ≡ self.old.files.items) }
    {
        let file = CheckedFile::open(iface, reader)?;
        self.files.push(Some(file))?;
        Ok(())
    }

    /// Reads on over a record in the file of its interface, if that is looked at.
    ///
    /// # Errors
    ///
    /// `Differs` if it does not come next there, `Failed` if a read failed, `Memory` if memory was
    /// refused. Files of lesser interfaces are read on over it then, too.
    pub(crate) fn put(&mut self, record: &Record) -> Result<(), CheckFault>
        requires { «record».now.time ≤ MAX_TIME }
        ensures looked { looked_at self.new.files.items ≡ looked_at self.old.files.items }
        ensures read { (texts : ℕ → Option (List ℕ)) (before : List (TraceRecord (List ℕ)))
            → HaveRead texts B.remaining before self.old.files.items
            → OnOk result (HaveRead texts B.remaining (before ++ «record».now ∷ [])
            self.new.files.items) }
        ensures unlike { (texts : ℕ → Option (List ℕ)) (before : List (TraceRecord (List ℕ)))
            → HaveRead texts B.remaining before self.old.files.items
            → IfErr result (IsUnlike texts «record».now.iface
            (octets_after «record».now.iface before) (record_octets «record».now)) }
        ensures own { IfErr result
            (λ _. is_looked_at self.old.files.items «record».now.iface ≡ true) }
        ensures lesser { (texts : ℕ → Option (List ℕ)) (before : List (TraceRecord (List ℕ)))
            → HaveRead texts B.remaining before self.old.files.items
            → OnErr result (HaveRead texts B.remaining (before ++ «record».now ∷ [])
            (take «record».now.iface self.new.files.items)) }
    {
        let number = record.iface.index();
        if number >= self.files.len() {
            return Ok(());
        }
        let Some(file) = &mut self.files[number] else {
            return Ok(());
        };
        file.put(record)
    }

    /// Reads on over records in the files of their interfaces, in order.
    ///
    /// # Errors
    ///
    /// `Differs` if one does not come next in its file, which is the first such; `Failed` if a read
    /// failed; `Memory` if memory was refused.
    pub fn put_all(&mut self, records: &[Record]) -> Result<(), CheckFault>
        requires { All (λ r. r.time ≤ MAX_TIME) records.now }
        ensures looked { looked_at self.new.files.items ≡ looked_at self.old.files.items }
        ensures read { (texts : ℕ → Option (List ℕ)) (before : List (TraceRecord (List ℕ)))
            → HaveRead texts B.remaining before self.old.files.items
            → OnOk result (HaveRead texts B.remaining (before ++ records.now)
            self.new.files.items) }
        ensures unlike { (texts : ℕ → Option (List ℕ)) (before : List (TraceRecord (List ℕ)))
            → HaveRead texts B.remaining before self.old.files.items
            → IfErr result (DiffersInOne texts B.remaining before records.now
            self.old.files.items) }
    {
        for number in 0..records.len() {
            self.put(&records[number])?;
        }
        Ok(())
    }

    /// Sees that nothing comes behind what was read of the file of an interface, if that is looked
    /// at.
    ///
    /// # Errors
    ///
    /// `Differs` if something does, `Failed` if the read failed, `Memory` if memory was refused.
    pub fn finish(&mut self, iface: IfaceNo) -> Result<(), CheckFault>
        ensures looked { looked_at self.new.files.items ≡ looked_at self.old.files.items }
        ensures read { (texts : ℕ → Option (List ℕ)) (records : List (TraceRecord (List ℕ)))
            → HaveRead texts B.remaining records self.old.files.items
            → HaveRead texts B.remaining records self.new.files.items }
        ensures whole { (texts : ℕ → Option (List ℕ)) (records : List (TraceRecord (List ℕ)))
            → HaveRead texts B.remaining records self.old.files.items
            → OnOk result (is_looked_at self.old.files.items iface ≡ true
            → IfSome (texts iface) (λ text. text ≡ octets_after iface records)) }
        ensures longer { (texts : ℕ → Option (List ℕ)) (records : List (TraceRecord (List ℕ)))
            → HaveRead texts B.remaining records self.old.files.items
            → IfErr result (IsLonger texts iface (octets_after iface records)) }
        ensures own { IfErr result (λ _. is_looked_at self.old.files.items iface ≡ true) }
    {
        let number = iface.index();
        if number >= self.files.len() {
            return Ok(());
        }
        let Some(file) = &mut self.files[number] else {
            return Ok(());
        };
        file.finish()
    }
}
