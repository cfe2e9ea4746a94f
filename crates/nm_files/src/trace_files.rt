//! The trace files of a replica, written as its records are handed out.

ghost use Rattle.std.specs.Prelude.{◌≡◌, ◌⊎◌, ℕ, ◌<◌, ◌≤◌, ◌∷◌, [], ◌++◌, All, IfErr, IfOk};
ghost use Rattle.std.specs.Prelude.{None, OnOk, Option, Some, get_or};
ghost use Rattle.nm_base.specs.Sink.{SinkSeen};
ghost use Rattle.nm_base.specs.declared.fault.Fault.TheVariants.{Memory, Refused};
ghost use Rattle.nm_base.specs.declared.limits.TheConstants.{MAX_TIME};
ghost use Rattle.nm_files.specs.Files.{AreCounted, FileFailed, FileTook, FilesTook, HasBegun};
ghost use Rattle.nm_files.specs.Files.{OwnFileFailed, FailedAt, IsBegun};
ghost use Rattle.nm_files.specs.Folder.{IsOfIface, files_fault};
ghost use Rattle.nm_files.specs.Outputs.{Files};

use crate::outputs::OutputFault;
use nm_base::{Fault, IfaceNo, Record, Sink};
use nm_pcap::PcapOut;
use std::alloc::{AllocError, Global};
use thiserror::Error;

/// The trace file of an interface failed. It has so many octets, from the front of what it was to
/// have, which stops at 2^64 - 1.
#[derive(Clone, Copy, Debug, PartialEq, Eq, Error)]
#[error("a trace file failed after {written} octets")]
pub struct FileFault {
    pub iface: IfaceNo,
    pub written: u64,
}

/// Why trace files were not opened, or not written on: one failed, or memory was refused.
pub type FilesFault = Fault<FileFault>;

impl From<FileFault> for FilesFault {
    ghost from_gives = { λ file fault. fault ≡ Refused file };

    fn from(fault: FileFault) -> Self {
        FilesFault::Refused(fault)
    }
}

/// Trace files that are written side by side, by the numbers of their interfaces. An interface may
/// have none.
#[derive(Drop)]
pub struct TraceFiles<S> {
    files: Vec<Option<PcapOut<S>>>,
}

/// What the fault of an output is for trace files, one of which failed so.
pub(crate) fn files_fault(fault: OutputFault, file: FileFault) -> FilesFault
    ensures value { result ≡ files_fault fault file }
    ensures kinds { (result ≡ Refused file) ⊎ (result ≡ Memory) }
{
    match fault {
        OutputFault::Failed => FilesFault::Refused(file),
        OutputFault::Memory => FilesFault::Memory,
    }
}

/// The fault of an interface's file.
fn fault_of<S>(iface: IfaceNo, file: &PcapOut<S>) -> FileFault
    ensures { result ≡ record { iface = iface; written = file.now.written } }
{
    FileFault {
        iface,
        written: file.written_octets(),
    }
}

/// A file with its header written.
fn begun<S: Sink + Drop>(iface: IfaceNo, sink: S) -> Result<PcapOut<S>, FilesFault>
    ensures begun { IfOk result (IsBegun S.seen sink) }
    ensures told { IfErr result (IsOfIface iface) }
{
    let mut file = PcapOut::new(sink);
    match file.start() {
        Ok(()) => Ok(file),
        Err(_) => Err(FilesFault::Refused(fault_of(iface, &file))),
    }
}

/// Writes a record to its file, if there is one.
fn put_in<S: Sink>(
    iface: IfaceNo,
    file: &mut Option<PcapOut<S>>,
    record: &Record,
) -> Result<(), FileFault>
    // The record is of this interface, and its time fits a file.
    requires time { «record».now.time ≤ MAX_TIME }
    requires here { «record».now.iface ≡ iface }

    // The file took the record.
    ensures took { OnOk result
        (FileTook S.seen («record».now ∷ []) iface file.old file.new) }

    // Or its sink failed, now or before; then how much the file has is known.
    ensures iface { IfErr result (λ f. f.iface ≡ iface) }
    ensures failed { IfErr result
        (λ f. FileFailed S.seen «record».now f.written file.old file.new) }
{
    let Some(file) = file else {
        return Ok(());
    };
    match file.put(record) {
        Ok(()) => Ok(()),
        Err(_) => Err(fault_of(iface, file)),
    }
}

impl<S> TraceFiles<S> {
    /// No files.
    pub fn new(alloc: Global) -> Self
        ensures { result.files.items ≡ [] }
    {
        TraceFiles {
            files: Vec::new(alloc),
        }
    }

    /// Whether no interface has one.
    pub fn is_empty(&self) -> bool {
        self.files.is_empty()
    }

    /// Takes the file of an interface out, if it has one.
    pub fn take(&mut self, iface: IfaceNo) -> Option<PcapOut<S>>
        ensures file { result ≡ get_or self.old.files.items iface None }
        ensures counted { (seen : S → SinkSeen) (made : Option Files)
            → AreCounted seen made self.old.files.items
            → AreCounted seen made self.new.files.items }
        ensures others { (n : ℕ) → iface < n
            → get_or self.new.files.items n None ≡ get_or self.old.files.items n None }
    {
        let number = iface.index();
        if number >= self.files.len() {
            return None;
        }
        self.files[number].take()
    }
}

impl<S: Sink + Drop> TraceFiles<S> {
    /// The next interface has no file.
    ///
    /// # Errors
    ///
    /// If memory was refused. No interface was added then.
    pub fn skip(&mut self) -> Result<(), AllocError>
        ensures none { OnOk result (self.new.files.items ≡ self.old.files.items ++ None ∷ []) }
        ensures same { IfErr result (λ _. self.new.files.items ≡ self.old.files.items) }
    {
        self.files.push(None)?;
        Ok(())
    }

    /// The next interface has this file.
    ///
    /// # Errors
    ///
    /// If memory was refused. The file is dropped then, and no interface was added.
    pub fn add(&mut self, file: PcapOut<S>) -> Result<(), AllocError>
        ensures added { OnOk result
            (self.new.files.items ≡ self.old.files.items ++ Some file ∷ []) }
        ensures same { IfErr result (λ _. self.new.files.items ≡ self.old.files.items) }
    {
        self.files.push(Some(file))?;
        Ok(())
    }

    /// The next interface has a file over this sink, with its header written.
    ///
    /// # Errors
    ///
    /// `Refused` if the file failed: it has a prefix of the header. `Memory` if memory was refused.
    /// No interface was added then.
    pub fn open(&mut self, iface: IfaceNo, sink: S) -> Result<(), FilesFault>
        ensures begun { OnOk result (HasBegun S.seen sink
            self.old.files.items self.new.files.items) }
        ensures same { IfErr result (λ _. self.new.files.items ≡ self.old.files.items) }
        ensures told { IfErr result (IsOfIface iface) }
    {
        let file = begun(iface, sink)?;
        Ok(self.add(file)?)
    }
}

impl<S: Sink> TraceFiles<S> {
    /// Writes a record to the file of its interface, if that has one.
    ///
    /// # Errors
    ///
    /// If that file failed, now or before. It has a prefix of what it was to have, and is not
    /// written on.
    pub fn put(&mut self, record: &Record) -> Result<(), FileFault>
        requires { «record».now.time ≤ MAX_TIME }
        ensures took { OnOk result (FilesTook S.seen («record».now ∷ [])
            self.old.files.items self.new.files.items) }
        ensures failed { IfErr result (OwnFileFailed S.seen «record».now
            self.old.files.items self.new.files.items) }
    {
        let number = record.iface.index();
        if number >= self.files.len() {
            return Ok(());
        }
        put_in(record.iface, &mut self.files[number], record)
    }

    /// Writes records to the files of their interfaces, in order.
    ///
    /// # Errors
    ///
    /// If a file failed, now or before: it has a prefix of what it was to have, and no file is
    /// written on.
    pub fn put_all(&mut self, records: &[Record]) -> Result<(), FileFault>
        requires { All (λ r. r.time ≤ MAX_TIME) records.now }
        ensures took { OnOk result (FilesTook S.seen records.now
            self.old.files.items self.new.files.items) }
        ensures failed { IfErr result (FailedAt S.seen records.now
            self.old.files.items self.new.files.items) }
    {
        for number in 0..records.len() {
            self.put(&records[number])?;
        }
        Ok(())
    }
}
