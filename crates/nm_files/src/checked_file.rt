//! An existing trace file, read beside what it is to have.

ghost use Rattle.std.specs.IoError.{error_kind};
ghost use Rattle.std.specs.Prelude.{◌≡◌, ◌≢◌, ℕ, ◌+◌, ◌<◌, ◌≤◌, ◌++◌, IfErr, IfOk, IfSome, List};
ghost use Rattle.std.specs.Prelude.{[], OnOk, Option, length, slice_get, take};
ghost use Rattle.nm_base.specs.Count.{saturated};
ghost use Rattle.nm_base.specs.declared.fault.Fault.TheVariants.{Refused};
ghost use Rattle.nm_base.specs.declared.limits.TheConstants.{MAX_TIME};
ghost use Rattle.nm_files.specs.Checked.{HasRead, IsFaultOfKind, IsLonger, IsUnlike, difference};
ghost use Rattle.nm_files.specs.declared.checked_file.CheckCause.TheVariants.{Differs, Failed};
ghost use Rattle.nm_pcap.specs.Format.{file_header, record_octets};

use nm_base::{Fault, IfaceNo, Record};
use nm_pcap::format::{file_header_octets, record_header_octets};
use std::io::{self, BufRead, ErrorKind};
use thiserror::Error;

/// Why a trace file is not known to have what it is to have.
#[derive(Clone, Copy, Debug, PartialEq, Eq, Error)]
pub enum CheckCause {
    /// The file of this interface differs at this octet, counted from 0, which stops at 2^64 - 1,
    /// and at none before it: there it has another one, or it ends, or it goes on.
    #[error("a trace file differs at octet {octet}")]
    Differs { iface: IfaceNo, octet: u64 },
    /// A file could not be opened, or a read failed.
    #[error("a trace file could not be read")]
    Failed,
}

/// Why trace files are not known to have what they are to have: one of them is at fault, or memory
/// was refused.
pub type CheckFault = Fault<CheckCause>;

/// A file could not be opened, or a read failed.
#[derive(Clone, Copy, Debug, PartialEq, Eq, Error)]
#[error("a trace file could not be read")]
pub struct ReadFailed;

/// Why it is not known what a file has: it could not be read, or memory was refused.
pub type ReadFault = Fault<ReadFailed>;

/// What an error of the system is at a file that is read.
pub fn read_fault(error: &io::Error) -> ReadFault
    ensures { IsFaultOfKind (error_kind error.now) (record {}) result }
{
    if error.kind() == ErrorKind::OutOfMemory {
        ReadFault::Memory
    } else {
        ReadFault::Refused(ReadFailed)
    }
}

/// What it is at a file that is compared.
pub fn check_fault(error: &io::Error) -> CheckFault
    ensures kind { IsFaultOfKind (error_kind error.now) Failed result }
    ensures unlike { (n : ℕ) (texts : ℕ → Option (List ℕ)) (before next : List ℕ)
        → IsUnlike texts n before next result × IsLonger texts n before result }
{
    match read_fault(error) {
        ReadFault::Memory => CheckFault::Memory,
        ReadFault::Refused(_) => CheckFault::Refused(CheckCause::Failed),
    }
}

/// The interface whose file differs, and at which octet, if one does.
pub fn difference(fault: &CheckFault) -> Option<(IfaceNo, u64)>
    ensures { result ≡ difference fault.now }
{
    match fault {
        CheckFault::Refused(CheckCause::Differs { iface, octet }) => Some((*iface, *octet)),
        CheckFault::Refused(CheckCause::Failed) | CheckFault::Memory => None,
    }
}

/// The trace file of an interface that is there.
#[derive(Drop)]
pub struct CheckedFile<B> {
    iface: IfaceNo,
    reader: B,
    /// How many of its first octets are as they are to be, which stops at the greatest `u64`.
    same: u64,
    /// How many records these have, which stops there too.
    records: u64,
}

/// How many elements at the front of two lists are the same.
fn same_front(one: &[u8], other: &[u8]) -> usize
    ensures within { (result ≤ length one.now) × (result ≤ length other.now) }
    ensures same { take result one.now ≡ take result other.now }
    ensures next { result < length one.now → result < length other.now
        → slice_get one.now result ≢ slice_get other.now result }
{
    let count = one.len().min(other.len());
    if one[..count] == other[..count] {
        return count;
    }
    for at in 0..count {
        if one[at] != other[at] {
            return at;
        }
    }
    count
}

impl<B> CheckedFile<B> {
    /// Nothing of this file was read so far.
    fn new(iface: IfaceNo, reader: B) -> Self
        ensures { result ≡ record { iface = iface; reader = reader; same = 0; records = 0 } }
    {
        CheckedFile {
            iface,
            reader,
            same: 0,
            records: 0,
        }
    }

    /// How many records it has, and how many octets, as far as it was read. Both stop at 2^64 - 1.
    pub fn totals(&self) -> (u64, u64)
        ensures { (result.0 ≡ self.now.records) × (result.1 ≡ self.now.same) }
    {
        (self.records, self.same)
    }

    /// So many octets more are as they are to be.
    fn count(&mut self, octets: usize)
        ensures { self.new ≡ record self.old { same = saturated (self.old.same + octets) } }
    {
        self.same = self.same.saturating_add(octets as u64);
    }

    /// It differs at the octet that comes next.
    fn differs(&self) -> CheckFault
        ensures { result ≡ Refused (Differs self.now.iface self.now.same) }
    {
        CheckFault::Refused(CheckCause::Differs {
            iface: self.iface,
            octet: self.same,
        })
    }
}

impl<B: BufRead> CheckedFile<B> {
    /// Reads on as far as the file has these octets, and shows it at one go: how many.
    fn read_same(&mut self, octets: &[u8]) -> io::Result<usize>
        requires { 0 < length octets.now }
        ensures most { IfOk result (λ k. k ≤ length octets.now) }
        ensures read { (texts : ℕ → Option (List ℕ)) (n : ℕ) (before : List ℕ)
            → HasRead texts B.remaining n before self.old
            → IfOk result (λ k.
            HasRead texts B.remaining n (before ++ take k octets.now) self.new) }
        ensures unlike { (texts : ℕ → Option (List ℕ)) (n : ℕ) (before : List ℕ)
            → HasRead texts B.remaining n before self.old
            → IfOk result (λ k. k ≡ 0 → IfSome (texts n)
            (λ text. slice_get text (length before) ≢ slice_get octets.now 0)) }
        ensures records { self.new.records ≡ self.old.records }
    {
        let there = self.reader.fill_buf()?;
        let count = same_front(there, octets);
        self.reader.consume(count);
        self.count(count);
        Ok(count)
    }

    /// Reads on over these octets, which are to come next.
    fn expect(&mut self, octets: &[u8]) -> Result<(), CheckFault>
        ensures read { (texts : ℕ → Option (List ℕ)) (n : ℕ) (before : List ℕ)
            → HasRead texts B.remaining n before self.old
            → OnOk result (HasRead texts B.remaining n (before ++ octets.now) self.new) }
        ensures unlike { (texts : ℕ → Option (List ℕ)) (n : ℕ) (before : List ℕ)
            → HasRead texts B.remaining n before self.old
            → IfErr result (IsUnlike texts n before octets.now) }
        ensures records { self.new.records ≡ self.old.records }
    {
        let mut at = 0;
        while at < octets.len() {
            match self.read_same(&octets[at..]) {
                Ok(0) => return Err(self.differs()),
                Ok(count) => at += count,
                Err(error) => return Err(check_fault(&error)),
            }
        }
        Ok(())
    }

    /// Reads on over these octets and then those, which are to come next.
    fn expect_both(&mut self, first: &[u8], second: &[u8]) -> Result<(), CheckFault>
        ensures read { (texts : ℕ → Option (List ℕ)) (n : ℕ) (before : List ℕ)
            → HasRead texts B.remaining n before self.old
            → OnOk result (HasRead texts B.remaining n (before ++ (first.now ++ second.now))
            self.new) }
        ensures unlike { (texts : ℕ → Option (List ℕ)) (n : ℕ) (before : List ℕ)
            → HasRead texts B.remaining n before self.old
            → IfErr result (IsUnlike texts n before (first.now ++ second.now)) }
        ensures records { self.new.records ≡ self.old.records }
    {
        self.expect(first)?;
        self.expect(second)
    }

    /// The trace file of this interface, with its header read.
    ///
    /// # Errors
    ///
    /// `Differs` if it has no such header, `Failed` if a read failed, `Memory` if memory was
    /// refused.
    pub(crate) fn open(iface: IfaceNo, reader: B) -> Result<Self, CheckFault>
    where
        B: Drop,
        ensures read { (texts : ℕ → Option (List ℕ))
            → IfSome (texts iface) (λ text. B.remaining reader ≡ Some text)
            → IfOk result (HasRead texts B.remaining iface file_header) }
        ensures unlike { (texts : ℕ → Option (List ℕ))
            → IfSome (texts iface) (λ text. B.remaining reader ≡ Some text)
            → IfErr result (IsUnlike texts iface [] file_header) }
        ensures records { IfOk result (λ f. f.records ≡ 0) }
    {
        let mut file = CheckedFile::new(iface, reader);
        file.expect(&file_header_octets())?;
        Ok(file)
    }

    /// Reads on over a record, which is to come next.
    ///
    /// # Errors
    ///
    /// `Differs` if it does not, `Failed` if a read failed, `Memory` if memory was refused.
    pub(crate) fn put(&mut self, record: &Record) -> Result<(), CheckFault>
        requires { «record».now.time ≤ MAX_TIME }
        ensures read { (texts : ℕ → Option (List ℕ)) (n : ℕ) (before : List ℕ)
            → HasRead texts B.remaining n before self.old
            → OnOk result (HasRead texts B.remaining n (before ++ record_octets «record».now)
            self.new) }
        ensures unlike { (texts : ℕ → Option (List ℕ)) (n : ℕ) (before : List ℕ)
            → HasRead texts B.remaining n before self.old
            → IfErr result (IsUnlike texts n before (record_octets «record».now)) }
        ensures records { OnOk result (self.new.records ≡ saturated (self.old.records + 1)) }
    {
        let header = record_header_octets(record.time, record.packet.octet_count() as u32);
        self.expect_both(&header, record.packet.octets())?;
        self.records = self.records.saturating_add(1);
        Ok(())
    }

    /// Sees that nothing comes behind what was read.
    ///
    /// # Errors
    ///
    /// `Differs` if something does, `Failed` if the read failed, `Memory` if memory was refused.
    pub(crate) fn finish(&mut self) -> Result<(), CheckFault>
        ensures whole { (texts : ℕ → Option (List ℕ)) (n : ℕ) (octets : List ℕ)
            → HasRead texts B.remaining n octets self.old
            → OnOk result (IfSome (texts n) (λ text. text ≡ octets)) }
        ensures longer { (texts : ℕ → Option (List ℕ)) (n : ℕ) (octets : List ℕ)
            → HasRead texts B.remaining n octets self.old
            → IfErr result (IsLonger texts n octets) }
        ensures read { (texts : ℕ → Option (List ℕ)) (n : ℕ) (octets : List ℕ)
            → HasRead texts B.remaining n octets self.old
            → HasRead texts B.remaining n octets self.new }
        ensures counts { (self.new.records ≡ self.old.records) × (self.new.same ≡ self.old.same) }
    {
        let is_end = match self.reader.fill_buf() {
            Ok(there) => there.is_empty(),
            Err(error) => return Err(check_fault(&error)),
        };
        if is_end { Ok(()) } else { Err(self.differs()) }
    }
}
