//! How the program ends.

ghost use Rattle.std.specs.Prelude.{◌≡◌, ◌⊎◌, ◌+◌, ◌++◌, IfErr, OnOk, codes, decimal};
ghost use Rattle.nm_base.specs.Sink.{HasFailedOnce, HasNotFailed, HasTaken};
ghost use Rattle.nm_command.specs.Status.{code_of, ended, line_of};
ghost use Rattle.nm_command.specs.declared.status.Status.TheVariants.{File, Memory};

use arrayvec::ArrayString;
use itoa::Buffer;
use nm_base::sink::write_all;
use nm_base::{Sink, SinkFault};
use nm_files::{FileFault, FilesFault, OutputFault};
use nm_topology::Refusal;
use nm_topology::parse::forms::MAX_NAME;
use std::alloc::{AllocError, AllocFailed};

/// The name of an interface, which is in the value itself.
pub type IfaceName = ArrayString<MAX_NAME>;

/// How the program ends: its line on standard error, and its exit status.
#[derive(Clone, Copy, Debug, PartialEq, Eq)]
pub enum Status {
    /// All was written.
    Done,
    /// The words are not those of a command.
    Usage,
    /// The topology has no interface of this name, or no interface at all.
    NoInterface,
    /// This line of a script, counted from 1, is no step.
    ScriptLine(u64),
    /// This step of a script, counted from 0, names what is not there.
    Step(u64),
    /// A series would have so many rows, more than 10,000,000.
    Rows(u64),
    /// The topology is refused.
    Topology(Refusal),
    /// An input could not be read or is too long, or a sink failed.
    File,
    /// Memory was refused.
    Memory,
    /// The replicas are not certified, for the reason with this number.
    NotCertified(u8),
    /// Something was left to do when the program gave up.
    Stalled,
    /// The existing trace file of this interface differs from its trace at this octet, counted from
    /// 0, which stops at 2^64 - 1: all before it are the same, and there the file has another one,
    /// or it ends, or it goes on.
    Differs { iface: IfaceName, octet: u64 },
}

impl From<AllocError> for Status {
    ghost from_gives = { λ _ s. s ≡ Memory };

    fn from(_: AllocError) -> Self {
        Status::Memory
    }
}

impl<T: Drop> From<AllocFailed<T>> for Status {
    ghost from_gives = { λ _ s. s ≡ Memory };

    fn from(_: AllocFailed<T>) -> Self {
        Status::Memory
    }
}

impl From<OutputFault> for Status {
    ghost from_gives = { λ _ s. (s ≡ File) ⊎ (s ≡ Memory) };

    fn from(fault: OutputFault) -> Self {
        match fault {
            OutputFault::Failed => Status::File,
            OutputFault::Memory => Status::Memory,
        }
    }
}

impl From<FileFault> for Status {
    ghost from_gives = { λ _ s. s ≡ File };

    fn from(_: FileFault) -> Self {
        Status::File
    }
}

impl From<FilesFault> for Status {
    ghost from_gives = { λ _ s. (s ≡ File) ⊎ (s ≡ Memory) };

    fn from(fault: FilesFault) -> Self {
        match fault {
            FilesFault::Refused(_) => Status::File,
            FilesFault::Memory => Status::Memory,
        }
    }
}

impl Status {
    /// How the program ends with this outcome.
    pub fn of(outcome: Result<(), Status>) -> Status
        ensures { result ≡ ended outcome }
    {
        match outcome {
            Ok(()) => Status::Done,
            Err(status) => status,
        }
    }

    /// The exit status.
    pub fn code(self) -> u8
        ensures { result ≡ code_of self }
    {
        match self {
            Status::Done => 0,
            Status::Usage
            | Status::NoInterface
            | Status::ScriptLine(_)
            | Status::Step(_)
            | Status::Rows(_) => 2,
            Status::Topology(_) => 3,
            Status::File => 4,
            Status::Memory => 5,
            Status::NotCertified(_) => 6,
            Status::Stalled => 7,
            Status::Differs { .. } => 8,
        }
    }

    /// Writes the line for standard error, with its line feed; none for Done. It takes no memory.
    ///
    /// # Errors
    ///
    /// The sink failed. It may have taken the front of the line.
    pub fn say<S: Sink>(self, sink: &mut S) -> Result<(), SinkFault>
        ensures said { OnOk result (HasTaken (S.seen sink.old) (S.seen sink.new) (line_of self)) }
        ensures failed { IfErr result (λ _. HasFailedOnce (S.seen sink.old) (S.seen sink.new)) }
    {
        match self {
            Status::Done => write_all(sink, b""),
            Status::Usage => write_all(sink, b"nullsim: usage\n"),
            Status::NoInterface => write_all(sink, b"nullsim: no interface\n"),
            Status::ScriptLine(line) => put_number(sink, b"nullsim: script line ", line),
            Status::Step(step) => put_number(sink, b"nullsim: step ", step),
            Status::Rows(rows) => put_number(sink, b"nullsim: rows ", rows),
            Status::Topology(refusal) => {
                put_number(sink, b"nullsim: topology ", refusal.number() as u64)
            }
            Status::File => write_all(sink, b"nullsim: file\n"),
            Status::Memory => write_all(sink, b"nullsim: memory\n"),
            Status::NotCertified(fault) => {
                put_number(sink, b"nullsim: not certified ", fault as u64)
            }
            Status::Stalled => write_all(sink, b"nullsim: stalled\n"),
            Status::Differs { iface, octet } => put_place(sink, iface.as_str(), octet),
        }
    }
}

/// Gives a sink a line that ends with a number.
fn put_number<S: Sink>(sink: &mut S, text: &[u8], number: u64) -> Result<(), SinkFault>
    ensures said { OnOk result (HasTaken (S.seen sink.old) (S.seen sink.new)
        (text.now ++ decimal number ++ codes "\n")) }
    ensures failed { IfErr result (λ _. HasFailedOnce (S.seen sink.old) (S.seen sink.new)) }
{
    let mut buffer = Buffer::new();
    write_all(sink, text)?;
    write_all(sink, buffer.format(number).as_bytes())?;
    write_all(sink, b"\n")
}

/// Gives a sink the line of the octet at which the file of an interface differs.
fn put_place<S: Sink>(sink: &mut S, iface: &str, octet: u64) -> Result<(), SinkFault>
    ensures said { OnOk result (HasTaken (S.seen sink.old) (S.seen sink.new)
        (codes "nullsim: differs " ++ iface.now ++ codes " " ++ decimal octet ++ codes "\n")) }
    ensures failed { IfErr result (λ _. HasFailedOnce (S.seen sink.old) (S.seen sink.new)) }
{
    write_all(sink, b"nullsim: differs ")?;
    write_all(sink, iface.as_bytes())?;
    put_number(sink, b" ", octet)
}
