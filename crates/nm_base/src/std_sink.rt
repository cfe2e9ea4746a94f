//! A sink over a writer of the standard library.

ghost use Rattle.std.specs.Prelude.{◌≡◌, ◌+◌, if◌then◌else◌, is_ok, nat_lt, MatchResult, None};
ghost use Rattle.std.specs.Prelude.{Some};
ghost use Rattle.std.specs.Io.KnownBytes.{Keeps};

use crate::failures::FailureCount;
use crate::sink::{Sink, SinkFault};
use std::io::{self, Write};
use std::marker::Model;

/// Writes to a file, a stream or memory. A write that fails or that takes nothing is a fault. A
/// clause sees the writer and the count of failures.
#[derive(Drop)]
pub struct StdSink<W> {
    writer: W,
    failed: FailureCount,
}

impl<W> Model for StdSink<W> {
    ghost use Rattle.nm_base.specs.Sink.{WriterSink};

    ghost Value = { WriterSink W };

    ghost view = { λ s. record { writer = s.writer; failures = s.failed } };
}

impl<W> StdSink<W> {
    /// A sink that has not failed so far.
    pub fn new(writer: W) -> Self
        ensures { result ≡ record { writer = writer; failures = 0 } }
    {
        StdSink {
            writer,
            failed: FailureCount::new(),
        }
    }

    /// The writer.
    pub fn writer(&self) -> &W
        ensures { result.now ≡ self.now.writer }
    {
        &self.writer
    }
}

impl<W: Write> StdSink<W> {
    /// The writer failed once more.
    fn fault(&mut self) -> SinkFault
        ensures { self.new ≡ record { writer = self.old.writer; failures = self.old.failures + 1 } }
    {
        self.failed.rise();
        SinkFault
    }

    /// Has the writer pass on what it holds back, as one with a buffer does.
    ///
    /// # Errors
    ///
    /// `SinkFault` if the writer failed. The count of failures is one more then.
    pub fn flush(&mut self) -> Result<(), SinkFault>
        ensures octets { Keeps (W.contents self.old.writer) (W.contents self.new.writer) }
        ensures faults { self.new.failures ≡ self.old.failures + (if is_ok result then 0 else 1) }
    {
        match self.writer.flush() {
            Ok(()) => Ok(()),
            Err(_) => Err(self.fault()),
        }
    }
}

/// How many octets a writer took by its answer, or `None` if it failed: it answered an error, or
/// took nothing of a list that is not empty.
fn taken_count(answer: io::Result<usize>) -> Option<usize>
    ensures { MatchResult answer
        (λ n. result ≡ (if nat_lt 0 n then Some n else None)) (λ _. result ≡ None) }
{
    match answer {
        Ok(count) if count > 0 => Some(count),
        Ok(_) | Err(_) => None,
    }
}

impl<W: Write> Sink for StdSink<W> {
    ghost seen = { λ s. record { taken = W.contents s.writer; failures = s.failures } };

    fn write_some(&mut self, octets: &[u8]) -> Result<usize, SinkFault> {
        match taken_count(self.writer.write(octets)) {
            Some(count) => Ok(count),
            None => Err(self.fault()),
        }
    }
}
