//! A trace file as it is written.

ghost use Rattle.std.specs.Prelude.{◌≡◌, ◌≤◌, ◌<◌, ◌^◌, ◌++◌, false, length, if◌then◌else◌, Err};
ghost use Rattle.std.specs.Prelude.{Ok};
ghost use Rattle.hex.specs.Hex.{encode_lower};
ghost use Rattle.nm_base.specs.declared.limits.TheConstants.{MAX_TIME};
ghost use Rattle.nm_pcap.specs.declared.form.Form.TheVariants.{Octets};
ghost use Rattle.nm_pcap.specs.declared.writer.PcapFault.TheVariants.{Failed};
ghost use Rattle.nm_pcap.specs.Format.{file_header, record_octets};
ghost use Rattle.nm_pcap.specs.Outcome.{Adds};
ghost use Rattle.nm_pcap.specs.Writing.{ending, written};

use crate::form::Form;
use crate::format::{file_header_octets, record_header_octets};
use nm_base::sink::{SinkFault, write_counted};
use nm_base::{Record, Sink};
use std::marker::Model;
use thiserror::Error;

/// Octets that are turned into hexadecimal at a time.
const CHUNK_OCTETS: usize = 1_024;

const CHUNK_DIGITS: usize = 2_048;

/// Why a trace file was not written on.
#[derive(Clone, Copy, Debug, PartialEq, Eq, Error)]
pub enum PcapFault {
    /// The sink failed in this call. It has taken so many octets in all, which stops at 2^64 - 1,
    /// and no later call writes.
    #[error("the trace file failed after {written} octets")]
    File { written: u64 },
    /// The sink failed in an earlier call. Nothing was written.
    #[error("the trace file has failed")]
    Failed,
}

/// Writes one trace file to a sink: `start`, then `put` for each record, and `end`. No call takes
/// memory. A clause sees the sink, the form of the file, the number of octets that the sink took,
/// and whether it has failed.
#[derive(Drop)]
pub struct PcapOut<W> {
    sink: W,
    form: Form,
    written: u64,
    failed: bool,
}

impl<W> Model for PcapOut<W> {
    ghost use Rattle.std.specs.Prelude.{◌<◌, ◌^◌};
    ghost use Rattle.nm_pcap.specs.Writer.{Writer};

    ghost Value = { Writer W };

    ghost view = { λ p. record {
      sink = p.sink;
      form = p.form;
      written = p.written;
      failed = p.failed;
    } };

    ghost invariant = { λ p. p.written < 2 ^ 64 };
}

impl<W> PcapOut<W> {
    /// Takes the sink of a file whose octets are written as they are, and writes nothing.
    pub fn new(sink: W) -> Self
        ensures { result
            ≡ record { sink = sink; form = Octets; written = 0; failed = false } }
    {
        PcapOut::in_form(sink, Form::Octets)
    }

    /// Takes the sink of a file that is written in a form, and writes nothing.
    pub fn in_form(sink: W, form: Form) -> Self
        ensures { result ≡ record { sink = sink; form = form; written = 0; failed = false } }
    {
        PcapOut {
            sink,
            form,
            written: 0,
            failed: false,
        }
    }

    /// The sink.
    pub fn sink(&self) -> &W
        ensures { result.now ≡ self.now.sink }
    {
        &self.sink
    }

    /// Gives the sink back.
    pub fn into_sink(self) -> W
        ensures { result ≡ self.sink }
    {
        self.sink
    }

    /// How many octets the sink took of the file, which stops at 2^64 - 1.
    pub fn written_octets(&self) -> u64
        ensures { result ≡ self.now.written }
    {
        self.written
    }

    /// Whether the sink has failed.
    pub fn has_failed(&self) -> bool
        ensures { result ≡ self.now.failed }
    {
        self.failed
    }

    /// Whether the file may be written on.
    fn check(&self) -> Result<(), PcapFault>
        ensures value { result ≡ if self.now.failed then Err Failed else Ok tt }
        ensures few { self.now.written < 2 ^ 64 }
    {
        if self.failed {
            return Err(PcapFault::Failed);
        }
        Ok(())
    }
}

impl<W: Sink> PcapOut<W> {
    /// Writes the file header. It is called once, before any `put`.
    ///
    /// # Errors
    ///
    /// `File` if the sink failed in this call: it took a prefix of the header. `Failed` if it had
    /// failed before.
    pub fn start(&mut self) -> Result<(), PcapFault>
        ensures { Adds W.seen self.old self.new result (written self.old.form file_header) }
    {
        self.write(&file_header_octets())
    }

    /// Writes one record. Records are put in the order of the trace.
    ///
    /// # Errors
    ///
    /// `File` if the sink failed in this call: it took a prefix of the record. `Failed` if it had
    /// failed before.
    pub fn put(&mut self, record: &Record) -> Result<(), PcapFault>
        requires { «record».now.time ≤ MAX_TIME }
        ensures { Adds W.seen self.old self.new result
            (written self.old.form (record_octets «record».now)) }
    {
        let header = record_header_octets(record.time, record.packet.octet_count() as u32);
        self.write_two(&header, record.packet.octets())
    }

    /// Writes what follows the last record in the file's form. It is called once, after all `put`s.
    ///
    /// # Errors
    ///
    /// `File` if the sink failed in this call. `Failed` if it had failed before.
    pub fn end(&mut self) -> Result<(), PcapFault>
        ensures { Adds W.seen self.old self.new result (ending self.old.form) }
    {
        match self.form {
            Form::Octets => self.write_whole(b""),
            Form::Hexadecimal => self.write_whole(b"\n"),
        }
    }

    /// Writes these octets, and then those, in the file's form.
    fn write_two(&mut self, first: &[u8], second: &[u8]) -> Result<(), PcapFault>
        ensures { Adds W.seen self.old self.new result
            (written self.old.form (first.now ++ second.now)) }
    {
        self.write(first)?;
        self.write(second)
    }

    /// Writes these octets in the file's form.
    fn write(&mut self, octets: &[u8]) -> Result<(), PcapFault>
        ensures { Adds W.seen self.old self.new result (written self.old.form octets.now) }
    {
        match self.form {
            Form::Octets => self.write_whole(octets),
            Form::Hexadecimal => self.write_hexadecimal(octets),
        }
    }

    /// Writes these octets as lower-case hexadecimal, a chunk at a time.
    fn write_hexadecimal(&mut self, octets: &[u8]) -> Result<(), PcapFault>
        ensures { Adds W.seen self.old self.new result (encode_lower octets.now) }
    {
        self.check()?;
        let mut at = 0;
        while at < octets.len() {
            let count = (octets.len() - at).min(CHUNK_OCTETS);
            self.write_chunk(&octets[at..at + count])?;
            at += count;
        }
        Ok(())
    }

    /// Writes at most 1,024 octets as lower-case hexadecimal.
    fn write_chunk(&mut self, octets: &[u8]) -> Result<(), PcapFault>
        requires { length octets.now ≤ CHUNK_OCTETS }
        ensures { Adds W.seen self.old self.new result (encode_lower octets.now) }
    {
        let mut digits = [0; CHUNK_DIGITS];
        let digits = &mut digits[..2 * octets.len()];
        hex::encode_to_slice(octets, digits).unwrap();
        self.write_whole(digits)
    }

    /// Writes these octets as they are.
    fn write_whole(&mut self, octets: &[u8]) -> Result<(), PcapFault>
        ensures { Adds W.seen self.old self.new result octets.now }
    {
        self.check()?;
        let (taken, outcome) = write_counted(&mut self.sink, octets);
        self.written = self.written.saturating_add(taken as u64);
        match outcome {
            Ok(()) => Ok(()),
            Err(SinkFault) => {
                self.failed = true;
                Err(PcapFault::File {
                    written: self.written,
                })
            }
        }
    }
}
