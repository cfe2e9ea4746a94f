//! Inputs, which are opened by their names and read to their end.

ghost use Rattle.std.specs.Prelude.{◌≡◌, ◌+◌, ◌<◌, ◌≤◌, Err, IfOk, IfSome, None, Some, codes};
ghost use Rattle.std.specs.Prelude.{false, length};
ghost use Rattle.std.specs.Io.Buffered.{reader_remaining};
ghost use Rattle.std.specs.Str.{bytes_eq};
ghost use Rattle.std.specs.IoError.{error_kind};
ghost use Rattle.nm_offline.specs.Input.{IsFaultOf, inputs_seen, text_of};
ghost use Rattle.nm_offline.specs.declared.input.InputFault.TheVariants.{Failed, TooLong};
ghost use Rattle.nm_base.specs.declared.limits.TheConstants.{MAX_INPUT_OCTETS};

use crate::inputs::Inputs;
use nm_base::failures::FailureCount;
use nm_base::limits::MAX_INPUT_OCTETS;
use std::alloc::Global;
use std::io::{BufReader, ErrorKind, Read};
use std::marker::Model;
use std::{fmt, io};
use thiserror::Error;

/// How many octets of a file are read ahead, to call the system seldom.
const HELD_OCTETS: usize = 16_384;

/// Why an input was not read.
#[derive(Clone, Copy, Debug, PartialEq, Eq, Error)]
pub enum InputFault {
    /// It could not be opened, or a read failed.
    Failed,
    /// There are more than 67,108,864 octets.
    TooLong,
    /// Memory was refused.
    Memory,
}

impl InputFault {
    /// The fault in words.
    fn message(self) -> &'static str {
        match self {
            InputFault::Failed => "the input could not be read",
            InputFault::TooLong => "the input is too long",
            InputFault::Memory => "out of memory",
        }
    }
}

impl fmt::Display for InputFault {
    fn fmt<W: fmt::Write>(&self, f: &mut fmt::Formatter<W>) -> fmt::Result {
        f.write_str(self.message())
    }
}

/// Inputs that are read by their names. A clause sees where they come from, and how often one of
/// them could not be opened or read.
#[derive(Drop)]
pub struct NamedInputs<I> {
    inputs: I,
    failed: FailureCount,
}

impl<I> Model for NamedInputs<I> {
    ghost use Rattle.nm_offline.specs.Input.{CountedInputs};

    ghost Value = { CountedInputs I };

    ghost view = { λ i. record { inputs = i.inputs; failures = i.failed } };
}

impl<I> NamedInputs<I> {
    /// Inputs of which none was opened so far.
    pub fn new(inputs: I) -> Self
        ensures { result ≡ record { inputs = inputs; failures = 0 } }
    {
        NamedInputs {
            inputs,
            failed: FailureCount::new(),
        }
    }
}

impl<I: Inputs> NamedInputs<I> {
    /// Opens the input of a name, and reads all of it, at most 67,108,864 octets. The input `-` is
    /// standard input, and each other is a file.
    ///
    /// # Errors
    ///
    /// `Failed` if it could not be opened or a read failed: the count of failures rises by one, and
    /// else stays. `TooLong` if it has more octets. `Memory` if memory was refused.
    pub fn read(&mut self, alloc: Global, name: &str) -> Result<Vec<u8>, InputFault>
        // The input's text is read whole, and is within the limit.
        ensures text { IfOk result
            (λ octets. IfSome ((inputs_seen I.seen self.old).text name.now)
            (λ text. octets.items ≡ text)) }
        ensures most { IfOk result (λ octets. length octets.items ≤ MAX_INPUT_OCTETS) }

        // A failure is counted, and nothing else is.
        ensures failed { result ≡ Err Failed → self.new.failures ≡ self.old.failures + 1 }
        ensures kept { (result ≡ Err Failed → ⊥) → self.new.failures ≡ self.old.failures }

        // `TooLong`: the text is longer than the limit. The inputs stay.
        ensures too_long { result ≡ Err TooLong
            → IfSome ((inputs_seen I.seen self.old).text name.now)
            (λ text. MAX_INPUT_OCTETS < length text) }
        ensures same { self.new.inputs ≡ self.old.inputs }
    {
        let octets = read_named(alloc, &self.inputs, name);
        if let Err(InputFault::Failed) = octets {
            self.failed.rise();
        }
        octets
    }

    /// Opens the file of a name, which is read in pieces, however long it is. The name of standard
    /// input is no file's.
    ///
    /// # Errors
    ///
    /// The file could not be opened, or memory was refused. It is not counted.
    pub fn open(&self, alloc: Global, name: &str) -> io::Result<BufReader<I::File>>
        requires { bytes_eq name.now (codes "-") ≡ false }
        ensures { IfOk result (λ reader. IfSome ((inputs_seen I.seen self.now).text name.now)
            (λ text. reader_remaining I.File.remaining reader ≡ Some text)) }
    {
        BufReader::with_capacity(alloc, HELD_OCTETS, self.inputs.open(name)?)
    }

    /// The same, if the file is there.
    ///
    /// # Errors
    ///
    /// Those of `open`, of a file that is there.
    pub fn open_if_there(&self, alloc: Global, name: &str) -> io::Result<Option<BufReader<I::File>>>
        requires { bytes_eq name.now (codes "-") ≡ false }
        ensures there { IfOk result (λ found. IfSome found
            (λ reader. IfSome ((inputs_seen I.seen self.now).text name.now)
            (λ text. reader_remaining I.File.remaining reader ≡ Some text))) }
        ensures missing { IfOk result (λ found. found ≡ None
            → (inputs_seen I.seen self.now).text name.now ≡ None) }
    {
        match self.inputs.open(name) {
            Ok(file) => Ok(Some(BufReader::with_capacity(alloc, HELD_OCTETS, file)?)),
            Err(error) if error.kind() == ErrorKind::NotFound => Ok(None),
            Err(error) => Err(error),
        }
    }

    /// Counts that a file which was opened could not be, or that a read of it failed.
    pub fn fail(&mut self)
        ensures { self.new ≡ record self.old { failures = self.old.failures + 1 } }
    {
        self.failed.rise();
    }
}

/// Opens the input of a name, and reads all of it, at most 67,108,864 octets.
fn read_named<I: Inputs>(alloc: Global, inputs: &I, name: &str) -> Result<Vec<u8>, InputFault>
    ensures text { IfOk result
        (λ octets. IfSome (text_of (I.seen inputs.now) name.now)
        (λ text. octets.items ≡ text)) }
    ensures most { IfOk result (λ octets. length octets.items ≤ MAX_INPUT_OCTETS) }
    ensures too_long { result ≡ Err TooLong
        → IfSome (text_of (I.seen inputs.now) name.now)
        (λ text. MAX_INPUT_OCTETS < length text) }
{
    if name == "-" {
        let mut standard = inputs.standard();
        return read_to_end(alloc, &mut standard);
    }
    match inputs.open(name) {
        Ok(mut file) => read_to_end(alloc, &mut file),
        Err(refused) => Err(fault_of(&refused)),
    }
}

/// Reads all that is left, at most 67,108,864 octets.
fn read_to_end<R: Read>(alloc: Global, reader: &mut R) -> Result<Vec<u8>, InputFault>
    ensures text { IfOk result (λ octets. IfSome (R.remaining reader.old)
        (λ text. octets.items ≡ text)) }
    ensures most { IfOk result (λ octets. length octets.items ≤ MAX_INPUT_OCTETS) }
    ensures too_long { result ≡ Err TooLong
        → IfSome (R.remaining reader.old) (λ text. MAX_INPUT_OCTETS < length text) }
{
    let mut octets = Vec::new(alloc);
    match reader.take(MAX_INPUT_OCTETS + 1).read_to_end(&mut octets) {
        Ok(_) if octets.len() as u64 <= MAX_INPUT_OCTETS => Ok(octets),
        Ok(_) => Err(InputFault::TooLong),
        Err(error) => Err(fault_of(&error)),
    }
}

/// The meaning of an error of an opening or a read: memory was refused, or it failed.
fn fault_of(error: &io::Error) -> InputFault
    ensures { IsFaultOf (error_kind error.now) result }
{
    if error.kind() == ErrorKind::OutOfMemory {
        InputFault::Memory
    } else {
        InputFault::Failed
    }
}
