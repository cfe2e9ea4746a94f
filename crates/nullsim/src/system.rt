//! The inputs and the files of the operating system.

ghost use Rattle.std.specs.Prelude.{None};

use crate::noted::{Noted, NotedReader};
use crate::parts::{Letters, PartFile, clean, part_of};
use nm_base::StdSink;
use nm_files::{OutputFault, Outputs};
use nm_program::Inputs;
use std::fs::File;
use std::io::{BufWriter, ErrorKind, StdinLock};
use std::{fs, io};

/// Standard input and the files of the system. Contracts do not know what they have.
#[derive(Drop)]
pub struct SystemInputs<'a> {
    pub runtime: &'a HostRuntime,
    pub noted: &'a Noted,
}

impl<'a> SystemInputs<'a> {
    /// A reader, which notes if it gives too much.
    fn noted<R>(&self, reader: R) -> NotedReader<'a, R> {
        NotedReader {
            reader,
            is_long: &self.noted.is_long,
            count: 0,
        }
    }
}

impl<'a> Inputs for SystemInputs<'a> {
    type Standard = NotedReader<'a, StdinLock<'static>>;

    type File = NotedReader<'a, File>;

    ghost seen = { λ _. record { standard = None; file = λ _. None } };

    fn standard(&self) -> NotedReader<'a, StdinLock<'static>> {
        self.noted(self.runtime.reader())
    }

    fn open(&self, name: &str) -> io::Result<NotedReader<'a, File>> {
        match fs::open(self.runtime, name) {
            Ok(file) => Ok(self.noted(file)),
            Err(error) => {
                self.noted.file(self.runtime.alloc(), name, &error);
                Err(error)
            }
        }
    }
}

/// How many octets of a file are held back, so that the system is called seldom: with 960 files of
/// an interface each they take 15 MiB.
const HELD_BACK_OCTETS: usize = 16_384;

/// The files of the system that are made or replaced: each is written as a part, and renamed once
/// it is whole. Contracts do not know what they have.
#[derive(Drop)]
pub struct SystemOutputs<'a> {
    runtime: &'a HostRuntime,
    noted: &'a Noted,
    /// Drawn when the first file is made.
    letters: Option<Letters>,
    /// The names of the files that were made, by their numbers.
    names: Vec<String>,
}

/// A sink over a part.
type PartSink<'a> = StdSink<BufWriter<PartFile<'a>>>;

/// A part that is whole and does not have its name yet. It is open until then, and so locked.
#[derive(Drop)]
pub struct ClosedFile<'a> {
    sink: PartSink<'a>,
    part: String,
    name: String,
}

/// What an error of the system is to the program.
fn fault_of(error: &io::Error) -> OutputFault {
    match error.kind() {
        ErrorKind::OutOfMemory => OutputFault::Memory,
        _ => OutputFault::Failed,
    }
}

/// The folder of a file of this name.
fn folder_of(name: &str) -> &str {
    match name.rsplit_once('/') {
        Some((folder, _)) if folder.is_empty() => "/",
        Some((folder, _)) => folder,
        None => ".",
    }
}

impl<'a> SystemOutputs<'a> {
    /// No file so far.
    pub fn new(runtime: &'a HostRuntime, noted: &'a Noted) -> Self {
        SystemOutputs {
            runtime,
            noted,
            letters: None,
            names: Vec::new(runtime.alloc()),
        }
    }

    /// Notes the file that was the last one to fail while it was written, if there was any.
    pub fn note_writing(&self) {
        if let Some((number, error)) = self.noted.writing.last() {
            if let Some(name) = self.names.get(number as usize) {
                self.noted.file(self.runtime.alloc(), name.as_str(), &error);
            }
        }
    }

    /// The fault for an error of the system at a file, which is noted.
    fn noted(&self, name: &str, error: &io::Error) -> OutputFault {
        self.noted.file(self.runtime.alloc(), name, error);
        fault_of(error)
    }

    /// The letters of its parts. Before the first of them is made, those are removed from its
    /// folder that killed processes left.
    fn letters(&mut self, name: &str) -> io::Result<Letters> {
        if let Some(letters) = self.letters {
            return Ok(letters);
        }
        let letters = Letters::draw(self.runtime)?;
        clean(self.runtime, folder_of(name));
        self.letters = Some(letters);
        Ok(letters)
    }

    /// The name of the part of a file, and that it is made.
    fn make(&mut self, name: &str) -> io::Result<PartFile<'a>> {
        let (letters, alloc) = (self.letters(name)?, self.runtime.alloc());
        let part = part_of(alloc, name, &letters)?;
        let number = u32::try_from(self.names.len()).unwrap_or(u32::MAX);
        self.names.push(String::from_str(alloc, name)?)?;
        PartFile::make(self.runtime, part.as_str(), number, &self.noted.writing)
    }

    /// A closed file of this name, with its part written.
    fn closed(&mut self, name: &str, sink: PartSink<'a>) -> io::Result<ClosedFile<'a>> {
        let letters = self.letters(name)?;
        let alloc = self.runtime.alloc();
        Ok(ClosedFile {
            sink,
            part: part_of(alloc, name, &letters)?,
            name: String::from_str(alloc, name)?,
        })
    }

    /// Renames a part, if the file of its name is still what was written: whether it is.
    fn rename(&self, file: &ClosedFile<'a>) -> io::Result<bool> {
        let written = file.sink.writer().get_ref();
        let is_whole = written.is_whole_at(self.runtime, file.part.as_str())?;
        if is_whole {
            fs::rename(self.runtime, file.part.as_str(), file.name.as_str())?;
        }
        Ok(is_whole)
    }
}

impl<'a> Outputs for SystemOutputs<'a> {
    type File = PartSink<'a>;

    type Closed = ClosedFile<'a>;

    ghost made = { λ _. None };

    ghost closed = { λ _. None };

    fn create(&mut self, name: &str) -> Result<PartSink<'a>, OutputFault> {
        let made = self.make(name);
        let file = made.map_err(|error| self.noted(name, &error))?;
        let alloc = self.runtime.alloc();
        match BufWriter::with_capacity(alloc, HELD_BACK_OCTETS, file) {
            Ok(writer) => Ok(StdSink::new(writer)),
            Err(_) => Err(OutputFault::Memory),
        }
    }

    fn close(&mut self, name: &str, file: PartSink<'a>) -> Result<ClosedFile<'a>, OutputFault> {
        let mut file = file;
        if file.flush().is_err() {
            return Err(OutputFault::Failed);
        }
        let closed = self.closed(name, file);
        closed.map_err(|error| self.noted(name, &error))
    }

    fn place(&mut self, file: ClosedFile<'a>) -> Result<(), OutputFault> {
        match self.rename(&file) {
            Ok(true) => Ok(()),
            Ok(false) => {
                self.noted.changed(self.runtime.alloc(), file.name.as_str());
                Err(OutputFault::Failed)
            }
            Err(error) => Err(self.noted(file.name.as_str(), &error)),
        }
    }
}
