//! The program, run in memory.

use nm_base::MemSink;
use nm_files::MemOutputs;
use nm_files::mem_outputs::MemFile;
use nm_program::{Means, MemInputs, NamedInputs, Notes, Runtime, run};
use nm_progress::Progress;
use std::alloc::Global;
use std::rt::Files;
use std::{fs, io};

/// The greatest number of octets that a case writes.
pub const MAX_OUTPUT_OCTETS: usize = 1_048_576;

/// The most files that a case makes, and the greatest number of octets of one.
pub const MAX_FILES: usize = 64;

const MAX_FILE_OCTETS: usize = 65_536;

/// The greatest number of octets on standard error.
const MAX_ERROR_OCTETS: usize = 64;

/// No file.
const NO_FILES: &[(&str, &[u8])] = &[];

/// What a run of the program is given: standard input, the files by their names, how many octets
/// standard output takes, and how many files can be made.
#[derive(Clone, Copy)]
pub struct Given<'a> {
    pub standard: &'a [u8],
    pub files: &'a [(&'a str, &'a [u8])],
    pub room: usize,
    pub makes: usize,
}

/// What a run of the program did: its exit status, what it wrote, its line on standard error, and
/// the files that it made.
#[derive(Drop)]
pub struct Ended {
    pub code: u8,
    pub out: MemSink,
    pub errors: MemSink,
    pub files: Vec<MemFile>,
}

/// The text that a sink took.
pub fn text_in(sink: &MemSink) -> io::Result<&str> {
    str::from_utf8(sink.octets()).map_err(|_| io::Error::other("what was written is no text"))
}

/// Words, each a text of its own.
fn owned(alloc: Global, words: &[&str]) -> io::Result<Vec<String>> {
    let mut owned = Vec::new(alloc);
    for word in words {
        owned.push(String::from_str(alloc, word)?)?;
    }
    Ok(owned)
}

/// Runs the program with these words: its exit status, and standard output.
fn run_program<R: Runtime + AllocGlobal>(
    rt: &R,
    words: &[String],
    given: Given,
    outputs: &mut MemOutputs,
    out: MemSink,
    errors: &mut MemSink,
) -> (u8, MemSink) {
    let mut inputs = NamedInputs::new(MemInputs {
        standard: given.standard,
        files: given.files,
    });
    let (progress, notes) = (Progress::new(), Notes::new());
    let means = Means {
        rt,
        alloc: rt.alloc(),
        progress: &progress,
        notes: &notes,
    };
    let (status, out) = run(&means, words, &mut inputs, outputs, out, errors);
    (status.code(), out)
}

/// Runs the program with these words.
pub fn run_given<R: Runtime + AllocGlobal>(
    rt: &R,
    words: &[&str],
    given: Given,
) -> io::Result<Ended> {
    let alloc = rt.alloc();
    let words = owned(alloc, words)?;
    let out = MemSink::new(alloc, given.room)?;
    let mut errors = MemSink::new(alloc, MAX_ERROR_OCTETS)?;
    let mut outputs = MemOutputs {
        alloc,
        file_octets: MAX_FILE_OCTETS,
        room: given.makes,
        places: given.makes,
        files: Vec::new(alloc),
    };
    let (code, out) = run_program(rt, &words, given, &mut outputs, out, &mut errors);
    Ok(Ended {
        code,
        out,
        errors,
        files: outputs.files,
    })
}

/// Runs the program with these words. Standard input has the topology; there is no file.
pub fn run_words<R: Runtime + AllocGlobal>(
    rt: &R,
    words: &[&str],
    topology: &[u8],
) -> io::Result<Ended> {
    let given = Given {
        standard: topology,
        files: NO_FILES,
        room: MAX_OUTPUT_OCTETS,
        makes: MAX_FILES,
    };
    run_given(rt, words, given)
}

/// The octets of the file of a case that ends with this.
pub fn file_of<R: Files + AllocGlobal>(rt: &R, stem: &str, end: &str) -> io::Result<Vec<u8>> {
    let path = format!(in rt.alloc(); "{stem}{end}")?;
    fs::read(rt, path.as_str())
}

/// The lines that a case expects.
pub fn expected_of<R: Files + AllocGlobal>(rt: &R, stem: &str) -> io::Result<String> {
    let path = format!(in rt.alloc(); "{stem}.expect")?;
    fs::read_to_string(rt, path.as_str())
}
