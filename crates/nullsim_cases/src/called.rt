//! Cases of the program's words over files in memory, in the folders `check`, `rounds`, `runs`,
//! `script`, `shown` and `words`.
//!
//! `NAME.expect` has blocks of lines. Standard input is `NAME.toml`, and the files are those in
//! `data/files/`; a script `NAME.steps` beside it is the file `steps`. A block has
//!
//! - a line `words WORDS`; before `words` may stand `room N`, how many octets standard output takes,
//!   and `makes N`, how many files can be made;
//! - a line `status STATUS`, and a line `error LINE` with the line on standard error, `-` where there is
//!   none;
//! - where files were made, a line `made N`, and a line `other NAME` for each that has not the octets
//!   that `one` writes of its interface;
//! - what was written: after `octets` and in hexadecimal where it is a trace file, and after `cut`
//!   where its last line is not whole.

use crate::compare::{differs, push_line};
use crate::folder::names_in;
use crate::tally::Tally;
use crate::words::{
    Ended, Given, MAX_FILES, MAX_OUTPUT_OCTETS, expected_of, file_of, run_given, text_in,
};
use nm_files::mem_outputs::MemFile;
use nm_program::Runtime;
use std::alloc::Global;
use std::rt::Files;
use std::{fs, io};

/// A file that the program can read.
#[derive(Drop)]
struct Input {
    name: String,
    octets: Vec<u8>,
}

/// The script of a case, if it has one.
fn push_script<R: Files + AllocGlobal>(
    rt: &R,
    stem: &str,
    inputs: &mut Vec<Input>,
) -> io::Result<()> {
    let path = format!(in rt.alloc(); "{stem}.steps")?;
    if fs::metadata(rt, path.as_str()).is_ok() {
        let name = String::from_str(rt.alloc(), "steps")?;
        let octets = fs::read(rt, path.as_str())?;
        inputs.push(Input { name, octets })?;
    }
    Ok(())
}

/// The files that a case reads: its script, and all in `files/`.
fn inputs_of<R: Files + AllocGlobal + Clone + Drop>(rt: &R, stem: &str) -> io::Result<Vec<Input>> {
    let mut inputs = Vec::new(rt.alloc());
    push_script(rt, stem, &mut inputs)?;
    for name in names_in(rt, "files")? {
        let path = format!(in rt.alloc(); "files/{name}")?;
        let octets = fs::read(rt, path.as_str())?;
        inputs.push(Input { name, octets })?;
    }
    Ok(inputs)
}

/// The number after a word of a line, if it is there.
fn number_after(line: &str, name: &str, otherwise: usize) -> usize {
    let mut words = line.split_ascii_whitespace();
    while let Some(word) = words.next() {
        if word == name {
            let number = words
                .next()
                .and_then(|word| nm_base::number_of(word.as_bytes()));
            return number.map_or(otherwise, |number| number as usize);
        }
    }
    otherwise
}

/// The interface of a trace file in a folder.
fn iface_of(name: &str) -> Option<&str> {
    let (_, name) = name.rsplit_once('/')?;
    name.strip_suffix(".pcap")
}

/// Whether a file has the octets that `one` writes of its interface.
fn is_as_one<R: Runtime + AllocGlobal>(
    rt: &R,
    topology: &str,
    given: Given,
    file: &MemFile,
) -> io::Result<bool> {
    let Some(iface) = iface_of(file.name.as_str()) else {
        return Ok(false);
    };
    let given = Given {
        room: MAX_OUTPUT_OCTETS,
        ..given
    };
    let whole = run_given(rt, &["one", topology, iface], given)?;
    Ok(whole.code == 0 && whole.out.octets() == file.octets.as_slice())
}

/// Appends the lines of the files that were made.
fn push_files<R: Runtime + AllocGlobal>(
    rt: &R,
    found: &mut String,
    topology: &str,
    given: Given,
    files: &[MemFile],
) -> io::Result<()> {
    if files.is_empty() {
        return Ok(());
    }
    let line = format!(in rt.alloc(); "made {}", files.len())?;
    push_line(found, line.as_str())?;
    for file in files {
        if !is_as_one(rt, topology, given, file)? {
            let line = format!(in rt.alloc(); "other {}", file.name)?;
            push_line(found, line.as_str())?;
        }
    }
    Ok(())
}

/// Appends what was written.
fn push_written(alloc: Global, found: &mut String, octets: &[u8]) -> io::Result<()> {
    if octets.starts_with(&[0x4d, 0x3c]) {
        let digits = hex::encode(alloc, octets)?;
        let line = format!(in alloc; "octets {digits}")?;
        return Ok(push_line(found, line.as_str())?);
    }
    let Ok(text) = str::from_utf8(octets) else {
        return Err(io::Error::other("what was written is no text"));
    };
    if text.is_empty() || text.ends_with('\n') {
        return Ok(found.push_str(text)?);
    }
    let line = format!(in alloc; "cut {text}")?;
    Ok(push_line(found, line.as_str())?)
}

/// Appends what a run of the program did.
fn push_ended<R: Runtime + AllocGlobal>(
    rt: &R,
    found: &mut String,
    topology: &str,
    given: Given,
    ended: &Ended,
) -> io::Result<()> {
    let error = text_in(&ended.errors)?;
    let error = if error.is_empty() { "-\n" } else { error };
    let head = format!(in rt.alloc(); "status {}\nerror {error}", ended.code)?;
    found.push_str(head.as_str())?;
    push_files(rt, found, topology, given, ended.files.as_slice())?;
    push_written(rt.alloc(), found, ended.out.octets())
}

/// Appends a block: what the program does with the words of this line, which follow `words`.
fn push_block<R: Runtime + AllocGlobal>(
    rt: &R,
    found: &mut String,
    line: &str,
    words: &str,
    given: Given,
) -> io::Result<()> {
    push_line(found, line)?;
    let words: Vec<&str> = words.split_ascii_whitespace().collect(rt.alloc())?;
    let ended = run_given(rt, words.as_slice(), given)?;
    let topology = words.get(1).copied().unwrap_or("-");
    push_ended(rt, found, topology, given, &ended)
}

/// What is before and after `words` in the first line of a block.
fn head_of(line: &str) -> Option<(&str, &str)> {
    if line.starts_with("words") || line.starts_with("room ") || line.starts_with("makes ") {
        return line.split_once("words");
    }
    None
}

/// What the words do that a case has.
fn blocks_found<R: Runtime + AllocGlobal>(
    rt: &R,
    given: Given,
    expected: &str,
) -> io::Result<String> {
    let mut found = String::new(rt.alloc());
    for line in expected.lines() {
        if let Some((before, words)) = head_of(line) {
            let given = Given {
                room: number_after(before, "room", given.room),
                makes: number_after(before, "makes", given.makes),
                ..given
            };
            push_block(rt, &mut found, line, words, given)?;
        }
    }
    Ok(found)
}

/// Files by their names.
fn files_of(alloc: Global, inputs: &[Input]) -> io::Result<Vec<(&str, &[u8])>> {
    let mut files = Vec::new(alloc);
    for input in inputs {
        files.push((input.name.as_str(), input.octets.as_slice()))?;
    }
    Ok(files)
}

/// What a case shows, with these files.
fn found_of<R: Runtime + AllocGlobal>(
    rt: &R,
    standard: &[u8],
    inputs: &[Input],
    expected: &str,
) -> io::Result<String> {
    let files = files_of(rt.alloc(), inputs)?;
    let given = Given {
        standard,
        files: files.as_slice(),
        room: MAX_OUTPUT_OCTETS,
        makes: MAX_FILES,
    };
    blocks_found(rt, given, expected)
}

/// What the case at a path shows.
fn found_at<R: Runtime + Files + AllocGlobal + Clone>(
    rt: &R,
    stem: &str,
    expected: &str,
) -> io::Result<String> {
    let inputs = inputs_of(rt, stem)?;
    let standard = file_of(rt, stem, ".toml")?;
    found_of(rt, &standard, &inputs, expected)
}

/// Runs the case of words at a path, which is without its end.
pub fn run_called_case<R: Runtime + Files + AllocGlobal + Print + Clone>(
    rt: &R,
    stem: &str,
) -> io::Result<Tally> {
    let expected = expected_of(rt, stem)?;
    let found = found_at(rt, stem, expected.as_str())?;
    let differs = differs(rt, stem, expected.as_str(), found.as_str())?;
    Ok(Tally::of_case(differs))
}
