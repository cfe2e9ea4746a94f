//! A run of the program in memory.

use nm_base::MemSink;
use nm_command::Status;
use nm_files::MemOutputs;
use nm_files::mem_outputs::MemFile;
use nm_program::{Inputs, Means, NamedInputs, Notes, Runtime, run};
use nm_progress::Progress;
use std::alloc::{AllocError, Global};
use std::io;

/// The words of a line.
fn words_of(alloc: Global, line: &str) -> Result<Vec<String>, AllocError> {
    let mut words = Vec::new(alloc);
    for word in line.split_whitespace() {
        words.push(String::from_str(alloc, word)?)?;
    }
    Ok(words)
}

/// What the program did: its status, what it wrote, its line on standard error, and the files that
/// it made.
#[derive(Drop)]
pub struct Ended {
    pub status: Status,
    pub out: MemSink,
    pub errors: MemSink,
    pub files: Vec<MemFile>,
}

impl Ended {
    /// The octets of a file that it made; none if it made fewer files.
    pub fn file(&self, number: usize) -> &[u8] {
        match self.files.get(number) {
            Some(file) => file.octets.as_slice(),
            None => &[],
        }
    }
}

/// The first octets of a list.
pub fn front(octets: &[u8], count: usize) -> &[u8] {
    let count = count.min(octets.len());
    &octets[..count]
}

/// Those behind them.
pub fn behind(octets: &[u8], count: usize) -> &[u8] {
    let count = count.min(octets.len());
    &octets[count..]
}

/// Changes one octet of a list.
pub fn change(octets: &mut Vec<u8>, at: usize) {
    if let Some(octet) = octets.get_mut(at) {
        *octet ^= 1;
    }
}

/// Runs the program on the words of a line and inputs. So many files can be made.
pub fn run_line<I: Inputs + Drop, R: AllocGlobal + Runtime>(
    rt: &R,
    line: &str,
    inputs: I,
    room: usize,
) -> io::Result<Ended>
where
    I::File: Send,
{
    let alloc = rt.alloc();
    let words = words_of(alloc, line)?;
    let mut inputs = NamedInputs::new(inputs);
    let mut outputs = MemOutputs {
        alloc,
        file_octets: 1_000,
        room,
        places: room,
        files: Vec::new(alloc),
    };
    let out = MemSink::new(alloc, 1_000)?;
    let mut errors = MemSink::new(alloc, 64)?;
    let (progress, notes) = (Progress::new(), Notes::new());
    let means = Means {
        rt,
        alloc,
        progress: &progress,
        notes: &notes,
    };
    let (status, out) = run(
        &means,
        words.as_slice(),
        &mut inputs,
        &mut outputs,
        out,
        &mut errors,
    );
    Ok(Ended {
        status,
        out,
        errors,
        files: outputs.files,
    })
}
