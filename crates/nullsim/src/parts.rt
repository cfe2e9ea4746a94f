//! Parts: files while they are written. Each is made new under a name that nobody else has, and is
//! locked as long as its process has it open, so that parts of a killed process can be told from
//! those that another one writes.

use crate::noted::LastError;
use std::alloc::{AllocError, Global};
use std::fs::{self, DirEntry, File, Metadata, TryLockError};
use std::io::{self, ErrorKind, Write};
use std::os::unix::fs::MetadataExt;
use std::random::RandomSource;

/// The end of a file's name before the letters of its part: of a trace file, and of one of what a
/// replica knows.
const PARTS: [&str; 2] = [".pcap.part-", ".known.part-"];

/// How many letters are drawn for the parts of a process.
const LETTERS: usize = 10;

/// How often a part is made again after another process took it for one that was left.
const MAX_TRIES: usize = 16;

/// The letters of the parts of a process: it is as good as sure that nobody else has drawn the
/// same.
#[derive(Clone, Copy)]
pub struct Letters {
    letters: [u8; LETTERS],
}

impl Letters {
    /// Letters drawn at random.
    ///
    /// # Errors
    ///
    /// If the system has no random octets.
    pub fn draw(runtime: &HostRuntime) -> io::Result<Letters> {
        let mut letters = [0u8; LETTERS];
        runtime.fill_bytes(&mut letters)?;
        for letter in &mut letters {
            *letter = b'a' + *letter % 26;
        }
        Ok(Letters { letters })
    }
}

/// The name of the part of a file.
pub fn part_of(alloc: Global, name: &str, letters: &Letters) -> Result<String, AllocError> {
    let mut part = String::from_str(alloc, name)?;
    part.push_str(".part-")?;
    for letter in letters.letters {
        part.push(char::from(letter))?;
    }
    Ok(part)
}

/// Whether these are the letters of a part.
fn are_letters(letters: &str) -> bool {
    let letters = letters.as_bytes();
    letters.len() == LETTERS && letters.iter().all(|letter| letter.is_ascii_lowercase())
}

/// Whether a file of this name is a part.
fn is_part(name: &str) -> bool {
    for part in PARTS {
        if let Some((_, letters)) = name.rsplit_once(part) {
            return are_letters(letters);
        }
    }
    false
}

/// A part that is open, how many octets the system took of it, its number, and a note of why the
/// system took no more.
#[derive(Drop)]
pub struct PartFile<'a> {
    file: File,
    count: u64,
    number: u32,
    writing: &'a LastError,
}

impl<'a> Write for PartFile<'a> {
    fn write(&mut self, octets: &[u8]) -> io::Result<usize> {
        match self.file.write(octets) {
            Ok(taken) => {
                self.count = self.count.saturating_add(taken as u64);
                Ok(taken)
            }
            Err(error) => {
                self.writing.note(self.number, &error);
                Err(error)
            }
        }
    }

    fn flush(&mut self) -> io::Result<()> {
        self.file.flush()
    }
}

/// Whether a part that was made is locked now and still has its name. If the file system has no
/// locks, nobody removes one.
fn is_kept(file: &File) -> bool {
    match file.try_lock() {
        Ok(()) => match file.metadata() {
            Ok(found) => found.nlink() > 0,
            Err(_) => false,
        },
        Err(TryLockError::WouldBlock) => false,
        Err(TryLockError::Error(_)) => true,
    }
}

/// Whether both are of one file.
fn is_same(one: &Metadata, other: &Metadata) -> bool {
    one.dev() == other.dev() && one.ino() == other.ino()
}

impl<'a> PartFile<'a> {
    /// Makes a part of this name. A file or a link that is there is not written.
    ///
    /// # Errors
    ///
    /// What the system refused.
    pub fn make(
        runtime: &HostRuntime,
        part: &str,
        number: u32,
        writing: &'a LastError,
    ) -> io::Result<PartFile<'a>> {
        for _ in 0..MAX_TRIES {
            let file = File::create_new(runtime, part)?;
            if is_kept(&file) {
                return Ok(PartFile {
                    file,
                    count: 0,
                    number,
                    writing,
                });
            }
            let _ = fs::remove_file(runtime, part);
        }
        Err(io::Error::from(ErrorKind::ResourceBusy))
    }

    /// Whether the file of this name is the one that was written, and has as many octets.
    ///
    /// # Errors
    ///
    /// What the system refused.
    pub fn is_whole_at(&self, runtime: &HostRuntime, part: &str) -> io::Result<bool> {
        let own = self.file.metadata()?;
        let named = fs::symlink_metadata(runtime, part)?;
        Ok(named.is_file() && is_same(&own, &named) && own.len() == self.count)
    }
}

/// Removes a part that no process has open.
fn remove_left(runtime: &HostRuntime, entry: &DirEntry<HostRuntime>) -> io::Result<()> {
    let named = entry.metadata()?;
    if !named.is_file() {
        return Ok(());
    }
    let file = File::open(runtime, entry.path())?;
    let own = file.metadata()?;
    if is_same(&own, &named) && file.try_lock().is_ok() {
        fs::remove_file(runtime, entry.path())?;
    }
    Ok(())
}

/// Removes the parts of a folder that killed processes left. What cannot be removed stays.
pub fn clean(runtime: &HostRuntime, folder: &str) {
    let Ok(entries) = fs::read_dir(runtime, folder) else {
        return;
    };
    for entry in entries {
        if let Ok(entry) = entry {
            if is_part(entry.file_name()) {
                let _ = remove_left(runtime, &entry);
            }
        }
    }
}
