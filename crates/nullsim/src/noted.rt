//! What went wrong at the system, for further lines.

use nm_base::limits::MAX_INPUT_OCTETS;
use nm_program::Notes;
use std::alloc::{AllocError, Global};
use std::cell::Cell;
use std::io::{self, ErrorKind, Read, Write};
use std::sync::atomic::{AtomicBool, AtomicU64, Ordering};

/// How many numbers of errors there may be.
const CODES: u64 = 1 << 32;

/// The last error of the system at a file that was written, whichever thread wrote it.
#[derive(Drop)]
pub struct LastError {
    /// The number of the file, and below it that of the error; 0 if there was none.
    both: AtomicU64,
}

impl LastError {
    /// Notes an error at the file with this number.
    pub fn note(&self, file: u32, error: &io::Error) {
        let code = u32::try_from(error.raw_os_error().unwrap_or(0)).unwrap_or(0);
        if code != 0 {
            let both = u64::from(file) * CODES + u64::from(code);
            self.both.store(both, Ordering::Relaxed);
        }
    }

    /// The last one, with the number of its file, if there was any.
    pub fn last(&self) -> Option<(u64, io::Error)> {
        let both = self.both.load(Ordering::Relaxed);
        match i32::try_from(both % CODES) {
            Ok(code) if code != 0 => Some((both / CODES, io::Error::from_raw_os_error(code))),
            _ => None,
        }
    }
}

/// The file that failed last and why, whether standard output was closed at its other end, and
/// what the program notes.
#[derive(Drop)]
pub struct Noted {
    pub notes: Notes,
    pub writing: LastError,
    /// Whether what was read has more octets than an input may have.
    pub is_long: AtomicBool,
    file: Cell<Option<String>>,
    is_closed: Cell<bool>,
}

/// The sentence on a file.
fn text_of(alloc: Global, name: &str, error: &io::Error) -> Result<String, AllocError> {
    format!(in alloc; "{name}: {error}")
}

impl Noted {
    /// Nothing.
    pub fn new() -> Self {
        Noted {
            notes: Notes::new(),
            writing: LastError {
                both: AtomicU64::new(0),
            },
            is_long: AtomicBool::new(false),
            file: Cell::new(None),
            is_closed: Cell::new(false),
        }
    }

    /// Notes that a file failed. If memory is refused nothing is noted.
    pub fn file(&self, alloc: Global, name: &str, error: &io::Error) {
        self.file.set(text_of(alloc, name, error).ok());
    }

    /// Notes that a file is not what was written to it.
    pub fn changed(&self, alloc: Global, name: &str) {
        let text = format!(in alloc; "{name}: another process changed it while it was written");
        self.file.set(text.ok());
    }

    /// What was noted of a file.
    pub fn take_file(&self) -> Option<String> {
        self.file.take()
    }

    /// Whether nobody reads standard output any more.
    pub fn is_closed(&self) -> bool {
        self.is_closed.get()
    }
}

/// A writer of standard output that notes why it failed, and that its other end was closed, as by
/// `head`.
#[derive(Drop)]
pub struct NotedWriter<'a, W> {
    pub writer: W,
    pub alloc: Global,
    pub noted: &'a Noted,
}

impl<'a, W: Write> Write for NotedWriter<'a, W> {
    fn write(&mut self, octets: &[u8]) -> io::Result<usize> {
        let answer = self.writer.write(octets);
        if let Err(error) = &answer {
            if error.kind() == ErrorKind::BrokenPipe {
                self.noted.is_closed.set(true);
            }
            self.noted.file(self.alloc, "standard output", error);
        }
        answer
    }

    fn flush(&mut self) -> io::Result<()> {
        self.writer.flush()
    }
}

/// A reader that notes that it gave more octets than an input may have.
#[derive(Drop)]
pub struct NotedReader<'a, R> {
    pub reader: R,
    pub is_long: &'a AtomicBool,
    /// How many octets it gave.
    pub count: u64,
}

impl<'a, R: Read> Read for NotedReader<'a, R> {
    fn read(&mut self, octets: &mut [u8]) -> io::Result<usize> {
        let count = self.reader.read(octets)?;
        self.count = self.count.saturating_add(count as u64);
        if self.count > MAX_INPUT_OCTETS {
            self.is_long.store(true, Ordering::Relaxed);
        }
        Ok(count)
    }
}
