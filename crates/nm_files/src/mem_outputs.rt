//! Files in memory.

ghost use Rattle.std.specs.Prelude.{◌≡◌, Some, map, string_bytes};

use crate::outputs::{OutputFault, Outputs};
use nm_base::{MemSink, Sink};
use std::alloc::Global;

/// A file in memory, with its name.
#[derive(Drop)]
pub struct MemFile {
    pub name: String,
    pub octets: Vec<u8>,
}

/// Files in memory that take so many octets each. No more than `room` can be made.
#[derive(Drop)]
pub struct MemOutputs {
    pub alloc: Global,
    /// The greatest number of octets of a file.
    pub file_octets: usize,
    /// How many files more may be made.
    pub room: usize,
    /// How many files more may be placed.
    pub places: usize,
    /// The files that were placed, in order.
    pub files: Vec<MemFile>,
}

impl Outputs for MemOutputs {
    ghost use Rattle.std.specs.Prelude.{Some, map, string_bytes};

    type File = MemSink;

    type Closed = MemFile;

    ghost made = { λ m. Some (map (λ f. (string_bytes f.name, f.octets.items)) m.files.items) };

    ghost closed = { λ f. Some (string_bytes f.name, f.octets.items) };

    fn create(&mut self, _name: &str) -> Result<MemSink, OutputFault> {
        if self.room == 0 {
            return Err(OutputFault::Failed);
        }
        self.room -= 1;
        MemSink::new(self.alloc, self.file_octets).or(Err(OutputFault::Memory))
    }

    fn close(&mut self, name: &str, file: MemSink) -> Result<MemFile, OutputFault> {
        let Ok(octets) = file.octets().to_vec(self.alloc) else {
            return Err(OutputFault::Memory);
        };
        let Ok(name) = String::from_str(self.alloc, name) else {
            return Err(OutputFault::Memory);
        };
        Ok(MemFile { name, octets })
    }

    fn place(&mut self, file: MemFile) -> Result<(), OutputFault> {
        if self.places == 0 {
            return Err(OutputFault::Failed);
        }
        self.places -= 1;
        match self.files.push(file) {
            Ok(()) => Ok(()),
            Err(_) => Err(OutputFault::Memory),
        }
    }
}
