//! Where files go.

ghost use Rattle.std.specs.Prelude.{◌≡◌, ℕ, List, Option, IfErr, IfOk, OnOk};
ghost use Rattle.nm_files.specs.declared.outputs.OutputFault.TheVariants.{Memory};

use nm_base::Sink;
use std::alloc::{AllocError, AllocFailed};
use thiserror::Error;

/// Why a file was not made, closed or placed.
#[derive(Clone, Copy, Debug, PartialEq, Eq, Error)]
pub enum OutputFault {
    /// The system refused it, or did not take all that was written.
    #[error("the file failed")]
    Failed,
    /// Memory was refused.
    #[error("out of memory")]
    Memory,
}

impl From<AllocError> for OutputFault {
    ghost from_gives = { λ _ fault. fault ≡ Memory };

    fn from(_: AllocError) -> Self {
        OutputFault::Memory
    }
}

impl<T: Drop> From<AllocFailed<T>> for OutputFault {
    ghost from_gives = { λ _ fault. fault ≡ Memory };

    fn from(_: AllocFailed<T>) -> Self {
        OutputFault::Memory
    }
}

/// Files that are made, or replaced, by their names. A file is written and closed beside its name,
/// and placed after that: until then what had the name before stays.
pub trait Outputs {
    ghost use Rattle.nm_files.specs.Outputs.{HasPlaced, IsClosed, IsEmpty};

    /// A file that is written.
    type File: Sink + Drop;
    /// A file that was closed, and does not have its name yet. Dropped, it never gets it.
    type Closed: Drop;

    // The files that were placed so far, with their names and octets, if it is known.
    ghost made: { Self → Option (List (List ℕ × List ℕ)) };

    // The name that a closed file is to have, and its octets, if it is known.
    ghost closed: { Self.Closed → Option (List ℕ × List ℕ) };

    /// Makes an empty file that is to have this name.
    ///
    /// # Errors
    ///
    /// `Failed` if the system refused it, `Memory` if memory was refused.
    fn create(&mut self, name: &str) -> Result<Self::File, OutputFault>
        ensures empty { IfOk result
            (λ file. IsEmpty (made self.old) (Self.File.seen file).taken) }
        ensures same { made self.new ≡ made self.old };

    /// Closes a file that was made with this name, and has all that it took.
    ///
    /// # Errors
    ///
    /// `Failed` if the system did not take all, `Memory` if memory was refused.
    fn close(&mut self, name: &str, file: Self::File) -> Result<Self::Closed, OutputFault>
        ensures whole { IfOk result
            (λ c. IsClosed name.now (Self.File.seen file).taken (closed c)) }
        ensures same { made self.new ≡ made self.old };

    /// Gives a closed file its name, in place of what had it.
    ///
    /// # Errors
    ///
    /// `Failed` if the system refused it, `Memory` if memory was refused: what had the name stays.
    fn place(&mut self, file: Self::Closed) -> Result<(), OutputFault>
        ensures placed { OnOk result (HasPlaced (made self.old) (made self.new) (closed file)) }
        ensures kept { IfErr result (λ _. made self.new ≡ made self.old) };
}
