//! Trace files: their folder, their names, their contents, and whether existing ones have these.
#![tactic(auto)]

pub mod checked_file;
pub mod checked_files;
pub mod closed_files;
pub mod folder;
pub mod least_checked;
pub mod mem_outputs;
pub mod names;
pub mod outputs;
pub mod trace_file;
pub mod trace_files;

pub use checked_file::{CheckCause, CheckFault, CheckedFile, ReadFailed, ReadFault};
pub use checked_files::CheckedFiles;
pub use closed_files::{ClosedFiles, place_all, place_each};
pub use folder::{Choice, Folder};
pub use least_checked::{Difference, LeastChecked};
pub use mem_outputs::MemOutputs;
pub use outputs::{OutputFault, Outputs};
pub use trace_files::{FileFault, FilesFault, TraceFiles};
