//! The certificate of a run on several machines. The file of what a replica of each partition knew
//! is read into a fresh book, the book is run beside the partition's trace files, and all books are
//! certified. Then each file is the one event list's, whoever wrote it.
#![tactic(auto)]

mod books;
pub mod certify;
pub mod fault;
mod part;
pub mod part_files;
mod parts;
mod running;

pub use certify::certify_parts;
pub use fault::{CertifyCause, CertifyFault, unread};
pub use part_files::PartFiles;
