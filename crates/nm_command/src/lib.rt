//! The command line of nullsim: its words, its statuses and its fault lines.
#![tactic(auto)]

pub mod arguments;
pub mod command;
pub mod laws;
pub mod status;
pub mod view;
pub mod ways;

pub use arguments::{
    AllArguments, CertifyArguments, NodeArguments, PacketsArguments, PathArguments, RunArguments,
    SeriesArguments, TraceArguments,
};
pub use command::Command;
pub use nm_pcap::Form;
pub use status::Status;
pub use view::{Subject, View};
pub use ways::Ways;
