//! The arguments of a command. Each input is named by its file, or by `-`, which is standard input.
//! A clause sees the names as octets.

use crate::view::Subject;
use crate::ways::Ways;
use nm_base::{PartNo, SourceNo};
use nm_pcap::Form;

/// What the words of a trace file name.
#[derive(Clone, Copy)]
pub struct TraceArguments<'a> {
    pub form: Form,
    pub ways: Ways,
    /// The input with the topology text.
    pub topology: &'a str,
    /// The name of the interface, or `None`, which is interface 0.
    pub iface: Option<&'a str>,
}

/// What the words of `all` and of `verify` name.
#[derive(Clone, Copy)]
pub struct AllArguments<'a> {
    /// The input with the topology text.
    pub topology: &'a str,
    /// The folder of the trace files.
    pub folder: &'a str,
    /// The names of the interfaces; none stands for all of them.
    pub ifaces: &'a [String],
}

/// What the words of `path` name.
#[derive(Clone, Copy)]
pub struct PathArguments<'a> {
    /// The input with the topology text.
    pub topology: &'a str,
    /// The name of the node that sends the packet.
    pub node: &'a str,
    /// The destination: four numbers joined by dots.
    pub address: &'a str,
}

/// What the words of `series` name.
#[derive(Clone, Copy)]
pub struct SeriesArguments<'a> {
    /// The input with the topology text.
    pub topology: &'a str,
    /// How long a step is: 1 to 10^15 nanoseconds.
    pub step: u64,
    pub subject: Subject,
}

/// What the words of `packets` name.
#[derive(Clone, Copy)]
pub struct PacketsArguments<'a> {
    /// The input with the topology text.
    pub topology: &'a str,
    /// The number of the source: 0 to 1,023.
    pub source: SourceNo,
}

/// What the words of `run` name.
#[derive(Clone, Copy)]
pub struct RunArguments<'a> {
    /// The input with the topology text.
    pub topology: &'a str,
    /// The folder of its trace files.
    pub folder: &'a str,
    /// How many threads run books: 1 to 64.
    pub workers: u8,
    /// How many replicas each partition has: 1 or 2.
    pub replicas: u8,
    /// Whether the files of what the first replica of each partition knows are made too.
    pub keeps: bool,
}

/// What the words of `node` name.
#[derive(Clone, Copy)]
pub struct NodeArguments<'a> {
    /// The input with the topology text.
    pub topology: &'a str,
    /// The folder of its trace files.
    pub folder: &'a str,
    /// The partition: 0 to 63.
    pub partition: PartNo,
    /// The number of the replica: 0 or 1.
    pub replica: u8,
    /// The input with the addresses of the replicas.
    pub addresses: &'a str,
    /// Whether the file of what it knows is made too.
    pub keeps: bool,
}

/// What the words of `certify` name.
#[derive(Clone, Copy)]
pub struct CertifyArguments<'a> {
    /// The input with the topology text.
    pub topology: &'a str,
    /// How many partitions are worked on at a time: 1 to 64.
    pub workers: u8,
    /// The folders with the files, one at least.
    pub folders: &'a [String],
}
