//! What is wrong with words that are no command, or that ask for what is not there, for further
//! lines.

use crate::addresses::address_fault;
use crate::help::form_of;
use crate::rereading::read_network;
use nm_base::limits::{
    MAX_PARTITION, MAX_REPLICA, MAX_REPLICAS, MAX_ROUNDS, MAX_SOURCE, MAX_TIME, MAX_WORKERS,
};
use nm_base::number_of;
use nm_check::nearest::nearest;
use nm_command::{Command, NodeArguments, PacketsArguments, PathArguments};
use nm_topology::Topology;
use std::alloc::{AllocError, Global};
use std::io;

/// A number that a command takes: its index among the words, and its range.
struct NumberWord {
    word: &'static str,
    place: usize,
    name: &'static str,
    least: u64,
    greatest: u64,
    unit: &'static str,
}

/// The numbers of all commands.
const NUMBERS: &[NumberWord] = &[
    NumberWord {
        word: "rounds",
        place: 2,
        name: "MAX",
        least: 1,
        greatest: MAX_ROUNDS,
        unit: "",
    },
    NumberWord {
        word: "series",
        place: 2,
        name: "STEP",
        least: 1,
        greatest: MAX_TIME,
        unit: " nanoseconds",
    },
    NumberWord {
        word: "packets",
        place: 2,
        name: "SOURCE",
        least: 0,
        greatest: MAX_SOURCE,
        unit: "",
    },
    NumberWord {
        word: "run",
        place: 3,
        name: "WORKERS",
        least: 1,
        greatest: MAX_WORKERS,
        unit: "",
    },
    NumberWord {
        word: "run",
        place: 4,
        name: "REPLICAS",
        least: 1,
        greatest: MAX_REPLICAS as u64,
        unit: "",
    },
    NumberWord {
        word: "node",
        place: 3,
        name: "PARTITION",
        least: 0,
        greatest: MAX_PARTITION,
        unit: "",
    },
    NumberWord {
        word: "node",
        place: 4,
        name: "REPLICA",
        least: 0,
        greatest: MAX_REPLICA,
        unit: "",
    },
    NumberWord {
        word: "certify",
        place: 2,
        name: "WORKERS",
        least: 1,
        greatest: MAX_WORKERS,
        unit: "",
    },
];

/// All first words.
const WORDS: &[&str] = &[
    "one", "onehex", "sent", "received", "all", "verify", "check", "report", "series", "packets",
    "text", "path", "dot", "run", "node", "certify", "rounds", "script", "help",
];

/// Which of the known words may have been meant, as the end of a sentence.
fn meant(alloc: Global, word: &str, known: &[&str]) -> Result<String, AllocError> {
    match nearest(word, known) {
        Some(found) => match found.next {
            Some(next) => format!(in alloc; "; did you mean {:?} or {next:?}?", found.first),
            None => format!(in alloc; "; did you mean {:?}?", found.first),
        },
        None => Ok(String::new(alloc)),
    }
}

/// The number among the words that is none, or none of those that it may be.
fn wrong_number(words: &[String]) -> Option<&'static NumberWord> {
    let first = words.first()?;
    for number in NUMBERS {
        if number.word != first.as_str() {
            continue;
        }
        let word = words.get(number.place)?;
        let is_right = match number_of(word.as_bytes()) {
            Some(found) => found >= number.least && found <= number.greatest,
            None => false,
        };
        if !is_right {
            return Some(number);
        }
    }
    None
}

/// That there is no node of the name, or no address that a packet may be sent to.
fn path_fault(
    alloc: Global,
    topology: &Topology,
    words: &PathArguments<'_>,
) -> Result<String, AllocError> {
    let mut names = Vec::new(alloc);
    for node in topology.nodes() {
        if node.name() == words.node {
            return format!(in alloc; "{:?} is no address of a node, A.B.C.D", words.address);
        }
        names.push(node.name())?;
    }
    let found = meant(alloc, words.node, names.as_slice())?;
    format!(in alloc; "there is no node {:?}{found}", words.node)
}

/// That there is no source of the number.
fn packets_fault(
    alloc: Global,
    topology: &Topology,
    words: &PacketsArguments<'_>,
) -> Result<String, AllocError> {
    let (number, count) = (words.source.number(), topology.sources().len());
    format!(in alloc; "there is no source {number}: the topology has {count}, numbered from 0")
}

/// That there is no partition of the number, or what is wrong with the list of addresses.
fn node_fault(
    rt: &HostRuntime,
    topology: &Topology,
    words: &NodeArguments<'_>,
) -> io::Result<String> {
    let (alloc, count) = (rt.alloc(), topology.partitions());
    let number = words.partition.number();
    if number >= count {
        return Ok(format!(in alloc;
            "there is no partition {number}: the topology has {count}, numbered from 0"
        )?);
    }
    address_fault(rt, topology, words)
}

/// What a command asks for that is not there.
fn missing(rt: &HostRuntime, command: &Command<'_>) -> io::Result<Option<String>> {
    let alloc = rt.alloc();
    match command {
        Command::Path(words) => {
            let topology = read_network(rt, words.topology)?;
            Ok(Some(path_fault(alloc, &topology, words)?))
        }
        Command::Packets(words) => {
            let topology = read_network(rt, words.topology)?;
            Ok(Some(packets_fault(alloc, &topology, words)?))
        }
        Command::Node(words) => {
            let topology = read_network(rt, words.topology)?;
            Ok(Some(node_fault(rt, &topology, words)?))
        }
        _ => Ok(None),
    }
}

/// What is wrong with the words, in a sentence, if it is known.
///
/// # Errors
///
/// If an input cannot be read again, or memory was refused.
pub fn usage_fault(rt: &HostRuntime, words: &[String]) -> io::Result<Option<String>> {
    let alloc = rt.alloc();
    let Some(first) = words.first() else {
        return Ok(None);
    };
    if !WORDS.contains(&first.as_str()) {
        let found = meant(alloc, first.as_str(), WORDS)?;
        return Ok(Some(format!(in alloc; "there is no word {:?}{found}", first.as_str())?));
    }
    if let Some(number) = wrong_number(words) {
        let word = match words.get(number.place) {
            Some(word) => word.as_str(),
            None => "",
        };
        let (name, least, greatest) = (number.name, number.least, number.greatest);
        let unit = number.unit;
        return Ok(Some(format!(in alloc;
            "{name} is {word:?}, and is a whole number from {least} to {greatest}{unit}"
        )?));
    }
    if let Some(command) = Command::of(words) {
        return missing(rt, &command);
    }
    match form_of(first.as_str()) {
        Some(form) => Ok(Some(format!(in alloc; "the form is: {form}")?)),
        None => Ok(None),
    }
}
