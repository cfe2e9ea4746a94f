//! Why a file, a folder, an input or an address failed, for further lines.

use crate::addresses::{listening_fault, neighbours_of};
use crate::meetings::Meetings;
use crate::noted::Noted;
use nm_base::limits::MAX_INPUT_OCTETS;
use nm_command::{Command, NodeArguments};
use nm_progress::Progress;
use std::alloc::{AllocError, Global};
use std::net::Net;
use std::sync::atomic::Ordering;
use std::{fs, io};

/// The words with a folder as their third.
const OF_FOLDERS: [&str; 4] = ["all", "verify", "run", "node"];

/// Why a name is that of no input, if it is none: it is a folder, or has too many octets.
fn input_fault(rt: &HostRuntime, name: &str) -> Result<Option<String>, AllocError> {
    let alloc = rt.alloc();
    let Ok(found) = fs::metadata(rt, name) else {
        return Ok(None);
    };
    if found.is_dir() {
        return Ok(Some(format!(in alloc; "{name}: is a folder")?));
    }
    let octets = found.len();
    if octets <= MAX_INPUT_OCTETS {
        return Ok(None);
    }
    Ok(Some(format!(in alloc;
        "{name}: has {octets} octets, and an input may have {MAX_INPUT_OCTETS}"
    )?))
}

/// The inputs that words name.
fn inputs_of<'a>(alloc: Global, words: &'a [String]) -> Result<Vec<&'a str>, AllocError> {
    let mut inputs = Vec::new(alloc);
    let places: &[usize] = match words.first() {
        Some(word) if word.as_str() == "script" => &[1, 2],
        Some(word) if word.as_str() == "node" => &[1, 5],
        _ => &[1],
    };
    for place in places {
        if let Some(name) = words.get(*place) {
            inputs.push(name.as_str())?;
        }
    }
    Ok(inputs)
}

/// The input that gave more octets than it may have, if one did. The words that read trace files,
/// which may be longer, have none.
fn long_input(words: &[String]) -> Option<&str> {
    let [word, topology, ..] = words else {
        return None;
    };
    match word.as_str() {
        "verify" | "certify" => None,
        "script" | "node" => Some("an input"),
        _ if topology.as_str() == "-" => Some("standard input"),
        _ => Some(topology.as_str()),
    }
}

/// Why a folder or an input of the words is none, if one is not.
fn words_fault(rt: &HostRuntime, words: &[String]) -> Result<Option<String>, AllocError> {
    let alloc = rt.alloc();
    if let [word, _, folder, ..] = words {
        if folder.is_empty() && OF_FOLDERS.contains(&word.as_str()) {
            return Ok(Some(format!(in alloc; "DIR is empty")?));
        }
    }
    for name in inputs_of(alloc, words)?.iter() {
        let fault = input_fault(rt, *name)?;
        if fault.is_some() {
            return Ok(fault);
        }
    }
    Ok(None)
}

/// The words of a node, if they are.
fn node_of<'a>(words: &'a [String]) -> Option<NodeArguments<'a>> {
    match Command::of(words) {
        Some(Command::Node(words)) => Some(words),
        _ => None,
    }
}

/// Why a file, a folder, an input or an address failed, if that is known.
///
/// # Errors
///
/// If an input cannot be read again, or memory was refused.
pub fn file_reason<N: Net>(
    rt: &HostRuntime,
    system: &N,
    words: &[String],
    noted: &Noted,
) -> io::Result<Option<String>> {
    if let Some(text) = noted.take_file() {
        return Ok(Some(text));
    }
    let fault = words_fault(rt, words)?;
    if fault.is_some() {
        return Ok(fault);
    }
    if noted.is_long.load(Ordering::Relaxed) {
        if let Some(name) = long_input(words) {
            let alloc = rt.alloc();
            return Ok(Some(format!(in alloc;
                "{name}: has more than {MAX_INPUT_OCTETS} octets, and an input may have so many"
            )?));
        }
    }
    match node_of(words) {
        Some(words) => listening_fault(rt, system, &words),
        None => Ok(None),
    }
}

/// Why a node was stalled, if that is known.
///
/// # Errors
///
/// If an input cannot be read again, or memory was refused.
pub fn stalled_reason(
    rt: &HostRuntime,
    words: &[String],
    progress: &Progress,
) -> io::Result<Option<String>> {
    let found = Meetings::new(rt, words).stalled(progress)?;
    if found.is_some() {
        return Ok(found);
    }
    match node_of(words) {
        Some(words) => neighbours_of(rt, &words),
        None => Ok(None),
    }
}
