//! What a run or a node does, on standard error if the words ask for it.

use crate::meetings::Meetings;
use crate::watching::{Over, say_news};
use nm_command::Command;
use nm_progress::{Figures, Progress, ReplicaFigures, push_state, push_table};
use std::alloc::{AllocError, Global};
use std::io::Write;
use std::sync::Wait;
use std::time::Clock;

/// The further word of `run` and `node` that asks for figures.
const STATS: &str = "stats";

/// How many milliseconds pass between two looks at who works.
const MILLISECONDS_A_LOOK: u64 = 5;

/// How many looks pass between two lines of a node: a second.
const LOOKS_A_LINE: u64 = 200;

/// The index of the first further word of `run` or `node`.
fn first_further(words: &[String]) -> Option<usize> {
    match words.first()?.as_str() {
        "run" => Some(5),
        "node" => Some(6),
        _ => None,
    }
}

/// Whether figures are asked for. The word that asks is taken out of those of `run` or `node`.
pub fn take_stats(words: &mut Vec<String>) -> bool {
    let Some(first) = first_further(words.as_slice()) else {
        return false;
    };
    for number in first..words.len() {
        if words[number].as_str() == STATS {
            let _ = words.remove(number);
            return true;
        }
    }
    false
}

/// The replica of a node, for its line a second.
fn node_of<'a>(figures: &'a Figures, words: &[String]) -> Option<ReplicaFigures<'a>> {
    match Command::of(words) {
        Some(Command::Node(node)) => Some(figures.of(node.partition, node.replica)),
        _ => None,
    }
}

/// A line of a node.
fn line_of(alloc: Global, node: &ReplicaFigures<'_>) -> Result<Vec<u8>, AllocError> {
    let mut text = Vec::new(alloc);
    push_state(&mut text, node)?;
    Ok(text)
}

/// The table of a run.
fn table_of(alloc: Global, figures: &Figures) -> Result<Vec<u8>, AllocError> {
    let mut text = Vec::new(alloc);
    push_table(&mut text, figures)?;
    Ok(text)
}

/// Writes a text, if it was made. Errors are ignored: statistics are best effort.
fn tell<W: Write>(errors: &mut W, text: Result<Vec<u8>, AllocError>) {
    if let Ok(text) = text {
        let _ = errors.write_all(text.as_slice());
    }
}

/// Looks who works until all is over; prints how far a node is once a second, and at the end what
/// all did, if it has begun.
pub fn tell_figures<R: Wait + Clock, W: Write>(
    rt: &R,
    host: &HostRuntime,
    progress: &Progress,
    words: &[String],
    over: &Over,
    errors: &mut W,
) {
    let Some(figures) = progress.figures() else {
        return;
    };
    let (alloc, node) = (host.alloc(), node_of(figures, words));
    let mut meetings = Meetings::new(host, words);
    for looks in 1..u64::MAX {
        if over.wait(rt, MILLISECONDS_A_LOOK) {
            break;
        }
        figures.look();
        if let Some(node) = &node {
            if looks % LOOKS_A_LINE == 0 {
                say_news(&mut meetings, progress, false, errors);
                tell(errors, line_of(alloc, node));
            }
        }
    }
    if progress.look().stop > 0 {
        tell(errors, table_of(alloc, figures));
    }
}
