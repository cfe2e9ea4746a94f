//! Replays of lists of steps, and rounds.
//!
//! | Command | Does and answers |
//! |---|---|
//! | `step STEP` | a step more, as a line of a script (docs/FORMATS.md) |
//! | `replay` | replays these steps: `ended`, or `nosuch K` or `memory K` at a step, and how many were answered |
//! | `line N` | line N, from 0, of the replay's report: `K ANSWER`, or a replica's line |
//! | `rounds MAX` | `done R` or `unfinished R`: the replicas are those of these rounds from now on |
//! | `broken OLD / NEW` | a replay and rounds of the text with NEW in the place of OLD: `refused N` each |

use crate::bench::Bench;
use crate::words::Words;
use nm_book::Book;
use nm_rounds::replay::replay;
use nm_rounds::rounds::{Rounds, run_rounds};
use nm_rounds::{ReplayEnd, ReplayFault, WorldReport, WorldStep};
use nm_script::{read_script, report_text};
use nm_topology::TopoFault;
use std::alloc::Global;
use std::io;

/// The steps of a script.
fn steps_of(alloc: Global, script: &str) -> io::Result<Vec<WorldStep>> {
    match read_script(alloc, script.as_bytes()) {
        Ok(steps) => Ok(steps),
        Err(_) => Err(io::Error::other("a line that is no step")),
    }
}

/// How a replay ended, and how many steps it answered.
fn ending_text(alloc: Global, report: &WorldReport) -> io::Result<String> {
    let count = report.answers.len();
    match report.ending {
        ReplayEnd::Ended => Ok(format!(in alloc; "ended {count}")?),
        ReplayEnd::NoSuch { step } => Ok(format!(in alloc; "nosuch {step} {count}")?),
        ReplayEnd::Memory { step } => Ok(format!(in alloc; "memory {step} {count}")?),
    }
}

/// The lines of a report.
fn lines_of(alloc: Global, report: &WorldReport) -> io::Result<String> {
    match String::from_utf8(report_text(alloc, report)?) {
        Ok(text) => Ok(text),
        Err(_) => Err(io::Error::other("a report that is no text")),
    }
}

/// Replays the steps that were gathered, and forgets them.
fn do_replay(bench: &mut Bench, alloc: Global) -> io::Result<String> {
    let steps = steps_of(alloc, bench.steps.as_str())?;
    bench.steps = String::new(alloc);
    match replay(alloc, bench.text.as_bytes(), &steps) {
        Ok(report) => {
            bench.report = lines_of(alloc, &report)?;
            ending_text(alloc, &report)
        }
        Err(_) => Err(io::Error::other("the text is refused")),
    }
}

/// A line of the last report.
fn line(bench: &Bench, alloc: Global, number: usize) -> io::Result<String> {
    match bench.report.lines().nth(number) {
        Some(line) => Ok(String::from_str(alloc, line)?),
        None => Ok(String::from_str(alloc, "none")?),
    }
}

/// The result of rounds, and their replicas.
fn outcome(alloc: Global, text: &str, max: u64) -> io::Result<(String, Vec<Book>)> {
    match run_rounds(alloc, text.as_bytes(), max.clamp(1, 1_000)) {
        Ok(Rounds::Done { rounds, books }) => Ok((format!(in alloc; "done {rounds}")?, books)),
        Ok(Rounds::Unfinished { rounds, books }) => {
            Ok((format!(in alloc; "unfinished {rounds}")?, books))
        }
        Err(TopoFault::Memory) => Err(io::Error::other("memory")),
        Err(TopoFault::Refused(refusal)) => {
            Ok((
                format!(in alloc; "refused {}", refusal.number())?,
                Vec::new(alloc),
            ))
        }
    }
}

/// Does at most so many rounds.
fn rounds(bench: &mut Bench, alloc: Global, max: u64) -> io::Result<String> {
    let (said, books) = outcome(alloc, bench.text.as_str(), max)?;
    bench.books = books;
    Ok(said)
}

/// The number that a replay of a text is refused with.
fn refusal(alloc: Global, text: &str) -> io::Result<u8> {
    match replay(alloc, text.as_bytes(), &[]) {
        Err(ReplayFault::Refused(refusal)) => Ok(refusal.number()),
        _ => Ok(0),
    }
}

/// What a line `broken OLD / NEW` answers.
pub fn broken(bench: &Bench, alloc: Global, rest: &str) -> io::Result<String> {
    let Some((old, new)) = rest.split_once(" / ") else {
        return Err(io::Error::other("a change has an old and a new piece"));
    };
    let text = bench.text.replace(alloc, old, new)?;
    let number = refusal(alloc, text.as_str())?;
    let (said, _) = outcome(alloc, text.as_str(), 1)?;
    Ok(format!(in alloc; "refused {number} {said}")?)
}

/// Adds a step to the script.
pub fn add_step(bench: &mut Bench, alloc: Global, step: &str) -> io::Result<String> {
    bench.steps.push_str(step)?;
    bench.steps.push('\n')?;
    Ok(String::from_str(alloc, "ok")?)
}

/// What a line about replays and rounds answers, or None if it is about something else.
pub fn answer(bench: &mut Bench, alloc: Global, words: Words) -> io::Result<Option<String>> {
    if words.is("replay") {
        return Ok(Some(do_replay(bench, alloc)?));
    }
    if words.is("line") {
        return Ok(Some(line(bench, alloc, words.index(1)?)?));
    }
    if words.is("rounds") {
        return Ok(Some(rounds(bench, alloc, words.number(1)?)?));
    }
    Ok(None)
}
