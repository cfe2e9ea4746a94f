//! Runs the cases.

use crate::bench::Bench;
use crate::words::Words;
use crate::{books, certificates, drains, links, replays, sessions, streams, talks};
use std::alloc::Global;
use std::fs::DirEntry;
use std::rt::Files;
use std::sync::Wait;
use std::{fs, io};

/// How many lines were run, and how many were answered otherwise.
#[derive(Clone, Copy)]
struct Tally {
    ran: u64,
    differing: u64,
}

/// The words of a command.
fn words_of<'t>(alloc: Global, text: &'t str) -> io::Result<Vec<&'t str>> {
    Ok(text.split_ascii_whitespace().collect(alloc)?)
}

/// The first answer that there is.
fn first_answer<R: AllocGlobal + Wait>(
    rt: &R,
    bench: &mut Bench,
    words: Words,
) -> io::Result<String> {
    let alloc = rt.alloc();
    if let Some(said) = books::answer(bench, alloc, words)? {
        return Ok(said);
    }
    if let Some(said) = certificates::answer(bench, alloc, words)? {
        return Ok(said);
    }
    if let Some(said) = drains::answer(bench, alloc, words)? {
        return Ok(said);
    }
    if let Some(said) = replays::answer(bench, alloc, words)? {
        return Ok(said);
    }
    if let Some(said) = streams::answer(alloc, words)? {
        return Ok(said);
    }
    if let Some(said) = sessions::answer(bench, alloc, words)? {
        return Ok(said);
    }
    if let Some(said) = links::answer(rt, bench, alloc, words)? {
        return Ok(said);
    }
    match talks::answer(bench, alloc, words)? {
        Some(said) => Ok(said),
        None => Err(io::Error::other("no command")),
    }
}

/// What a command answers.
fn answer<R: AllocGlobal + Wait>(rt: &R, bench: &mut Bench, command: &str) -> io::Result<String> {
    let alloc = rt.alloc();
    if let Some(rest) = command.strip_prefix("change ") {
        return certificates::change(bench, alloc, rest);
    }
    if let Some(rest) = command.strip_prefix("broken ") {
        return replays::broken(bench, alloc, rest);
    }
    if let Some(step) = command.strip_prefix("step ") {
        return replays::add_step(bench, alloc, step);
    }
    if let Some(rest) = command.strip_prefix("other ") {
        return certificates::other(bench, alloc, rest);
    }
    let words = words_of(alloc, command)?;
    first_answer(rt, bench, Words::new(&words))
}

/// A line's command, and what it is to answer.
fn parts_of(line: &str) -> (&str, &str) {
    match line.split_once(" -> ") {
        Some(parts) => parts,
        None => (line, "ok"),
    }
}

/// Runs a line, and prints what it answers otherwise than it should: whether it does.
fn differs<R: AllocGlobal + Print + Wait>(
    rt: &R,
    bench: &mut Bench,
    place: (&str, usize),
    line: &str,
) -> io::Result<bool> {
    let (command, want) = parts_of(line);
    let (name, number) = place;
    let found = match answer(rt, bench, command) {
        Ok(found) => found,
        Err(error) => format!(in rt.alloc(); "error: {error}")?,
    };
    if found.as_str() == want {
        return Ok(false);
    }
    println!(rt; "{name}, line {number}: {command}: {found}, and not {want}")?;
    Ok(true)
}

/// The network that a line begins with, if it is such a line.
fn begun<R: Files + AllocGlobal>(rt: &R, line: &str) -> io::Result<Option<Bench>> {
    let Some(name) = line.strip_prefix("text ") else {
        return Ok(None);
    };
    let path = format!(in rt.alloc(); "texts/{name}")?;
    let text = fs::read_to_string(rt, path.as_str())?;
    Ok(Some(Bench::new(rt.alloc(), text)?))
}

/// Runs the lines of a case.
fn run_lines<R: Files + AllocGlobal + Print + Wait>(
    rt: &R,
    name: &str,
    text: &str,
    bench: &mut Bench,
) -> io::Result<Tally> {
    let mut tally = Tally {
        ran: 0,
        differing: 0,
    };
    for (number, line) in text.lines().enumerate() {
        if line.is_empty() || line.starts_with('#') {
            continue;
        }
        if let Some(new) = begun(rt, line)? {
            *bench = new;
            continue;
        }
        let place = (name, number.saturating_add(1));
        let differs = differs(rt, bench, place, line)?;
        tally.ran = tally.ran.saturating_add(1);
        tally.differing = tally.differing.saturating_add(u64::from(differs));
    }
    Ok(tally)
}

/// Runs the case of a name: how many of its lines differ.
fn run_case<R: Files + AllocGlobal + Print + Wait>(rt: &R, name: &str) -> io::Result<u64> {
    let path = format!(in rt.alloc(); "cases/{name}")?;
    let text = fs::read_to_string(rt, path.as_str())?;
    let mut bench = Bench::new(rt.alloc(), String::from_str(rt.alloc(), NO_NETWORK)?)?;
    let tally = run_lines(rt, name, text.as_str(), &mut bench)?;
    println!(rt; "{name}: {} lines, {} differ", tally.ran, tally.differing)?;
    Ok(tally.differing)
}

/// A network of nothing, before the first line `text`.
const NO_NETWORK: &str = "format = 1\nstop = 1\nmtu = 576\n";

/// The name of an entry of a folder.
fn name_of<R: Files>(alloc: Global, entry: io::Result<DirEntry<R>>) -> io::Result<String>
where
    R: Drop,
{
    Ok(String::from_str(alloc, entry?.file_name())?)
}

/// The names of the cases, in their order.
fn names<R: Files + AllocGlobal + Clone + Drop>(rt: &R) -> io::Result<Vec<String>> {
    let mut names = Vec::new(rt.alloc());
    for entry in fs::read_dir(rt, "cases")? {
        names.push(name_of(rt.alloc(), entry)?)?;
    }
    names.sort_unstable();
    Ok(names)
}

/// Runs all cases.
///
/// # Errors
///
/// If a line is answered otherwise than it should be, or a file cannot be read.
pub fn run_all<R: Files + AllocGlobal + Print + Wait + Clone + Drop>(rt: &R) -> io::Result<()> {
    let mut differing = 0u64;
    for name in names(rt)?.iter() {
        differing = differing.saturating_add(run_case(rt, name.as_str())?);
    }
    if differing > 0 {
        return Err(io::Error::other("a line is answered otherwise"));
    }
    Ok(())
}
