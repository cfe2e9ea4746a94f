//! The files of a folder of cases.

use crate::called::run_called_case;
use crate::pair::run_pair;
use crate::reported::report_differs;
use crate::table::run_table;
use crate::tally::Tally;
use nm_program::Runtime;
use std::alloc::Global;
use std::fs::DirEntry;
use std::net::Net;
use std::rt::Files;
use std::sync::Wait;
use std::time::Clock;
use std::{fs, io};

/// The name of an entry of a folder.
fn name_of<R: Files>(alloc: Global, entry: io::Result<DirEntry<R>>) -> io::Result<String>
where
    R: Drop,
{
    Ok(String::from_str(alloc, entry?.file_name())?)
}

/// The names in a folder, in their order.
pub fn names_in<R: Files + AllocGlobal + Clone + Drop>(
    rt: &R,
    folder: &str,
) -> io::Result<Vec<String>> {
    let mut names = Vec::new(rt.alloc());
    for entry in fs::read_dir(rt, folder)? {
        names.push(name_of(rt.alloc(), entry)?)?;
    }
    names.sort_unstable();
    Ok(names)
}

/// A file beside a topology text is run with it: the text has to be there.
fn run_half<R: Files + AllocGlobal>(rt: &R, stem: &str) -> io::Result<Tally> {
    let path = format!(in rt.alloc(); "{stem}.toml")?;
    fs::metadata(rt, path.as_str())?;
    Ok(Tally::new())
}

/// The folders whose cases are of the program's words.
const OF_WORDS: &[&str] = &["check", "rounds", "runs", "script", "shown", "words"];

/// Whether the case at a path is of the program's words.
fn is_of_words(stem: &str) -> bool {
    let folder = stem
        .strip_prefix("cases/")
        .and_then(|rest| rest.split_once('/'));
    match folder {
        Some((folder, _)) => OF_WORDS.contains(&folder),
        None => false,
    }
}

/// Runs the case of the topology text at a path, which is without its end.
fn run_text<R: Runtime + Files + AllocGlobal + Print + Clone>(
    rt: &R,
    stem: &str,
) -> io::Result<Tally> {
    if is_of_words(stem) {
        return run_called_case(rt, stem);
    }
    let tally = run_pair(rt, stem)?;
    if stem.starts_with("cases/networks/") && report_differs(rt, stem)? {
        return Ok(Tally::of_case(true));
    }
    Ok(tally)
}

/// Runs the cases of the file at a path.
fn run_file<R: Runtime + Files + AllocGlobal + Print + Clone>(
    rt: &R,
    path: &str,
) -> io::Result<Tally> {
    if path.ends_with(".cases") {
        return run_table(rt, path);
    }
    if let Some(stem) = path.strip_suffix(".toml") {
        return run_text(rt, stem);
    }
    if let Some(stem) = path.strip_suffix(".expect") {
        return run_half(rt, stem);
    }
    if let Some(stem) = path.strip_suffix(".steps") {
        return run_half(rt, stem);
    }
    Err(io::Error::other("a file that is no part of a case"))
}

/// Runs the cases of a file of a folder, and prints what is wrong with the file.
fn run_named<R: Runtime + Files + AllocGlobal + Print + Clone>(
    rt: &R,
    folder: &str,
    name: &str,
) -> io::Result<Tally> {
    let path = format!(in rt.alloc(); "cases/{folder}/{name}")?;
    let tally = run_file(rt, path.as_str());
    if let Err(error) = &tally {
        println!(rt; "{path}: {error}")?;
    }
    tally
}

/// Runs the cases of these files of a folder.
fn run_all<R: Runtime + Files + AllocGlobal + Print + Clone>(
    rt: &R,
    folder: &str,
    names: &[String],
) -> io::Result<Tally> {
    let mut tally = Tally::new();
    for name in names {
        tally.add(run_named(rt, folder, name.as_str())?);
    }
    Ok(tally)
}

/// Runs the cases of a folder.
pub fn run_folder<
    R: Files
        + AllocGlobal
        + Print
        + Net<Stream = std::net::TcpStream, Listener = std::net::TcpListener>
        + std::thread::Threads
        + Wait
        + Clock
        + Sync
        + Clone
        + Drop
        + Copy,
>(rt: &R, folder: &str) -> io::Result<Tally> {
    let path = format!(in rt.alloc(); "cases/{folder}")?;
    let names = names_in(rt, path.as_str())?;
    run_all(rt, folder, names.as_slice())
}
