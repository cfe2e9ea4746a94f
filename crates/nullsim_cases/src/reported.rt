//! Reports of the networks of an independent model: the counters and drops of `report TOPO csv` are
//! those that the model expects.

use crate::compare::{differs, push_line};
use crate::words::{expected_of, file_of, run_words, text_in};
use nm_program::Runtime;
use std::alloc::Global;
use std::io;
use std::rt::Files;

/// Appends the line that a case has for a line of a report, if it has one: of a counter or of drops
/// above 0.
fn push_value(alloc: Global, found: &mut String, line: &str) -> io::Result<()> {
    let mut fields = line.split(',');
    let (kind, name) = (fields.next(), fields.next());
    let (measure, value) = (fields.next().unwrap_or(""), fields.next().unwrap_or("0"));
    let (Some(kind), Some(name)) = (kind, name) else {
        return Ok(());
    };
    if value == "0" {
        return Ok(());
    }
    if kind == "node" {
        let line = format!(in alloc; "counter {name} {measure} {value}")?;
        push_line(found, line.as_str())?;
    }
    if kind == "interface" && measure == "dropped" {
        let line = format!(in alloc; "dropped {name} {value}")?;
        push_line(found, line.as_str())?;
    }
    Ok(())
}

/// The counters and drops that a report has.
fn reported(alloc: Global, report: &str) -> io::Result<String> {
    let mut found = String::new(alloc);
    for line in report.lines() {
        push_value(alloc, &mut found, line)?;
    }
    Ok(found)
}

/// The counters and drops that a case has.
fn counted(alloc: Global, expected: &str) -> io::Result<String> {
    let mut lines = String::new(alloc);
    for line in expected.lines() {
        if line.starts_with("counter ") || line.starts_with("dropped ") {
            push_line(&mut lines, line)?;
        }
    }
    Ok(lines)
}

/// The counters and drops that the report of the network at a path has.
fn reported_at<R: Runtime + Files + AllocGlobal>(rt: &R, stem: &str) -> io::Result<String> {
    let topology = file_of(rt, stem, ".toml")?;
    let ended = run_words(rt, &["report", "-", "csv"], topology.as_slice())?;
    reported(rt.alloc(), text_in(&ended.out)?)
}

/// The counters and drops that the case at a path has.
fn counted_at<R: Files + AllocGlobal>(rt: &R, stem: &str) -> io::Result<String> {
    let expected = expected_of(rt, stem)?;
    counted(rt.alloc(), expected.as_str())
}

/// Whether the report of the network at a path, which is without its end, differs from what it has.
pub fn report_differs<R: Runtime + Files + AllocGlobal + Print>(
    rt: &R,
    stem: &str,
) -> io::Result<bool> {
    let found = reported_at(rt, stem)?;
    let expected = counted_at(rt, stem)?;
    differs(rt, stem, expected.as_str(), found.as_str())
}
