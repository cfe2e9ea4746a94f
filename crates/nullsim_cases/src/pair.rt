//! Cases of a text each: `NAME.toml`, whose octets are read as they are, and `NAME.expect`, the
//! lines that it shows.
//!
//! In the folder `networks` these are a line `iface NAME HEX` for each interface, with its trace
//! file in hexadecimal, a line `counter NODE NAME VALUE` for each counter above 0, and a line
//! `dropped IFACE VALUE` for each interface at which packets were dropped; what a report says of
//! these is compared too (module `reported`). In each other folder it is the line `accepted`, or
//! `fault N` with the number of the first fault. Lines that begin with `#` are comments.

use crate::compare::{differs, push_line};
use crate::show::{Show, View};
use crate::tally::Tally;
use nm_base::Time;
use std::alloc::{AllocError, Global};
use std::rt::Files;
use std::{fs, io};

/// What the pair at a path shows.
fn shown_at(path: &str) -> Show {
    if path.starts_with("cases/networks/") {
        Show::Run(View::Files)
    } else {
        Show::Reading
    }
}

/// The lines that are no comments.
fn without_comments(alloc: Global, text: &str) -> Result<String, AllocError> {
    let mut lines = String::new(alloc);
    for line in text.lines() {
        if !line.starts_with('#') {
            push_line(&mut lines, line)?;
        }
    }
    Ok(lines)
}

/// The lines that are to be shown.
fn expected_of<R: Files + AllocGlobal>(rt: &R, stem: &str) -> io::Result<String> {
    let path = format!(in rt.alloc(); "{stem}.expect")?;
    let text = fs::read_to_string(rt, path.as_str())?;
    Ok(without_comments(rt.alloc(), text.as_str())?)
}

/// The lines that are shown.
fn found_of<R: Files + AllocGlobal>(rt: &R, stem: &str) -> io::Result<String> {
    let path = format!(in rt.alloc(); "{stem}.toml")?;
    let text = fs::read(rt, path.as_str())?;
    let before = Time::from_nanoseconds(u64::MAX);
    shown_at(stem).text(rt.alloc(), text.as_slice(), before)
}

/// Runs the case at a path, which is without its end.
pub fn run_pair<R: Files + AllocGlobal + Print>(rt: &R, stem: &str) -> io::Result<Tally> {
    let expected = expected_of(rt, stem)?;
    let found = found_of(rt, stem)?;
    let differs = differs(rt, stem, expected.as_str(), found.as_str())?;
    Ok(Tally::of_case(differs))
}
