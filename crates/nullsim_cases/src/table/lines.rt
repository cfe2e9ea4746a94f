//! Reading the lines of a table.

use crate::change::{Change, push_times};
use crate::compare::push_line;
use crate::show::Show;
use nm_base::Time;
use std::alloc::{AllocError, Global};
use std::io;

/// The keys of a case.
#[derive(Clone, Copy)]
enum Key {
    Old,
    Every,
    New,
    Times,
    Before,
    Shown,
}

const KEYS: &[(&str, Key)] = &[
    ("old", Key::Old),
    ("every", Key::Every),
    ("new", Key::New),
    ("times", Key::Times),
    ("before", Key::Before),
    (">", Key::Shown),
];

/// The key of this name.
fn key_of(name: &str) -> Option<Key> {
    for (other, key) in KEYS {
        if *other == name {
            return Some(*key);
        }
    }
    None
}

/// A case: its text is the table's with these changes.
#[derive(Drop)]
pub struct Case {
    pub name: String,
    pub changes: Vec<Change>,
    /// What is shown was done before this time.
    pub before: Time,
    /// The lines that are to be shown.
    pub expected: String,
}

impl Case {
    /// A case with no more than its name.
    fn new(alloc: Global, name: &str) -> Result<Self, AllocError> {
        Ok(Case {
            name: String::from_str(alloc, name)?,
            changes: Vec::new(alloc),
            before: Time::from_nanoseconds(u64::MAX),
            expected: String::new(alloc),
        })
    }

    /// Takes a line of this key.
    fn take(&mut self, alloc: Global, key: &str, rest: &str) -> io::Result<()> {
        match key_of(key) {
            Some(Key::Old) => self.take_piece(alloc, false, rest),
            Some(Key::Every) => self.take_piece(alloc, true, rest),
            Some(Key::New) => self.take_new(alloc, rest),
            Some(Key::Times) => self.take_times(rest),
            Some(Key::Before) => self.take_time(rest),
            Some(Key::Shown) => Ok(push_line(&mut self.expected, rest)?),
            None => Err(io::Error::other("a key that no case has")),
        }
    }

    /// Takes a piece that is to be replaced.
    fn take_piece(&mut self, alloc: Global, is_everywhere: bool, piece: &str) -> io::Result<()> {
        if piece.is_empty() {
            return Err(io::Error::other("a piece of nothing"));
        }
        let old = String::from_str(alloc, piece)?;
        let change = Change {
            is_everywhere,
            old,
            new: None,
        };
        self.changes.push(change)?;
        Ok(())
    }

    /// Takes what replaces the last piece, or another line of it.
    fn take_new(&mut self, alloc: Global, line: &str) -> io::Result<()> {
        let Some(change) = self.changes.last_mut() else {
            return Err(io::Error::other("new without a piece before"));
        };
        match &mut change.new {
            None => change.new = Some(String::from_str(alloc, line)?),
            Some(new) => {
                new.push('\n')?;
                new.push_str(line)?;
            }
        }
        Ok(())
    }

    /// Takes a count and a piece, to come so many times after what replaces the last piece.
    fn take_times(&mut self, rest: &str) -> io::Result<()> {
        let (count, piece) = rest.split_once(' ').unwrap_or((rest, ""));
        let Ok(count) = count.parse::<u32>() else {
            return Err(io::Error::other("a count that is no number"));
        };
        let new = self
            .changes
            .last_mut()
            .and_then(|change| change.new.as_mut());
        match new {
            Some(new) => Ok(push_times(new, piece, count)?),
            None => Err(io::Error::other("a count without new before")),
        }
    }

    /// Takes the time before which is shown what was done.
    fn take_time(&mut self, number: &str) -> io::Result<()> {
        let Ok(nanoseconds) = number.parse::<u64>() else {
            return Err(io::Error::other("a time that is no number"));
        };
        self.before = Time::from_nanoseconds(nanoseconds);
        Ok(())
    }
}

/// A table of cases.
#[derive(Drop)]
pub struct Table {
    /// The name of the text that the cases change, or nothing if it is not known yet.
    pub text: String,
    /// What they show.
    pub show: Option<Show>,
    pub cases: Vec<Case>,
}

impl Table {
    /// A table without a line.
    fn new(alloc: Global) -> Self {
        Table {
            text: String::new(alloc),
            show: None,
            cases: Vec::new(alloc),
        }
    }

    /// Takes a line.
    fn take_line(&mut self, alloc: Global, line: &str) -> io::Result<()> {
        if line.is_empty() || line.starts_with('#') {
            return Ok(());
        }
        if line.ends_with(' ') {
            return Err(io::Error::other("a space at the end of a line"));
        }
        let (key, rest) = line.split_once(' ').unwrap_or((line, ""));
        if key == "case" {
            self.cases.push(Case::new(alloc, rest)?)?;
            return Ok(());
        }
        match self.cases.last_mut() {
            Some(case) => case.take(alloc, key, rest),
            None => self.take_front(alloc, key, rest),
        }
    }

    /// Takes a line before the first case.
    fn take_front(&mut self, alloc: Global, key: &str, rest: &str) -> io::Result<()> {
        if key == "text" {
            self.text = String::from_str(alloc, rest)?;
            return Ok(());
        }
        if key == "show" {
            self.show = Show::named(rest);
            return Ok(());
        }
        Err(io::Error::other("neither text nor show before the first case"))
    }
}

/// Reads a line of a table, and prints what is wrong with it.
fn read_line(
    rt: &(impl AllocGlobal + Print),
    table: &mut Table,
    number: u64,
    line: &str,
) -> io::Result<()> {
    let answer = table.take_line(rt.alloc(), line);
    if let Err(error) = &answer {
        println!(rt; "line {number}: {error}")?;
    }
    answer
}

/// Reads the lines of a table.
pub fn read_table(rt: &(impl AllocGlobal + Print), lines: &str) -> io::Result<Table> {
    let mut table = Table::new(rt.alloc());
    for (number, line) in (1..u64::MAX).zip(lines.lines()) {
        read_line(rt, &mut table, number, line)?;
    }
    if table.cases.is_empty() {
        return Err(io::Error::other("a table without a case"));
    }
    Ok(table)
}
