//! Cases that are changes of one text: `NAME.cases`, lines of a key, a space and what belongs to
//! the key.
//!
//! ```text
//! # Names: 1 to 32 characters of a to z, 0 to 9 and hyphen, and no hyphen first.
//! text duo.toml
//! show reading
//!
//! case one digit
//! every "a"
//! new "0"
//! > accepted
//!
//! case one nanosecond too late
//! old start = 0
//! new start = 1000000000000001
//! > fault 5
//! ```
//!
//! | Key | What belongs to it |
//! |---|---|
//! | `text` | the file of `data/texts/` that the cases change; before the first case |
//! | `show` | what the cases show (module `show`); before the first case |
//! | `case` | the name of a case, which what follows belongs to |
//! | `old` | a piece of the text, which `new` replaces where it stands first |
//! | `every` | a piece of the text, which `new` replaces wherever it stands |
//! | `new` | what takes the place of the last piece, and may be nothing; of several such lines in a row, their lines |
//! | `times` | a count, a space and a piece, which stands so many times behind the last `new`, with its number from 0 for each `#`, and that as two octets, as `1.44`, for each `@` |
//! | `before` | a time in nanoseconds: what is shown is what was done before it, and before `stop` |
//! | `>` | a line that is to be shown, in the order of what is shown |
//!
//! The changes of a case are made one after another. A piece that is not there is an error, so no
//! case is ever about another text than its lines say. No line ends with a space. Empty lines, and
//! lines that begin with `#`, are skipped.

mod lines;

use crate::change::changed;
use crate::compare::differs;
use crate::tally::Tally;
use lines::{Case, Table, read_table};
use std::alloc::Global;
use std::rt::Files;
use std::{fs, io};

/// What a case of a table shows: this text with the case's changes.
fn found_of(alloc: Global, table: &Table, text: &str, case: &Case) -> io::Result<String> {
    let Some(show) = table.show else {
        return Err(io::Error::other("a table that shows nothing"));
    };
    let text = changed(alloc, text, case.changes.as_slice())?;
    show.text(alloc, text.as_str().as_bytes(), case.before)
}

/// Compares what a case shows.
fn compare<R: AllocGlobal + Print>(
    rt: &R,
    path: &str,
    case: &Case,
    found: &str,
) -> io::Result<Tally> {
    let name = format!(in rt.alloc(); "{path}, {}", case.name)?;
    let differs = differs(rt, name.as_str(), case.expected.as_str(), found)?;
    Ok(Tally::of_case(differs))
}

/// Runs a case of the table at a path, and prints what is wrong with its changes.
fn run_case<R: AllocGlobal + Print>(
    rt: &R,
    path: &str,
    table: &Table,
    text: &str,
    case: &Case,
) -> io::Result<Tally> {
    match found_of(rt.alloc(), table, text, case) {
        Ok(found) => compare(rt, path, case, found.as_str()),
        Err(error) => {
            println!(rt; "case {}: {error}", case.name)?;
            Err(error)
        }
    }
}

/// Runs the cases of the table at a path, with the text that they change.
fn run_cases<R: AllocGlobal + Print>(
    rt: &R,
    path: &str,
    table: &Table,
    text: &str,
) -> io::Result<Tally> {
    let mut tally = Tally::new();
    for case in table.cases.iter() {
        tally.add(run_case(rt, path, table, text, case)?);
    }
    Ok(tally)
}

/// The table at a path.
fn table_at<R: Files + AllocGlobal + Print>(rt: &R, path: &str) -> io::Result<Table> {
    let lines = fs::read_to_string(rt, path)?;
    read_table(rt, lines.as_str())
}

/// The text that the cases of a table change.
fn text_of<R: Files + AllocGlobal>(rt: &R, table: &Table) -> io::Result<String> {
    let path = format!(in rt.alloc(); "texts/{}", table.text)?;
    fs::read_to_string(rt, path.as_str())
}

/// Runs the cases of the table at a path.
pub fn run_table<R: Files + AllocGlobal + Print>(rt: &R, path: &str) -> io::Result<Tally> {
    let table = table_at(rt, path)?;
    let text = text_of(rt, &table)?;
    run_cases(rt, path, &table, text.as_str())
}
