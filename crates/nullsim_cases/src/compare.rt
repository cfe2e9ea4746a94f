//! Lines of texts, and those in which two texts differ.

use std::alloc::AllocError;
use std::io;

/// Adds a line to a text.
pub fn push_line(text: &mut String, line: &str) -> Result<(), AllocError> {
    text.push_str(line)?;
    text.push('\n')
}

/// Prints the lines of two texts that differ from the other's line in the same place, and answers
/// whether there is one.
pub fn differs(rt: &impl Print, name: &str, expected: &str, found: &str) -> io::Result<bool> {
    if expected == found {
        return Ok(false);
    }
    println!(rt; "{name} differs")?;
    print_lines_beside(rt, "expected", expected, found)?;
    print_lines_beside(rt, "found", found, expected)?;
    Ok(true)
}

/// Whether this is the line of a text in this place.
fn is_line(text: &str, number: usize, line: &str) -> bool {
    text.lines().nth(number).is_some_and(|other| other == line)
}

/// Prints the lines of `text` that are not in the same place of `other`.
fn print_lines_beside(rt: &impl Print, side: &str, text: &str, other: &str) -> io::Result<()> {
    for (number, line) in text.lines().enumerate() {
        if !is_line(other, number, line) {
            println!(rt; "  {side}: {line}")?;
        }
    }
    Ok(())
}
