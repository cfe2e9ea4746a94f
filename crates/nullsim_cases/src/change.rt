//! A text with another piece in the place of one of its pieces.

use std::alloc::{AllocError, Global};
use std::fmt::Write;
use std::io;

/// A change of a text.
#[derive(Drop)]
pub struct Change {
    /// Whether the piece is replaced wherever it is, and not at its first place alone.
    pub is_everywhere: bool,
    /// The piece.
    pub old: String,
    /// What takes its place, if that is known yet.
    pub new: Option<String>,
}

impl Change {
    /// The text with the change made.
    ///
    /// # Errors
    ///
    /// If the text does not have the piece, or nothing was to take its place.
    fn made(&self, alloc: Global, text: &str) -> io::Result<String> {
        let old = self.old.as_str();
        let Some(new) = &self.new else {
            return Err(io::Error::other("a piece with nothing in its place"));
        };
        if !text.contains(old) {
            return Err(io::Error::other("the text has no such piece"));
        }
        if self.is_everywhere {
            return Ok(text.replace(alloc, old, new.as_str())?);
        }
        Ok(text.replacen(alloc, old, new.as_str(), 1)?)
    }
}

/// The text with these changes made, one after another.
pub fn changed(alloc: Global, text: &str, changes: &[Change]) -> io::Result<String> {
    let mut text = String::from_str(alloc, text)?;
    for change in changes {
        text = change.made(alloc, text.as_str())?;
    }
    Ok(text)
}

/// Adds a piece with its number for each `#` in it, and for each `@` that number as two octets with
/// a dot between them.
fn push_numbered(text: &mut String, piece: &str, number: u32) -> Result<(), AllocError> {
    for character in piece.chars() {
        match character {
            '#' => write!(text, "{number}")?,
            '@' => write!(text, "{}.{}", number / 256, number % 256)?,
            _ => text.push(character)?,
        }
    }
    Ok(())
}

/// Adds a piece so many times, with the numbers from 0.
pub fn push_times(text: &mut String, piece: &str, count: u32) -> Result<(), AllocError> {
    for number in 0..count {
        push_numbered(text, piece, number)?;
    }
    Ok(())
}
