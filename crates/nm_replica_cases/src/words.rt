//! The words of a line.

use nm_base::number_of;
use std::io;

/// The words of a command: its name, and what it is about.
#[derive(Clone, Copy)]
pub struct Words<'w> {
    words: &'w [&'w str],
}

impl<'w> Words<'w> {
    pub fn new(words: &'w [&'w str]) -> Self {
        Words { words }
    }

    /// The name of the command.
    pub fn name(&self) -> &'w str {
        match self.words.first() {
            Some(name) => *name,
            None => "",
        }
    }

    /// Whether the command has this name.
    pub fn is(&self, name: &str) -> bool {
        self.name() == name
    }

    /// The words from this one on, the name being word 0.
    pub fn from(&self, at: usize) -> &'w [&'w str] {
        let (_, rest) = self.words.split_at(at.min(self.words.len()));
        rest
    }

    /// A word that is a number in decimal.
    pub fn number(&self, at: usize) -> io::Result<u64> {
        let Some(word) = self.words.get(at) else {
            return Err(io::Error::other("a word is missing"));
        };
        number(*word)
    }

    /// A number of 32 bits.
    pub fn short(&self, at: usize) -> io::Result<u32> {
        match u32::try_from(self.number(at)?) {
            Ok(number) => Ok(number),
            Err(_) => Err(io::Error::other("a number that is too great")),
        }
    }

    /// A number of 8 bits.
    pub fn octet(&self, at: usize) -> io::Result<u8> {
        match u8::try_from(self.number(at)?) {
            Ok(number) => Ok(number),
            Err(_) => Err(io::Error::other("a number that is too great")),
        }
    }

    /// The number of something in a list.
    pub fn index(&self, at: usize) -> io::Result<usize> {
        Ok(self.short(at)? as usize)
    }
}

/// A number in decimal.
pub fn number(word: &str) -> io::Result<u64> {
    match number_of(word.as_bytes()) {
        Some(number) => Ok(number),
        None => Err(io::Error::other("a word that is no number")),
    }
}
