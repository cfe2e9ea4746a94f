//! Remarks on what is accepted and odd, a line each.

use crate::text::{push_number, push_text};
use std::alloc::AllocError;

/// The most remarks that are written out.
const MAX_REMARKS: u64 = 20;

/// A text with remarks behind it; the first 20 are written out.
#[derive(Drop)]
pub struct Remarks {
    text: Vec<u8>,
    count: u64,
}

impl Remarks {
    /// The text, and no remark yet.
    pub fn behind(text: Vec<u8>) -> Self {
        Remarks { text, count: 0 }
    }

    /// One more.
    pub fn add(&mut self, remark: &[u8]) -> Result<(), AllocError> {
        if self.count < MAX_REMARKS {
            push_text(&mut self.text, b"remark: ")?;
            push_text(&mut self.text, remark)?;
            push_text(&mut self.text, b"\n")?;
        }
        self.count = self.count.saturating_add(1);
        Ok(())
    }

    /// The text with their lines, and with how many more there are.
    pub fn into_text(self) -> Result<Vec<u8>, AllocError> {
        let Remarks { text, count } = self;
        let mut text = text;
        if count > MAX_REMARKS {
            push_text(&mut text, b"and ")?;
            push_number(&mut text, count - MAX_REMARKS)?;
            push_text(&mut text, b" more\n")?;
        }
        Ok(text)
    }
}
