//! Values of a row.

ghost use Rattle.std.specs.Prelude.{◌≡◌, ◌++◌, OnOk, codes};
ghost use Rattle.nm_series.specs.Rows.{cell};

use nm_base::{push_number, push_text};
use std::alloc::AllocError;

/// Appends a value behind others.
pub(crate) fn push_cell(text: &mut Vec<u8>, value: u64) -> Result<(), AllocError>
    ensures { OnOk result (text.new.items ≡ text.old.items ++ cell value) }
{
    push_text(text, b",")?;
    push_number(text, value)
}

/// Ends a row.
pub(crate) fn end_row(text: &mut Vec<u8>) -> Result<(), AllocError>
    ensures { OnOk result (text.new.items ≡ text.old.items ++ codes "\n") }
{
    push_text(text, b"\n")
}

/// Appends a text behind others.
pub(crate) fn push_word(text: &mut Vec<u8>, word: &str) -> Result<(), AllocError>
    ensures { OnOk result (text.new.items ≡ text.old.items ++ codes "," ++ word.now) }
{
    push_text(text, b",")?;
    push_text(text, word.as_bytes())
}
