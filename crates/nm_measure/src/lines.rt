//! Texts of whole lines.

ghost use Rattle.std.specs.Prelude.{OnOk};
ghost use Rattle.nm_measure.specs.Lines.{EndsLine};

use nm_base::push_text;
use std::alloc::AllocError;

/// A text, or a refusal of memory for it.
pub type MadeText = Result<Vec<u8>, AllocError>;

/// Something was appended, or memory was refused for it.
pub type Appended = Result<(), AllocError>;

/// Appends a line feed.
///
/// # Errors
///
/// If memory was refused.
pub fn end_line(text: &mut Vec<u8>) -> Result<(), AllocError>
    ensures { OnOk result (EndsLine text.new.items) }
{
    push_text(text, b"\n")
}
