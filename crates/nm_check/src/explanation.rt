//! What is wrong with a topology text, as one line.

ghost use Rattle.std.specs.Prelude.{◌≡◌, Err, IfOk};
ghost use Rattle.nm_topology.specs.Topology.{topology_of};
ghost use Rattle.nm_check.specs.Lines.{EndsLine};
ghost use Rattle.nm_check.specs.Locate.{IsLocated};

use crate::faults::push_faults;
use crate::locate::{Located, Reading, locate};
use crate::pieces::{Appended, Piece, push};
use crate::whole_sentence::push_whole_fault;
use nm_base::limits::MAX_TEXT_OCTETS;
use nm_topology::Refusal;
use std::alloc::{AllocError, Global};

/// Appends the line and the column of a place in a text, both from 1. A column is a character.
fn push_position(out: &mut Vec<u8>, before: &[u8]) -> Appended {
    let mut line = 1u64;
    let mut column = 1u64;
    for octet in before {
        match octet {
            b'\n' => {
                line = line.saturating_add(1);
                column = 1;
            }
            // What continues a character of UTF-8 begins none.
            0x80..=0xbf => {}
            _ => column = column.saturating_add(1),
        }
    }
    push(
        out,
        &[
            Piece::Text("line "),
            Piece::Number(line),
            Piece::Text(", column "),
            Piece::Number(column),
            Piece::Text(": "),
        ],
    )
}

/// Appends at which place a text is no TOML document.
fn push_toml_fault(alloc: Global, out: &mut Vec<u8>, text: &str) -> Appended {
    let Err(fault) = toml::table_from_str(alloc, text) else {
        return Ok(());
    };
    let Some(span) = fault.span() else {
        return Err(AllocError);
    };
    push_position(out, &text.as_bytes()[..span.start])?;
    push(
        out,
        &[
            Piece::Text("this is no TOML here: "),
            Piece::Text(fault.message()),
        ],
    )
}

/// Appends at which place a text is not UTF-8 or no TOML document.
fn push_text_fault(alloc: Global, out: &mut Vec<u8>, text: &[u8]) -> Appended {
    match str::from_utf8(text) {
        Ok(text) => push_toml_fault(alloc, out, text),
        Err(fault) => {
            push_position(out, &text[..fault.valid_up_to()])?;
            push(out, &[Piece::Text("this is no UTF-8 here")])
        }
    }
}

/// Appends that a text is too long.
fn push_length_fault(out: &mut Vec<u8>, length: usize) -> Appended {
    push(
        out,
        &[
            Piece::Text("the text has "),
            Piece::Number(length as u64),
            Piece::Text(" octets, and may have "),
            Piece::Number(MAX_TEXT_OCTETS as u64),
        ],
    )
}

/// A text with its tables read, which is UTF-8.
fn written(text: &[u8]) -> &str {
    str::from_utf8(text).unwrap_or("")
}

/// Appends what is wrong with a text that is refused there.
fn push_located(
    alloc: Global,
    out: &mut Vec<u8>,
    text: &[u8],
    located: &Located,
    refusal: Refusal,
) -> Appended
    requires { IsLocated text.now located.now }
{
    match located {
        Located::Length => push_length_fault(out, text.len()),
        Located::Letters => push_text_fault(alloc, out, text),
        Located::Read(Reading::Tables(table, found)) => {
            push_faults(alloc, out, written(text), table, *found)
        }
        Located::Read(Reading::Whole(document)) => {
            push_whole_fault(alloc, out, written(text), document, refusal)
        }
    }
}

/// What is wrong with a text that `Topology::read` refused, and where, as sentences that each end
/// with a line feed. The first names the first fault in the reading order; if that is in a table,
/// the first fault of each other table follows, at most 20 in all.
pub fn explain(alloc: Global, text: &[u8], refusal: Refusal) -> Result<Vec<u8>, AllocError>
    requires { topology_of text.now ≡ Err refusal }
    ensures { IfOk result (λ line. EndsLine line.items) }
{
    let mut out = Vec::new(alloc);
    push_sentence(alloc, &mut out, text, refusal)?;
    out.push(b'\n')?;
    Ok(out)
}

/// Appends what is wrong with a text after this refusal, and where.
fn push_sentence(alloc: Global, out: &mut Vec<u8>, text: &[u8], refusal: Refusal) -> Appended {
    let located = locate(alloc, text)?;
    push_located(alloc, out, text, &located, refusal)
}
