//! Text in pieces.

use nm_base::{push_number, push_text};
use nm_packet::Address;
use std::alloc::AllocError;

/// Something was appended, or memory was refused for it.
pub type Appended = Result<(), AllocError>;

/// The most octets of a text that are shown.
const MAX_SHOWN: usize = 40;

/// A piece of a sentence.
#[derive(Clone, Copy)]
pub enum Piece<'a> {
    /// As it is.
    Text(&'a str),
    /// In decimal.
    Number(u64),
    /// Four numbers joined by dots.
    Address(Address),
    /// A value of a topology text, between double quotes: printable ASCII as it is, a question mark
    /// for each other octet, and the first 40 octets of a longer one.
    Quoted(&'a str),
}

/// An octet of a text, as it is shown.
fn shown(octet: u8) -> u8 {
    match octet {
        b' '..=b'~' => octet,
        _ => b'?',
    }
}

/// Appends a text between double quotes.
fn push_quoted(out: &mut Vec<u8>, text: &[u8]) -> Appended {
    push_text(out, b"\"")?;
    for octet in text.iter().take(MAX_SHOWN) {
        out.push(shown(*octet))?;
    }
    if text.len() > MAX_SHOWN {
        push_text(out, b"..")?;
    }
    push_text(out, b"\"")
}

/// Appends an address.
fn push_address(out: &mut Vec<u8>, address: Address) -> Appended {
    let [a, b, c, d] = address.octets();
    push_number(out, a as u64)?;
    for octet in [b, c, d] {
        push_text(out, b".")?;
        push_number(out, octet as u64)?;
    }
    Ok(())
}

fn push_piece(out: &mut Vec<u8>, piece: &Piece) -> Appended {
    match piece {
        Piece::Text(text) => push_text(out, text.as_bytes()),
        Piece::Number(number) => push_number(out, *number),
        Piece::Address(address) => push_address(out, *address),
        Piece::Quoted(text) => push_quoted(out, text.as_bytes()),
    }
}

/// Appends pieces, one after another.
pub fn push(out: &mut Vec<u8>, pieces: &[Piece]) -> Appended {
    for piece in pieces {
        push_piece(out, piece)?;
    }
    Ok(())
}
