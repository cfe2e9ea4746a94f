//! What would be right in place of a text that is not in the form of its field.

use crate::pieces::{Appended, Piece, push};
use nm_packet::Address;
use nm_topology::keys::field::{Field, Form};
use nm_topology::keys::key::TableKey;
use nm_topology::parse::forms::{MAX_NAME, address_of, is_name, length_of};

/// What a character of a name would be: a small letter, a digit, or else a hyphen.
fn name_character(octet: u8) -> u8 {
    match octet {
        b'a'..=b'z' | b'0'..=b'9' => octet,
        b'A'..=b'Z' => octet.to_ascii_lowercase(),
        _ => b'-',
    }
}

/// The name that is nearest to a text, in the first octets of the buffer: how many they are.
fn name_like(text: &str, name: &mut [u8; MAX_NAME]) -> usize {
    let mut length = 0usize;
    for octet in text.as_bytes() {
        let character = name_character(*octet);
        if length == 0 && character == b'-' {
            continue;
        }
        if let Some(place) = name.get_mut(length) {
            *place = character;
            length = length.saturating_add(1);
        }
    }
    length
}

/// Appends the name that may have been meant.
fn push_name_like(out: &mut Vec<u8>, text: &str) -> Appended {
    let mut buffer = [0u8; MAX_NAME];
    let length = name_like(text, &mut buffer);
    let Some(octets) = buffer.get(..length) else {
        return Ok(());
    };
    match str::from_utf8(octets) {
        Ok(name) if is_name(octets) => push(
            out,
            &[
                Piece::Text("; "),
                Piece::Quoted(name),
                Piece::Text(" would be one"),
            ],
        ),
        _ => Ok(()),
    }
}

/// Appends what a name has to be the name of, if an address was given.
fn push_name_due(out: &mut Vec<u8>, key: TableKey, text: &str) -> Appended {
    match key {
        TableKey::Via | TableKey::A | TableKey::B => push(
            out,
            &[Piece::Text("; give the name of the interface that has this address")],
        ),
        TableKey::Node => push(
            out,
            &[Piece::Text("; give the name of the node that has this address")],
        ),
        _ => push_name_like(out, text),
    }
}

/// Appends a prefix.
fn push_prefix(out: &mut Vec<u8>, address: Address, length: u8) -> Appended {
    push(
        out,
        &[
            Piece::Text("; "),
            Piece::Address(address),
            Piece::Text("/"),
            Piece::Number(u64::from(length)),
            Piece::Text(" would be one"),
        ],
    )
}

/// Appends two prefixes that hold an address.
fn push_lengths(out: &mut Vec<u8>, address: Address) -> Appended {
    push(
        out,
        &[
            Piece::Text("; "),
            Piece::Address(address),
            Piece::Text("/32 is this address alone, "),
            Piece::Address(masked(address, 24)),
            Piece::Text("/24 are all that begin alike"),
        ],
    )
}

/// The first bits of an address, and zeros behind them.
fn masked(address: Address, length: u8) -> Address {
    let behind = 32u8.saturating_sub(length).min(32);
    let bits = (u64::from(address.bits()) >> behind) << behind;
    Address::from_bits(bits as u32)
}

/// Appends the prefix that may have been meant.
fn push_prefix_like(out: &mut Vec<u8>, text: &str) -> Appended {
    if let Some(address) = address_of(text.as_bytes()) {
        return push_lengths(out, address);
    }
    let Some((address, length)) = text.split_once('/') else {
        return Ok(());
    };
    match (address_of(address.as_bytes()), length_of(length)) {
        (Some(address), Some(length)) => push_prefix(out, masked(address, length), length),
        _ => Ok(()),
    }
}

/// Appends the address that may have been meant.
fn push_address_like(out: &mut Vec<u8>, text: &str) -> Appended {
    if is_name(text.as_bytes()) {
        return push(
            out,
            &[Piece::Text("; give an address of that node, not its name")],
        );
    }
    let Some((front, _)) = text.split_once('/') else {
        return Ok(());
    };
    match address_of(front.as_bytes()) {
        Some(address) => push(
            out,
            &[
                Piece::Text("; "),
                Piece::Address(address),
                Piece::Text(" would be one"),
            ],
        ),
        None => Ok(()),
    }
}

/// Appends what would be right in place of a text that is not in the form of its field, if that is
/// known.
pub fn push_hint(out: &mut Vec<u8>, wanted: Field, text: &str) -> Appended {
    match wanted.form {
        Form::Name if address_of(text.as_bytes()).is_some() => {
            push_name_due(out, wanted.key, text)
        }
        Form::Name => push_name_like(out, text),
        Form::Address => push_address_like(out, text),
        Form::Prefix => push_prefix_like(out, text),
        _ => Ok(()),
    }
}
