//! What is wrong in a table, and where, as a sentence.

use crate::field_sentence::push_field_fault;
use crate::nearest::{Meant, nearest};
use crate::packet::first_packet;
use crate::pieces::{Appended, Piece, push};
use crate::place::{FaultPlace, Found, fields_of};
use crate::spot::{FieldFault, Spot};
use nm_topology::keys::array::Array;
use nm_topology::keys::field::{Field, Form};
use nm_topology::keys::fields::{
    CBR_TABLE, ECHO_TABLE, IFACE_TABLE_TWO, RAW_TABLE, TOP_TABLE, packet_table,
};
use nm_topology::keys::key::TableKey;
use nm_topology::parse::fields::{field, is_key_of};
use nm_topology::parse::head::{Format, Head};
use std::alloc::{AllocError, Global};
use toml::{Table, Value};

/// The text at a key, if there is one.
fn text_at(table: &Table, key: TableKey) -> Option<&str> {
    field(table, key)?.as_str()
}

/// The member of an array of a table.
pub fn member<'a>(table: &'a Table, array: Array, number: usize) -> Option<&'a Table> {
    field(table, array.key())?
        .as_array()?
        .get(number)?
        .as_table()
}

/// Appends which table of an array it is.
fn push_table_name(out: &mut Vec<u8>, table: &Table, array: Array, number: usize) -> Appended {
    let known = [
        Piece::Text(array.key().text()),
        Piece::Text(" "),
        Piece::Number(number as u64),
    ];
    push(out, &known)?;
    let (before, key) = match array {
        Array::Node | Array::Iface => (" (", TableKey::Name),
        Array::Link => return Ok(()),
        Array::Route | Array::Source => (" (node ", TableKey::Node),
    };
    match text_at(table, key) {
        Some(name) => push(
            out,
            &[Piece::Text(before), Piece::Quoted(name), Piece::Text(")")],
        ),
        None => Ok(()),
    }
}

/// The first key of a table that none of these fields has.
pub fn unknown_key<'a>(table: &'a Table, fields: &[Field]) -> &'a str {
    for key in table.keys() {
        if !is_key_of(fields, key.as_str()) {
            return key.as_str();
        }
    }
    ""
}

/// The keys of these fields.
fn keys_of(alloc: Global, fields: &[Field]) -> Result<Vec<&'static str>, AllocError> {
    let mut keys = Vec::new(alloc);
    for known in fields {
        keys.push(known.key.text())?;
    }
    Ok(keys)
}

/// Appends that a table has a key that none of these fields has, and which may have been meant, or
/// which there are.
fn push_unknown(alloc: Global, out: &mut Vec<u8>, table: &Table, fields: &[Field]) -> Appended {
    let key = unknown_key(table, fields);
    push_unknown_key(out, key)?;
    let known = keys_of(alloc, fields)?;
    if nearest(key, &known).is_some() {
        return push_meant(out, key, &known);
    }
    push_known(out, &known)
}

/// Appends that a key is unknown.
fn push_unknown_key(out: &mut Vec<u8>, key: &str) -> Appended {
    push(
        out,
        &[
            Piece::Text("key "),
            Piece::Quoted(key),
            Piece::Text(" is unknown"),
        ],
    )
}

/// Appends the keys that there are.
fn push_known(out: &mut Vec<u8>, known: &[&str]) -> Appended {
    for (number, key) in known.iter().enumerate() {
        let before = match number {
            0 => "; known are ",
            _ => ", ",
        };
        push(out, &[Piece::Text(before), Piece::Text(*key)])?;
    }
    Ok(())
}

/// Whether a key of an interface is one of format 2, and the text is of format 1.
fn is_of_format_two(head: Head, key: &str) -> bool {
    matches!(head.format, Format::One) && is_key_of(&IFACE_TABLE_TWO, key)
}

/// Why a key is unknown in a table of an array, if it is one of another kind of table.
fn elsewhere(head: Head, array: Array, key: &str) -> Option<&'static str> {
    match array {
        Array::Iface if is_of_format_two(head, key) => Some("; it is one of format 2"),
        Array::Source if is_key_of(&CBR_TABLE, key) => Some("; only a \"cbr\" source has it"),
        Array::Source if is_key_of(&ECHO_TABLE, key) => Some("; only an \"echo\" source has it"),
        Array::Source if is_key_of(&RAW_TABLE, key) => Some("; only a \"raw\" source has it"),
        _ if is_key_of(&TOP_TABLE, key) => {
            Some("; it is one of the top, and behind [[..]] all keys are of that table")
        }
        _ => None,
    }
}

/// Appends that a table of an array has a key that none of these fields has, and which may have
/// been meant, in which table it would be right, or which there are.
fn push_unknown_in(
    alloc: Global,
    out: &mut Vec<u8>,
    head: Head,
    array: Array,
    table: &Table,
    fields: &[Field],
) -> Appended {
    let key = unknown_key(table, fields);
    match elsewhere(head, array, key) {
        Some(place) => {
            push_unknown_key(out, key)?;
            push(out, &[Piece::Text(place)])
        }
        None => push_unknown(alloc, out, table, fields),
    }
}

/// Appends which of the known words may have been meant.
pub fn push_meant(out: &mut Vec<u8>, word: &str, known: &[&str]) -> Appended {
    let Some(Meant { first, next }) = nearest(word, known) else {
        return Ok(());
    };
    push(out, &[Piece::Text("; did you mean "), Piece::Quoted(first)])?;
    if let Some(next) = next {
        push(out, &[Piece::Text(" or "), Piece::Quoted(next)])?;
    }
    push(out, &[Piece::Text("?")])
}

/// Appends what is wrong with the packets of a raw source, and with which.
fn push_packets_fault(
    alloc: Global,
    out: &mut Vec<u8>,
    head: Head,
    table: &Table,
    fault: FieldFault,
) -> Appended {
    let Some(Value::Array(items)) = field(table, TableKey::Packet) else {
        return push_field_fault(out, head, table, fault);
    };
    let Some(found) = first_packet(alloc, head, items)? else {
        return push_field_fault(out, head, table, fault);
    };
    let Some(Value::Table(packet)) = items.get(found.number) else {
        return push_field_fault(out, head, table, fault);
    };
    push(
        out,
        &[
            Piece::Text("packet "),
            Piece::Number(found.number as u64),
            Piece::Text(": "),
        ],
    )?;
    match found.spot {
        Spot::Unknown => push_unknown(alloc, out, packet, &packet_table(found.least)),
        Spot::Field(inner) => push_field_fault(out, head, packet, inner),
    }
}

/// Appends what is wrong in a table of an array.
fn push_table_fault(
    alloc: Global,
    out: &mut Vec<u8>,
    head: Head,
    array: Array,
    table: &Table,
    spot: Spot,
) -> Appended {
    match spot {
        Spot::Unknown => {
            push_unknown_in(
                alloc,
                out,
                head,
                array,
                table,
                fields_of(head, array, table)?,
            )
        }
        Spot::Field(fault) => match fault.field.form {
            Form::Packets => push_packets_fault(alloc, out, head, table, fault),
            _ => push_field_fault(out, head, table, fault),
        },
    }
}

/// Appends what is wrong in the tables of a text, and where.
pub fn push_found(alloc: Global, out: &mut Vec<u8>, top: &Table, found: Found) -> Appended {
    match found.place {
        FaultPlace::Top(spot) => {
            push(out, &[Piece::Text("top: ")])?;
            match spot {
                Spot::Unknown => push_unknown(alloc, out, top, &TOP_TABLE),
                Spot::Field(fault) => push_field_fault(out, found.head, top, fault),
            }
        }
        FaultPlace::Table {
            array,
            number,
            spot,
        } => {
            let Some(table) = member(top, array, number) else {
                return Ok(());
            };
            push_table_name(out, table, array, number)?;
            push(out, &[Piece::Text(": ")])?;
            push_table_fault(alloc, out, found.head, array, table, spot)
        }
    }
}
