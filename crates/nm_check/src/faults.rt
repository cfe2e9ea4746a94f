//! All that is wrong with the tables of a text: the first fault of each table, a line each.
//!
//! That the first line names the first fault in the reading order is proved (`place::find`). The
//! others are found by the same look at one member of an array (`place::place_of_member`); that all
//! are printed is tested.

use crate::line::{table_line, top_line};
use crate::pieces::{Appended, Piece, push};
use crate::place::{FaultPlace, Found, any_head, fields_of, place_of_member};
use crate::sentence::{member, push_found, unknown_key};
use crate::spot::Spot;
use nm_topology::keys::array::Array;
use nm_topology::keys::field::Form;
use nm_topology::keys::fields::{ARRAYS, TOP_TABLE};
use nm_topology::parse::fields::field;
use nm_topology::parse::head::Head;
use std::alloc::{AllocError, Global};
use toml::{Table, Value};

/// The most faults that are printed.
pub const MAX_FAULTS: usize = 20;

/// Appends a line of the text, if it is known.
pub fn push_line(out: &mut Vec<u8>, line: Option<u64>) -> Appended {
    match line {
        Some(line) => push(
            out,
            &[Piece::Text("line "), Piece::Number(line), Piece::Text(": ")],
        ),
        None => Ok(()),
    }
}

/// Appends how many faults there are more than were printed.
pub fn push_more(out: &mut Vec<u8>, count: usize) -> Appended {
    if count <= MAX_FAULTS {
        return Ok(());
    }
    push(
        out,
        &[
            Piece::Text("\nand "),
            Piece::Number((count - MAX_FAULTS) as u64),
            Piece::Text(" more"),
        ],
    )
}

/// The line of a fault in a table of an array.
fn line_in_table(
    text: &str,
    top: &Table,
    head: Head,
    array: Array,
    number: usize,
    spot: &Spot,
) -> Result<Option<u64>, AllocError> {
    let name = array.key().text();
    let Spot::Unknown = spot else {
        return Ok(table_line(text, name, number, key_of(spot)));
    };
    let Some(table) = member(top, array, number) else {
        return Ok(None);
    };
    let fields = fields_of(head, array, table)?;
    Ok(table_line(text, name, number, unknown_key(table, fields)))
}

/// The key of a field that is refused.
fn key_of(spot: &Spot) -> &'static str {
    match spot {
        Spot::Field(fault) => fault.field.key.text(),
        Spot::Unknown => "",
    }
}

/// The line of a place.
fn line_of(text: &str, top: &Table, found: &Found) -> Result<Option<u64>, AllocError> {
    match &found.place {
        FaultPlace::Top(Spot::Unknown) => Ok(top_line(text, unknown_key(top, &TOP_TABLE))),
        FaultPlace::Top(spot) => Ok(top_line(text, key_of(spot))),
        FaultPlace::Table {
            array,
            number,
            spot,
        } => line_in_table(text, top, found.head, *array, *number, spot),
    }
}

/// Appends what is wrong at a place, and on which line it is.
fn push_fault(alloc: Global, out: &mut Vec<u8>, text: &str, top: &Table, found: Found) -> Appended {
    let line = line_of(text, top, &found)?;
    push_line(out, line)?;
    push_found(alloc, out, top, found)
}

/// Whether a place is in the table of this number of an array.
fn is_in(place: &FaultPlace, array: Array, number: usize) -> bool {
    match place {
        FaultPlace::Table {
            array: other,
            number: at,
            ..
        } => *other == array && *at == number,
        FaultPlace::Top(_) => false,
    }
}

/// Appends one fault more, if not too many are there: how many there are now.
fn push_other(
    alloc: Global,
    out: &mut Vec<u8>,
    text: &str,
    top: &Table,
    found: Found,
    count: usize,
) -> Result<usize, AllocError> {
    if count < MAX_FAULTS {
        out.push(b'\n')?;
        push_fault(alloc, out, text, top, found)?;
    }
    Ok(count.saturating_add(1))
}

/// Appends the faults of the tables of an array, without the one that came first.
fn push_array(
    alloc: Global,
    out: &mut Vec<u8>,
    text: &str,
    top: &Table,
    head: Head,
    array: Array,
    first: &FaultPlace,
    count: usize,
) -> Result<usize, AllocError> {
    let Some(Value::Array(items)) = field(top, array.key()) else {
        return Ok(count);
    };
    let mut count = count;
    for (number, item) in items.iter().enumerate() {
        if is_in(first, array, number) {
            continue;
        }
        if let Some(place) = place_of_member(alloc, head, array, number, item)? {
            count = push_other(alloc, out, text, top, Found { head, place }, count)?;
        }
    }
    Ok(count)
}

/// Appends the first fault of each table, without the one that came first.
fn push_others(
    alloc: Global,
    out: &mut Vec<u8>,
    text: &str,
    top: &Table,
    first: &FaultPlace,
) -> Result<usize, AllocError> {
    let head = any_head(top)?;
    let mut count = 1;
    for wanted in &ARRAYS {
        if let Form::Tables(array) = wanted.form {
            count = push_array(alloc, out, text, top, head, array, first, count)?;
        }
    }
    Ok(count)
}

/// Appends what is wrong with the tables of a text, a line each: first the fault at this place,
/// then the first fault of each other table, in the order of the text; at most 20, and how many
/// more there are.
pub fn push_faults(
    alloc: Global,
    out: &mut Vec<u8>,
    text: &str,
    top: &Table,
    found: Found,
) -> Appended {
    let first = found.place;
    push_fault(alloc, out, text, top, found)?;
    let count = push_others(alloc, out, text, top, &first)?;
    push_more(out, count)
}
