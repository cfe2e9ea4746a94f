//! What is wrong with a field of a table, as a sentence.

use crate::expected::{bounds_of, form_fault, limit_of, type_due, type_of};
use crate::hint::push_hint;
use crate::pieces::{Appended, Piece, push};
use crate::spot::FieldFault;
use crate::units::unit_of;
use nm_topology::Refusal;
use nm_topology::keys::field::{Bounds, Field, Form};
use nm_topology::keys::fields::PORT;
use nm_topology::keys::key::TableKey;
use nm_topology::parse::fields::{field, number};
use nm_topology::parse::head::Head;
use toml::{Table, Value};

/// Appends what the number behind a key counts, with an example.
fn push_unit(out: &mut Vec<u8>, key: TableKey) -> Appended {
    match unit_of(key) {
        Some(unit) => push(out, &[Piece::Text("; "), Piece::Text(unit)]),
        None => Ok(()),
    }
}

/// Appends a whole number, and that it is in no such range.
fn push_out_of_range(out: &mut Vec<u8>, number: i64, bounds: Option<Bounds>) -> Appended {
    let sign = if number < 0 { "-" } else { "" };
    push(
        out,
        &[
            Piece::Text(" is "),
            Piece::Text(sign),
            Piece::Number(number.unsigned_abs()),
        ],
    )?;
    let Some(Bounds { least, greatest }) = bounds else {
        return Ok(());
    };
    push(
        out,
        &[
            Piece::Text(", not within "),
            Piece::Number(least),
            Piece::Text(" to "),
            Piece::Number(greatest),
        ],
    )
}

/// Appends what is wrong with a value that has the type of its field, but is not in its form.
fn push_form_fault(out: &mut Vec<u8>, head: Head, wanted: Field, value: &Value) -> Appended {
    match value {
        Value::Integer(number) => {
            push_out_of_range(out, *number, bounds_of(head, wanted.form))?;
            push_unit(out, wanted.key)
        }
        Value::String(text) => push_text_fault(out, head, wanted, text.as_str()),
        _ => push(out, &[Piece::Text(" is out of its range")]),
    }
}

/// Appends what is wrong with a text that is not in the form of its field.
fn push_text_fault(out: &mut Vec<u8>, head: Head, wanted: Field, text: &str) -> Appended {
    match wanted.form {
        Form::Octets => push(
            out,
            &[
                Piece::Text(" has "),
                Piece::Number((text.len() / 2) as u64),
                Piece::Text(" octets, not within 1 to "),
                Piece::Number(head.mtu as u64),
            ],
        ),
        form => {
            push(
                out,
                &[
                    Piece::Text(" is "),
                    Piece::Quoted(text),
                    Piece::Text(", "),
                    Piece::Text(form_fault(form, text)),
                ],
            )?;
            push_hint(out, wanted, text)
        }
    }
}

/// Appends that a value is of another type than its field.
fn push_kind(out: &mut Vec<u8>, found: &Value, due: &str) -> Appended {
    push(
        out,
        &[
            Piece::Text(" is "),
            Piece::Text(type_of(found)),
            Piece::Text(", not "),
            Piece::Text(due),
        ],
    )
}

/// The type of each member of a field that is an array.
fn member_due(form: Form) -> &'static str {
    match form {
        Form::Ports => "a whole number",
        _ => "a table",
    }
}

/// Whether a member of an array has the type that is due.
fn is_due(form: Form, value: &Value) -> bool {
    match form {
        Form::Ports => value.is_integer(),
        _ => value.is_table(),
    }
}

/// Whether a member of an array is what it has to be.
fn is_in_range(form: Form, value: &Value) -> bool {
    match (form, value) {
        (Form::Ports, value) => number(value, PORT).is_ok(),
        _ => true,
    }
}

/// Appends which member of an array it is.
fn push_member_name(out: &mut Vec<u8>, wanted: Field, number: usize) -> Appended {
    push(
        out,
        &[
            Piece::Text("member "),
            Piece::Number(number as u64),
            Piece::Text(" of "),
            Piece::Quoted(wanted.key.text()),
        ],
    )
}

/// Appends which member of an array is of another type, or that the array is too long, or which
/// member is out of its range.
fn push_array_fault(out: &mut Vec<u8>, head: Head, wanted: Field, items: &[Value]) -> Appended {
    for (number, item) in items.iter().enumerate() {
        if !is_due(wanted.form, item) {
            push_member_name(out, wanted, number)?;
            return push_kind(out, item, member_due(wanted.form));
        }
    }
    if items.len() > limit_of(wanted.form) {
        return push(
            out,
            &[
                Piece::Quoted(wanted.key.text()),
                Piece::Text(" has "),
                Piece::Number(items.len() as u64),
                Piece::Text(" members, and may have "),
                Piece::Number(limit_of(wanted.form) as u64),
            ],
        );
    }
    for (number, item) in items.iter().enumerate() {
        if !is_in_range(wanted.form, item) {
            push_member_name(out, wanted, number)?;
            return push_form_fault(out, head, wanted, item);
        }
    }
    Ok(())
}

/// Appends what is wrong with a value that has another type than its field, or is out of its range.
fn push_value_fault(out: &mut Vec<u8>, head: Head, fault: FieldFault, value: &Value) -> Appended {
    if let (Form::Ports | Form::Tables(_) | Form::Packets, Value::Array(items)) = (
        fault.field.form,
        value,
    ) {
        return push_array_fault(out, head, fault.field, items);
    }
    push(out, &[Piece::Quoted(fault.field.key.text())])?;
    match fault.refusal {
        Refusal::Kind => {
            push_kind(out, value, type_due(fault.field.form))?;
            push_unit(out, fault.field.key)
        }
        Refusal::Hex => push_hex_fault(out, value),
        _ => push_form_fault(out, head, fault.field, value),
    }
}

/// Why a text is no hexadecimal.
fn hex_fault(text: &str) -> &'static str {
    if text
        .as_bytes()
        .iter()
        .all(|octet| octet.is_ascii_hexdigit())
    {
        ", which has an odd number of digits, and an octet has two"
    } else {
        ", which is not hexadecimal"
    }
}

/// Appends that a text is no hexadecimal.
fn push_hex_fault(out: &mut Vec<u8>, value: &Value) -> Appended {
    let text = value.as_str().unwrap_or("");
    push(
        out,
        &[
            Piece::Text(" is "),
            Piece::Quoted(text),
            Piece::Text(hex_fault(text)),
        ],
    )
}

/// Appends what is wrong with a field of a table.
pub fn push_field_fault(
    out: &mut Vec<u8>,
    head: Head,
    table: &Table,
    fault: FieldFault,
) -> Appended {
    match field(table, fault.field.key) {
        Some(value) => push_value_fault(out, head, fault, value),
        None => {
            push(
                out,
                &[
                    Piece::Text("key "),
                    Piece::Quoted(fault.field.key.text()),
                    Piece::Text(" is missing"),
                ],
            )?;
            push_unit(out, fault.field.key)
        }
    }
}
