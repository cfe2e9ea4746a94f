//! What a field is expected to be, and what it is, in words.

use nm_base::limits::{MAX_PORTS_OF_NODE, MAX_RAW_PACKETS};
use nm_topology::keys::field::{Bounds, Form};
use nm_topology::keys::fields::{PORT, size_under};
use nm_topology::parse::forms::{MAX_NAME, address_of, length_of};
use nm_topology::parse::head::Head;
use toml::Value;

/// The type of a value.
pub fn type_of(value: &Value) -> &'static str {
    match value {
        Value::String(_) => "a text",
        Value::Integer(_) => "a whole number",
        Value::Float(_) => "a number with a point",
        Value::Boolean(_) => "true or false",
        Value::Datetime(_) => "a date or a time",
        Value::Array(_) => "an array",
        Value::Table(_) => "a table",
    }
}

/// The type that a field has.
pub fn type_due(form: Form) -> &'static str {
    match form {
        Form::Number(_) | Form::OptionalNumber(_) | Form::Size => "a whole number",
        Form::Ports => "an array of whole numbers",
        Form::Tables(_) | Form::Packets => "an array of tables",
        _ => "a text",
    }
}

/// The bounds of a field that is a number, or of the members of one that is an array of numbers.
pub fn bounds_of(head: Head, form: Form) -> Option<Bounds> {
    match form {
        Form::Number(bounds) | Form::OptionalNumber(bounds) => Some(bounds),
        Form::Size => Some(size_under(head.mtu)),
        Form::Ports => Some(PORT),
        _ => None,
    }
}

/// How many members an array may have.
pub fn limit_of(form: Form) -> usize {
    match form {
        Form::Tables(array) => array.limit(),
        Form::Packets => MAX_RAW_PACKETS,
        _ => MAX_PORTS_OF_NODE,
    }
}

/// What is wrong with a text that is not in the form of its field.
pub fn form_fault(form: Form, text: &str) -> &'static str {
    match form {
        Form::Name if text.is_empty() => "but a name has a character at least",
        Form::Name if text.len() > MAX_NAME => "but a name has at most 32 characters",
        Form::Name => "but a name is of a to z, 0 to 9 and hyphen, and begins with no hyphen",
        Form::Address if address_of(text.as_bytes()).is_some() => {
            "but no address begins with 0, 127 or 224 to 255"
        }
        Form::Address => "but an address is four numbers 0 to 255 joined by dots",
        Form::Prefix => prefix_fault(text),
        Form::NodeKind => "but a node is a \"host\" or a \"router\"",
        Form::SourceKind => "but a source is \"cbr\", \"echo\" or \"raw\"",
        _ => "out of its range",
    }
}

/// What is wrong with a text that is no prefix.
fn prefix_fault(text: &str) -> &'static str {
    let Some((address, length)) = text.split_once('/') else {
        return "but a prefix is an address, a slash and a number 0 to 32";
    };
    match (address_of(address.as_bytes()), length_of(length)) {
        (Some(_), Some(_)) => "but the bits of its address behind its length are not 0",
        _ => "but a prefix is an address, a slash and a number 0 to 32",
    }
}
