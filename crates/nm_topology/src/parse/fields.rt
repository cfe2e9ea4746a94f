//! Fields of a table, each read by its key.

ghost use Rattle.std.specs.Prelude.{◌≡◌, IfOk, option_map, string_bytes};
ghost use Rattle.std.specs.List.{list_all, list_any};
ghost use Rattle.std.specs.Str.{bytes_eq};
ghost use Rattle.std.specs.BTreeMap.{keys};
ghost use Rattle.toml.specs.View.{table_view, view};
ghost use Rattle.nm_topology.specs.Fault.{Gives};
ghost use Rattle.nm_topology.specs.Keys.{IsInBounds, keys_of};
ghost use Rattle.nm_topology.specs.Parse.Fields.{number_at, number_in, number_or, only, plain_text};
ghost use Rattle.nm_topology.specs.Parse.Fields.{required, text_at, value_at};
ghost use Rattle.nm_topology.specs.Parse.Forms.{name_of, node_kind_of, usable_address_of};
ghost use Rattle.nm_topology.specs.Parse.Forms.{prefix_of};

use crate::fault::{Refusal, TopoFault};
use crate::keys::field::{Bounds, Field};
use crate::keys::key::TableKey;
use crate::node::NodeKind;
use crate::parse::forms::{is_name, prefix_of, usable_address_of};
use crate::prefix::Prefix;
use nm_packet::Address;
use std::alloc::Global;
use toml::{Table, Value};

/// The value at a key, if there is one.
pub fn field<'a>(table: &'a Table, key: TableKey) -> Option<&'a Value>
    ensures { option_map (λ v. view v.now) result ≡ value_at key (table_view table.now) }
{
    table.get(key.text())
}

/// A whole number within bounds.
pub fn number(value: &Value, bounds: Bounds) -> Result<u64, TopoFault>
    ensures within { IfOk result (IsInBounds bounds) }
    ensures value { Gives (λ n. n) result
        (number_in bounds.least bounds.greatest (view value.now)) }
{
    let Some(found) = value.as_integer() else {
        return Err(TopoFault::Refused(Refusal::Kind));
    };
    match u64::try_from(found) {
        Ok(number) if bounds.least <= number && number <= bounds.greatest => Ok(number),
        _ => Err(TopoFault::Refused(Refusal::Range)),
    }
}

/// A required whole number.
pub fn required_number(table: &Table, key: TableKey, bounds: Bounds) -> Result<u64, TopoFault>
    ensures within { IfOk result (IsInBounds bounds) }
    ensures value { Gives (λ n. n) result (number_at key bounds (table_view table.now)) }
{
    match field(table, key) {
        Some(value) => number(value, bounds),
        None => Err(TopoFault::Refused(Refusal::Missing)),
    }
}

/// An optional whole number, or `absent`.
pub fn optional_number(
    table: &Table,
    key: TableKey,
    bounds: Bounds,
    absent: u64,
) -> Result<u64, TopoFault>
    requires { IsInBounds bounds absent }
    ensures within { IfOk result (IsInBounds bounds) }
    ensures value { Gives (λ n. n) result (number_or absent key bounds (table_view table.now)) }
{
    match field(table, key) {
        Some(value) => number(value, bounds),
        None => Ok(absent),
    }
}

/// A required text.
pub fn required_plain_text<'a>(table: &'a Table, key: TableKey) -> Result<&'a str, TopoFault>
    ensures { Gives (λ s. s.now) result
        (required plain_text (value_at key (table_view table.now))) }
{
    let Some(value) = field(table, key) else {
        return Err(TopoFault::Refused(Refusal::Missing));
    };
    match value.as_str() {
        Some(text) => Ok(text),
        None => Err(TopoFault::Refused(Refusal::Kind)),
    }
}

/// A required name.
pub fn required_name(alloc: Global, table: &Table, key: TableKey) -> Result<String, TopoFault>
    ensures { Gives string_bytes result (text_at name_of key (table_view table.now)) }
{
    let text = required_plain_text(table, key)?;
    if !is_name(text.as_bytes()) {
        return Err(TopoFault::Refused(Refusal::Range));
    }
    Ok(String::from_str(alloc, text)?)
}

/// A required address that is no martian.
pub fn required_address(table: &Table, key: TableKey) -> Result<Address, TopoFault>
    ensures { Gives (λ a. a) result (text_at usable_address_of key (table_view table.now)) }
{
    let text = required_plain_text(table, key)?;
    match usable_address_of(text.as_bytes()) {
        Some(address) => Ok(address),
        None => Err(TopoFault::Refused(Refusal::Range)),
    }
}

/// A required prefix.
pub fn required_prefix(table: &Table, key: TableKey) -> Result<Prefix, TopoFault>
    ensures { Gives (λ p. p) result (text_at prefix_of key (table_view table.now)) }
{
    let text = required_plain_text(table, key)?;
    match prefix_of(text) {
        Some(prefix) => Ok(prefix),
        None => Err(TopoFault::Refused(Refusal::Range)),
    }
}

/// Whether each key of the table is that of one of these fields.
fn has_only(table: &Table, fields: &[Field]) -> bool
    ensures { result ≡ list_all (λ k. list_any (λ l. bytes_eq l (string_bytes k))
        (keys_of fields.now)) (keys table.now) }
{
    table.keys().all(|key| is_key_of(fields, key.as_str()))
}

/// Whether a key is that of one of these fields.
pub fn is_key_of(fields: &[Field], key: &str) -> bool
    ensures { result ≡ list_any (λ k. bytes_eq k key.now) (keys_of fields.now) }
{
    for known in fields {
        if known.key.text() == key {
            return true;
        }
    }
    false
}

/// Refuses a table with a key that is none of these fields'.
pub fn only(table: &Table, fields: &[Field]) -> Result<(), TopoFault>
    ensures { Gives (λ u. u) result (only (keys_of fields.now) (table_view table.now)) }
{
    if has_only(table, fields) {
        Ok(())
    } else {
        Err(TopoFault::Refused(Refusal::UnknownKey))
    }
}

/// A required text that names one of a few kinds.
pub fn required_node_kind(table: &Table, key: TableKey) -> Result<NodeKind, TopoFault>
    ensures { Gives (λ k. k) result (text_at node_kind_of key (table_view table.now)) }
{
    match required_plain_text(table, key)? {
        "host" => Ok(NodeKind::Host),
        "router" => Ok(NodeKind::Router),
        _ => Err(TopoFault::Refused(Refusal::Range)),
    }
}
