//! Arrays of a topology text: the value of each member, in order.

ghost use Rattle.std.specs.Prelude.{◌≡◌, ◌≤◌, Bool, [], length, IfOk, Result};
ghost use Rattle.toml.specs.Data.{Data, Members};
ghost use Rattle.toml.specs.View.{view, items_view, table_view};
ghost use Rattle.nm_topology.specs.declared.fault.Refusal.{Refusal as RefusalValue};
ghost use Rattle.nm_topology.specs.declared.parse.head.Head.{Head as HeadValue};
ghost use Rattle.nm_topology.specs.Parse.Arrays.{all_fit, each, members_of, array_of, in_table};
ghost use Rattle.nm_topology.specs.Parse.Arrays.{is_table, tables_at};
ghost use Rattle.nm_topology.specs.Fault.{Gives};
ghost use Rattle.nm_topology.specs.Keys.{array_limit};
ghost use Rattle.nm_topology.specs.Parse.Fields.{optional, value_at};

use crate::fault::{Refusal, TopoFault};
use crate::keys::array::Array;
use crate::keys::key::TableKey;
use crate::parse::fields::field;
use crate::parse::head::Head;
use std::alloc::Global;
use toml::{Table, Value};

/// The value of a member of an array.
pub trait Member: Drop {
    // Whether a value has the TOML type of these members.
    ghost has_type: { Data → Bool };

    /// Whether the value has the TOML type of these members.
    fn is_of_type(value: &Value) -> bool
        ensures { result ≡ has_type (view value.now) };
}

/// A member that is read by itself.
pub trait Element: Member {
    // The value of it, in a text with this head.
    ghost reads: { HeadValue → Data → Result Self RefusalValue };

    /// Reads a member of a text with this head.
    fn read(alloc: Global, head: Head, value: &Value) -> Result<Self, TopoFault>
        ensures { Gives (λ x. x) result (reads head (view value.now)) };
}

/// A member that is a table, and is read by its keys.
pub trait FromTable: Drop {
    // The value of a table, in a text with this head.
    ghost of_table: { HeadValue → Members → Result Self RefusalValue };

    /// Reads a table of a text with this head.
    fn from_table(alloc: Global, head: Head, table: &Table) -> Result<Self, TopoFault>
        ensures { Gives (λ x. x) result (of_table head (table_view table.now)) };
}

impl<T: FromTable> Member for T {
    ghost has_type = { is_table };

    fn is_of_type(value: &Value) -> bool {
        matches!(value, Value::Table(_))
    }
}

impl<T: FromTable> Element for T {
    ghost reads = { λ head d. in_table (T.of_table head) d };

    fn read(alloc: Global, head: Head, value: &Value) -> Result<T, TopoFault> {
        match value {
            Value::Table(table) => T::from_table(alloc, head, table),
            _ => Err(TopoFault::Refused(Refusal::Kind)),
        }
    }
}

/// An optional array of at most `limit` members of one type; absent is empty.
pub fn optional_array<T: Element>(
    alloc: Global,
    head: Head,
    table: &Table,
    key: TableKey,
    limit: usize,
) -> Result<Vec<T>, TopoFault>
    ensures count { IfOk result (λ v. length v.items ≤ limit) }
    ensures value { Gives (λ v. v.items) result
        (optional [] (array_of T.has_type limit (T.reads head))
        (value_at key (table_view table.now))) }
{
    match field(table, key) {
        Some(value) => array(alloc, head, limit, value),
        None => Ok(Vec::new(alloc)),
    }
}

/// The tables of an array; absent is empty.
pub fn tables<T: FromTable>(
    alloc: Global,
    head: Head,
    table: &Table,
    array: Array,
) -> Result<Vec<T>, TopoFault>
    ensures count { IfOk result (λ v. length v.items ≤ array_limit array) }
    ensures value { Gives (λ v. v.items) result
        (tables_at (T.of_table head) array (table_view table.now)) }
{
    optional_array(alloc, head, table, array.key(), array.limit())
}

/// An array of members of one type, of which there are at most `limit`.
fn array<T: Element>(
    alloc: Global,
    head: Head,
    limit: usize,
    value: &Value,
) -> Result<Vec<T>, TopoFault>
    ensures count { IfOk result (λ v. length v.items ≤ limit) }
    ensures value { Gives (λ v. v.items) result
        (array_of T.has_type limit (T.reads head) (view value.now)) }
{
    match value {
        Value::Array(items) => members(alloc, head, limit, items),
        _ => Err(TopoFault::Refused(Refusal::Kind)),
    }
}

#[tactic(auto, using(crate::proofs::Members::count_view))]
fn members<T: Element>(
    alloc: Global,
    head: Head,
    limit: usize,
    items: &[Value],
) -> Result<Vec<T>, TopoFault>
    ensures count { IfOk result (λ v. length v.items ≤ limit) }
    ensures value { Gives (λ v. v.items) result
        (members_of T.has_type limit (T.reads head) (items_view items.now)) }
{
    if !all_fit::<T>(items) {
        return Err(TopoFault::Refused(Refusal::Kind));
    }
    if items.len() > limit {
        return Err(TopoFault::Refused(Refusal::TooMany));
    }
    each(alloc, head, items)
}

pub fn all_fit<T: Member>(items: &[Value]) -> bool
    ensures { result ≡ all_fit T.has_type (items_view items.now) }
{
    for item in items {
        if !T::is_of_type(item) {
            return false;
        }
    }
    true
}

fn each<T: Element>(alloc: Global, head: Head, items: &[Value]) -> Result<Vec<T>, TopoFault>
    ensures count { IfOk result (λ v. length v.items ≡ length items.now) }
    ensures value { Gives (λ v. v.items) result (each (T.reads head) (items_view items.now)) }
{
    let mut members = Vec::new(alloc);
    for item in items {
        let member = T::read(alloc, head, item)?;
        members.push(member)?;
    }
    Ok(members)
}
