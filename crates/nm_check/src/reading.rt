//! Whether the value of a key is refused, by the readers of `nm_topology`. What they give is
//! dropped.

ghost use Rattle.std.specs.Prelude.{[]};
ghost use Rattle.nm_base.specs.declared.limits.TheConstants.{MAX_PORTS_OF_NODE};
ghost use Rattle.toml.specs.View.{table_view};
ghost use Rattle.nm_topology.specs.declared.keys.fields.TheConstants.{PORT};
ghost use Rattle.nm_topology.specs.Fault.{Gives};
ghost use Rattle.nm_topology.specs.Parse.Arrays.{array_of, is_integer};
ghost use Rattle.nm_topology.specs.Parse.Fields.{number_in, number_or, optional, value_at};
ghost use Rattle.nm_check.specs.Reading.{field_of, outcome, tables_of};

use nm_base::limits::MAX_PORTS_OF_NODE;
use nm_topology::TopoFault;
use nm_topology::keys::array::Array;
use nm_topology::keys::field::{Bounds, Field, Form};
use nm_topology::keys::fields::size_under;
use nm_topology::keys::key::TableKey;
use nm_topology::parse::arrays::optional_array;
use nm_topology::parse::fields::{
    field, number, required_address, required_name, required_node_kind, required_number,
    required_prefix,
};
use nm_topology::parse::head::Head;
use nm_topology::parse::sources::{
    SourceTable, required_octets, required_packets, required_source_kind,
};
use nm_topology::parse::tables::{IfaceTable, LinkTable, NodeTable, RouteTable};
use std::alloc::Global;
use toml::Table;

/// Reads the tables of an array.
fn read_tables(
    alloc: Global,
    head: Head,
    table: &Table,
    key: TableKey,
    array: Array,
) -> Result<(), TopoFault>
    ensures { Gives (λ u. u) result (tables_of head array (value_at key (table_view table.now))) }
{
    let limit = array.limit();
    match array {
        Array::Node => {
            let _ = optional_array::<NodeTable>(alloc, head, table, key, limit)?;
        }
        Array::Iface => {
            let _ = optional_array::<IfaceTable>(alloc, head, table, key, limit)?;
        }
        Array::Link => {
            let _ = optional_array::<LinkTable>(alloc, head, table, key, limit)?;
        }
        Array::Route => {
            let _ = optional_array::<RouteTable>(alloc, head, table, key, limit)?;
        }
        Array::Source => {
            let _ = optional_array::<SourceTable>(alloc, head, table, key, limit)?;
        }
    }
    Ok(())
}

/// Reads the ports of a node.
fn read_ports(alloc: Global, head: Head, table: &Table, key: TableKey) -> Result<(), TopoFault>
    ensures { Gives (λ u. u) result
        (outcome (optional []
        (array_of is_integer MAX_PORTS_OF_NODE (number_in PORT.least PORT.greatest))
        (value_at key (table_view table.now)))) }
{
    let _ = optional_array::<u16>(alloc, head, table, key, MAX_PORTS_OF_NODE)?;
    Ok(())
}

/// Reads a number that may be absent.
fn read_optional_number(table: &Table, key: TableKey, bounds: Bounds) -> Result<(), TopoFault>
    ensures { Gives (λ u. u) result (outcome (number_or 0 key bounds (table_view table.now))) }
{
    match field(table, key) {
        Some(value) => {
            let _ = number(value, bounds)?;
            Ok(())
        }
        None => Ok(()),
    }
}

/// Reads a field of a table, in a text with this head.
pub fn read_field(alloc: Global, head: Head, table: &Table, wanted: Field) -> Result<(), TopoFault>
    ensures { Gives (λ u. u) result (field_of head (table_view table.now) wanted) }
{
    let key = wanted.key;
    match wanted.form {
        Form::Number(bounds) => {
            let _ = required_number(table, key, bounds)?;
        }
        Form::Size => {
            let _ = required_number(table, key, size_under(head.mtu))?;
        }
        Form::Name => {
            let _ = required_name(alloc, table, key)?;
        }
        Form::Address => {
            let _ = required_address(table, key)?;
        }
        Form::Prefix => {
            let _ = required_prefix(table, key)?;
        }
        Form::NodeKind => {
            let _ = required_node_kind(table, key)?;
        }
        Form::SourceKind => {
            let _ = required_source_kind(table, key)?;
        }
        Form::Packets => {
            let _ = required_packets(alloc, head.mtu, table, key)?;
        }
        Form::Octets => {
            let _ = required_octets(alloc, head.mtu, table, key)?;
        }
        Form::OptionalNumber(bounds) => read_optional_number(table, key, bounds)?,
        Form::Ports => read_ports(alloc, head, table, key)?,
        Form::Tables(array) => read_tables(alloc, head, table, key, array)?,
    }
    Ok(())
}
