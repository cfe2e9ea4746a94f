//! The tables of a topology text, each read by itself.

ghost use Rattle.std.specs.Prelude.{◌≤◌};
ghost use Rattle.toml.specs.View.{table_view};
ghost use Rattle.nm_topology.specs.declared.keys.fields.TheConstants.{QUEUE_OCTETS};
ghost use Rattle.nm_topology.specs.declared.keys.key.TableKey.TheVariants as key;
ghost use Rattle.nm_topology.specs.Fault.{Gives};
ghost use Rattle.nm_topology.specs.Parse.Fields.{only, some_number_at};
ghost use Rattle.nm_topology.specs.Parse.Tables.{iface_keys, iface_table_of, link_table_of};
ghost use Rattle.nm_topology.specs.Parse.Tables.{node_table_of, route_table_of};

use crate::fault::TopoFault;
use crate::keys::fields::{
    DELAY, IFACE_TABLE_ONE, IFACE_TABLE_TWO, LINK_TABLE, NODE_TABLE, PARTITION, PORT, QUEUE,
    QUEUE_OCTETS, RATE, ROUTE_TABLE,
};
use crate::keys::key::TableKey;
use crate::names::Named;
use crate::node::NodeKind;
use crate::parse::arrays::{Element, FromTable, Member, optional_array};
use crate::parse::fields::{
    field, number, only, required_address, required_name, required_node_kind, required_number,
    required_prefix,
};
use crate::parse::head::{Format, Head};
use crate::prefix::Prefix;
use nm_base::limits::MAX_PORTS_OF_NODE;
use nm_packet::Address;
use std::alloc::Global;
use std::marker::Model;
use toml::{Table, Value};

/// A table of `node`.
#[derive(Drop)]
pub struct NodeTable {
    pub name: String,
    pub kind: NodeKind,
    pub partition: u8,
    pub ports: Vec<u16>,
}

impl Model for NodeTable {
    ghost use Rattle.std.specs.Prelude.{◌≤◌, string_bytes};
    ghost use Rattle.nm_base.specs.declared.limits.TheConstants.{MAX_PARTITION};
    ghost use Rattle.nm_topology.specs.Parse.TableValues.{NodeTableValue};

    ghost Value = { NodeTableValue };

    ghost invariant = { λ r. r.partition ≤ MAX_PARTITION };

    ghost view = { λ r. record {
      name = string_bytes r.name;
      kind = r.kind;
      partition = r.partition;
      ports = r.ports.items;
    } };
}

impl Named for NodeTable {
    ghost name = { λ t. t.name };

    fn name(&self) -> &str {
        self.name.as_str()
    }
}

/// A table of `iface`.
#[derive(Drop)]
pub struct IfaceTable {
    pub name: String,
    pub node: String,
    pub address: Address,
    pub queue: u16,
    pub queue_octets: Option<u32>,
}

impl Model for IfaceTable {
    ghost use Rattle.std.specs.Prelude.{string_bytes};
    ghost use Rattle.nm_topology.specs.Parse.TableValues.{IfaceTableValue};

    ghost Value = { IfaceTableValue };

    ghost view = { λ r. record {
      name = string_bytes r.name;
      node = string_bytes r.node;
      address = r.address;
      queue = r.queue;
      queue_octets = r.queue_octets;
    } };
}

impl Named for IfaceTable {
    ghost name = { λ t. t.name };

    fn name(&self) -> &str {
        self.name.as_str()
    }
}

/// A table of `link`.
#[derive(Drop)]
pub struct LinkTable {
    pub a: String,
    pub b: String,
    pub rate: u64,
    pub delay: u64,
}

impl Model for LinkTable {
    ghost use Rattle.std.specs.Prelude.{string_bytes};
    ghost use Rattle.nm_topology.specs.Parse.TableValues.{LinkTableValue};

    ghost Value = { LinkTableValue };

    ghost view = { λ r. record {
      a = string_bytes r.a;
      b = string_bytes r.b;
      rate = r.rate;
      delay = r.delay;
    } };
}

/// A table of `route`.
#[derive(Drop)]
pub struct RouteTable {
    pub node: String,
    pub to: Prefix,
    pub via: String,
}

impl Model for RouteTable {
    ghost use Rattle.std.specs.Prelude.{string_bytes};
    ghost use Rattle.nm_topology.specs.Parse.TableValues.{RouteTableValue};

    ghost Value = { RouteTableValue };

    ghost view = { λ r. record {
      node = string_bytes r.node;
      to = r.to;
      via = string_bytes r.via;
    } };
}

/// Refuses a table of `iface` with a key that the format does not have.
fn only_iface_keys(format: Format, table: &Table) -> Result<(), TopoFault>
    ensures { Gives (λ u. u) result (only (iface_keys format) (table_view table.now)) }
{
    match format {
        Format::One => only(table, &IFACE_TABLE_ONE),
        Format::Two => only(table, &IFACE_TABLE_TWO),
    }
}

/// Reads the limit in octets, if there is one. Only a table of format 2 has its key.
fn queue_octets(table: &Table) -> Result<Option<u32>, TopoFault>
    ensures { Gives (λ n. n) result
        (some_number_at key.QueueOctets QUEUE_OCTETS (table_view table.now)) }
{
    match field(table, TableKey::QueueOctets) {
        Some(value) => Ok(Some(number(value, QUEUE_OCTETS)? as u32)),
        None => Ok(None),
    }
}

#[tactic(auto, unfolding(crate::specs::Parse::Tables::iface_table_of))]
fn iface_table(alloc: Global, format: Format, table: &Table) -> Result<IfaceTable, TopoFault>
    ensures { Gives (λ x. x) result (iface_table_of format (table_view table.now)) }
{
    only_iface_keys(format, table)?;
    let name = required_name(alloc, table, TableKey::Name)?;
    let node = required_name(alloc, table, TableKey::Node)?;
    let address = required_address(table, TableKey::Address)?;
    let queue = required_number(table, TableKey::Queue, QUEUE)?;
    let queue_octets = queue_octets(table)?;
    Ok(IfaceTable {
        name,
        node,
        address,
        queue: queue as u16,
        queue_octets,
    })
}

#[tactic(auto, unfolding(crate::specs::Parse::Tables::link_table_of))]
fn link_table(alloc: Global, table: &Table) -> Result<LinkTable, TopoFault>
    ensures { Gives (λ x. x) result (link_table_of (table_view table.now)) }
{
    only(table, &LINK_TABLE)?;
    let a = required_name(alloc, table, TableKey::A)?;
    let b = required_name(alloc, table, TableKey::B)?;
    let rate = required_number(table, TableKey::Rate, RATE)?;
    let delay = required_number(table, TableKey::Delay, DELAY)?;
    Ok(LinkTable { a, b, rate, delay })
}

#[tactic(auto, unfolding(crate::specs::Parse::Tables::route_table_of))]
fn route_table(alloc: Global, table: &Table) -> Result<RouteTable, TopoFault>
    ensures { Gives (λ x. x) result (route_table_of (table_view table.now)) }
{
    only(table, &ROUTE_TABLE)?;
    let node = required_name(alloc, table, TableKey::Node)?;
    let to = required_prefix(table, TableKey::To)?;
    let via = required_name(alloc, table, TableKey::Via)?;
    Ok(RouteTable { node, to, via })
}

impl Member for u16 {
    ghost use Rattle.nm_topology.specs.Parse.Arrays.{is_integer};

    ghost has_type = { is_integer };

    fn is_of_type(value: &Value) -> bool {
        matches!(value, Value::Integer(_))
    }
}

impl Element for u16 {
    ghost use Rattle.nm_topology.specs.declared.keys.fields.TheConstants.{PORT};
    ghost use Rattle.nm_topology.specs.Parse.Fields.{number_in};

    ghost reads = { λ head d. number_in PORT.least PORT.greatest d };

    fn read(_alloc: Global, _head: Head, value: &Value) -> Result<u16, TopoFault> {
        Ok(number(value, PORT)? as u16)
    }
}

#[tactic(auto, unfolding(crate::specs::Parse::Tables::node_table_of))]
fn node_table(alloc: Global, head: Head, table: &Table) -> Result<NodeTable, TopoFault>
    ensures { Gives (λ x. x) result (node_table_of (table_view table.now)) }
{
    only(table, &NODE_TABLE)?;
    let name = required_name(alloc, table, TableKey::Name)?;
    let kind = required_node_kind(table, TableKey::Kind)?;
    let partition = required_number(table, TableKey::Partition, PARTITION)?;
    let ports = optional_array(alloc, head, table, TableKey::Ports, MAX_PORTS_OF_NODE)?;
    Ok(NodeTable {
        name,
        kind,
        partition: partition as u8,
        ports,
    })
}

impl FromTable for NodeTable {
    ghost use Rattle.nm_topology.specs.Parse.Tables.{node_table_of};

    ghost of_table = { λ head t. node_table_of t };

    fn from_table(alloc: Global, head: Head, table: &Table) -> Result<NodeTable, TopoFault> {
        node_table(alloc, head, table)
    }
}

impl FromTable for IfaceTable {
    ghost use Rattle.nm_topology.specs.Parse.Tables.{iface_table_of};

    ghost of_table = { λ head t. iface_table_of head.format t };

    fn from_table(alloc: Global, head: Head, table: &Table) -> Result<IfaceTable, TopoFault> {
        iface_table(alloc, head.format, table)
    }
}

impl FromTable for LinkTable {
    ghost use Rattle.nm_topology.specs.Parse.Tables.{link_table_of};

    ghost of_table = { λ head t. link_table_of t };

    fn from_table(alloc: Global, _head: Head, table: &Table) -> Result<LinkTable, TopoFault> {
        link_table(alloc, table)
    }
}

impl FromTable for RouteTable {
    ghost use Rattle.nm_topology.specs.Parse.Tables.{route_table_of};

    ghost of_table = { λ head t. route_table_of t };

    fn from_table(alloc: Global, _head: Head, table: &Table) -> Result<RouteTable, TopoFault> {
        route_table(alloc, table)
    }
}
