//! A whole topology text as it is read, with names in place of numbers.

ghost use Rattle.std.specs.Prelude.{◌≤◌};
ghost use Rattle.nm_topology.specs.declared.keys.key.TableKey.TheVariants as key;
ghost use Rattle.toml.specs.View.{table_view};
ghost use Rattle.nm_topology.specs.Parse.Document.{document_of, format_of, with_tables};
ghost use Rattle.nm_topology.specs.Parse.Fields.{required, value_at};
ghost use Rattle.nm_topology.specs.Fault.{Gives};

use crate::fault::TopoFault;
use crate::keys::array::Array;
use crate::keys::fields::{FORMAT, MTU, STOP, TOP_TABLE};
use crate::keys::key::TableKey;
use crate::parse::arrays::tables;
use crate::parse::fields::{only, required_number};
use crate::parse::head::{Format, Head};
use crate::parse::sources::SourceTable;
use crate::parse::tables::{IfaceTable, LinkTable, NodeTable, RouteTable};
use nm_base::Time;
use std::alloc::Global;
use std::marker::Model;
use toml::Table;

/// The content of a topology text.
#[derive(Drop)]
pub struct Document {
    pub stop: Time,
    pub mtu: u16,
    pub nodes: Vec<NodeTable>,
    pub ifaces: Vec<IfaceTable>,
    pub links: Vec<LinkTable>,
    pub routes: Vec<RouteTable>,
    pub sources: Vec<SourceTable>,
}

impl Model for Document {
    ghost use Rattle.std.specs.Prelude.{◌≤◌, length};
    ghost use Rattle.nm_base.specs.declared.limits.TheConstants.{MAX_IFACES, MAX_LINKS, MAX_NODES};
    ghost use Rattle.nm_base.specs.declared.limits.TheConstants.{MAX_SOURCES};
    ghost use Rattle.nm_topology.specs.Parse.DocumentValue.{DocumentValue};

    ghost Value = { DocumentValue };

    ghost invariant = { λ d. (length d.nodes.items ≤ MAX_NODES)
        × (length d.ifaces.items ≤ MAX_IFACES) × (length d.links.items ≤ MAX_LINKS)
        × (length d.sources.items ≤ MAX_SOURCES) };

    ghost view = { λ d. record {
      stop = d.stop;
      mtu = d.mtu;
      nodes = d.nodes.items;
      ifaces = d.ifaces.items;
      links = d.links.items;
      routes = d.routes.items;
      sources = d.sources.items;
    } };
}

/// Reads the arrays of tables of a text with this head and this `stop`.
#[tactic(auto, unfolding(crate::specs::Parse::Document::with_tables))]
fn read_tables(alloc: Global, head: Head, stop: Time, table: &Table) -> Result<Document, TopoFault>
    ensures { Gives (λ x. x) result (with_tables head stop (table_view table.now)) }
{
    let nodes = tables(alloc, head, table, Array::Node)?;
    let ifaces = tables(alloc, head, table, Array::Iface)?;
    let links = tables(alloc, head, table, Array::Link)?;
    let routes = tables(alloc, head, table, Array::Route)?;
    let sources = tables(alloc, head, table, Array::Source)?;
    Ok(Document {
        stop,
        mtu: head.mtu,
        nodes,
        ifaces,
        links,
        routes,
        sources,
    })
}

/// Reads the format of a text.
fn required_format(table: &Table) -> Result<Format, TopoFault>
    ensures { Gives (λ f. f) result
        (required format_of (value_at key.Format (table_view table.now))) }
{
    match required_number(table, TableKey::Format, FORMAT)? {
        1 => Ok(Format::One),
        _ => Ok(Format::Two),
    }
}

/// Reads the top table.
#[tactic(auto, unfolding(crate::specs::Parse::Document::document_of))]
pub fn read_document(alloc: Global, table: &Table) -> Result<Document, TopoFault>
    ensures { Gives (λ x. x) result (document_of (table_view table.now)) }
{
    only(table, &TOP_TABLE)?;
    let format = required_format(table)?;
    let stop = required_number(table, TableKey::Stop, STOP)?;
    let mtu = required_number(table, TableKey::Mtu, MTU)? as u16;
    read_tables(
        alloc,
        Head { format, mtu },
        Time::from_nanoseconds(stop),
        table,
    )
}
