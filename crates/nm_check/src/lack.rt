//! The tables that name what is not there.

use crate::pieces::Appended;
use nm_base::NodeNo;
use nm_topology::keys::array::Array;
use nm_topology::keys::key::TableKey;
use nm_topology::names::Names;
use nm_topology::parse::sources::{NamedTraffic, SourceTable};
use nm_topology::parse::tables::{IfaceTable, LinkTable, RouteTable};

/// What a table names that is not there.
#[derive(Clone, Copy)]
pub enum Lack {
    /// A node of this name.
    Node,
    /// An interface of the name at this key.
    Iface(TableKey),
    /// An interface of its node: `via` is one of another node.
    Own,
}

/// A table that names what is not there: its number, from 0, and what.
#[derive(Clone, Copy)]
pub struct Lacking {
    pub array: Array,
    pub number: usize,
    pub lack: Lack,
}

/// The number of the node of this name.
fn node_number(nodes: &Names, name: &str) -> Result<u32, Lack> {
    match nodes.number(name) {
        Ok(node) => Ok(node),
        Err(_) => Err(Lack::Node),
    }
}

/// The number of the interface of the name at this key.
fn iface_number(ifaces: &Names, key: TableKey, name: &str) -> Result<u32, Lack> {
    match ifaces.number(name) {
        Ok(iface) => Ok(iface),
        Err(_) => Err(Lack::Iface(key)),
    }
}

/// The interface of this name, by which packets leave this node, is one of its own.
fn look_up_via(ifaces: &Names, owners: &[NodeNo], node: u32, name: &str) -> Result<(), Lack> {
    let iface = iface_number(ifaces, TableKey::Via, name)?;
    match owners.get(iface as usize) {
        Some(owner) if owner.number() == node => Ok(()),
        _ => Err(Lack::Own),
    }
}

/// A table that names others.
pub trait LooksUp {
    /// The array that the table is a member of.
    fn array() -> Array;

    /// All that the table names is there, among these nodes and interfaces; and the interface by
    /// which packets leave a node is its own, as their owners say.
    ///
    /// # Errors
    ///
    /// The first that is not.
    fn look_up(&self, nodes: &Names, ifaces: &Names, owners: &[NodeNo]) -> Result<(), Lack>;
}

impl LooksUp for IfaceTable {
    fn array() -> Array {
        Array::Iface
    }

    fn look_up(&self, nodes: &Names, _ifaces: &Names, _owners: &[NodeNo]) -> Result<(), Lack> {
        let _node = node_number(nodes, self.node.as_str())?;
        Ok(())
    }
}

impl LooksUp for LinkTable {
    fn array() -> Array {
        Array::Link
    }

    fn look_up(&self, _nodes: &Names, ifaces: &Names, _owners: &[NodeNo]) -> Result<(), Lack> {
        let _a = iface_number(ifaces, TableKey::A, self.a.as_str())?;
        let _b = iface_number(ifaces, TableKey::B, self.b.as_str())?;
        Ok(())
    }
}

impl LooksUp for RouteTable {
    fn array() -> Array {
        Array::Route
    }

    fn look_up(&self, nodes: &Names, ifaces: &Names, owners: &[NodeNo]) -> Result<(), Lack> {
        let node = node_number(nodes, self.node.as_str())?;
        look_up_via(ifaces, owners, node, self.via.as_str())
    }
}

impl LooksUp for SourceTable {
    fn array() -> Array {
        Array::Source
    }

    fn look_up(&self, nodes: &Names, ifaces: &Names, owners: &[NodeNo]) -> Result<(), Lack> {
        let node = node_number(nodes, self.node.as_str())?;
        match &self.traffic {
            NamedTraffic::Raw(raw) => look_up_via(ifaces, owners, node, raw.via.as_str()),
            _ => Ok(()),
        }
    }
}

/// Appends the tables of an array that lack something.
pub fn push_lacking<T: LooksUp>(
    all: &mut Vec<Lacking>,
    nodes: &Names,
    ifaces: &Names,
    owners: &[NodeNo],
    tables: &[T],
) -> Appended {
    for (number, table) in tables.iter().enumerate() {
        if let Err(lack) = table.look_up(nodes, ifaces, owners) {
            let array = T::array();
            all.push(Lacking {
                array,
                number,
                lack,
            })?;
        }
    }
    Ok(())
}
