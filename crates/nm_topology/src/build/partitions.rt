//! The partitions of nodes and of interfaces.

ghost use Rattle.std.specs.Prelude.{◌≡◌, ◌<◌, ◌≤◌, All, length, map, IfOk};
ghost use Rattle.nm_topology.specs.Build.{part_of, partition_count};

use crate::parse::tables::NodeTable;
use nm_base::{IfaceNo, NodeNo, PartNo};
use std::alloc::{AllocError, Global};

/// The partition of each node.
pub fn partitions_of_nodes(alloc: Global, tables: &[NodeTable]) -> Result<Vec<PartNo>, AllocError>
    ensures len { IfOk result (λ v. length v.items ≡ length tables.now) }
    ensures value { IfOk result (λ v. v.items ≡ map (λ n. n.partition) tables.now) }
{
    tables
        .iter()
        .map(|table| PartNo::new(table.partition as u32))
        .collect(alloc)
}

/// The greatest partition plus one.
pub fn partition_count(tables: &[NodeTable]) -> u32
    ensures within { result ≤ 64 }
    ensures value { result ≡ partition_count (map (λ n. n.partition) tables.now) }
{
    let mut count = 0u32;
    for table in tables {
        count = count.max(table.partition as u32 + 1);
    }
    count
}

/// The partition of an interface.
pub fn part_of(parts: &[PartNo], owners: &[NodeNo], iface: IfaceNo) -> PartNo
    requires iface { iface < length owners.now }
    requires owners { All (λ n. n < length parts.now) owners.now }
    ensures { result ≡ part_of parts.now owners.now iface }
{
    parts[owners[iface.index()].index()]
}
