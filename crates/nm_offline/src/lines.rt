//! The lines of interfaces: how many records each has, and the octets of its trace file.

ghost use Rattle.std.specs.Prelude.{◌≡◌, ℕ, ◌<◌, ◌++◌, OnOk, Some, length, slice_get};
ghost use Rattle.nm_topology.specs.PartValues.{IfaceValue};
ghost use Rattle.nm_offline.specs.Lines.{AreOfPartitions, AreTotals, iface_line, iface_lines};

use nm_base::{push_number, push_text};
use nm_book::Book;
use nm_book::channels::partition_of;
use nm_sim::network::every_topology_is_a_network;
use nm_topology::Topology;
use nm_topology::parts::Iface;
use std::alloc::AllocError;

/// Appends the line of an interface that has so many records and octets of its trace file.
pub fn push_iface_line(
    text: &mut Vec<u8>,
    iface: &Iface,
    records: u64,
    octets: u64,
) -> Result<(), AllocError>
    ensures { OnOk result
        (text.new.items ≡ text.old.items ++ iface_line iface.now (records, octets)) }
{
    push_text(text, b"iface ")?;
    push_text(text, iface.name().as_bytes())?;
    push_text(text, b" records ")?;
    push_number(text, records)?;
    push_text(text, b" octets ")?;
    push_number(text, octets)?;
    push_text(text, b"\n")
}

/// Appends the line of an interface, with what the book of its partition has.
fn push_line_of(
    text: &mut Vec<u8>,
    topology: &Topology,
    books: &[Book],
    number: usize,
) -> Result<(), AllocError>
    requires there { number < length topology.now.ifaces }
    requires books { AreOfPartitions topology.now books.now }
    ensures { (totals : ℕ → ℕ × ℕ) → AreTotals topology.now books.now totals
        → (iface : IfaceValue) → slice_get topology.now.ifaces number ≡ Some iface
        → OnOk result (text.new.items
        ≡ text.old.items ++ iface_line iface (totals number)) }
{
    every_topology_is_a_network(topology); // law: an interface's partition is there
    let iface = topology.iface_number(number);
    let partition = partition_of(topology, iface);
    let (records, octets) = books[partition.index()].totals(iface);
    push_iface_line(text, topology.iface(iface), records, octets)
}

/// Appends the lines of all interfaces, in the order of the topology's text. Book p is one of
/// partition p.
pub fn push_lines(text: &mut Vec<u8>, topology: &Topology, books: &[Book]) -> Result<(), AllocError>
    requires books { AreOfPartitions topology.now books.now }
    ensures { (totals : ℕ → ℕ × ℕ) → AreTotals topology.now books.now totals → OnOk result
        (text.new.items ≡ text.old.items ++ iface_lines totals topology.now) }
{
    for number in 0..topology.ifaces().len() {
        push_line_of(text, topology, books, number)?;
    }
    Ok(())
}
