//! The measures of a run as tables for a reader.

ghost use Rattle.std.specs.Prelude.{IfOk};
ghost use Rattle.nm_measure.specs.Lines.{EndsLine};

use crate::iface_table::push_ifaces;
use crate::source_tables::{Trip, push_sources, push_trips};
use crate::table::{Table, push_left_out};
use nm_base::{NodeNo, push_text};
use nm_forward::Counter;
use nm_measure::{Appended, MadeText, Measured, end_line};
use nm_topology::Topology;
use std::alloc::{AllocError, Global};

/// The counters of a node above 0: whether there are any.
fn add_node(
    table: &mut Table,
    measured: &Measured,
    name: &str,
    node: NodeNo,
) -> Result<bool, AllocError> {
    let mut has_some = false;
    for counter in Counter::ALL {
        let count = measured.counter(node, counter).unwrap_or(0);
        if count > 0 {
            has_some = true;
            table.text(name.as_bytes())?;
            table.text(counter.name().as_bytes())?;
            table.number(count)?;
        }
    }
    Ok(has_some)
}

/// What nodes counted.
fn push_nodes(
    alloc: Global,
    text: &mut Vec<u8>,
    topology: &Topology,
    measured: &Measured,
) -> Appended {
    let mut table = Table::new(alloc, &["node", "counter", "packets"], 2)?;
    let mut idle = 0u64;
    for (number, node) in (0..u32::MAX).zip(topology.nodes()) {
        if !add_node(&mut table, measured, node.name(), NodeNo::new(number))? {
            idle = idle.saturating_add(1);
        }
    }
    table.print(text)?;
    push_left_out(text, "nodes", idle)
}

/// Tables with an empty line between: what passed the interfaces, those first that dropped most or
/// were busiest; what nodes counted; what became of the packets of sources, how late they were, and
/// the answers to echo requests. A table without rows is left out, all but the first, and so are
/// idle rows, with their number.
///
/// # Errors
///
/// If memory was refused.
pub fn report_text(alloc: Global, topology: &Topology, measured: &Measured) -> MadeText
    ensures { IfOk result (λ text. EndsLine text.items) }
{
    let mut text = Vec::new(alloc);
    push_ifaces(alloc, &mut text, topology, measured)?;
    push_text(&mut text, b"\n")?;
    push_nodes(alloc, &mut text, topology, measured)?;
    push_text(&mut text, b"\n")?;
    push_sources(alloc, &mut text, topology, measured)?;
    for trip in [Trip::OneWay, Trip::Round] {
        push_trips(alloc, &mut text, topology, measured, trip)?;
    }
    push_text(
        &mut text,
        b"\nUnder way is what waited or was on a link at stop.",
    )?;
    end_line(&mut text)?;
    Ok(text)
}
