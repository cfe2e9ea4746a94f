//! What a run counted and dropped.

use nm_base::{IfaceNo, NodeNo};
use nm_events::SortedList;
use nm_forward::Counter;
use nm_sim::Part;
use nm_topology::Topology;
use std::alloc::AllocError;
use std::fmt::Write;

/// The words beside names and values.
#[derive(Clone, Copy)]
pub struct Words {
    before_counter: &'static str,
    before_iface: &'static str,
    behind_iface: &'static str,
}

impl Words {
    /// `counter NODE NAME VALUE` and `dropped IFACE VALUE`.
    pub fn of_pairs() -> Self {
        Words {
            before_counter: "counter ",
            before_iface: "dropped ",
            behind_iface: "",
        }
    }

    /// `NODE NAME VALUE` and `IFACE dropped VALUE`.
    pub fn of_tables() -> Self {
        Words {
            before_counter: "",
            before_iface: "",
            behind_iface: " dropped",
        }
    }
}

/// Adds a node's counters above 0.
fn push_counters(
    text: &mut String,
    part: &Part<SortedList>,
    (number, name): (u32, &str),
    words: Words,
) -> Result<(), AllocError> {
    let before = words.before_counter;
    for counter in Counter::ALL {
        let value = part.counter(NodeNo::new(number), counter).unwrap_or(0);
        if value > 0 {
            writeln!(text, "{before}{name} {} {value}", counter.name())?;
        }
    }
    Ok(())
}

/// Adds an interface, if packets were dropped there.
fn push_drops(
    text: &mut String,
    part: &Part<SortedList>,
    (number, name): (u32, &str),
    words: Words,
) -> Result<(), AllocError> {
    let (before, behind) = (words.before_iface, words.behind_iface);
    let value = part.dropped(IfaceNo::new(number)).unwrap_or(0);
    if value == 0 {
        return Ok(());
    }
    writeln!(text, "{before}{name}{behind} {value}")
}

/// Adds the counters above 0 of each node, and then the interfaces at which packets were dropped.
pub fn push_counted(
    text: &mut String,
    topology: &Topology,
    part: &Part<SortedList>,
    words: Words,
) -> Result<(), AllocError> {
    for (number, node) in (0..u32::MAX).zip(topology.nodes()) {
        push_counters(text, part, (number, node.name()), words)?;
    }
    for (number, iface) in (0..u32::MAX).zip(topology.ifaces()) {
        push_drops(text, part, (number, iface.name()), words)?;
    }
    Ok(())
}
