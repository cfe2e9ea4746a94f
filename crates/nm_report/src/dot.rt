//! The network as a graph in the language of Graphviz (dot).

ghost use Rattle.std.specs.Prelude.{IfOk};
ghost use Rattle.nm_measure.specs.Lines.{EndsLine};

use nm_base::{IfaceNo, push_number, push_rate, push_text, push_time};
use nm_measure::{Appended, end_line};
use nm_topology::parts::Link;
use nm_topology::{NodeKind, Topology};
use std::alloc::{AllocError, Global};

/// Appends a text between quotes. Names have no quotes in them.
fn push_quoted(text: &mut Vec<u8>, name: &str) -> Appended {
    push_text(text, b"\"")?;
    push_text(text, name.as_bytes())?;
    push_text(text, b"\"")
}

/// Appends the nodes of a partition: hosts are ellipses, routers boxes.
fn push_nodes(text: &mut Vec<u8>, topology: &Topology, partition: u32) -> Appended {
    for node in topology.nodes() {
        if node.partition().number() != partition {
            continue;
        }
        push_text(text, b"    ")?;
        push_quoted(text, node.name())?;
        push_text(
            text,
            match node.kind() {
                NodeKind::Host => b" [shape=ellipse];\n",
                NodeKind::Router => b" [shape=box];\n",
            },
        )?;
    }
    Ok(())
}

/// Appends the partitions as clusters.
pub(crate) fn push_partitions(text: &mut Vec<u8>, topology: &Topology) -> Appended {
    for partition in 0..topology.partitions() {
        push_text(text, b"  subgraph cluster_")?;
        push_number(text, u64::from(partition))?;
        push_text(text, b" {\n    label=\"partition ")?;
        push_number(text, u64::from(partition))?;
        push_text(text, b"\";\n")?;
        push_nodes(text, topology, partition)?;
        push_text(text, b"  }\n")?;
    }
    Ok(())
}

/// Appends the name of the node of an interface.
pub(crate) fn push_owner(text: &mut Vec<u8>, topology: &Topology, iface: IfaceNo) -> Appended {
    let Some(owner) = topology.ifaces().get(iface.index()) else {
        return Ok(());
    };
    match topology.nodes().get(owner.node().index()) {
        Some(node) => push_quoted(text, node.name()),
        None => Ok(()),
    }
}

/// Appends the name of an interface as that of an end of a link.
fn push_end(text: &mut Vec<u8>, topology: &Topology, end: &[u8], iface: IfaceNo) -> Appended {
    push_text(text, end)?;
    match topology.ifaces().get(iface.index()) {
        Some(iface) => push_quoted(text, iface.name()),
        None => Ok(()),
    }
}

/// Appends the rate and the delay of a link.
pub(crate) fn push_quality(text: &mut Vec<u8>, link: Link) -> Appended {
    push_rate(text, link.rate)?;
    push_text(text, b", ")?;
    push_time(text, link.delay)
}

/// Appends a link with its rate and delay.
fn push_link(text: &mut Vec<u8>, topology: &Topology, link: Link) -> Appended {
    push_text(text, b"  ")?;
    push_owner(text, topology, link.a)?;
    push_text(text, b" -- ")?;
    push_owner(text, topology, link.b)?;
    push_end(text, topology, b" [taillabel=", link.a)?;
    push_end(text, topology, b", headlabel=", link.b)?;
    push_text(text, b", label=\"")?;
    push_quality(text, link)?;
    push_text(text, b"\"];\n")
}

/// The network as a graph for Graphviz: partitions are clusters, and links say their rate and
/// delay.
///
/// # Errors
///
/// If memory was refused.
pub fn dot_text(alloc: Global, topology: &Topology) -> Result<Vec<u8>, AllocError>
    ensures { IfOk result (λ text. EndsLine text.items) }
{
    let mut text = Vec::new(alloc);
    push_text(
        &mut text,
        b"graph network {\n  edge [fontsize=10, labelfontsize=9];\n",
    )?;
    push_partitions(&mut text, topology)?;
    for link in topology.links() {
        push_link(&mut text, topology, *link)?;
    }
    push_text(&mut text, b"}")?;
    end_line(&mut text)?;
    Ok(text)
}
