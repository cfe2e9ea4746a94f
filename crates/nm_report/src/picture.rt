//! The network as a graph for Graphviz (dot) that shows how it was used.

ghost use Rattle.std.specs.Prelude.{◌≡◌, ◌<◌, ℕ, IfOk, length};
ghost use Rattle.nm_measure.specs.Measured.{IsMeasuredBefore};
ghost use Rattle.nm_report.specs.Loads.{IsLoad, from_end};
ghost use Rattle.nm_measure.specs.Lines.{EndsLine};

use crate::dot::{push_owner, push_partitions, push_quality};
use crate::iface_table::traffic_at;
use crate::legend::{colour_of, push_legend};
use crate::units::push_percentage;
use nm_base::{IfaceNo, push_number, push_text, push_time};
use nm_measure::{Appended, MadeText, Measured, end_line, thousandths};
use nm_topology::Topology;
use nm_topology::parts::Link;
use std::alloc::Global;

/// How all parts of the picture look.
const STYLE: &[u8] = b"  graph [fontname=\"sans-serif\", fontsize=11, nodesep=0.6, ranksep=0.7];
  node [fontname=\"sans-serif\", fontsize=11];
  edge [fontname=\"sans-serif\", fontsize=9, arrowsize=0.7];
";

/// A direction of a link.
#[derive(Clone, Copy, Drop)]
enum Way {
    /// From its end `a` to `b`.
    There,
    /// From its end `b` to `a`.
    Back,
}

/// How one direction of a link was used.
#[derive(Clone, Copy, Drop)]
struct Load {
    /// The interface that transmits.
    iface: IfaceNo,
    packets: u64,
    dropped: u64,
    /// Busy thousandths of the time before `stop`.
    busy: u64,
    /// Busy thousandths of the time from the first packet to the last, if there are two.
    share: Option<u64>,
}

/// The interface that transmits in a direction of a link.
fn from_end(link: Link, way: Way) -> IfaceNo
    ensures { result ≡ from_end way link }
{
    match way {
        Way::There => link.a,
        Way::Back => link.b,
    }
}

/// How a direction of a link was used.
fn load_of(topology: &Topology, measured: &Measured, link: Link, way: Way) -> Load
    ensures { (until : ℕ) (m : IsMeasuredBefore topology.now until measured.now)
        → from_end way link < length topology.now.ifaces
        → IsLoad topology.now m.events (from_end way link) result }
{
    let iface = from_end(link, way);
    Load {
        iface,
        packets: traffic_at(measured, iface).went.packets,
        dropped: measured.dropped(iface).unwrap_or(0),
        busy: thousandths(measured.busy(iface), topology.stop().nanoseconds()),
        share: measured.busy_share(iface),
    }
}

/// How many packets were dropped at all interfaces, up to 2^64 - 1.
fn all_dropped(topology: &Topology, measured: &Measured) -> u64 {
    let mut dropped = 0u64;
    for (number, _) in (0..u32::MAX).zip(topology.ifaces()) {
        let here = measured.dropped(IfaceNo::new(number)).unwrap_or(0);
        dropped = dropped.saturating_add(here);
    }
    dropped
}

/// Appends the title. It comes after the partitions, whose words would be as large otherwise.
fn push_title(text: &mut Vec<u8>, topology: &Topology, measured: &Measured) -> Appended {
    push_text(text, b"  graph [labelloc=t, fontsize=16, label=\"Use of ")?;
    push_number(text, topology.nodes().len() as u64)?;
    push_text(text, b" nodes and ")?;
    push_number(text, topology.links().len() as u64)?;
    push_text(text, b" links in ")?;
    push_time(text, topology.stop().nanoseconds())?;
    push_text(text, b": ")?;
    push_number(text, all_dropped(topology, measured))?;
    push_text(text, b" packets dropped\"];\n")
}

/// Appends the label of a direction: on the way there the rate and the delay of the link, and then
/// its busy share and its drops. Spaces keep lines away from the words.
fn push_label(text: &mut Vec<u8>, link: Link, way: Way, load: &Load) -> Appended {
    push_text(text, b"label=\"")?;
    if let Way::There = way {
        push_text(text, b"  ")?;
        push_quality(text, link)?;
        push_text(text, b"  \\n")?;
    }
    if let Some(share) = load.share {
        push_text(text, b"  ")?;
        push_percentage(text, share)?;
        push_text(text, b"  ")?;
    }
    if load.dropped > 0 {
        push_text(text, b"\\n  ")?;
        push_number(text, load.dropped)?;
        push_text(text, b" dropped  ")?;
    }
    push_text(text, b"\", ")
}

/// Appends a width in points: 1.5 for what is never busy, 7.5 for what always is.
fn push_width(text: &mut Vec<u8>, busy: u64) -> Appended {
    let tenths = (busy.min(1_000) * 6 / 100).saturating_add(15);
    push_text(text, b"penwidth=")?;
    push_number(text, tenths / 10)?;
    push_text(text, b".")?;
    push_number(text, tenths % 10)
}

/// Appends the colour and the width of a direction, and its dashes if it dropped packets.
fn push_look(text: &mut Vec<u8>, load: &Load) -> Appended {
    push_text(text, b"color=\"")?;
    push_text(text, colour_of(load.share).as_bytes())?;
    push_text(text, b"\", ")?;
    push_width(text, load.busy)?;
    if load.dropped > 0 {
        push_text(text, b", style=dashed")?;
    }
    push_text(text, b", ")
}

/// Appends how a direction was used in words, which a viewer shows under the pointer.
fn push_words(
    text: &mut Vec<u8>,
    topology: &Topology,
    measured: &Measured,
    load: &Load,
) -> Appended {
    if let Some(iface) = topology.ifaces().get(load.iface.index()) {
        push_text(text, iface.name().as_bytes())?;
    }
    push_text(text, b": ")?;
    for (number, words) in [
        (load.packets, " transmitted, "),
        (load.dropped, " dropped, at most "),
        (measured.longest_queue(load.iface), " waited; busy "),
    ] {
        push_number(text, number)?;
        push_text(text, words.as_bytes())?;
    }
    push_percentage(text, load.busy)?;
    push_text(text, b" of all time")?;
    if let Some(share) = load.share {
        push_text(text, b", ")?;
        push_percentage(text, share)?;
        push_text(text, b" of that from its first packet to its last")?;
    }
    Ok(())
}

/// Appends a direction of a link. That back is drawn from its far end, so that both lie beside each
/// other.
fn push_way(
    text: &mut Vec<u8>,
    topology: &Topology,
    measured: &Measured,
    link: Link,
    way: Way,
) -> Appended {
    let load = load_of(topology, measured, link, way);
    push_text(text, b"  ")?;
    push_owner(text, topology, link.a)?;
    push_text(text, b" -> ")?;
    push_owner(text, topology, link.b)?;
    push_text(
        text,
        match way {
            Way::There => b" [",
            Way::Back => b" [dir=back, ",
        },
    )?;
    push_label(text, link, way, &load)?;
    push_look(text, &load)?;
    for name in ["tooltip=\"", "\", labeltooltip=\""] {
        push_text(text, name.as_bytes())?;
        push_words(text, topology, measured, &load)?;
    }
    push_text(text, b"\"];\n")
}

/// The network as a graph for Graphviz that shows how it was used. Each direction of a link is
/// coloured by its busy share of the time from its first packet to its last, as wide as its busy
/// share of the time before `stop`, and dashed where packets were dropped.
///
/// # Errors
///
/// If memory was refused.
pub fn load_text(alloc: Global, topology: &Topology, measured: &Measured) -> MadeText
    ensures { IfOk result (λ text. EndsLine text.items) }
{
    let mut text = Vec::new(alloc);
    push_text(&mut text, b"digraph network {\n")?;
    push_text(&mut text, STYLE)?;
    push_partitions(&mut text, topology)?;
    push_title(&mut text, topology, measured)?;
    for link in topology.links() {
        for way in [Way::There, Way::Back] {
            push_way(&mut text, topology, measured, *link, way)?;
        }
    }
    push_legend(&mut text)?;
    push_text(&mut text, b"}")?;
    end_line(&mut text)?;
    Ok(text)
}
