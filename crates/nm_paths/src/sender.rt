//! A source, and remarks on it.

use crate::ending::{Aim, ending_text};
use crate::turn::WalkEnd;
use crate::ways::Way;
use nm_base::{NodeNo, Remarks, Time, push_number, push_text, push_time};
use nm_topology::Topology;
use std::alloc::{AllocError, Global};

/// A source.
#[derive(Clone, Copy)]
pub struct Sender {
    pub number: usize,
    pub node: NodeNo,
}

/// When a source sends.
#[derive(Clone, Copy)]
pub struct Sending {
    /// When its first packet is to come.
    pub start: Time,
    /// How many packets it has.
    pub count: u64,
    /// How many come before the end of the simulation.
    pub sent: u64,
}

/// How a remark on a source begins.
fn sender_text(alloc: Global, topology: &Topology, sender: &Sender) -> Result<String, AllocError> {
    let number = sender.number;
    let name = topology.node_name(sender.node);
    format!(in alloc; "source {number} (node \"{name}\")")
}

/// Adds a remark on a source.
pub fn remark(
    alloc: Global,
    topology: &Topology,
    sender: &Sender,
    what: &[u8],
    remarks: &mut Remarks,
) -> Result<(), AllocError> {
    let mut remark = Vec::new(alloc);
    push_text(
        &mut remark,
        sender_text(alloc, topology, sender)?.as_bytes(),
    )?;
    push_text(&mut remark, b": ")?;
    push_text(&mut remark, what)?;
    remarks.add(remark.as_slice())
}

/// What is to be said of a source of whose packets not all come before the end.
fn times_text(alloc: Global, sending: &Sending, stop: Time) -> Result<Vec<u8>, AllocError> {
    let mut text = Vec::new(alloc);
    if sending.sent == 0 {
        push_text(&mut text, b"it begins at ")?;
        push_time(&mut text, sending.start.nanoseconds())?;
        push_text(&mut text, b", and the simulation ends at ")?;
    } else {
        push_number(&mut text, sending.sent)?;
        push_text(&mut text, b" of its ")?;
        push_number(&mut text, sending.count)?;
        push_text(&mut text, b" packets come before the end, ")?;
    }
    push_time(&mut text, stop.nanoseconds())?;
    Ok(text)
}

/// Remarks on when a source sends.
pub fn see_times(
    alloc: Global,
    topology: &Topology,
    sender: &Sender,
    sending: &Sending,
    remarks: &mut Remarks,
) -> Result<(), AllocError> {
    if sending.sent >= sending.count {
        return Ok(());
    }
    let what = times_text(alloc, sending, topology.stop())?;
    remark(alloc, topology, sender, what.as_slice(), remarks)
}

/// A way to a packet's destination.
#[derive(Clone, Copy)]
pub struct Walked<'a> {
    /// Which of the ways of a source it is, in words.
    pub which: &'a str,
    pub aim: &'a Aim,
    pub way: &'a Way,
}

/// Remarks on a way that does not lead where it should.
pub fn see_end(
    alloc: Global,
    topology: &Topology,
    sender: &Sender,
    walked: Walked<'_>,
    remarks: &mut Remarks,
) -> Result<(), AllocError> {
    let Walked { which, aim, way } = walked;
    if way.ending == WalkEnd::Arrived {
        return Ok(());
    }
    let to = aim.to;
    let ending = ending_text(alloc, topology, aim, way)?;
    let what = format!(in alloc; "{which} to {to}: {ending}")?;
    remark(alloc, topology, sender, what.as_bytes(), remarks)
}
