//! The ways of the packets of a source, a row each.

ghost use Rattle.std.specs.Prelude.{◌≡◌, ℕ, ◌<◌, ◌≤◌, ◌++◌, [], List, IfOk, OnOk, length, Some, codes};
ghost use Rattle.std.specs.Prelude.{decimal, slice_get};
ghost use Rattle.nm_measure.specs.CoursesValue.{CoursesValue};
ghost use Rattle.nm_measure.specs.Followed.{IsFollowed};
ghost use Rattle.nm_measure.specs.Measured.{IsMeasuredBefore};
ghost use Rattle.nm_series.specs.Packets.{ArePacketRows, HasAllRows, HasRows, dir_word, end_words};
ghost use Rattle.nm_series.specs.Packets.{ended_row, further_words};
ghost use Rattle.nm_series.specs.Packets.{hop_words, iface_word, node_word, outcome_word};
ghost use Rattle.nm_series.specs.Packets.{packet_columns, place_word, reason_word};
ghost use Rattle.nm_series.specs.Packets.{under_way_row, under_way_rows, way_words};
ghost use Rattle.nm_series.specs.Rows.{cell};

use crate::cells::{end_row, push_cell, push_word};
use crate::steps::end_of;
use nm_base::{Dir, IfaceNo, NodeNo, SourceNo, Time, push_number, push_text};
use nm_measure::courses::{End, EndPlace, Ended, Reason};
use nm_measure::{Course, Hop, Measured, PacketOutcome};
use nm_progress::Progress;
use nm_topology::Topology;
use std::alloc::{AllocError, Global};

/// The names of the columns.
const HEAD: &[u8] = b"packet,sent_nanoseconds,outcome,reason,place,ended_nanoseconds,way\n";

/// The network is run in so many steps, with the rows of packets that ended after each.
const STEPS: u64 = 4_096;

/// The outcome in a word.
fn outcome_word(outcome: PacketOutcome) -> &'static str
    ensures { result.now ≡ outcome_word outcome }
{
    match outcome {
        PacketOutcome::Delivered => "delivered",
        PacketOutcome::Refused => "refused",
        PacketOutcome::Dropped => "dropped",
        PacketOutcome::Discarded => "discarded",
    }
}

/// The reason in a word.
fn reason_word(reason: Reason) -> &'static str
    ensures { result.now ≡ reason_word reason }
{
    match reason {
        Reason::Counted(counter) => counter.name(),
        Reason::NoRoom => "queue",
        Reason::Unknown => "",
    }
}

/// The name of an interface; `-` if there is none of this number.
fn iface_word(topology: &Topology, iface: IfaceNo) -> &str
    ensures { result.now ≡ iface_word (slice_get topology.now.ifaces iface) }
{
    match topology.ifaces().get(iface.index()) {
        Some(iface) => iface.name(),
        None => "-",
    }
}

/// The name of a node; `-` if there is none of this number.
fn node_word(topology: &Topology, node: NodeNo) -> &str
    ensures { result.now ≡ node_word (slice_get topology.now.nodes node) }
{
    match topology.nodes().get(node.index()) {
        Some(node) => node.name(),
        None => "-",
    }
}

/// Where a packet ended, in a word.
fn place_word(topology: &Topology, place: EndPlace) -> &str
    ensures { result.now ≡ place_word topology.now place }
{
    match place {
        EndPlace::Node(node) => node_word(topology, node),
        EndPlace::Iface(iface) => iface_word(topology, iface),
    }
}

/// That a packet arrived, or that its transmission started, in a sign.
fn dir_word(dir: Dir) -> &'static [u8]
    ensures { result.now ≡ dir_word dir }
{
    match dir {
        Dir::In => b"<",
        Dir::Out => b">",
    }
}

/// Appends that a packet arrived at an interface, or that its transmission started there.
fn push_hop(text: &mut Vec<u8>, topology: &Topology, hop: &Hop) -> Result<(), AllocError>
    ensures { OnOk result (text.new.items ≡ text.old.items ++ hop_words topology.now hop.now) }
{
    push_text(text, iface_word(topology, hop.iface).as_bytes())?;
    push_text(text, dir_word(hop.dir))?;
    push_number(text, hop.time.nanoseconds())
}

/// Appends further hops, each behind a space.
fn push_further(text: &mut Vec<u8>, topology: &Topology, hops: &[Hop]) -> Result<(), AllocError>
    ensures { OnOk result (text.new.items
        ≡ text.old.items ++ further_words topology.now hops.now) }
{
    for hop in hops {
        push_text(text, b" ")?;
        push_hop(text, topology, hop)?;
    }
    Ok(())
}

/// Appends the way of a packet, and ends the row.
fn push_way(text: &mut Vec<u8>, topology: &Topology, hops: &[Hop]) -> Result<(), AllocError>
    ensures { OnOk result (text.new.items
        ≡ text.old.items ++ codes "," ++ way_words topology.now hops.now ++ codes "\n") }
{
    push_text(text, b",")?;
    if let Some((first, further)) = hops.split_first() {
        push_hop(text, topology, first)?;
        push_further(text, topology, further)?;
    }
    end_row(text)
}

/// Appends which packet it is, and when it was sent.
fn push_start(text: &mut Vec<u8>, course: &Course) -> Result<(), AllocError>
    ensures { OnOk result (text.new.items
        ≡ text.old.items ++ decimal course.now.number ++ cell course.now.sent) }
{
    push_number(text, course.number)?;
    push_cell(text, course.sent.nanoseconds())
}

/// Appends how, why, where and when a packet ended.
fn push_end(text: &mut Vec<u8>, topology: &Topology, end: &End) -> Result<(), AllocError>
    ensures { OnOk result (text.new.items ≡ text.old.items ++ end_words topology.now end.now) }
{
    push_word(text, outcome_word(end.outcome))?;
    push_word(text, reason_word(end.reason))?;
    push_word(text, place_word(topology, end.place))?;
    push_cell(text, end.time.nanoseconds())
}

/// Appends the row of a packet that ended.
fn push_ended(text: &mut Vec<u8>, topology: &Topology, ended: &Ended) -> Result<(), AllocError>
    ensures { OnOk result (text.new.items ≡ text.old.items ++ ended_row topology.now ended.now) }
{
    push_start(text, &ended.course)?;
    push_end(text, topology, &ended.end)?;
    push_way(text, topology, ended.course.hops.as_slice())
}

/// Appends the row of a packet that is under way at the end of the run.
fn push_under_way(
    text: &mut Vec<u8>,
    topology: &Topology,
    course: &Course,
) -> Result<(), AllocError>
    ensures { OnOk result (text.new.items
        ≡ text.old.items ++ under_way_row topology.now course.now) }
{
    push_start(text, course)?;
    push_text(text, b",under_way,,,")?;
    push_way(text, topology, course.hops.as_slice())
}

/// Appends the rows of all packets that ended and have no row yet.
fn push_all_ended(
    text: &mut Vec<u8>,
    topology: &Topology,
    measured: &mut Measured,
) -> Result<(), AllocError>
    ensures rows { OnOk result ((j n : ℕ) (initial : List ℕ)
        → HasRows topology.now j n initial text.old.items measured.old.courses
        → HasAllRows topology.now j n initial text.new.items measured.new.courses) }
    ensures part { measured.new.part ≡ measured.old.part }
    ensures before { (until : ℕ) → IsMeasuredBefore topology.now until measured.old
        → IsMeasuredBefore topology.now until measured.new }
{
    for _ in 0..u64::MAX {
        let Some(ended) = measured.take_ended() else {
            return Ok(());
        };
        push_ended(text, topology, &ended)?;
    }
    Err(AllocError)
}

/// Appends the rows of all packets that are under way.
fn push_all_under_way(
    text: &mut Vec<u8>,
    topology: &Topology,
    measured: &mut Measured,
) -> Result<(), AllocError>
    ensures { OnOk result ((c : CoursesValue) → measured.old.courses ≡ Some c
        → text.new.items ≡ text.old.items ++ under_way_rows topology.now c.under_way) }
{
    for _ in 0..u64::MAX {
        let Some(course) = measured.take_under_way() else {
            return Ok(());
        };
        push_under_way(text, topology, &course)?;
    }
    Err(AllocError)
}

/// Runs the network to this time, and appends the rows of the packets that end until then.
fn push_until(
    alloc: Global,
    text: &mut Vec<u8>,
    topology: &Topology,
    measured: &mut Measured,
    until: Time,
    progress: &Progress,
) -> Result<(), AllocError>
    requires end { until ≤ topology.now.stop }
    requires begin { (from : ℕ) × (from ≤ until) × IsMeasuredBefore topology.now from measured.old }
    ensures before { OnOk result (IsMeasuredBefore topology.now until measured.new) }
    ensures rows { OnOk result ((j : ℕ) (initial : List ℕ)
        → HasRows topology.now j measured.old.part.steps initial text.old.items
        measured.old.courses
        → HasAllRows topology.now j measured.new.part.steps initial text.new.items
        measured.new.courses) }
{
    measured.advance(alloc, topology, until, progress)?;
    push_all_ended(text, topology, measured)
}

/// Runs the network to its stop, and appends the rows of the packets that end, in the order in
/// which they do.
fn push_run(
    alloc: Global,
    text: &mut Vec<u8>,
    topology: &Topology,
    measured: &mut Measured,
    progress: &Progress,
) -> Result<(), AllocError>
    requires begin { IsMeasuredBefore topology.now 0 measured.old }
    ensures before { OnOk result (IsMeasuredBefore topology.now topology.now.stop measured.new) }
    ensures rows { OnOk result ((j : ℕ) (initial : List ℕ)
        → HasRows topology.now j measured.old.part.steps initial text.old.items
        measured.old.courses
        → HasAllRows topology.now j measured.new.part.steps initial text.new.items
        measured.new.courses) }
{
    let step = topology.stop().nanoseconds() / STEPS + 1;
    let mut time = Time::from_nanoseconds(0);
    for _ in 1..STEPS {
        let until = end_of(topology, time, step);
        push_until(alloc, text, topology, measured, until, progress)?;
        time = until;
    }
    push_until(alloc, text, topology, measured, topology.stop(), progress)
}

/// The rows of all packets of the followed source.
fn rows_text(
    alloc: Global,
    topology: &Topology,
    measured: &mut Measured,
    progress: &Progress,
) -> Result<Vec<u8>, AllocError>
    requires begin { IsMeasuredBefore topology.now 0 measured.old }
    requires none { measured.old.part.steps ≡ 0 }
    ensures { IfOk result (λ text. (j : ℕ)
        → IsFollowed topology.now (Some j) 0 [] measured.old.courses
        → ArePacketRows topology.now j text.items) }
{
    let mut text = Vec::new(alloc);
    push_text(&mut text, HEAD)?;
    push_run(alloc, &mut text, topology, measured, progress)?;
    push_all_under_way(&mut text, topology, measured)?;
    Ok(text)
}

/// A row for each packet of a source: those that ended, in the order in which they did, and behind
/// them those that are under way at `stop`.
///
/// # Errors
///
/// If memory was refused.
pub fn packets_text(
    alloc: Global,
    topology: &Topology,
    source: SourceNo,
    progress: &Progress,
) -> Result<Vec<u8>, AllocError>
    ensures { IfOk result (λ text. ArePacketRows topology.now source text.items) }
{
    let mut measured = Measured::begin(alloc, topology, Some(source))?;
    rows_text(alloc, topology, &mut measured, progress)
}
