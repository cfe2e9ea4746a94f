//! The table of interfaces.

ghost use Rattle.std.specs.Prelude.{◌≡◌, ℕ, ◌<◌, length};
ghost use Rattle.nm_model.specs.Run.{one_list};
ghost use Rattle.nm_topology.specs.TopologyValue.{TopologyValue};
ghost use Rattle.nm_sim.specs.Network.{net_of};
ghost use Rattle.nm_sim.specs.Traffic.{iface_traffic_of};
ghost use Rattle.nm_measure.specs.Measured.{IsMeasuredBefore};

use crate::table::{Table, push_left_out};
use crate::units::push_percentage;
use nm_base::IfaceNo;
use nm_measure::{Appended, Measured, thousandths};
use nm_sim::IfaceTraffic;
use nm_topology::Topology;
use std::alloc::{AllocError, Global};
use std::cmp::Reverse;

/// The columns of interfaces.
const HEAD: [&str; 8] = [
    "interface",
    "packets in",
    "octets in",
    "packets out",
    "octets out",
    "dropped",
    "longest queue",
    "busy",
];

/// An interface at which packets came, went or were dropped.
#[derive(Clone, Copy, Drop)]
struct Rank {
    iface: IfaceNo,
    dropped: u64,
    busy: u64,
}

/// What came to an interface and what it transmitted; nothing if it is not there.
pub(crate) fn traffic_at(measured: &Measured, iface: IfaceNo) -> IfaceTraffic
    ensures { (t : TopologyValue) (until : ℕ) (m : IsMeasuredBefore t until measured.now)
        → iface < length t.ifaces
        → result ≡ iface_traffic_of iface (one_list (net_of t) m.events).records }
{
    measured.traffic(iface).unwrap_or(IfaceTraffic::none())
}

/// The rank of an interface. `None` if it is idle.
fn rank_of(measured: &Measured, iface: IfaceNo) -> Option<Rank> {
    let IfaceTraffic { came, went } = traffic_at(measured, iface);
    let dropped = measured.dropped(iface).unwrap_or(0);
    if came.packets == 0 && went.packets == 0 && dropped == 0 {
        return None;
    }
    Some(Rank {
        iface,
        dropped,
        busy: measured.busy(iface),
    })
}

/// The interfaces that are not idle, those first that dropped most, and among equals the busiest;
/// others by number.
fn ranks(alloc: Global, topology: &Topology, measured: &Measured) -> Result<Vec<Rank>, AllocError> {
    let mut ranks = Vec::new(alloc);
    for (number, _) in (0..u32::MAX).zip(topology.ifaces()) {
        if let Some(rank) = rank_of(measured, IfaceNo::new(number)) {
            ranks.push(rank)?;
        }
    }
    ranks.sort_by_key(|rank: &Rank| (Reverse(rank.dropped), Reverse(rank.busy)))?;
    Ok(ranks)
}

/// The share of the time before `stop` in which an interface transmitted.
fn busy_share(alloc: Global, topology: &Topology, busy: u64) -> Result<Vec<u8>, AllocError> {
    let mut text = Vec::new(alloc);
    push_percentage(&mut text, thousandths(busy, topology.stop().nanoseconds()))?;
    Ok(text)
}

/// A row of an interface.
fn add_iface(
    alloc: Global,
    table: &mut Table,
    topology: &Topology,
    measured: &Measured,
    rank: Rank,
) -> Appended {
    let IfaceTraffic { came, went } = traffic_at(measured, rank.iface);
    let name = match topology.ifaces().get(rank.iface.index()) {
        Some(iface) => iface.name(),
        None => "-",
    };
    table.text(name.as_bytes())?;
    for number in [
        came.packets,
        came.octets,
        went.packets,
        went.octets,
        rank.dropped,
        measured.longest_queue(rank.iface),
    ] {
        table.number(number)?;
    }
    table.text(busy_share(alloc, topology, rank.busy)?.as_slice())
}

/// What passed the interfaces, and how many were idle.
pub(crate) fn push_ifaces(
    alloc: Global,
    text: &mut Vec<u8>,
    topology: &Topology,
    measured: &Measured,
) -> Appended {
    let mut table = Table::new(alloc, &HEAD, 1)?;
    let ranks = ranks(alloc, topology, measured)?;
    for rank in &ranks {
        add_iface(alloc, &mut table, topology, measured, *rank)?;
    }
    table.print(text)?;
    let idle = topology.ifaces().len().saturating_sub(ranks.len());
    push_left_out(text, "interfaces", idle as u64)
}
