//! What is known of a network's traffic before it is simulated, as remarks: where the packets of
//! each source go and what comes back, which links are asked for more than they carry, and whether
//! the partitions pay.

ghost use Rattle.std.specs.Prelude.{◌≡◌};
ghost use Rattle.nm_paths.specs.Walks.{routes_of_all};

use crate::demand::{Demand, demand_of, packets_before};
use crate::ending::Aim;
use crate::load::Load;
use crate::path::DEFAULT_TIME_TO_LIVE;
use crate::places::{last_node, listens};
use crate::raw::see_raw;
use crate::sender::{Sender, Sending, Walked, remark, see_end, see_times};
use crate::tables::Tables;
use crate::turn::WalkEnd;
use crate::ways::{Way, walk};
use nm_base::{IfaceNo, NodeNo, Remarks, Time, push_text, push_time};
use nm_packet::Address;
use nm_topology::Topology;
use nm_topology::traffic::{Flow, Traffic};
use std::alloc::{AllocError, Global};

/// What was seen of the sources so far.
#[derive(Drop)]
struct Seen {
    remarks: Remarks,
    load: Load,
    /// Events before the end of the simulation: one for each packet of a source, and two for each
    /// of its hops.
    events: u64,
}

/// A source of `cbr` or `echo`, and what it asks for.
#[derive(Clone, Copy)]
struct Asking {
    sender: Sender,
    demand: Demand,
}

/// When a flow sends.
fn sending_of(flow: &Flow, stop: Time) -> Sending {
    Sending {
        start: flow.start,
        count: u64::from(flow.count),
        sent: packets_before(flow, stop),
    }
}

/// Whether an interface has the address.
fn is_known(topology: &Topology, to: Address) -> bool {
    topology.ifaces().iter().any(|iface| iface.address() == to)
}

/// Remarks on what becomes of packets that arrive at a node.
fn see_arrived(
    alloc: Global,
    topology: &Topology,
    asking: &Asking,
    node: NodeNo,
    way: &Way,
    remarks: &mut Remarks,
) -> Result<(), AllocError> {
    let name = topology.node_name(node);
    let (sender, to) = (&asking.sender, asking.demand.to);
    if way.hops.is_empty() {
        let what = format!(in alloc; "{to} is an address of its own node, and nothing is sent")?;
        return remark(alloc, topology, sender, what.as_bytes(), remarks);
    }
    match asking.demand.port {
        Some(port) if !listens(topology, node, port) => {
            let what = format!(in alloc; "UDP port {port} of \"{name}\" is not open")?;
            remark(alloc, topology, sender, what.as_bytes(), remarks)
        }
        _ => Ok(()),
    }
}

/// Takes note of a flow on its way: what it asks of links, and its events.
fn note_way(
    topology: &Topology,
    flow: &Flow,
    way: &Way,
    seen: &mut Seen,
) -> Result<(), AllocError> {
    let sent = packets_before(flow, topology.stop());
    let hops = way.hops.len() as u64;
    let events = sent.saturating_mul(hops.saturating_mul(2));
    seen.events = seen.events.saturating_add(events);
    seen.load.add(flow, way, topology.stop())
}

/// The address from which a node sends by an interface.
fn address_of(topology: &Topology, via: IfaceNo) -> Option<Address> {
    Some(topology.ifaces().get(via.index())?.address())
}

/// Looks at the way back of the replies to echo requests, from the node that they come to. A UDP
/// source awaits no answer.
fn see_back(
    alloc: Global,
    topology: &Topology,
    tables: &Tables,
    asking: &Asking,
    there: &Way,
    seen: &mut Seen,
) -> Result<(), AllocError>
    requires { tables.now ≡ routes_of_all topology.now }
{
    let from = last_node(topology, asking.sender.node, there);
    let Some(via) = there.hops.first() else {
        return Ok(());
    };
    let Some(to) = address_of(topology, *via) else {
        return Ok(());
    };
    let aim = Aim {
        from,
        to,
        time_to_live: DEFAULT_TIME_TO_LIVE,
    };
    let back = walk(alloc, topology, tables, from, to, DEFAULT_TIME_TO_LIVE)?;
    let walked = Walked {
        which: "the way back",
        aim: &aim,
        way: &back,
    };
    see_end(alloc, topology, &asking.sender, walked, &mut seen.remarks)?;
    note_way(topology, &asking.demand.flow, &back, seen)
}

/// Looks at the way of the packets of a source, and at that of the replies.
fn see_ways(
    alloc: Global,
    topology: &Topology,
    tables: &Tables,
    asking: &Asking,
    seen: &mut Seen,
) -> Result<(), AllocError>
    requires { tables.now ≡ routes_of_all topology.now }
{
    let flow = &asking.demand.flow;
    let (from, to, time_to_live) = (asking.sender.node, asking.demand.to, flow.ttl);
    let there = walk(alloc, topology, tables, from, to, time_to_live)?;
    let sent = packets_before(flow, topology.stop());
    seen.events = seen.events.saturating_add(sent);
    note_way(topology, flow, &there, seen)?;
    // That nobody has the address is a remark of `nm_check`, which is enough unless there is a
    // loop.
    if there.ending != WalkEnd::Expired && !is_known(topology, to) {
        return Ok(());
    }
    let aim = Aim {
        from,
        to,
        time_to_live,
    };
    let walked = Walked {
        which: "the way",
        aim: &aim,
        way: &there,
    };
    see_end(alloc, topology, &asking.sender, walked, &mut seen.remarks)?;
    if there.ending != WalkEnd::Arrived {
        return Ok(());
    }
    let last = last_node(topology, from, &there);
    see_arrived(alloc, topology, asking, last, &there, &mut seen.remarks)?;
    if asking.demand.port.is_none() {
        return see_back(alloc, topology, tables, asking, &there, seen);
    }
    Ok(())
}

/// Looks at a source with this traffic.
fn see_source(
    alloc: Global,
    topology: &Topology,
    tables: &Tables,
    sender: Sender,
    traffic: &Traffic,
    seen: &mut Seen,
) -> Result<(), AllocError>
    requires { tables.now ≡ routes_of_all topology.now }
{
    if let Traffic::Raw(raw) = traffic {
        let events = see_raw(alloc, topology, tables, &sender, raw, &mut seen.remarks)?;
        seen.events = seen.events.saturating_add(events);
        return Ok(());
    }
    let Some(demand) = demand_of(traffic) else {
        return Ok(());
    };
    let sending = sending_of(&demand.flow, topology.stop());
    see_times(alloc, topology, &sender, &sending, &mut seen.remarks)?;
    let asking = Asking { sender, demand };
    see_ways(alloc, topology, tables, &asking, seen)
}

/// Looks at each source.
fn see_sources(
    alloc: Global,
    topology: &Topology,
    tables: &Tables,
    seen: &mut Seen,
) -> Result<(), AllocError>
    requires { tables.now ≡ routes_of_all topology.now }
{
    for (number, source) in topology.sources().iter().enumerate() {
        let node = source.node;
        let sender = Sender { number, node };
        see_source(alloc, topology, tables, sender, &source.traffic, seen)?;
    }
    Ok(())
}

/// Remarks on partitions that have no node.
fn see_partitions(
    alloc: Global,
    topology: &Topology,
    remarks: &mut Remarks,
) -> Result<(), AllocError> {
    for partition in 0..topology.partitions() {
        let mut nodes = topology.nodes().iter();
        if !nodes.any(|node| node.partition().number() == partition) {
            let remark = format!(in alloc; "partition {partition} has no node")?;
            remarks.add(remark.as_bytes())?;
        }
    }
    Ok(())
}

/// Remarks on a least lookahead, in nanoseconds, that makes more windows than there are events.
fn see_windows(
    alloc: Global,
    topology: &Topology,
    lookahead: u64,
    events: u64,
    remarks: &mut Remarks,
) -> Result<(), AllocError> {
    let windows = topology.stop().nanoseconds().div_ceil(lookahead.max(1));
    if windows <= events {
        return Ok(());
    }
    let mut remark = Vec::new(alloc);
    push_text(&mut remark, b"the least lookahead, ")?;
    push_time(&mut remark, lookahead)?;
    let what = format!(in alloc;
        ", makes {windows} windows for some {events} events: fewer partitions may be faster"
    )?;
    push_text(&mut remark, what.as_bytes())?;
    remarks.add(remark.as_slice())
}

/// What is known of a network's traffic before it is simulated: at most 20 remarks, a line each,
/// and how many more there are. They are on sources, in the order of the text; on interfaces whose
/// link is asked for more than its rate; on partitions without a node; and on the least lookahead
/// of its channels, in nanoseconds, if there are channels.
pub fn way_remarks(
    alloc: Global,
    topology: &Topology,
    lookahead: Option<u64>,
) -> Result<Vec<u8>, AllocError> {
    let tables = Tables::new(alloc, topology)?;
    let mut seen = Seen {
        remarks: Remarks::behind(Vec::new(alloc)),
        load: Load::new(alloc),
        events: 0,
    };
    see_sources(alloc, topology, &tables, &mut seen)?;
    conclude(alloc, topology, lookahead, seen)
}

/// The remarks on sources, and those on links and partitions.
fn conclude(
    alloc: Global,
    topology: &Topology,
    lookahead: Option<u64>,
    seen: Seen,
) -> Result<Vec<u8>, AllocError> {
    let Seen {
        remarks,
        load,
        events,
    } = seen;
    let mut remarks = remarks;
    load.push_remarks(alloc, topology, &mut remarks)?;
    see_partitions(alloc, topology, &mut remarks)?;
    if let Some(lookahead) = lookahead {
        see_windows(alloc, topology, lookahead, events, &mut remarks)?;
    }
    remarks.into_text()
}
