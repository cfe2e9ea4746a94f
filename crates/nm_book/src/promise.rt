//! What a partition promises of the channels that go out of it.

ghost use Rattle.std.specs.Prelude.{◌≡◌, ℕ, ◌<◌, ◌≤◌, true, List, Some, length, min};
ghost use Rattle.nm_base.specs.declared.limits.TheConstants.{MAX_DELAY, MAX_RATE};
ghost use Rattle.nm_forward.specs.State.{NodeStateValue};
ghost use Rattle.nm_iface.specs.Transmission.{transmission_time as time_of};
ghost use Rattle.nm_model.specs.EventList.{least, next_time};
ghost use Rattle.nm_model.specs.Knowledge.{Know};
ghost use Rattle.nm_model.specs.Partition.{goes_out};
ghost use Rattle.nm_model.specs.Promise.{Plain, Tight, promise};
ghost use Rattle.nm_model.specs.Replica.{safe_time};
ghost use Rattle.nm_model.specs.Run.{State};
ghost use Rattle.nm_sim.specs.Network.{net_of};
ghost use Rattle.nm_sim.specs.Part.{Represents};
ghost use Rattle.nm_topology.specs.Topology.{receiving_iface};
ghost use Rattle.nm_book.specs.Book.{knowledge_of};
ghost use Rattle.nm_book.specs.BookPart.{IsBook, pending_in};

use nm_base::{ChanNo, IfaceNo, Time};
use nm_events::HeapList;
use nm_iface::transmission_time;
use nm_sim::Part;
use nm_sim::network::every_topology_is_a_network;
use nm_topology::Topology;
use nm_topology::parts::Far;
use nm_topology::topology::{
    accepted_topologies_are_in_order, channels_are_numbered_by_their_receivers,
};

/// No further event of the part is before this time: the least of `stop`, of the safe time and of
/// the times of events to come.
fn next_cause(topology: &Topology, part: &Part<HeapList>, safe: Time) -> Time
    ensures value { (p : ℕ) (s : State (List ℕ) NodeStateValue)
        → Represents pending_in topology.now (Some p) part.now s
        → result ≡ next_time (min topology.now.stop safe) (least s.pending) }
    ensures most { result ≤ topology.now.stop }
{
    let known = topology.stop().min(safe);
    match part.least() {
        Some(first) => known.min(first),
        None => known,
    }
}

/// The link of an interface: its rate in bits per second, and its delay in nanoseconds.
fn link_of(topology: &Topology, iface: IfaceNo) -> Far
    // The interface is there, and its link is within its limits.
    requires { iface < length topology.now.ifaces }
    ensures least { 1 ≤ result.rate }
    ensures rate { result.rate ≤ MAX_RATE }
    ensures short { result.delay ≤ MAX_DELAY }

    // The link is the network's.
    ensures iface { result.iface ≡ (net_of topology.now).far_end iface }
    ensures delay { result.delay ≡ (net_of topology.now).delay iface }
    ensures least_tx { time_of result.rate 1 ≡ (net_of topology.now).least_tx iface }
{
    accepted_topologies_are_in_order(topology); // law: rates and delays are within their limits
    let described = topology.iface(iface);
    described.far()
}

/// The interface that sends on a channel.
fn sender(topology: &Topology, channel: ChanNo) -> IfaceNo
    requires { channel < length topology.now.receivers }
    ensures there { result < length topology.now.ifaces }
    ensures value { result
        ≡ (net_of topology.now).far_end (receiving_iface topology.now channel) }
{
    every_topology_is_a_network(topology); // law: a link has two ends
    channels_are_numbered_by_their_receivers(topology); // law: a channel's interface is there
    link_of(topology, topology.receiver(channel)).iface
}

/// The promise that counts the link's delay alone, in nanoseconds.
pub(crate) fn plain_promise(
    topology: &Topology,
    part: &Part<HeapList>,
    safe: Time,
    channel: ChanNo,
) -> Time
    requires there { channel < length topology.now.receivers }
    ensures { (p : ℕ) (knows : List (Know (List ℕ))) → IsBook topology.now p knows part.now
        → safe ≡ safe_time (net_of topology.now) p (knowledge_of topology.now knows)
        → result ≡ promise (net_of topology.now) Plain p (knowledge_of topology.now knows)
        part.now.steps (receiving_iface topology.now channel) }
{
    accepted_topologies_are_in_order(topology); // law: `stop` is within its limit
    let link = link_of(topology, sender(topology, channel));
    let cause = next_cause(topology, part, safe);
    Time::from_nanoseconds(cause.nanoseconds() + link.delay)
}

/// The promise that also counts the transmission under way, and the least time that one takes, in
/// nanoseconds.
pub(crate) fn tight_promise(
    topology: &Topology,
    part: &Part<HeapList>,
    safe: Time,
    channel: ChanNo,
) -> Time
    requires there { channel < length topology.now.receivers }
    ensures { (p : ℕ) (knows : List (Know (List ℕ))) → IsBook topology.now p knows part.now
        → safe ≡ safe_time (net_of topology.now) p (knowledge_of topology.now knows)
        → goes_out (net_of topology.now) p (receiving_iface topology.now channel) ≡ true
        → result ≡ promise (net_of topology.now) Tight p (knowledge_of topology.now knows)
        part.now.steps (receiving_iface topology.now channel) }
{
    accepted_topologies_are_in_order(topology); // law: `stop` is within its limit
    let link = link_of(topology, sender(topology, channel));
    let start = next_cause(topology, part, safe).max(part.busy(topology, channel));
    let lookahead = transmission_time(link.rate, 1) + link.delay;
    Time::from_nanoseconds(start.nanoseconds() + lookahead)
}
