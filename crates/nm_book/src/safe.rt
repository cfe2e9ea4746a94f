//! The safe time.

ghost use Rattle.std.specs.Prelude.{◌≡◌, ℕ, ◌<◌, ◌≤◌, if◌then◌else◌, List, length, slice_index_or};
ghost use Rattle.std.specs.Prelude.{slice_set};
ghost use Rattle.nm_model.specs.Knowledge.{Know as Knowledge, nothing_known};
ghost use Rattle.nm_model.specs.Partition.{comes_in};
ghost use Rattle.nm_model.specs.Replica.{safe_time};
ghost use Rattle.nm_sim.specs.Network.{net_of};
ghost use Rattle.nm_topology.specs.Topology.{receiving_iface};
ghost use Rattle.nm_book.specs.Book.{knowledge_of};

use crate::channels::comes_in;
use nm_base::{ChanNo, Packet, PartNo, Time};
use nm_forward::NodeState;
use nm_knowledge::Know;
use nm_model::replica::safe_time_is_the_least;
use nm_sim::network::channels_are_those_of_the_network;
use nm_topology::Topology;
use nm_topology::topology::channels_are_numbered_by_their_receivers;

/// The clock of a channel that comes in; of another channel, `stop`.
fn clock_of(topology: &Topology, partition: PartNo, channel: ChanNo, know: &Know) -> Time
    ensures { result ≡ (if comes_in (net_of topology.now) partition
        (receiving_iface topology.now channel) then know.now.clock else topology.now.stop) }
{
    if comes_in(topology, partition, channel) {
        know.clock()
    } else {
        topology.stop()
    }
}

/// The safe time (J. Misra, 1986, section 2), in nanoseconds: the least of `stop` and of the clocks
/// of the channels that come in.
pub(crate) fn safe_time(topology: &Topology, partition: PartNo, knows: &[Know]) -> Time
    requires { length knows.now ≡ length topology.now.receivers }
    ensures { result ≡ safe_time (net_of topology.now) partition
        (knowledge_of topology.now knows.now) }
{
    channels_are_numbered_by_their_receivers(topology); // law: a channel has its own interface
    channels_are_those_of_the_network(topology); // law: what comes in is a channel
    safe_time_is_the_least::<Packet, NodeState>(); // law: and no clock is before it
    let mut safe = topology.stop();
    for number in 0..knows.len() {
        let channel = topology.channel_number(number);
        safe = safe.min(clock_of(topology, partition, channel, &knows[number]));
    }
    safe
}

/// The safe time after the clock of a channel rose from this time. It changes only if that clock
/// held it back.
pub(crate) fn safe_time_after(
    topology: &Topology,
    partition: PartNo,
    knows: &[Know],
    safe: Time,
    channel: ChanNo,
    clock: Time,
) -> Time
    requires { length knows.now ≡ length topology.now.receivers }
    ensures { (old : List (Knowledge (List ℕ))) (after : Knowledge (List ℕ))
        → knows.now ≡ slice_set old channel after → channel < length old
        → clock ≡ (slice_index_or old channel nothing_known).clock → clock ≤ after.clock
        → safe ≡ safe_time (net_of topology.now) partition (knowledge_of topology.now old)
        → result ≡ safe_time (net_of topology.now) partition (knowledge_of topology.now knows.now) }
{
    channels_are_numbered_by_their_receivers(topology); // law: a channel has its own interface
    channels_are_those_of_the_network(topology); // law: what comes in is a channel
    safe_time_is_the_least::<Packet, NodeState>(); // law: a clock after it does not matter
    if clock > safe {
        return safe;
    }
    safe_time(topology, partition, knows)
}
