//! Which channels run between two partitions.

ghost use Rattle.std.specs.Prelude.{◌≡◌, ◌<◌, length, IfOk};
ghost use Rattle.nm_frames.specs.Channels.{runs_between, channels_between};

use nm_base::{ChanNo, PartNo};
use nm_book::channels::{receiver_of, sender_of};
use nm_topology::Topology;
use std::alloc::{AllocError, Global};

/// Whether a channel runs from one partition to the other.
fn is_between(topology: &Topology, from: PartNo, to: PartNo, channel: ChanNo) -> bool
    requires { channel < length topology.now.receivers }
    ensures { result ≡ runs_between topology.now from to channel }
{
    sender_of(topology, channel) == from && receiver_of(topology, channel) == to
}

/// The channels from one partition to another, by number.
pub fn channels_between(
    alloc: Global,
    topology: &Topology,
    from: PartNo,
    to: PartNo,
) -> Result<Vec<ChanNo>, AllocError>
    ensures { IfOk result (λ channels. channels.items ≡ channels_between topology.now from to) }
{
    let mut channels = Vec::new(alloc);
    for number in 0..topology.receivers().len() {
        let channel = topology.channel_number(number);
        if is_between(topology, from, to, channel) {
            channels.push(channel)?;
        }
    }
    Ok(channels)
}
