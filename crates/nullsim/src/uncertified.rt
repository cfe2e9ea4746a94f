//! What the certificate found, for a terminal: in words, and between which partitions.

use crate::rereading::read_network;
use nm_base::sink::write_all;
use nm_base::{ChanNo, Sink};
use nm_book::channels::{receiver_of, sender_of};
use nm_rounds::CertFault;
use nm_topology::Topology;
use std::alloc::{AllocError, Global};
use std::io;

/// The channel of a fault, if it is of one.
fn channel_of(fault: CertFault) -> Option<ChanNo> {
    match fault {
        CertFault::Prefix { channel, .. }
        | CertFault::Clock { channel }
        | CertFault::Promise { channel } => Some(channel),
        _ => None,
    }
}

/// The partition of a fault, if it is of one.
fn partition_of(fault: CertFault) -> Option<u32> {
    match fault {
        CertFault::Missing { partition } | CertFault::Unfinished { partition } => {
            Some(partition.number())
        }
        _ => None,
    }
}

/// The place of a fault, in words: at which partition, or on which channel, which goes from which
/// partition to which.
fn place_of(
    alloc: Global,
    network: &Topology,
    fault: CertFault,
) -> Result<Option<String>, AllocError> {
    if let Some(partition) = partition_of(fault) {
        return Ok(Some(format!(in alloc; ": partition {partition}")?));
    }
    let Some(channel) = channel_of(fault) else {
        return Ok(None);
    };
    if channel.index() >= network.receivers().len() {
        return Ok(None);
    }
    let (number, from, to) = (
        channel.number(),
        sender_of(network, channel).number(),
        receiver_of(network, channel).number(),
    );
    Ok(Some(format!(in alloc; ": channel {number}, from partition {from} to {to}")?))
}

/// Says what the certificate found.
///
/// # Errors
///
/// If the text cannot be read again, or memory was refused. Nothing was printed then.
pub fn say_fault<E: Sink>(
    rt: &HostRuntime,
    words: &[String],
    fault: CertFault,
    errors: &mut E,
) -> io::Result<()> {
    let Some(topology) = words.get(1) else {
        return Ok(());
    };
    let alloc = rt.alloc();
    let network = read_network(rt, topology.as_str())?;
    let place = place_of(alloc, &network, fault)?;
    let text = format!(in alloc; "{fault}")?;
    let _ = write_all(errors, text.as_bytes());
    if let Some(place) = place {
        let _ = write_all(errors, place.as_bytes());
    }
    let _ = write_all(errors, b"\n");
    Ok(())
}
