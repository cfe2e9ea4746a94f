//! The list of addresses of `node`, read again for further lines: its first wrong line, and with
//! whom a replica speaks.

use crate::rereading::{read_again, read_network};
use nm_base::{PartNo, number_of};
use nm_command::NodeArguments;
use nm_frames::channels::channels_between;
use nm_peers::peers::own_address;
use nm_peers::{Listener, peers_of, read_listeners};
use nm_topology::Topology;
use std::alloc::{AllocError, Global};
use std::io;
use std::net::{Net, TcpListener};

/// The partition and the replica that the first two words of a line name.
fn replica_of(line: &[u8]) -> Option<(u32, u8)> {
    let mut words = line.split(|octet| *octet == b' ');
    let partition = number_of(words.next()?)?;
    let replica = number_of(words.next()?)?;
    if partition > u64::from(u32::MAX) || replica > 1 {
        return None;
    }
    Some((partition as u32, replica as u8))
}

/// The listener of a single line, given with its line feed.
fn listener_of(alloc: Global, line: &[u8], partitions: u32) -> Option<Listener> {
    let (partition, replica) = replica_of(line)?;
    let read = read_listeners(alloc, line, partitions, PartNo::new(partition), replica);
    match read {
        Ok(found) => found.first().copied(),
        Err(_) => None,
    }
}

/// What is wrong with the list of addresses of a node, in a sentence.
///
/// # Errors
///
/// If it cannot be read again, or memory was refused.
pub fn address_fault(
    rt: &HostRuntime,
    topology: &Topology,
    words: &NodeArguments<'_>,
) -> io::Result<String> {
    let (alloc, name) = (rt.alloc(), words.addresses);
    let text = read_again(rt, name)?;
    let mut seen: Vec<(PartNo, u8)> = Vec::new(alloc);
    for (number, line) in text.split_inclusive(|octet| *octet == b'\n').enumerate() {
        let place = number.saturating_add(1);
        let Some(found) = listener_of(alloc, line, topology.partitions()) else {
            return Ok(format!(in alloc;
                "{name}: line {place} is not P R A.B.C.D:PORT, with a \
                partition and a replica of the topology, and a line feed behind it"
            )?);
        };
        let pair = (found.partition, found.replica);
        if seen.contains(&pair) {
            return Ok(format!(in alloc; "{name}: line {place} names a replica again")?);
        }
        seen.push(pair)?;
    }
    let (partition, replica) = (words.partition.number(), words.replica);
    Ok(format!(in alloc; "{name}: no line is of this replica, {partition} {replica}")?)
}

/// Which of the listeners a replica of a partition speaks with, as a list of `P R at A.B.C.D:PORT`.
fn neighbours_among(
    alloc: Global,
    topology: &Topology,
    own: PartNo,
    listeners: &[Listener],
) -> Result<String, AllocError> {
    let peers = peers_of(alloc, topology, own, listeners)?;
    let mut text = String::new(alloc);
    for listener in listeners {
        let calls = peers
            .callers
            .iter()
            .any(|name| name.partition == listener.partition);
        if !calls && !peers.partitions.contains(&listener.partition) {
            continue;
        }
        let before = if text.is_empty() { "" } else { ", " };
        let (partition, replica) = (listener.partition.number(), listener.replica);
        let one = format!(in alloc; "{before}{partition} {replica} at {}", listener.address)?;
        text.push_str(one.as_str())?;
    }
    Ok(text)
}

/// The topology and the listeners of a node, read again.
///
/// # Errors
///
/// If an input cannot be read again, or memory was refused.
pub fn read_node(
    rt: &HostRuntime,
    words: &NodeArguments<'_>,
) -> io::Result<Option<(Topology, Vec<Listener>)>> {
    let alloc = rt.alloc();
    let topology = read_network(rt, words.topology)?;
    let text = read_again(rt, words.addresses)?;
    let count = topology.partitions();
    let read = read_listeners(
        alloc,
        text.as_slice(),
        count,
        words.partition,
        words.replica,
    );
    match read {
        Ok(listeners) => Ok(Some((topology, listeners))),
        Err(_) => Ok(None),
    }
}

/// With whom the replica of a node speaks, in a sentence.
///
/// # Errors
///
/// If an input cannot be read again, or memory was refused.
pub fn neighbours_of(rt: &HostRuntime, words: &NodeArguments<'_>) -> io::Result<Option<String>> {
    let alloc = rt.alloc();
    let Some((topology, listeners)) = read_node(rt, words)? else {
        return Ok(None);
    };
    let found = neighbours_among(alloc, &topology, words.partition, listeners.as_slice())?;
    if found.is_empty() {
        return Ok(None);
    }
    Ok(Some(format!(in alloc; "nothing came for a minute; it speaks with {found}")?))
}

/// The partitions with which a node shares a channel but that have no replica in its list, as a
/// sentence, if there are any.
///
/// # Errors
///
/// If an input cannot be read again, or memory was refused.
pub fn absent_of(rt: &HostRuntime, words: &NodeArguments<'_>) -> io::Result<Option<String>> {
    let alloc = rt.alloc();
    let Some((topology, listeners)) = read_node(rt, words)? else {
        return Ok(None);
    };
    let mut text = String::new(alloc);
    for number in 0..topology.partitions() {
        let other = PartNo::new(number);
        let is_listed = listeners.iter().any(|listener| listener.partition == other);
        let channels = channels_between(alloc, &topology, words.partition, other)?;
        if is_listed || channels.is_empty() {
            continue;
        }
        let before = if text.is_empty() { "" } else { ", " };
        text.push_str(format!(in alloc; "{before}{number}")?.as_str())?;
    }
    if text.is_empty() {
        return Ok(None);
    }
    let name = words.addresses;
    Ok(Some(format!(in alloc;
        "{name}: no replica of partition {text} takes part: \
        without it this one cannot be done"
    )?))
}

/// Why a node cannot listen at its address, if it cannot.
///
/// # Errors
///
/// If an input cannot be read again, or memory was refused.
pub fn listening_fault<N: Net>(
    rt: &HostRuntime,
    system: &N,
    words: &NodeArguments<'_>,
) -> io::Result<Option<String>> {
    let alloc = rt.alloc();
    let Some((_, listeners)) = read_node(rt, words)? else {
        return Ok(None);
    };
    let Some(own) = own_address(listeners.as_slice(), words.partition, words.replica) else {
        return Ok(None);
    };
    match TcpListener::bind(system, own) {
        Ok(_) => Ok(None),
        Err(error) => Ok(Some(format!(in alloc; "{own}: {error}")?)),
    }
}
