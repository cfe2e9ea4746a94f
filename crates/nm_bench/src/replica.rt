//! A replica at work: it gets messages of its channels, and runs.

use bytes::Bytes;
use nm_base::{ChanNo, Packet, PartNo, Time};
use nm_book::{Book, ChannelMessage, Data};
use nm_topology::Topology;
use std::alloc::{AllocError, Global};
use std::io::{Error, ErrorKind};
use std::sync::Arc;

/// How many messages a replica gets, at most.
const MESSAGES: u64 = 1_000_000;

/// The channels that come in.
pub(crate) fn incoming(
    alloc: Global,
    book: &Book,
    channels: u32,
) -> Result<Vec<ChanNo>, AllocError> {
    let mut found = Vec::new(alloc);
    for number in 0..channels {
        let channel = ChanNo::new(number);
        if book.know(channel).is_some() {
            found.push(channel)?;
        }
    }
    Ok(found)
}

/// Gives it the message of this number of each channel, and has it run and hand out its records.
fn tell(
    alloc: Global,
    book: &mut Book,
    channels: &[ChanNo],
    number: u64,
    packet: &Packet,
) -> Result<u64, AllocError> {
    let mut told = 0u64;
    for channel in channels {
        let message = ChannelMessage::Data(Data {
            channel: *channel,
            number,
            time: Time::from_nanoseconds(number.saturating_mul(1_000).saturating_add(1_000)),
            packet: packet.clone()?,
        });
        if book.accept(&message).is_ok() {
            told = told.saturating_add(1);
        }
        let _ran = book.run_safe(alloc, u64::MAX);
    }
    for _ in 0..book.trace().len() {
        let _record = book.hand_out();
    }
    Ok(told)
}

/// A million messages in all, one of each channel in turn; it runs after each. How many it took.
fn tell_all(alloc: Global, book: &mut Book, channels: &[ChanNo]) -> Result<u64, Error> {
    let octets = Vec::from_slice(alloc, &[0; 20])?;
    let packet = Packet::new(alloc, Bytes::from_vec(octets)?)?.ok_or(ErrorKind::InvalidData)?;
    let mut told = 0u64;
    let rounds = match MESSAGES.checked_div(channels.len() as u64) {
        Some(rounds) => rounds,
        None => return Err(ErrorKind::InvalidInput.into()),
    };
    for number in 0..rounds {
        told = told.saturating_add(tell(alloc, book, channels, number, &packet)?);
    }
    Ok(told)
}

/// Replica 0 of partition 0 gets messages of all incoming channels: how many it took.
pub(crate) fn replica_told(alloc: Global, topology: Topology) -> Result<u64, Error> {
    let channels = topology.receivers().len() as u32;
    let Ok(shared) = Arc::new(alloc, topology) else {
        return Err(ErrorKind::OutOfMemory.into());
    };
    let Ok(mut book) = Book::new(alloc, shared, PartNo::new(0), 0) else {
        return Err(ErrorKind::InvalidInput.into());
    };
    let channels = incoming(alloc, &book, channels)?;
    tell_all(alloc, &mut book, &channels)
}
