//! Networks of two partitions, which the tests go over, and their replicas.

use crate::same::holds;
use nm_base::{ChanNo, PartNo, Time};
use nm_book::{Book, BookFault, ChannelMessage, Null};
use nm_topology::Topology;
use std::alloc::Global;
use std::process::Abort;
use std::sync::Arc;
use std::test::Fail;

/// How many channels these networks have.
pub const CHANNELS: u32 = 2;

/// The network of a text, which has to be accepted.
pub fn network(alloc: Global, text: &str) -> Result<Arc<Topology>, Fail> {
    let first = Topology::read(alloc, text.as_bytes());
    let topology = first.or(Topology::read(alloc, text.as_bytes()))?;
    let other = Topology::read(alloc, text.as_bytes());
    match Arc::new(alloc, topology) {
        Ok(shared) => Ok(shared),
        Err(_) => Ok(Arc::new(alloc, other?)?),
    }
}

/// A new replica; if memory was refused, that is the answer, and it is asked for once more.
pub fn book_of(
    rt: &(impl Abort + AllocGlobal),
    topology: &Arc<Topology>,
    partition: u32,
) -> Result<Book, Fail> {
    let shared = topology.clone().or(topology.clone())?;
    let again = topology.clone().or(topology.clone())?;
    match Book::new(rt.alloc(), shared, PartNo::new(partition), 0) {
        Ok(book) => Ok(book),
        Err(fault) => {
            holds(rt, "memory", fault == BookFault::Memory);
            Ok(Book::new(rt.alloc(), again, PartNo::new(partition), 0)?)
        }
    }
}

/// A null message.
pub fn null(channel: u32, count: u64, clock: u64) -> ChannelMessage {
    ChannelMessage::Null(Null {
        channel: ChanNo::new(channel),
        count,
        clock: Time::from_nanoseconds(clock),
    })
}
