//! Two links of one thread: a replica sends another all its messages.

use crate::pipes::{PipeWire, pipe};
use crate::shared::{Replica, replica_of};
use nm_base::{ChanNo, PartNo, Time};
use nm_book::{ChannelMessage, Null};
use nm_engine::{Link, ReadBuffer, Turn};
use nm_fixtures::SPLIT;
use nm_frames::Session;
use nm_topology::Topology;
use std::alloc::{AllocError, Global};
use std::io::{Error, ErrorKind};
use std::sync::{Arc, Wait};

/// A shared replica and a link of it.
#[derive(Drop)]
struct End {
    replica: Replica,
    link: Link<PipeWire>,
}

/// Replica 0 of one of the two partitions, and its link.
fn end_of<R: Wait>(
    rt: &R,
    alloc: Global,
    topology: &Arc<Topology>,
    me: u32,
    wire: PipeWire,
) -> Result<End, Error> {
    let peer = PartNo::new(if me == 0 { 1 } else { 0 });
    let session = Session::new(alloc, topology, PartNo::new(me), 0, peer)?;
    let replica = replica_of(rt, alloc, topology, me)?;
    let link = Link::connected(alloc, wire, session);
    Ok(End { replica, link })
}

impl End {
    /// It learns that nothing comes before `stop`, and does all its events.
    fn finish<R: Wait>(&mut self, rt: &R, alloc: Global, stop: Time) -> bool {
        let null = ChannelMessage::Null(Null {
            channel: ChanNo::new(0),
            count: 0,
            clock: stop,
        });
        let Replica { book, pass } = &mut self.replica;
        let told = book.accept(rt, pass, &null).is_ok();
        let _ran = book.run(rt, pass, alloc, u64::MAX);
        told
    }

    /// A turn: whether octets moved.
    fn turn<R: Wait>(&mut self, rt: &R, alloc: Global, buffer: &mut ReadBuffer) -> bool {
        let Replica { book, pass } = &mut self.replica;
        self.link.turn(rt, alloc, book, pass, buffer) == Turn::Progress
    }
}

/// Both ends have turns until neither moves an octet.
fn talk<R: Wait>(rt: &R, alloc: Global, zero: &mut End, one: &mut End) -> Result<u64, Error> {
    let mut buffer = ReadBuffer::new(alloc)?;
    for _ in 0..1_000_000 {
        let told = zero.turn(rt, alloc, &mut buffer);
        let heard = one.turn(rt, alloc, &mut buffer);
        if !told && !heard {
            break;
        }
    }
    let Replica { book, pass } = &mut one.replica;
    Ok(book.look(rt, pass).messages)
}

/// The text of SPLIT, but that its source sends 50,000 datagrams, of so many octets of data.
fn network_text(alloc: Global, size: &str) -> Result<String, AllocError> {
    let sized = format!(in alloc; "size = {size}, start = 0, interval = 2000000, count = 50000")?;
    let longer = SPLIT.replace(alloc, "stop = 10000000", "stop = 110000000000")?;
    longer.as_str().replace(
        alloc,
        "size = 72, start = 0, interval = 1000000, count = 1",
        sized.as_str(),
    )
}

/// A replica of partition 0 is done, and sends one of partition 1 its messages, if it is to: how
/// many that then knows. Packets have 28 octets more than their data.
pub(crate) fn messages_told<R: Wait>(
    rt: &R,
    alloc: Global,
    size: &str,
    tells: bool,
) -> Result<u64, Error> {
    let text = network_text(alloc, size)?;
    let Ok(topology) = Topology::read(alloc, text.as_bytes()) else {
        return Err(ErrorKind::InvalidData.into());
    };
    let stop = topology.stop();
    let Ok(topology) = Arc::new(alloc, topology) else {
        return Err(ErrorKind::OutOfMemory.into());
    };
    let (there, back) = pipe(alloc)?;
    let mut zero = end_of(rt, alloc, &topology, 0, there)?;
    let mut one = end_of(rt, alloc, &topology, 1, back)?;
    if !zero.finish(rt, alloc, stop) {
        return Err(ErrorKind::InvalidInput.into());
    }
    if !tells {
        return Ok(0);
    }
    talk(rt, alloc, &mut zero, &mut one)
}
