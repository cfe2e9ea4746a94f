//! Replicas that are shared, and links of theirs over wires in memory.

use crate::books::null;
use crate::truth::channels_of;
use nm_alike::are_alike;
use nm_base::mem_wire::Ending;
use nm_base::{ChanNo, MemWire, PartNo};
use nm_book::{Book, ChannelMessage, Data};
use nm_engine::{Acceptor, Cause, Link, ReadBuffer, Turn};
use nm_frames::Session;
use nm_knowledge::Know;
use nm_shared::{Pass, Plain, SharedBook};
use nm_topology::Topology;
use std::alloc::Global;
use std::io;
use std::sync::{Arc, Wait};

/// A replica that is shared, with a pass.
#[derive(Drop)]
pub struct End {
    pub book: SharedBook<Plain>,
    pub pass: Pass<Plain>,
}

/// Replica 0 of a partition, which knows nothing yet.
pub fn end_of<R: Wait>(
    rt: &R,
    alloc: Global,
    topology: &Arc<Topology>,
    partition: u32,
) -> io::Result<End> {
    let (counts, whole) = Plain::open();
    let shared = topology.clone()?;
    match SharedBook::new(alloc, shared, PartNo::new(partition), 0, counts, whole) {
        Ok(book) => {
            let pass = book.pass(rt)?;
            Ok(End { book, pass })
        }
        Err(_) => Err(io::Error::other("there is no such replica")),
    }
}

/// Replica 0 of partition 0 once it knows that nothing comes on channel 0 before this time, in
/// nanoseconds, and did what is safe then.
pub fn end_at<R: Wait>(
    rt: &R,
    alloc: Global,
    topology: &Arc<Topology>,
    clock: u64,
) -> io::Result<End> {
    let mut end = end_of(rt, alloc, topology, 0)?;
    let _answer = end.book.accept(rt, &mut end.pass, &null(0, 0, clock));
    let _ran = end.book.run(rt, &mut end.pass, alloc, 1000);
    Ok(end)
}

/// A session of replica 0 of one of two partitions with the other one.
pub fn session_of(alloc: Global, topology: &Topology, me: u32) -> io::Result<Session> {
    let peer = if me == 0 { 1 } else { 0 };
    Ok(Session::new(alloc, topology, PartNo::new(me), 0, PartNo::new(peer))?)
}

/// How many messages a replica knows.
pub fn messages_of<R: Wait>(rt: &R, end: &mut End) -> u64 {
    end.book.look(rt, &mut end.pass).messages
}

/// A shared replica gets all that another one knows of a channel.
fn tell_known<R: Wait>(rt: &R, end: &mut End, channel: ChanNo, know: &Know) -> io::Result<()> {
    let count = know.len() as u64;
    for number in 0..count {
        if let Some((time, packet)) = know.message(number) {
            let told = ChannelMessage::Data(Data {
                channel,
                number,
                time,
                packet: packet.clone()?,
            });
            let _answer = end.book.accept(rt, &mut end.pass, &told);
        }
    }
    let told = null(channel.number(), count, know.clock().nanoseconds());
    let _answer = end.book.accept(rt, &mut end.pass, &told);
    Ok(())
}

/// A shared replica that got all that another one knows, and did what is safe.
pub fn end_like<R: Wait>(
    rt: &R,
    alloc: Global,
    topology: &Arc<Topology>,
    like: &Book,
) -> io::Result<End> {
    let mut end = end_of(rt, alloc, topology, like.partition().number())?;
    for number in 0..channels_of(topology) {
        let channel = ChanNo::new(number);
        if let Some(know) = like.know(channel) {
            tell_known(rt, &mut end, channel, know)?;
        }
    }
    let _ran = end.book.run(rt, &mut end.pass, alloc, 1000);
    Ok(end)
}

/// Whether a shared replica is like another one once it did what is safe.
pub fn ends_like<R: Wait>(
    rt: &R,
    alloc: Global,
    end: End,
    like: &Book,
    channels: u32,
) -> io::Result<bool> {
    let End { book, mut pass } = end;
    let _ran = book.run(rt, &mut pass, alloc, 1000);
    let mut passes = Vec::new(alloc);
    passes.push(pass)?;
    match book.close(passes) {
        Ok(closed) => Ok(are_alike(&closed.book, like, channels)),
        Err(_) => Err(io::Error::other("a pass is missing")),
    }
}

/// What a wire in memory does: what it gives, how it ends, and how many octets it takes.
#[derive(Clone, Copy)]
pub struct Script<'a> {
    pub source: &'a [u8],
    pub ending: Ending,
    pub room: usize,
}

/// A wire that gives these octets and then nothing, and takes all.
pub fn open(source: &[u8]) -> Script<'_> {
    Script {
        source,
        ending: Ending::Later,
        room: 1_000,
    }
}

/// A wire with a script.
pub fn wire_of(alloc: Global, script: Script) -> io::Result<MemWire> {
    let source = script.source.to_vec(alloc)?;
    Ok(MemWire::new(alloc, source, script.ending, script.room, 1_000)?)
}

/// The result of a link: its last turn that was no progress, the octets that its wire took, and its
/// session.
#[derive(Drop)]
pub struct Came {
    pub turn: Turn,
    pub octets: Vec<u8>,
    pub session: Option<Session>,
}

/// Turns of a link until one that is no progress, at most 2,000.
pub fn turns<R: Wait>(
    rt: &R,
    alloc: Global,
    end: &mut End,
    link: &mut Link<MemWire>,
) -> io::Result<Turn> {
    let mut buffer = ReadBuffer::new(alloc)?;
    for _ in 0..2_000 {
        let turn = link.turn(rt, alloc, &end.book, &mut end.pass, &mut buffer);
        if turn != Turn::Progress {
            return Ok(turn);
        }
    }
    Ok(Turn::Progress)
}

/// The result of a link.
fn outcome<R: Wait>(rt: &R, alloc: Global, end: &mut End, link: Link<MemWire>) -> io::Result<Came> {
    let mut link = link;
    let turn = turns(rt, alloc, end, &mut link)?;
    let (wire, session) = link.back();
    let octets = wire.octets().to_vec(alloc)?;
    Ok(Came {
        turn,
        octets,
        session,
    })
}

/// A link with this session over such a wire.
pub fn drive<R: Wait>(
    rt: &R,
    alloc: Global,
    end: &mut End,
    session: Session,
    script: Script,
) -> io::Result<Came> {
    let link = Link::connected(alloc, wire_of(alloc, script)?, session);
    outcome(rt, alloc, end, link)
}

/// A link that the peer connected, over such a wire.
pub fn drive_accepted<R: Wait>(
    rt: &R,
    alloc: Global,
    end: &mut End,
    acceptor: Acceptor,
    script: Script,
) -> io::Result<Came> {
    let link = Link::accepted(alloc, wire_of(alloc, script)?, acceptor);
    outcome(rt, alloc, end, link)
}

/// The words of a turn.
pub fn turn_word(turn: Turn) -> &'static str {
    match turn {
        Turn::Progress => "progress",
        Turn::Idle => "idle",
        Turn::Ended => "ended",
        Turn::Failed => "failed",
        Turn::Broken(cause) => cause_word(cause),
    }
}

/// The word of what a link broke of.
fn cause_word(cause: Cause) -> &'static str {
    match cause {
        Cause::End => "end",
        Cause::Fault => "fault",
        Cause::Frame => "frame",
        Cause::Session => "session",
        Cause::Book => "book",
        Cause::Memory => "memory",
    }
}
