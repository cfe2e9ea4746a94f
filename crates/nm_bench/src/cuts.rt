//! Two replicas whose connections break at random octets, again and again, until both have sent
//! Bye; and whether their books are then certified. `dev/check/links` does so with many seeds.

use crate::chance::Chance;
use crate::cut_wire::{CutWire, cut_pipe};
use crate::network::topology_at;
use crate::shared::{Replica, replica_of};
use nm_base::PartNo;
use nm_book::Book;
use nm_engine::{Acceptor, Link, ReadBuffer, Turn};
use nm_frames::Session;
use nm_rounds::CertFault;
use nm_rounds::certify::certify;
use nm_topology::Topology;
use std::alloc::Global;
use std::io::{Error, ErrorKind};
use std::rt::Files;
use std::sync::{Arc, Wait};

/// The most connections of a seed, and the most turns of a connection, which then is cut.
const MAX_CONNECTIONS: u64 = 1_000;

const MAX_TURNS: u64 = 500;

/// The links of a connection: that of partition 0, which connects, and that of partition 1.
#[derive(Drop)]
struct Links {
    zero: Link<CutWire>,
    one: Link<CutWire>,
}

/// The result of a connection.
#[derive(Drop)]
struct Came {
    /// The session of partition 0 after the break.
    session: Option<Session>,
    /// Whether both sides have sent Bye.
    ended: bool,
}

/// The result of a seed.
#[derive(Drop)]
struct Outcome {
    connections: u64,
    /// Why the books are not certified, if they are not.
    fault: Option<CertFault>,
}

/// The replicas of both partitions of a topology.
#[derive(Drop)]
struct Pair {
    topology: Arc<Topology>,
    zero: Replica,
    one: Replica,
}

impl Replica {
    /// It runs a little, at times, and its link has a turn.
    fn turn<R: Wait>(
        &mut self,
        rt: &R,
        alloc: Global,
        chance: &mut Chance,
        link: &mut Link<CutWire>,
        buffer: &mut ReadBuffer,
    ) -> Turn {
        if chance.once_in(3) {
            let limit = chance.below(6);
            let _ran = self.book.run(rt, &mut self.pass, alloc, limit);
        }
        link.turn(rt, alloc, &self.book, &mut self.pass, buffer)
    }

    /// Its book, which nobody shares any more.
    fn into_book(self, alloc: Global) -> Result<Book, Error> {
        let Replica { book, pass } = self;
        let mut passes = Vec::new(alloc);
        passes.push(pass)?;
        match book.close(passes) {
            Ok(closed) => Ok(closed.book),
            Err(_) => Err(ErrorKind::InvalidInput.into()),
        }
    }
}

/// A new connection: partition 0 goes on with its session, and partition 1 learns by the first
/// frame who is there.
fn connect(
    alloc: Global,
    topology: &Arc<Topology>,
    chance: &mut Chance,
    session: Session,
) -> Result<Links, Error> {
    let (there, back) = cut_pipe(alloc, chance)?;
    let acceptor = Acceptor::new(Arc::try_clone(topology)?, PartNo::new(1), 0);
    Ok(Links {
        zero: Link::connected(alloc, there, session),
        one: Link::accepted(alloc, back, acceptor),
    })
}

/// Both sides have turns by chance, until both have sent Bye, or some time after one broke. Whether
/// both have sent Bye.
fn talk<R: Wait>(
    rt: &R,
    alloc: Global,
    chance: &mut Chance,
    pair: &mut Pair,
    links: &mut Links,
    buffer: &mut ReadBuffer,
) -> bool {
    let mut first = Turn::Idle;
    let mut second = Turn::Idle;
    for _ in 0..MAX_TURNS {
        if chance.once_in(2) {
            first = pair.zero.turn(rt, alloc, chance, &mut links.zero, buffer);
        } else {
            second = pair.one.turn(rt, alloc, chance, &mut links.one, buffer);
        }
        if first == Turn::Ended && second == Turn::Ended {
            return true;
        }
        if (is_over(first) || is_over(second)) && chance.once_in(8) {
            return false;
        }
    }
    false
}

/// Whether the link broke, now or before.
fn is_over(turn: Turn) -> bool {
    matches!(turn, Turn::Broken(_) | Turn::Failed)
}

/// One connection, from its start until it is over.
fn connection<R: Wait>(
    rt: &R,
    alloc: Global,
    chance: &mut Chance,
    pair: &mut Pair,
    session: Session,
    buffer: &mut ReadBuffer,
) -> Result<Came, Error> {
    let mut links = connect(alloc, &pair.topology, chance, session)?;
    let ended = talk(rt, alloc, chance, pair, &mut links, buffer);
    let Links { zero: link, one: _ } = links;
    let (_wire, session) = link.back();
    Ok(Came { session, ended })
}

/// The session after its connection broke.
fn broken(session: Option<Session>) -> Result<Session, Error> {
    let Some(mut session) = session else {
        return Err(ErrorKind::InvalidData.into());
    };
    session.broken();
    Ok(session)
}

/// Connections until both sides have sent Bye over one: how many.
fn converse<R: Wait>(
    rt: &R,
    alloc: Global,
    chance: &mut Chance,
    pair: &mut Pair,
    buffer: &mut ReadBuffer,
) -> Result<u64, Error> {
    let mut session = Session::new(alloc, &pair.topology, PartNo::new(0), 0, PartNo::new(1))?;
    for count in 0..MAX_CONNECTIONS {
        let came = connection(rt, alloc, chance, pair, session, buffer)?;
        if came.ended {
            return Ok(count + 1);
        }
        session = broken(came.session)?;
    }
    Ok(MAX_CONNECTIONS)
}

/// The result of a seed.
fn outcome_of<R: Wait>(
    rt: &R,
    alloc: Global,
    topology: &Arc<Topology>,
    seed: u64,
    buffer: &mut ReadBuffer,
) -> Result<Outcome, Error> {
    let mut chance = Chance::new(seed);
    let mut pair = Pair {
        topology: Arc::try_clone(topology)?,
        zero: replica_of(rt, alloc, topology, 0)?,
        one: replica_of(rt, alloc, topology, 1)?,
    };
    let connections = converse(rt, alloc, &mut chance, &mut pair, buffer)?;
    let fault = fault_of(alloc, pair)?;
    Ok(Outcome { connections, fault })
}

/// Why the books of two replicas are not certified, if they are not.
fn fault_of(alloc: Global, pair: Pair) -> Result<Option<CertFault>, Error> {
    let Pair {
        topology,
        zero,
        one,
    } = pair;
    let zero = zero.into_book(alloc)?;
    let one = one.into_book(alloc)?;
    Ok(certify(&topology, &[&zero, &one]).err())
}

/// Does so with so many seeds, from one on, over the topology of a file with two partitions, and
/// shows each seed that is not certified, how many connections were made, and how many seeds are
/// not certified.
///
/// # Errors
///
/// `Other` if a seed is not certified.
pub(crate) fn try_seeds<R: Files + Print + AllocGlobal + Wait>(
    rt: &R,
    path: &str,
    from: u64,
    count: u64,
) -> Result<(), Error> {
    let alloc = rt.alloc();
    let Ok(topology) = Arc::new(alloc, topology_at(rt, path)?) else {
        return Err(ErrorKind::OutOfMemory.into());
    };
    let mut buffer = ReadBuffer::new(alloc)?;
    let (mut wrong, mut connections) = (0u64, 0u64);
    for number in 0..count {
        let seed = from.wrapping_add(number);
        let outcome = outcome_of(rt, alloc, &topology, seed, &mut buffer)?;
        connections = connections.saturating_add(outcome.connections);
        if let Some(fault) = outcome.fault {
            println!(rt; "seed {seed}: {fault}")?;
            wrong = wrong.saturating_add(1);
        }
    }
    println!(rt; "{connections} connections")?;
    println!(rt; "{count} seeds, {wrong} not certified")?;
    if wrong > 0 {
        return Err(ErrorKind::Other.into());
    }
    Ok(())
}
