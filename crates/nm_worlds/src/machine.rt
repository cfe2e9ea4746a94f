//! A replica of a world, from its beginning to its end.

use crate::transport::WorldTransport;
use crate::wire::WorldWire;
use nm_base::{MemSink, PartNo};
use nm_files::TraceFiles;
use nm_frames::ReplicaName;
use nm_peers::Peers;
use nm_replica::acts::Stand;
use nm_replica::{Holdings, OwnSeats, Running, Served, Service, poll_replica};
use nm_shared::{Lending, Pass, Plain, SharedBook};
use nm_topology::Topology;
use std::alloc::{AllocError, Global};
use std::sync::{Arc, Wait};

/// After so many periods in which nothing moved a replica is stalled: a minute.
const IDLE_LIMIT: u64 = 1_200;

/// A replica does so many events after a poll.
const RUN_LIMIT: u64 = 64;

/// What does not change of a replica.
#[derive(Clone, Copy)]
pub(crate) struct Role<'x> {
    pub topology: &'x Arc<Topology>,
    pub book: &'x SharedBook<Plain>,
    pub name: ReplicaName,
    pub partitions: &'x [PartNo],
    pub callers: &'x [ReplicaName],
    pub lending: &'x Lending,
}

/// A replica that is served.
#[derive(Drop)]
pub(crate) struct Machine<'x> {
    holdings: Holdings<'x, Plain, MemSink>,
    running: Running<WorldWire>,
    transport: WorldTransport,
    /// How serving it ended, once it has, and when.
    pub served: Option<Served>,
    pub ended_at: u64,
}

/// What it is served with: it merges with nobody, and its book keeps its records.
fn service_of<'a>(role: &Role<'a>) -> Service<'a, Plain> {
    Service {
        topology: role.topology,
        book: role.book,
        peers: role.partitions,
        callers: role.callers,
        books: &[],
        idle_limit: IDLE_LIMIT,
        run_limit: RUN_LIMIT,
        lending: role.lending,
        progress: None,
        notes_progress: false,
        keeps_records: true,
    }
}

impl<'x> Machine<'x> {
    /// One that has no connection so far.
    pub(crate) fn new<R: Wait>(
        rt: &R,
        alloc: Global,
        role: &Role<'_>,
        seats: OwnSeats<'x>,
        transport: WorldTransport,
    ) -> Result<Self, AllocError> {
        Ok(Machine {
            holdings: Holdings {
                pass: role.book.pass(rt)?,
                passes: Vec::new(alloc),
                seats,
                files: TraceFiles::new(alloc),
            },
            running: Running::new(alloc, &service_of(role))?,
            transport,
            served: None,
            ended_at: 0,
        })
    }

    /// It makes a poll at this time, unless it has ended or its wait goes on: whether it ends by
    /// it.
    pub(crate) fn poll<R: Wait>(
        &mut self,
        rt: &R,
        alloc: Global,
        role: &Role<'_>,
        now: u64,
    ) -> bool {
        if self.served.is_some() || !self.transport.wakes(now) {
            return false;
        }
        let service = service_of(role);
        self.served = match poll_replica(
            rt,
            alloc,
            &service,
            &mut self.holdings,
            &mut self.transport,
            &mut self.running,
        ) {
            Ok(served) => served,
            Err(served) => Some(served),
        };
        self.ended_at = now;
        self.served.is_some()
    }

    /// Whether its book is done.
    pub(crate) fn is_done<R: Wait>(&mut self, rt: &R, role: &Role<'_>) -> bool {
        role.book.act(rt, &mut self.holdings.pass, Stand).is_done
    }

    /// The pass of its book.
    pub(crate) fn into_pass(self) -> Pass<Plain> {
        let Machine { holdings, .. } = self;
        holdings.pass
    }
}
