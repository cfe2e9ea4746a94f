//! How serving a replica ends, and what its process answers.

ghost use Rattle.std.specs.Prelude.{◌≡◌, IsSomeAnd, Some, [], false, true};
ghost use Rattle.std.specs.Arc.{arc_value};
ghost use Rattle.nm_peers.specs.Peers.{ArePeers, own_address};
ghost use Rattle.nm_peers.specs.declared.peers.Peers.{Peers};
ghost use Rattle.nm_process.specs.Ending.{process_end, unfinished_fault};
ghost use Rattle.nm_process.specs.Process.{AreCalled, IsAt};
ghost use Rattle.nm_replica.specs.Served.{EndsWith};

use crate::fault::{ProcessCause, ProcessFault};
use crate::process::{Process, RUN_EVENTS};
use nm_base::MemSink;
use nm_book::Book;
use nm_replica::{Holdings, Served, Service, run_replica};
use nm_shared::{Counts, OpenGate};
use nm_transport::TcpTransport;
use std::alloc::Global;
use std::net::Net;
use std::sync::Wait;
use std::time::Clock;

/// How serving a replica ended: only `serve_over` makes it, so that it is the true ending.
#[derive(Clone, Copy)]
pub(crate) struct Ending {
    served: Served,
}

/// The result of a process.
#[derive(Drop)]
pub struct ProcessEnd {
    /// The book knows all, and did all of its events.
    pub book: Book,
    /// How serving ended. That need not be as done: a peer may have been gone for the last minute,
    /// or have broken the rules.
    pub served: Served,
}

/// Serves a replica over this transport, which only it uses.
pub(crate) fn serve_over<C: Counts, R: Net + Wait + Clock + Drop + Copy>(
    rt: &R,
    alloc: Global,
    process: &Process<'_>,
    service: &Service<'_, C>,
    holdings: &mut Holdings<'_, C, MemSink>,
    transport: &mut TcpTransport<R>,
) -> Ending
    // Its peers are all that its book's replica has among the listeners.
    requires topology { service.now.topology ≡ process.now.topology }
    requires peers { (peers : Peers)
        × ArePeers (arc_value process.now.topology.now) service.now.book.now.partition
        process.now.listeners.now peers
        × (service.now.peers.now ≡ peers.partitions.items)
        × (service.now.callers.now ≡ peers.callers.items) }

    // It calls each of these peers at its address.
    requires called { AreCalled (arc_value process.now.topology.now)
        service.now.book.now.partition process.now.listeners.now transport.old.peers }

    // It is stalled after the process's idle limit, merges with nobody, and its book keeps its
    // records.
    requires limits { (service.now.idle_limit ≡ process.now.idle_limit)
        × (service.now.run_limit ≡ RUN_EVENTS) × (service.now.keeps_records ≡ true) }
    requires alone { (service.now.books.now ≡ []) × (service.now.lending.now ≡ false) }
    requires notes { (service.now.progress ≡ Some process.now.progress)
        × (service.now.notes_progress ≡ true) }

    // It listens at the address that its replica has among the listeners.
    requires at { IsSomeAnd (own_address process.now.listeners.now service.now.book.now.partition
        service.now.book.now.replica) (IsAt transport.old.at) }

    // The ending is true of the replica, and of the periods and the waits that passed.
    ensures { EndsWith C.exact C.home true process.now.idle_limit
        (transport.old.elapsed, transport.new.elapsed)
        (transport.old.asked.waits, transport.new.asked.waits) result.served }
{
    Ending {
        served: run_replica(rt, alloc, service, holdings, transport, &OpenGate),
    }
}

/// Why a replica is not done, by how serving it ended.
fn unfinished_fault(served: Served) -> ProcessFault
    ensures { result ≡ unfinished_fault served }
{
    match served {
        Served::Ended | Served::Stalled { .. } => ProcessFault::Refused(ProcessCause::Stalled),
        Served::Net => ProcessFault::Refused(ProcessCause::Net),
        Served::File { .. } => ProcessFault::Refused(ProcessCause::Broken),
        Served::Memory => ProcessFault::Memory,
    }
}

/// The result of a process, by the book of its replica, if that is done, and by how serving ended.
pub(crate) fn process_end(closed: Option<Book>, ending: Ending) -> Result<ProcessEnd, ProcessFault>
    ensures { result ≡ process_end closed ending.served }
{
    match closed {
        Some(book) => Ok(ProcessEnd {
            book,
            served: ending.served,
        }),
        None => Err(unfinished_fault(ending.served)),
    }
}
