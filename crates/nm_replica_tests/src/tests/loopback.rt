//! Two replicas in two threads, over loopback.

use crate::tests::cut_transport::CutTransport;
use crate::tests::sides::{ANY, Closed, Company, Noting, listen, over_tcp, serve, topology_of};
use mio::Poll;
use nm_fixtures::{SHIFT, SPLIT};
use nm_replica::Served;
use nm_rounds::certify::certify;
use nm_topology::Topology;
use std::alloc::Global;
use std::net;
use std::net::{Net, SocketAddr};
use std::process::Abort;
use std::sync::{Arc, Wait};
use std::thread::{Threads, join};
use std::time::Clock;

/// A replica over TCP.
#[derive(Clone, Copy)]
struct Side<'a> {
    company: Company,
    /// The address of a replica, and those of its peers.
    own: SocketAddr,
    peers: &'a [SocketAddr],
    /// Connections that it begins fail after these numbers of octets, from the last number on.
    cuts: &'a [usize],
}

/// Serves a replica over TCP.
fn serve_side<R: Net + Wait + Clock + Abort + Drop + Copy>(
    rt: &R,
    alloc: Global,
    topology: &Arc<Topology>,
    side: Side<'_>,
) -> Closed {
    let cuts = side.cuts.to_vec(alloc).expect(rt, "memory");
    let poll = Poll::new(rt).expect(rt, "a poll");
    let transport = over_tcp(rt, alloc, poll, listen(rt, side.own), side.peers);
    let mut transport = CutTransport::new(transport, cuts);
    serve(
        rt,
        alloc,
        topology,
        side.company,
        &mut transport,
        &Noting::new(),
    )
}

/// A replica of partition 0, which calls at this address over connections that fail after so many
/// octets.
fn calling<'a>(peers: &'a [SocketAddr], cuts: &'a [usize], idle_limit: u64) -> Side<'a> {
    Side {
        company: Company {
            is_called: false,
            by_two: false,
            idle_limit,
        },
        own: SocketAddr::from(ANY),
        peers,
        cuts,
    }
}

/// A replica of partition 1, which is called at this address.
fn called(own: SocketAddr) -> Side<'static> {
    Side {
        company: Company {
            is_called: true,
            by_two: false,
            idle_limit: 100,
        },
        own,
        peers: &[],
        cuts: &[],
    }
}

/// An address of 127.0.0.1 at a port that is free.
fn free_address<R: Net + Abort>(rt: &R) -> SocketAddr {
    let listener = listen(rt, SocketAddr::from(ANY));
    listener.at()
}

/// Both end, and their books are certified: their traces are those of the one event list. Gives how
/// many messages the one that calls wrote again.
fn meet<R>(rt: &R, alloc: Global, text: &str, cuts: &[usize]) -> u64
where
    R: Net<Stream = net::TcpStream, Listener = net::TcpListener>
        + Threads
        + Wait
        + Clock
        + Abort
        + Sync
        + Drop
        + Copy,
{
    let topology = topology_of(rt, alloc, text);
    let address = free_address(rt);
    let peers = [address];
    let (near, far) = join(
        rt,
        || serve_side(rt, alloc, &topology, calling(&peers, cuts, 100)),
        || serve_side(rt, alloc, &topology, called(address)),
    );
    assert!(rt; near.served == Served::Ended && far.served == Served::Ended);
    assert!(rt; certify(&topology, &[&near.book, &far.book]).is_ok());
    near.resent
}

/// Over whole connections.
#[test]
fn two_threads_meet(rt: HostRuntime) {
    assert!(rt; meet(&rt, rt.alloc(), SPLIT, &[]) == 0);
    assert!(rt; meet(&rt, rt.alloc(), SHIFT, &[]) == 0);
}

/// Over eight connections that break, at most after the Hello and a message, which is written
/// again.
#[test]
fn two_threads_meet_again(rt: HostRuntime) {
    let cuts = [190, 189, 125, 65, 64, 48, 1, 0];
    assert!(rt; meet(&rt, rt.alloc(), SHIFT, &cuts) >= 1);
}

/// Nobody listens at the peer's address.
#[test]
fn a_peer_that_never_listens_stalls(rt: HostRuntime) {
    let peers = [free_address(&rt)];
    let topology = topology_of(&rt, rt.alloc(), SPLIT);
    let closed = serve_side(&rt, rt.alloc(), &topology, calling(&peers, &[], 4));
    assert!(rt; matches!(closed.served, Served::Stalled { .. }));
}
