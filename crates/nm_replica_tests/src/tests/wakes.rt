//! What ends the waits of a transport.

use crate::tests::sides::{ANY, listen, over_tcp};
use mio::{Poll, Token, Waker};
use nm_transport::limits::PERIOD_MILLISECONDS;
use nm_transport::{TcpTransport, Transport, Waited};
use std::alloc::Global;
use std::net::{Net, SocketAddr};
use std::process::Abort;
use std::time::{Clock, Instant};

/// A transport without peers, and what wakes it.
fn woken<R: Net + Clock + Abort + Drop + Copy>(rt: &R, alloc: Global) -> (TcpTransport<R>, Waker) {
    let poll = Poll::new(rt).expect(rt, "a poll");
    let waker = Waker::new(poll.registry(), Token(usize::MAX - 1)).expect(rt, "a waker");
    let listener = listen(rt, SocketAddr::from(ANY));
    (over_tcp(rt, alloc, poll, listener, &[]), waker)
}

/// Wakes end waits, and each no more than one.
#[test]
fn a_wake_ends_one_wait(rt: HostRuntime) {
    let (mut transport, waker) = woken(&rt, rt.alloc());
    let mut ended = 0u32;
    for _ in 0..20 {
        waker.wake().expect(&rt, "a wake");
        if transport.wait(true) == Waited::Ready {
            ended = ended.saturating_add(1);
        }
    }
    // If the host stops this test for longer than a period, that wait runs out.
    assert!(rt; ended > 0);
    let (first, second) = (transport.wait(true), transport.wait(true));
    assert!(rt; first == Waited::RanOut || second == Waited::RanOut);
}

/// Periods pass by the clock, however often it is woken: a wait, or a look, runs out once in each.
fn pass<R: Net + Clock + Abort + Drop + Copy>(rt: &R, alloc: Global, may_wait: bool) {
    let begun = Instant::now(rt).expect(rt, "a clock");
    let (mut transport, waker) = woken(rt, alloc);
    let mut periods = 0u64;
    for _ in 0..100_000_000u64 {
        waker.wake().expect(rt, "a wake");
        if transport.wait(may_wait) == Waited::RanOut {
            periods = periods.saturating_add(1);
            if periods == 4 {
                break;
            }
        }
    }
    assert!(rt; periods == 4);
    let passed = begun.elapsed(rt).expect(rt, "a clock").as_millis();
    assert!(rt; passed >= u128::from(4 * PERIOD_MILLISECONDS));
}

/// Whoever wakes it all the time holds nothing off.
#[test]
fn periods_pass(rt: HostRuntime) {
    pass(&rt, rt.alloc(), true);
    pass(&rt, rt.alloc(), false);
}
