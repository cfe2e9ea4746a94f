//! What a run needs of the runtime.

use std::net::{self, Net};
use std::sync::Wait;
use std::thread::Threads;
use std::time::Clock;

/// The handles of a run, which its threads share: sockets, threads, waiting and a clock. A function
/// that `main` or a test calls with the runtime itself names the bounds, since the prover does not
/// take a concrete runtime through this trait.
pub trait Runtime: Net<Stream = net::TcpStream, Listener = net::TcpListener>
    + Threads
    + Wait
    + Clock
    + Sync
    + Drop
    + Copy {}

impl<R> Runtime for R
where
    R: Net<Stream = net::TcpStream, Listener = net::TcpListener>
        + Threads
        + Wait
        + Clock
        + Sync
        + Drop
        + Copy,
{}
