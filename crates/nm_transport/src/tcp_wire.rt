//! A wire over a non-blocking TCP connection.

ghost use Rattle.std.specs.Prelude.{◌≡◌, ◌↔◌, IfSome, IsTrue, None, Some, [], is_ok, true};
ghost use Rattle.std.specs.IoError.{error_kind};
ghost use Rattle.mio.specs.Interest.{is_readable, is_writable};
ghost use Rattle.nm_transport.specs.Transport.{IsToWait, MeetsItself};

use mio::net::TcpStream;
use mio::{Interest, Registry, Token};
use nm_base::failures::FailureCount;
use nm_base::wire::{Read as WireRead, Written};
use nm_base::{Octets, Wire};
use std::io;
use std::io::{ErrorKind, Read, Write};
use std::marker::Model;
use std::net::{Net, SocketAddr};

/// The peer to which a connection was begun, and the address at which it was called.
#[derive(Clone, Copy)]
pub struct Called {
    pub peer: usize,
    pub address: SocketAddr,
}

/// The system's answer to registering a connection with a poll under this key: only
/// `TcpWire::register` makes it.
#[derive(Drop)]
pub struct Registered {
    key: usize,
    answer: io::Result<()>,
}

impl Registered {
    /// Whether the poll reports it.
    pub fn is_done(&self) -> bool
        ensures { result ≡ is_ok self.now.answer }
    {
        self.answer.is_ok()
    }
}

/// A TCP connection. A clause sees the octets that were received and sent, by the system's answers,
/// how often a read found the end, how often a call failed, and which peer it calls, and where.
#[derive(Drop)]
pub struct TcpWire {
    stream: TcpStream,
    /// `None` if somebody else began it.
    called: Option<Called>,
    got: Octets,
    sent: Octets,
    ended: FailureCount,
    failed: FailureCount,
}

impl Model for TcpWire {
    ghost use Rattle.nm_transport.specs.Transport.{TcpSeen};

    ghost Value = { TcpSeen };

    ghost view = { λ s. record {
      wire = record {
        given = s.got.list;
        taken = s.sent.list;
        ends = s.ended;
        failures = s.failed;
      };
      called = s.called;
    } };
}

impl TcpWire {
    /// Begins a connection to a peer at its address, unless the system refuses.
    pub fn call<R: Net>(net: &R, called: Called) -> Option<Self>
        ensures { IfSome result (λ w. w ≡ record {
          wire = record { given = []; taken = []; ends = 0; failures = 0 };
          called = Some called;
        }) }
    {
        let stream = TcpStream::connect(net, called.address).ok()?;
        Some(TcpWire::over(stream, Some(called)))
    }

    /// A connection that somebody else began.
    pub fn accepted(stream: TcpStream) -> Self
        ensures { result ≡ record {
          wire = record { given = []; taken = []; ends = 0; failures = 0 };
          called = None;
        } }
    {
        TcpWire::over(stream, None)
    }

    /// The address of its own end, if the system knows it.
    pub fn own_address(&self) -> Option<SocketAddr> {
        self.stream.local_addr().ok()
    }

    /// The connection, unless it meets itself: its own end has the address to which it was begun.
    /// That happens if nobody listens yet at a port from the system's range for callers (RFC 9293,
    /// section 3.5: both ends open at once). It is no connection with a peer, and it holds the port
    /// at which the peer is to listen, so it is reset.
    pub fn unless_from(self, own: Option<SocketAddr>) -> Option<Self>
        ensures kept { IfSome result (λ w. w ≡ self) }
        ensures none { (result ≡ None) ↔ MeetsItself self.called own }
    {
        if meets_itself(self.called, own) {
            self.reset();
            None
        } else {
            Some(self)
        }
    }

    /// Ends a connection that meets itself without a TIME-WAIT state, in which its port could not
    /// be listened at for a minute: an octet that it was sent and that nobody read makes the
    /// system reset it (RFC 1122, section 4.2.2.13). If it can't be sent, the port is free later.
    fn reset(mut self) {
        let _ = self.stream.write(&[0]);
    }

    /// A connection on which nothing has moved. What is written is sent at once: a conservative
    /// simulation is a chain of null messages, and all wait for one that the system holds back
    /// until the last was acknowledged (RFC 896). If that cannot be set, the connection is slower.
    fn over(stream: TcpStream, called: Option<Called>) -> Self
        ensures { result ≡ record {
          wire = record { given = []; taken = []; ends = 0; failures = 0 };
          called = called;
        } }
    {
        let _ = stream.set_nodelay(true);
        TcpWire {
            stream,
            called,
            got: Octets::new(),
            sent: Octets::new(),
            ended: FailureCount::new(),
            failed: FailureCount::new(),
        }
    }

    /// Makes a poll report the connection under this key.
    pub fn register(&mut self, registry: &Registry, key: usize) -> Registered
        ensures same { self.new ≡ self.old }
        ensures key { result.key ≡ key }
    {
        let answer = registry.register(&mut self.stream, Token(key), both_ways());
        Registered { key, answer }
    }

    /// Ends the reports of the connection.
    pub fn deregister(&mut self, registry: &Registry) -> io::Result<()>
        ensures { self.new ≡ self.old }
    {
        registry.deregister(&mut self.stream)
    }
}

impl Wire for TcpWire {
    ghost seen = { λ s. s.wire };

    fn read_some(&mut self, buffer: &mut [u8]) -> WireRead {
        match self.stream.read(buffer) {
            Ok(0) => {
                self.ended.rise();
                WireRead::End
            }
            Ok(count) => {
                self.got.add(&buffer[..count]);
                WireRead::Got(count)
            }
            Err(error) if waits(&error) => WireRead::Later,
            Err(_) => {
                self.failed.rise();
                WireRead::Fault
            }
        }
    }

    fn write_some(&mut self, octets: &[u8]) -> Written {
        match self.stream.write(octets) {
            Ok(count) if count > 0 => {
                self.sent.add(&octets[..count]);
                Written::Took(count)
            }
            Err(error) if waits(&error) => Written::Later,
            Ok(_) | Err(_) => {
                self.failed.rise();
                Written::Fault
            }
        }
    }
}

/// Whether a connection's own end has the address that was called.
pub fn meets_itself(called: Option<Called>, own: Option<SocketAddr>) -> bool
    ensures { IsTrue result ↔ MeetsItself called own }
{
    match (called, own) {
        (Some(called), Some(own)) => called.address == own,
        _ => false,
    }
}

/// What a connection is reported for: it can be read or written.
fn both_ways() -> Interest
    ensures { (is_readable result ≡ true) × (is_writable result ≡ true) }
{
    Interest::READABLE | Interest::WRITABLE
}

/// Whether the call is to be made again once the connection is ready.
fn waits(error: &io::Error) -> bool
    ensures { IsTrue result ↔ IsToWait (error_kind error.now) }
{
    matches!(
        error.kind(),
        ErrorKind::WouldBlock | ErrorKind::Interrupted | ErrorKind::NotConnected
    )
}
