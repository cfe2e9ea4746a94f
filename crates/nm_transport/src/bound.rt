//! Sockets that listen.

ghost use Rattle.std.specs.Prelude.{◌≡◌};

use mio::net::{TcpListener, TcpStream};
use mio::{Interest, Registry, Token};
use std::io;
use std::marker::Model;
use std::net::{Net, SocketAddr};

/// A socket that listens, and its address as the system reports it. A clause sees that address.
#[derive(Drop)]
pub struct Bound {
    socket: TcpListener,
    at: LocalAddress,
}

/// The address at which a socket listens, as the system reports it: only `LocalAddress::of` makes
/// it.
#[derive(Clone, Copy)]
struct LocalAddress {
    address: SocketAddr,
}

impl LocalAddress {
    /// The address of this socket.
    fn of(socket: &TcpListener) -> io::Result<Self> {
        Ok(LocalAddress {
            address: socket.local_addr()?,
        })
    }
}

impl Model for Bound {
    ghost use Rattle.std.specs.declared.net.socket_addr.SocketAddr.{SocketAddr as Address};

    ghost Value = { Address };

    ghost view = { λ b. b.at.address };
}

impl Bound {
    /// Listens at this address. If its port is 0, the system chooses a free one.
    ///
    /// # Errors
    ///
    /// If the system refuses.
    pub fn listen<R: Net>(net: &R, address: SocketAddr) -> io::Result<Self> {
        let socket = TcpListener::bind(net, address)?;
        let at = LocalAddress::of(&socket)?;
        Ok(Bound { socket, at })
    }

    /// The address at which it listens.
    pub fn at(&self) -> SocketAddr
        ensures { result ≡ self.now }
    {
        self.at.address
    }

    /// Makes a poll report under this token that somebody may have called.
    pub(crate) fn register(&mut self, registry: &Registry, token: Token) -> io::Result<()>
        ensures { self.new ≡ self.old }
    {
        registry.register(&mut self.socket, token, Interest::READABLE)
    }

    /// The next connection that somebody began, or the system's error.
    pub(crate) fn accept(&self) -> io::Result<(TcpStream, SocketAddr)> {
        self.socket.accept()
    }
}
