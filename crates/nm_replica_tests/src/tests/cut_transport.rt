//! A transport whose connections fail after so many octets.

ghost use Rattle.std.specs.Prelude.{◌≡◌, ℕ, ◌+◌, List, [], IfSome, Some};

use nm_base::Wire;
use nm_base::failures::FailureCount;
use nm_base::wire::{Read, Written};
use nm_transport::{Reported, Transport, Waited};

/// A wire that fails once it took so many octets, and the peer to which it was begun.
#[derive(Drop)]
pub struct CutWire<W> {
    pub wire: W,
    pub peer: Option<usize>,
    pub left: usize,
    pub failed: FailureCount,
}

impl<W: Wire> Wire for CutWire<W> {
    // The wire below, with the failures that were added.
    ghost seen = { λ s. record (W.seen s.wire) {
      failures = (W.seen s.wire).failures + s.failed;
    } };

    fn read_some(&mut self, buffer: &mut [u8]) -> Read {
        self.wire.read_some(buffer)
    }

    fn write_some(&mut self, octets: &[u8]) -> Written {
        let most = self.left.min(octets.len());
        if most == 0 {
            self.failed.rise();
            return Written::Fault;
        }
        let answer = self.wire.write_some(&octets[..most]);
        if let Written::Took(count) = answer {
            self.left = self.left.saturating_sub(count);
        }
        answer
    }
}

/// A transport whose first connections fail after so many octets each, and later ones do not.
#[derive(Drop)]
pub struct CutTransport<N> {
    transport: N,
    cuts: Vec<usize>,
}

impl<N: Transport> CutTransport<N> {
    /// Connections that it begins fail after these numbers of octets, from the last number on.
    pub fn new(transport: N, cuts: Vec<usize>) -> Self {
        CutTransport { transport, cuts }
    }
}

impl<N: Transport> Transport for CutTransport<N> {
    type Connection = CutWire<N::Connection>;

    ghost asked = { λ n. N.asked n.transport };

    ghost has_too_little = { λ n. N.has_too_little n.transport };

    ghost reported = { λ n. N.reported n.transport };

    ghost elapsed_periods = { λ n. N.elapsed_periods n.transport };

    ghost was_to_wait = { λ n. N.was_to_wait n.transport };

    ghost leads_to = { λ w. w.peer };

    fn connect(&mut self, peer: usize) -> Option<CutWire<N::Connection>> {
        let wire = self.transport.connect(peer)?;
        let left = self.cuts.pop().unwrap_or(usize::MAX);
        Some(CutWire {
            wire,
            peer: Some(peer),
            left,
            failed: FailureCount::new(),
        })
    }

    fn accept(&mut self) -> Option<CutWire<N::Connection>> {
        let wire = self.transport.accept()?;
        Some(CutWire {
            wire,
            peer: None,
            left: usize::MAX,
            failed: FailureCount::new(),
        })
    }

    fn is_short(&self) -> bool {
        self.transport.is_short()
    }

    fn watch(
        &mut self,
        connection: CutWire<N::Connection>,
        key: usize,
    ) -> Option<CutWire<N::Connection>> {
        let CutWire {
            wire,
            peer,
            left,
            failed,
        } = connection;
        let wire = self.transport.watch(wire, key)?;
        Some(CutWire {
            wire,
            peer,
            left,
            failed,
        })
    }

    fn unwatch(&mut self, connection: &mut CutWire<N::Connection>) {
        self.transport.unwatch(&mut connection.wire);
    }

    fn wait(&mut self, may_wait: bool) -> Waited {
        self.transport.wait(may_wait)
    }

    fn report(&self, number: usize) -> Option<Reported> {
        self.transport.report(number)
    }
}
