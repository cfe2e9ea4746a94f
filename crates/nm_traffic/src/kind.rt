//! The three kinds of sources.

ghost use Rattle.std.specs.Prelude.{◌≡◌, IfOk};
ghost use Rattle.nm_topology.specs.Limits.{FitsTraffic};
ghost use Rattle.nm_traffic.specs.Kinds.{traffic_of};
ghost use Rattle.nm_traffic.specs.Source.{packet_at};

use crate::cbr::CbrSource;
use crate::echo::EchoSource;
use crate::packet::TimedPacket;
use crate::raw;
use nm_base::Time;
use nm_topology::traffic::{Raw, Traffic};
use std::alloc::{AllocError, Global};

/// A source by its kind, with what all of its packets share.
#[derive(Drop)]
pub enum Kind {
    Cbr(CbrSource),
    Echo(EchoSource),
    Raw(Raw),
}

impl Kind {
    /// A source of this traffic, which fits packets of at most `mtu` octets.
    #[tactic(auto, unfolding(nm_topology::specs::Limits::FitsTraffic))]
    pub fn new(alloc: Global, mtu: u16, traffic: &Traffic) -> Result<Self, AllocError>
        requires { FitsTraffic mtu traffic.now }
        ensures { IfOk result (λ k. traffic_of k ≡ traffic.now) }
    {
        Ok(match traffic {
            Traffic::Cbr(cbr) => Kind::Cbr(CbrSource::new(alloc, *cbr)?),
            Traffic::Echo(echo) => Kind::Echo(EchoSource::new(alloc, *echo)?),
            Traffic::Raw(source) => Kind::Raw(raw::copy(alloc, source)?),
        })
    }

    /// Packet `number` and its time, if there is one and it comes before `stop`.
    pub fn packet(&self, alloc: Global, stop: Time, number: u64) -> TimedPacket
        ensures { IfOk result (λ p. p ≡ packet_at stop (traffic_of self.now) number) }
    {
        match self {
            Kind::Cbr(cbr) => cbr.packet(stop, number),
            Kind::Echo(echo) => echo.packet(alloc, stop, number),
            Kind::Raw(source) => raw::packet(source, stop, number),
        }
    }
}
