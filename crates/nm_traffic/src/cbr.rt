//! Sources of UDP datagrams at a constant bit rate.

ghost use Rattle.std.specs.Prelude.{◌≡◌, IfOk};
ghost use Rattle.nm_topology.specs.declared.traffic.Traffic.TheVariants.{Cbr as CbrTraffic};
ghost use Rattle.nm_traffic.specs.Flow.{cbr_octets};
ghost use Rattle.nm_traffic.specs.Source.{packet_at};

use crate::flow::time_before;
use crate::packet::{SourcePacket, TimedPacket};
use nm_base::Time;
use nm_topology::traffic::{Cbr, Flow};
use std::alloc::{AllocError, Global};

/// The octet that a source gives if it has no data: a packet has at least one octet. The node sends
/// no data then.
pub(crate) const NO_DATA: u8 = 0;

/// A source, and the packet that it gives each time.
#[derive(Drop)]
pub struct CbrSource {
    cbr: Cbr,
    packet: SourcePacket,
    ghost made: { packet ≡ cbr_octets cbr.flow },
}

/// The data of the flow, or the octet in their place if there are none.
fn data_packet(alloc: Global, flow: &Flow) -> Result<SourcePacket, AllocError>
    ensures { IfOk result (λ p. p ≡ cbr_octets flow.now) }
{
    let octets = if flow.size == 0 {
        vec![in alloc; NO_DATA; 1]?
    } else {
        vec![in alloc; flow.fill; flow.size as usize]?
    };
    SourcePacket::of_octets(alloc, octets)
}

impl CbrSource {
    pub fn new(alloc: Global, cbr: Cbr) -> Result<Self, AllocError>
        ensures { IfOk result (λ s. s.cbr ≡ cbr) }
    {
        let packet = data_packet(alloc, &cbr.flow)?;
        Ok(CbrSource { cbr, packet })
    }

    /// Packet `number` and its time, if it comes before `stop`. All packets share their octets.
    #[tactic(auto, unfolding(crate::specs::Source::packet_at))]
    pub fn packet(&self, stop: Time, number: u64) -> TimedPacket
        ensures { IfOk result (λ p. p ≡ packet_at stop (CbrTraffic self.now.cbr) number) }
    {
        match time_before(&self.cbr.flow, stop, number) {
            Some(time) => Ok(Some((time, self.packet.clone()?))),
            None => Ok(None),
        }
    }
}
