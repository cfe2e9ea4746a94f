//! Sources of raw packets.

ghost use Rattle.std.specs.Prelude.{◌≡◌, IfOk};
ghost use Rattle.nm_topology.specs.declared.traffic.Traffic.TheVariants.{Raw as RawTraffic};
ghost use Rattle.nm_traffic.specs.Source.{packet_at};

use crate::packet::{SourcePacket, TimedPacket};
use nm_base::Time;
use nm_topology::traffic::{Raw, RawPacket};
use std::alloc::{AllocError, Global};

/// The packets once more. They share their octets with these.
fn shared(alloc: Global, packets: &[RawPacket]) -> Result<Vec<RawPacket>, AllocError>
    ensures { IfOk result (λ v. v.items ≡ packets.now) }
{
    let mut copies = Vec::with_capacity(alloc, packets.len())?;
    for packet in packets {
        copies.push(RawPacket {
            at: packet.at,
            packet: packet.packet.clone()?,
        })?;
    }
    Ok(copies)
}

/// The same source of raw packets once more.
pub fn copy(alloc: Global, raw: &Raw) -> Result<Raw, AllocError>
    ensures { IfOk result (λ r. r ≡ raw.now) }
{
    Ok(Raw::new(raw.via(), shared(alloc, raw.packets())?))
}

/// Packet `number` and its time, if there is one and it comes before `stop`.
#[tactic(auto, unfolding(crate::specs::Source::packet_at))]
pub fn packet(raw: &Raw, stop: Time, number: u64) -> TimedPacket
    ensures { IfOk result (λ p. p ≡ packet_at stop (RawTraffic raw.now) number) }
{
    let Some(found) = raw.packets().get(number as usize) else {
        return Ok(None);
    };
    if found.at < stop {
        Ok(Some((found.at, SourcePacket::new(found.packet.clone()?))))
    } else {
        Ok(None)
    }
}
