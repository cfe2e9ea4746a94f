//! What a source asks of the network.

use nm_base::Time;
use nm_packet::Address;
use nm_packet::limits::HEADERS;
use nm_topology::traffic::{Flow, Traffic};

/// Bits in an octet, times nanoseconds in a second.
const BIT_NANOSECONDS: u64 = 8_000_000_000;

/// What a source of `cbr` or `echo` asks for.
#[derive(Clone, Copy)]
pub struct Demand {
    pub to: Address,
    /// The UDP port of its datagrams; echo requests have none.
    pub port: Option<u16>,
    pub flow: Flow,
}

/// The packets of a source; raw packets have it in their octets.
pub fn demand_of(traffic: &Traffic) -> Option<Demand> {
    match traffic {
        Traffic::Cbr(cbr) => Some(Demand {
            to: cbr.to,
            port: Some(cbr.destination_port),
            flow: cbr.flow,
        }),
        Traffic::Echo(echo) => Some(Demand {
            to: echo.to,
            port: None,
            flow: echo.flow,
        }),
        Traffic::Raw(_) => None,
    }
}

/// How many packets of a flow come before the end of the simulation.
pub fn packets_before(flow: &Flow, stop: Time) -> u64 {
    let room = stop.nanoseconds().saturating_sub(flow.start.nanoseconds());
    // An interval is at least 1 in every topology.
    room.div_ceil(flow.interval.max(1)).min(flow.count as u64)
}

/// The bits per second of a flow while it sends, rounded down.
pub fn rate_of(flow: &Flow) -> u64 {
    let octets = flow.size as u64 + HEADERS;
    octets.saturating_mul(BIT_NANOSECONDS) / flow.interval.max(1)
}

/// When a flow is over: an interval after its last packet, or at the end of the simulation.
pub fn end_of(flow: &Flow, stop: Time) -> u64 {
    let length = flow.interval.saturating_mul(flow.count as u64);
    let over = flow.start.nanoseconds().saturating_add(length);
    over.min(stop.nanoseconds())
}
