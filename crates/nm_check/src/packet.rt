//! The first packet of a raw source that is refused.

use crate::first::spot_in;
use crate::spot::Spot;
use nm_topology::keys::fields::{packet_table, time_from};
use nm_topology::keys::key::TableKey;
use nm_topology::parse::fields::required_number;
use nm_topology::parse::head::Head;
use std::alloc::{AllocError, Global};
use toml::Value;

/// A packet that is refused: its number, from 0, the least time that it may have, and where.
#[derive(Clone, Copy)]
pub struct PacketFault {
    pub number: usize,
    pub least: u64,
    pub spot: Spot,
}

/// The first of these packets that is refused, in a text with this head.
pub fn first_packet(
    alloc: Global,
    head: Head,
    items: &[Value],
) -> Result<Option<PacketFault>, AllocError> {
    let mut least = 0;
    for (number, item) in items.iter().enumerate() {
        let Value::Table(table) = item else {
            return Ok(None);
        };
        if let Some(spot) = spot_in(alloc, head, table, &packet_table(least))? {
            return Ok(Some(PacketFault {
                number,
                least,
                spot,
            }));
        }
        let Ok(at) = required_number(table, TableKey::At, time_from(least)) else {
            return Ok(None);
        };
        least = at + 1;
    }
    Ok(None)
}
