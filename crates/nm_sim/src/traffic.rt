//! How many packets came to an interface and how many it transmitted, with their octets.

ghost use Rattle.std.specs.Prelude.{◌≡◌, ◌==◌, ◌^◌, ◌≤◌, ℕ};
ghost use Rattle.std.specs.Prelude.{if◌then◌else◌, length, slice_get};
ghost use Rattle.std.specs.Option.{option_map};
ghost use Rattle.nm_sim.specs.Traffic.{amount_after, came_after, totals_from, traffic_none};
ghost use Rattle.nm_sim.specs.Traffic.{went_after};

use nm_base::IfaceNo;
use nm_pcap::format::{FILE_HEADER_OCTETS, RECORD_HEADER_OCTETS};

/// Packets, and the octets of their IPv4 packets. Both stop at 2^64 - 1.
#[derive(Clone, Copy, Drop)]
pub struct Amount {
    pub packets: u64,
    pub octets: u64,
}

/// The packets that arrived at an interface, and those that it began to transmit.
#[derive(Clone, Copy, Drop)]
pub struct IfaceTraffic {
    pub came: Amount,
    pub went: Amount,
}

impl IfaceTraffic {
    /// No packets.
    pub fn none() -> Self
        ensures { result ≡ traffic_none }
    {
        let none = Amount {
            packets: 0,
            octets: 0,
        };
        IfaceTraffic {
            came: none,
            went: none,
        }
    }

    /// How many records these packets have, and the octets of their trace file with its header.
    /// Both stop at the greatest `u64`.
    pub(crate) fn totals(&self) -> (u64, u64)
        ensures { result ≡ totals_from self.now }
    {
        let records = self.came.packets.saturating_add(self.went.packets);
        let headers = records.saturating_mul(RECORD_HEADER_OCTETS as u64);
        let packets = self.came.octets.saturating_add(self.went.octets);
        let octets = headers
            .saturating_add(packets)
            .saturating_add(FILE_HEADER_OCTETS as u64);
        (records, octets)
    }
}

/// The amount with one packet more, of so many octets.
#[inline(always)]
fn one_more(amount: Amount, octets: usize) -> Amount
    requires { octets ≤ 2 ^ 16 }
    ensures { result ≡ amount_after amount octets }
{
    Amount {
        packets: amount.packets.saturating_add(1),
        octets: amount.octets.saturating_add(octets as u64),
    }
}

/// Counts a packet of so many octets that came to an interface.
#[inline(always)]
pub(crate) fn count_came(all: &mut [IfaceTraffic], iface: IfaceNo, octets: usize)
    requires { octets ≤ 2 ^ 16 }
    ensures { (i : ℕ) → slice_get all.new i
        ≡ option_map (λ x. if i == iface then came_after x octets else x)
        (slice_get all.old i) }
{
    let place = iface.index();
    if place < all.len() {
        all[place].came = one_more(all[place].came, octets);
    }
}

/// Counts a packet of so many octets whose transmission an interface started.
#[inline(always)]
pub(crate) fn count_went(all: &mut [IfaceTraffic], iface: IfaceNo, octets: usize)
    requires { octets ≤ 2 ^ 16 }
    ensures { (i : ℕ) → slice_get all.new i
        ≡ option_map (λ x. if i == iface then went_after x octets else x)
        (slice_get all.old i) }
{
    let place = iface.index();
    if place < all.len() {
        all[place].went = one_more(all[place].went, octets);
    }
}
