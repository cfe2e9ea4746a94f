//! `nm_iface`: how long transmissions take.

use crate::tests::same::eq_number;
use nm_base::limits::{MAX_PACKET_OCTETS, MAX_RATE};
use nm_iface::transmission_time;
use std::process::Abort;

/// Rows of a rate, a count of octets, and the time that they take.
fn take(rt: &impl Abort, rows: &[(u64, usize, u64)]) {
    for (rate, octets, want) in rows {
        let (rate, octets) = (*rate, *octets);
        assert!(rt; rate >= 1);
        assert!(rt; rate <= MAX_RATE);
        assert!(rt; octets <= MAX_PACKET_OCTETS);
        let found = transmission_time(rate, octets);
        eq_number(rt, "a transmission", found, *want);
    }
}

#[test]
fn transmission_times(rt: HostRuntime) {
    take(
        &rt,
        &[
            (1_000_000_000_000, 1, 1),
            (3_000, 1, 2_666_667),
            (1_000, 65_535, 524_280_000_000),
            (8_000_000, 100, 100_000),
            (8_000_001, 100, 100_000),
            (7_999_999, 100, 100_001),
            (1_000_000_000_000, 125, 1),
            (1_000_000_000_000, 126, 2),
            (1, 65_535, 524_280_000_000_000),
        ],
    );
}
