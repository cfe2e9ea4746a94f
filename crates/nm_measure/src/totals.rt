//! The totals of interfaces and sources up to a time.

use nm_sim::IfaceTraffic;

/// The totals of an interface up to a time. The difference of two is that of the time between.
#[derive(Clone, Copy, Drop)]
pub struct IfaceTotals {
    pub traffic: IfaceTraffic,
    /// How many packets were dropped at its queue, up to 2^64 - 1.
    pub dropped: u64,
    /// For how many nanoseconds packets waited, all together, and the same of their octets.
    pub waited: u128,
    pub octets_waited: u128,
    /// For how many nanoseconds it transmitted.
    pub busy: u64,
}

/// How much of what a source sent was delivered up to a time, and how late.
#[derive(Clone, Copy, Drop)]
pub(crate) struct Delivered {
    /// The octets of the IPv4 packets, up to 2^64 - 1.
    pub octets: u64,
    /// The sum of the delays, in nanoseconds.
    pub delayed: u128,
    /// The sum of the absolute differences of the delays of successive arrivals, in nanoseconds.
    pub differences: u128,
}

/// What became of the packets of a source up to a time.
#[derive(Clone, Copy, Drop)]
pub struct FlowTotals {
    pub sent: u64,
    pub delivered: u64,
    /// How many were refused, dropped or discarded.
    pub lost: u64,
    /// The octets of the IPv4 packets that were delivered, up to 2^64 - 1.
    pub octets: u64,
    /// The sum of the delays of those that were delivered, in nanoseconds.
    pub delayed: u128,
    /// The sum of the absolute differences of the delays of successive arrivals, in nanoseconds.
    pub differences: u128,
}
