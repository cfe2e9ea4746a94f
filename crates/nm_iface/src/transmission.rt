//! How long transmissions take.

ghost use Rattle.std.specs.Prelude.{◌≡◌, ◌≤◌, ◌<◌, ◌^◌};
ghost use Rattle.nm_base.specs.declared.limits.TheConstants.{MAX_PACKET_OCTETS, MAX_RATE};
ghost use Rattle.nm_iface.specs.Transmission.{transmission_time as time_of};

/// The nanoseconds that the transmission of a packet of so many octets takes at this rate, in bits
/// per second: the octets' bits divided by the rate, rounded up, and at least one.
pub fn transmission_time(rate: u64, octets: usize) -> u64
    // The rate and the octets are within their limits.
    requires least { 1 ≤ rate }
    requires greatest { rate ≤ MAX_RATE }
    requires octets { octets ≤ MAX_PACKET_OCTETS }

    // It is that of the definition, and at least a nanosecond.
    ensures value { result ≡ time_of rate octets }
    ensures least { 1 ≤ result }
    ensures greatest { result < 2 ^ 50 }
{
    let bits = octets as u64 * 8;
    (bits * 1_000_000_000).div_ceil(rate).max(1)
}
