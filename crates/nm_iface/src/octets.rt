//! How many octets may wait.

ghost use Rattle.std.specs.Prelude.{◌≡◌, ◌+◌, ◌≤◌};
ghost use Rattle.nm_base.specs.declared.limits.TheConstants.{MAX_PACKET_OCTETS};
ghost use Rattle.nm_iface.specs.PortValue.{is_within};

/// Whether a packet of so many octets may wait behind others that have this many, where so many may
/// wait in all, if that is limited.
pub fn may_wait(limit: Option<u32>, waiting: u32, octets: usize) -> bool
    requires { octets ≤ MAX_PACKET_OCTETS }
    ensures { result ≡ is_within limit (waiting + octets) }
{
    match limit {
        Some(most) => u64::from(waiting) + octets as u64 <= u64::from(most),
        None => true,
    }
}
