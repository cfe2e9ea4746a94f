//! Laws of the definitions: each function has an empty body, and its contract is the law.

ghost use Rattle.std.specs.Prelude.{◌≡◌, ℕ, ◌+◌, ◌^◌};
ghost use Rattle.std.specs.Ordering.{nat_cmp};
ghost use Rattle.std.specs.Cmp.{IsTotalOrder};
ghost use Rattle.std.specs.Cmp.Lexicographic.{slice_cmp};
ghost use Rattle.nm_base.specs.declared.key.Key.{Key};
ghost use Rattle.nm_base.specs.declared.limits.TheConstants.{MAX_MTU, MAX_PACKET_OCTETS};
ghost use Rattle.nm_base.specs.Key.{key_cmp, key_numbers, IsPlaceOf};

/// Keys are in a total order: in a network of so many interfaces the lexicographic order of (time,
/// place, number), with arrivals at interface i at place 2i, completions of interface i at 2i + 1,
/// and source j at 2 * ifaces + j.
pub fn key_order()
    ensures total { IsTotalOrder key_cmp }
    ensures lexicographic { (ifaces : ℕ) (a b : Key) → IsPlaceOf ifaces a.place
        → IsPlaceOf ifaces b.place
        → key_cmp a b ≡ slice_cmp nat_cmp (key_numbers ifaces a) (key_numbers ifaces b) }
{}

/// A packet may have as many octets as the total length of an IPv4 header, a number of 16 bits, can
/// hold (RFC 791, section 3.1), and so may what a link carries.
pub fn greatest_packet()
    ensures packet { MAX_PACKET_OCTETS + 1 ≡ 2 ^ 16 }
    ensures mtu { MAX_MTU ≡ MAX_PACKET_OCTETS }
{}
