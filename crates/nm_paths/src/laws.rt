//! Laws of walks: each function does nothing, and its contract is the law.

ghost use Rattle.std.specs.Prelude.{◌≡◌, ℕ, ◌≤◌, List, false, length, max};
ghost use Rattle.nm_packet.specs.Address.{is_martian};
ghost use Rattle.nm_packet.specs.Ipv4.{Header};
ghost use Rattle.nm_topology.specs.TopologyValue.{TopologyValue};
ghost use Rattle.nm_forward.specs.Row.{packet_row};
ghost use Rattle.nm_forward.specs.State.{NodeConfiguration, is_own};
ghost use Rattle.nm_paths.specs.Walks.{row_turn, turn_at, walk_by, walk_of};

/// A walk takes the turn of the row by which a node deals with a packet, whatever else is in it, if
/// the packet is for another node and its destination is no martian.
pub fn a_walk_takes_the_turns_of_packets()
    ensures { (table : NodeConfiguration) (h : Header) (payload : List ℕ)
        → is_martian h.destination ≡ false → is_own table h.destination ≡ false
        → turn_at table h.destination h.time_to_live ≡ row_turn (packet_row table h payload) }
{}

/// A packet leaves at most as often as its time to live.
pub fn a_walk_is_no_longer_than_its_time_to_live()
    ensures { (t : TopologyValue) (v to time_to_live : ℕ) → 1 ≤ time_to_live
        → length (walk_of t v to time_to_live).0 ≤ time_to_live }
{}

/// A packet that goes by an interface of its node as it is leaves at most as often as its time to
/// live, and once at least.
pub fn a_walk_by_an_interface_is_no_longer_than_its_time_to_live()
    ensures { (t : TopologyValue) (via to time_to_live : ℕ)
        → length (walk_by t via to time_to_live).0 ≤ max 1 time_to_live }
{}
