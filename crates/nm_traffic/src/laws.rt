//! Laws of the definitions: each function has an empty body or calls other laws, and its contract
//! is the law.

ghost use Rattle.std.specs.Prelude.{◌≡◌, ℕ, [], ◌∷◌, Some, None};
ghost use Rattle.nm_topology.specs.declared.traffic.Flow.{Flow};
ghost use Rattle.nm_topology.specs.declared.traffic.Traffic.TheVariants.{Cbr, Echo, Raw};
ghost use Rattle.nm_topology.specs.TopologyValue.{TopologyValue};
ghost use Rattle.nm_traffic.specs.Flow.{cbr_octets};
ghost use Rattle.nm_traffic.specs.Orderly.{ArePackets, ComeBeforeStop, EndForGood};
ghost use Rattle.nm_traffic.specs.Orderly.{FitTheMtu, HaveOctets, SendsOrderly, TimesRise};
ghost use Rattle.nm_traffic.specs.Samples.{cbr_source, echo_source, raw_source};
ghost use Rattle.nm_traffic.specs.Source.{packet_at};

use nm_topology::Topology;
use nm_topology::topology::accepted_topologies_are_in_order;

/// In every network within the limits the packets of a source come at rising times before the run
/// stops, with no gap in their numbers; they fit the mtu with the headers that they get, and are no
/// longer than a packet may be. If no raw packet is empty, no packet is.
pub fn times_rise_within_limits()
    ensures { (t : TopologyValue) → SendsOrderly t }
{}

/// The same of an accepted topology.
pub fn source_times_rise(topology: &Topology)
    // When the packets come.
    ensures rise { TimesRise topology.now }
    ensures end { EndForGood topology.now }
    ensures before { ComeBeforeStop topology.now }

    // How long they are.
    ensures fit { FitTheMtu topology.now }
    ensures greatest { ArePackets topology.now }
    ensures least { HaveOctets topology.now }
{
    accepted_topologies_are_in_order(topology); // law: sources are within their limits
    times_rise_within_limits(); // law: so their times fit
}

/// The packets of a source of each kind, written out: packet n, for n from 0, is n intervals after
/// the start, and has no more than its data; an echo request has type 8, code 0, its checksum, the
/// identifier and n modulo 65,536. After the last packet, and from stop on, there is none. If there
/// is no data, one octet takes its place, which is 0.
#[tactic(auto, unfolding(crate::specs::Source::packet_at, crate::specs::Flow::echo_message))]
pub fn packets_of_each_kind()
    ensures cbr { (packet_at 1_000 (Cbr cbr_source) 0 ≡ Some (5, 170 ∷ 170 ∷ 170 ∷ []))
        × (packet_at 1_000 (Cbr cbr_source) 2 ≡ Some (25, 170 ∷ 170 ∷ 170 ∷ []))
        × (packet_at 1_000 (Cbr cbr_source) 3 ≡ None)
        × (packet_at 25 (Cbr cbr_source) 2 ≡ None) }
    ensures echo { packet_at 1_000_000 (Echo echo_source) 65_537
        ≡ Some (65_537, 8 ∷ 0 ∷ 247 ∷ 247 ∷ 0 ∷ 7 ∷ 0 ∷ 1 ∷ 255 ∷ 255 ∷ []) }
    ensures raw { (packet_at 1_000 (Raw raw_source) 1 ≡ Some (9, 2 ∷ []))
        × (packet_at 1_000 (Raw raw_source) 2 ≡ None) × (packet_at 9 (Raw raw_source) 1 ≡ None) }
    ensures no_data { (f : Flow) → f.size ≡ 0 → cbr_octets f ≡ 0 ∷ [] }
{}
