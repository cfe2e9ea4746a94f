//! Laws of the definitions: each function has an empty body, and its contract is the law.

ghost use Rattle.std.specs.Prelude.{◌≡◌, ℕ, ◌+◌, ◌*◌, ◌^◌, List, [], ◌∷◌, ◌++◌, Result, codes, map};
ghost use Rattle.nm_base.specs.declared.record.Dir.TheVariants.{In, Out};
ghost use Rattle.nm_base.specs.declared.record.Record.{Record};
ghost use Rattle.nm_base.specs.Sink.{SinkSeen};
ghost use Rattle.nm_pcap.specs.declared.form.Form.TheVariants.{Octets, Hexadecimal};
ghost use Rattle.nm_pcap.specs.declared.writer.PcapFault.{PcapFault};
ghost use Rattle.nm_pcap.specs.Format.{file_header, record_octets, pcap};
ghost use Rattle.nm_pcap.specs.Outcome.{HoldsPrefix, StartsAndPuts};
ghost use Rattle.nm_pcap.specs.Writer.{Writer};
ghost use Rattle.nm_pcap.specs.Writing.{ending, written};

/// A file begins with its header, and one more record adds that record's octets at its end.
pub fn file_grows()
    ensures begins { pcap [] ≡ file_header }
    ensures grows { (records : List (Record (List ℕ))) (r : Record (List ℕ))
        → pcap (records ++ r ∷ []) ≡ pcap records ++ record_octets r }
{}

/// After `start` and any `put`s, whatever they answered, the octets that the sink took are a prefix
/// of the file of the records put, in its form, and all of it as long as the sink has not failed.
pub fn file_is_a_prefix<W>()
    ensures { (seen : W → SinkSeen) (fresh new : Writer W)
        (puts : List (Record (List ℕ) × Result Unit PcapFault)) → StartsAndPuts seen fresh new puts
        → HoldsPrefix seen fresh new (written fresh.form (pcap (map (λ p. p.0) puts))) }
{}

/// The octets of a file, written out. Its header has the magic number of nanosecond times, version
/// 2.4, no time zone, packets of 65,535 octets and the link type 101, raw IP. After a packet's
/// second come the nanoseconds of it, and its length twice. Least octets come first.
#[tactic(auto, unfolding(hex::specs::Hex::encode_with))]
pub fn octets_of_a_file()
    ensures header { file_header
        ≡ 77 ∷ 60 ∷ 178 ∷ 161 ∷ 2 ∷ 0 ∷ 4 ∷ 0 ∷ 0 ∷ 0 ∷ 0 ∷ 0 ∷ 0 ∷ 0 ∷ 0 ∷ 0
        ∷ 255 ∷ 255 ∷ 0 ∷ 0 ∷ 101 ∷ 0 ∷ 0 ∷ 0 ∷ [] }
    ensures record { (iface : ℕ) → record_octets (record {
      time = 3_100_000_001;
      dir = Out;
      iface = iface;
      packet = 11 ∷ 12 ∷ 13 ∷ 14 ∷ 15 ∷ [];
    }) ≡ 3 ∷ 0 ∷ 0 ∷ 0 ∷ 1 ∷ 225 ∷ 245 ∷ 5 ∷ 5 ∷ 0 ∷ 0 ∷ 0 ∷ 5 ∷ 0 ∷ 0 ∷ 0
        ∷ 11 ∷ 12 ∷ 13 ∷ 14 ∷ 15 ∷ [] }
    ensures last_second { (iface : ℕ) → record_octets (record {
      time = 999_999 * 10 ^ 9 + 999_999_999;
      dir = In;
      iface = iface;
      packet = 11 ∷ [];
    }) ≡ 63 ∷ 66 ∷ 15 ∷ 0 ∷ 255 ∷ 201 ∷ 154 ∷ 59 ∷ 1 ∷ 0 ∷ 0 ∷ 0 ∷ 1 ∷ 0 ∷ 0 ∷ 0
        ∷ 11 ∷ [] }
    ensures octets { (written Octets (10 ∷ 191 ∷ []) ≡ 10 ∷ 191 ∷ []) × (ending Octets ≡ []) }
    ensures hexadecimal { (written Hexadecimal (10 ∷ 191 ∷ []) ≡ codes "0abf")
        × (ending Hexadecimal ≡ codes "\n") }
{}
