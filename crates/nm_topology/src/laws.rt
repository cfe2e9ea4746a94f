//! Laws of topology texts. A law is a function that does nothing: its `ensures` is the statement.

ghost use Rattle.std.specs.Prelude.{◌≡◌, ℕ, ◌^◌, pos, [], ◌∷◌, codes, Some, None, Ok, Err};
ghost use Rattle.toml.specs.Data.{Members, integer};
ghost use Rattle.nm_base.specs.declared.limits.TheConstants.{MAX_CHANNELS, MAX_PORTS_OF_NODE};
ghost use Rattle.nm_base.specs.declared.limits.TheConstants.{MAX_RAW_PACKETS, MAX_ROUTES_OF_NODE};
ghost use Rattle.nm_base.specs.declared.limits.TheConstants.{MAX_TEXT_OCTETS};
ghost use Rattle.nm_topology.specs.declared.fault.Refusal.TheVariants.{Range};
ghost use Rattle.nm_topology.specs.declared.keys.array.Array.TheVariants as array;
ghost use Rattle.nm_topology.specs.declared.keys.fields.TheConstants.{ARRAYS, HEAD, LINK_TABLE};
ghost use Rattle.nm_topology.specs.declared.keys.fields.TheConstants.{NODE_TABLE, ROUTE_TABLE};
ghost use Rattle.nm_topology.specs.declared.keys.fields.TheConstants.{TOP_TABLE};
ghost use Rattle.nm_topology.specs.declared.node.NodeKind.TheVariants.{Router};
ghost use Rattle.nm_topology.specs.declared.parse.head.Format.TheVariants.{One, Two};
ghost use Rattle.nm_topology.specs.declared.parse.sources.SourceKind.TheVariants.{Cbr as CbrKind};
ghost use Rattle.nm_topology.specs.declared.parse.sources.SourceKind.TheVariants.{Echo as EchoKind};
ghost use Rattle.nm_topology.specs.declared.parse.sources.SourceKind.TheVariants.{Raw as RawKind};
ghost use Rattle.nm_topology.specs.declared.keys.fields.TheConstants.{COUNT, DELAY, FILL, FORMAT};
ghost use Rattle.nm_topology.specs.declared.keys.fields.TheConstants.{IDENTIFIER, INTERVAL, MTU};
ghost use Rattle.nm_topology.specs.declared.keys.fields.TheConstants.{PARTITION, PORT, QUEUE};
ghost use Rattle.nm_topology.specs.declared.keys.fields.TheConstants.{QUEUE_OCTETS, RATE, START};
ghost use Rattle.nm_topology.specs.declared.keys.fields.TheConstants.{STOP, TTL};
ghost use Rattle.nm_topology.specs.FormatLaws.{SaysTheSameInFormatTwo};
ghost use Rattle.nm_topology.specs.Formats.{IsFormatOne, LimitsNoOctets};
ghost use Rattle.nm_topology.specs.Keys.{array_limit, keys_of, packet_table, size_under, time_from};
ghost use Rattle.nm_topology.specs.Parse.Document.{document_of, format_of};
ghost use Rattle.nm_topology.specs.Parse.Forms.{node_kind_of, prefix_of};
ghost use Rattle.nm_topology.specs.Parse.Sources.{fields_of_kind, source_table_of};
ghost use Rattle.nm_topology.specs.Parse.Tables.{iface_keys, iface_table_of, link_table_of};
ghost use Rattle.nm_topology.specs.Parse.Tables.{node_table_of, route_table_of};
ghost use Rattle.nm_topology.specs.Samples.{AreMissed, without, top, top_value, node, node_value};
ghost use Rattle.nm_topology.specs.Samples.{iface, iface_value, link, link_value, route};
ghost use Rattle.nm_topology.specs.Samples.{route_value, cbr, cbr_value, flow_value, echo};
ghost use Rattle.nm_topology.specs.Samples.{echo_value, raw, raw_value};

/// A text of format 1 in which no table of `iface` has the key `queue_octets` is read to what the
/// same text with `format = 2` is read to, the digest aside. What is the same is the TOML document
/// of the two texts, but for the value of `format`.
pub fn format_two_says_what_format_one_says()
    ensures { (t : Members) → IsFormatOne t → LimitsNoOctets t → SaysTheSameInFormatTwo t }
{}

/// The ranges of the numbers in a topology text, each from its least to its greatest. (Times are in
/// nanoseconds, rates in bits per second.)
pub fn ranges_of_numbers()
    ensures head { (FORMAT ≡ record { least = 1; greatest = 2 })
        × (STOP ≡ record { least = 1; greatest = 10 ^ 15 })
        × (MTU ≡ record { least = 576; greatest = 65_535 }) }
    ensures node { (PARTITION ≡ record { least = 0; greatest = 63 })
        × (PORT ≡ record { least = 0; greatest = 65_535 }) }
    ensures iface { (QUEUE ≡ record { least = 0; greatest = 10_000 })
        × (QUEUE_OCTETS ≡ record { least = 0; greatest = 655_350_000 }) }
    ensures link { (RATE ≡ record { least = 1_000; greatest = 10 ^ 12 })
        × (DELAY ≡ record { least = 0; greatest = 10 ^ 12 }) }
    ensures source { (IDENTIFIER ≡ record { least = 0; greatest = 65_535 })
        × (FILL ≡ record { least = 0; greatest = 255 })
        × (TTL ≡ record { least = 1; greatest = 255 }) }
    ensures flow { (START ≡ record { least = 0; greatest = 10 ^ 15 })
        × (INTERVAL ≡ record { least = 1; greatest = 10 ^ 12 })
        × (COUNT ≡ record { least = 0; greatest = 10 ^ 9 }) }
{}

/// The keys of each kind of table, in the order in which they are read. A key that is not among
/// them is refused.
pub fn keys_of_tables()
    ensures top { (keys_of TOP_TABLE
        ≡ codes "format" ∷ codes "stop" ∷ codes "mtu" ∷ codes "node" ∷ codes "iface"
        ∷ codes "link" ∷ codes "route" ∷ codes "source" ∷ [])
        × (keys_of HEAD ≡ codes "format" ∷ codes "stop" ∷ codes "mtu" ∷ [])
        × (keys_of ARRAYS ≡ codes "node" ∷ codes "iface" ∷ codes "link" ∷ codes "route"
        ∷ codes "source" ∷ []) }
    ensures node { keys_of NODE_TABLE
        ≡ codes "name" ∷ codes "kind" ∷ codes "partition" ∷ codes "ports" ∷ [] }
    ensures iface { (iface_keys One
        ≡ codes "name" ∷ codes "node" ∷ codes "address" ∷ codes "queue" ∷ [])
        × (iface_keys Two ≡ codes "name" ∷ codes "node" ∷ codes "address" ∷ codes "queue"
        ∷ codes "queue_octets" ∷ []) }
    ensures link { keys_of LINK_TABLE
        ≡ codes "a" ∷ codes "b" ∷ codes "rate" ∷ codes "delay" ∷ [] }
    ensures route { keys_of ROUTE_TABLE ≡ codes "node" ∷ codes "to" ∷ codes "via" ∷ [] }
    ensures cbr { keys_of (fields_of_kind CbrKind)
        ≡ codes "kind" ∷ codes "node" ∷ codes "to" ∷ codes "sport" ∷ codes "dport"
        ∷ codes "size" ∷ codes "fill" ∷ codes "start" ∷ codes "interval" ∷ codes "count"
        ∷ codes "ttl" ∷ [] }
    ensures echo { keys_of (fields_of_kind EchoKind)
        ≡ codes "kind" ∷ codes "node" ∷ codes "to" ∷ codes "ident"
        ∷ codes "size" ∷ codes "fill" ∷ codes "start" ∷ codes "interval" ∷ codes "count"
        ∷ codes "ttl" ∷ [] }
    ensures raw { keys_of (fields_of_kind RawKind)
        ≡ codes "kind" ∷ codes "node" ∷ codes "via" ∷ codes "packet" ∷ [] }
    ensures packet { (least : ℕ)
        → keys_of (packet_table least) ≡ codes "at" ∷ codes "data" ∷ [] }
{}

/// How many there may be of each thing in a topology, and of octets in its text and in the data of
/// a source's packet.
pub fn counts_of_things()
    ensures arrays { (array_limit array.Node ≡ 1_024) × (array_limit array.Iface ≡ 4_096)
        × (array_limit array.Link ≡ 2_048) × (array_limit array.Route ≡ 65_536)
        × (array_limit array.Source ≡ 1_024) }
    ensures members { (MAX_PORTS_OF_NODE ≡ 64) × (MAX_RAW_PACKETS ≡ 1_024) }
    ensures whole { (MAX_ROUTES_OF_NODE ≡ 1_024) × (MAX_CHANNELS ≡ 512) }
    ensures octets { (MAX_TEXT_OCTETS ≡ 16_777_216)
        × (size_under 1_500 ≡ record { least = 0; greatest = 1_472 })
        × (time_from 7 ≡ record { least = 7; greatest = 10 ^ 15 }) }
{}

/// The value of each key, on a table of each kind that is written out in `Samples`: what is read of
/// it, and which keys must be there. The others may be absent, and then have the value given here.
#[tactic(auto, using(crate::proofs::Samples::texts))]
pub fn what_tables_say()
    ensures top { (document_of top ≡ Ok top_value)
        × AreMissed document_of top (codes "format" ∷ codes "stop" ∷ codes "mtu" ∷ []) }
    ensures node { (node_table_of node ≡ Ok node_value)
        × AreMissed node_table_of node (codes "name" ∷ codes "kind" ∷ codes "partition" ∷ [])
        × (node_table_of (without (codes "ports") node)
        ≡ Ok (record node_value { ports = [] })) }
    ensures iface { (iface_table_of Two iface ≡ Ok iface_value)
        × AreMissed (iface_table_of Two) iface
        (codes "name" ∷ codes "node" ∷ codes "address" ∷ codes "queue" ∷ [])
        × (iface_table_of Two (without (codes "queue_octets") iface)
        ≡ Ok (record iface_value { queue_octets = None })) }
    ensures link { (link_table_of link ≡ Ok link_value)
        × AreMissed link_table_of link
        (codes "a" ∷ codes "b" ∷ codes "rate" ∷ codes "delay" ∷ []) }
    ensures route { (route_table_of route ≡ Ok route_value)
        × AreMissed route_table_of route (codes "node" ∷ codes "to" ∷ codes "via" ∷ []) }
    ensures cbr { (source_table_of 600 cbr ≡ Ok (cbr_value flow_value))
        × AreMissed (source_table_of 600) cbr
        (codes "kind" ∷ codes "node" ∷ codes "to" ∷ codes "sport" ∷ codes "dport"
        ∷ codes "size" ∷ codes "start" ∷ codes "interval" ∷ codes "count" ∷ [])
        × (source_table_of 600 (without (codes "fill") cbr)
        ≡ Ok (cbr_value (record flow_value { fill = 0 })))
        × (source_table_of 600 (without (codes "ttl") cbr)
        ≡ Ok (cbr_value (record flow_value { ttl = 64 }))) }
    ensures echo { (source_table_of 600 echo ≡ Ok echo_value)
        × AreMissed (source_table_of 600) echo (codes "kind" ∷ codes "to" ∷ codes "ident" ∷ []) }
    ensures raw { (source_table_of 600 (raw 5) ≡ Ok raw_value)
        × AreMissed (source_table_of 600) (raw 5)
        (codes "kind" ∷ codes "node" ∷ codes "via" ∷ codes "packet" ∷ [])
        × (source_table_of 600 (raw 4) ≡ Err Range) }
    ensures forms { (format_of (integer (pos 1)) ≡ Ok One)
        × (format_of (integer (pos 2)) ≡ Ok Two)
        × (node_kind_of (codes "router") ≡ Some Router)
        × (prefix_of (codes "10.0.0.1/24") ≡ None)
        × (prefix_of (codes "10.0.0.1/32")
        ≡ Some (record { address = 167_772_161; length = 32 })) }
{}
