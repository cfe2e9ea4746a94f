//! The limits of what a user may ask for and of what a peer may send, each stated once. What is
//! past a limit is refused, and the refusal names it. How often and how long a loop waits and tries
//! is beside the loop (`nm_replica::limits`).

/// The greatest `stop`, 10^15 nanoseconds, which is 11 days and 13 hours. Each record is before it.
pub const MAX_TIME: u64 = 1_000_000_000_000_000;

/// The greatest number of octets of a packet: what the total length of an IPv4 header can hold (RFC
/// 791, section 3.1).
pub const MAX_PACKET_OCTETS: usize = 65_535;

/// The least and the greatest `mtu`, in octets. Every host takes a datagram of 576 octets (RFC 791,
/// section 3.1).
pub const MIN_MTU: u64 = 576;

pub const MAX_MTU: u64 = MAX_PACKET_OCTETS as u64;

/// The greatest delay of a link, in nanoseconds: 1,000 seconds.
pub const MAX_DELAY: u64 = 1_000_000_000_000;

/// The least and the greatest rate of a link, in bits per second.
pub const MIN_RATE: u64 = 1_000;

pub const MAX_RATE: u64 = 1_000_000_000_000;

/// The greatest number of packets that may wait at an interface.
pub const MAX_QUEUE: u64 = 10_000;

/// The greatest limit of their octets: those of so many packets of the greatest length.
pub const MAX_QUEUE_OCTETS: u64 = MAX_QUEUE * MAX_MTU;

/// How many there may be of each thing in a topology.
pub const MAX_NODES: usize = 1_024;

pub const MAX_IFACES: usize = 4_096;

pub const MAX_LINKS: usize = 2_048;

pub const MAX_PARTITIONS: usize = 64;

pub const MAX_CHANNELS: usize = 512;

pub const MAX_SOURCES: usize = 1_024;

pub const MAX_ROUTES: usize = 65_536;

pub const MAX_ROUTES_OF_NODE: usize = 1_024;

pub const MAX_PORTS_OF_NODE: usize = 64;

pub const MAX_RAW_PACKETS: usize = 1_024;

/// The greatest interval of a source, in nanoseconds, and the greatest number of its packets.
pub const MAX_INTERVAL: u64 = 1_000_000_000_000;

pub const MAX_COUNT: u64 = 1_000_000_000;

/// The greatest number of octets of a topology text.
pub const MAX_TEXT_OCTETS: usize = 16_777_216;

/// The greatest number of octets of an input: 64 MiB.
pub const MAX_INPUT_OCTETS: u64 = 67_108_864;

/// The greatest number of steps of a script.
pub const MAX_SCRIPT_STEPS: usize = 1_000_000;

/// How many rounds may be asked for.
pub const MAX_ROUNDS: u64 = 1_000_000_000;

/// The greatest number of a partition, and of a replica of one.
pub const MAX_PARTITION: u64 = MAX_PARTITIONS as u64 - 1;

pub const MAX_REPLICA: u64 = MAX_REPLICAS as u64 - 1;

/// How many replicas a partition may have.
pub const MAX_REPLICAS: u8 = 2;

/// The greatest number of a source.
pub const MAX_SOURCE: u64 = MAX_SOURCES as u64 - 1;

/// The most threads that run books.
pub const MAX_WORKERS: u64 = 64;

/// The greatest number of events of a part. One more is refused as if its memory were.
pub const MAX_PART_STEPS: u64 = 1 << 62;

/// The most messages of a channel. One more is refused as if its memory were.
pub const MAX_MESSAGES: usize = 1 << 50;

/// The most octets of a frame behind its length, which are those of Data: its kind, channel, number
/// and time, and a packet. And with its length.
pub const MAX_BODY_OCTETS: usize = 21 + MAX_PACKET_OCTETS;

pub const MAX_FRAME_OCTETS: usize = 4 + MAX_BODY_OCTETS;

/// The most octets that one read of a link asks for.
pub const MAX_READ_OCTETS: usize = 65_536;

/// A link takes no new frame into its buffer while so many octets or more wait there.
pub const FULL_OUT_OCTETS: usize = 131_072;

/// The most octets that wait in it: one less than full, and a frame.
pub const MAX_OUT_OCTETS: usize = FULL_OUT_OCTETS - 1 + MAX_FRAME_OCTETS;
