//! The names of what a node counts.

ghost use Rattle.std.specs.Prelude.{◌≡◌, ◌<◌};
ghost use Rattle.nm_forward.specs.Counter.{counter_name, counter_number};

/// What a node counts. Each arrival raises the counter of the row that fits it, and what follows
/// may raise another.
///
/// With each stands its object of the MIBs, if there is one: of a system's traffic in the IP-MIB
/// (RFC 4293, ipSystemStatsTable, whose objects start with `ipSystemStats`, as those of
/// ipIfStatsTable with `ipIfStats`), of ICMP in the same (icmpStatsTable and icmpMsgStatsTable), of
/// UDP in the UDP-MIB (RFC 4113). No counter is ipSystemStatsInDelivers, what was given to a
/// protocol: it is the sum of [`IcmpBad`](Counter::IcmpBad), [`Echo`](Counter::Echo),
/// [`Icmp`](Counter::Icmp), [`UdpBad`](Counter::UdpBad), [`Udp`](Counter::Udp) and
/// [`Port`](Counter::Port). Nor is one ipSystemStatsOutRequests, what protocols asked to send: it
/// is the sum of [`ToSelf`](Counter::ToSelf), [`NoRoute`](Counter::NoRoute) and
/// [`Originated`](Counter::Originated).
#[derive(Clone, Copy)]
pub enum Counter {
    /// The header test failed (RFC 791, section 3.1): ipSystemStatsInHdrErrors, but for those that
    /// [`Ttl`](Counter::Ttl) counts.
    Header,
    /// The destination was a martian: ipSystemStatsInAddrErrors, with what
    /// [`NotMine`](Counter::NotMine) counts.
    BadDest,
    /// A host got a packet for another: of ipSystemStatsInAddrErrors too.
    NotMine,
    /// A router had no route to the destination (RFC 1812, section 5.2.7.1):
    /// ipSystemStatsInNoRoutes.
    NoNet,
    /// A router got a packet whose time to live was over (RFC 1812, section 5.3.1): of
    /// ipSystemStatsInHdrErrors too.
    Ttl,
    /// A router sent a packet on: ipSystemStatsOutForwDatagrams.
    Forwarded,
    /// A fragment came for this node: ipSystemStatsReasmReqds, and as none is put together here
    /// also ipSystemStatsReasmFails.
    Fragment,
    /// The ICMP test failed (RFC 792): icmpStatsInErrors.
    IcmpBad,
    /// An echo request came for this node: icmpMsgStatsInPkts of type 8.
    Echo,
    /// Another ICMP message came for this node: icmpMsgStatsInPkts of all other types.
    Icmp,
    /// The UDP test failed (RFC 768): udpInErrors.
    UdpBad,
    /// A datagram came to a port at which something listens: udpInDatagrams.
    Udp,
    /// A datagram came to another port: udpNoPorts.
    Port,
    /// A packet of an unknown protocol came for this node: ipSystemStatsInUnknownProtos.
    Proto,
    /// An error or an echo reply was withheld: no object.
    Quiet,
    /// A packet was to be originated to an address of the node itself: no object.
    ToSelf,
    /// A packet was to be originated but had no route: ipSystemStatsOutNoRoutes.
    NoRoute,
    /// A packet was originated: ipSystemStatsOutTransmits, but for what was sent on and what
    /// [`Raw`](Counter::Raw) counts.
    Originated,
    /// A source's octets went to an interface as they are: no object.
    Raw,
}

/// How many counters a node has.
pub const COUNTERS: usize = 19;

impl Counter {
    /// All counters, in the order of their numbers.
    pub const ALL: [Counter; COUNTERS] = [
        Counter::Header,
        Counter::BadDest,
        Counter::NotMine,
        Counter::NoNet,
        Counter::Ttl,
        Counter::Forwarded,
        Counter::Fragment,
        Counter::IcmpBad,
        Counter::Echo,
        Counter::Icmp,
        Counter::UdpBad,
        Counter::Udp,
        Counter::Port,
        Counter::Proto,
        Counter::Quiet,
        Counter::ToSelf,
        Counter::NoRoute,
        Counter::Originated,
        Counter::Raw,
    ];

    /// The place of the counter among all of them.
    pub fn index(self) -> usize
        ensures value { result ≡ counter_number self }
        ensures below { result < 19 }
    {
        self as usize
    }

    /// The name by which the counter is printed, in lower case.
    pub fn name(self) -> &'static str
        ensures { result.now ≡ counter_name self }
    {
        match self {
            Counter::Header => "header",
            Counter::BadDest => "baddest",
            Counter::NotMine => "notmine",
            Counter::NoNet => "nonet",
            Counter::Ttl => "ttl",
            Counter::Forwarded => "forwarded",
            Counter::Fragment => "fragment",
            Counter::IcmpBad => "icmpbad",
            Counter::Echo => "echo",
            Counter::Icmp => "icmp",
            Counter::UdpBad => "udpbad",
            Counter::Udp => "udp",
            Counter::Port => "port",
            Counter::Proto => "proto",
            Counter::Quiet => "quiet",
            Counter::ToSelf => "self",
            Counter::NoRoute => "noroute",
            Counter::Originated => "originated",
            Counter::Raw => "raw",
        }
    }
}
