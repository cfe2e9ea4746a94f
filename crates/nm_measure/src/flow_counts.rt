//! What became of the packets of a source.

ghost use Rattle.std.specs.Prelude.{◌≡◌, ◌+◌, ◌<◌, ◌^◌, ltb};
ghost use Rattle.nm_base.specs.Count.{saturated};

/// What became of the packets of a source. Each packet that it made was delivered, refused, dropped
/// or discarded, or is under way.
#[derive(Clone, Copy, Drop)]
pub struct FlowCounts {
    /// How many packets it made, up to 2^64 - 1.
    pub sent: u64,
    /// How many arrived at their destination and were taken there.
    pub delivered: u64,
    /// How many arrived at their destination and nothing takes them there: to a closed port, or of
    /// an unknown protocol.
    pub refused: u64,
    /// How many were offered to a queue without room.
    pub dropped: u64,
    /// How many a rule of a node ended: at the source, on the way or at their destination.
    pub discarded: u64,
    /// How many wait at an interface or are on a link.
    pub under_way: u64,
    /// How many echo replies arrived at another node than the source's, up to 2^64 - 1.
    pub astray: u64,
    pub ghost balances: { sent ≡ delivered + refused + dropped + discarded + under_way },
}

/// How a packet ends.
#[derive(Clone, Copy, Drop)]
pub enum PacketOutcome {
    Delivered,
    Refused,
    Dropped,
    Discarded,
}

impl FlowCounts {
    ghost use Rattle.nm_measure.specs.Flows.{Ends, counts_of, ended_of};

    /// No packets.
    pub const NONE: FlowCounts = FlowCounts {
        sent: 0,
        delivered: 0,
        refused: 0,
        dropped: 0,
        discarded: 0,
        under_way: 0,
        astray: 0,
    };

    /// The source makes one more packet, which is under way. From 2^64 - 1 on no more are counted.
    pub(crate) fn send(&mut self)
        ensures sent { self.new.sent ≡ saturated (self.old.sent + 1) }
        ensures way { self.old.sent + 1 < 2 ^ 64 → self.new.under_way ≡ self.old.under_way + 1 }
        ensures ended { ended_of self.new ≡ ended_of self.old }
        ensures astray { self.new.astray ≡ self.old.astray }
    {
        if self.sent < u64::MAX {
            self.sent += 1;
            self.under_way += 1;
        }
    }

    /// A packet that was under way ends so. Answers whether there was one.
    pub(crate) fn end(&mut self, outcome: PacketOutcome) -> bool
        ensures ends { 0 < self.old.under_way → Ends outcome self.old self.new }
        ensures none { self.old.under_way ≡ 0 → counts_of self.new ≡ counts_of self.old }
        ensures result { result ≡ ltb 0 self.old.under_way }
        ensures sent { self.new.sent ≡ self.old.sent }
        ensures astray { self.new.astray ≡ self.old.astray }
    {
        if self.under_way == 0 {
            return false;
        }
        self.under_way -= 1;
        match outcome {
            PacketOutcome::Delivered => self.delivered += 1,
            PacketOutcome::Refused => self.refused += 1,
            PacketOutcome::Dropped => self.dropped += 1,
            PacketOutcome::Discarded => self.discarded += 1,
        }
        true
    }

    /// An echo reply arrived at another node than the source's.
    pub(crate) fn go_astray(&mut self)
        ensures same { counts_of self.new ≡ counts_of self.old }
        ensures sent { self.new.sent ≡ self.old.sent }
        ensures astray { self.new.astray ≡ saturated (self.old.astray + 1) }
    {
        self.astray = self.astray.saturating_add(1);
    }
}
