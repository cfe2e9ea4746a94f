//! What a link has put into its buffer for the peer, if that is to be counted. It affects no answer
//! of a link.

ghost use Rattle.std.specs.Prelude.{◌+◌, ◌-◌, ◌≡◌};
ghost use Rattle.nm_base.specs.Count.{saturated};
ghost use Rattle.nm_engine.specs.Given.{NotesAll, NotesRange, common_between, common_of};
ghost use Rattle.nm_engine.specs.Given.{common_with, given_with, place_of, widened};

use nm_base::ChanNo;
use nm_frames::Frame;
use std::alloc::Global;

/// How many messages and null messages were given.
#[derive(Clone, Copy, Drop)]
pub struct GivenCounts {
    pub messages: u64,
    pub nulls: u64,
}

impl GivenCounts {
    /// None.
    pub const NONE: GivenCounts = GivenCounts {
        messages: 0,
        nulls: 0,
    };

    /// By how much these exceed others.
    pub fn since(self, before: GivenCounts) -> GivenCounts
        ensures { (result.messages ≡ self.messages - before.messages)
            × (result.nulls ≡ self.nulls - before.nulls) }
    {
        GivenCounts {
            messages: self.messages.saturating_sub(before.messages),
            nulls: self.nulls.saturating_sub(before.nulls),
        }
    }

    /// The sum of these and others.
    pub fn with(self, other: GivenCounts) -> GivenCounts
        ensures { (result.messages ≡ saturated (self.messages + other.messages))
            × (result.nulls ≡ saturated (self.nulls + other.nulls)) }
    {
        GivenCounts {
            messages: self.messages.saturating_add(other.messages),
            nulls: self.nulls.saturating_add(other.nulls),
        }
    }
}

/// Messages of one channel that follow one another.
#[derive(Clone, Copy, Drop)]
pub struct MessageRange {
    pub channel: ChanNo,
    pub first: u64,
    /// The number of the message behind them.
    pub next: u64,
}

/// The least range that holds both of these, which are of the same channel.
fn widened(range: MessageRange, more: MessageRange) -> MessageRange
    ensures { result ≡ widened range more }
{
    MessageRange {
        channel: range.channel,
        first: range.first.min(more.first),
        next: range.next.max(more.next),
    }
}

/// How many messages both ranges have.
fn common_count(range: &MessageRange, other: &MessageRange) -> u64
    ensures { result ≡ common_of range.now other.now }
{
    if range.channel != other.channel {
        return 0;
    }
    let next = range.next.min(other.next);
    next.saturating_sub(range.first.max(other.first))
}

/// How many messages a range has in common with others, up to 2^64 - 1.
#[tactic(auto, using(std::proofs::lemmas::List::Sums::sum_by_more))]
fn common_count_with(range: &MessageRange, others: &[MessageRange]) -> u64
    ensures { result ≡ saturated (common_with range.now others.now) }
{
    let mut count = 0u64;
    for other in others {
        count = count.saturating_add(common_count(range, other));
    }
    count
}

/// Which messages were given by one link, or by all links to one replica, by channel. If memory was
/// refused, some are not noted.
#[derive(Drop)]
pub struct GivenMessages {
    pub ranges: Vec<MessageRange>,
}

impl GivenMessages {
    /// None.
    pub fn new(alloc: Global) -> Self {
        GivenMessages {
            ranges: Vec::new(alloc),
        }
    }

    /// The place of a channel's range, if there is one.
    fn place_of(&self, channel: ChanNo) -> Option<usize>
        ensures { result ≡ place_of channel self.now.ranges.items }
    {
        self.ranges
            .iter()
            .position(|range| range.channel == channel)
    }

    /// The messages in this range were given. Those between it and the channel's other messages
    /// count too: the peer got them from elsewhere.
    fn note_range(&mut self, more: MessageRange)
        ensures { NotesRange self.old.ranges.items self.new.ranges.items more }
    {
        match self.place_of(more.channel) {
            Some(place) => self.ranges[place] = widened(self.ranges[place], more),
            None => {
                let _ = self.ranges.push(more);
            }
        }
    }

    /// The message with this number of a channel was given.
    pub fn note(&mut self, channel: ChanNo, number: u64)
        ensures { NotesRange self.old.ranges.items self.new.ranges.items (record {
          channel = channel;
          first = number;
          next = saturated (number + 1);
        }) }
    {
        self.note_range(MessageRange {
            channel,
            first: number,
            next: number.saturating_add(1),
        });
    }

    /// Adds what another link to the same replica gave.
    pub fn merge(&mut self, other: &GivenMessages)
        ensures { NotesAll self.old.ranges.items self.new.ranges.items other.now.ranges.items }
    {
        for range in &other.ranges {
            self.note_range(*range);
        }
    }

    /// How many messages both have in common, up to 2^64 - 1.
    #[tactic(auto, using(std::proofs::lemmas::List::Sums::sum_by_more))]
    pub fn common_count(&self, other: &GivenMessages) -> u64
        ensures { result
            ≡ saturated (common_between self.now.ranges.items other.now.ranges.items) }
    {
        let mut count = 0u64;
        for range in self.ranges.as_slice() {
            let more = common_count_with(range, other.ranges.as_slice());
            count = count.saturating_add(more);
        }
        count
    }
}

/// What a link has given.
#[derive(Drop)]
pub struct Given {
    pub counts: GivenCounts,
    pub messages: GivenMessages,
}

impl Given {
    /// Nothing.
    pub(crate) fn new(alloc: Global) -> Self
        ensures { result.counts ≡ record { messages = 0; nulls = 0 } }
    {
        Given {
            counts: GivenCounts::NONE,
            messages: GivenMessages::new(alloc),
        }
    }

    /// This frame was given.
    pub(crate) fn note(&mut self, frame: &Frame)
        ensures { self.new.counts ≡ given_with self.old.counts frame.now }
    {
        match frame {
            Frame::Data(data) => {
                self.counts.messages = self.counts.messages.saturating_add(1);
                self.messages.note(data.channel, data.number);
            }
            Frame::Null(_) => self.counts.nulls = self.counts.nulls.saturating_add(1),
            Frame::Hello(_) | Frame::Have(_) | Frame::Bye => {}
        }
    }
}
