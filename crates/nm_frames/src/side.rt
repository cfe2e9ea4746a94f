//! The channels of a session, and what was given and taken of each.

ghost use Rattle.std.specs.Prelude.{◌≡◌, ◌==◌, map, IfOk};
ghost use Rattle.std.specs.List.{list_any};
ghost use Rattle.nm_frames.specs.Owed.{marked, moved_to, with_null};
ghost use Rattle.nm_frames.specs.Session.{with_channel, new_incoming, new_outgoing, restarted};

use nm_base::ChanNo;
use nm_book::message::Null;
use std::alloc::{AllocError, Global};

/// A channel that comes from the peer, and whether Have was given for it.
#[derive(Clone, Copy)]
pub struct ChannelIn {
    pub channel: ChanNo,
    pub have_given: bool,
}

/// A channel that goes to the peer, the number of its next message, which is unknown until the
/// peer's Have, and the last null message since.
#[derive(Clone, Copy)]
pub struct ChannelOut {
    pub channel: ChanNo,
    pub cursor: Option<u64>,
    pub last_null: Option<Null>,
}

impl ChannelIn {
    /// Nothing was given.
    fn new(channel: ChanNo) -> Self
        ensures { result ≡ new_incoming channel }
    {
        ChannelIn {
            channel,
            have_given: false,
        }
    }

    /// The same, with Have given if it is this channel.
    fn marked(self, channel: ChanNo) -> Self
        ensures { result ≡ marked channel self }
    {
        if self.channel != channel {
            return self;
        }
        ChannelIn {
            have_given: true,
            ..self
        }
    }
}

impl ChannelOut {
    /// Nothing was given or taken.
    fn new(channel: ChanNo) -> Self
        ensures { result ≡ new_outgoing channel }
    {
        ChannelOut {
            channel,
            cursor: None,
            last_null: None,
        }
    }

    /// The same, with this number next if it is this channel.
    fn moved_to(self, channel: ChanNo, number: u64) -> Self
        ensures { result ≡ with_channel channel (moved_to number) self }
    {
        if self.channel != channel {
            return self;
        }
        ChannelOut {
            cursor: Some(number),
            ..self
        }
    }

    /// The same, with this last null message if it is of this channel.
    fn with_null(self, null: &Null) -> Self
        ensures { result ≡ with_channel null.now.channel (with_null null.now) self }
    {
        if self.channel != null.channel {
            return self;
        }
        ChannelOut {
            last_null: Some(*null),
            ..self
        }
    }

    /// The same from this number on if it is this channel.
    fn restarted(self, channel: ChanNo, count: u64) -> Self
        ensures { result ≡ with_channel channel (restarted count) self }
    {
        if self.channel != channel {
            return self;
        }
        ChannelOut {
            cursor: Some(count),
            last_null: None,
            ..self
        }
    }
}

/// Channels from the peer, of which nothing was given.
pub(crate) fn new_incoming(alloc: Global, channels: &[ChanNo]) -> Result<Vec<ChannelIn>, AllocError>
    ensures { IfOk result (λ v. v.items ≡ map new_incoming channels.now) }
{
    let mut incoming = Vec::new(alloc);
    for channel in channels {
        incoming.push(ChannelIn::new(*channel))?;
    }
    Ok(incoming)
}

/// Channels to the peer, of which nothing was given or taken.
pub(crate) fn new_outgoing(
    alloc: Global,
    channels: &[ChanNo],
) -> Result<Vec<ChannelOut>, AllocError>
    ensures { IfOk result (λ v. v.items ≡ map new_outgoing channels.now) }
{
    let mut outgoing = Vec::new(alloc);
    for channel in channels {
        outgoing.push(ChannelOut {
            channel: *channel,
            cursor: None,
            last_null: None,
        })?;
    }
    Ok(outgoing)
}

/// Whether the channel is one of these.
pub(crate) fn comes_in(incoming: &[ChannelIn], channel: ChanNo) -> bool
    ensures { result ≡ list_any (λ i. i.channel == channel) incoming.now }
{
    incoming.iter().any(|side| side.channel == channel)
}

/// Whether the channel is one of these.
pub(crate) fn goes_out(outgoing: &[ChannelOut], channel: ChanNo) -> bool
    ensures { result ≡ list_any (λ o. o.channel == channel) outgoing.now }
{
    outgoing.iter().any(|side| side.channel == channel)
}

/// Have was given for this channel.
pub(crate) fn mark_given(incoming: &mut [ChannelIn], channel: ChanNo)
    ensures { incoming.new ≡ map (marked channel) incoming.old }
{
    for side in incoming.iter_mut() {
        *side = side.marked(channel);
    }
}

/// Have was given for none.
pub(crate) fn forget_given(incoming: &mut [ChannelIn])
    ensures { incoming.new ≡ map (λ i. new_incoming i.channel) incoming.old }
{
    for side in incoming.iter_mut() {
        *side = ChannelIn::new(side.channel);
    }
}

/// Message `number` of this channel is the next.
pub(crate) fn move_cursor(outgoing: &mut [ChannelOut], channel: ChanNo, number: u64)
    ensures { outgoing.new ≡ map (with_channel channel (moved_to number)) outgoing.old }
{
    for side in outgoing.iter_mut() {
        *side = side.moved_to(channel, number);
    }
}

/// This was the last null message of its channel.
pub(crate) fn set_last_null(outgoing: &mut [ChannelOut], null: &Null)
    ensures { outgoing.new ≡ map (with_channel null.now.channel (with_null null.now)) outgoing.old }
{
    for side in outgoing.iter_mut() {
        *side = side.with_null(null);
    }
}

/// The peer holds so many messages of this channel.
pub(crate) fn restart(outgoing: &mut [ChannelOut], channel: ChanNo, count: u64)
    ensures { outgoing.new ≡ map (with_channel channel (restarted count)) outgoing.old }
{
    for side in outgoing.iter_mut() {
        *side = side.restarted(channel, count);
    }
}

/// No cursor is known, and no null message was given.
pub(crate) fn forget_cursors(outgoing: &mut [ChannelOut])
    ensures { outgoing.new ≡ map (λ o. new_outgoing o.channel) outgoing.old }
{
    for side in outgoing.iter_mut() {
        *side = ChannelOut::new(side.channel);
    }
}
