//! What a part puts on the channels that go out of it.

ghost use Rattle.std.specs.Prelude.{◌≡◌, ◌≢◌, ℕ, ◌≤◌, ◌<◌, ◌++◌, ◌∷◌, [], length, OnOk, IfOk};
ghost use Rattle.std.specs.Prelude.{slice_get};
ghost use Rattle.nm_sim.specs.Outgoing.{HaveSpare, channel_count, messages_in};
ghost use Rattle.nm_sim.specs.Tables.{AllAt};

use nm_base::{ChanNo, Packet, PartNo, Time};
use nm_topology::Topology;
use std::alloc::{AllocError, Global};
use std::marker::Model;

/// The messages of one channel, each with the time at which it arrives.
#[derive(Drop)]
pub struct Channel {
    messages: Vec<(Time, Packet)>,
}

impl Model for Channel {
    ghost use Rattle.std.specs.Prelude.{◌-◌, vec_len, vec_capacity};
    ghost use Rattle.nm_sim.specs.Outgoing.{ChannelValue};

    ghost Value = { ChannelValue };

    ghost view = { λ c. record {
      messages = c.messages.items;
      spare = vec_capacity c.messages - vec_len c.messages;
    } };
}

impl Channel {
    /// A channel with no message, and memory for one.
    fn new(alloc: Global) -> Result<Self, AllocError>
        ensures messages { IfOk result (λ c. c.messages ≡ []) }
        ensures spare { IfOk result (λ c. 1 ≤ c.spare) }
    {
        let mut messages = Vec::new(alloc);
        messages.reserve(1)?;
        Ok(Channel { messages })
    }

    /// Makes memory for one more message.
    fn reserve_one(&mut self) -> Result<(), AllocError>
        ensures messages { self.new.messages ≡ self.old.messages }
        ensures spare { OnOk result (1 ≤ self.new.spare) }
    {
        self.messages.reserve(1)
    }

    /// One more message.
    fn put(&mut self, time: Time, packet: Packet)
        requires { 1 ≤ self.old.spare }
        ensures { self.new.messages ≡ self.old.messages ++ (time, packet) ∷ [] }
    {
        self.messages.push((time, packet)).unwrap();
    }
}

/// What a part puts on the channels that go out of it, by channel number.
#[derive(Drop)]
pub struct Outgoing {
    channels: Vec<Channel>,
    /// The channel that may have no memory for one more message.
    used: Option<ChanNo>,
}

impl Model for Outgoing {
    ghost use Rattle.std.specs.Prelude.{◌≡◌, ◌⊎◌, ◌≤◌, Some};
    ghost use Rattle.nm_sim.specs.Outgoing.{OutgoingValue};
    ghost use Rattle.nm_sim.specs.Tables.{AllAt};

    ghost Value = { OutgoingValue };

    ghost view = { λ o. record { channels = o.channels.items; used = o.used } };

    ghost invariant = { λ o. AllAt (λ c v. (1 ≤ v.spare) ⊎ (o.used ≡ Some c)) o.channels.items };
}

impl Outgoing {
    /// Nothing is put yet on any channel.
    pub fn new(
        alloc: Global,
        topology: &Topology,
        part: &Option<PartNo>,
    ) -> Result<Self, AllocError>
        ensures count { IfOk result (λ o. length o.channels ≡ channel_count topology.now part.now) }
        ensures empty { IfOk result (λ o. AllAt (λ c v. v.messages ≡ []) o.channels) }
    {
        let count = match part {
            None => 0,
            Some(_) => topology.receivers().len(),
        };
        let mut channels = Vec::with_capacity(alloc, count)?;
        for _number in 0..count {
            channels.push(Channel::new(alloc)?)?;
        }
        Ok(Outgoing {
            channels,
            used: None,
        })
    }

    /// Makes memory for one more message on each channel.
    ///
    /// # Errors
    ///
    /// `AllocError` if a list could not grow. Nothing else changed then.
    pub fn reserve(&mut self) -> Result<(), AllocError>
        ensures count { length self.new.channels ≡ length self.old.channels }
        ensures messages { (c : ℕ) → messages_in (slice_get self.new.channels c)
            ≡ messages_in (slice_get self.old.channels c) }
        ensures spare { OnOk result (HaveSpare self.new) }
    {
        if let Some(channel) = self.used {
            if channel.index() < self.channels.len() {
                self.channels[channel.index()].reserve_one()?;
            }
            self.used = None;
        }
        Ok(())
    }

    /// A message is put on a channel.
    pub fn put(&mut self, channel: ChanNo, time: Time, packet: Packet)
        requires channel { channel < length self.old.channels }
        requires spare { HaveSpare self.old }
        ensures count { length self.new.channels ≡ length self.old.channels }
        ensures here { messages_in (slice_get self.new.channels channel)
            ≡ messages_in (slice_get self.old.channels channel) ++ (time, packet) ∷ [] }
        ensures others { (c : ℕ) → c ≢ channel
            → slice_get self.new.channels c ≡ slice_get self.old.channels c }
    {
        self.used = Some(channel);
        self.channels[channel.index()].put(time, packet);
    }

    /// The messages of a channel; none if there is no such channel.
    pub fn messages(&self, channel: ChanNo) -> &[(Time, Packet)]
        ensures { result.now ≡ messages_in (slice_get self.now.channels channel) }
    {
        match self.channels.get(channel.index()) {
            Some(channel) => &channel.messages,
            None => &[],
        }
    }
}
