//! Knowledge of one channel.

ghost use Rattle.std.specs.Prelude.{◌≡◌, ℕ, ◌≤◌, ◌<◌, length, ◌==◌, Some, None, IfOk, OnErr};
ghost use Rattle.std.specs.Option.{option_map};
ghost use Rattle.nm_model.specs.Lists.{nth};
ghost use Rattle.nm_model.specs.Knowledge.{nothing_known, IsKnow};
ghost use Rattle.nm_model.specs.Accept.{New, accept_data, accept_null};
ghost use Rattle.nm_base.specs.declared.limits.TheConstants.{MAX_MESSAGES};
ghost use Rattle.nm_knowledge.specs.Answers.{answer};
ghost use Rattle.nm_knowledge.specs.Octets.{same_octets};
ghost use Rattle.nm_model.specs.Join.{join, join_fault};
ghost use Rattle.nm_knowledge.specs.Gain.{gained, IsGain};
ghost use Rattle.nm_knowledge.specs.Outcome.{Accepts, Finds, Joins, Merges};

use crate::answer::{Accepted, KnowFault};
use crate::gain::Gain;
use crate::laws::{packets_are_told_apart, what_is_known};
use crate::messages::Messages;
use nm_base::limits::MAX_MESSAGES;
use nm_base::{Packet, Time};
use nm_model::knowledge::{accept_laws, join_faults_are_right, join_laws};
use std::alloc::{AllocError, Global};
use std::marker::Model;

/// What is known of a channel: its first messages, each with its time of arrival, and a clock, at
/// or after which all later messages arrive. The times of the messages rise, up to the clock.
/// Packets are shared, and no call copies their octets. A clause sees the list of (time, packet)
/// and the clock.
#[derive(Drop)]
pub struct Know {
    messages: Messages,
    clock: Time,
}

impl Model for Know {
    ghost use Rattle.std.specs.Prelude.{ℕ, List, length, ◌≤◌, ◌^◌};
    ghost use Rattle.nm_model.specs.Knowledge.{Know as Knowledge, IsKnow};

    ghost Value = { Knowledge (List ℕ) };

    ghost view = { λ k. record { list = k.messages; clock = k.clock } };

    ghost invariant = { λ k. IsKnow {P = List ℕ} (record { list = k.messages; clock = k.clock })
        × (length k.messages ≤ 2 ^ 50) };
}

impl Know {
    /// Nothing is known: no message, and the clock 0. It takes no memory.
    pub fn new(alloc: Global) -> Self
        ensures { result ≡ nothing_known }
    {
        Know {
            messages: Messages::new(alloc),
            clock: Time::from_nanoseconds(0),
        }
    }

    /// How many messages are known, at most 2^50, which is the number of the next one.
    pub fn len(&self) -> usize
        ensures value { result ≡ length self.now.list }
        ensures most { result ≤ MAX_MESSAGES }
    {
        self.messages.len()
    }

    /// Whether no message is known.
    pub fn is_empty(&self) -> bool
        ensures { result ≡ (length self.now.list == 0) }
    {
        self.messages.len() == 0
    }

    /// The channel clock.
    pub fn clock(&self) -> Time
        ensures value { result ≡ self.now.clock }
        ensures known { IsKnow self.now }
    {
        self.clock
    }

    /// The message of this number and its time of arrival, or `None` if it is not known.
    pub fn message(&self, number: u64) -> Option<(Time, &Packet)>
        ensures { option_map (λ m. (m.0, m.1.now)) result ≡ nth self.now.list number }
    {
        let (time, packet) = self.messages.get(number as usize)?;
        Some((*time, packet))
    }

    /// The same knowledge once more. Its packets share their octets with these.
    ///
    /// # Errors
    ///
    /// If memory for the list was refused.
    pub fn copy(&self, alloc: Global) -> Result<Self, AllocError>
        ensures { IfOk result (λ copy. copy ≡ self.now) }
    {
        let messages = self.messages.copy(alloc)?;
        Ok(Know {
            messages,
            clock: self.clock,
        })
    }

    /// What `accept_data` answers if there is memory: `New` if the message is the next one. It
    /// takes no memory, and changes nothing.
    ///
    /// # Errors
    ///
    /// Those of `accept_data`, but for `Memory`.
    pub fn check_data(
        &self,
        number: u64,
        time: Time,
        packet: &Packet,
    ) -> Result<Accepted, KnowFault>
        ensures { answer result
            ≡ Some (accept_data same_octets self.now number (time, packet.now)).answer }
    {
        let have = self.messages.len() as u64;
        if number > have {
            return Err(KnowFault::Gap { have });
        }
        if number < have {
            let (known_time, known) = self.messages.at(number as usize);
            return if *known_time == time && known == packet {
                Ok(Accepted::Known)
            } else {
                Err(KnowFault::Differs { number })
            };
        }
        if time < self.clock {
            return Err(KnowFault::Late {
                clock: self.clock.nanoseconds(),
            });
        }
        if self.messages.is_at_last(time) {
            return Err(KnowFault::NotRising);
        }
        Ok(Accepted::New)
    }

    /// Message `number` of the channel is this packet, which arrives at this time.
    ///
    /// # Errors
    ///
    /// `Gap` if messages before it have not come. `Differs` if another message of this number is
    /// known. For the next message: `Late` if it is before the clock, `NotRising` if it is not
    /// after the last message, and `Memory` if the memory for it was refused or 2^50 messages are
    /// known. A refusal changes nothing.
    pub fn accept_data(
        &mut self,
        number: u64,
        time: Time,
        packet: &Packet,
    ) -> Result<Accepted, KnowFault>
        ensures { Accepts self.old self.new result
            (accept_data same_octets self.old number (time, packet.now)) }
    {
        let accepted = self.check_data(number, time, packet)?;
        if accepted != Accepted::New {
            return Ok(accepted);
        }
        self.add(number, time, packet)
    }

    /// The message, which is a new one, is known from now on.
    fn add(&mut self, number: u64, time: Time, packet: &Packet) -> Result<Accepted, KnowFault>
        requires { (accept_data same_octets self.old number (time, packet.now)).answer ≡ New }
        ensures { Accepts self.old self.new result
            (accept_data same_octets self.old number (time, packet.now)) }
    {
        if self.messages.len() >= MAX_MESSAGES {
            return Err(KnowFault::Memory);
        }
        let shared = packet.clone()?;
        self.messages.push((time, shared))?;
        // It keeps times rising up to the clock.
        accept_laws::<Packet>();
        self.clock = time;
        Ok(Accepted::New)
    }

    /// A null message: all messages of the channel from number `count` on arrive at `clock` or
    /// later. It takes no memory.
    ///
    /// # Errors
    ///
    /// `Gap` if messages before number `count` have not come. `Contrary` if message `count` is
    /// known and is before `clock`. A refusal changes nothing.
    pub fn accept_null(&mut self, count: u64, clock: Time) -> Result<Accepted, KnowFault>
        ensures answer { answer result ≡ Some (accept_null self.old count clock).answer }
        ensures after { self.new ≡ (accept_null self.old count clock).after }
    {
        let have = self.messages.len() as u64;
        if count > have {
            return Err(KnowFault::Gap { have });
        }
        if count < have {
            return if self.messages.is_before(count as usize, clock) {
                Err(KnowFault::Contrary { count })
            } else {
                Ok(Accepted::Known)
            };
        }
        if clock <= self.clock {
            return Ok(Accepted::Known);
        }
        self.clock = clock;
        Ok(Accepted::Raised)
    }

    /// Whether what another knows of the same channel can be merged with this, and else why not. It
    /// takes no memory.
    ///
    /// # Errors
    ///
    /// `Differs` names the first number at which both have a message and these differ. If there is
    /// none, `Late` names the clock of one that is after the first message that the other has past
    /// its end.
    pub fn check_merge(&self, other: &Know) -> Result<(), KnowFault>
        ensures { Finds self.now other.now result }
    {
        let differing = self.messages.first_difference(&other.messages);
        if let Some(number) = differing {
            return Err(KnowFault::Differs {
                number: number as u64,
            });
        }
        if other.messages.is_before(self.messages.len(), self.clock) {
            return Err(KnowFault::Late {
                clock: self.clock.nanoseconds(),
            });
        }
        if self.messages.is_before(other.messages.len(), other.clock) {
            return Err(KnowFault::Late {
                clock: other.clock.nanoseconds(),
            });
        }
        Ok(())
    }

    /// Takes the memory for a merge with what another knows. It changes nothing yet.
    ///
    /// # Errors
    ///
    /// If memory for messages was refused. There are some that only the other has then.
    pub fn reserve_merge(&self, other: &Know) -> Result<Gain, AllocError>
        requires { join_fault same_octets self.now other.now ≡ None }
        ensures joins { IfOk result (λ gain. gained self.now gain ≡ join self.now other.now) }
        ensures fits { IfOk result (λ gain. IsGain self.now gain) }
        ensures err { OnErr result (length self.now.list < length other.now.list) }
    {
        let clock = self.clock.max(other.clock);
        if other.messages.len() <= self.messages.len() {
            return Ok(Gain {
                messages: None,
                clock,
            });
        }
        let messages = other.messages.copy(self.messages.alloc())?;
        // It keeps times rising up to the clock.
        join_laws::<Packet>();
        Ok(Gain {
            messages: Some(messages),
            clock,
        })
    }

    /// Takes what was reserved, which takes no memory.
    pub fn take(&mut self, gain: Gain)
        requires { IsGain self.old gain }
        ensures { self.new ≡ gained self.old gain }
    {
        let Gain { messages, clock } = gain;
        match messages {
            Some(messages) => *self = Know { messages, clock },
            None => self.clock = clock,
        }
    }

    /// Takes what another knows of the same channel: afterwards this has the longer list and the
    /// greater clock. The memory for all its new messages is taken at once, and their packets are
    /// shared. It is `check_merge`, `reserve_merge` and `take` in a row.
    ///
    /// # Errors
    ///
    /// Those of `check_merge`, or `Memory` if memory was refused. A refusal changes nothing.
    pub fn merge(&mut self, other: &Know) -> Result<(), KnowFault>
        ensures joins { Joins self.old self.new other.now result }
        ensures merges { Merges self.old self.new other.now result }
    {
        // If there is no fault, and only there, the two are compatible.
        what_is_known(self);
        what_is_known(other);
        packets_are_told_apart();
        join_faults_are_right::<Packet>();
        self.check_merge(other)?;
        let gain = self.reserve_merge(other)?;
        self.take(gain);
        Ok(())
    }
}
