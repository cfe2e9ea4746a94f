//! A replica of a partition.

ghost use Rattle.std.specs.Prelude.{[], ◌≡◌, ◌+◌, true, false, Err, IfOk, drop, if◌then◌else◌};
ghost use Rattle.std.specs.Prelude.{is_some, length, replicate, slice_get, slice_index_or};
ghost use Rattle.std.specs.Arc.{arc_value};
ghost use Rattle.std.specs.Option.{option_and_then, option_map};
ghost use Rattle.nm_base.specs.declared.wanted.Wanted.TheVariants.{All as AllWanted};
ghost use Rattle.nm_model.specs.Certificate.{is_done};
ghost use Rattle.nm_model.specs.Knowledge.{nothing_known};
ghost use Rattle.nm_model.specs.Lists.{nth};
ghost use Rattle.nm_model.specs.Promise.{Plain, Tight};
ghost use Rattle.nm_model.specs.Replica.{IsWithin};
ghost use Rattle.nm_sim.specs.Network.{net_of};
ghost use Rattle.nm_sim.specs.Totals.{totals_at};
ghost use Rattle.nm_book.specs.Book.{is_replica, message_channel};
ghost use Rattle.nm_book.specs.Accepting.{Takes, data_taken, message_taken, null_taken};
ghost use Rattle.nm_book.specs.BookPart.{IsBook};
ghost use Rattle.nm_book.specs.Book.{data_from, knowledge, is_incoming, is_outgoing, null_on};
ghost use Rattle.nm_book.specs.Book.{only_if, promise_on, replica_of, safe_of, sent_over, state_of};
ghost use Rattle.nm_book.specs.Merging.{BookMerges};
ghost use Rattle.nm_book.specs.Running.{Runs};
ghost use Rattle.nm_base.specs.declared.fault.Fault.TheVariants.{Refused};
ghost use Rattle.nm_book.specs.declared.fault.BookRefusal.TheVariants.{NoSuch};

use crate::channels::{comes_in, goes_out};
use crate::fault::{AcceptFault, BookFault, BookRefusal, MergeFault, MergeRefusal};
use crate::knowledge::Knowledge;
use crate::learning::{take_data, take_null};
use crate::merging::merge_all;
use crate::message::{ChannelMessage, Data, Null};
use crate::promise::{plain_promise, tight_promise};
use crate::running::{Ran, is_finished, run_part};
use crate::safe::{safe_time, safe_time_after};
use nm_base::limits::MAX_REPLICAS;
use nm_base::{ChanNo, IfaceNo, Packet, PartNo, Record, Time};
use nm_events::HeapList;
use nm_forward::NodeState;
use nm_knowledge::{Accepted, Know};
use nm_model::replica::nothing_known_puts_nothing;
use nm_sim::Part;
use nm_topology::Topology;
use std::alloc::{AllocError, Global};
use std::marker::Model;
use std::sync::Arc;

/// A replica of a partition: what it knows of each incoming channel, and the part of the simulation
/// that it did with that. Its state is a function of what it knows and of how many events it did,
/// whoever sent it, how often and in which order.
#[derive(Drop)]
pub struct Book {
    topology: Arc<Topology>,
    partition: PartNo,
    replica: u8,
    /// By channel number. Of channels that do not come in here nothing is known.
    knows: Vec<Know>,
    /// The safe time.
    safe: Time,
    part: Part<HeapList>,
}

impl Model for Book {
    ghost use Rattle.std.specs.Prelude.{◌≡◌};
    ghost use Rattle.std.specs.Arc.{arc_value};
    ghost use Rattle.nm_model.specs.Replica.{safe_time as safe_time_of};
    ghost use Rattle.nm_sim.specs.Network.{net_of};
    ghost use Rattle.nm_book.specs.Book.{BookValue, knowledge_of};
    ghost use Rattle.nm_book.specs.BookPart.{IsBook, KnowsIncoming};

    ghost Value = { BookValue };

    ghost view = { λ b. record {
      topology = arc_value b.topology;
      partition = b.partition;
      replica = b.replica;
      knows = b.knows.items;
      events = b.part.steps;
      handed = b.part.records.keeping.handed;
    } };

    ghost invariant = { λ b. IsBook (arc_value b.topology) b.partition b.knows.items b.part
        × (b.safe ≡ safe_time_of (net_of (arc_value b.topology)) b.partition
        (knowledge_of (arc_value b.topology) b.knows.items))
        × KnowsIncoming (arc_value b.topology) b.partition b.knows.items };
}

/// That nothing is known of so many channels.
fn nothing_known(alloc: Global, count: usize) -> Result<Vec<Know>, AllocError>
    ensures { IfOk result (λ v. v.items ≡ replicate count nothing_known) }
{
    let mut knows = Vec::with_capacity(alloc, count)?;
    for number in 0..count {
        knows.push(Know::new(alloc))?;
    }
    Ok(knows)
}

/// The part of a partition at the start of a run, over no knowledge.
fn first_part(
    alloc: Global,
    topology: &Topology,
    partition: PartNo,
) -> Result<Part<HeapList>, AllocError>
    ensures book { IfOk result (λ part. IsBook topology.now partition
        (replicate (length topology.now.receivers) nothing_known) part) }
    ensures steps { IfOk result (λ part. part.steps ≡ 0) }
    ensures keeping { IfOk result
        (λ part. part.records.keeping ≡ record { wanted = AllWanted; handed = 0 }) }
{
    nothing_known_puts_nothing::<Packet, NodeState>(); // law: no arrival is to come
    let part = Part::start(alloc, topology, Some(partition))?;
    Ok(part)
}

impl Book {
    /// A replica that knows nothing and did nothing yet.
    ///
    /// # Errors
    ///
    /// `NoSuch` if the topology has no such partition, or the replica is neither 0 nor 1. `Memory`
    /// if memory was refused.
    pub fn new(
        alloc: Global,
        topology: Arc<Topology>,
        partition: PartNo,
        replica: u8,
    ) -> Result<Self, BookFault>
        ensures fresh { IfOk result (λ b. b ≡ record {
          topology = arc_value topology;
          partition = partition;
          replica = replica;
          knows = replicate (length (arc_value topology).receivers) nothing_known;
          events = 0;
          handed = 0;
        }) }
        ensures there { IfOk result
            (λ b. is_replica (arc_value topology) partition replica ≡ true) }
        ensures no_such { result ≡ Err (Refused NoSuch)
            → is_replica (arc_value topology) partition replica ≡ false }
        ensures refused { is_replica (arc_value topology) partition replica ≡ false
            → result ≡ Err (Refused NoSuch) }
    {
        if partition.index() >= topology.partitions() as usize || replica >= MAX_REPLICAS {
            return Err(BookFault::Refused(BookRefusal::NoSuch));
        }
        let knows = nothing_known(alloc, topology.receivers().len())?;
        let safe = safe_time(&topology, partition, &knows);
        let part = first_part(alloc, &topology, partition)?;
        Ok(Book {
            topology,
            partition,
            replica,
            knows,
            safe,
            part,
        })
    }

    /// Which replica of its partition it is: 0 or 1.
    pub fn replica(&self) -> u8
        ensures { result ≡ self.now.replica }
    {
        self.replica
    }

    /// The partition of which it is a replica.
    pub fn partition(&self) -> PartNo
        ensures { result ≡ self.now.partition }
    {
        self.partition
    }

    /// The topology.
    pub fn topology(&self) -> &Topology
        ensures { result.now ≡ self.now.topology }
    {
        &self.topology
    }

    /// Takes in a message or a null message. If it is a new message, its arrival is to come.
    ///
    /// # Errors
    ///
    /// `Stranger` if the channel does not come in here. `Known` with the fault if what is known of
    /// the channel refuses it (`Know::accept_data`, `accept_null`), or memory was refused. A
    /// refusal changes nothing.
    pub fn accept(&mut self, message: &ChannelMessage) -> Result<Accepted, AcceptFault>
        ensures { Takes self.old self.new (message_channel message.now)
            (message_taken self.old.knows message.now) result }
    {
        match message {
            ChannelMessage::Data(data) => self.accept_data(data),
            ChannelMessage::Null(null) => self.accept_null(null),
        }
    }

    /// Takes in a message.
    fn accept_data(&mut self, message: &Data) -> Result<Accepted, AcceptFault>
        ensures { Takes self.old self.new message.now.channel (data_taken self.old.knows
            message.now.channel message.now.number message.now.time message.now.packet) result }
    {
        if !comes_in(&self.topology, self.partition, message.channel) {
            return Err(AcceptFault::Stranger);
        }
        let clock = self.knows[message.channel.index()].clock();
        let accepted = take_data(
            &self.topology,
            self.partition,
            &mut self.knows,
            &mut self.part,
            message,
        )?;
        self.safe = safe_time_after(
            &self.topology,
            self.partition,
            &self.knows,
            self.safe,
            message.channel,
            clock,
        );
        Ok(accepted)
    }

    /// Takes in a null message. It takes no memory.
    fn accept_null(&mut self, null: &Null) -> Result<Accepted, AcceptFault>
        ensures { Takes self.old self.new null.now.channel (null_taken self.old.knows
            null.now.channel null.now.count null.now.clock) result }
    {
        if !comes_in(&self.topology, self.partition, null.channel) {
            return Err(AcceptFault::Stranger);
        }
        let clock = self.knows[null.channel.index()].clock();
        let accepted = take_null(
            &self.topology,
            self.partition,
            &mut self.knows,
            &self.part,
            null,
        )?;
        self.safe = safe_time_after(
            &self.topology,
            self.partition,
            &self.knows,
            self.safe,
            null.channel,
            clock,
        );
        Ok(accepted)
    }

    /// Copies what it knows. Packets are shared with the copy.
    ///
    /// # Errors
    ///
    /// If memory was refused.
    pub fn copy_knowledge(&self, alloc: Global) -> Result<Knowledge, AllocError>
        ensures { IfOk result (λ k. k ≡ record {
          digest = self.now.topology.digest;
          partition = self.now.partition;
          knows = self.now.knows;
        }) }
    {
        Knowledge::new(alloc, &self.topology, self.partition, &self.knows)
    }

    /// Takes in what another replica of the partition knows: of each incoming channel the longer
    /// list of messages and the greater clock. The arrivals of the new messages are to come.
    ///
    /// # Errors
    ///
    /// `Stranger` if it is the knowledge of another partition or topology. `Channel` names the
    /// first channel that cannot be joined, and why (`Know::check_merge`). `Memory` if memory was
    /// refused. A refusal changes nothing.
    pub fn merge(&mut self, alloc: Global, other: &Knowledge) -> Result<(), MergeFault>
        ensures { BookMerges self.old self.new other.now result }
    {
        if !other.is_of(&self.topology, self.partition) {
            return Err(MergeFault::Refused(MergeRefusal::Stranger));
        }
        merge_all(
            alloc,
            &self.topology,
            self.partition,
            &mut self.knows,
            &mut self.part,
            other,
        )?;
        self.safe = safe_time(&self.topology, self.partition, &self.knows);
        Ok(())
    }

    /// Does at most so many events before the safe time.
    pub fn run_safe(&mut self, alloc: Global, limit: u64) -> Ran
        ensures { Runs self.old self.new limit result }
    {
        run_part(alloc, &self.topology, &mut self.part, self.safe, limit)
    }

    /// The safe time (J. Misra, 1986, section 2), in nanoseconds: the least of `stop` and of the
    /// clocks of incoming channels. Events before it may be done. It takes no memory.
    pub fn safe(&self) -> Time
        ensures { result ≡ safe_of self.now }
    {
        self.safe
    }

    /// A time in nanoseconds before which no further message of the channel arrives (J. Misra,
    /// 1986, section 3): it counts the next event that may cause one, the transmission under way,
    /// the least time of a transmission and the link's delay. `None` if the channel does not go out
    /// from here. It takes no memory.
    pub fn promise(&self, channel: ChanNo) -> Option<Time>
        ensures { result ≡ only_if (is_outgoing self.now channel)
            (promise_on Tight self.now channel) }
    {
        if !goes_out(&self.topology, self.partition, channel) {
            return None;
        }
        Some(tight_promise(&self.topology, &self.part, self.safe, channel))
    }

    /// As `promise`, without the transmission under way and the least time of one: it is earlier by
    /// that time at least. Sessions of version 1 give it. It takes no memory.
    pub fn old_promise(&self, channel: ChanNo) -> Option<Time>
        ensures { result ≡ only_if (is_outgoing self.now channel)
            (promise_on Plain self.now channel) }
    {
        if !goes_out(&self.topology, self.partition, channel) {
            return None;
        }
        Some(plain_promise(&self.topology, &self.part, self.safe, channel))
    }

    /// The null message of a channel: how many messages were sent, and the promise. `None` if the
    /// channel does not go out from here. It takes no memory.
    pub fn null(&self, channel: ChanNo) -> Option<Null>
        ensures { result ≡ only_if (is_outgoing self.now channel) (null_on Tight self.now channel) }
    {
        Some(Null {
            channel,
            count: self.out_len(channel)?,
            clock: self.promise(channel)?,
        })
    }

    /// The null message of a channel with the old promise. `None` if the channel does not go out
    /// from here. It takes no memory.
    pub fn old_null(&self, channel: ChanNo) -> Option<Null>
        ensures { result ≡ only_if (is_outgoing self.now channel) (null_on Plain self.now channel) }
    {
        Some(Null {
            channel,
            count: self.out_len(channel)?,
            clock: self.old_promise(channel)?,
        })
    }

    /// How many messages were sent on a channel, or `None` if the channel does not go out from
    /// here. It takes no memory.
    pub fn out_len(&self, channel: ChanNo) -> Option<u64>
        ensures { result ≡ only_if (is_outgoing self.now channel)
            (length (sent_over self.now channel)) }
    {
        if !goes_out(&self.topology, self.partition, channel) {
            return None;
        }
        Some(self.part.out(channel).len() as u64)
    }

    /// What was sent on a channel, in the order of the messages' numbers, each packet with its time
    /// of arrival, or `None` if the channel does not go out from here. It takes no memory.
    pub fn sent(&self, channel: ChanNo) -> Option<&[(Time, Packet)]>
        ensures { option_map (λ messages. messages.now) result
            ≡ only_if (is_outgoing self.now channel) (sent_over self.now channel) }
    {
        if !goes_out(&self.topology, self.partition, channel) {
            return None;
        }
        Some(self.part.out(channel))
    }

    /// Message `number` of a channel, or `None` if the channel does not go out from here, or the
    /// message was not sent yet. The packet's octets are shared.
    ///
    /// # Errors
    ///
    /// If memory was refused.
    pub fn data(&self, channel: ChanNo, number: u64) -> Result<Option<Data>, AllocError>
        ensures { IfOk result (λ message. message ≡ option_and_then
            (λ sent. data_from channel number (nth sent number))
            (only_if (is_outgoing self.now channel) (sent_over self.now channel))) }
    {
        if !goes_out(&self.topology, self.partition, channel) {
            return Ok(None);
        }
        let Some((time, packet)) = self.part.out(channel).get(number as usize) else {
            return Ok(None);
        };
        let packet = packet.clone()?;
        Ok(Some(Data {
            channel,
            number,
            time: *time,
            packet,
        }))
    }

    /// What is known of a channel, or `None` if it does not come in here. It takes no memory.
    pub fn know(&self, channel: ChanNo) -> Option<&Know>
        ensures { option_map (λ k. k.now) result ≡ only_if (is_incoming self.now channel)
            (slice_index_or self.now.knows channel nothing_known) }
    {
        if !comes_in(&self.topology, self.partition, channel) {
            return None;
        }
        Some(&self.knows[channel.index()])
    }

    /// How many events were done, at most 2^62, each before the safe time. It takes no memory.
    pub fn events(&self) -> u64
        ensures value { result ≡ self.now.events }
        ensures within { IsWithin (net_of self.now.topology) self.now.partition
            (knowledge self.now) self.now.events }
    {
        self.part.events()
    }

    /// Whether nothing is left to do: the safe time is `stop`, and no event before it is to come.
    /// It takes no memory.
    pub fn done(&self) -> bool
        ensures { result ≡ is_done (net_of self.now.topology) self.now.partition
            (replica_of self.now) }
    {
        is_finished(&self.topology, &self.part, self.safe)
    }

    /// The trace, in the order of events, without the records that were handed out. It takes no
    /// memory.
    pub fn trace(&self) -> &[Record]
        ensures { result.now ≡ drop self.now.handed (state_of self.now).records }
    {
        self.part.trace()
    }

    /// Takes the first record of the trace out that is kept, if there is one. It takes no memory.
    pub fn hand_out(&mut self) -> Option<Record>
        ensures value { result ≡ slice_get (state_of self.old).records self.old.handed }
        ensures same { self.new ≡ record self.old {
          handed = self.old.handed + (if is_some result then 1 else 0);
        } }
    {
        self.part.hand_out()
    }

    /// Takes all kept records out of the trace. Those to come are kept in the list that comes in,
    /// which is empty. It takes no memory.
    pub fn hand_out_all(&mut self, room: Vec<Record>) -> Vec<Record>
        requires { room.items ≡ [] }
        ensures all { result.items ≡ drop self.old.handed (state_of self.old).records }
        ensures same { self.new ≡ record self.old {
          handed = self.old.handed + length result.items;
        } }
    {
        self.part.hand_out_all(room)
    }

    /// How many records were handed out. It takes no memory.
    pub fn handed(&self) -> u64
        ensures { result ≡ self.now.handed }
    {
        self.part.handed()
    }

    /// How many records the trace has, with those that were handed out. It takes no memory.
    pub fn records(&self) -> u64
        ensures { result ≡ length (state_of self.now).records }
    {
        self.part.records()
    }

    /// How many records an interface has, with those that were handed out, and the octets of their
    /// trace file with its header. Both stop at the greatest `u64`. It takes no memory.
    pub fn totals(&self, iface: IfaceNo) -> (u64, u64)
        ensures { result ≡ totals_at self.now.topology (state_of self.now).records iface }
    {
        self.part.totals(iface)
    }
}
