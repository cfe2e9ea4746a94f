//! Merging of what another replica knows.

ghost use Rattle.std.specs.Prelude.{◌≡◌, ℕ, ◌+◌, ◌<◌, true, IfOk, IfSome, List, None, length};
ghost use Rattle.nm_model.specs.Join.{join_fault};
ghost use Rattle.nm_model.specs.Knowledge.{Know as Known};
ghost use Rattle.nm_model.specs.Partition.{comes_in};
ghost use Rattle.nm_knowledge.specs.Gain.{IsGain};
ghost use Rattle.nm_knowledge.specs.Octets.{same_octets};
ghost use Rattle.nm_sim.specs.Network.{net_of};
ghost use Rattle.nm_topology.specs.Topology.{receiving_iface};
ghost use Rattle.nm_topology.specs.TopologyValue.{TopologyValue};
ghost use Rattle.nm_book.specs.BookPart.{IsBook};
ghost use Rattle.nm_book.specs.Merging.{AreGains, AreJoinable, AreJoined, AreTold, Checks};
ghost use Rattle.nm_book.specs.Merging.{HasAllGrown, IsGainOf, IsTurnOf, MergesOwnChannels};
ghost use Rattle.nm_book.specs.Merging.{both_know, with_gain};
ghost use Rattle.nm_book.specs.Telling.{Follow, told_each};

use crate::channels::comes_in;
use crate::fault::{MergeFault, MergeRefusal};
use crate::knowledge::Knowledge;
use crate::learning::put_messages;
use crate::message::Data;
use nm_base::{ChanNo, Packet, PartNo};
use nm_events::HeapList;
use nm_forward::NodeState;
use nm_knowledge::laws::{packets_are_told_apart, what_is_known};
use nm_knowledge::{Gain, Know};
use nm_model::knowledge::join_faults_are_right;
use nm_model::replica::{clocks_change_no_state, law_of_books};
use nm_sim::Part;
use nm_sim::network::{channels_are_those_of_the_network, every_topology_is_a_network};
use nm_topology::Topology;
use nm_topology::topology::channels_are_numbered_by_their_receivers;
use std::alloc::{AllocError, Global};

/// Looks whether all channels that come in can be joined.
fn check_all(
    topology: &Topology,
    partition: PartNo,
    knows: &[Know],
    others: &Knowledge,
) -> Result<(), MergeRefusal>
    requires count { length knows.now ≡ length topology.now.receivers }
    requires others { length others.now.knows ≡ length topology.now.receivers }
    ensures { Checks topology.now partition knows.now others.now.knows result }
{
    for number in 0..knows.len() {
        let channel = topology.channel_number(number);
        if !comes_in(topology, partition, channel) {
            continue;
        }
        if let Err(fault) = knows[number].check_merge(others.of(channel)) {
            return Err(MergeRefusal::Channel { channel, fault });
        }
    }
    Ok(())
}

/// What a channel gains, if it comes in.
fn gain_of(
    topology: &Topology,
    partition: PartNo,
    channel: ChanNo,
    know: &Know,
    other: &Know,
) -> Result<Option<Gain>, AllocError>
    requires { comes_in (net_of topology.now) partition (receiving_iface topology.now channel)
        ≡ true → join_fault same_octets know.now other.now ≡ None }
    ensures { IfOk result (λ gain. IsGainOf (comes_in (net_of topology.now) partition
        (receiving_iface topology.now channel)) know.now other.now gain) }
{
    if !comes_in(topology, partition, channel) {
        return Ok(None);
    }
    let gain = know.reserve_merge(other)?;
    Ok(Some(gain))
}

/// What each channel gains that comes in.
fn gains(
    alloc: Global,
    topology: &Topology,
    partition: PartNo,
    knows: &[Know],
    others: &Knowledge,
) -> Result<Vec<Option<Gain>>, AllocError>
    requires count { length knows.now ≡ length topology.now.receivers }
    requires others { length others.now.knows ≡ length topology.now.receivers }
    requires joinable { AreJoinable topology.now partition knows.now others.now.knows
        (length knows.now) }
    ensures { IfOk result (λ v. AreGains topology.now partition knows.now others.now.knows
        v.items) }
{
    let mut gains = Vec::with_capacity(alloc, knows.len())?;
    for number in 0..knows.len() {
        let channel = topology.channel_number(number);
        let gain = gain_of(
            topology,
            partition,
            channel,
            &knows[number],
            others.of(channel),
        )?;
        gains.push(gain)?;
    }
    Ok(gains)
}

/// Adds the messages of a channel that only the other has, which has more.
fn add_new(
    messages: &mut Vec<Data>,
    channel: ChanNo,
    know: &Know,
    other: &Know,
) -> Result<(), AllocError>
    requires more { length know.now.list < length other.now.list }
    requires joinable { join_fault same_octets know.now other.now ≡ None }
    ensures { IfOk result (λ _. (t : TopologyValue) (p : ℕ)
        (knows others : List (Known (List ℕ)))
        → IsTurnOf t p knows others (both_know channel know.now other.now) messages.old.items
        → comes_in (net_of t) p (receiving_iface t channel) ≡ true
        → HasAllGrown t p knows (both_know channel know.now other.now) messages.old.items
        messages.new.items) }
{
    join_faults_are_right::<Packet>(); // law: the longer list goes on after the clock
    what_is_known(know); // law: times rise, up to the clock
    what_is_known(other);
    packets_are_told_apart(); // law: packets that differ are told apart
    for number in know.len()..other.len() {
        let number = number as u64;
        let Some((time, packet)) = other.message(number) else {
            unreachable!()
        };
        let packet = packet.clone()?;
        messages.push(Data {
            channel,
            number,
            time,
            packet,
        })?;
    }
    Ok(())
}

/// Adds the messages of a channel that only the other has, if it comes in.
fn add_messages(
    topology: &Topology,
    partition: PartNo,
    messages: &mut Vec<Data>,
    channel: ChanNo,
    know: &Know,
    other: &Know,
) -> Result<(), AllocError>
    requires { comes_in (net_of topology.now) partition (receiving_iface topology.now channel)
        ≡ true → join_fault same_octets know.now other.now ≡ None }
    ensures { IfOk result (λ _. (knows others : List (Known (List ℕ)))
        → IsTurnOf topology.now partition knows others
        (both_know channel know.now other.now) messages.old.items
        → Follow topology.now partition knows messages.new.items
        × AreTold topology.now partition knows others (channel + 1)
        (told_each knows messages.new.items)) }
{
    join_faults_are_right::<Packet>(); // law: the longer list begins with the other
    what_is_known(know); // law: times rise, up to the clock
    what_is_known(other);
    packets_are_told_apart(); // law: packets that differ are told apart
    if !comes_in(topology, partition, channel) {
        return Ok(());
    }
    if other.len() <= know.len() {
        return Ok(());
    }
    add_new(messages, channel, know, other)?;
    Ok(())
}

/// The messages of all channels that come in that only the other has.
fn new_messages(
    alloc: Global,
    topology: &Topology,
    partition: PartNo,
    knows: &[Know],
    others: &Knowledge,
) -> Result<Vec<Data>, AllocError>
    requires count { length knows.now ≡ length topology.now.receivers }
    requires others { length others.now.knows ≡ length topology.now.receivers }
    requires joinable { AreJoinable topology.now partition knows.now others.now.knows
        (length knows.now) }
    ensures follow { IfOk result (λ v. Follow topology.now partition knows.now v.items) }
    ensures told { IfOk result (λ v. AreTold topology.now partition knows.now others.now.knows
        (length knows.now) (told_each knows.now v.items)) }
{
    let mut messages = Vec::new(alloc);
    for number in 0..knows.len() {
        let channel = topology.channel_number(number);
        let know = &knows[number];
        let other = others.of(channel);
        add_messages(topology, partition, &mut messages, channel, know, other)?;
    }
    Ok(messages)
}

/// Takes what was gained, if anything was.
fn take_gain(know: &mut Know, gain: Option<Gain>)
    requires { IfSome gain (IsGain know.old) }
    ensures { know.new ≡ with_gain know.old gain }
{
    if let Some(gain) = gain {
        know.take(gain);
    }
}

/// Takes what was gained, which takes no memory.
fn take_all(knows: &mut Vec<Know>, gains: Vec<Option<Gain>>)
    requires { (t : TopologyValue) × (p : ℕ) × (others : List (Known (List ℕ)))
        × AreGains t p knows.old.items others gains.items }
    ensures { (t : TopologyValue) (p : ℕ) (others : List (Known (List ℕ)))
        → AreGains t p knows.old.items others gains.items
        → AreJoined t p knows.old.items others knows.new.items }
{
    let mut number = 0;
    for gain in gains {
        take_gain(&mut knows[number], gain);
        number += 1;
    }
}

/// Takes in what another replica of the partition knows. All channels are looked at, then all
/// memory is taken, and then all is changed.
pub(crate) fn merge_all(
    alloc: Global,
    topology: &Topology,
    partition: PartNo,
    knows: &mut Vec<Know>,
    part: &mut Part<HeapList>,
    others: &Knowledge,
) -> Result<(), MergeFault>
    // The book is one of this partition, and the other has as many channels.
    requires book { IsBook topology.now partition knows.old.items part.old }
    requires others { length others.now.knows ≡ length topology.now.receivers }

    // It is one after it, and knows what the model says.
    ensures book { IsBook topology.now partition knows.new.items part.new }
    ensures merges { MergesOwnChannels topology.now partition knows.old.items others.now.knows
        knows.new.items result }

    // No event was done, and no record handed out.
    ensures steps { part.new.steps ≡ part.old.steps }
    ensures keeping { part.new.records.keeping ≡ part.old.records.keeping }
{
    every_topology_is_a_network(topology); // law: `net_of` is a network of the model
    channels_are_numbered_by_their_receivers(topology); // law: a channel has its own interface
    channels_are_those_of_the_network(topology); // law: what comes in is a channel
    clocks_change_no_state::<Packet, NodeState>(); // law: over greater clocks it is as before
    law_of_books::<Packet, NodeState>(); // law: what was safe to do stays so
    check_all(topology, partition, knows, others)?;
    let gains = gains(alloc, topology, partition, knows, others)?;
    let messages = new_messages(alloc, topology, partition, knows, others)?;
    part.reserve(messages.len())?;
    put_messages(topology, partition, part, messages);
    take_all(knows, gains);
    Ok(())
}
