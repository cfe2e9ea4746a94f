//! What a replica learns of a channel.

ghost use Rattle.std.specs.Prelude.{◌≡◌, ℕ, ◌+◌, ◌<◌, ◌≤◌, true, List, IfErr, OnErr, OnOk, length};
ghost use Rattle.std.specs.Prelude.{slice_set};
ghost use Rattle.nm_model.specs.Knowledge.{Know as Knowledge};
ghost use Rattle.nm_model.specs.Accept.{New as IsNew};
ghost use Rattle.nm_model.specs.Partition.{comes_in};
ghost use Rattle.nm_knowledge.specs.declared.answer.KnowFault.TheVariants.{Memory};
ghost use Rattle.nm_sim.specs.Network.{net_of};
ghost use Rattle.nm_topology.specs.Topology.{receiving_iface};
ghost use Rattle.nm_book.specs.Accepting.{Learns, data_taken, null_taken};
ghost use Rattle.nm_book.specs.BookPart.{IsBook, room_in};
ghost use Rattle.nm_book.specs.Telling.{Follow, IsNext, told_each, told_one};
ghost use Rattle.nm_book.specs.declared.fault.AcceptFault.TheVariants.{Known};

use crate::fault::AcceptFault;
use crate::message::{Data, Null};
use nm_base::{Packet, PartNo};
use nm_events::HeapList;
use nm_forward::NodeState;
use nm_knowledge::{Accepted, Know, KnowFault};
use nm_model::knowledge::accept_laws;
use nm_model::replica::{law_of_books, more_of_one_channel_is_more, told_one_more};
use nm_sim::Part;
use nm_sim::network::every_topology_is_a_network;
use nm_topology::Topology;
use nm_topology::topology::channels_are_numbered_by_their_receivers;

/// A new message of a channel is known from now on.
fn add_data(knows: &mut Vec<Know>, message: &Data) -> Result<(), AcceptFault>
    requires there { message.now.channel < length knows.old.items }
    requires next { (data_taken knows.old.items message.now.channel message.now.number
        message.now.time message.now.packet).answer ≡ IsNew }
    ensures ok { OnOk result (knows.new.items ≡ slice_set knows.old.items message.now.channel
        (data_taken knows.old.items message.now.channel message.now.number message.now.time
        message.now.packet).after) }
    ensures err { OnErr result (knows.new.items ≡ knows.old.items) }
    ensures memory { IfErr result (λ e. e ≡ Known Memory) }
{
    knows[message.channel.index()].accept_data(message.number, message.time, &message.packet)?;
    Ok(())
}

/// A message of an incoming channel: what is known of the channel grows, and its arrival is to
/// come. Room for the arrival is made, and the packet is shared, before anything changes, and only
/// if the message is new.
pub(crate) fn take_data(
    topology: &Topology,
    partition: PartNo,
    knows: &mut Vec<Know>,
    part: &mut Part<HeapList>,
    message: &Data,
) -> Result<Accepted, AcceptFault>
    // The book is one of this partition, and the channel comes in.
    requires book { IsBook topology.now partition knows.old.items part.old }
    requires there { message.now.channel < length topology.now.receivers }
    requires comes { comes_in (net_of topology.now) partition
        (receiving_iface topology.now message.now.channel) ≡ true }

    // It is one after it, and knows what the model says.
    ensures book { IsBook topology.now partition knows.new.items part.new }
    ensures learns { Learns knows.old.items knows.new.items message.now.channel
        (data_taken knows.old.items message.now.channel message.now.number message.now.time
        message.now.packet) result }

    // No event was done, and no record handed out.
    ensures steps { part.new.steps ≡ part.old.steps }
    ensures keeping { part.new.records.keeping ≡ part.old.records.keeping }
{
    let know = &knows[message.channel.index()];
    let accepted = know.check_data(message.number, message.time, &message.packet)?;
    if accepted != Accepted::New {
        return Ok(accepted);
    }
    let Ok(packet) = message.packet.clone() else {
        return Err(AcceptFault::Known(KnowFault::Memory));
    };
    let Ok(()) = part.reserve(1) else {
        return Err(AcceptFault::Known(KnowFault::Memory));
    };
    put_data(topology, partition, knows, part, message, packet)?;
    Ok(Accepted::New)
}

/// The next message of a channel that comes in: its arrival, for which there is room, is to come.
fn put_message(topology: &Topology, partition: PartNo, part: &mut Part<HeapList>, message: Data)
    // The message is the next of its channel, and there is room.
    requires next { (knows : List (Knowledge (List ℕ)))
        × IsBook topology.now partition knows part.old
        × IsNext topology.now partition knows message }
    requires room { 1 ≤ room_in part.old.timeline.events }

    // The book that got it knows it. It takes one place.
    ensures book { (knows : List (Knowledge (List ℕ)))
        → IsBook topology.now partition knows part.old
        → IsNext topology.now partition knows message
        → IsBook topology.now partition (told_one knows message) part.new }
    ensures room { room_in part.old.timeline.events ≤ room_in part.new.timeline.events + 1 }

    // No event was done, and no record handed out.
    ensures steps { part.new.steps ≡ part.old.steps }
    ensures keeping { part.new.records.keeping ≡ part.old.records.keeping }
{
    every_topology_is_a_network(topology); // law: `net_of` is a network of the model
    channels_are_numbered_by_their_receivers(topology); // law: a channel has its own interface
    told_one_more::<Packet, NodeState>(); // law: one more message is one more arrival
    law_of_books::<Packet, NodeState>(); // law: what was safe to do stays so
    more_of_one_channel_is_more::<Packet, NodeState>(); // law: and this is more
    let Data {
        channel,
        number,
        time,
        packet,
    } = message;
    part.put_arrival(topology, channel, number, time, packet);
}

/// Messages of channels that come in, each the next of its channel: their arrivals, for which there
/// is room, are to come.
pub(crate) fn put_messages(
    topology: &Topology,
    partition: PartNo,
    part: &mut Part<HeapList>,
    messages: Vec<Data>,
)
    requires next { (knows : List (Knowledge (List ℕ)))
        × IsBook topology.now partition knows part.old
        × Follow topology.now partition knows messages.items }
    requires room { length messages.items ≤ room_in part.old.timeline.events }
    ensures book { (knows : List (Knowledge (List ℕ)))
        → IsBook topology.now partition knows part.old
        → Follow topology.now partition knows messages.items
        → IsBook topology.now partition (told_each knows messages.items) part.new }
    ensures steps { part.new.steps ≡ part.old.steps }
    ensures keeping { part.new.records.keeping ≡ part.old.records.keeping }
{
    for message in messages {
        put_message(topology, partition, part, message);
    }
}

/// A new message is known from now on, and its arrival, for which there is room, is to come.
fn put_data(
    topology: &Topology,
    partition: PartNo,
    knows: &mut Vec<Know>,
    part: &mut Part<HeapList>,
    message: &Data,
    packet: Packet,
) -> Result<(), AcceptFault>
    // The message is new to a book of this partition, and there is room.
    requires same { packet ≡ message.now.packet }
    requires book { IsBook topology.now partition knows.old.items part.old }
    requires there { message.now.channel < length topology.now.receivers }
    requires comes { comes_in (net_of topology.now) partition
        (receiving_iface topology.now message.now.channel) ≡ true }
    requires next { (data_taken knows.old.items message.now.channel message.now.number
        message.now.time message.now.packet).answer ≡ IsNew }
    requires room { 1 ≤ room_in part.old.timeline.events }

    // It is known on success; the book is one of this partition in any case.
    ensures book { IsBook topology.now partition knows.new.items part.new }
    ensures ok { OnOk result (knows.new.items ≡ slice_set knows.old.items message.now.channel
        (data_taken knows.old.items message.now.channel message.now.number message.now.time
        message.now.packet).after) }
    ensures err { OnErr result (knows.new.items ≡ knows.old.items) }

    // The one fault.
    ensures memory { IfErr result (λ e. e ≡ Known Memory) }

    // No event was done, and no record handed out.
    ensures steps { part.new.steps ≡ part.old.steps }
    ensures keeping { part.new.records.keeping ≡ part.old.records.keeping }
{
    add_data(knows, message)?;
    let Data {
        channel,
        number,
        time,
        packet: _,
    } = message;
    put_message(
        topology,
        partition,
        part,
        Data {
            channel: *channel,
            number: *number,
            time: *time,
            packet,
        },
    );
    Ok(())
}

/// A null message of a channel that comes in: the clock of what is known may rise. It takes no
/// memory.
pub(crate) fn take_null(
    topology: &Topology,
    partition: PartNo,
    knows: &mut Vec<Know>,
    part: &Part<HeapList>,
    null: &Null,
) -> Result<Accepted, AcceptFault>
    requires book { IsBook topology.now partition knows.old.items part.now }
    requires there { null.now.channel < length topology.now.receivers }
    requires comes { comes_in (net_of topology.now) partition
        (receiving_iface topology.now null.now.channel) ≡ true }
    ensures book { IsBook topology.now partition knows.new.items part.now }
    ensures learns { Learns knows.old.items knows.new.items null.now.channel
        (null_taken knows.old.items null.now.channel null.now.count null.now.clock) result }
{
    every_topology_is_a_network(topology); // law: `net_of` is a network of the model
    channels_are_numbered_by_their_receivers(topology); // law: a channel has its own interface
    told_one_more::<Packet, NodeState>(); // law: a clock that rises changes no state
    law_of_books::<Packet, NodeState>(); // law: what was safe to do stays so
    more_of_one_channel_is_more::<Packet, NodeState>(); // law: and this is more
    accept_laws::<Packet>(); // law: a null message that is taken is more
    let accepted = knows[null.channel.index()].accept_null(null.count, null.clock)?;
    Ok(accepted)
}
