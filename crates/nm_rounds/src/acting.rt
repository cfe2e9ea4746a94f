//! What each step does.

ghost use Rattle.std.specs.Prelude.{◌≡◌, ◌++◌, ◌∷◌, [], List, OnErr, OnOk};
ghost use Rattle.std.specs.Arc.{arc_value};
ghost use Rattle.nm_book.specs.Book.{is_outgoing, null_on, only_if};
ghost use Rattle.nm_book.specs.declared.message.ChannelMessage.{ChannelMessage as Message};
ghost use Rattle.nm_rounds.specs.Acting.{DoesStep, HaveWorld, kind_of, null_step};
ghost use Rattle.nm_rounds.specs.World.{merge_answer_of, refusal_of};
ghost use Rattle.nm_rounds.specs.declared.step.WorldStep.TheVariants as step;

use crate::messages::messages_from;
use crate::places::{Outlet, place_of, sending_place};
use crate::step::StepAnswer;
use crate::world::Stop;
use nm_base::{ChanNo, PartNo};
use nm_book::channels::receiver_of;
use nm_book::message::Null;
use nm_book::{AcceptFault, Book, BookFault, ChannelMessage, MergeFault, MergeRefusal, Ran};
use nm_knowledge::KnowFault;
use nm_knowledge::laws::packets_are_told_apart;
use nm_sim::network::channels_are_those_of_the_network;
use nm_topology::Topology;
use nm_topology::topology::{
    accepted_topologies_are_in_order, channels_are_numbered_by_their_receivers,
};
use std::alloc::{AllocError, Global};
use std::sync::Arc;

/// A replica runs.
pub(crate) fn run(
    alloc: Global,
    topology: &Topology,
    books: &mut Vec<Book>,
    partition: PartNo,
    replica: u8,
    limit: u64,
) -> Result<StepAnswer, Stop>
    requires { (bag : List Message) × HaveWorld topology.now books.old.items bag }
    ensures { (bag : List Message) → DoesStep topology.now (books.old.items, bag)
        (step.Run partition replica limit) result (books.new.items, bag) }
{
    let Some(place) = place_of(topology, partition, replica) else {
        return Err(Stop::NoSuch);
    };
    match books[place].run_safe(alloc, limit) {
        Ran::All(done) => Ok(StepAnswer::All(done)),
        Ran::Limit(done) => Ok(StepAnswer::Limit(done)),
        Ran::Memory(_) => Err(Stop::Memory),
    }
}

/// Puts a frame behind all that were sent.
fn put(bag: &mut Vec<ChannelMessage>, frame: ChannelMessage) -> Result<(), AllocError>
    ensures ok { OnOk result (bag.new.items ≡ bag.old.items ++ frame ∷ []) }
    ensures err { OnErr result (bag.new.items ≡ bag.old.items) }
{
    bag.push(frame)?;
    Ok(())
}

/// A replica sends one message.
pub(crate) fn send(
    topology: &Topology,
    books: &[Book],
    bag: &mut Vec<ChannelMessage>,
    outlet: Outlet,
    number: u64,
) -> Result<StepAnswer, Stop>
    requires { HaveWorld topology.now books.now bag.old.items }
    ensures { DoesStep topology.now (books.now, bag.old.items)
        (step.Data outlet.partition outlet.replica outlet.channel number) result
        (books.now, bag.new.items) }
{
    let Outlet {
        partition,
        replica,
        channel,
    } = outlet;
    let Some(place) = sending_place(topology, partition, replica, channel) else {
        return Err(Stop::NoSuch);
    };
    let Some(message) = books[place].data(channel, number)? else {
        return Err(Stop::NoSuch);
    };
    put(bag, ChannelMessage::Data(message))?;
    Ok(StepAnswer::Frames(1))
}

/// A replica sends all messages from a number on.
pub(crate) fn send_again(
    alloc: Global,
    topology: &Topology,
    books: &[Book],
    bag: &mut Vec<ChannelMessage>,
    outlet: Outlet,
    number: u64,
) -> Result<StepAnswer, Stop>
    requires { HaveWorld topology.now books.now bag.old.items }
    ensures { DoesStep topology.now (books.now, bag.old.items)
        (step.Resend outlet.partition outlet.replica outlet.channel number) result
        (books.now, bag.new.items) }
{
    let Outlet {
        partition,
        replica,
        channel,
    } = outlet;
    let Some(place) = sending_place(topology, partition, replica, channel) else {
        return Err(Stop::NoSuch);
    };
    let book = &books[place];
    let Some(count) = book.out_len(channel) else {
        return Err(Stop::NoSuch);
    };
    if number > count {
        return Err(Stop::NoSuch);
    }
    let mut messages = messages_from(alloc, book, channel, number, count)?;
    bag.append(&mut messages)?;
    Ok(StepAnswer::Frames(count - number))
}

/// Which promise a null message makes.
#[derive(Clone, Copy)]
pub(crate) enum Promise {
    /// That of the moment, `Book::promise`.
    Tight,
    /// The old one, `Book::old_promise`.
    Plain,
}

/// The null message of a channel that makes this promise.
fn null_with(book: &Book, promise: Promise, channel: ChanNo) -> Option<Null>
    ensures { result ≡ only_if (is_outgoing book.now channel)
        (null_on (kind_of promise) book.now channel) }
{
    match promise {
        Promise::Tight => book.null(channel),
        Promise::Plain => book.old_null(channel),
    }
}

/// A replica sends a null message that makes this promise.
pub(crate) fn send_null(
    topology: &Topology,
    books: &[Book],
    bag: &mut Vec<ChannelMessage>,
    promise: Promise,
    outlet: Outlet,
) -> Result<StepAnswer, Stop>
    requires { HaveWorld topology.now books.now bag.old.items }
    ensures { DoesStep topology.now (books.now, bag.old.items)
        (null_step promise outlet.partition outlet.replica outlet.channel) result
        (books.now, bag.new.items) }
{
    let Outlet {
        partition,
        replica,
        channel,
    } = outlet;
    let Some(place) = sending_place(topology, partition, replica, channel) else {
        return Err(Stop::NoSuch);
    };
    let Some(null) = null_with(&books[place], promise, channel) else {
        return Err(Stop::NoSuch);
    };
    put(bag, ChannelMessage::Null(null))?;
    Ok(StepAnswer::Frames(1))
}

/// A replica refused a frame.
fn refused(fault: KnowFault) -> Result<StepAnswer, Stop>
    ensures { result ≡ refusal_of fault }
{
    match fault {
        KnowFault::Memory => Err(Stop::Memory),
        _ => Ok(StepAnswer::Refused(fault)),
    }
}

/// A frame reaches a replica of its receiver.
pub(crate) fn deliver(
    topology: &Topology,
    books: &mut Vec<Book>,
    bag: &[ChannelMessage],
    frame: u64,
    replica: u8,
) -> Result<StepAnswer, Stop>
    requires { HaveWorld topology.now books.old.items bag.now }
    ensures { DoesStep topology.now (books.old.items, bag.now) (step.Deliver frame replica)
        result (books.new.items, bag.now) }
{
    let Some(message) = bag.get(frame as usize) else {
        return Err(Stop::NoSuch);
    };
    channels_are_numbered_by_their_receivers(topology); // law: an interface has its channel
    channels_are_those_of_the_network(topology); // law: a channel comes in at its receiver
    let partition = receiver_of(topology, message.channel());
    let Some(place) = place_of(topology, partition, replica) else {
        return Err(Stop::NoSuch);
    };
    match books[place].accept(message) {
        Ok(accepted) => Ok(StepAnswer::Accepted(accepted)),
        Err(AcceptFault::Known(fault)) => refused(fault),
        Err(AcceptFault::Stranger) => Err(Stop::NoSuch),
    }
}

/// What a merge answers. That the knowledge is a stranger's does not happen between sisters.
fn merge_answer(merged: Result<(), MergeFault>) -> Result<StepAnswer, Stop>
    ensures { result ≡ merge_answer_of merged }
{
    match &merged {
        Ok(()) => Ok(StepAnswer::Merged),
        Err(MergeFault::Memory) => Err(Stop::Memory),
        Err(MergeFault::Refused(MergeRefusal::Stranger)) => Err(Stop::NoSuch),
        Err(MergeFault::Refused(MergeRefusal::Channel { channel, fault })) => {
            Ok(StepAnswer::MergeRefused {
                channel: *channel,
                fault: *fault,
            })
        }
    }
}

/// A replica merges what her sister, the other replica of her partition, knows.
pub(crate) fn merge(
    alloc: Global,
    topology: &Topology,
    books: &mut Vec<Book>,
    partition: PartNo,
    replica: u8,
) -> Result<StepAnswer, Stop>
    requires { (bag : List Message) × HaveWorld topology.now books.old.items bag }
    ensures { (bag : List Message) → DoesStep topology.now (books.old.items, bag)
        (step.Merge partition replica) result (books.new.items, bag) }
{
    let Some(place) = place_of(topology, partition, replica) else {
        return Err(Stop::NoSuch);
    };
    accepted_topologies_are_in_order(topology); // law: the receivers of channels rise
    channels_are_numbered_by_their_receivers(topology); // law: an interface has its channel
    packets_are_told_apart(); // law: a digest is that of itself
    let sister = if replica == 0 { place + 1 } else { place - 1 };
    let knowledge = books[sister].copy_knowledge(alloc)?;
    let result = books[place].merge(alloc, &knowledge);
    merge_answer(result)
}

/// A replica is made again.
pub(crate) fn restart(
    alloc: Global,
    topology: &Arc<Topology>,
    books: &mut Vec<Book>,
    partition: PartNo,
    replica: u8,
) -> Result<StepAnswer, Stop>
    requires { (bag : List Message) × HaveWorld (arc_value topology.now) books.old.items bag }
    ensures { (bag : List Message) → DoesStep (arc_value topology.now)
        (books.old.items, bag) (step.Restart partition replica) result (books.new.items, bag) }
{
    let Some(place) = place_of(topology, partition, replica) else {
        return Err(Stop::NoSuch);
    };
    let shared = topology.clone()?;
    match Book::new(alloc, shared, partition, replica) {
        Ok(book) => {
            books[place] = book;
            Ok(StepAnswer::Emptied)
        }
        Err(BookFault::Refused(_)) => Err(Stop::NoSuch),
        Err(BookFault::Memory) => Err(Stop::Memory),
    }
}
