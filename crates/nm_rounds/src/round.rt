//! One round: each partition runs all that is safe, and then gets all that the others have for it.

ghost use Rattle.std.specs.Prelude.{◌≡◌, ◌<◌, ℕ, true, IfOk, OnOk, List, length, map};
ghost use Rattle.std.specs.Prelude.{slice_index_or, slice_set};
ghost use Rattle.nm_model.specs.Before.{IsCount};
ghost use Rattle.nm_model.specs.Knowledge.{nothing_known};
ghost use Rattle.nm_model.specs.World.{Replica};
ghost use Rattle.nm_sim.specs.Network.{net_of};
ghost use Rattle.nm_knowledge.specs.declared.answer.KnowFault.TheVariants.{Memory};
ghost use Rattle.nm_topology.specs.TopologyValue.{TopologyValue};
ghost use Rattle.nm_book.specs.Book.{is_incoming, is_outgoing, message_channel};
ghost use Rattle.nm_rounds.specs.Rounds.{AreAllNews, AreBooks, AllAreFinished, AreNews, AreNewsOf};
ghost use Rattle.nm_rounds.specs.Rounds.{AreOfChannel, AreRounds, EndsRound, RunsAll};
ghost use Rattle.nm_rounds.specs.Rounds.{after_hearing, told_all, told_message};

use crate::messages::messages_from;
use nm_base::{ChanNo, Packet};
use nm_book::channels::{receiver_of, sender_of};
use nm_book::{AcceptFault, Book, ChannelMessage, Ran};
use nm_forward::NodeState;
use nm_knowledge::KnowFault;
use nm_model::run::times_pass;
use nm_sim::network::{channels_are_those_of_the_network, every_topology_is_a_network};
use nm_topology::Topology;
use nm_topology::topology::channels_are_numbered_by_their_receivers;
use std::alloc::{AllocError, Global};

/// A book does all that is safe. `Book::run_safe` ends a run at 2^62 events as if memory was
/// refused, so the limit is not reached; it would be an error as well.
fn run_book(alloc: Global, book: &mut Book) -> Result<(), AllocError>
    ensures { OnOk result (RunsAll book.old book.new) }
{
    match book.run_safe(alloc, u64::MAX) {
        Ran::All(_) => Ok(()),
        Ran::Limit(_) => Err(AllocError),
        Ran::Memory(_) => Err(AllocError),
    }
}

/// All books do all that is safe.
fn run_all(alloc: Global, books: &mut Vec<Book>) -> Result<(), AllocError>
    ensures { OnOk result ((t : TopologyValue) (x y : ℕ → Replica (List ℕ))
        → AreBooks t t.partitions x books.old.items
        → ((p j k : ℕ) → IsCount (net_of t) p (x p).knowledge j
        → IsCount (net_of t) p (x p).knowledge k → j ≡ k)
        → ((p : ℕ) → IsCount (net_of t) p (x p).knowledge (y p).ran)
        → ((p : ℕ) → (y p).knowledge ≡ (x p).knowledge)
        → AreBooks t t.partitions y books.new.items) }
{
    for number in 0..books.len() {
        run_book(alloc, &mut books[number])?;
    }
    Ok(())
}

/// Whether nothing is left to do for any book.
fn all_done(books: &[Book]) -> bool
    ensures { AllAreFinished books.now result }
{
    for book in books {
        if !book.done() {
            return false;
        }
    }
    true
}

/// How many messages of an incoming channel are known, which is the number of the next one.
fn next_number(receiver: &Book, channel: ChanNo) -> u64
    requires { is_incoming receiver.now channel ≡ true }
    ensures { result ≡ length (slice_index_or receiver.now.knows channel nothing_known).list }
{
    match receiver.know(channel) {
        Some(know) => know.len() as u64,
        None => 0,
    }
}

/// All messages of a channel that the receiver does not know, and then the channel's null message.
fn news(
    alloc: Global,
    receiver: &Book,
    sender: &Book,
    channel: ChanNo,
) -> Result<Vec<ChannelMessage>, AllocError>
    requires comes { is_incoming receiver.now channel ≡ true }
    requires goes { is_outgoing sender.now channel ≡ true }
    ensures { IfOk result (λ messages. AreNews
        (slice_index_or receiver.now.knows channel nothing_known)
        sender.now channel messages.items) }
{
    let Some(null) = sender.null(channel) else {
        return Ok(Vec::new(alloc));
    };
    let first = next_number(receiver, channel);
    let mut messages = messages_from(alloc, sender, channel, first, null.count)?;
    messages.push(ChannelMessage::Null(null))?;
    Ok(messages)
}

/// The news of a channel.
fn news_of(
    alloc: Global,
    topology: &Topology,
    books: &[Book],
    channel: ChanNo,
) -> Result<Vec<ChannelMessage>, AllocError>
    requires there { channel < length topology.now.receivers }
    requires books { (x : ℕ → Replica (List ℕ))
        × AreBooks topology.now topology.now.partitions x books.now }
    ensures { IfOk result (λ messages. (x : ℕ → Replica (List ℕ))
        → AreBooks topology.now topology.now.partitions x books.now
        → AreNewsOf topology.now x channel messages.items) }
{
    every_topology_is_a_network(topology); // law: each interface is of a partition that is there
    channels_are_numbered_by_their_receivers(topology); // law: a channel has its own interface
    channels_are_those_of_the_network(topology); // law: a channel comes in at its receiver
    let receiver = receiver_of(topology, channel);
    let sender = sender_of(topology, channel);
    news(
        alloc,
        &books[receiver.index()],
        &books[sender.index()],
        channel,
    )
}

/// The news of each channel, in the order of their numbers.
fn all_news(
    alloc: Global,
    topology: &Topology,
    books: &[Book],
) -> Result<Vec<Vec<ChannelMessage>>, AllocError>
    requires books { (x : ℕ → Replica (List ℕ))
        × AreBooks topology.now topology.now.partitions x books.now }
    ensures { IfOk result (λ news. (x : ℕ → Replica (List ℕ))
        → AreBooks topology.now topology.now.partitions x books.now
        → AreAllNews topology.now x (length topology.now.receivers)
        (map (λ messages. messages.items) news.items)) }
{
    let mut news = Vec::new(alloc);
    for number in 0..topology.receivers().len() {
        let messages = news_of(alloc, topology, books, topology.channel_number(number))?;
        news.push(messages)?;
    }
    Ok(news)
}

/// The result of a refusal: nothing, unless memory was refused.
fn unless_memory(fault: KnowFault) -> Result<(), AllocError>
    ensures { OnOk result (fault ≡ Memory → ⊥) }
{
    match fault {
        KnowFault::Memory => Err(AllocError),
        _ => Ok(()),
    }
}

/// A book gets a message. If it refuses it, nothing changes.
fn tell_one(book: &mut Book, message: &ChannelMessage) -> Result<(), AllocError>
    ensures { OnOk result (is_incoming book.old (message_channel message.now) ≡ true
        → book.new ≡ record book.old {
          knows = slice_set book.old.knows (message_channel message.now)
              (told_message (slice_index_or book.old.knows (message_channel message.now)
              nothing_known) message.now);
        }) }
{
    match book.accept(message) {
        Ok(_) => Ok(()),
        Err(AcceptFault::Known(fault)) => unless_memory(fault),
        Err(AcceptFault::Stranger) => Ok(()),
    }
}

/// A book gets messages, one after another.
fn tell_all(book: &mut Book, messages: &[ChannelMessage]) -> Result<(), AllocError>
    ensures { OnOk result ((c : ℕ) → is_incoming book.old c ≡ true → c < length book.old.knows
        → AreOfChannel c messages.now
        → book.new ≡ record book.old {
          knows = slice_set book.old.knows c
              (told_all (slice_index_or book.old.knows c nothing_known) messages.now);
        }) }
{
    for message in messages {
        tell_one(book, message)?;
    }
    Ok(())
}

/// Each book gets the news of its incoming channels.
fn hear_all(
    topology: &Topology,
    books: &mut Vec<Book>,
    news: &[Vec<ChannelMessage>],
) -> Result<(), AllocError>
    requires { (x : ℕ → Replica (List ℕ))
        × AreBooks topology.now topology.now.partitions x books.old.items
        × AreAllNews topology.now x (length topology.now.receivers)
        (map (λ messages. messages.items) news.now) }
    ensures { OnOk result ((x : ℕ → Replica (List ℕ))
        → AreBooks topology.now topology.now.partitions x books.old.items
        → AreAllNews topology.now x (length topology.now.receivers)
        (map (λ messages. messages.items) news.now)
        → AreBooks topology.now topology.now.partitions (after_hearing topology.now x)
        books.new.items) }
{
    every_topology_is_a_network(topology); // law: each interface is of a partition that is there
    channels_are_numbered_by_their_receivers(topology); // law: a channel has its own interface
    channels_are_those_of_the_network(topology); // law: what comes in is a channel
    for number in 0..news.len() {
        let receiver = receiver_of(topology, topology.channel_number(number));
        tell_all(&mut books[receiver.index()], &news[number])?;
    }
    Ok(())
}

/// Does a round, and answers whether all books are done in it. All null messages are made before
/// any is delivered.
pub(crate) fn do_round(
    alloc: Global,
    topology: &Topology,
    books: &mut Vec<Book>,
) -> Result<bool, AllocError>
    requires { (j : ℕ) × (by_round : ℕ → ℕ → Replica (List ℕ)) × AreRounds topology.now by_round
        × AreBooks topology.now topology.now.partitions (by_round j) books.old.items }
    ensures { IfOk result (λ done. (j : ℕ) (by_round : ℕ → ℕ → Replica (List ℕ))
        → AreRounds topology.now by_round
        → AreBooks topology.now topology.now.partitions (by_round j) books.old.items
        → EndsRound topology.now by_round j done books.new.items) }
{
    every_topology_is_a_network(topology); // law: `net_of` is a network of the model
    times_pass::<Packet, NodeState>(); // law: all that is safe is one number of events
    run_all(alloc, books)?;
    if all_done(books) {
        return Ok(true);
    }
    let news = all_news(alloc, topology, books)?;
    hear_all(topology, books, &news)?;
    Ok(false)
}
