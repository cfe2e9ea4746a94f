//! The certificate: whether books, however they came to know it, have the traces of the whole
//! network.

ghost use Rattle.std.specs.Prelude.{◌≡◌, ◌↔◌, ℕ, ◌<◌, true, false, if◌then◌else◌, All, Contains};
ghost use Rattle.std.specs.Prelude.{List, length, map, Some, None, IsOk, OnOk};
ghost use Rattle.std.specs.Option.{option_map};
ghost use Rattle.nm_topology.specs.Topology.{receiving_iface};
ghost use Rattle.nm_topology.specs.TopologyValue.{TopologyValue};
ghost use Rattle.nm_model.specs.Accept.{last_from};
ghost use Rattle.nm_model.specs.Certificate.{Book as ModelBook, IsCertified, PrefixFault};
ghost use Rattle.nm_model.specs.Certificate.{ClockFault};
ghost use Rattle.nm_model.specs.Certificate.{book_fault, clock_fault, first_below, first_of};
ghost use Rattle.nm_model.specs.Certificate.{has_part, is_done, prefix_fault};
ghost use Rattle.nm_model.specs.Lists.{nth};
ghost use Rattle.nm_model.specs.Partition.{comes_in};
ghost use Rattle.nm_model.specs.Promise.{Tight};
ghost use Rattle.nm_knowledge.specs.Octets.{same_octets};
ghost use Rattle.nm_sim.specs.Network.{net_of};
ghost use Rattle.nm_book.specs.Book.{BookValue, replica_of};
ghost use Rattle.nm_rounds.specs.Certify.{AreOf, Certifies, FindsFault, IsWithinSafe};
ghost use Rattle.nm_rounds.specs.Certify.{book_of, books_of, cert_fault_number};
ghost use Rattle.nm_rounds.specs.Certify.{cert_fault_words};
ghost use Rattle.nm_rounds.specs.Certify.{incoming_fault, is_same_entry, list_fault, missing};
ghost use Rattle.nm_rounds.specs.Certify.{sender_fault, unfinished};
ghost use Rattle.nm_rounds.specs.SameTopology.{SaysSame};

use crate::same_topology::same_topology;
use nm_base::{ChanNo, Packet, PartNo, Time};
use nm_book::Book;
use nm_forward::NodeState;
use nm_knowledge::Know;
use nm_knowledge::laws::packets_are_told_apart;
use nm_model::certificate::{certificate, certify_faults_are_right, certify_is_exact};
use nm_sim::network::{
    channels_are_those_of_the_network, every_topology_is_a_network,
    the_digest_is_no_part_of_the_network,
};
use nm_topology::Topology;
use nm_topology::topology::{
    accepted_topologies_are_in_order, channels_are_numbered_by_their_receivers,
};
use std::fmt;
use thiserror::Error;

/// Why books are not certified.
#[derive(Clone, Copy, Debug, PartialEq, Eq, Error)]
pub enum CertFault {
    /// A book is of another topology.
    Topology,
    /// No book is of this partition, the least such one.
    Missing { partition: PartNo },
    /// The book of this partition is not done: its safe time is before `stop`, or an event before
    /// `stop` is to come. It is the first such book.
    Unfinished { partition: PartNo },
    /// The receiver's message of this number on this channel is not the one that was sent, or none
    /// was sent.
    Prefix { channel: ChanNo, number: u64 },
    /// Behind the messages that the receiver has of this channel one was sent that arrives before
    /// the receiver's clock.
    Clock { channel: ChanNo },
    /// The receiver's clock of this channel is past the sender's promise, and past the receiver's
    /// last message.
    Promise { channel: ChanNo },
}

impl CertFault {
    /// The number by which reports name the fault, from 1 to 6.
    pub fn number(&self) -> u8
        ensures { result ≡ cert_fault_number self.now }
    {
        match self {
            CertFault::Prefix { .. } => 1,
            CertFault::Clock { .. } => 2,
            CertFault::Promise { .. } => 3,
            CertFault::Missing { .. } => 4,
            CertFault::Unfinished { .. } => 5,
            CertFault::Topology => 6,
        }
    }

    /// The fault in words, without its numbers.
    fn message(&self) -> &'static str
        ensures { result.now ≡ cert_fault_words self.now }
    {
        match self {
            CertFault::Topology => "a book of another topology",
            CertFault::Missing { .. } => "a partition has no book",
            CertFault::Unfinished { .. } => "a book is not done",
            CertFault::Prefix { .. } => "a message is not the one that was sent",
            CertFault::Clock { .. } => "a message was sent that arrives before the channel clock",
            CertFault::Promise { .. } => "a channel clock is past what was promised",
        }
    }
}

impl fmt::Display for CertFault {
    fn fmt<W: fmt::Write>(&self, f: &mut fmt::Formatter<W>) -> fmt::Result {
        f.write_str(self.message())
    }
}

/// Whether all books are of this topology.
fn are_of(topology: &Topology, books: &[&Book]) -> bool
    ensures all { result ≡ true → AreOf topology.now (map (λ b. b.now) books.now) }
    ensures other { result ≡ false → (b : BookValue)
        × Contains (map (λ b. b.now) books.now) b × (SaysSame b.topology topology.now → ⊥) }
{
    for book in books {
        if !same_topology(book.topology(), topology) {
            return false;
        }
    }
    true
}

/// Whether one of the books is of this partition.
fn has_book(books: &[&Book], partition: PartNo) -> bool
    ensures { result ≡ has_part partition (books_of (map (λ b. b.now) books.now)) }
{
    for book in books {
        if book.partition() == partition {
            return true;
        }
    }
    false
}

/// Looks whether each partition has a book.
fn check_partitions(topology: &Topology, books: &[&Book]) -> Result<(), CertFault>
    ensures { FindsFault topology.now (first_below (missing (map (λ b. b.now) books.now))
        topology.now.partitions) result }
{
    for number in 0..topology.partitions() {
        let partition = PartNo::new(number);
        if !has_book(books, partition) {
            return Err(CertFault::Missing { partition });
        }
    }
    Ok(())
}

/// What is relied on of a book of this topology: each event that it did was before the safe time.
fn within_safe_time(topology: &Topology, book: &Book)
    requires { SaysSame book.now.topology topology.now }
    ensures { IsWithinSafe topology.now book.now }
{
    the_digest_is_no_part_of_the_network(); // law: both have the same network
    let _events = book.events();
}

/// Whether a book of this topology is done.
fn is_finished(topology: &Topology, book: &Book) -> bool
    requires { SaysSame book.now.topology topology.now }
    ensures { result ≡ is_done (net_of topology.now) book.now.partition (replica_of book.now) }
{
    the_digest_is_no_part_of_the_network(); // law: both have the same network
    book.done()
}

/// Looks whether each book is done.
fn check_done(topology: &Topology, books: &[&Book]) -> Result<(), CertFault>
    requires { AreOf topology.now (map (λ b. b.now) books.now) }
    ensures finds { FindsFault topology.now (first_of (unfinished topology.now)
        (books_of (map (λ b. b.now) books.now))) result }
    ensures within { OnOk result (All (IsWithinSafe topology.now) (map (λ b. b.now) books.now)) }
{
    for book in books {
        within_safe_time(topology, book);
        if !is_finished(topology, book) {
            return Err(CertFault::Unfinished {
                partition: book.partition(),
            });
        }
    }
    Ok(())
}

/// Whether the message of this number that is known is the one that was sent.
fn is_sent(know: &Know, sent: &[(Time, Packet)], number: usize) -> bool
    requires { number < length know.now.list }
    ensures { result ≡ is_same_entry (nth know.now.list number) (nth sent.now number) }
{
    match (know.message(number as u64), sent.get(number)) {
        (Some((time, packet)), Some((sent_time, sent_packet))) => {
            time == *sent_time && packet == sent_packet
        }
        _ => false,
    }
}

/// The first number at which the message that is known is not the one that was sent.
fn first_difference(know: &Know, sent: &[(Time, Packet)]) -> Option<u64>
    ensures { (c : ℕ) → prefix_fault same_octets c 0 know.now.list sent.now
        ≡ option_map (PrefixFault c) result }
{
    for number in 0..know.len() {
        if !is_sent(know, sent, number) {
            return Some(number as u64);
        }
    }
    None
}

/// Whether a message was sent behind those that are known, and arrives before the clock.
fn is_before_clock(know: &Know, sent: &[(Time, Packet)]) -> bool
    ensures { (c : ℕ) → clock_fault c know.now.clock (nth sent.now (length know.now.list))
        ≡ (if result then Some (ClockFault c) else None) }
{
    match sent.get(know.len()) {
        Some((time, _)) => *time < know.clock(),
        None => false,
    }
}

/// Whether the last message that is known, if there is one, arrives at the clock or later.
fn is_clock_of_last(know: &Know) -> bool
    ensures { result ≡ last_from know.now.clock know.now.list }
{
    let count = know.len() as u64;
    if count == 0 {
        return false;
    }
    match know.message(count - 1) {
        Some((time, _)) => know.clock() <= time,
        None => false,
    }
}

/// Looks whether what the receiver knows of a channel is what was sent and promised on it.
fn check_channel(
    channel: ChanNo,
    know: &Know,
    sent: &[(Time, Packet)],
    promise: Time,
) -> Result<(), CertFault>
    ensures { (t : TopologyValue) → FindsFault t
        (list_fault (receiving_iface t channel) know.now sent.now promise) result }
{
    if let Some(number) = first_difference(know, sent) {
        return Err(CertFault::Prefix { channel, number });
    }
    if is_before_clock(know, sent) {
        return Err(CertFault::Clock { channel });
    }
    if promise < know.clock() && !is_clock_of_last(know) {
        return Err(CertFault::Promise { channel });
    }
    Ok(())
}

/// Compares what is known of an incoming channel of a book with what this one sent, if it sends on
/// the channel.
fn check_sender(
    topology: &Topology,
    channel: ChanNo,
    know: &Know,
    sender: &Book,
) -> Result<(), CertFault>
    requires { SaysSame sender.now.topology topology.now }
    ensures { (r : ModelBook (List ℕ))
        → comes_in (net_of topology.now) r.part (receiving_iface topology.now channel) ≡ true
        → r.replica.knowledge (receiving_iface topology.now channel) ≡ know.now
        → FindsFault topology.now (sender_fault topology.now
        (receiving_iface topology.now channel) r (book_of sender.now)) result }
{
    the_digest_is_no_part_of_the_network(); // law: both have the same network
    let Some(sent) = sender.sent(channel) else {
        return Ok(());
    };
    let Some(promise) = sender.promise(channel) else {
        unreachable!()
    };
    check_channel(channel, know, sent, promise)
}

/// Looks at one channel of a book, if it comes in there, beside each book that sends on it.
fn check_senders(
    topology: &Topology,
    books: &[&Book],
    receiver: &Book,
    channel: ChanNo,
) -> Result<(), CertFault>
    requires ours { AreOf topology.now (map (λ b. b.now) books.now) }
    requires here { SaysSame receiver.now.topology topology.now }
    ensures { FindsFault topology.now (incoming_fault topology.now (map (λ b. b.now) books.now)
        (book_of receiver.now) (receiving_iface topology.now channel)) result }
{
    the_digest_is_no_part_of_the_network(); // law: both have the same network
    channels_are_those_of_the_network(topology); // law: what comes in is a channel
    channels_are_numbered_by_their_receivers(topology); // law: a channel has its own interface
    let Some(know) = receiver.know(channel) else {
        return Ok(());
    };
    for sender in books {
        check_sender(topology, channel, know, sender)?;
    }
    Ok(())
}

/// Looks at each channel that comes into a book.
fn check_book(topology: &Topology, books: &[&Book], receiver: &Book) -> Result<(), CertFault>
    requires ours { AreOf topology.now (map (λ b. b.now) books.now) }
    requires here { SaysSame receiver.now.topology topology.now }
    ensures { FindsFault topology.now (book_fault (net_of topology.now) same_octets Tight
        (books_of (map (λ b. b.now) books.now)) (book_of receiver.now)) result }
{
    accepted_topologies_are_in_order(topology); // law: receivers rise
    channels_are_those_of_the_network(topology); // law: what comes in is a channel
    channels_are_numbered_by_their_receivers(topology); // law: its interface is there
    for number in 0..topology.receivers().len() {
        let channel = topology.channel_number(number);
        check_senders(topology, books, receiver, channel)?;
    }
    Ok(())
}

/// Looks at each channel of each book.
fn check_channels(topology: &Topology, books: &[&Book]) -> Result<(), CertFault>
    requires { AreOf topology.now (map (λ b. b.now) books.now) }
    ensures { FindsFault topology.now (first_of (book_fault (net_of topology.now) same_octets Tight
        (books_of (map (λ b. b.now) books.now))) (books_of (map (λ b. b.now) books.now))) result }
{
    for receiver in books {
        check_book(topology, books, receiver)?;
    }
    Ok(())
}

/// Whether books, wherever they know from what they know, have the traces of the whole network. If
/// they do, each book's trace is its partition's part of the trace of `one_list`. It takes no
/// memory, and goes once through the lists of each two books that share a channel.
///
/// # Errors
///
/// The first fault in this order. `Topology` if a book is of another topology; all but the digest
/// is compared. `Missing` with the least partition that has no book. `Unfinished` with the
/// partition of the first book that is not done. Then by receiving book in the order given, by
/// incoming channel and by sending book in the order given: `Prefix`, `Clock` or `Promise`.
pub fn certify(topology: &Topology, books: &[&Book]) -> Result<(), CertFault>
    ensures answer { Certifies topology.now (map (λ b. b.now) books.now) result }
    ensures exact { IsOk result ↔ (AreOf topology.now (map (λ b. b.now) books.now)
        × IsCertified (net_of topology.now) Tight (books_of (map (λ b. b.now) books.now))) }
{
    every_topology_is_a_network(topology); // law: `net_of` is a network of the model
    the_digest_is_no_part_of_the_network(); // law: all books have its network
    packets_are_told_apart(); // law: packets that differ are told apart
    certify_is_exact::<Packet, NodeState>(); // law: no fault is found where they are certified
    certify_faults_are_right::<Packet, NodeState>(); // law: a fault shows what it says
    certificate::<Packet, NodeState>(); // law: certified books have the whole traces
    if !are_of(topology, books) {
        return Err(CertFault::Topology);
    }
    check_partitions(topology, books)?;
    check_done(topology, books)?;
    check_channels(topology, books)
}
