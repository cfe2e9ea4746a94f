//! Laws of replicas, wherever they know from what they know.

ghost use Rattle.std.specs.Prelude.{◌≡◌, ℕ, ◌≤◌, All, Ok, length};
ghost use Rattle.nm_base.specs.declared.limits.TheConstants.{MAX_TIME};
ghost use Rattle.nm_model.specs.Promise.{Plain, Tight};
ghost use Rattle.nm_model.specs.Replica.{IsWithin};
ghost use Rattle.nm_sim.specs.Network.{net_of};
ghost use Rattle.nm_book.specs.Book.{BookValue, knowledge, promise_on, state_of};
ghost use Rattle.nm_book.specs.Laws.{AreAlike, IsNetOfChannels, KeepsWhatIsDone};
ghost use Rattle.nm_book.specs.Merging.{BookMerges, KnowledgeValue};
ghost use Rattle.nm_book.specs.Sisters.{IsUnderOf, KnowTheSame};

use crate::book::Book;
use nm_base::Packet;
use nm_forward::NodeState;
use nm_knowledge::laws::packets_are_told_apart;
use nm_model::promise::{promises_kept, promises_never_fall};
use nm_model::replica::{equal_knowledge_gives_equal_states, law_of_books, what_was_done_stays};
use nm_sim::network::{channels_are_those_of_the_network, every_topology_is_a_network};
use nm_topology::Topology;
use nm_topology::topology::{
    accepted_topologies_are_in_order, channels_are_numbered_by_their_receivers,
};

/// What the laws rely on of a topology.
fn network_of(topology: &Topology)
    ensures { IsNetOfChannels topology.now }
{
    every_topology_is_a_network(topology); // law: `net_of` is a network of the model
    channels_are_numbered_by_their_receivers(topology); // law: channels have numbers
    channels_are_those_of_the_network(topology); // law: what comes in is a channel
}

/// What they rely on of a replica.
fn replica_of(book: &Book)
    ensures topology { IsNetOfChannels book.now.topology }
    ensures within { IsWithin (net_of book.now.topology) book.now.partition (knowledge book.now)
        book.now.events }
{
    network_of(book.topology());
    let _events = book.events(); // law: they are before the safe time
}

/// Replicas of one partition that know the same of each incoming channel and did as many events are
/// in equal states, and so have equal traces and sent the same, and promise the same.
pub fn equal_knowledge_gives_equal_replicas(first: &Book, second: &Book)
    ensures { KnowTheSame first.now second.now → first.now.events ≡ second.now.events
        → AreAlike first.now second.now }
{
    replica_of(first);
    equal_knowledge_gives_equal_states::<Packet, NodeState>();
}

/// Over more knowledge a replica is as before with the new messages to come. What it sent and
/// recorded is a beginning of what a replica sent and recorded that knows more and did as much or
/// more, and that one's safe time and promises are no earlier.
pub fn more_knowledge_changes_nothing_done(less: &Book, more: &Book)
    ensures { IsUnderOf less.now more.now → KeepsWhatIsDone less.now more.now }
{
    replica_of(less);
    replica_of(more);
    law_of_books::<Packet, NodeState>();
    what_was_done_stays::<Packet, NodeState>();
    promises_never_fall::<Packet, NodeState>();
}

/// The old promise is never above the new one.
pub fn the_old_promise_is_no_later(book: &Book)
    ensures { (c : ℕ) → promise_on Plain book.now c ≤ promise_on Tight book.now c }
{
    promises_kept::<Packet, NodeState>(); // law: it is earlier by the least transmission at least
    let _topology = book.topology();
}

/// A trace file can hold the time of each record of a replica's trace.
pub fn records_have_times_of_a_file(book: &Book)
    ensures { All (λ r. r.time ≤ MAX_TIME) (state_of book.now).records }
{
    accepted_topologies_are_in_order(book.topology()); // law: `stop` is within its limit
    let _events = book.events(); // they are before the safe time
}

/// A replica takes in no knowledge but that of a replica of its own partition, of a topology with
/// its own digest and as many channels.
pub fn only_sisters_are_merged()
    ensures { (old new : BookValue) (other : KnowledgeValue) → BookMerges old new other (Ok tt)
        → (other.digest ≡ old.topology.digest) × (other.partition ≡ old.partition)
        × (length other.knows ≡ length old.topology.receivers) }
{
    packets_are_told_apart(); // law: octets that are found the same are the same
}
