//! Rounds of all partitions, from the text of a topology.

ghost use Rattle.std.specs.Prelude.{◌≡◌, ℕ, ◌<◌, ◌≤◌, ◌+◌, IfOk, OnOk};
ghost use Rattle.std.specs.Arc.{arc_value};
ghost use Rattle.nm_model.specs.World.{fresh};
ghost use Rattle.nm_base.specs.declared.limits.TheConstants.{MAX_ROUNDS};
ghost use Rattle.nm_rounds.specs.Rounds.{AreBooks, AreEnded, ComesTo, RunsTo, least_safe};

use crate::round::do_round;
use nm_base::{Packet, PartNo, Time};
use nm_book::Book;
use nm_forward::NodeState;
use nm_knowledge::laws::packets_are_told_apart;
use nm_model::rounds::{
    a_lone_partition_is_safe, rounds_bound, so_many_rounds_are_enough, there_are_rounds,
};
use nm_model::run::times_pass;
use nm_progress::Progress;
use nm_sim::network::{channels_are_those_of_the_network, every_topology_is_a_network};
use nm_topology::topology::accepted_topologies_are_in_order;
use nm_topology::{TopoFault, Topology};
use std::alloc::{AllocError, Global};
use std::sync::Arc;

/// The result of rounds. The book of number p is replica 0 of partition p.
#[derive(Drop)]
pub enum Rounds {
    /// In this round, counted from 1, and in none before it, each book was done: it has the whole
    /// trace of its partition.
    Done { rounds: u64, books: Vec<Book> },
    /// So many rounds were asked for, and in each of them some book was not done.
    Unfinished { rounds: u64, books: Vec<Book> },
}

/// Adds a book that knows nothing behind the others.
fn push_book(
    alloc: Global,
    topology: &Arc<Topology>,
    books: &mut Vec<Book>,
    partition: PartNo,
) -> Result<(), AllocError>
    requires { partition < (arc_value topology.now).partitions }
    ensures { OnOk result (AreBooks (arc_value topology.now) partition (λ p. fresh) books.old.items
        → AreBooks (arc_value topology.now) (partition + 1) (λ p. fresh) books.new.items) }
{
    let shared = topology.clone()?;
    let Ok(book) = Book::new(alloc, shared, partition, 0) else {
        return Err(AllocError);
    };
    books.push(book)?;
    Ok(())
}

/// Replica 0 of each partition, which knows nothing.
fn first_books(alloc: Global, topology: &Arc<Topology>) -> Result<Vec<Book>, AllocError>
    ensures { IfOk result (λ books. AreBooks (arc_value topology.now)
        (arc_value topology.now).partitions (λ p. fresh) books.items) }
{
    let mut books = Vec::new(alloc);
    for partition in 0..topology.partitions() {
        push_book(alloc, topology, &mut books, PartNo::new(partition))?;
    }
    Ok(books)
}

/// The time before which each of the books is safe, in nanoseconds: of none the greatest time.
fn least_safe(books: &[Book]) -> u64
    ensures { result ≡ least_safe books.now }
{
    let mut time = u64::MAX;
    for book in books {
        time = time.min(book.safe().nanoseconds());
    }
    time
}

/// Notes how far the books are.
fn note_progress(books: &[Book], progress: &Progress) {
    let mut records = 0u64;
    for book in books {
        records = records.saturating_add(book.records());
    }
    progress.note(Time::from_nanoseconds(least_safe(books)), records);
}

/// Does rounds until all books are done, and answers in which they are; or does as many as are
/// asked for.
fn do_rounds(
    alloc: Global,
    topology: &Topology,
    books: &mut Vec<Book>,
    max: u64,
    progress: &Progress,
) -> Result<Option<u64>, AllocError>
    requires some { 1 ≤ max }
    requires few { max ≤ MAX_ROUNDS }
    requires first { AreBooks topology.now topology.now.partitions (λ p. fresh) books.old.items }
    ensures { IfOk result (λ done. AreEnded topology.now max done books.new.items) }
{
    every_topology_is_a_network(topology); // law: `net_of` is a network of the model
    channels_are_those_of_the_network(topology); // law: what comes in is a channel
    packets_are_told_apart(); // law: equal octets are found equal
    times_pass::<Packet, NodeState>(); // law: the network reaches `stop`
    there_are_rounds::<Packet, NodeState>(); // law: these are some
    rounds_bound::<Packet, NodeState>(); // law: in which round all is done
    so_many_rounds_are_enough(); // law: for the least lookahead
    a_lone_partition_is_safe::<Packet, NodeState>(); // law: where there is no channel
    for round in 0..max {
        if do_round(alloc, topology, books)? {
            return Ok(Some(round + 1));
        }
        note_progress(books.as_slice(), progress);
    }
    Ok(None)
}

/// Runs all partitions of a network in rounds, with deliveries between, until all is done, but in
/// at most so many rounds.
///
/// In a round each partition runs all that is safe. If all are done then, that is the last round.
/// Else the new messages of each channel and its null message, with the promise of the moment, are
/// first gathered of all channels, and only then delivered. If there is no channel all is done in
/// the first round; and always after `stop` divided by the least lookahead of a channel, rounded
/// up, and one round more. After each round it is noted how far all are.
///
/// # Errors
///
/// If memory was refused.
pub fn run_rounds_over(
    alloc: Global,
    topology: &Arc<Topology>,
    max: u64,
    progress: &Progress,
) -> Result<Rounds, AllocError>
    requires some { 1 ≤ max }
    requires few { max ≤ MAX_ROUNDS }
    ensures { IfOk result (λ rounds. RunsTo (arc_value topology.now) max rounds) }
{
    let mut books = first_books(alloc, topology)?;
    match do_rounds(alloc, topology, &mut books, max, progress)? {
        Some(rounds) => Ok(Rounds::Done { rounds, books }),
        None => Ok(Rounds::Unfinished { rounds: max, books }),
    }
}

/// Reads the text of a network, and lets its partitions run as `run_rounds_over` does.
///
/// # Errors
///
/// `Refused` if the text is refused, with its first fault. `Memory` if memory was refused.
pub fn run_rounds(alloc: Global, text: &[u8], max: u64) -> Result<Rounds, TopoFault>
    requires some { 1 ≤ max }
    requires few { max ≤ MAX_ROUNDS }
    ensures { ComesTo text.now max result }
{
    let network = Topology::read(alloc, text)?;
    let topology = Arc::new(alloc, network)?;
    Ok(run_rounds_over(alloc, &topology, max, &Progress::new())?)
}
