//! All replicas of a network's partitions, and the frames that they sent.

ghost use Rattle.std.specs.Prelude.{◌≡◌, ◌+◌, ◌*◌, ◌<◌, [], IfOk, OnOk};
ghost use Rattle.std.specs.Arc.{arc_value};
ghost use Rattle.nm_model.specs.World.{opening};
ghost use Rattle.nm_rounds.specs.Acting.{DoesStep, HaveWorld};
ghost use Rattle.nm_rounds.specs.World.{AreFirst, IsWorld};
ghost use Rattle.nm_rounds.specs.declared.world.Stop.TheVariants.{Memory};

use crate::acting::Promise::{Plain, Tight};
use crate::acting::{deliver, merge, restart, run, send, send_again, send_null};
use crate::places::Outlet;
use crate::step::{StepAnswer, WorldStep};
use nm_base::PartNo;
use nm_base::limits::MAX_REPLICAS;
use nm_book::{Book, BookFault, ChannelMessage};
use nm_topology::Topology;
use nm_topology::topology::accepted_topologies_are_in_order;
use std::alloc::{AllocError, Global};
use std::sync::Arc;

/// Why a step was not done.
#[derive(Clone, Copy)]
pub(crate) enum Stop {
    /// It names what is not there.
    NoSuch,
    /// Memory was refused.
    Memory,
}

impl From<AllocError> for Stop {
    ghost from_gives = { λ _ f. f ≡ Memory };

    fn from(_: AllocError) -> Self {
        Stop::Memory
    }
}

/// Adds a replica that knows nothing behind the others.
fn push_replica(
    alloc: Global,
    topology: &Arc<Topology>,
    books: &mut Vec<Book>,
    partition: PartNo,
    replica: u8,
) -> Result<(), AllocError>
    requires there { replica < 2 }
    requires partition { partition < (arc_value topology.now).partitions }
    ensures { OnOk result
        (AreFirst (arc_value topology.now) (2 * partition + replica) books.old.items
        → AreFirst (arc_value topology.now) (2 * partition + replica + 1) books.new.items) }
{
    let shared = topology.clone()?;
    let Ok(book) = Book::new(alloc, shared, partition, replica) else {
        return Err(AllocError);
    };
    books.push(book)?;
    Ok(())
}

/// Replicas 0 and 1 of each partition, which know nothing: replica r of partition p is the one of
/// number 2p + r.
pub(crate) fn all_replicas(alloc: Global, topology: &Arc<Topology>) -> Result<Vec<Book>, AllocError>
    ensures { IfOk result (λ books. IsWorld (arc_value topology.now) books.items [] opening) }
{
    accepted_topologies_are_in_order(topology); // law: there are few partitions
    let mut books = Vec::new(alloc);
    for partition in 0..topology.partitions() {
        push_replica(alloc, topology, &mut books, PartNo::new(partition), 0)?;
        push_replica(alloc, topology, &mut books, PartNo::new(partition), 1)?;
    }
    Ok(books)
}

/// Does a step.
pub(crate) fn do_step(
    alloc: Global,
    topology: &Arc<Topology>,
    books: &mut Vec<Book>,
    bag: &mut Vec<ChannelMessage>,
    step: &WorldStep,
) -> Result<StepAnswer, Stop>
    requires { HaveWorld (arc_value topology.now) books.old.items bag.old.items }
    ensures { DoesStep (arc_value topology.now) (books.old.items, bag.old.items) step.now
        result (books.new.items, bag.new.items) }
{
    match *step {
        WorldStep::Run {
            partition,
            replica,
            limit,
        } => run(alloc, topology, books, partition, replica, limit),
        WorldStep::Data {
            partition,
            replica,
            channel,
            number,
        } => send(
            topology,
            books,
            bag,
            Outlet::of(partition, replica, channel),
            number,
        ),
        WorldStep::Resend {
            partition,
            replica,
            channel,
            number,
        } => {
            let outlet = Outlet::of(partition, replica, channel);
            send_again(alloc, topology, books, bag, outlet, number)
        }
        WorldStep::Null {
            partition,
            replica,
            channel,
        } => send_null(
            topology,
            books,
            bag,
            Tight,
            Outlet::of(partition, replica, channel),
        ),
        WorldStep::OldNull {
            partition,
            replica,
            channel,
        } => send_null(
            topology,
            books,
            bag,
            Plain,
            Outlet::of(partition, replica, channel),
        ),
        WorldStep::Deliver { frame, replica } => deliver(topology, books, bag, frame, replica),
        WorldStep::Merge { partition, replica } => {
            merge(alloc, topology, books, partition, replica)
        }
        WorldStep::Restart { partition, replica } => {
            restart(alloc, topology, books, partition, replica)
        }
    }
}
