//! The report of a run.

ghost use Rattle.std.specs.Prelude.{◌≡◌, ℕ, ◌<◌, IfOk, length};
ghost use Rattle.nm_model.specs.Before.{IsBefore, trace};
ghost use Rattle.nm_model.specs.Partition.{receiver_of};
ghost use Rattle.nm_book.specs.Book.{state_of};
ghost use Rattle.nm_rounds.specs.Certify.{AreCertified};
ghost use Rattle.nm_rounds.specs.SameTopology.{SaysSame};
ghost use Rattle.nm_run.specs.Report.{AreTotals, IsTotal};
ghost use Rattle.nm_sim.specs.Network.{net_of};

use nm_base::{IfaceNo, Packet};
use nm_book::Book;
use nm_book::channels::partition_of;
use nm_forward::NodeState;
use nm_model::trace::interfaces_have_their_records;
use nm_sim::network::every_topology_is_a_network;
use nm_topology::Topology;
use std::alloc::{AllocError, Global};

/// How many records an interface has, and the octets of its trace file, which stop at 2^64 - 1.
#[derive(Clone, Copy, Drop)]
pub struct IfaceTotals {
    pub records: u64,
    pub octets: u64,
}

/// The report of a certified run.
#[derive(Drop)]
pub struct Report {
    /// The totals of each interface, by its number.
    pub totals: Vec<IfaceTotals>,
}

/// The totals of an interface in the book of its partition.
fn totals_in(topology: &Topology, book: &Book, iface: IfaceNo) -> IfaceTotals
    requires there { iface < length topology.now.ifaces }
    requires same { SaysSame book.now.topology topology.now }
    requires part { book.now.partition ≡ receiver_of (net_of topology.now) iface }
    requires whole { (last : ℕ) → IsBefore (net_of topology.now) (net_of topology.now).stop last
        → (state_of book.now).records ≡ trace (net_of topology.now) book.now.partition last }
    ensures { IsTotal topology.now iface result }
{
    interfaces_have_their_records::<Packet, NodeState>(); // law: they are in their partition's too
    let (records, octets) = book.totals(iface);
    IfaceTotals { records, octets }
}

/// The totals of an interface in certified books, one of which is of its partition.
fn totals_of(topology: &Topology, books: &[Book], iface: IfaceNo) -> IfaceTotals
    requires there { iface < length topology.now.ifaces }
    requires certified { AreCertified topology.now books.now }
    ensures { IsTotal topology.now iface result }
{
    every_topology_is_a_network(topology); // law: an interface's partition is there
    let partition = partition_of(topology, iface);
    for number in 0..books.len() {
        if books[number].partition() == partition {
            return totals_in(topology, &books[number], iface);
        }
    }
    unreachable!()
}

/// The report of certified books.
///
/// # Errors
///
/// If memory was refused.
pub(crate) fn report_of(
    alloc: Global,
    topology: &Topology,
    books: &[Book],
) -> Result<Report, AllocError>
    requires { AreCertified topology.now books.now }
    ensures { IfOk result (λ report. AreTotals topology.now report.totals.items) }
{
    let mut totals = Vec::new(alloc);
    for number in 0..topology.ifaces().len() {
        totals.push(totals_of(topology, books, topology.iface_number(number)))?;
    }
    Ok(Report { totals })
}
