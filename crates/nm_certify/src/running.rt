//! A book, run to its end beside trace files.

ghost use Rattle.std.specs.Prelude.{◌≡◌, ℕ, ◌≤◌, ◌++◌, All, IfOk, List, [], OnOk, Option, length};
ghost use Rattle.nm_base.specs.declared.limits.TheConstants.{MAX_TIME};
ghost use Rattle.nm_base.specs.declared.record.Record.{Record as TraceRecord};
ghost use Rattle.nm_files.specs.Least.{AreBegun, AreReadBelow};
ghost use Rattle.nm_model.specs.Lists.{IsPrefix};
ghost use Rattle.nm_book.specs.Book.{state_of};
ghost use Rattle.nm_certify.specs.Certify.{HasDoneAll};
ghost use Rattle.nm_certify.specs.Checking.{EndsAs, HasRanAll};

use nm_base::{Packet, PartNo, Record};
use nm_book::channels::partition_of;
use nm_book::laws::records_have_times_of_a_file;
use nm_book::{Book, Ran};
use nm_files::{Difference, LeastChecked, ReadFault};
use nm_forward::NodeState;
use nm_model::replica::what_was_done_stays;
use nm_sim::network::every_topology_is_a_network;
use nm_topology::Topology;
use std::alloc::{AllocError, Global};
use std::io::BufRead;

/// How many events are done at a time. Their records alone are kept.
const STEP_EVENTS: u64 = 4_096;

/// The trace files were read so far, or one of them could not be.
type Checked = Result<(), ReadFault>;

/// They were read to their ends, and the one of this interface is the least that differs, or none
/// does; or one of them could not be read.
pub(crate) type Compared = Result<Option<Difference>, ReadFault>;

/// Does some events more, or all that are left.
fn run_more(alloc: Global, book: &mut Book) -> Ran
    ensures same { book.new ≡ record book.old { events = book.new.events } }
    ensures grows { IsPrefix (state_of book.old).records (state_of book.new).records }
    ensures all { HasRanAll book.new result }
{
    every_topology_is_a_network(book.topology()); // law: `net_of` is a network of the model
    what_was_done_stays::<Packet, NodeState>(); // law: what was recorded stays
    let _events = book.events(); // law: they are before the safe time
    book.run_safe(alloc, STEP_EVENTS)
}

/// Reads on over records, unless a file could not be read before.
fn read_over<B: BufRead + Drop>(
    files: &mut LeastChecked<B>,
    checked: Checked,
    records: &[Record],
) -> Checked
    requires { All (λ r. r.time ≤ MAX_TIME) records.now }
    ensures { (texts : ℕ → Option (List ℕ)) (begun : _) (before : List (TraceRecord (List ℕ)))
        → OnOk checked (AreReadBelow texts B.remaining begun before files.old)
        → OnOk result (AreReadBelow texts B.remaining begun (before ++ records.now) files.new) }
{
    checked?;
    files.put_all(records)
}

/// Runs a book on, hands its new records out and reads on over them.
fn run_on<B: BufRead + Drop>(
    alloc: Global,
    book: &mut Book,
    files: &mut LeastChecked<B>,
    checked: Checked,
) -> (Ran, Checked)
    requires { book.old.handed ≡ length (state_of book.old).records }
    ensures handed { book.new.handed ≡ length (state_of book.new).records }
    ensures same { book.new
        ≡ record book.old { events = book.new.events; handed = book.new.handed } }
    ensures read { (texts : ℕ → Option (List ℕ)) (begun : _)
        → OnOk checked
        (AreReadBelow texts B.remaining begun (state_of book.old).records files.old)
        → OnOk result.1
        (AreReadBelow texts B.remaining begun (state_of book.new).records files.new) }
    ensures all { HasRanAll book.new result.0 }
{
    let ran = run_more(alloc, book);
    records_have_times_of_a_file(book); // law: their times are such as a trace file can say
    let records = book.hand_out_all(Vec::new(alloc));
    (ran, read_over(files, checked, records.as_slice()))
}

/// Runs a book from its start to its end, though a file differs or could not be read.
fn run_beside<B: BufRead + Drop>(
    alloc: Global,
    book: &mut Book,
    files: &mut LeastChecked<B>,
) -> Result<Checked, AllocError>
    requires none { book.old.handed ≡ 0 }
    requires start { (state_of book.old).records ≡ [] }
    ensures same { book.new
        ≡ record book.old { events = book.new.events; handed = book.new.handed } }
    ensures read { (texts : ℕ → Option (List ℕ)) → AreBegun texts B.remaining files.old
        → IfOk result (λ checked. OnOk checked (AreReadBelow texts B.remaining files.old
        (state_of book.new).records files.new)) }
    ensures all { OnOk result (HasDoneAll book.new) }
{
    let mut checked = Ok(());
    for _ in 0..u64::MAX {
        let (ran, after) = run_on(alloc, book, files, checked);
        match ran {
            Ran::All(_) => return Ok(after),
            Ran::Limit(_) => checked = after,
            Ran::Memory(_) => return Err(AllocError),
        }
    }
    Err(AllocError)
}

/// Sees whether something comes behind what was read of the files of a partition's interfaces.
fn finish_own<B: BufRead + Drop>(
    topology: &Topology,
    partition: PartNo,
    files: &mut LeastChecked<B>,
    checked: Checked,
) -> Compared
    ensures { (texts : ℕ → Option (List ℕ)) (begun : _) (records : List (TraceRecord (List ℕ)))
        → AreBegun texts B.remaining begun
        → OnOk checked (AreReadBelow texts B.remaining begun records files.old)
        → EndsAs texts topology.now partition records begun result }
{
    checked?;
    for number in 0..topology.ifaces().len() {
        let iface = topology.iface_number(number);
        if partition_of(topology, iface) == partition {
            files.finish(iface)?;
        }
    }
    Ok(files.difference())
}

/// Runs the book of a partition from its start to its end, and reads the trace files of the
/// partition's interfaces beside its records.
///
/// # Errors
///
/// If memory was refused to the run. What came of the files is the answer, with an error of theirs.
pub(crate) fn check_traces<B: BufRead + Drop>(
    alloc: Global,
    topology: &Topology,
    partition: PartNo,
    book: &mut Book,
    traces: LeastChecked<B>,
) -> Result<Compared, AllocError>
    requires none { book.old.handed ≡ 0 }
    requires start { (state_of book.old).records ≡ [] }
    ensures same { book.new
        ≡ record book.old { events = book.new.events; handed = book.new.handed } }
    ensures ends { (texts : ℕ → Option (List ℕ)) → AreBegun texts B.remaining traces
        → IfOk result (EndsAs texts topology.now partition (state_of book.new).records traces) }
    ensures all { OnOk result (HasDoneAll book.new) }
{
    let mut files = traces;
    let checked = run_beside(alloc, book, &mut files)?;
    Ok(finish_own(topology, partition, &mut files, checked))
}
