//! The files of partitions: what one of its replicas knew, and the trace files beside it.

ghost use Rattle.std.specs.Prelude.{◌≡◌, ℕ, List, IfOk, Option, length, map};
ghost use Rattle.std.specs.Io.Buffered.{reader_remaining};
ghost use Rattle.nm_offline.specs.Certify.{trace_texts};
ghost use Rattle.nm_offline.specs.Finding.{AreOpened, AreOwnTexts, AreTracesOf, found_place};
ghost use Rattle.nm_offline.specs.Input.{inputs_seen};

use crate::finding::Found;
use crate::input::NamedInputs;
use crate::inputs::Inputs;
use crate::opening::open_one;
use nm_base::PartNo;
use nm_certify::PartFiles;
use nm_files::least_checked::found_difference;
use nm_files::{CheckedFiles, Folder, LeastChecked, ReadFault};
use nm_known::OfPartition;
use nm_topology::Topology;
use nm_topology::topology::accepted_topologies_are_in_order;
use std::alloc::Global;
use std::io::BufReader;

/// Opens the trace files of a partition's interfaces in a folder, and reads their headers, up to
/// the first that differs: none after it can be that of the least interface.
///
/// # Errors
///
/// That of the first that could not be opened or read.
fn open_traces<I: Inputs>(
    alloc: Global,
    folder: &Folder<'_, OfPartition>,
    inputs: &NamedInputs<I>,
) -> Result<LeastChecked<BufReader<I::File>>, ReadFault>
    ensures { (texts : ℕ → Option (List ℕ))
        → AreOwnTexts (inputs_seen I.seen inputs.now) folder.now.name.now
        folder.now.topology.now folder.now.choice.partition texts
        → IfOk result (AreTracesOf (reader_remaining I.File.remaining) texts
        folder.now.topology.now folder.now.choice.partition) }
{
    let mut files = CheckedFiles::new(alloc);
    for number in 0..folder.topology.ifaces().len() {
        if let Err(fault) = open_one(alloc, folder, number, inputs, &mut files) {
            let found = found_difference(&fault)?;
            return Ok(LeastChecked::new(files, Some(found)));
        }
    }
    Ok(LeastChecked::new(files, None))
}

/// Opens the trace files of the interfaces of all partitions, each in the folder of its file of
/// what is known, and reads their headers.
///
/// # Errors
///
/// That of the first that could not be opened or read, in the least partition.
pub(crate) fn open_parts<I: Inputs>(
    alloc: Global,
    topology: &Topology,
    inputs: &NamedInputs<I>,
    found: Vec<Found<'_, BufReader<I::File>>>,
) -> Result<Vec<PartFiles<BufReader<I::File>>>, ReadFault>
    requires { length found.items ≡ topology.now.partitions }
    ensures opened { IfOk result (λ parts. AreOpened (reader_remaining I.File.remaining)
        (trace_texts (inputs_seen I.seen inputs.now) topology.now
        (map found_place found.entry.items)) topology.now found.entry.items parts.items) }
{
    accepted_topologies_are_in_order(topology); // law: there are few partitions
    let mut parts = Vec::new(alloc);
    let mut number = 0;
    for Found {
        folder,
        replica,
        known,
    } in found {
        let folder = Folder {
            topology,
            name: folder,
            choice: OfPartition {
                partition: PartNo::new(number),
            },
        };
        let traces = open_traces(alloc, &folder, inputs)?;
        parts.push(PartFiles {
            replica,
            known,
            traces,
        })?;
        number += 1;
    }
    Ok(parts)
}
