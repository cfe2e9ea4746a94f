//! The files of what replicas knew, found in folders.

ghost use Rattle.std.specs.Prelude.{◌≡◌, ◌≤◌, ℕ, None, IfErr, IfOk, IfSome, map, string_bytes};
ghost use Rattle.std.specs.Io.Buffered.{reader_remaining};
ghost use Rattle.nm_base.specs.declared.limits.TheConstants.{MAX_REPLICA};
ghost use Rattle.nm_known.specs.Keeping.{known_name};
ghost use Rattle.nm_offline.specs.Finding.{AllFound, IsFound, IsFoundIn, IsLeastIn};
ghost use Rattle.nm_offline.specs.Finding.{IsNotFound, NoneIsFound};
ghost use Rattle.nm_offline.specs.Input.{inputs_seen};

use crate::input::NamedInputs;
use crate::inputs::Inputs;
use nm_base::PartNo;
use nm_certify::{CertifyCause, CertifyFault, unread};
use nm_files::checked_file::read_fault;
use nm_known::known_name;
use nm_rounds::CertFault;
use nm_topology::Topology;
use std::alloc::Global;
use std::io::{self, BufReader};

/// A file of what a replica of a partition knew, and its folder.
#[derive(Drop)]
pub(crate) struct Found<'a, B> {
    pub(crate) folder: &'a str,
    pub(crate) replica: u8,
    pub(crate) known: B,
}

/// The file of what a replica of a partition knew, if a folder has it.
fn find_one<'a, I: Inputs>(
    alloc: Global,
    inputs: &NamedInputs<I>,
    folder: &'a str,
    partition: PartNo,
    replica: u8,
) -> io::Result<Option<Found<'a, BufReader<I::File>>>>
    ensures found { IfOk result (λ found. IfSome found (λ f. IsFoundIn
        (reader_remaining I.File.remaining) (inputs_seen I.seen inputs.now) folder.entry.now
        partition replica f)) }
    ensures none { IfOk result (λ found. found ≡ None
        → (inputs_seen I.seen inputs.now).text (known_name folder.entry.now partition replica)
        ≡ None) }
{
    let name = known_name(alloc, folder, partition, replica)?;
    match inputs.open_if_there(alloc, name.as_str())? {
        Some(known) => Ok(Some(Found {
            folder,
            replica,
            known,
        })),
        None => Ok(None),
    }
}

/// The file of what one of the replicas of a partition knew, if a folder has one: of the first
/// replica, or else of the second.
fn find_in<'a, I: Inputs>(
    alloc: Global,
    inputs: &NamedInputs<I>,
    folder: &'a str,
    partition: PartNo,
) -> io::Result<Option<Found<'a, BufReader<I::File>>>>
    ensures found { IfOk result (λ found. IfSome found (IsLeastIn
        (reader_remaining I.File.remaining) (inputs_seen I.seen inputs.now) folder.entry.now
        partition)) }
    ensures none { IfOk result (λ found. found ≡ None → (replica : ℕ) → replica ≤ MAX_REPLICA
        → (inputs_seen I.seen inputs.now).text (known_name folder.entry.now partition replica)
        ≡ None) }
{
    if let Some(first) = find_one(alloc, inputs, folder, partition, 0)? {
        return Ok(Some(first));
    }
    find_one(alloc, inputs, folder, partition, 1)
}

/// The file of what one of the replicas of a partition knew: that of the first folder that has one.
///
/// # Errors
///
/// `NotCertified` if no folder has one: the partition has no book. `Failed` if one that is there
/// could not be opened, `Memory` if memory was refused.
fn find_part<'a, I: Inputs>(
    alloc: Global,
    inputs: &NamedInputs<I>,
    folders: &'a [String],
    partition: PartNo,
) -> Result<Found<'a, BufReader<I::File>>, CertifyFault>
    ensures found { IfOk result (IsFound (reader_remaining I.File.remaining)
        (inputs_seen I.seen inputs.now) (map (λ f. string_bytes f) folders.entry.now)
        partition) }
    ensures none { IfErr result (IsNotFound (inputs_seen I.seen inputs.now)
        (map (λ f. string_bytes f) folders.entry.now) partition) }
{
    for number in 0..folders.len() {
        match find_in(alloc, inputs, folders[number].as_str(), partition) {
            Ok(Some(found)) => return Ok(found),
            Ok(None) => {}
            Err(error) => return Err(unread(&read_fault(&error))),
        }
    }
    Err(CertifyFault::Refused(CertifyCause::NotCertified(CertFault::Missing { partition })))
}

/// Those of all partitions, in order.
///
/// # Errors
///
/// That of the least partition that has one.
pub(crate) fn find_all<'a, I: Inputs>(
    alloc: Global,
    inputs: &NamedInputs<I>,
    folders: &'a [String],
    topology: &Topology,
) -> Result<Vec<Found<'a, BufReader<I::File>>>, CertifyFault>
    ensures found { IfOk result (λ all. AllFound (reader_remaining I.File.remaining)
        (inputs_seen I.seen inputs.now) (map (λ f. string_bytes f) folders.entry.now)
        topology.now.partitions all.items) }
    ensures none { IfErr result (NoneIsFound (inputs_seen I.seen inputs.now)
        (map (λ f. string_bytes f) folders.entry.now) topology.now.partitions) }
{
    let mut all = Vec::new(alloc);
    for partition in 0..topology.partitions() {
        all.push(find_part(alloc, inputs, folders, PartNo::new(partition))?)?;
    }
    Ok(all)
}
