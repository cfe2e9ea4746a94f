//! The records of a replica, written to its trace files while it runs.

ghost use Rattle.std.specs.Prelude.{◌*◌, ◌≡◌, ◌≤◌, ◌⊎◌, IfErr, IfOk, OnOk, false, nat_le, nat_lt};
ghost use Rattle.std.specs.Prelude.{true};
ghost use Rattle.nm_replica.specs.Recording.{Streamed, Streams, WasEmptied, Wrote};
ghost use Rattle.nm_replica.specs.Recording.{WroteAsCounted};
ghost use Rattle.nm_replica.specs.Served.{EndsEarly, WasFinished};
ghost use Rattle.nm_replica.specs.declared.served.Served.TheVariants.{Net};

use crate::acts::{HandOutSome, HandedOut, Standing};
use crate::limits::{MAX_HAND_OUTS, MAX_HANDED};
use crate::replica::{Holdings, Service};
use crate::served::{Served, file_served};
use nm_base::Sink;
use nm_files::{FilesFault, TraceFiles};
use nm_shared::{Counts, Pass};
use std::alloc::Global;
use std::sync::Wait;

/// The result of writing records.
#[derive(Clone, Copy)]
pub(crate) struct Recorded {
    /// How many records were written.
    pub written: u64,
    /// There may be more.
    pub has_more: bool,
    /// The book is done, and the last of its records was among them.
    pub is_last: bool,
}

/// Hands records out under the lock, and writes them outside it.
fn write_some<C: Counts, S: Sink, R: Wait>(
    rt: &R,
    alloc: Global,
    service: &Service<'_, C>,
    pass: &mut Pass<C>,
    files: &mut TraceFiles<S>,
) -> Result<Recorded, FilesFault>
    ensures wrote { IfOk result (λ r. Wrote S.seen C.exact C.home r.written
        files.old.files.items files.new.files.items) }
    ensures so_far { IfErr result (λ _. Streamed S.seen C.exact C.home
        files.old.files.items files.new.files.items) }
    ensures last { IfOk result (λ r. r.is_last ≡ true → WasFinished C.exact C.home false) }
    ensures all { IfOk result (λ r. r.has_more ≡ false → WasEmptied C.exact C.home) }
    ensures more { IfOk result (λ r. r.has_more ≡ nat_le MAX_HANDED r.written) }
{
    let room = Vec::with_capacity(alloc, MAX_HANDED)?;
    let HandedOut { records, is_last } = service.book.act(rt, pass, HandOutSome { room });
    files.put_all(records.as_slice())?;
    Ok(Recorded {
        written: records.len() as u64,
        has_more: records.len() >= MAX_HANDED,
        is_last,
    })
}

/// Takes the records out of the book, unless it is to keep them, and writes those of interfaces
/// with trace files.
///
/// # Errors
///
/// `File` if a file failed. `Memory` if memory was refused; no record is lost then.
pub(crate) fn write_records<C: Counts, S: Sink, R: Wait>(
    rt: &R,
    alloc: Global,
    service: &Service<'_, C>,
    pass: &mut Pass<C>,
    files: &mut TraceFiles<S>,
    is_left: bool,
) -> Result<Recorded, FilesFault>
    ensures keeps { service.now.keeps_records ≡ true
        → IfOk result (λ r. (r.written ≡ 0) × (r.has_more ≡ false) × (r.is_last ≡ false)) }
    ensures streams { OnOk result (Streams S.seen C.exact C.home
        files.old.files.items files.new.files.items) }
    ensures wrote { IfOk result (λ r. WroteAsCounted S.seen C.exact C.home r.written
        files.old.files.items files.new.files.items) }
    ensures so_far { IfErr result (λ _. Streamed S.seen C.exact C.home
        files.old.files.items files.new.files.items) }
    ensures last { IfOk result (λ r. r.is_last ≡ true → WasFinished C.exact C.home false) }
    ensures all { IfOk result (λ r. r.has_more ≡ false
        → (service.now.keeps_records ≡ true) ⊎ (is_left ≡ false) ⊎ WasEmptied C.exact C.home) }
    ensures more { IfOk result
        (λ r. r.has_more ≡ true → MAX_HAND_OUTS * MAX_HANDED ≤ r.written) }
{
    let mut all = Recorded {
        written: 0,
        has_more: false,
        is_last: false,
    };
    if service.keeps_records || !is_left {
        return Ok(all);
    }
    for turn in 0..MAX_HAND_OUTS {
        let some = write_some(rt, alloc, service, pass, files)?;
        all.written = all.written.saturating_add(some.written);
        all.has_more = some.has_more;
        all.is_last = some.is_last;
        if !some.has_more {
            return Ok(all);
        }
    }
    Ok(all)
}

/// Writes the records that were left when the state of the book was read. A replica that is done
/// makes no more records: those that it has are written now.
///
/// # Errors
///
/// How serving ends, if a file failed or memory was refused.
pub(crate) fn record<C: Counts, S: Sink, R: Wait>(
    rt: &R,
    alloc: Global,
    service: &Service<'_, C>,
    holdings: &mut Holdings<'_, C, S>,
    standing: &Standing,
) -> Result<Recorded, Served>
    ensures streams { OnOk result (Streams S.seen C.exact C.home
        holdings.old.files.files.items holdings.new.files.files.items) }
    ensures wrote { IfOk result (λ r. WroteAsCounted S.seen C.exact C.home r.written
        holdings.old.files.files.items holdings.new.files.files.items) }
    ensures so_far { IfErr result (λ _. Streamed S.seen C.exact C.home
        holdings.old.files.files.items holdings.new.files.files.items) }
    ensures net { IfErr result (λ s. s ≡ Net → Streams S.seen C.exact C.home
        holdings.old.files.files.items holdings.new.files.files.items) }
    ensures last { IfOk result (λ r. r.is_last ≡ true → WasFinished C.exact C.home false) }
    ensures all { IfOk result (λ r. r.has_more ≡ false → (service.now.keeps_records ≡ true)
        ⊎ (nat_lt standing.now.handed standing.now.records ≡ false)
        ⊎ WasEmptied C.exact C.home) }
    ensures more { IfOk result
        (λ r. r.has_more ≡ true → MAX_HAND_OUTS * MAX_HANDED ≤ r.written) }
    ensures early { IfErr result EndsEarly }
    ensures seats { holdings.new.seats ≡ holdings.old.seats }
    ensures passes { holdings.new.passes ≡ holdings.old.passes }
{
    let is_left = standing.records > standing.handed;
    match write_records(
        rt,
        alloc,
        service,
        &mut holdings.pass,
        &mut holdings.files,
        is_left,
    ) {
        Ok(recorded) => Ok(recorded),
        Err(fault) => Err(file_served(fault)),
    }
}
