//! The trace file of one interface, written on.

ghost use Rattle.std.specs.Prelude.{◌≡◌, ◌≤◌, ◌∷◌, [], false};
ghost use Rattle.nm_base.specs.declared.limits.TheConstants.{MAX_TIME};
ghost use Rattle.nm_files.specs.TraceFile.{written_at};
ghost use Rattle.nm_files.specs.Writing.{WritesOn, sink_outcome};

use nm_base::{Fault, IfaceNo, Record, Sink, SinkFault};
use nm_pcap::{PcapFault, PcapOut};

/// Why a trace file was not written to its end: its sink failed, or memory was refused. The sink
/// took a prefix of the file, and did not fail if memory was refused.
pub type TraceFault = Fault<SinkFault>;

/// Writes a record if it is at the interface.
pub fn write_at<S: Sink>(
    iface: IfaceNo,
    record: &Record,
    file: &mut PcapOut<S>,
) -> Result<(), TraceFault>
    requires time { «record».now.time ≤ MAX_TIME }
    requires sound { file.old.failed ≡ false }
    ensures { WritesOn S.seen file.old file.new result
        (written_at file.old.form iface («record».now ∷ [])) }
{
    if record.iface != iface {
        return Ok(());
    }
    sink_outcome(file.put(record))
}

/// What a fault of a trace file is to the program.
pub fn sink_outcome(outcome: Result<(), PcapFault>) -> Result<(), TraceFault>
    ensures { result ≡ sink_outcome outcome }
{
    match outcome {
        Ok(()) => Ok(()),
        Err(_) => Err(TraceFault::Refused(SinkFault)),
    }
}
