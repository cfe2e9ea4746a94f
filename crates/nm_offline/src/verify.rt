//! The word `verify`: whether existing trace files have the traces of their interfaces.

ghost use Rattle.std.specs.Prelude.{◌≡◌, ◌⊎◌, ◌<◌, ◌++◌, ◌∷◌, ℕ, List, [], Some, IfErr, IfOk};
ghost use Rattle.std.specs.Prelude.{IfSome, Ok, OnOk, Option, codes, length, map, slice_get};
ghost use Rattle.std.specs.Prelude.{string_bytes, true};
ghost use Rattle.std.specs.Io.Buffered.{reader_remaining};
ghost use Rattle.nm_base.specs.declared.fault.Fault.TheVariants.{Refused};
ghost use Rattle.nm_base.specs.declared.record.Record.{Record as TraceRecord};
ghost use Rattle.nm_base.specs.declared.wanted.Wanted.TheVariants.{All as AllWanted};
ghost use Rattle.nm_events.specs.Held.{pending_of};
ghost use Rattle.nm_files.specs.Checked.{DiffersIn, DiffersInOne, GoesOn, HaveRead, is_looked_at};
ghost use Rattle.nm_files.specs.Checked.{looked_at};
ghost use Rattle.nm_files.specs.declared.checked_file.CheckCause.TheVariants.{Differs};
ghost use Rattle.nm_offline.specs.All.{all_asked, is_asked_for};
ghost use Rattle.nm_offline.specs.Input.{inputs_seen};
ghost use Rattle.nm_offline.specs.Output.{SaysOfInput, exchange};
ghost use Rattle.nm_offline.specs.Verify.{AreNames, DiffersFirst, DiffersInHeader, EndsVerify};
ghost use Rattle.nm_offline.specs.Verify.{FailsVerify, IsNotVerified, IsStatusOf, IsWanted, OfEach};
ghost use Rattle.nm_offline.specs.Verify.{SaysVerified, texts_of, wanted_line, wanted_lines};
ghost use Rattle.arrayvec.specs.ArrayString.{ArrayString};
ghost use Rattle.nm_command.specs.declared.status.Status.TheVariants as status;
ghost use Rattle.nm_command.specs.declared.status.Status.TheVariants.{Memory};
ghost use Rattle.nm_files.specs.TraceFile.{octets_after, trace_file};
ghost use Rattle.nm_pcap.specs.declared.form.Form.TheVariants.{Octets};
ghost use Rattle.nm_topology.specs.Topology.{topology_of};
ghost use Rattle.nm_pcap.specs.Format.{file_header};
ghost use Rattle.nm_sim.specs.Trace.{IsTraceBefore};
ghost use Rattle.nm_sim.specs.Tracing.{IsTracing};
ghost use Rattle.nm_topology.specs.PartValues.{IfaceValue};

use crate::asked::{Asked, find_ifaces};
use crate::input::NamedInputs;
use crate::inputs::Inputs;
use crate::lines::push_iface_line;
use crate::opening::open_one;
use crate::output::{Output, end};
use crate::reading::read_topology;
use crate::trace_file::go_on;
use nm_base::{IfaceNo, Sink, push_text};
use nm_command::status::IfaceName;
use nm_command::{AllArguments, Status};
use nm_files::checked_file::difference;
use nm_files::{CheckFault, CheckedFiles, Folder};
use nm_progress::Progress;
use nm_sim::Tracer;
use nm_sim::trace::every_topology_has_a_trace;
use nm_topology::Topology;
use std::alloc::{AllocError, Global};
use std::io::{BufRead, BufReader};

/// Opens the trace files that are asked for, in the order of the topology's text, and reads their
/// headers.
fn open_all<I: Inputs>(
    alloc: Global,
    folder: &Folder<'_, Asked<'_>>,
    inputs: &NamedInputs<I>,
) -> Result<CheckedFiles<BufReader<I::File>>, CheckFault>
    ensures looked { IfOk result (λ files. looked_at files.files.items
        ≡ map (is_asked_for (map (λ n. string_bytes n) folder.now.choice.names.now))
        folder.now.topology.now.ifaces) }
    ensures read { IfOk result (λ files. HaveRead (texts_of (inputs_seen I.seen inputs.now)
        folder.now.name.now folder.now.topology.now) (reader_remaining I.File.remaining) []
        files.files.items) }
    ensures first { IfErr result (λ f. (own octet : ℕ) → f ≡ Refused (Differs own octet)
        → IsWanted folder.now.topology.now (map (λ n. string_bytes n) folder.now.choice.names.now)
        (texts_of (inputs_seen I.seen inputs.now) folder.now.name.now folder.now.topology.now) own
        × DiffersInHeader folder.now.topology.now
        (map (λ n. string_bytes n) folder.now.choice.names.now)
        (texts_of (inputs_seen I.seen inputs.now) folder.now.name.now folder.now.topology.now)
        own octet) }
{
    let mut files = CheckedFiles::new(alloc);
    for number in 0..folder.topology.ifaces().len() {
        open_one(alloc, folder, number, inputs, &mut files)?;
    }
    Ok(files)
}

/// Runs a network from its start, and reads on in the files of its records' interfaces.
fn check_records<B: BufRead + Drop>(
    alloc: Global,
    network: &Topology,
    tracer: &mut Tracer,
    files: &mut CheckedFiles<B>,
    progress: &Progress,
) -> Result<(), CheckFault>
    requires tracing { IsTracing pending_of network.now tracer.old }
    requires keeping { tracer.old.records.keeping ≡ record { wanted = AllWanted; handed = 0 } }
    requires nothing { tracer.old.records.kept ≡ [] }
    ensures looked { looked_at files.new.files.items ≡ looked_at files.old.files.items }
    ensures read { (texts : ℕ → Option (List ℕ)) (records : List (TraceRecord (List ℕ)))
        → IsTraceBefore network.now network.now.stop records
        → HaveRead texts B.remaining [] files.old.files.items
        → OnOk result (HaveRead texts B.remaining records files.new.files.items) }
    ensures unlike { (texts : ℕ → Option (List ℕ)) (records : List (TraceRecord (List ℕ)))
        → IsTraceBefore network.now network.now.stop records
        → HaveRead texts B.remaining [] files.old.files.items
        → IfErr result (λ f. (own octet : ℕ) → f ≡ Refused (Differs own octet)
        → DiffersInOne texts B.remaining [] records files.old.files.items
        (Refused (Differs own octet))) }
{
    for event in 0..u64::MAX {
        let is_there = go_on(alloc, network, tracer, progress)?;
        if !is_there {
            return Ok(());
        }
        files.put_all(tracer.trace())?;
    }
    Err(CheckFault::Memory)
}

/// Checks that nothing comes after what was read of the files, in the order of the topology's text.
fn finish_all<B: BufRead + Drop>(
    network: &Topology,
    files: &mut CheckedFiles<B>,
) -> Result<(), CheckFault>
    ensures looked { looked_at files.new.files.items ≡ looked_at files.old.files.items }
    ensures read { (texts : ℕ → Option (List ℕ)) (records : List (TraceRecord (List ℕ)))
        → HaveRead texts B.remaining records files.old.files.items
        → HaveRead texts B.remaining records files.new.files.items }
    ensures whole { (texts : ℕ → Option (List ℕ)) (records : List (TraceRecord (List ℕ)))
        → HaveRead texts B.remaining records files.old.files.items
        → OnOk result ((n : ℕ) → n < length network.now.ifaces
        → is_looked_at files.old.files.items n ≡ true
        → IfSome (texts n) (λ text. text ≡ octets_after n records)) }
    ensures longer { (texts : ℕ → Option (List ℕ)) (records : List (TraceRecord (List ℕ)))
        → HaveRead texts B.remaining records files.old.files.items
        → IfErr result (λ f. (own octet : ℕ) → f ≡ Refused (Differs own octet)
        → (is_looked_at files.old.files.items own ≡ true)
        × ((n : ℕ) → n < own → is_looked_at files.old.files.items n ≡ true
        → IfSome (texts n) (λ text. text ≡ octets_after n records))
        × GoesOn texts own (octets_after own records) octet) }
{
    for number in 0..network.ifaces().len() {
        files.finish(network.iface_number(number))?;
    }
    Ok(())
}

/// Reads the trace files that are asked for beside the records of the network, in a folder that has
/// a name.
fn check_files<I: Inputs>(
    alloc: Global,
    folder: &Folder<'_, Asked<'_>>,
    inputs: &NamedInputs<I>,
    progress: &Progress,
) -> Result<CheckedFiles<BufReader<I::File>>, CheckFault>
    requires { 0 < length folder.now.name.now }
    ensures looked { IfOk result (λ files. looked_at files.files.items
        ≡ map (is_asked_for (map (λ n. string_bytes n) folder.now.choice.names.now))
        folder.now.topology.now.ifaces) }
    ensures read { (records : List (TraceRecord (List ℕ)))
        → IsTraceBefore folder.now.topology.now folder.now.topology.now.stop records
        → IfOk result (λ files. HaveRead (texts_of (inputs_seen I.seen inputs.now)
        folder.now.name.now folder.now.topology.now) (reader_remaining I.File.remaining) records
        files.files.items) }
    ensures whole { (records : List (TraceRecord (List ℕ)))
        → IsTraceBefore folder.now.topology.now folder.now.topology.now.stop records
        → OnOk result (OfEach folder.now.topology.now
        (map (λ n. string_bytes n) folder.now.choice.names.now)
        (texts_of (inputs_seen I.seen inputs.now) folder.now.name.now folder.now.topology.now)
        (λ n text. text ≡ trace_file Octets n records)) }
    ensures first { (records : List (TraceRecord (List ℕ)))
        → IsTraceBefore folder.now.topology.now folder.now.topology.now.stop records
        → IfErr result (λ f. (own octet : ℕ) → f ≡ Refused (Differs own octet)
        → IsWanted folder.now.topology.now (map (λ n. string_bytes n) folder.now.choice.names.now)
        (texts_of (inputs_seen I.seen inputs.now) folder.now.name.now folder.now.topology.now) own
        × DiffersFirst folder.now.topology.now
        (map (λ n. string_bytes n) folder.now.choice.names.now)
        (texts_of (inputs_seen I.seen inputs.now) folder.now.name.now folder.now.topology.now)
        records own octet) }
{
    every_topology_has_a_trace(folder.topology); // law: the files are read beside one
    let mut files = open_all(alloc, folder, inputs)?;
    let mut tracer = Tracer::start(alloc, folder.topology)?;
    check_records(alloc, folder.topology, &mut tracer, &mut files, progress)?;
    finish_all(folder.topology, &mut files)?;
    Ok(files)
}

/// Appends the line of an interface, if its file was looked at.
fn push_looked<B: Drop>(
    text: &mut Vec<u8>,
    network: &Topology,
    files: &CheckedFiles<B>,
    number: usize,
) -> Result<(), AllocError>
    requires there { number < length network.now.ifaces }
    ensures { (texts : ℕ → Option (List ℕ)) (left : B → Option (List ℕ)) (names : List (List ℕ))
        (records : List (TraceRecord (List ℕ))) → HaveRead texts left records files.now.files.items
        → looked_at files.now.files.items ≡ map (is_asked_for names) network.now.ifaces
        → (iface : IfaceValue) → slice_get network.now.ifaces number ≡ Some iface
        → OnOk result
        (text.new.items ≡ text.old.items ++ wanted_line names records (number, iface)) }
{
    let iface = network.iface_number(number);
    let Some(file) = files.get(iface) else {
        return Ok(());
    };
    let (records, octets) = file.totals();
    push_iface_line(text, network.iface(iface), records, octets)
}

/// `verified`, and the lines of the interfaces whose files were looked at.
fn verified_text<B: Drop>(
    alloc: Global,
    network: &Topology,
    files: &CheckedFiles<B>,
) -> Result<Vec<u8>, AllocError>
    ensures { (texts : ℕ → Option (List ℕ)) (left : B → Option (List ℕ)) (names : List (List ℕ))
        (records : List (TraceRecord (List ℕ))) → HaveRead texts left records files.now.files.items
        → looked_at files.now.files.items ≡ map (is_asked_for names) network.now.ifaces
        → IfOk result (λ text. text.items
        ≡ codes "verified\n" ++ wanted_lines names records network.now) }
{
    let mut text = Vec::new(alloc);
    push_text(&mut text, b"verified\n")?;
    for number in 0..network.ifaces().len() {
        push_looked(&mut text, network, files, number)?;
    }
    Ok(text)
}

/// The status with which the file of an interface differs at this octet.
pub(crate) fn differs(network: &Topology, iface: IfaceNo, octet: u64) -> Status
    requires { iface < length network.now.ifaces }
    ensures { (x : IfaceValue) → slice_get network.now.ifaces iface ≡ Some x
        → (result ≡ Memory)
        ⊎ ((name : ArrayString) × (result ≡ status.Differs name octet) × (name.bytes ≡ x.name)) }
{
    match IfaceName::from(network.iface(iface).name()) {
        Ok(iface) => Status::Differs { iface, octet },
        Err(_) => Status::Memory, // no topology that is accepted has such a name
    }
}

/// The status of files that are not verified. A failure is counted.
fn status_of<I: Inputs>(
    network: &Topology,
    inputs: &mut NamedInputs<I>,
    fault: &CheckFault,
) -> Status
    requires there { (own octet : ℕ) → fault.now ≡ Refused (Differs own octet)
        → own < length network.now.ifaces }
    ensures { IsStatusOf (inputs_seen I.seen inputs.old) (inputs_seen I.seen inputs.new)
        network.now.ifaces fault.now result }
{
    if let Some(place) = difference(fault) {
        return differs(network, place.0, place.1);
    }
    if matches!(fault, CheckFault::Memory) {
        return Status::Memory;
    }
    inputs.fail();
    Status::File
}

/// Verifies the trace files of interfaces of a network: what to print of them.
fn verify_network<I: Inputs>(
    alloc: Global,
    network: &Topology,
    words: &AllArguments<'_>,
    inputs: &mut NamedInputs<I>,
    progress: &Progress,
) -> Result<Output, Status>
    requires { AreNames (map (λ n. string_bytes n) words.now.ifaces.now) network.now }
    ensures said { (text : List ℕ) → topology_of text ≡ Ok network.now
        → IfOk result (λ output. SaysVerified (inputs_seen I.seen inputs.old) (all_asked words.now)
        text output.status output.text.items) }
    ensures fault { (text : List ℕ) → topology_of text ≡ Ok network.now
        → IfErr result (IsNotVerified (inputs_seen I.seen inputs.old)
        (inputs_seen I.seen inputs.new) (all_asked words.now) text) }
{
    every_topology_has_a_trace(network); // law: there is an answer, whatever the files have
    if words.folder.is_empty() {
        inputs.fail(); // its files would be at the root
        return Err(Status::File);
    }
    progress.begin(network.stop());
    let folder = Folder {
        topology: network,
        name: words.folder,
        choice: Asked {
            names: words.ifaces,
        },
    };
    match check_files(alloc, &folder, inputs, progress) {
        Ok(files) => Output::of(verified_text(alloc, network, &files), Status::Done),
        Err(fault) => Err(status_of(network, inputs, &fault)),
    }
}

/// What to print of the trace files of interfaces of an input's network.
fn verify_said<I: Inputs>(
    alloc: Global,
    words: &AllArguments<'_>,
    inputs: &mut NamedInputs<I>,
    progress: &Progress,
) -> Result<Output, Status>
    ensures said { IfOk result (λ output. SaysOfInput (inputs_seen I.seen inputs.old)
        words.now.topology.now (SaysVerified (inputs_seen I.seen inputs.old) (all_asked words.now))
        output.status output.text.items) }
    ensures fault { IfErr result (FailsVerify (inputs_seen I.seen inputs.old)
        (inputs_seen I.seen inputs.new) (all_asked words.now)) }
{
    let network = read_topology(alloc, inputs, words.topology)?;
    find_ifaces(&network, words.ifaces)?;
    verify_network(alloc, &network, words, inputs, progress)
}

/// Reads the trace files of interfaces in a folder beside one event list: of those that have these
/// names, or of all if there are none. Prints that they are verified, and how many records each
/// has, or where the first differs.
pub fn say_verify<I: Inputs, O: Sink + Drop>(
    alloc: Global,
    words: &AllArguments<'_>,
    inputs: &mut NamedInputs<I>,
    out: O,
    progress: &Progress,
) -> (Status, O)
    ensures { EndsVerify (exchange I.seen O.seen inputs.old out)
        (exchange I.seen O.seen inputs.new result.1) (all_asked words.now) result.0 }
{
    end(verify_said(alloc, words, inputs, progress), out)
}
