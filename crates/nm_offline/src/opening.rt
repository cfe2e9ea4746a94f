//! Existing trace files of a folder, each opened and its header read.

ghost use Rattle.std.specs.Prelude.{◌≡◌, ◌<◌, ◌++◌, ◌∷◌, ℕ, List, [], Some, IfErr, OnErr, OnOk};
ghost use Rattle.std.specs.Prelude.{Option, length, slice_get, true};
ghost use Rattle.std.specs.Io.Buffered.{reader_remaining};
ghost use Rattle.nm_base.specs.declared.fault.Fault.TheVariants.{Refused};
ghost use Rattle.nm_files.specs.Checked.{DiffersIn, HaveRead, looked_at};
ghost use Rattle.nm_files.specs.Names.{file_name};
ghost use Rattle.nm_files.specs.declared.checked_file.CheckCause.TheVariants.{Differs};
ghost use Rattle.nm_offline.specs.Input.{inputs_seen};
ghost use Rattle.nm_pcap.specs.Format.{file_header};
ghost use Rattle.nm_topology.specs.PartValues.{IfaceValue};

use crate::input::NamedInputs;
use crate::inputs::Inputs;
use nm_files::checked_file::check_fault;
use nm_files::names::name_of;
use nm_files::{CheckFault, CheckedFiles, Choice, Folder};
use std::alloc::Global;
use std::io::BufReader;

/// Opens the trace file of an interface, if it is chosen, and reads its header.
pub(crate) fn open_one<C: Choice, I: Inputs>(
    alloc: Global,
    folder: &Folder<'_, C>,
    number: usize,
    inputs: &NamedInputs<I>,
    files: &mut CheckedFiles<BufReader<I::File>>,
) -> Result<(), CheckFault>
    // The interface is there, and comes next.
    requires there { number < length folder.now.topology.now.ifaces }
    requires next { number ≡ length files.old.files.items }

    // Its file is looked at if it is chosen.
    ensures looked { (iface : IfaceValue)
        → slice_get folder.now.topology.now.ifaces number ≡ Some iface
        → OnOk result (looked_at files.new.files.items ≡ looked_at files.old.files.items
        ++ C.chooses folder.now.choice folder.now.topology.now number iface ∷ []) }

    // Then it has its header, or differs there, if its text is that of the folder.
    ensures read { (texts : ℕ → Option (List ℕ))
        → ((iface : IfaceValue) → slice_get folder.now.topology.now.ifaces number ≡ Some iface
        → C.chooses folder.now.choice folder.now.topology.now number iface ≡ true
        → texts number
        ≡ (inputs_seen I.seen inputs.now).text (file_name folder.now.name.now iface))
        → HaveRead texts (reader_remaining I.File.remaining) [] files.old.files.items
        → OnOk result
        (HaveRead texts (reader_remaining I.File.remaining) [] files.new.files.items) }
    ensures unlike { (texts : ℕ → Option (List ℕ))
        → ((iface : IfaceValue) → slice_get folder.now.topology.now.ifaces number ≡ Some iface
        → C.chooses folder.now.choice folder.now.topology.now number iface ≡ true
        → texts number
        ≡ (inputs_seen I.seen inputs.now).text (file_name folder.now.name.now iface))
        → IfErr result (λ f. (iface octet : ℕ) → f ≡ Refused (Differs iface octet)
        → (iface ≡ number)
        × ((x : IfaceValue) → slice_get folder.now.topology.now.ifaces number ≡ Some x
        → C.chooses folder.now.choice folder.now.topology.now number x ≡ true)
        × DiffersIn texts number [] file_header octet) }

    // After an error no further file is there.
    ensures kept { OnErr result (files.new.files.items ≡ files.old.files.items) }
{
    let iface = folder.topology.iface_number(number);
    if !folder.choice.chooses(folder.topology, iface) {
        files.skip()?;
        return Ok(());
    }
    let name = name_of(alloc, folder.name, folder.topology.iface(iface))?;
    match inputs.open(alloc, name.as_str()) {
        Ok(reader) => files.open(iface, reader),
        Err(error) => Err(check_fault(&error)),
    }
}
