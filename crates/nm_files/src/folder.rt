//! A folder of trace files, from their making to their names.

ghost use Rattle.std.specs.Prelude.{◌≡◌, ℕ, ◌<◌, Bool, IfErr, IfOk, List, None, OnOk};
ghost use Rattle.std.specs.Prelude.{get_or, length, map, option_map, slice_get};
ghost use Rattle.nm_files.specs.Files.{HoldsFile, HoldsFiles};
ghost use Rattle.nm_files.specs.Folder.{HasOpened, IsClosedAs, IsOfIface, IsOwnFault};
ghost use Rattle.nm_files.specs.Folder.{chosen_files};
ghost use Rattle.nm_files.specs.Names.{file_name};
ghost use Rattle.nm_files.specs.Outputs.{AreWhole};
ghost use Rattle.nm_pcap.specs.Format.{file_header};
ghost use Rattle.nm_topology.specs.PartValues.{IfaceValue};

use crate::closed_files::{ClosedFile, ClosedFiles};
use crate::names::name_of;
use crate::outputs::Outputs;
use crate::trace_files::{FileFault, FilesFault, TraceFiles, files_fault};
use nm_base::IfaceNo;
use nm_topology::Topology;
use std::alloc::Global;

/// Which interfaces of a network are to have a trace file.
pub trait Choice {
    ghost use Rattle.std.specs.Prelude.{◌≡◌, ℕ, ◌<◌, Bool, Some, length, slice_get};
    ghost use Rattle.nm_topology.specs.PartValues.{IfaceValue};
    ghost use Rattle.nm_topology.specs.TopologyValue.{TopologyValue};

    // Whether an interface of a topology, which has this number, is.
    ghost chooses: { Self → TopologyValue → ℕ → IfaceValue → Bool };

    /// Whether an interface is.
    fn chooses(&self, topology: &Topology, iface: IfaceNo) -> bool
        requires { iface < length topology.now.ifaces }
        ensures { (x : IfaceValue) → slice_get topology.now.ifaces iface ≡ Some x
            → result ≡ chooses self.now topology.now iface x };
}

/// The folder of a network's trace files, and which interfaces have one there.
#[derive(Clone, Copy)]
pub struct Folder<'a, C> {
    pub topology: &'a Topology,
    /// Its name. That of a file is this one, a slash and its own.
    pub name: &'a str,
    pub choice: C,
}

impl<'a, C: Choice> Folder<'a, C> {
    /// Makes the trace file of an interface, with its header, if it is to have one.
    fn open_one<F: Outputs>(
        &self,
        alloc: Global,
        number: usize,
        outputs: &mut F,
        files: &mut TraceFiles<F::File>,
    ) -> Result<(), FilesFault>
        requires { number < length self.now.topology.now.ifaces }
        ensures opened { (x : IfaceValue) → slice_get self.now.topology.now.ifaces number ≡ Some x
            → OnOk result (HasOpened F.File.seen (F.made outputs.old)
            (C.chooses self.now.choice self.now.topology.now number x)
            files.old.files.items files.new.files.items) }
        ensures told { IfErr result (IsOfIface number) }
        ensures same { F.made outputs.new ≡ F.made outputs.old }
    {
        let iface = self.topology.iface_number(number);
        if !self.choice.chooses(self.topology, iface) {
            return Ok(files.skip()?);
        }
        let name = name_of(alloc, self.name, self.topology.iface(iface))?;
        match outputs.create(name.as_str()) {
            Ok(sink) => files.open(iface, sink),
            Err(fault) => Err(files_fault(fault, FileFault { iface, written: 0 })),
        }
    }

    /// Makes the trace files, in the order of the topology's text, each with its header.
    ///
    /// # Errors
    ///
    /// `Refused` with the first that could not be made, or its header not written; `Memory` if
    /// memory was refused. The files are dropped, and none gets its name.
    pub fn open<F: Outputs>(
        &self,
        alloc: Global,
        outputs: &mut F,
    ) -> Result<TraceFiles<F::File>, FilesFault>
        ensures holds { IfOk result (λ files. HoldsFiles F.File.seen (F.made outputs.old)
            (C.chooses self.now.choice self.now.topology.now) self.now.topology.now.ifaces
            (λ n. file_header) files.files.items) }
        ensures count { IfOk result
            (λ files. length files.files.items ≡ length self.now.topology.now.ifaces) }
        ensures told { IfErr result (λ fault. (n : ℕ)
            × (n < length self.now.topology.now.ifaces) × IsOfIface n fault) }
        ensures same { F.made outputs.new ≡ F.made outputs.old }
    {
        let mut files = TraceFiles::new(alloc);
        for number in 0..self.topology.ifaces().len() {
            self.open_one(alloc, number, outputs, &mut files)?;
        }
        Ok(files)
    }

    /// Closes the trace file of an interface, if it has one.
    fn close_one<F: Outputs>(
        &self,
        alloc: Global,
        number: usize,
        outputs: &mut F,
        files: &mut TraceFiles<F::File>,
    ) -> Result<Option<ClosedFile<F::Closed>>, FilesFault>
        requires { number < length self.now.topology.now.ifaces }
        ensures closed { (x : IfaceValue) (chosen : Bool) (octets : List ℕ)
            → slice_get self.now.topology.now.ifaces number ≡ Some x
            → HoldsFile F.File.seen (F.made outputs.old) chosen octets
            (get_or files.old.files.items number None)
            → IfOk result (λ o. IsClosedAs (F.made outputs.old) chosen
            (file_name self.now.name.now x, octets) (option_map (λ c. F.closed c.file) o)) }
        ensures others { (n : ℕ) → number < n → get_or files.new.files.items n None
            ≡ get_or files.old.files.items n None }
        ensures told { IfErr result (IsOwnFault number
            (get_or files.old.files.items number None)) }
        ensures same { F.made outputs.new ≡ F.made outputs.old }
    {
        let iface = self.topology.iface_number(number);
        let Some(file) = files.take(iface) else {
            return Ok(None);
        };
        let written = file.written_octets();
        let name = name_of(alloc, self.name, self.topology.iface(iface))?;
        match outputs.close(name.as_str(), file.into_sink()) {
            Ok(file) => Ok(Some(ClosedFile {
                iface,
                written,
                file,
            })),
            Err(fault) => Err(files_fault(fault, FileFault { iface, written })),
        }
    }

    /// Closes the trace files, in the order of the topology's text.
    ///
    /// # Errors
    ///
    /// `Refused` with the first that could not be closed, and how many octets it has; `Memory` if
    /// memory was refused. All are dropped, and none gets its name.
    pub fn close<F: Outputs>(
        &self,
        alloc: Global,
        outputs: &mut F,
        files: TraceFiles<F::File>,
    ) -> Result<ClosedFiles<F::Closed>, FilesFault>
        requires { length files.files.items ≡ length self.now.topology.now.ifaces }
        ensures whole { (octets : ℕ → List ℕ)
            → HoldsFiles F.File.seen (F.made outputs.old)
            (C.chooses self.now.choice self.now.topology.now) self.now.topology.now.ifaces octets
            files.files.items
            → IfOk result (λ closed. AreWhole (F.made outputs.old)
            (map (λ c. F.closed c.file) closed.files.items)
            (chosen_files (C.chooses self.now.choice self.now.topology.now) self.now.name.now
            octets self.now.topology.now.ifaces)) }
        ensures told { IfErr result (λ fault. (n : ℕ)
            × IsOwnFault n (get_or files.files.items n None) fault) }
        ensures same { F.made outputs.new ≡ F.made outputs.old }
    {
        let mut files = files;
        let mut all = ClosedFiles::new(alloc);
        for number in 0..self.topology.ifaces().len() {
            let closed = self.close_one(alloc, number, outputs, &mut files)?;
            all.push(closed)?;
        }
        Ok(all)
    }
}
