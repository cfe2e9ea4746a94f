//! The names of trace files.

ghost use Rattle.std.specs.Prelude.{◌≡◌, IfOk, string_bytes};
ghost use Rattle.nm_files.specs.Names.{file_name};

use nm_topology::parts::Iface;
use std::alloc::{AllocError, Global};

/// The name of the trace file of an interface in a folder.
pub fn name_of(alloc: Global, folder: &str, iface: &Iface) -> Result<String, AllocError>
    ensures { IfOk result (λ name. string_bytes name ≡ file_name folder.now iface.now) }
{
    let mut name = String::new(alloc);
    name.push_str(folder)?;
    name.push_str("/")?;
    name.push_str(iface.name())?;
    name.push_str(".pcap")?;
    Ok(name)
}
