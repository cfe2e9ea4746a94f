//! Trace files to make or read, by the names of their interfaces.

ghost use Rattle.std.specs.Prelude.{◌≡◌, None, Some, All, IfErr, OnOk, map, position, string_bytes};
ghost use Rattle.std.specs.Str.{bytes_eq};
ghost use Rattle.nm_command.specs.declared.status.Status.TheVariants.{NoInterface};
ghost use Rattle.nm_offline.specs.All.{is_asked_for};
ghost use Rattle.nm_offline.specs.Traces.{iface_named};

use crate::traces::named_iface;
use nm_base::IfaceNo;
use nm_command::Status;
use nm_files::Choice;
use nm_topology::Topology;
use nm_topology::parts::Iface;

/// The interfaces of these names, or all if there are none.
#[derive(Clone, Copy)]
pub(crate) struct Asked<'a> {
    pub names: &'a [String],
}

impl Choice for Asked<'_> {
    ghost use Rattle.std.specs.Prelude.{map, string_bytes};
    ghost use Rattle.nm_offline.specs.All.{is_asked_for};

    ghost chooses = { λ a t n iface.
        is_asked_for (map (λ name. string_bytes name) a.names.now) iface };

    fn chooses(&self, topology: &Topology, iface: IfaceNo) -> bool {
        is_asked_for(self.names, topology.iface(iface))
    }
}

/// The index of an interface's name among these.
fn place_of(names: &[String], iface: &Iface) -> Option<usize>
    ensures { result ≡ position (λ n. bytes_eq (string_bytes n) iface.now.name) names.now }
{
    names.iter().position(|name| name.as_str() == iface.name())
}

/// Whether an interface's trace file is asked for.
pub(crate) fn is_asked_for(names: &[String], iface: &Iface) -> bool
    ensures { result ≡ is_asked_for (map (λ n. string_bytes n) names.now) iface.now }
{
    names.is_empty() || place_of(names, iface).is_some()
}

/// Whether each name is that of an interface.
pub(crate) fn find_ifaces(network: &Topology, names: &[String]) -> Result<(), Status>
    ensures found { OnOk result (All
        (λ name. iface_named network.now.ifaces (Some name) ≡ None → ⊥)
        (map (λ n. string_bytes n) names.now)) }
    ensures none { IfErr result (λ status. (status ≡ NoInterface) × (All
        (λ name. iface_named network.now.ifaces (Some name) ≡ None → ⊥)
        (map (λ n. string_bytes n) names.now) → ⊥)) }
{
    for name in names {
        if named_iface(network, name.as_str()).is_none() {
            return Err(Status::NoInterface);
        }
    }
    Ok(())
}
