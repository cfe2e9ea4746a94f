//! What the inputs of a command have.

ghost use Rattle.std.specs.Prelude.{◌≡◌, IfErr, IfOk, Ok};
ghost use Rattle.std.specs.Arc.{arc_value};
ghost use Rattle.nm_command.specs.declared.status.Status.TheVariants.{Memory};
ghost use Rattle.nm_topology.specs.Topology.{topology_of};
ghost use Rattle.nm_offline.specs.Input.{HasTopology, IsInput, IsRefused, IsUnread, inputs_seen};
ghost use Rattle.nm_offline.specs.Output.{FailsOfInput};

use crate::input::{InputFault, NamedInputs};
use crate::inputs::Inputs;
use nm_command::Status;
use nm_topology::{TopoFault, Topology};
use std::alloc::Global;
use std::sync::Arc;

/// The text of the input of a name.
pub fn read_text<I: Inputs>(
    alloc: Global,
    inputs: &mut NamedInputs<I>,
    name: &str,
) -> Result<Vec<u8>, Status>
    ensures text { IfOk result (λ text. IsInput
        ((inputs_seen I.seen inputs.old).text name.now) text.items) }
    ensures fault { IfErr result (λ status. IsUnread
        (inputs_seen I.seen inputs.old) (inputs_seen I.seen inputs.new) name.now status) }
    ensures kept { IfOk result (λ _. inputs.new.failures ≡ inputs.old.failures) }
    ensures same { inputs.new.inputs ≡ inputs.old.inputs }
{
    match inputs.read(alloc, name) {
        Ok(text) => Ok(text),
        Err(InputFault::Failed | InputFault::TooLong) => Err(Status::File),
        Err(InputFault::Memory) => Err(Status::Memory),
    }
}

/// The topology of a text.
pub fn read_network(alloc: Global, text: &[u8]) -> Result<Topology, Status>
    ensures network { IfOk result (λ network. topology_of text.now ≡ Ok network) }
    ensures refused { IfErr result (λ status. IsRefused text.now status) }
{
    match Topology::read(alloc, text) {
        Ok(topology) => Ok(topology),
        Err(TopoFault::Refused(refusal)) => Err(Status::Topology(refusal)),
        Err(TopoFault::Memory) => Err(Status::Memory),
    }
}

/// The topology in the input of a name. The text is dropped.
pub fn read_topology<I: Inputs>(
    alloc: Global,
    inputs: &mut NamedInputs<I>,
    name: &str,
) -> Result<Topology, Status>
    ensures network { IfOk result (λ network. HasTopology (inputs_seen I.seen inputs.old)
        name.now network) }
    ensures fault { IfErr result (λ status. FailsOfInput
        (inputs_seen I.seen inputs.old) (inputs_seen I.seen inputs.new) name.now IsRefused status) }
    ensures kept { IfOk result (λ _. inputs.new ≡ inputs.old) }
{
    let text = read_text(alloc, inputs, name)?;
    read_network(alloc, text.as_slice())
}

/// A topology that several parts of the program share.
pub fn share(alloc: Global, topology: Topology) -> Result<Arc<Topology>, Status>
    ensures same { IfOk result (λ shared. arc_value shared ≡ topology) }
    ensures fault { IfErr result (λ status. status ≡ Memory) }
{
    Ok(Arc::new(alloc, topology)?)
}

/// The topology in the input of a name, as one that several parts of the program share.
pub fn read_shared<I: Inputs>(
    alloc: Global,
    inputs: &mut NamedInputs<I>,
    name: &str,
) -> Result<Arc<Topology>, Status>
    ensures network { IfOk result (λ network. HasTopology (inputs_seen I.seen inputs.old)
        name.now (arc_value network)) }
    ensures fault { IfErr result (λ status. FailsOfInput
        (inputs_seen I.seen inputs.old) (inputs_seen I.seen inputs.new) name.now IsRefused status) }
    ensures kept { IfOk result (λ _. inputs.new ≡ inputs.old) }
{
    share(alloc, read_topology(alloc, inputs, name)?)
}
