//! What the inputs of `node` have.

ghost use Rattle.std.specs.Prelude.{◌≡◌, IfErr, IfOk, Ok};
ghost use Rattle.std.specs.Arc.{arc_value};
ghost use Rattle.nm_peers.specs.Listeners.{AreListeners};
ghost use Rattle.nm_program.specs.Node.{HasListeners, IsNotServed, node_asked};
ghost use Rattle.nm_topology.specs.Topology.{topology_of};
ghost use Rattle.nm_offline.specs.Input.{inputs_seen};
ghost use Rattle.nm_offline.specs.Output.{FailsOfInputs};

pub(crate) use nm_command::NodeArguments;
use nm_command::Status;
use nm_offline::input::NamedInputs;
use nm_offline::inputs::Inputs;
use nm_offline::reading::{read_network, read_text, share};
use nm_peers::{Listener, ListenersFault, read_listeners};
use nm_topology::Topology;
use std::alloc::Global;
use std::sync::Arc;

/// The topology and the listeners of two texts.
fn read_texts(
    alloc: Global,
    topology: &[u8],
    addresses: &[u8],
    words: &NodeArguments<'_>,
) -> Result<(Arc<Topology>, Vec<Listener>), Status>
    ensures read { IfOk result (λ r. (topology_of topology.now ≡ Ok (arc_value r.0))
        × AreListeners addresses.now (arc_value r.0).partitions
        words.now.partition words.now.replica r.1.items) }
    ensures fault { IfErr result (λ status. IsNotServed
        words.now.partition words.now.replica topology.now addresses.now status) }
{
    let network = read_network(alloc, topology)?;
    let count = network.partitions();
    match read_listeners(alloc, addresses, count, words.partition, words.replica) {
        Ok(listeners) => Ok((share(alloc, network)?, listeners)),
        Err(ListenersFault::Refused(_)) => Err(Status::Usage),
        Err(ListenersFault::Memory) => Err(Status::Memory),
    }
}

/// The topology and the listeners of the two inputs.
pub(crate) fn read_both<I: Inputs>(
    alloc: Global,
    inputs: &mut NamedInputs<I>,
    words: &NodeArguments<'_>,
) -> Result<(Arc<Topology>, Vec<Listener>), Status>
    ensures read { IfOk result (λ r. HasListeners (inputs_seen I.seen inputs.old)
        (node_asked words.now) (arc_value r.0) r.1.items) }
    ensures fault { IfErr result (λ status. FailsOfInputs
        (inputs_seen I.seen inputs.old) (inputs_seen I.seen inputs.new)
        words.now.topology.now words.now.addresses.now
        (IsNotServed words.now.partition words.now.replica) status) }
{
    let topology = read_text(alloc, inputs, words.topology)?;
    let addresses = read_text(alloc, inputs, words.addresses)?;
    read_texts(alloc, topology.as_slice(), addresses.as_slice(), words)
}
