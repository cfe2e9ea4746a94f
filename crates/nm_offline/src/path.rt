//! The word `path`: the way of a packet from a node to an address.

ghost use Rattle.std.specs.Prelude.{◌≡◌, ◌<◌, IfErr, IfOk, IfSome, Some, length, position};
ghost use Rattle.std.specs.Str.{bytes_eq};
ghost use Rattle.nm_topology.specs.Parse.Forms.{usable_address_of};
ghost use Rattle.nm_offline.specs.Input.{HasTopology, inputs_seen};
ghost use Rattle.nm_offline.specs.Output.{FailsOfInput, SaysOfInput, exchange};
ghost use Rattle.nm_offline.specs.Path.{EndsPath, HasNoEnds, SaysPath, node_named};

use crate::input::NamedInputs;
use crate::inputs::Inputs;
use crate::output::{Output, end};
use crate::reading::read_topology;
use nm_base::{NodeNo, Sink};
use nm_command::{PathArguments, Status};
use nm_packet::Address;
use nm_paths::path_text;
use nm_topology::Topology;
use nm_topology::parse::forms::usable_address_of;
use nm_topology::parts::Node;
use std::alloc::Global;

/// The index of a node of this name.
fn index_of_node(nodes: &[Node], name: &str) -> Option<usize>
    ensures value { result ≡ position (λ n. bytes_eq n.name name.now) nodes.now }
    ensures within { IfSome result (λ n. n < length nodes.now) }
{
    nodes.iter().position(|node| node.name() == name)
}

/// The node of this name.
fn find_node(topology: &Topology, name: &str) -> Option<NodeNo>
    ensures { result ≡ node_named topology.now.nodes name.now }
{
    let index = index_of_node(topology.nodes(), name)?;
    Some(topology.node_number(index))
}

/// The topology in the input of a name, its node of a name, and an address.
fn read_ends<I: Inputs>(
    alloc: Global,
    words: &PathArguments<'_>,
    inputs: &mut NamedInputs<I>,
) -> Result<(Topology, NodeNo, Address), Status>
    ensures there { IfOk result (λ there. HasTopology (inputs_seen I.seen inputs.old)
        words.now.topology.now there.0
        × (node_named there.0.nodes words.now.node.now ≡ Some there.1)
        × (usable_address_of words.now.address.now ≡ Some there.2)) }
    ensures fault { IfErr result (λ status. FailsOfInput
        (inputs_seen I.seen inputs.old) (inputs_seen I.seen inputs.new) words.now.topology.now
        (HasNoEnds words.now.node.now words.now.address.now) status) }
{
    let network = read_topology(alloc, inputs, words.topology)?;
    let from = find_node(&network, words.node).ok_or(Status::Usage)?;
    let to = usable_address_of(words.address.as_bytes()).ok_or(Status::Usage)?;
    Ok((network, from, to))
}

/// The way from a node to an address.
fn path_said<I: Inputs>(
    alloc: Global,
    words: &PathArguments<'_>,
    inputs: &mut NamedInputs<I>,
) -> Result<Output, Status>
    ensures said { IfOk result (λ output. SaysOfInput (inputs_seen I.seen inputs.old)
        words.now.topology.now
        (SaysPath words.now.node.now words.now.address.now) output.status output.text.items) }
    ensures fault { IfErr result (λ status. FailsOfInput
        (inputs_seen I.seen inputs.old) (inputs_seen I.seen inputs.new) words.now.topology.now
        (HasNoEnds words.now.node.now words.now.address.now) status) }
{
    let (network, from, to) = read_ends(alloc, words, inputs)?;
    Output::of(path_text(alloc, &network, from, to), Status::Done)
}

/// Prints the way from a node to an address.
pub fn say_path<I: Inputs, O: Sink + Drop>(
    alloc: Global,
    words: &PathArguments<'_>,
    inputs: &mut NamedInputs<I>,
    out: O,
) -> (Status, O)
    ensures { EndsPath (exchange I.seen O.seen inputs.old out)
        (exchange I.seen O.seen inputs.new result.1)
        words.now.topology.now words.now.node.now words.now.address.now result.0 }
{
    end(path_said(alloc, words, inputs), out)
}
