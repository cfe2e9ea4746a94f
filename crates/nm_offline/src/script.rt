//! The word `script`: the steps of a script.

ghost use Rattle.std.specs.Prelude.{IfErr, IfOk};
ghost use Rattle.nm_script.specs.Script.{IsFirstFault, IsScript};
ghost use Rattle.nm_offline.specs.Input.{inputs_seen};
ghost use Rattle.nm_offline.specs.Output.{FailsOfInputs, SaysOfInputs, exchange};
ghost use Rattle.nm_offline.specs.Script.{EndsScript, FailsScript, SaysScript};

use crate::input::NamedInputs;
use crate::inputs::Inputs;
use crate::output::{Output, end};
use crate::reading::{read_network, read_text};
use nm_base::Sink;
use nm_command::Status;
use nm_rounds::replay::replay;
use nm_rounds::{ReplayEnd, ReplayFault, WorldStep};
use nm_script::{ScriptFault, read_script, report_text};
use std::alloc::Global;

/// The status of a script with a bad line. The topology decides before it.
fn bad_line(alloc: Global, topology: &[u8], script: &[u8], line: u64) -> Status
    requires { IsFirstFault script.now line }
    ensures { FailsScript topology.now script.now result }
{
    if let Err(status) = read_network(alloc, topology) {
        return status;
    }
    Status::ScriptLine(line)
}

/// The steps of a script.
fn read_steps(alloc: Global, topology: &[u8], script: &[u8]) -> Result<Vec<WorldStep>, Status>
    ensures steps { IfOk result (λ steps. IsScript script.now steps.items) }
    ensures fault { IfErr result (λ status. FailsScript topology.now script.now status) }
{
    match read_script(alloc, script) {
        Ok(steps) => Ok(steps),
        Err(ScriptFault::Refused(bad)) => Err(bad_line(alloc, topology, script, bad.number)),
        Err(ScriptFault::Memory) => Err(Status::Memory),
    }
}

/// Does the steps, and makes the text of each answer and of the books that they left.
fn steps_output(
    alloc: Global,
    topology: &[u8],
    script: &[u8],
    steps: &[WorldStep],
) -> Result<Output, Status>
    requires { IsScript script.now steps.now }
    ensures said { IfOk result (λ output.
        SaysScript topology.now script.now output.status output.text.items) }
    ensures fault { IfErr result (λ status. FailsScript topology.now script.now status) }
{
    let report = match replay(alloc, topology, steps) {
        Ok(report) => report,
        Err(ReplayFault::Refused(refusal)) => return Err(Status::Topology(refusal)),
        Err(ReplayFault::Memory) => return Err(Status::Memory),
    };
    match report.ending {
        ReplayEnd::Ended => Output::of(report_text(alloc, &report), Status::Done),
        ReplayEnd::NoSuch { step } => Err(Status::Step(step)),
        ReplayEnd::Memory { .. } => Err(Status::Memory),
    }
}

/// Reads a script, does its steps, and makes the text of each answer and of the books that they
/// left.
fn script_output(alloc: Global, topology: &[u8], script: &[u8]) -> Result<Output, Status>
    ensures said { IfOk result (λ output.
        SaysScript topology.now script.now output.status output.text.items) }
    ensures fault { IfErr result (λ status. FailsScript topology.now script.now status) }
{
    let steps = read_steps(alloc, topology, script)?;
    steps_output(alloc, topology, script, steps.as_slice())
}

/// The answers to the steps of a script, and the books that they left.
fn script_said<I: Inputs>(
    alloc: Global,
    topology: &str,
    steps: &str,
    inputs: &mut NamedInputs<I>,
) -> Result<Output, Status>
    ensures said { IfOk result (λ output. SaysOfInputs
        (inputs_seen I.seen inputs.old) topology.now steps.now
        SaysScript output.status output.text.items) }
    ensures fault { IfErr result (λ status. FailsOfInputs
        (inputs_seen I.seen inputs.old) (inputs_seen I.seen inputs.new)
        topology.now steps.now FailsScript status) }
{
    let topology = read_text(alloc, inputs, topology)?;
    let script = read_text(alloc, inputs, steps)?;
    script_output(alloc, topology.as_slice(), script.as_slice())
}

/// Does the steps of a script, and prints each answer and the books that they left.
pub fn say_script<I: Inputs, O: Sink + Drop>(
    alloc: Global,
    topology: &str,
    steps: &str,
    inputs: &mut NamedInputs<I>,
    out: O,
) -> (Status, O)
    ensures { EndsScript (exchange I.seen O.seen inputs.old out)
        (exchange I.seen O.seen inputs.new result.1)
        topology.entry.now steps.entry.now result.0 }
{
    end(script_said(alloc, topology, steps, inputs), out)
}
