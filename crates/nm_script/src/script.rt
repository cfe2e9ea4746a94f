//! The text of a script to its steps.

ghost use Rattle.std.specs.Prelude.{◌≤◌, length};
ghost use Rattle.nm_script.specs.Script.{AddsStep, Tells};
ghost use Rattle.nm_base.specs.declared.limits.TheConstants.{MAX_SCRIPT_STEPS};

use crate::fault::{BadLine, ScriptFault};
use crate::line::{Line, read_line};
use nm_base::limits::MAX_SCRIPT_STEPS;
use nm_base::split_once;
use nm_rounds::WorldStep;
use std::alloc::Global;

/// Adds the step of a line, if it is one, to the steps of the lines before it.
fn take_line(steps: &mut Vec<WorldStep>, line: &[u8], number: u64) -> Result<(), ScriptFault>
    requires { length steps.old.items ≤ MAX_SCRIPT_STEPS }
    ensures { AddsStep steps.old.items line.now number result steps.new.items }
{
    match read_line(line) {
        Some(Line::Skipped) => Ok(()),
        Some(Line::Step(step)) if steps.len() < MAX_SCRIPT_STEPS => Ok(steps.push(step)?),
        _ => Err(ScriptFault::Refused(BadLine { number })),
    }
}

/// Reads a script: ASCII lines, each ended by a line feed. A line is a step, or it is skipped: it
/// is empty, or a comment, which begins with `#`. The steps come in the order of their lines.
///
/// # Errors
///
/// `Refused` with the first line that is no such line, or one step too many. `Memory` if memory was
/// refused.
pub fn read_script(alloc: Global, text: &[u8]) -> Result<Vec<WorldStep>, ScriptFault>
    ensures { Tells text.now result }
{
    let mut steps = Vec::new(alloc);
    let mut rest = text;
    let mut number = 0;
    while !rest.is_empty() {
        number += 1;
        let Some((line, after)) = split_once(rest, b'\n') else {
            return Err(ScriptFault::Refused(BadLine { number }));
        };
        take_line(&mut steps, line, number)?;
        rest = after;
    }
    Ok(steps)
}
