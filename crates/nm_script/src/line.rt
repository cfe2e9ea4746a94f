//! The lines of a script.

ghost use Rattle.std.specs.Prelude.{◌≡◌, Some, IfSome};
ghost use Rattle.nm_rounds.specs.declared.step.WorldStep.{WorldStep as Step};
ghost use Rattle.nm_script.specs.Grammar.{IsStep, Says, is_idle};
ghost use Rattle.nm_script.specs.declared.line.Line.{Line as LineValue};

use crate::numbers::numbers_of;
use crate::tokens::step_of;
use nm_base::split_once;
use nm_rounds::WorldStep;

/// The meaning of a line of a script.
#[derive(Clone, Copy)]
pub enum Line {
    /// Nothing: it is empty, or a comment.
    Skipped,
    /// A step.
    Step(WorldStep),
}

/// Whether a line is empty, or begins as a comment does.
fn is_idle(line: &[u8]) -> bool
    ensures { result ≡ is_idle line.now }
{
    match line {
        [] => true,
        [first, ..] => *first == b'#',
    }
}

/// The step that a line is.
fn step_on(line: &[u8]) -> Option<WorldStep>
    ensures found { IfSome result (IsStep line.now) }
    ensures only { (s : Step) → IsStep line.now s → result ≡ Some s }
{
    let (word, rest) = split_once(line, b' ')?;
    let numbers = numbers_of(rest)?;
    step_of(word, &numbers)
}

/// The meaning of a line, given without its line feed. `None` if no line of a script may be so.
pub fn read_line(line: &[u8]) -> Option<Line>
    ensures found { IfSome result (Says line.now) }
    ensures only { (said : LineValue) → Says line.now said → result ≡ Some said }
{
    if is_idle(line) {
        if line.is_ascii() {
            return Some(Line::Skipped);
        }
        return None;
    }
    match step_on(line) {
        Some(step) => Some(Line::Step(step)),
        None => None,
    }
}
