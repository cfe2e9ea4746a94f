//! The replay of a list of steps.

ghost use Rattle.std.specs.Prelude.{◌≡◌, ◌≤◌, [], IfOk, length};
ghost use Rattle.std.specs.Arc.{arc_value};
ghost use Rattle.std.specs.Vec.{vec_capacity, vec_len};
ghost use Rattle.nm_model.specs.World.{opening};
ghost use Rattle.nm_rounds.specs.Headline.{Headline};
ghost use Rattle.nm_rounds.specs.Replay.{IsReplay, Reads, Reports};
ghost use Rattle.nm_rounds.specs.World.{IsWorld};

use crate::fault::ReplayFault;
use crate::laws::the_headline_holds_of_every_replay;
use crate::step::{StepAnswer, WorldStep};
use crate::world::{Stop, all_replicas, do_step};
use nm_book::Book;
use nm_topology::Topology;
use std::alloc::Global;
use std::sync::Arc;

/// Why a replay ended. Steps are counted from 0.
#[derive(Clone, Copy)]
pub enum ReplayEnd {
    /// All steps were done.
    Ended,
    /// This step names a partition, replica, channel, frame or message that is not there, or a
    /// channel that does not go out. It changed nothing.
    NoSuch { step: u64 },
    /// At this step memory was refused. It changed nothing, but that a run did some whole events.
    Memory { step: u64 },
}

/// What a replay did.
#[derive(Drop)]
pub struct WorldReport {
    pub topology: Arc<Topology>,
    /// Of each step that was done.
    pub answers: Vec<StepAnswer>,
    /// Replica r of partition p is the book of number 2p + r.
    pub books: Vec<Book>,
    pub ending: ReplayEnd,
}

/// Does the steps one after another, up to an ending.
fn do_steps(
    alloc: Global,
    topology: &Arc<Topology>,
    books: &mut Vec<Book>,
    steps: &[WorldStep],
    answers: &mut Vec<StepAnswer>,
) -> ReplayEnd
    requires begins { IsWorld (arc_value topology.now) books.old.items [] opening }
    requires none { answers.old.items ≡ [] }
    requires empty { vec_len answers.old ≡ 0 }
    requires room { length steps.now ≤ vec_capacity answers.old }
    ensures { IsReplay (arc_value topology.now) steps.now answers.new.items books.new.items result }
{
    let mut bag = Vec::new(alloc);
    for number in 0..steps.len() {
        let answer = match do_step(alloc, topology, books, &mut bag, &steps[number]) {
            Ok(answer) => answer,
            Err(Stop::NoSuch) => {
                return ReplayEnd::NoSuch {
                    step: number as u64,
                };
            }
            Err(Stop::Memory) => {
                return ReplayEnd::Memory {
                    step: number as u64,
                };
            }
        };
        answers.push_reserved(answer);
    }
    ReplayEnd::Ended
}

/// Reads a topology text.
fn read(alloc: Global, text: &[u8]) -> Result<Arc<Topology>, ReplayFault>
    ensures { Reads text.now result }
{
    let topology = Topology::read(alloc, text)?;
    Ok(Arc::new(alloc, topology)?)
}

/// Replicas 0 and 1 of each partition of the network do these steps, one after another, from where
/// none knows anything and no frame was sent.
///
/// The report's answers and books are those of the model's world over these steps, up to the ending
/// (`IsReplay`). So the headline holds of them (`Headline`): what each replica knows, did, sent and
/// promises is what one event list does in its partition, whatever was lost, repeated, late, out of
/// order, merged or restarted.
///
/// # Errors
///
/// `Refused` if the text is refused, with its first fault. `Memory` if memory was refused before
/// the first step.
pub fn replay(alloc: Global, text: &[u8], steps: &[WorldStep]) -> Result<WorldReport, ReplayFault>
    ensures report { Reports text.now steps.now result }
    ensures headline { IfOk result (λ report. Headline (arc_value report.topology)
        report.answers.items report.books.items) }
{
    let topology = read(alloc, text)?;
    the_headline_holds_of_every_replay(&topology);
    let mut books = all_replicas(alloc, &topology)?;
    let mut answers = Vec::with_capacity(alloc, steps.len())?;
    let ending = do_steps(alloc, &topology, &mut books, steps, &mut answers);
    Ok(WorldReport {
        topology,
        answers,
        books,
        ending,
    })
}
