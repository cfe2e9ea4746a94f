//! Replays: a refused growth ends one at its step.

use crate::same::eq_answer;
use crate::split::CHANNELS;
use crate::words::refused;
use nm_alike::are_alike;
use nm_base::{ChanNo, PartNo};
use nm_fixtures::SPLIT;
use nm_knowledge::Accepted;
use nm_rounds::replay::replay;
use nm_rounds::{ReplayEnd, ReplayFault, StepAnswer, WorldReport, WorldStep};
use std::alloc::Global;
use std::process::Abort;
use std::test::Fail;

/// A step, and what it answers.
type Row = (WorldStep, (&'static str, u64));

fn run(partition: u32, replica: u8, limit: u64) -> WorldStep {
    WorldStep::Run {
        partition: PartNo::new(partition),
        replica,
        limit,
    }
}

fn data(partition: u32, replica: u8, channel: u32, number: u64) -> WorldStep {
    WorldStep::Data {
        partition: PartNo::new(partition),
        replica,
        channel: ChanNo::new(channel),
        number,
    }
}

fn null(partition: u32, replica: u8, channel: u32) -> WorldStep {
    WorldStep::Null {
        partition: PartNo::new(partition),
        replica,
        channel: ChanNo::new(channel),
    }
}

fn deliver(frame: u64, replica: u8) -> WorldStep {
    WorldStep::Deliver { frame, replica }
}

fn merge(partition: u32, replica: u8) -> WorldStep {
    WorldStep::Merge {
        partition: PartNo::new(partition),
        replica,
    }
}

/// An answer in a word and its number.
fn answered(answer: &StepAnswer) -> (&'static str, u64) {
    match answer {
        StepAnswer::All(done) => ("all", *done),
        StepAnswer::Limit(done) => ("limit", *done),
        StepAnswer::Frames(sent) => ("frames", *sent),
        StepAnswer::Accepted(Accepted::New) => ("new", 0),
        StepAnswer::Accepted(Accepted::Known) => ("known", 0),
        StepAnswer::Accepted(Accepted::Raised) => ("raised", 0),
        StepAnswer::Refused(fault) => refused(fault),
        StepAnswer::Merged => ("merged", 0),
        StepAnswer::MergeRefused { fault, .. } => refused(fault),
        StepAnswer::Emptied => ("empty", 0),
    }
}

/// An ending in a word and its step.
fn ended(ending: ReplayEnd) -> (&'static str, u64) {
    match ending {
        ReplayEnd::Ended => ("ended", 0),
        ReplayEnd::NoSuch { step } => ("nosuch", step),
        ReplayEnd::Memory { step } => ("memory", step),
    }
}

/// A report has these answers and this ending.
fn has_answers(rt: &impl Abort, report: &WorldReport, rows: &[Row], ending: (&'static str, u64)) {
    eq_answer(rt, rows.len(), ended(report.ending), ending);
    for number in 0..report.answers.len() {
        if number >= rows.len() {
            assert!(rt; false, "an answer too many");
            return;
        }
        let (_, want) = rows[number];
        eq_answer(rt, number, answered(&report.answers[number]), want);
    }
}

/// Two partitions that send each other what they have, and a sister that gets it later. Channel 0
/// goes from b, of partition 1, to a, channel 1 from a to b.
fn late_sister() -> [Row; 13] {
    [
        (run(0, 0, 10), ("all", 0)),
        (null(1, 0, 0), ("frames", 1)),
        (deliver(0, 0), ("raised", 0)),
        (run(0, 0, 10), ("all", 2)),
        (null(0, 0, 1), ("frames", 1)),
        (deliver(1, 0), ("gap", 0)),
        (data(0, 0, 1, 0), ("frames", 1)),
        (deliver(2, 0), ("new", 0)),
        (deliver(1, 0), ("raised", 0)),
        (run(1, 0, 10), ("all", 1)),
        (merge(1, 1), ("merged", 0)),
        (run(1, 1, 10), ("all", 1)),
        (deliver(2, 1), ("known", 0)),
    ]
}

/// How many events the books of a report did.
fn events_of(report: &WorldReport) -> u64 {
    let mut events = 0u64;
    for book in report.books.iter() {
        events = events.saturating_add(book.events());
    }
    events
}

/// The books of both reports are the same.
fn are_same(rt: &impl Abort, report: &WorldReport, other: &WorldReport) {
    assert!(rt;
        report.books.len() == other.books.len(),
        "there are as many books"
    );
    for (book, same) in report.books.iter().zip(other.books.iter()) {
        assert!(rt; are_alike(book, same, CHANNELS), "they are the same");
    }
}

/// The steps that were done, and of a run that ended with refused memory as many events as it did.
fn done_of(
    alloc: Global,
    report: &WorldReport,
    steps: &[WorldStep],
    step: WorldStep,
) -> Result<Vec<WorldStep>, Fail> {
    let mut done = steps.to_vec(alloc)?;
    if let WorldStep::Run {
        partition,
        replica,
        ..
    } = step
    {
        let before = replay(alloc, SPLIT.as_bytes(), steps)?;
        let limit = events_of(report).saturating_sub(events_of(&before));
        done.push(WorldStep::Run {
            partition,
            replica,
            limit,
        })?;
    }
    Ok(done)
}

/// At this step memory was refused: all before it are answered, and the books are those after them
/// and after the whole events of a run.
fn stopped_at(
    rt: &(impl Abort + AllocGlobal),
    report: &WorldReport,
    rows: &[Row],
    steps: &[WorldStep],
    step: u64,
) -> Result<(), Fail> {
    has_answers(rt, report, rows, ("memory", step));
    assert!(rt;
        report.answers.len() as u64 == step,
        "each step before it is answered"
    );
    let done = report.answers.len();
    if done >= steps.len() {
        assert!(rt; false, "there is such a step");
        return Ok(());
    }
    let whole = done_of(rt.alloc(), report, &steps[..done], steps[done])?;
    let before = replay(rt.alloc(), SPLIT.as_bytes(), &whole)?;
    are_same(rt, report, &before);
    Ok(())
}

/// The replay once more, with memory: all steps are done.
fn again(rt: &(impl Abort + AllocGlobal), rows: &[Row], steps: &[WorldStep]) -> Result<(), Fail> {
    let report = replay(rt.alloc(), SPLIT.as_bytes(), steps)?;
    has_answers(rt, &report, rows, ("ended", 0));
    Ok(())
}

/// A replay, and the same once more if memory was refused.
#[test]
fn a_replay_ends_at_the_step(rt: HostRuntime) -> Result<(), Fail> {
    let rows = late_sister();
    let steps = [
        rows[0].0, rows[1].0, rows[2].0, rows[3].0, rows[4].0, rows[5].0, rows[6].0, rows[7].0,
        rows[8].0, rows[9].0, rows[10].0, rows[11].0, rows[12].0,
    ];
    match replay(rt.alloc(), SPLIT.as_bytes(), &steps) {
        Err(fault) => {
            assert!(&rt; fault == ReplayFault::Memory, "memory was refused");
            again(&rt, &rows, &steps)
        }
        Ok(report) => match report.ending {
            ReplayEnd::Memory { step } => {
                stopped_at(&rt, &report, &rows, &steps, step)?;
                again(&rt, &rows, &steps)
            }
            ending => {
                eq_answer(&rt, 13, ended(ending), ("ended", 0));
                Ok(())
            }
        },
    }
}
