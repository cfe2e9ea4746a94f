//! What the steps of a script answered and the books that they left, as text.

ghost use Rattle.std.specs.Prelude.{◌≡◌, ◌++◌, OnOk, IfOk, codes};
ghost use Rattle.std.specs.List.{flat_map};
ghost use Rattle.std.specs.String.{string_bytes};
ghost use Rattle.nm_script.specs.Printed.{accepted_text, answer_line, answer_lines, answer_text};
ghost use Rattle.nm_script.specs.Printed.{book_line, fault_text};
ghost use Rattle.nm_script.specs.Printed.{report_text};

use nm_book::Book;
use nm_knowledge::{Accepted, KnowFault};
use nm_rounds::{StepAnswer, WorldReport};
use std::alloc::{AllocError, Global};

/// How a replica took a frame in.
fn accepted_text(accepted: Accepted) -> &'static str
    ensures { result.now ≡ accepted_text accepted }
{
    match accepted {
        Accepted::New => "new",
        Accepted::Known => "known",
        Accepted::Raised => "raised",
    }
}

/// Appends why a replica refused a frame.
fn push_fault(text: &mut String, fault: KnowFault) -> Result<(), AllocError>
    ensures { OnOk result (string_bytes text.new ≡ string_bytes text.old ++ fault_text fault) }
{
    match fault {
        KnowFault::Gap { have } => write!(text, "gap {have}"),
        KnowFault::Differs { number } => write!(text, "differs {number}"),
        KnowFault::Late { clock } => write!(text, "late {clock}"),
        KnowFault::NotRising => text.push_str("notrising"),
        KnowFault::Memory => text.push_str("memory"),
        KnowFault::Contrary { count } => write!(text, "contrary {count}"),
    }
}

/// Appends what a step answered.
fn push_answer(text: &mut String, answer: &StepAnswer) -> Result<(), AllocError>
    ensures { OnOk result (string_bytes text.new
        ≡ string_bytes text.old ++ answer_text answer.now) }
{
    match answer {
        StepAnswer::All(count) => write!(text, "all {count}"),
        StepAnswer::Limit(count) => write!(text, "limit {count}"),
        StepAnswer::Frames(count) => write!(text, "frames {count}"),
        StepAnswer::Accepted(accepted) => text.push_str(accepted_text(*accepted)),
        StepAnswer::Refused(fault) => push_fault(text, *fault),
        StepAnswer::Merged => text.push_str("merged"),
        StepAnswer::MergeRefused { fault, .. } => push_fault(text, *fault),
        StepAnswer::Emptied => text.push_str("empty"),
    }
}

/// Appends the line of an answer.
fn push_answer_line(text: &mut String, number: u64, answer: &StepAnswer) -> Result<(), AllocError>
    ensures { OnOk result (string_bytes text.new
        ≡ string_bytes text.old ++ answer_line (number, answer.now)) }
{
    write!(text, "{number} ")?;
    push_answer(text, answer)?;
    text.push_str("\n")
}

/// Appends the line of a book.
fn push_book_line(text: &mut String, book: &Book) -> Result<(), AllocError>
    ensures { OnOk result (string_bytes text.new ≡ string_bytes text.old ++ book_line book.now) }
{
    let partition = book.partition().number();
    let replica = book.replica();
    let events = book.events();
    let safe = book.safe().nanoseconds();
    let records = book.records();
    write!(text, "book {partition} {replica} events {events}")?;
    writeln!(text, " safe {safe} records {records}")
}

/// Appends the lines of the answers, which are counted from 0.
fn push_answers(text: &mut String, answers: &[StepAnswer]) -> Result<(), AllocError>
    ensures { OnOk result (string_bytes text.new
        ≡ string_bytes text.old ++ answer_lines answers.now) }
{
    for (number, answer) in answers.iter().enumerate() {
        push_answer_line(text, number as u64, answer)?;
    }
    Ok(())
}

/// Appends the lines of the books.
fn push_books(text: &mut String, books: &[Book]) -> Result<(), AllocError>
    ensures { OnOk result (string_bytes text.new
        ≡ string_bytes text.old ++ flat_map book_line books.now) }
{
    for book in books {
        push_book_line(text, book)?;
    }
    Ok(())
}

/// The text of a report: a line for each step that was answered, and then one for each book, in
/// their order. Each line ends with a line feed.
pub fn report_text(alloc: Global, report: &WorldReport) -> Result<Vec<u8>, AllocError>
    ensures { IfOk result (λ text. text.items
        ≡ report_text report.now.answers.items report.now.books.items) }
{
    let mut text = String::new(alloc);
    push_answers(&mut text, &report.answers)?;
    push_books(&mut text, &report.books)?;
    Ok(text.into_bytes())
}
