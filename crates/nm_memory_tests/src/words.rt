//! Answers in words and numbers.

use nm_knowledge::KnowFault;

/// Why a message is refused, in a word and its number.
pub fn refused(fault: &KnowFault) -> (&'static str, u64) {
    match fault {
        KnowFault::Gap { have } => ("gap", *have),
        KnowFault::Differs { number } => ("differs", *number),
        KnowFault::Late { clock } => ("late", *clock),
        KnowFault::NotRising => ("notrising", 0),
        KnowFault::Memory => ("memory", 0),
        KnowFault::Contrary { count } => ("contrary", *count),
    }
}
