//! Answers as words.

use nm_book::{AcceptFault, MergeFault, MergeRefusal, Ran};
use nm_knowledge::{Accepted, KnowFault};
use nm_rounds::CertFault;
use std::alloc::{AllocError, Global};

/// A word, and a number if it has one.
pub type Word = (&'static str, Option<u64>);

/// The text of a word with its number.
pub fn text(alloc: Global, said: Word) -> Result<String, AllocError> {
    let (word, number) = said;
    match number {
        None => String::from_str(alloc, word),
        Some(number) => format!(in alloc; "{word} {number}"),
    }
}

/// Whether replicas are alike, in a word.
pub fn alike_word(alike: bool) -> &'static str {
    if alike { "alike" } else { "unlike" }
}

/// What a replica answers to a message.
pub fn accepted(answer: &Result<Accepted, AcceptFault>) -> Word {
    match answer {
        Ok(Accepted::New) => ("new", None),
        Ok(Accepted::Known) => ("known", None),
        Ok(Accepted::Raised) => ("raised", None),
        Err(AcceptFault::Stranger) => ("stranger", None),
        Err(AcceptFault::Known(fault)) => refused(fault),
    }
}

/// Why a message is refused.
pub fn refused(fault: &KnowFault) -> Word {
    match fault {
        KnowFault::Gap { have } => ("gap", Some(*have)),
        KnowFault::Differs { number } => ("differs", Some(*number)),
        KnowFault::Late { clock } => ("late", Some(*clock)),
        KnowFault::NotRising => ("notrising", None),
        KnowFault::Memory => ("memory", None),
        KnowFault::Contrary { count } => ("contrary", Some(*count)),
    }
}

/// What a merge answers: if a channel refuses it, which one does.
pub fn merged(alloc: Global, answer: &Result<(), MergeFault>) -> Result<String, AllocError> {
    match answer {
        Ok(()) => String::from_str(alloc, "merged"),
        Err(MergeFault::Refused(MergeRefusal::Stranger)) => String::from_str(alloc, "stranger"),
        Err(MergeFault::Refused(MergeRefusal::Channel { channel, fault })) => {
            let said = text(alloc, refused(fault))?;
            format!(in alloc; "{said} channel {}", channel.number())
        }
        Err(MergeFault::Memory) => String::from_str(alloc, "memory"),
    }
}

/// What a run did.
pub fn ran(answer: Ran) -> Word {
    match answer {
        Ran::All(done) => ("all", Some(done)),
        Ran::Limit(done) => ("limit", Some(done)),
        Ran::Memory(done) => ("memory", Some(done)),
    }
}

/// What a certificate says.
pub fn certified(alloc: Global, answer: &Result<(), CertFault>) -> Result<String, AllocError> {
    let Err(fault) = answer else {
        return String::from_str(alloc, "certified");
    };
    match fault {
        CertFault::Prefix { channel, number } => {
            format!(in alloc; "prefix {} {number}", channel.number())
        }
        CertFault::Clock { channel } => format!(in alloc; "clock {}", channel.number()),
        CertFault::Promise { channel } => format!(in alloc; "promise {}", channel.number()),
        CertFault::Missing { partition } => format!(in alloc; "missing {}", partition.number()),
        CertFault::Unfinished { partition } => {
            format!(in alloc; "unfinished {}", partition.number())
        }
        CertFault::Topology => String::from_str(alloc, "topology"),
    }
}
