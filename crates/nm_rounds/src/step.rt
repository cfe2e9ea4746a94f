//! What replicas may do, and what each step answers.

use nm_base::{ChanNo, PartNo};
use nm_knowledge::{Accepted, KnowFault};

/// A step of the world. Partitions, replicas (0 and 1), channels, messages of a channel and frames
/// are named by their numbers; a number may name what is not there.
#[derive(Clone, Copy)]
pub enum WorldStep {
    /// A replica does at most so many events before its safe time.
    Run {
        partition: PartNo,
        replica: u8,
        limit: u64,
    },
    /// A replica sends message `number` of a channel that goes out.
    Data {
        partition: PartNo,
        replica: u8,
        channel: ChanNo,
        number: u64,
    },
    /// A replica sends message `number` and all after it, as after a broken connection.
    Resend {
        partition: PartNo,
        replica: u8,
        channel: ChanNo,
        number: u64,
    },
    /// A replica sends a null message with its promise (`Book::promise`).
    Null {
        partition: PartNo,
        replica: u8,
        channel: ChanNo,
    },
    /// A replica sends a null message with its old promise (`Book::old_promise`).
    OldNull {
        partition: PartNo,
        replica: u8,
        channel: ChanNo,
    },
    /// This frame, of all that were ever sent, reaches a replica of its receiver: late, out of
    /// order or again. A frame that is lost is one that no step delivers.
    Deliver {
        frame: u64,
        replica: u8,
    },
    /// A replica merges what the other replica of its partition knows.
    Merge {
        partition: PartNo,
        replica: u8,
    },
    /// A replica is made again, and knows nothing.
    Restart {
        partition: PartNo,
        replica: u8,
    },
}

/// What a step answers.
#[derive(Clone, Copy)]
pub enum StepAnswer {
    /// So many events were done. Nothing is left before the safe time.
    All(u64),
    /// So many events were done, as were asked for. Some are left before the safe time.
    Limit(u64),
    /// So many frames were sent.
    Frames(u64),
    /// The replica took the frame in.
    Accepted(Accepted),
    /// The replica refused the frame, and is unchanged. It is never for want of memory.
    Refused(KnowFault),
    /// The replica knows what both knew.
    Merged,
    /// What both know of this channel cannot be joined; it is the first such channel. The replica
    /// is unchanged. It is never for want of memory.
    MergeRefused { channel: ChanNo, fault: KnowFault },
    /// The replica was made again.
    Emptied,
}
