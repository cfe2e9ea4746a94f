//! The calls of a shared book that a pass counts.

ghost use Rattle.std.specs.Prelude.{◌≡◌, ◌+◌, ◌≤◌, IfOk, true};
ghost use Rattle.nm_book.specs.Book.{BookValue, message_channel};
ghost use Rattle.nm_book.specs.Accepting.{Takes, message_taken};
ghost use Rattle.nm_book.specs.Merging.{BookMerges};
ghost use Rattle.nm_book.specs.Running.{Runs};
ghost use Rattle.nm_shared.specs.Counted.{Meets, counts_of};
ghost use Rattle.nm_shared.specs.Known.{messages_known, news, ran};
ghost use Rattle.nm_shared.specs.Home.{home_of};
ghost use Rattle.nm_shared.specs.Pool.{IsRunAnswer};

use crate::acts::{Accept, Amounts, Look, Merge, Run};
use crate::counts::Counts;
use crate::shared_book::{Pass, SharedBook};
use nm_base::PartNo;
use nm_book::{AcceptFault, ChannelMessage, Knowledge, MergeFault, Ran};
use nm_knowledge::Accepted;
use std::alloc::{AllocError, Global};
use std::sync::Wait;

/// The answer of this replica's book to a merge: only `SharedBook::merge` makes it. A contract
/// cannot say that a call was made which may change nothing; a value that no other call makes can.
#[derive(Drop)]
pub struct MergeAnswer {
    /// The replica's partition, and 0 or 1.
    pub partition: PartNo,
    pub replica: u8,
    pub answer: Result<(), MergeFault>,
    _private: (),
}

/// A run of the book of this replica, with a pass of its own: only `SharedBook::run_anew` makes it.
#[derive(Drop)]
pub struct OwnRun<C: Counts> {
    /// The replica's partition, and 0 or 1.
    pub partition: PartNo,
    pub replica: u8,
    pub answer: Ran,
    pub pass: Pass<C>,
    _private: (),
}

/// How many events a run did.
fn count_of(answer: &Ran) -> u64
    ensures { result ≡ ran answer.now }
{
    match answer {
        Ran::All(n) => *n,
        Ran::Limit(n) => *n,
        Ran::Memory(n) => *n,
    }
}

impl<C: Counts> SharedBook<C> {
    /// Takes in a message or a null message, as `Book::accept` does. The pass counts one message if
    /// the answer is `New`, and else nothing.
    ///
    /// # Errors
    ///
    /// Those of `Book::accept`. The book and the pass are unchanged then.
    pub fn accept<R: Wait>(
        &self,
        rt: &R,
        pass: &mut Pass<C>,
        message: &ChannelMessage,
    ) -> Result<Accepted, AcceptFault>
        ensures accepts { (b : BookValue) × (c : BookValue) × Takes b c
            (message_channel message.now) (message_taken b.knows message.now) result
            × Meets C.exact C.home (counts_of C.messages_of C.events_of pass.old.share)
            (counts_of C.messages_of C.events_of pass.new.share) b c }
        ensures messages { C.exact ≡ true → C.messages_of pass.new.share
            ≡ C.messages_of pass.old.share + news result }
        ensures events { C.exact ≡ true
            → C.events_of pass.new.share ≡ C.events_of pass.old.share }
    {
        self.act(rt, pass, Accept { message })
    }

    /// Does at most so many events before the safe time, as `Book::run_safe` does. The pass counts
    /// the events of the answer.
    pub fn run<R: Wait>(&self, rt: &R, pass: &mut Pass<C>, alloc: Global, limit: u64) -> Ran
        ensures runs { (b : BookValue) × (c : BookValue) × Runs b c limit result
            × Meets C.exact C.home (counts_of C.messages_of C.events_of pass.old.share)
            (counts_of C.messages_of C.events_of pass.new.share) b c }
        ensures messages { C.exact ≡ true
            → C.messages_of pass.new.share ≡ C.messages_of pass.old.share }
        ensures events { C.exact ≡ true → C.events_of pass.new.share
            ≡ C.events_of pass.old.share + ran result }
    {
        self.act(rt, pass, Run { alloc, limit })
    }

    /// A run as by `run`, with a pass of its own.
    ///
    /// # Errors
    ///
    /// If 2^32 passes were made already. No event was done then.
    pub fn run_anew<R: Wait>(
        &self,
        rt: &R,
        alloc: Global,
        limit: u64,
    ) -> Result<OwnRun<C>, AllocError>
        ensures runs { IfOk result (λ r. IsRunAnswer limit r.answer) }
        ensures counted { IfOk result (λ r. C.events_of r.pass.share ≡ ran r.answer) }
        ensures of { IfOk result
            (λ r. (r.partition ≡ self.now.partition) × (r.replica ≡ self.now.replica)) }
    {
        let mut pass = self.pass(rt)?;
        let answer = self.act(rt, &mut pass, Run { alloc, limit });
        let _count = count_of(&answer);
        Ok(OwnRun {
            partition: self.partition,
            replica: self.replica,
            answer,
            pass,
            _private: (),
        })
    }

    /// Takes in what another replica of the partition knows, as `Book::merge` does. The pass counts
    /// the messages learned.
    pub fn merge<R: Wait>(
        &self,
        rt: &R,
        pass: &mut Pass<C>,
        alloc: Global,
        knowledge: &Knowledge,
    ) -> MergeAnswer
        ensures merges { (b : BookValue) × (c : BookValue)
            × BookMerges b c knowledge.now result.answer
            × Meets C.exact C.home (counts_of C.messages_of C.events_of pass.old.share)
            (counts_of C.messages_of C.events_of pass.new.share) b c }
        ensures into { (result.partition ≡ self.now.partition)
            × (result.replica ≡ self.now.replica) }
    {
        MergeAnswer {
            partition: self.partition,
            replica: self.replica,
            answer: self.act(rt, pass, Merge { alloc, knowledge }),
            _private: (),
        }
    }

    /// How many messages the book knows and how many events it did: no less than the pass counted.
    pub fn look<R: Wait>(&self, rt: &R, pass: &mut Pass<C>) -> Amounts
        ensures value { (b : BookValue) × (C.exact ≡ true → home_of b ≡ C.home)
            × (result.messages ≡ messages_known b) × (result.events ≡ b.events) }
        ensures at_least { C.exact ≡ true
            → (C.messages_of pass.old.share ≤ result.messages)
            × (C.events_of pass.old.share ≤ result.events) }
        ensures same { C.exact ≡ true
            → (C.messages_of pass.new.share ≡ C.messages_of pass.old.share)
            × (C.events_of pass.new.share ≡ C.events_of pass.old.share) }
    {
        self.act(rt, pass, Look)
    }
}
