//! The calls of a book, as acts.

ghost use Rattle.std.specs.Prelude.{◌≡◌, ◌+◌, IfOk, if◌then◌else◌, is_some, slice_get, None, Some};
ghost use Rattle.nm_model.specs.Promise.{Plain, Tight};
ghost use Rattle.nm_book.specs.Book.{is_outgoing, message_channel, null_on};
ghost use Rattle.nm_book.specs.Accepting.{Takes, message_taken};
ghost use Rattle.nm_book.specs.Book.{only_if, state_of};
ghost use Rattle.nm_book.specs.Merging.{BookMerges};
ghost use Rattle.nm_book.specs.Running.{Runs};
ghost use Rattle.nm_shared.specs.Growing.{accept_grows, handed_grows, merge_grows, runs_grow};
ghost use Rattle.nm_shared.specs.Growing.{same_grows};
ghost use Rattle.nm_shared.specs.Known.{messages_known, news};

use crate::act::Act;
use crate::known::messages;
use nm_base::{ChanNo, Record};
use nm_book::{AcceptFault, Book, ChannelMessage, Knowledge, MergeFault, Null, Ran};
use nm_knowledge::Accepted;
use std::alloc::{AllocError, Global};

/// `Book::accept`: takes in a message or a null message.
#[derive(Drop)]
pub struct Accept<'a> {
    pub message: &'a ChannelMessage,
}

impl<'a> Act for Accept<'a> {
    type Out = Result<Accepted, AcceptFault>;

    ghost does = { λ a b r c. Takes b c (message_channel a.message.now)
        (message_taken b.knows a.message.now) r };

    ghost news = { λ r. Some (news r) };

    fn act(self, book: &mut Book) -> Result<Accepted, AcceptFault> {
        book.accept(self.message)
    }

    fn learned(answer: &Result<Accepted, AcceptFault>) -> Option<u64>
        ensures { result ≡ Some (news answer.now) }
    {
        match answer {
            Ok(Accepted::New) => Some(1),
            Ok(Accepted::Known | Accepted::Raised) | Err(_) => Some(0),
        }
    }

    ghost grows = { λ a b r c h. accept_grows a.message.now b r c h };
}

/// `Book::run_safe`: does at most so many events before the safe time.
#[derive(Drop)]
pub struct Run {
    pub alloc: Global,
    pub limit: u64,
}

impl Act for Run {
    type Out = Ran;

    ghost does = { λ a b r c. Runs b c a.limit r };

    ghost news = { λ r. Some 0 };

    fn act(self, book: &mut Book) -> Ran {
        book.run_safe(self.alloc, self.limit)
    }

    fn learned(_answer: &Ran) -> Option<u64> {
        Some(0)
    }

    ghost grows = { λ a b r c h. runs_grow a.limit b r c h };
}

/// `Book::null`: makes the null message of a channel.
#[derive(Drop)]
pub struct MakeNull {
    pub channel: ChanNo,
}

impl Act for MakeNull {
    type Out = Option<Null>;

    ghost does = { λ a b r c. (c ≡ b) × (r ≡ only_if (is_outgoing b a.channel)
        (null_on Tight b a.channel)) };

    ghost news = { λ r. Some 0 };

    fn act(self, book: &mut Book) -> Option<Null> {
        book.null(self.channel)
    }

    fn learned(_answer: &Option<Null>) -> Option<u64> {
        Some(0)
    }

    ghost grows = { λ a b r c h. same_grows b c h.0 };
}

/// `Book::old_null`: makes the null message of a channel with the old promise.
#[derive(Drop)]
pub struct MakeOldNull {
    pub channel: ChanNo,
}

impl Act for MakeOldNull {
    type Out = Option<Null>;

    ghost does = { λ a b r c. (c ≡ b) × (r ≡ only_if (is_outgoing b a.channel)
        (null_on Plain b a.channel)) };

    ghost news = { λ r. Some 0 };

    fn act(self, book: &mut Book) -> Option<Null> {
        book.old_null(self.channel)
    }

    fn learned(_answer: &Option<Null>) -> Option<u64> {
        Some(0)
    }

    ghost grows = { λ a b r c h. same_grows b c h.0 };
}

/// `Book::merge`: takes in what another replica of the partition knows.
#[derive(Drop)]
pub struct Merge<'a> {
    pub alloc: Global,
    pub knowledge: &'a Knowledge,
}

impl<'a> Act for Merge<'a> {
    type Out = Result<(), MergeFault>;

    ghost does = { λ a b r c. BookMerges b c a.knowledge.now r };

    ghost news = { λ r. None };

    fn act(self, book: &mut Book) -> Result<(), MergeFault> {
        book.merge(self.alloc, self.knowledge)
    }

    fn learned(_answer: &Result<(), MergeFault>) -> Option<u64>
        ensures { result ≡ None }
    {
        None
    }

    ghost grows = { λ a b r c h. merge_grows a.knowledge.now b r c h };
}

/// `Book::copy_knowledge`: copies what the book knows.
#[derive(Drop)]
pub struct CopyKnowledge {
    pub alloc: Global,
}

impl Act for CopyKnowledge {
    type Out = Result<Knowledge, AllocError>;

    ghost does = { λ a b r c. (c ≡ b) × IfOk r (λ k. k ≡ record {
      digest = b.topology.digest;
      partition = b.partition;
      knows = b.knows;
    }) };

    ghost news = { λ r. Some 0 };

    fn act(self, book: &mut Book) -> Result<Knowledge, AllocError> {
        book.copy_knowledge(self.alloc)
    }

    fn learned(_answer: &Result<Knowledge, AllocError>) -> Option<u64> {
        Some(0)
    }

    ghost grows = { λ a b r c h. same_grows b c h.0 };
}

/// How much a book knows and did.
#[derive(Clone, Copy, Drop)]
pub struct Amounts {
    pub messages: u64,
    pub events: u64,
}

/// How many messages a book knows, and how many events it did.
#[derive(Drop)]
pub struct Look;

impl Act for Look {
    type Out = Amounts;

    ghost does = { λ a b r c. (c ≡ b) × (r.messages ≡ messages_known b)
        × (r.events ≡ b.events) };

    ghost news = { λ r. Some 0 };

    fn act(self, book: &mut Book) -> Amounts {
        Amounts {
            messages: messages(book),
            events: book.events(),
        }
    }

    fn learned(_answer: &Amounts) -> Option<u64> {
        Some(0)
    }

    ghost grows = { λ a b r c h. same_grows b c h.0 };
}

/// `Book::hand_out`: takes the first record that is kept out of the trace. The pass counts nothing.
#[derive(Drop)]
pub struct HandOut;

impl Act for HandOut {
    type Out = Option<Record>;

    ghost does = { λ a b r c. (r ≡ slice_get (state_of b).records b.handed)
        × (c ≡ record b { handed = b.handed + (if is_some r then 1 else 0) }) };

    ghost news = { λ r. Some 0 };

    fn act(self, book: &mut Book) -> Option<Record> {
        book.hand_out()
    }

    fn learned(_answer: &Option<Record>) -> Option<u64> {
        Some(0)
    }

    ghost grows = { λ a b r c h. handed_grows
        (b.handed + (if is_some r then 1 else 0)) b c h.1 };
}
