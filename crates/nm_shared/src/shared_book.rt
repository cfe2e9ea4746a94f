//! A book that threads share.

ghost use Rattle.std.specs.Prelude.{◌≡◌, ◌+◌, ◌-◌, ◌^◌, ◌<◌, ◌≤◌, true, false, Err, length};
ghost use Rattle.std.specs.Prelude.{vec_len, IfOk, IfErr, IfSome, IsOk};
ghost use Rattle.std.specs.Arc.{arc_value};
ghost use Rattle.std.specs.List.{sum_by};
ghost use Rattle.nm_book.specs.Book.{BookValue, is_replica};
ghost use Rattle.nm_base.specs.declared.fault.Fault.TheVariants.{Refused};
ghost use Rattle.nm_book.specs.declared.fault.BookRefusal.TheVariants.{NoSuch};
ghost use Rattle.nm_shared.specs.Counted.{Meets, Rises, counts_of};
ghost use Rattle.nm_shared.specs.Known.{Grows, HasAllChannels, messages_known};
ghost use Rattle.nm_shared.specs.Home.{home_of};

use crate::act::Act;
use crate::counts::{Counts, PARTS};
use crate::known::messages;
use nm_base::PartNo;
use nm_book::{Book, BookFault};
use nm_topology::Topology;
use std::alloc::{AllocError, Global};
use std::sync::{Arc, Mutex, Wait};

/// The right to act on one shared book. It counts what its acts added.
#[derive(Drop)]
pub struct Pass<C: Counts> {
    /// Which replica the book is: its partition, and 0 or 1.
    pub partition: PartNo,
    pub replica: u8,
    /// Its share of the counts.
    pub share: C::Share,
    ghost part: { C.parts share ≡ 1 },
}

/// What the lock protects: a book, its totals, and the parts that no pass has.
#[derive(Drop)]
pub struct Locked<C: Counts> {
    book: Book,
    counts: C,
    rest: C::Share,
    /// How many passes were made.
    made: u64,
    /// How many messages the book knows.
    known: u64,
    ghost home: { C.exact ≡ true → home_of book ≡ C.home },
    ghost channels: { HasAllChannels book },
    ghost knows: { known ≡ messages_known book },
    ghost messages: { C.messages counts ≡ messages_known book },
    ghost events: { C.events counts ≡ book.events },
    ghost parts: { C.parts rest + made ≡ 2 ^ 32 },
    ghost idle: { (C.messages_of rest ≡ 0) × (C.events_of rest ≡ 0) },
}

/// A book under a lock, with the totals of messages known and events done. Each call of it is one
/// act.
#[derive(Drop)]
pub struct SharedBook<C: Counts> {
    /// Which replica it is, which no act changes: its partition, and 0 or 1.
    pub partition: PartNo,
    pub replica: u8,
    lock: Mutex<Locked<C>>,
    ghost named: { C.exact ≡ true
        → (C.home.partition ≡ partition) × (C.home.replica ≡ replica) },
}

/// A book that threads no longer share, with its totals.
#[derive(Drop)]
pub struct Closed {
    pub book: Book,
    pub messages: u64,
    pub events: u64,
    pub ghost messages_are: { messages ≡ messages_known book },
    pub ghost events_are: { events ≡ book.events },
}

/// A pass is missing. All comes back: `SharedBook::again` opens the book again.
#[derive(Drop)]
pub struct PassesOut<C: Counts> {
    pub held: Locked<C>,
    pub passes: Vec<Pass<C>>,
}

impl<C: Counts> Locked<C> {
    /// The book, whatever passes are missing.
    pub fn into_book(self) -> Book
        ensures { C.exact ≡ true → home_of result ≡ C.home }
    {
        self.book
    }

    /// One more pass of the book of this replica.
    fn pass(&mut self, partition: PartNo, replica: u8) -> Result<Pass<C>, AllocError>
        ensures fresh { IfOk result
            (λ p. (C.messages_of p.share ≡ 0) × (C.events_of p.share ≡ 0)) }
        ensures room { self.old.made < 2 ^ 32 → IsOk result }
        ensures named { IfOk result (λ p. (p.partition ≡ partition) × (p.replica ≡ replica)) }
    {
        if self.made == PARTS {
            return Err(AllocError);
        }
        let share = C::split(&mut self.rest);
        self.made += 1;
        Ok(Pass {
            partition,
            replica,
            share,
        })
    }

    /// Acts once, and counts what was added.
    fn act<A: Act>(&mut self, pass: &mut Pass<C>, act: A) -> A::Out
        ensures does { A.does act self.old.book result self.new.book }
        ensures meets { Meets C.exact C.home (counts_of C.messages_of C.events_of pass.old.share)
            (counts_of C.messages_of C.events_of pass.new.share) self.old.book self.new.book }
    {
        let old_messages = self.known;
        let old_events = self.book.events();
        self.counts.audit(&mut pass.share);
        let answer = act.act(&mut self.book);
        self.known = known_after(&self.book, old_messages, A::learned(&answer));
        let new_messages = self.known - old_messages;
        let new_events = self.book.events() - old_events;
        self.counts.add(&mut pass.share, new_messages, new_events);
        answer
    }

    /// The book and its totals, if no pass is missing.
    fn close(self, passes: Vec<Pass<C>>) -> Result<Closed, PassesOut<C>>
        requires { C.cut true }
        ensures book { IfOk result (λ r. r.book ≡ self.book) }
        ensures home { C.exact ≡ true → IfOk result (λ r. home_of r.book ≡ C.home) }
        ensures sums { C.exact ≡ true → IfOk result (λ r.
            (r.messages ≡ sum_by (λ p. C.messages_of p.share) passes.items)
            × (r.events ≡ sum_by (λ p. C.events_of p.share) passes.items)) }
        ensures missing { IfErr result (λ e. (e.held ≡ self) × (e.passes.items ≡ passes.items)
            × (vec_len passes < e.held.made) × (C.parts e.held.rest + e.held.made ≡ 2 ^ 32)) }
    {
        if (passes.len() as u64) < self.made {
            return Err(PassesOut { held: self, passes });
        }
        let Locked {
            book,
            mut counts,
            rest,
            made: _,
            known: _,
        } = self;
        let mut whole = gather::<C>(rest, passes);
        counts.audit(&mut whole);
        Ok(unshared(book))
    }
}

/// How many messages a book knows, if it knew `before` and learned `learned`, or an unknown number.
fn known_after(book: &Book, before: u64, learned: Option<u64>) -> u64
    requires { IfSome learned (λ n. messages_known book.now ≡ before + n) }
    ensures { result ≡ messages_known book.now }
{
    if let Some(more) = learned {
        if let Some(known) = before.checked_add(more) {
            return known;
        }
    }
    messages(book)
}

/// A book with its totals.
fn unshared(book: Book) -> Closed
    ensures { result.book ≡ book }
{
    let messages = messages(&book);
    let events = book.events();
    Closed {
        book,
        messages,
        events,
    }
}

/// All shares in one.
#[tactic(auto, using(std::proofs::lemmas::List::Sums::sum_by_push))]
fn gather<C: Counts>(rest: C::Share, passes: Vec<Pass<C>>) -> C::Share
    requires { C.parts rest ≤ 2 ^ 32 }
    ensures parts { C.exact ≡ true → C.parts result ≡ C.parts rest + vec_len passes }
    ensures apart { C.exact ≡ true → C.cut true → C.parts result ≤ 2 ^ 32 }
    ensures messages { C.exact ≡ true → C.messages_of result
        ≡ C.messages_of rest + sum_by (λ p. C.messages_of p.share) passes.items }
    ensures events { C.exact ≡ true → C.events_of result
        ≡ C.events_of rest + sum_by (λ p. C.events_of p.share) passes.items }
{
    let mut whole = rest;
    for pass in passes {
        let Pass { share, .. } = pass;
        C::merge(&mut whole, share);
    }
    whole
}

impl<C: Counts> SharedBook<C> {
    /// Shares a new replica that knows nothing, with fresh totals and their whole share.
    ///
    /// # Errors
    ///
    /// Those of `Book::new`. Totals and share are dropped then.
    pub fn new(
        alloc: Global,
        topology: Arc<Topology>,
        partition: PartNo,
        replica: u8,
        counts: C,
        whole: C::Share,
    ) -> Result<SharedBook<C>, BookFault>
        // The counts are of this replica, at 0, and the share is the whole one.
        requires home { C.exact ≡ true → C.home ≡ record {
          topology = arc_value topology;
          partition = partition;
          replica = replica;
        } }
        requires counts { (C.messages counts ≡ 0) × (C.events counts ≡ 0) }
        requires whole { (C.parts whole ≡ 2 ^ 32) × (C.messages_of whole ≡ 0)
            × (C.events_of whole ≡ 0) }

        // There is a book exactly if the partition has such a replica.
        ensures there { IfOk result
            (λ _. is_replica (arc_value topology) partition replica ≡ true) }
        ensures no_such { result ≡ Err (Refused NoSuch)
            → is_replica (arc_value topology) partition replica ≡ false }
        ensures refused { is_replica (arc_value topology) partition replica ≡ false
            → result ≡ Err (Refused NoSuch) }
        ensures named { IfOk result
            (λ b. (b.partition ≡ partition) × (b.replica ≡ replica)) }
    {
        let book = Book::new(alloc, topology, partition, replica)?;
        Ok(SharedBook {
            partition,
            replica,
            lock: Mutex::new(Locked {
                book,
                counts,
                rest: whole,
                made: 0,
                known: 0,
            }),
        })
    }

    /// Shares a book again that came back.
    pub fn again(held: Locked<C>) -> SharedBook<C> {
        SharedBook {
            partition: held.book.partition(),
            replica: held.book.replica(),
            lock: Mutex::new(held),
        }
    }

    /// A pass, which has counted nothing.
    ///
    /// # Errors
    ///
    /// If 2^32 passes were made already.
    pub fn pass<R: Wait>(&self, rt: &R) -> Result<Pass<C>, AllocError>
        ensures fresh { IfOk result
            (λ p. (C.messages_of p.share ≡ 0) × (C.events_of p.share ≡ 0)) }
        ensures named { IfOk result (λ p. (p.partition ≡ self.now.partition)
            × (p.replica ≡ self.now.replica)) }
    {
        let mut held = self.lock.lock(rt);
        held.pass(self.partition, self.replica)
    }

    /// Acts once on the locked book, which has no less than the pass counted. The pass then counts
    /// what was added.
    pub fn act<A: Act, R: Wait>(&self, rt: &R, pass: &mut Pass<C>, act: A) -> A::Out
        ensures { (b : BookValue) × (c : BookValue) × A.does act b result c
            × Meets C.exact C.home (counts_of C.messages_of C.events_of pass.old.share)
            (counts_of C.messages_of C.events_of pass.new.share) b c }
    {
        let mut held = self.lock.lock(rt);
        held.act(pass, act)
    }

    /// The book and its totals, which are the sums over all passes. It never waits.
    ///
    /// # Errors
    ///
    /// If a pass is missing: fewer are given than were made.
    pub fn close(self, passes: Vec<Pass<C>>) -> Result<Closed, PassesOut<C>>
        requires { C.cut true }
        ensures home { C.exact ≡ true → IfOk result (λ r. home_of r.book ≡ C.home) }
        ensures sums { C.exact ≡ true → IfOk result (λ r.
            (r.messages ≡ sum_by (λ p. C.messages_of p.share) passes.items)
            × (r.events ≡ sum_by (λ p. C.events_of p.share) passes.items)) }
        ensures missing { IfErr result (λ e. (e.passes.items ≡ passes.items)
            × (vec_len passes < e.held.made) × (C.parts e.held.rest + e.held.made ≡ 2 ^ 32)) }
    {
        let held = self.lock.into_inner();
        held.close(passes)
    }
}
