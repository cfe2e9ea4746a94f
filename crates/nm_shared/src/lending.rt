//! Which thread runs a book: a pool's, or its replica's own.

ghost use Rattle.std.specs.Prelude.{◌≡◌, IfSome, IsErr, None, false, is_some, true};

use crate::flag::{Flag, WasSet, WasTaken};
use std::marker::Model;

/// Who runs a book: a pool, to which it is lent, or its replica's own thread, after each of its
/// polls. The book is lent at first, and again whenever its own thread leaves events to do; short
/// work stays on that thread and wakes nobody. What the book does is the same, whoever runs it,
/// since it is locked meanwhile. A book that nobody runs waits for ever. A clause sees whether
/// there is a pool.
#[derive(Drop)]
pub struct Lending {
    /// Without a pool the replica's own thread always runs the book.
    loan: Option<Loan>,
}

impl Model for Lending {
    ghost use Rattle.std.specs.Prelude.{Bool, is_some};

    ghost Value = { Bool };

    ghost view = { λ l. is_some l.loan };
}

/// What a pool and a replica's own thread share about a book.
#[derive(Drop)]
struct Loan {
    is_lent: Flag<OfLoan>,
    /// The pool may have more to do than when it looked last.
    has_news: Flag<OfNews>,
}

/// The kind of the flag that says whether a book is lent.
#[derive(Clone, Copy)]
pub(crate) struct OfLoan;

/// The kind of the flag that says whether there is news for the pool.
#[derive(Clone, Copy)]
pub(crate) struct OfNews;

/// A book was lent to its pool, and the pool was notified: only `Lending::lend` makes it.
#[derive(Clone, Copy)]
pub struct Lent {
    lent: WasSet<OfLoan>,
    told: WasSet<OfNews>,
}

/// A book was given back to its replica's own thread, if it has a pool: only `Lending::give_back`
/// makes it.
#[derive(Clone, Copy)]
pub struct GivenBack {
    lent: Option<WasSet<OfLoan>>,
}

/// A pool, if there is one, was notified that it may have more to do: only `Lending::note` makes
/// it.
#[derive(Clone, Copy)]
pub struct Notified {
    told: Option<WasSet<OfNews>>,
}

/// A book was found not to be lent: only `Lending::not_lent` makes it.
#[derive(Clone, Copy)]
pub struct NotLent(());

/// The pool may have more to do than when this was taken last. Only `pass_on` can spend it.
pub struct TakenNews {
    taken: WasTaken<OfNews>,
}

impl TakenNews {
    /// The pool was notified.
    pub fn pass_on(self) {
        let TakenNews { taken: _ } = self;
    }
}

impl Loan {
    fn lend(&self) -> Lent
        ensures { (result.lent.value ≡ true) × (result.told.value ≡ true) }
    {
        Lent {
            lent: self.is_lent.set(true),
            told: self.has_news.set(true),
        }
    }
}

impl Lending {
    /// The book is lent to a pool.
    pub fn new() -> Self
        ensures { result ≡ true }
    {
        Lending {
            loan: Some(Loan {
                is_lent: Flag::new(true),
                has_news: Flag::new(true),
            }),
        }
    }

    /// There is no pool: the replica's own thread always runs the book.
    pub fn alone() -> Self
        ensures { result ≡ false }
    {
        Lending { loan: None }
    }

    /// Whether there is a pool.
    pub fn has_pool(&self) -> bool
        ensures { result ≡ self.now }
    {
        self.loan.is_some()
    }

    /// Whether the book is lent, which it never is without a pool.
    pub fn is_lent(&self) -> bool
        ensures { self.now ≡ false → result ≡ false }
    {
        match &self.loan {
            Some(loan) => loan.is_lent.is_set(),
            None => false,
        }
    }

    /// A witness that the book is not lent, if it is not.
    fn not_lent(&self) -> Option<NotLent>
        ensures { self.now ≡ false → is_some result ≡ true }
    {
        if self.is_lent() {
            None
        } else {
            Some(NotLent(()))
        }
    }

    /// The replica's own thread left events to do: the book is lent to its pool, if there is one.
    pub fn lend(&self) -> Option<Lent>
        ensures pool { is_some result ≡ self.now }
        ensures lent { IfSome result (λ l. (l.lent.value ≡ true) × (l.told.value ≡ true)) }
    {
        match &self.loan {
            Some(loan) => Some(loan.lend()),
            None => None,
        }
    }

    /// The pool left no events to do: the replica's own thread goes on.
    pub fn give_back(&self) -> GivenBack
        ensures pool { is_some result.lent ≡ self.now }
        ensures back { IfSome result.lent (λ l. l.value ≡ false) }
    {
        GivenBack {
            lent: match &self.loan {
                Some(loan) => Some(loan.is_lent.set(false)),
                None => None,
            },
        }
    }

    /// Notifies the pool that it may have more to do: the book is lent, or keeps fewer records.
    pub fn note(&self) -> Notified
        ensures pool { is_some result.told ≡ self.now }
        ensures told { IfSome result.told (λ t. t.value ≡ true) }
    {
        Notified {
            told: match &self.loan {
                Some(loan) => Some(loan.has_news.set(true)),
                None => None,
            },
        }
    }

    /// The same if the book is lent; else nothing is needed, since its own thread runs it.
    pub fn note_if_lent(&self) -> Result<Notified, NotLent>
        ensures { self.now ≡ false → IsErr result }
    {
        match self.not_lent() {
            Some(not_lent) => Err(not_lent),
            None => Ok(self.note()),
        }
    }

    /// A witness that the pool may have more to do than when this was asked last, if it may.
    pub fn take_news(&self) -> Option<TakenNews>
        ensures { self.now ≡ false → result ≡ None }
    {
        let taken = self.loan.as_ref()?.has_news.take()?;
        Some(TakenNews { taken })
    }
}
