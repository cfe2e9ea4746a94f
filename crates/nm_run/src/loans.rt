//! Whether a book is lent to the pool.

ghost use Rattle.std.specs.Prelude.{◌≡◌, false};

use nm_shared::Lending;

/// Whether a book was seen to be lent: only `LoanSeen::of` makes it.
#[derive(Clone, Copy)]
pub(crate) struct LoanSeen {
    is_lent: bool,
}

impl LoanSeen {
    /// Asks whether a book is lent, which it never is without a pool.
    pub(crate) fn of(lending: &Lending) -> Self
        ensures { lending.now ≡ false → result.is_lent ≡ false }
    {
        LoanSeen {
            is_lent: lending.is_lent(),
        }
    }

    pub(crate) fn is_lent(&self) -> bool
        ensures { result ≡ self.now.is_lent }
    {
        self.is_lent
    }
}
