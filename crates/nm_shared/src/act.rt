//! Acts on a book.

ghost use Rattle.std.specs.Prelude.{◌≡◌, ℕ, Option};
ghost use Rattle.nm_book.specs.Book.{BookValue};
ghost use Rattle.nm_shared.specs.Known.{Grows, TellsNews};

use nm_book::Book;

/// One call of a book, with its arguments.
pub trait Act {
    type Out;

    /// Relates the act, the book before, the answer and the book after.
    ghost does: { Self → BookValue → Self.Out → BookValue → Type 0 };

    // How many messages the book learned, if the answer has that.
    ghost news: { Self.Out → Option ℕ };

    /// Makes the call.
    fn act(self, book: &mut Book) -> Self::Out
        ensures does { does self book.old result book.new }
        ensures news { TellsNews book.old (news result) book.new };

    /// How many messages the book learned, if the answer has that. Else all that it knows are
    /// counted, channel by channel.
    fn learned(answer: &Self::Out) -> Option<u64>
        ensures { result ≡ news answer.now };

    /// The book is the same replica after it, and neither its messages nor its events fall.
    ghost grows: { (a : Self) (b : BookValue) (r : Self.Out) (c : BookValue) → does a b r c
        → Grows b c };
}
