//! What a replica tells a pool.

ghost use Rattle.std.specs.Prelude.{◌&&◌, ◌≡◌, not};
ghost use Rattle.nm_replica.specs.Polls.{IsNews};

use crate::replica::Service;
use nm_shared::{Counts, NotLent, Notified};

/// How a pool was notified, if there is one.
#[derive(Clone, Copy)]
pub(crate) enum News {
    /// That the book is done.
    Done(Notified),
    /// That the book keeps fewer records, if it is lent.
    Written(Result<Notified, NotLent>),
}

/// Whether a book is done now and was not when it was last read.
pub(crate) fn is_newly_done(is_done: bool, was_done: bool) -> bool
    ensures { result ≡ (is_done && not was_done) }
{
    is_done && !was_done
}

/// Notifies a pool, if there is one, that a book that is lent keeps fewer records, or that a book
/// is done now and was not when it was last read.
pub(crate) fn note_news<C: Counts>(
    service: &Service<'_, C>,
    has_written: bool,
    is_newly_done: bool,
) -> Option<News>
    ensures { IsNews is_newly_done has_written result }
{
    if is_newly_done {
        return Some(News::Done(service.lending.note()));
    }
    if has_written {
        return Some(News::Written(service.lending.note_if_lent()));
    }
    None
}
