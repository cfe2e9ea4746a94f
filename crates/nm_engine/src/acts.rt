//! What a link does with a shared book in one act.

ghost use Rattle.std.specs.Prelude.{◌≡◌, IfOk, OnErr, Some};
ghost use Rattle.nm_frames.specs.Owed.{given_maybe, owed};
ghost use Rattle.nm_shared.specs.Growing.{same_grows};

use nm_book::Book;
use nm_frames::{Frame, Session};
use nm_shared::Act;
use std::alloc::AllocError;

/// `Session::next_out`: asks a session for the frame that it owes next. The answer has the session.
#[derive(Drop)]
pub struct NextOut {
    pub session: Session,
}

impl Act for NextOut {
    type Out = (Session, Result<Option<Frame>, AllocError>);

    ghost does = { λ a b r c. (c ≡ b)
        × IfOk r.1 (λ f. f ≡ owed a.session b)
        × IfOk r.1 (λ f. r.0 ≡ given_maybe a.session f)
        × OnErr r.1 (r.0 ≡ a.session) };

    ghost news = { λ r. Some 0 };

    fn act(self, book: &mut Book) -> (Session, Result<Option<Frame>, AllocError>) {
        let NextOut { mut session } = self;
        let owed = session.next_out(book);
        (session, owed)
    }

    fn learned(_answer: &(Session, Result<Option<Frame>, AllocError>)) -> Option<u64> {
        Some(0)
    }

    ghost grows = { λ a b r c h. same_grows b c h.0 };
}
