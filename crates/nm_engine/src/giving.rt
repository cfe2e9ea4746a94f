//! What a link puts into its buffer.

ghost use Rattle.std.specs.Prelude.{◌≡◌, ◌+◌, ◌<◌, ◌≤◌, true, false, Ok, IfOk, length};
ghost use Rattle.nm_engine.specs.Giving.{GivesOr, HoldsNone, OwesNone};
ghost use Rattle.nm_engine.specs.Passes.{counted_by, owner_if, reached};

use crate::acts::NextOut;
use crate::out::OutBuffer;
use nm_base::limits::{FULL_OUT_OCTETS, MAX_FRAME_OCTETS, MAX_OUT_OCTETS};
use nm_frames::Session;
use nm_shared::{Counts, Pass, SharedBook};
use std::alloc::AllocError;
use std::sync::Wait;

/// Puts the frame that the session owes next at the end of the buffer. Answers whether there was
/// one.
fn give_one<C: Counts, R: Wait>(
    rt: &R,
    session: &mut Option<Session>,
    book: &SharedBook<C>,
    pass: &mut Pass<C>,
    out: &mut OutBuffer,
) -> Result<bool, AllocError>
    ensures gives { GivesOr (owner_if C.exact C.home)
        (reached C.exact C.messages_of C.events_of session.old pass.old.share)
        (reached C.exact C.messages_of C.events_of session.new pass.new.share)
        out.old.items out.new.items result }
    ensures none { result ≡ Ok false → OwesNone (owner_if C.exact C.home)
        (counted_by C.exact C.messages_of C.events_of pass.new.share) session.new }
    ensures more { result ≡ Ok true → length out.old.items < length out.new.items }
    ensures most { length out.new.items ≤ length out.old.items + MAX_FRAME_OCTETS }
{
    let Some(asked) = session.take() else {
        return Ok(false);
    };
    let (back, owed) = book.act(rt, pass, NextOut { session: asked });
    *session = Some(back);
    match owed {
        Err(refused) => Err(refused),
        Ok(None) => Ok(false),
        Ok(Some(frame)) => match out.put(&frame) {
            Ok(()) => Ok(true),
            Err(refused) => Err(refused),
        },
    }
}

/// Puts frames at the end of the buffer until the session owes none, or the buffer is full.
pub(crate) fn give_all<C: Counts, R: Wait>(
    rt: &R,
    session: &mut Option<Session>,
    book: &SharedBook<C>,
    pass: &mut Pass<C>,
    out: &mut OutBuffer,
) -> Result<(), AllocError>
    requires { length out.old.items ≤ MAX_OUT_OCTETS }
    ensures gives { GivesOr (owner_if C.exact C.home)
        (reached C.exact C.messages_of C.events_of session.old pass.old.share)
        (reached C.exact C.messages_of C.events_of session.new pass.new.share)
        out.old.items out.new.items result }
    ensures all { IfOk result (λ _. HoldsNone (owner_if C.exact C.home)
        (counted_by C.exact C.messages_of C.events_of pass.new.share) session.new out.new.items) }
    ensures most { length out.new.items ≤ MAX_OUT_OCTETS }
{
    while out.len() < FULL_OUT_OCTETS {
        if !give_one(rt, session, book, pass, out)? {
            return Ok(());
        }
    }
    Ok(())
}
