//! A turn, over the parts of a link that has not failed.

ghost use Rattle.std.specs.Prelude.{◌≡◌, false, true, IfOk};
ghost use Rattle.nm_engine.specs.Turn.{HasEnded, Listens, TakesIn, Works, answer_of};
ghost use Rattle.nm_engine.specs.Link.{IsBounded, bye_taken};
ghost use Rattle.nm_engine.specs.Passes.{by_pass};

use crate::answer::{Cause, Turn};
use crate::giving::give_all;
use crate::out::OutBuffer;
use crate::parts::Parts;
use crate::reading::{ReadBuffer, read_in};
use crate::taking::take_all;
use crate::writing::write_out;
use nm_base::Wire;
use nm_frames::Session;
use nm_shared::{Counts, Pass, SharedBook};
use std::alloc::Global;
use std::sync::Wait;

/// Whether the peer has sent Bye.
fn bye_taken(session: &Option<Session>) -> bool
    ensures { result ≡ bye_taken session.now }
{
    match session {
        Some(session) => session.bye_taken(),
        None => false,
    }
}

/// Whether both ends have sent Bye and nothing waits.
fn has_ended(session: &Option<Session>, out: &OutBuffer) -> bool
    ensures ended { result ≡ true → HasEnded session.now out.now.items }
    ensures only { HasEnded session.now out.now.items → result ≡ true }
{
    match session {
        Some(session) => session.bye_taken() && session.bye_given() && out.is_empty(),
        None => false,
    }
}

/// The answer of a turn in which so many octets moved.
fn answer(ended: bool, moved: usize) -> Turn
    ensures { result ≡ answer_of ended moved }
{
    if ended {
        Turn::Ended
    } else if moved > 0 {
        Turn::Progress
    } else {
        Turn::Idle
    }
}

/// Reads once, and takes the frames. Nothing is given or written. Answers how many octets were
/// received.
fn take_in<W: Wire, C: Counts, R: Wait>(
    rt: &R,
    alloc: Global,
    parts: &mut Parts<W>,
    book: &SharedBook<C>,
    pass: &mut Pass<C>,
    buffer: &mut ReadBuffer,
) -> Result<usize, Cause>
    requires sound { parts.old.reader.failed ≡ false }
    requires bounded { IsBounded parts.old.reader.rest parts.old.out.items }
    ensures takes { TakesIn W.seen (by_pass C.exact C.home C.messages_of C.events_of
        pass.old.share pass.new.share) parts.old parts.new result }
    ensures bounded { IsBounded parts.new.reader.rest parts.new.out.items }
    ensures sound { IfOk result (λ _. parts.new.reader.failed ≡ false) }
{
    let may_end = bye_taken(&parts.party.session);
    let mut frames = Vec::new(alloc);
    let read = read_in(
        alloc,
        &mut parts.wire,
        &mut parts.reader,
        may_end,
        &mut buffer.octets,
        &mut frames,
    );
    take_all(rt, alloc, &mut parts.party, book, pass, frames)?;
    read
}

/// Reads once, and takes the frames. Nothing is given or written.
pub(crate) fn listen<W: Wire, C: Counts, R: Wait>(
    rt: &R,
    alloc: Global,
    parts: &mut Parts<W>,
    book: &SharedBook<C>,
    pass: &mut Pass<C>,
    buffer: &mut ReadBuffer,
) -> Result<Turn, Cause>
    requires sound { parts.old.reader.failed ≡ false }
    requires bounded { IsBounded parts.old.reader.rest parts.old.out.items }
    ensures hears { Listens W.seen (by_pass C.exact C.home C.messages_of C.events_of
        pass.old.share pass.new.share) parts.old parts.new result }
    ensures bounded { IsBounded parts.new.reader.rest parts.new.out.items }
    ensures sound { IfOk result (λ _. parts.new.reader.failed ≡ false) }
{
    let came = take_in(rt, alloc, parts, book, pass, buffer)?;
    Ok(answer(has_ended(&parts.party.session, &parts.out), came))
}

/// Reads once, takes the frames, puts the frames that are owed into the buffer, and writes once.
pub(crate) fn work<W: Wire, C: Counts, R: Wait>(
    rt: &R,
    alloc: Global,
    parts: &mut Parts<W>,
    book: &SharedBook<C>,
    pass: &mut Pass<C>,
    buffer: &mut ReadBuffer,
) -> Result<Turn, Cause>
    requires sound { parts.old.reader.failed ≡ false }
    requires bounded { IsBounded parts.old.reader.rest parts.old.out.items }
    ensures works { Works W.seen (by_pass C.exact C.home C.messages_of C.events_of
        pass.old.share pass.new.share) parts.old parts.new result }
    ensures bounded { IsBounded parts.new.reader.rest parts.new.out.items }
    ensures sound { IfOk result (λ _. parts.new.reader.failed ≡ false) }
{
    let came = take_in(rt, alloc, parts, book, pass, buffer)?;
    give_all(rt, &mut parts.party.session, book, pass, &mut parts.out)?;
    let went = write_out(&mut parts.wire, &mut parts.out)?;
    Ok(answer(has_ended(&parts.party.session, &parts.out), came + went))
}
