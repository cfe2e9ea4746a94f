//! What a link does with the frames that it received.

ghost use Rattle.std.specs.Prelude.{◌≡◌, Option, Some};
ghost use Rattle.std.specs.List.{AllByRecursion};
ghost use Rattle.nm_frames.specs.Frame.{IsFrame};
ghost use Rattle.nm_engine.specs.Acceptor.{AcceptorValue};
ghost use Rattle.nm_engine.specs.Passes.{counted_by, owner_if, reached};
ghost use Rattle.nm_engine.specs.Taking.{TakesAll, TakesOne, Tells};

use crate::answer::Cause;
use crate::parts::Party;
use nm_book::{AcceptFault, ChannelMessage};
use nm_frames::{Frame, Session, Taken};
use nm_knowledge::KnowFault;
use nm_shared::{Counts, Pass, SharedBook};
use std::alloc::Global;
use std::sync::Wait;

/// The book takes in a message. The pass counts it if it is new.
fn tell<C: Counts, R: Wait>(
    rt: &R,
    book: &SharedBook<C>,
    pass: &mut Pass<C>,
    message: &ChannelMessage,
) -> Result<(), Cause>
    ensures { Tells (owner_if C.exact C.home)
        (counted_by C.exact C.messages_of C.events_of pass.old.share)
        (counted_by C.exact C.messages_of C.events_of pass.new.share) message.now result }
{
    match book.accept(rt, pass, message) {
        Ok(_) => Ok(()),
        Err(AcceptFault::Known(KnowFault::Memory)) => Err(Cause::Memory),
        Err(_) => Err(Cause::Book),
    }
}

/// The session takes a frame, and the book its message or null message.
fn take_later<C: Counts, R: Wait>(
    rt: &R,
    session: &mut Session,
    book: &SharedBook<C>,
    pass: &mut Pass<C>,
    frame: Frame,
) -> Result<(), Cause>
    ensures { (h : Option AcceptorValue)
        → TakesOne (owner_if C.exact C.home) h
        (reached C.exact C.messages_of C.events_of (Some session.old) pass.old.share) frame
        (reached C.exact C.messages_of C.events_of (Some session.new) pass.new.share) result }
{
    match session.take(frame) {
        Err(_) => Err(Cause::Session),
        Ok(Taken::ForBook(message)) => tell(rt, book, pass, &message),
        Ok(_) => Ok(()),
    }
}

/// Takes a frame. The first one makes the session, if the peer connected.
fn take_one<C: Counts, R: Wait>(
    rt: &R,
    alloc: Global,
    party: &mut Party,
    book: &SharedBook<C>,
    pass: &mut Pass<C>,
    frame: Frame,
) -> Result<(), Cause>
    ensures takes { TakesOne (owner_if C.exact C.home) party.old.acceptor
        (reached C.exact C.messages_of C.events_of party.old.session pass.old.share) frame
        (reached C.exact C.messages_of C.events_of party.new.session pass.new.share) result }
    ensures keeps { party.new.acceptor ≡ party.old.acceptor }
{
    if let Some(session) = &mut party.session {
        return take_later(rt, session, book, pass, frame);
    }
    let Some(acceptor) = &party.acceptor else {
        return Err(Cause::Session);
    };
    party.differing = acceptor.differing(&frame);
    party.session = Some(acceptor.greet(alloc, frame)?);
    Ok(())
}

/// Takes frames, up to the first that is refused.
pub(crate) fn take_all<C: Counts, R: Wait>(
    rt: &R,
    alloc: Global,
    party: &mut Party,
    book: &SharedBook<C>,
    pass: &mut Pass<C>,
    frames: Vec<Frame>,
) -> Result<(), Cause>
    requires { AllByRecursion IsFrame frames.items }
    ensures takes { TakesAll (owner_if C.exact C.home) party.old.acceptor
        (reached C.exact C.messages_of C.events_of party.old.session pass.old.share) frames.items
        (reached C.exact C.messages_of C.events_of party.new.session pass.new.share) result }
    ensures keeps { party.new.acceptor ≡ party.old.acceptor }
{
    for frame in frames {
        take_one(rt, alloc, party, book, pass, frame)?;
    }
    Ok(())
}
