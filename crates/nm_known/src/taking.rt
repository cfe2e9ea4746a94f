//! The frames of a file, taken one after another.

ghost use Rattle.std.specs.Prelude.{◌≡◌, ◌&&◌, ◌==◌, List, [], ◌∷◌, ◌++◌, length};
ghost use Rattle.std.specs.Prelude.{IfErr, IfOk, OnOk};
ghost use Rattle.nm_book.specs.Book.{is_incoming};
ghost use Rattle.nm_frames.specs.declared.frame.Frame.{Frame as FrameValue};
ghost use Rattle.nm_known.specs.Known.{channel_known, replica_hello};
ghost use Rattle.nm_known.specs.Reading.{Explains, HasHeard, IsAfter, Learned, Refuses};
ghost use Rattle.nm_known.specs.Reading.{RefusesHello};

use crate::known_fault::{KnownCause, KnownFault, accept_fault};
use nm_base::{ChanNo, Time};
use nm_book::{Book, ChannelMessage, Data, Null};
use nm_frames::{Frame, Hello, Version};

/// What comes next in a file.
#[derive(Clone, Copy)]
pub(crate) enum Expected {
    /// Its Hello.
    Hello,
    /// A message of this channel, or its null message, which is the last of it.
    Channel(ChanNo),
    /// Its end.
    End,
}

/// What comes next after all channels below this number: the next one that comes in, if there is
/// one.
fn next_channel(book: &Book, below: usize) -> Expected
    ensures { IsAfter book.now below result }
{
    for number in below..book.topology().receivers().len() {
        let channel = book.topology().channel_number(number);
        if book.know(channel).is_some() {
            return Expected::Channel(channel);
        }
    }
    Expected::End
}

/// Whether a Hello is that of the replica's own file.
fn check_hello(book: &Book, hello: &Hello) -> Result<(), KnownFault>
    ensures own { OnOk result (FrameValue.Hello hello.now ≡ replica_hello book.now) }
    ensures why { IfErr result (RefusesHello book.now hello.now) }
{
    if hello.digest != book.topology().digest() {
        return Err(KnownFault::Refused(KnownCause::Topology));
    }
    if hello.version != Version::Two.number()
        || hello.partition != book.partition()
        || hello.replica != book.replica()
    {
        return Err(KnownFault::Refused(KnownCause::Form));
    }
    Ok(())
}

/// Takes the first frame, which is to be the Hello.
fn take_first(book: &Book, frame: &Frame) -> Result<Expected, KnownFault>
    ensures heard { (told : List FrameValue) → HasHeard book.now Expected.Hello told
        → IfOk result (λ next. HasHeard book.now next (told ++ frame.now ∷ [])) }
    ensures why { (told : List FrameValue) → HasHeard book.now Expected.Hello told
        → IfErr result (Explains book.now (told ++ frame.now ∷ [])) }
{
    let Frame::Hello(hello) = frame else {
        return Err(KnownFault::Refused(KnownCause::Form));
    };
    check_hello(book, hello)?;
    Ok(next_channel(book, 0))
}

/// Whether this is the number of the next message of the present channel.
fn is_next(book: &Book, told: ChanNo, channel: ChanNo, number: u64) -> bool
    ensures { result ≡ (is_incoming book.now told && (channel == told)
        && (number == length (channel_known book.now told).list)) }
{
    match book.know(told) {
        Some(know) => channel == told && number == know.len() as u64,
        None => false,
    }
}

/// Whether the channel has this clock.
fn has_clock(book: &Book, channel: ChanNo, clock: Time) -> bool
    ensures { result ≡ (is_incoming book.now channel
        && ((channel_known book.now channel).clock == clock)) }
{
    match book.know(channel) {
        Some(know) => know.clock() == clock,
        None => false,
    }
}

/// Hands a message to the book.
fn tell(book: &mut Book, message: &ChannelMessage) -> Result<(), KnownFault>
    ensures learned { OnOk result (Learned book.old book.new message.now) }
    ensures same { book.new ≡ record book.old { knows = book.new.knows } }
    ensures why { IfErr result (Refuses book.old message.now) }
{
    match book.accept(message) {
        Ok(_) => Ok(()),
        Err(fault) => Err(accept_fault(fault)),
    }
}

/// Takes a message of the present channel. It is to be the next one.
fn take_data(book: &mut Book, channel: ChanNo, message: Data) -> Result<Expected, KnownFault>
    ensures heard { (told : List FrameValue) → HasHeard book.old (Expected.Channel channel) told
        → IfOk result (λ next. HasHeard book.new next (told ++ FrameValue.Data message ∷ [])) }
    ensures same { book.new ≡ record book.old { knows = book.new.knows } }
    ensures why { (told : List FrameValue) → HasHeard book.old (Expected.Channel channel) told
        → IfErr result (Explains book.old (told ++ FrameValue.Data message ∷ [])) }
{
    if !is_next(book, channel, message.channel, message.number) {
        return Err(KnownFault::Refused(KnownCause::Form));
    }
    tell(book, &ChannelMessage::Data(message))?;
    Ok(Expected::Channel(channel))
}

/// Takes the null message of the present channel. It is to have the number of messages that came,
/// and the clock that the channel has then.
fn take_null(book: &mut Book, channel: ChanNo, null: &Null) -> Result<Expected, KnownFault>
    ensures heard { (told : List FrameValue) → HasHeard book.old (Expected.Channel channel) told
        → IfOk result (λ next. HasHeard book.new next (told ++ FrameValue.Null null.now ∷ [])) }
    ensures same { book.new ≡ record book.old { knows = book.new.knows } }
    ensures why { (told : List FrameValue) → HasHeard book.old (Expected.Channel channel) told
        → IfErr result (Explains book.old (told ++ FrameValue.Null null.now ∷ [])) }
{
    if !is_next(book, channel, null.channel, null.count) {
        return Err(KnownFault::Refused(KnownCause::Form));
    }
    tell(book, &ChannelMessage::Null(*null))?;
    if !has_clock(book, channel, null.clock) {
        return Err(KnownFault::Refused(KnownCause::Form));
    }
    Ok(next_channel(book, channel.index() + 1))
}

/// Takes a frame of the present channel.
fn take_of(book: &mut Book, channel: ChanNo, frame: Frame) -> Result<Expected, KnownFault>
    ensures heard { (told : List FrameValue) → HasHeard book.old (Expected.Channel channel) told
        → IfOk result (λ next. HasHeard book.new next (told ++ frame ∷ [])) }
    ensures same { book.new ≡ record book.old { knows = book.new.knows } }
    ensures why { (told : List FrameValue) → HasHeard book.old (Expected.Channel channel) told
        → IfErr result (Explains book.old (told ++ frame ∷ [])) }
{
    match frame {
        Frame::Data(message) => take_data(book, channel, message),
        Frame::Null(null) => take_null(book, channel, &null),
        Frame::Hello(_) | Frame::Have(_) | Frame::Bye => {
            Err(KnownFault::Refused(KnownCause::Form))
        }
    }
}

/// Takes a frame.
fn take(book: &mut Book, expected: Expected, frame: Frame) -> Result<Expected, KnownFault>
    ensures heard { (told : List FrameValue) → HasHeard book.old expected told
        → IfOk result (λ next. HasHeard book.new next (told ++ frame ∷ [])) }
    ensures same { book.new ≡ record book.old { knows = book.new.knows } }
    ensures why { (told : List FrameValue) → HasHeard book.old expected told
        → IfErr result (Explains book.old (told ++ frame ∷ [])) }
{
    match expected {
        Expected::Hello => take_first(book, &frame),
        Expected::Channel(channel) => take_of(book, channel, frame),
        Expected::End => Err(KnownFault::Refused(KnownCause::Form)),
    }
}

/// Takes frames, up to the first that is refused. What comes next then.
///
/// # Errors
///
/// `Topology` if the first frame of the file is the Hello of another topology. `Form` if a frame is
/// out of turn, or the book refuses it. `Memory` if memory was refused. Of the frames before it the
/// book has learned.
pub(crate) fn take_all(
    book: &mut Book,
    expected: Expected,
    frames: Vec<Frame>,
) -> Result<Expected, KnownFault>
    ensures heard { (told : List FrameValue) → HasHeard book.old expected told
        → IfOk result (λ next. HasHeard book.new next (told ++ frames.items)) }
    ensures same { book.new ≡ record book.old { knows = book.new.knows } }
    ensures why { (told : List FrameValue) → HasHeard book.old expected told
        → IfErr result (Explains book.old (told ++ frames.items)) }
{
    let mut next = expected;
    for frame in frames {
        next = take(book, next, frame)?;
    }
    Ok(next)
}
