//! Replicas. B and S are numbers of replicas, C is a channel, N the number of a message, and times
//! are nanoseconds.
//!
//! | Command | Does and answers |
//! |---|---|
//! | `book P R` | makes replica R of partition P |
//! | `null B C COUNT CLOCK` | B gets a null message: `raised`, or what it answers |
//! | `octet B C N TIME VALUE` | B gets a message, a packet of one octet |
//! | `long B C N TIME OCTETS` | B gets a message, a packet of so many octets of 0 |
//! | `tell B S C N` | B gets S's message, which S has to have sent |
//! | `late B S C N BY` | the same, with a time that is later by so much |
//! | `again B S C N TIME` | B gets S's message 0 as message N of this time |
//! | `promise B S C` | B gets S's null message |
//! | `run B LIMIT` | `all`, `limit` or `memory`, and how many events were done |
//! | `merge B S` | B merges what S knows: `merged`, or why it does not |
//! | `hand B` | the record that B hands out, `TIME IFACE in` or `out` and the packet's identification, or `none` |
//! | `safe B`, `state B` | its safe time; how many events it did, and `done` or `going` |
//! | `promises B C` | its promise, its old promise and how many messages it sent, or `inward` (module `promises`) |
//! | `sent B C N` | the time of a message that it sent, or `none` |
//! | `records B` | how many records were handed out, how many there are, and how many are kept |
//! | `totals B IFACE` | how many records an interface has, and the octets of its trace file |
//! | `knows B C` | how many messages it knows, and the clock |
//! | `message B C N` | the time and the octets of a message that it knows, or `none` |
//! | `fill B C COUNT` | B gets so many messages, of the times 1, 2, .. and an octet 7 |
//! | `equal B S C` | `equal` if both know the same messages of this channel, and the same clock |
//! | `alike B S` | `alike` if both know, did, recorded, sent and promise the same |

use crate::bench::{Bench, book, book_mut, book_of};
use crate::octets::hexadecimal;
use crate::promises::promises;
use crate::said::{Word, accepted, alike_word, merged, ran, text};
use crate::truth::channels_of;
use crate::words::Words;
use bytes::Bytes;
use nm_alike::{are_alike, are_equal};
use nm_base::{ChanNo, Dir, IfaceNo, Packet, Time};
use nm_book::{Book, ChannelMessage, Data, Null};
use std::alloc::Global;
use std::io;

/// A null message.
pub fn null(channel: u32, count: u64, clock: u64) -> ChannelMessage {
    ChannelMessage::Null(Null {
        channel: ChanNo::new(channel),
        count,
        clock: Time::from_nanoseconds(clock),
    })
}

/// A packet of so many octets of this value.
fn packet_of(alloc: Global, count: usize, value: u8) -> io::Result<Packet> {
    let mut octets = Vec::new(alloc);
    octets.resize(count, value)?;
    match Packet::new(alloc, Bytes::from_vec(octets)?)? {
        Some(packet) => Ok(packet),
        None => Err(io::Error::other("that is no packet")),
    }
}

/// A message.
fn message(channel: u32, number: u64, time: u64, packet: Packet) -> ChannelMessage {
    ChannelMessage::Data(Data {
        channel: ChanNo::new(channel),
        number,
        time: Time::from_nanoseconds(time),
        packet,
    })
}

/// A message that a replica sent, later by so much.
fn sent_by(sender: &Book, channel: u32, number: u64, late: u64) -> io::Result<ChannelMessage> {
    match sender.data(ChanNo::new(channel), number)? {
        Some(data) => {
            let time = data.time.nanoseconds().saturating_add(late);
            Ok(message(channel, number, time, data.packet))
        }
        None => Err(io::Error::other("there is no such message")),
    }
}

/// A replica gets this.
fn tell(books: &mut [Book], to: usize, told: &ChannelMessage) -> io::Result<Word> {
    let told = book_mut(books, to)?.accept(told);
    Ok(accepted(&told))
}

/// `tell` and `late`: a replica gets what another one sent, later by so much.
fn tell_sent(books: &mut [Book], words: Words, late: u64) -> io::Result<Word> {
    let sender = book(books, words.index(2)?)?;
    let told = sent_by(sender, words.short(3)?, words.number(4)?, late)?;
    tell(books, words.index(1)?, &told)
}

/// `again`: a replica gets message 0 of another one under another number.
fn tell_again(books: &mut [Book], words: Words) -> io::Result<Word> {
    let channel = words.short(3)?;
    let sender = book(books, words.index(2)?)?;
    let Some(data) = sender.data(ChanNo::new(channel), 0)? else {
        return Err(io::Error::other("there is no such message"));
    };
    let told = message(channel, words.number(4)?, words.number(5)?, data.packet);
    tell(books, words.index(1)?, &told)
}

/// `octet` and `long`: a replica gets a message of this packet.
fn tell_packet(books: &mut [Book], words: Words, packet: Packet) -> io::Result<Word> {
    let told = message(words.short(2)?, words.number(3)?, words.number(4)?, packet);
    tell(books, words.index(1)?, &told)
}

/// `null`: a replica gets a null message.
fn tell_null(books: &mut [Book], words: Words) -> io::Result<Word> {
    let told = null(words.short(2)?, words.number(3)?, words.number(4)?);
    tell(books, words.index(1)?, &told)
}

/// `promise`: a replica gets the null message of another one.
fn tell_promise(books: &mut [Book], words: Words) -> io::Result<Word> {
    let channel = ChanNo::new(words.short(3)?);
    let Some(null) = book(books, words.index(2)?)?.null(channel) else {
        return Ok(("inward", None));
    };
    tell(books, words.index(1)?, &ChannelMessage::Null(null))
}

/// `run`: a replica does what is safe.
fn run(alloc: Global, books: &mut [Book], words: Words) -> io::Result<Word> {
    let limit = words.number(2)?;
    Ok(ran(book_mut(books, words.index(1)?)?.run_safe(alloc, limit)))
}

/// `merge`: a replica merges what another one knows.
fn merge(alloc: Global, books: &mut [Book], words: Words) -> io::Result<String> {
    let known = book(books, words.index(2)?)?.copy_knowledge(alloc)?;
    let answer = book_mut(books, words.index(1)?)?.merge(alloc, &known);
    Ok(merged(alloc, &answer)?)
}

/// The commands that change a replica.
#[derive(Clone, Copy)]
enum Change {
    Null,
    Octet,
    Long,
    Tell,
    Late,
    Again,
    Promise,
    Fill,
    Run,
}

/// Their names.
const CHANGES: &[(&str, Change)] = &[
    ("null", Change::Null),
    ("octet", Change::Octet),
    ("long", Change::Long),
    ("tell", Change::Tell),
    ("late", Change::Late),
    ("again", Change::Again),
    ("promise", Change::Promise),
    ("fill", Change::Fill),
    ("run", Change::Run),
];

/// The change of a name.
fn change_of(name: &str) -> Option<Change> {
    for (other, change) in CHANGES {
        if *other == name {
            return Some(*change);
        }
    }
    None
}

/// What a replica answers to a packet of an octet, or of so many octets of 0.
fn tell_octets(
    alloc: Global,
    books: &mut [Book],
    words: Words,
    count: usize,
    value: u8,
) -> io::Result<Word> {
    let packet = packet_of(alloc, count, value)?;
    tell_packet(books, words, packet)
}

/// Changes a replica.
fn make_change(
    alloc: Global,
    books: &mut [Book],
    words: Words,
    change: Change,
) -> io::Result<Word> {
    match change {
        Change::Null => tell_null(books, words),
        Change::Octet => tell_octets(alloc, books, words, 1, words.octet(5)?),
        Change::Long => tell_octets(alloc, books, words, words.index(5)?, 0),
        Change::Tell => tell_sent(books, words, 0),
        Change::Late => tell_sent(books, words, words.number(5)?),
        Change::Again => tell_again(books, words),
        Change::Promise => tell_promise(books, words),
        Change::Fill => fill(alloc, books, words),
        Change::Run => run(alloc, books, words),
    }
}

/// The identification of a packet: octets 4 and 5 of its header (RFC 791, section 3.1).
fn identification(octets: &[u8]) -> u64 {
    match (octets.get(4), octets.get(5)) {
        (Some(high), Some(low)) => u64::from(*high) * 256 + u64::from(*low),
        _ => 0,
    }
}

/// The record that a replica hands out.
fn hand(alloc: Global, books: &mut [Book], of: usize) -> io::Result<String> {
    let Some(record) = book_mut(books, of)?.hand_out() else {
        return Ok(String::from_str(alloc, "none")?);
    };
    let way = match record.dir {
        Dir::In => "in",
        Dir::Out => "out",
    };
    let (time, iface) = (record.time.nanoseconds(), record.iface.number());
    let number = identification(record.packet.octets());
    Ok(format!(in alloc; "{time} {iface} {way} {number}")?)
}

/// The time of a message that a replica sent.
fn sent(alloc: Global, book: &Book, channel: u32, at: u64) -> io::Result<String> {
    match book.data(ChanNo::new(channel), at)? {
        Some(data) => Ok(format!(in alloc; "{}", data.time.nanoseconds())?),
        None => Ok(String::from_str(alloc, "none")?),
    }
}

/// What a replica knows of a channel.
fn knows(alloc: Global, book: &Book, channel: u32) -> io::Result<String> {
    match book.know(ChanNo::new(channel)) {
        Some(know) => Ok(format!(in alloc; "{} {}", know.len(), know.clock().nanoseconds())?),
        None => Ok(String::from_str(alloc, "stranger")?),
    }
}

/// A message that a replica knows.
fn known_message(alloc: Global, book: &Book, channel: u32, at: u64) -> io::Result<String> {
    let Some(know) = book.know(ChanNo::new(channel)) else {
        return Ok(String::from_str(alloc, "stranger")?);
    };
    match know.message(at) {
        Some((time, packet)) => {
            let octets = hexadecimal(alloc, packet.octets())?;
            Ok(format!(in alloc; "{} {octets}", time.nanoseconds())?)
        }
        None => Ok(String::from_str(alloc, "none")?),
    }
}

/// Whether two replicas know the same of a channel.
fn equal(alloc: Global, books: &[Book], words: Words) -> io::Result<String> {
    let channel = ChanNo::new(words.short(3)?);
    let one = book(books, words.index(1)?)?.know(channel);
    let other = book(books, words.index(2)?)?.know(channel);
    let (Some(one), Some(other)) = (one, other) else {
        return Ok(String::from_str(alloc, "stranger")?);
    };
    let word = if are_equal(one, other) {
        "equal"
    } else {
        "unequal"
    };
    Ok(String::from_str(alloc, word)?)
}

/// `fill`: a replica gets so many messages.
fn fill(alloc: Global, books: &mut [Book], words: Words) -> io::Result<Word> {
    let channel = words.short(2)?;
    let packet = packet_of(alloc, 1, 7)?;
    let book = book_mut(books, words.index(1)?)?;
    for number in 0..words.number(3)? {
        let told = message(channel, number, number.saturating_add(1), packet.clone()?);
        if book.accept(&told).is_err() {
            return Ok(("refused", Some(number)));
        }
    }
    Ok(("ok", None))
}

/// The commands that look at a replica.
#[derive(Clone, Copy)]
enum Look {
    Safe,
    State,
    Promises,
    Sent,
    Records,
    Totals,
    Knows,
    Message,
    Equal,
}

/// Their names.
const LOOKS: &[(&str, Look)] = &[
    ("safe", Look::Safe),
    ("state", Look::State),
    ("promises", Look::Promises),
    ("sent", Look::Sent),
    ("records", Look::Records),
    ("totals", Look::Totals),
    ("knows", Look::Knows),
    ("message", Look::Message),
    ("equal", Look::Equal),
];

/// The look of a name.
fn look_of(name: &str) -> Option<Look> {
    for (other, look) in LOOKS {
        if *other == name {
            return Some(*look);
        }
    }
    None
}

/// How many events a replica did, and whether it is done.
fn state(alloc: Global, book: &Book) -> io::Result<String> {
    let word = if book.done() { "done" } else { "going" };
    Ok(format!(in alloc; "{} {word}", book.events())?)
}

/// How many records a replica handed out, has, and keeps.
fn records(alloc: Global, book: &Book) -> io::Result<String> {
    let (handed, all, kept) = (book.handed(), book.records(), book.trace().len());
    Ok(format!(in alloc; "{handed} {all} {kept}")?)
}

/// How many records an interface has, and the octets of its trace file.
fn totals(alloc: Global, book: &Book, iface: u32) -> io::Result<String> {
    let (records, octets) = book.totals(IfaceNo::new(iface));
    Ok(format!(in alloc; "{records} {octets}")?)
}

/// Whether two replicas are alike.
fn alike(bench: &Bench, alloc: Global, words: Words) -> io::Result<String> {
    let books = bench.books.as_slice();
    let (one, other) = (book(books, words.index(1)?)?, book(books, words.index(2)?)?);
    let word = alike_word(are_alike(one, other, channels_of(&bench.topology)));
    Ok(String::from_str(alloc, word)?)
}

/// Looks at a replica.
fn take_look(alloc: Global, books: &[Book], words: Words, look: Look) -> io::Result<String> {
    let book = book(books, words.index(1)?)?;
    match look {
        Look::Safe => Ok(format!(in alloc; "{}", book.safe().nanoseconds())?),
        Look::State => state(alloc, book),
        Look::Promises => promises(alloc, book, ChanNo::new(words.short(2)?)),
        Look::Sent => sent(alloc, book, words.short(2)?, words.number(3)?),
        Look::Records => records(alloc, book),
        Look::Totals => totals(alloc, book, words.short(2)?),
        Look::Knows => knows(alloc, book, words.short(2)?),
        Look::Message => known_message(alloc, book, words.short(2)?, words.number(3)?),
        Look::Equal => equal(alloc, books, words),
    }
}

/// Makes a replica.
fn add_book(bench: &mut Bench, alloc: Global, words: Words) -> io::Result<String> {
    let book = book_of(alloc, &bench.topology, words.short(1)?, words.octet(2)?)?;
    bench.books.push(book)?;
    Ok(String::from_str(alloc, "ok")?)
}

/// What a line about replicas answers, or None if it is about something else.
pub fn answer(bench: &mut Bench, alloc: Global, words: Words) -> io::Result<Option<String>> {
    if words.is("book") {
        return Ok(Some(add_book(bench, alloc, words)?));
    }
    if words.is("alike") {
        return Ok(Some(alike(bench, alloc, words)?));
    }
    if words.is("merge") {
        return Ok(Some(merge(alloc, bench.books.as_mut_slice(), words)?));
    }
    if words.is("hand") {
        return Ok(Some(hand(alloc, bench.books.as_mut_slice(), words.index(1)?)?));
    }
    if let Some(which) = change_of(words.name()) {
        let said = make_change(alloc, bench.books.as_mut_slice(), words, which)?;
        return Ok(Some(text(alloc, said)?));
    }
    match look_of(words.name()) {
        Some(which) => Ok(Some(take_look(alloc, bench.books.as_slice(), words, which)?)),
        None => Ok(None),
    }
}
