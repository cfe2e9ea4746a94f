//! How many messages a book knows.

ghost use Rattle.std.specs.Prelude.{◌≡◌, ◌≤◌, ◌*◌, ◌^◌, length};
ghost use Rattle.nm_shared.specs.Known.{messages_known, messages_of};

use nm_base::ChanNo;
use nm_book::Book;
use nm_topology::topology::accepted_topologies_are_in_order;

/// How many messages it knows of a channel, if that comes in.
fn messages_of_channel(book: &Book, channel: ChanNo) -> u64
    ensures value { result ≡ messages_of book.now.topology book.now.partition
        book.now.knows channel }
    ensures most { result ≤ 2 ^ 50 }
{
    match book.know(channel) {
        Some(know) => know.len() as u64,
        None => 0,
    }
}

/// How many messages it knows.
pub fn messages(book: &Book) -> u64
    ensures { result ≡ messages_known book.now }
{
    accepted_topologies_are_in_order(book.topology()); // law: there are at most 512 channels
    let mut sum = 0;
    for channel in 0..book.topology().receivers().len() {
        sum += messages_of_channel(book, book.topology().channel_number(channel));
    }
    sum
}
