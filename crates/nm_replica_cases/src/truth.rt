//! Replicas that exchange all that they know.

use nm_base::ChanNo;
use nm_book::{Book, ChannelMessage};
use nm_topology::Topology;
use nm_topology::topology::accepted_topologies_are_in_order;
use std::alloc::Global;
use std::io;

/// How many channels a network has.
pub fn channels_of(topology: &Topology) -> u32 {
    accepted_topologies_are_in_order(topology); // law: they have numbers of 32 bits
    topology.receivers().len() as u32
}

/// All replicas get this, and refuse it if the channel does not come in.
fn tell_all(books: &mut [Book], told: &ChannelMessage) {
    for book in books.iter_mut() {
        let _answer = book.accept(told);
    }
}

/// All get a message that a replica sent.
fn tell_message(books: &mut [Book], sender: usize, channel: ChanNo, at: u64) -> io::Result<()> {
    let Some(book) = books.get(sender) else {
        return Ok(());
    };
    if let Some(data) = book.data(channel, at)? {
        tell_all(books, &ChannelMessage::Data(data));
    }
    Ok(())
}

/// All get what a replica sent on a channel, and its promise.
fn tell_channel(books: &mut [Book], sender: usize, channel: ChanNo) -> io::Result<()> {
    let Some(book) = books.get(sender) else {
        return Ok(());
    };
    let Some(null) = book.null(channel) else {
        return Ok(());
    };
    for at in 0..null.count {
        tell_message(books, sender, channel, at)?;
    }
    tell_all(books, &ChannelMessage::Null(null));
    Ok(())
}

/// A round: each replica does what is safe, and then all get all.
pub fn do_round(alloc: Global, books: &mut [Book], channels: u32) -> io::Result<()> {
    for book in books.iter_mut() {
        let _ran = book.run_safe(alloc, 1000);
    }
    for sender in 0..books.len() {
        for channel in 0..channels {
            tell_channel(books, sender, ChanNo::new(channel))?;
        }
    }
    Ok(())
}
