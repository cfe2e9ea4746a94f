//! Works an event list, knowledge of a channel, or the parts of a simulation, so that it can be
//! timed from outside (`make bench`). One word says which:
//! - `heap-random`, `heap-nearly`, `sorted-random` and `sorted-nearly` take a million keys through a
//!   list of 4,096, and print the last one's time;
//! - `know` makes knowledge of a million messages, and `copy` copies it a hundred times;
//! - `write` writes 200,000 messages of 100 octets as frames, and `read-1`, `read-100` and
//!   `read-65536` read them too, in pieces of so many octets;
//! - `links-100` and `links-1500` let a replica tell another 50,000 messages of so many octets over
//!   two links, and `sends-100` and `sends-1500` only make them.
//!
//! With a second word, the name of a file with a topology:
//! - `topology` reads it, and prints how many nodes there are;
//! - `parts` starts two parts for each partition, and prints how many;
//! - `kept` and `flat` run the whole network to its stop, and print how many records there are:
//!   `flat` lets each go as it is made, and `kept` none;
//! - `rounds` lets all partitions run in rounds until all are done, and prints how many rounds and
//!   records there are;
//! - `told` tells replica 0 of partition 0 a million messages of its channels, and lets it run after
//!   each;
//! - `acts-1`, `acts-2` and `acts-4` tell one shared replica a million null messages by so many
//!   threads, `apart-2` and `apart-4` as many replicas as threads, and `jobs` gives a pool of four
//!   threads 100,000 jobs.
//!
//! `streams FILE` reads a file of streams of frames, and shows the frames (`dev/check/frames`).
//! `cuts FILE FROM COUNT` has two replicas of a topology with two partitions send each other all
//! over links that break at random, with so many seeds, and prints how many are not certified
//! (`dev/check/links`).
#![tactic(auto)]

mod callers;
mod chance;
mod cut_wire;
mod cuts;
mod frames;
mod links;
mod network;
mod pipes;
mod replica;
mod rounds;
mod shared;
mod streams;
mod turns;

use bytes::Bytes;
use cuts::try_seeds;
use frames::frames_read;
use links::messages_told;
use network::{Task, Threading, work_over};
use nm_base::{Packet, Time};
use nm_events::{EventList, HeapList, SortedList};
use nm_knowledge::{Accepted, Know};
use rounds::rounds_over;
use std::alloc::{AllocError, Global};
use std::io::{Error, ErrorKind};
use std::sync::Wait;
use std::{env, fs};
use streams::read_streams;
use turns::{Order, turn_over};

/// A million keys through a list of 4,096.
fn work<L: EventList + Drop>(alloc: Global, order: Order) -> Result<u64, AllocError> {
    let mut list = L::new(alloc);
    turn_over(&mut list, order, 4_096, 1_000_000)
}

/// Knowledge of a million messages, copied so many times.
fn copy(alloc: Global, copies: u64) -> Result<u64, Error> {
    let octets = Vec::from_slice(alloc, &[1, 2, 3])?;
    let packet = Packet::new(alloc, Bytes::from_vec(octets)?)?.ok_or(ErrorKind::InvalidData)?;
    let mut know = Know::new(alloc);
    for number in 0..1_000_000 {
        if know.accept_data(number, Time::from_nanoseconds(number + 1), &packet)
            != Ok(Accepted::New)
        {
            return Err(ErrorKind::OutOfMemory.into());
        }
    }
    let mut kept = Vec::new(alloc);
    for _ in 0..copies {
        kept.push(know.copy(alloc)?)?;
    }
    Ok(kept.len() as u64)
}

/// Does the work that one word names.
fn work_alone<R: Wait + AllocGlobal>(rt: &R, word: &str) -> Result<u64, Error> {
    let alloc = rt.alloc();
    let done = match word {
        "heap-random" => work::<HeapList>(alloc, Order::Random)?,
        "heap-nearly" => work::<HeapList>(alloc, Order::Nearly)?,
        "sorted-random" => work::<SortedList>(alloc, Order::Random)?,
        "sorted-nearly" => work::<SortedList>(alloc, Order::Nearly)?,
        "know" => copy(alloc, 0)?,
        "copy" => copy(alloc, 100)?,
        "write" => frames_read(alloc, 0)?,
        "read-1" => frames_read(alloc, 1)?,
        "read-100" => frames_read(alloc, 100)?,
        "read-65536" => frames_read(alloc, 65_536)?,
        "links-100" => messages_told(rt, alloc, "72", true)?,
        "links-1500" => messages_told(rt, alloc, "1472", true)?,
        "sends-100" => messages_told(rt, alloc, "72", false)?,
        "sends-1500" => messages_told(rt, alloc, "1472", false)?,
        _ => return Err(ErrorKind::InvalidInput.into()),
    };
    Ok(done)
}

/// The task over a topology that a word names.
fn task(word: &str) -> Option<Task> {
    match word {
        "topology" => Some(Task::Read),
        "parts" => Some(Task::Parts),
        "kept" => Some(Task::Kept),
        "flat" => Some(Task::Flat),
        "told" => Some(Task::Told),
        "acts-1" => Some(Task::Acts(Threading::One)),
        "acts-2" => Some(Task::Acts(Threading::Two)),
        "acts-4" => Some(Task::Acts(Threading::Four)),
        "apart-2" => Some(Task::Acts(Threading::TwoApart)),
        "apart-4" => Some(Task::Acts(Threading::FourApart)),
        "jobs" => Some(Task::Jobs),
        _ => None,
    }
}

/// The number in a word.
fn number(word: Option<String>) -> Result<u64, Error> {
    let word = word.ok_or(ErrorKind::InvalidInput)?;
    match word.as_str().parse::<u64>() {
        Ok(number) => Ok(number),
        Err(_) => Err(ErrorKind::InvalidInput.into()),
    }
}

fn main(rt: HostRuntime) -> Result<(), Error> {
    let mut words = env::args(&rt)?.skip(1);
    let word = words.next().ok_or(ErrorKind::InvalidInput)?;
    let done = match words.next() {
        None => work_alone(&rt, word.as_str())?,
        Some(path) if word.as_str() == "cuts" => {
            let from = number(words.next())?;
            return try_seeds(&rt, path.as_str(), from, number(words.next())?);
        }
        Some(path) if word.as_str() == "streams" => {
            let octets = fs::read(&rt, path.as_str())?;
            read_streams(&rt, octets.as_slice())?
        }
        Some(path) if word.as_str() == "rounds" => {
            let (rounds, records) = rounds_over(&rt, path.as_str())?;
            println!(rt; "{rounds} rounds, {records} records")?;
            return Ok(());
        }
        Some(path) => {
            let task = task(word.as_str()).ok_or(ErrorKind::InvalidInput)?;
            work_over(&rt, task, path.as_str())?
        }
    };
    println!(rt; "{done}")?;
    Ok(())
}
