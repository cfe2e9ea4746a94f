//! Worlds of several machines in one thread, each drawn from a seed: a network of some partitions,
//! of one or two replicas each, as the program serves them, over connections that are made,
//! refused, held, cut and delayed by the seed; machines vanish and are begun again, and nothing
//! arrives for a while. From some time on the weather is calm. Then all replicas have to end as
//! done soon, and their books are certified: their traces are that of the one event list.
//!
//! Two words are the first seed and how many there are. Before them come the worlds with names,
//! each with its list of events: calls that are held, a machine that vanishes, a Bye that is lost,
//! a caller that comes late. It prints a line for each world that ended otherwise, and last how
//! many seeds were tried.
#![tactic(auto)]

mod chance;
mod flow;
mod hub;
mod machine;
mod scripts;
mod told;
mod transport;
mod weather;
mod wire;
mod world;

use nm_fixtures::{RING, SHIFT, SPLIT};
use std::alloc::Global;
use std::env;
use std::io::{Error, ErrorKind};
use std::sync::Wait;
use told::SCRIPTS;
use weather::Schedule;
use world::{Verdict, try_world};

/// The number of a word.
fn number(word: Option<String>) -> Result<u64, Error> {
    let word = word.ok_or(ErrorKind::InvalidInput)?;
    match word.as_str().parse::<u64>() {
        Ok(number) => Ok(number),
        Err(_) => Err(ErrorKind::InvalidInput.into()),
    }
}

/// The network of a seed, and how many replicas each of its partitions has.
fn network(seed: u64) -> (&'static str, u8) {
    let text = match seed % 3 {
        0 => SPLIT,
        1 => SHIFT,
        _ => RING,
    };
    let replicas = if seed / 3 % 2 == 0 { 1 } else { 2 };
    (text, replicas)
}

/// After so many worlds that went wrong no other is tried: such a one lasts longest.
const MOST_WRONG: u64 = 20;

/// How many worlds went wrong, and in how many a Bye was lost.
#[derive(Clone, Copy)]
struct Counts {
    wrong: u64,
    late: u64,
}

impl Counts {
    /// One more world.
    fn add(&mut self, verdict: Verdict) {
        match verdict {
            Verdict::Fine(0) => {}
            Verdict::Fine(_) => self.late = self.late.saturating_add(1),
            _ => self.wrong = self.wrong.saturating_add(1),
        }
    }
}

/// The line of a world that did not end as it should.
fn say(rt: &HostRuntime, name: &str, verdict: Verdict) -> Result<(), Error> {
    match verdict {
        Verdict::Fine(_) => {}
        Verdict::NotDone(machine, end) => println!(rt; "{name}: machine {machine} {end}")?,
        Verdict::Early(machine, time) => {
            println!(rt; "{name}: machine {machine} is done after {time} ms already")?;
        }
        Verdict::Calls(count) => println!(rt; "{name}: {count} calls are too many")?,
        Verdict::NotCertified => println!(rt; "{name}: not certified")?,
    }
    Ok(())
}

fn main(rt: HostRuntime) -> Result<(), Error> {
    let mut words = env::args(&rt)?.skip(1);
    let first = number(words.next())?;
    let count = number(words.next())?;
    let mut counts = Counts { wrong: 0, late: 0 };
    for script in SCRIPTS {
        let schedule = Schedule::Told(*script);
        let verdict = try_world(&rt, rt.alloc(), script.network, script.replicas, schedule)?;
        say(&rt, script.name, verdict)?;
        counts.add(verdict);
    }
    let mut tried = 0u64;
    for seed in first..first.saturating_add(count) {
        if counts.wrong >= MOST_WRONG {
            break;
        }
        tried = tried.saturating_add(1);
        let (text, replicas) = network(seed);
        let verdict = try_world(&rt, rt.alloc(), text, replicas, Schedule::Drawn(seed))?;
        let name = format!(in rt.alloc(); "{seed}")?;
        say(&rt, name.as_str(), verdict)?;
        counts.add(verdict);
    }
    let Counts { wrong, late } = counts;
    println!(rt; "{tried} worlds, {late} with a Bye that was lost, {wrong} wrong")?;
    if wrong > 0 {
        return Err(ErrorKind::Other.into());
    }
    Ok(())
}
