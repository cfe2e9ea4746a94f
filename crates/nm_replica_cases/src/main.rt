//! Compares the layers from replicas up to certificates and links with the cases in `data/cases/`.
//!
//! A case is a file `NAME.case` of lines. A line is a command, ` -> ` and what it answers; without
//! an answer it is `ok`. Empty lines, and lines that begin with `#`, are skipped.
//!
//! ```text
//! text split.toml
//! book 0 0
//! null 0 0 0 1000000 -> raised
//! run 0 10 -> all 2
//! safe 0 -> 1000000
//! ```
//!
//! | Command | Does and answers |
//! |---|---|
//! | `text NAME` | begins again with the network of `data/texts/NAME` |
//! | module `books` | replicas, by their numbers in the order in which they were made |
//! | module `drains` | records that replicas hand out |
//! | module `certificates` | certificates of some of these replicas |
//! | module `replays` | replays of steps, and rounds |
//! | module `streams` | octets to frames, and back |
//! | module `sessions` | sessions, by their numbers, over one of these replicas |
//! | module `talks` | two replicas that talk over a connection which breaks |
//! | module `links` | links of shared replicas over wires in memory, cut at each octet |
//!
//! Answers come from outside: from the rules in docs/, worked out by hand. The program prints each
//! line that is answered otherwise, and how many lines each case has.
#![tactic(auto)]

mod bench;
mod books;
mod certificates;
mod cuts;
mod drains;
mod ends;
mod links;
mod octets;
mod pieces;
mod promises;
mod replays;
mod run;
mod said;
mod scripted;
mod sessions;
mod streams;
mod talks;
mod truth;
mod words;

use run::run_all;
use std::io;

fn main(rt: HostRuntime) -> io::Result<()> {
    run_all(&rt)
}
