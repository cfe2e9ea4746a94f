//! Compares the simulator with the cases in `data/cases/`, and prints each line that differs.
//!
//! No case comes from this program. Those in `networks`, `readings` and `runs`, and most of those in
//! `rounds` and `script`, were made by an independent model of the rules in docs/RULES.md,
//! docs/FORMATS.md and docs/MODEL.md, the others by hand. A case is added by
//! adding its files, or some lines to a table: each folder of `data/cases/` is listed, and each
//! file in it is run. Nothing else has to be changed but `stdout`, which says how many cases each
//! folder has.
//!
//! A folder has files of two forms:
//!
//! - A *pair* is a topology text `NAME.toml` and what it shows, `NAME.expect` (module `pair`), or what
//!   the program's words do with it (module `called`).
//! - A *table* `NAME.cases` has many cases, each some changes of one text of `data/texts/` (module
//!   `table`).
//!
//! The program prints for each folder how many cases were run and how many differ. If a case
//! differs it ends with an error, and if a file is not in its form it ends there and then.
#![tactic(auto)]

mod called;
mod change;
mod compare;
mod counted;
mod folder;
mod network;
mod pair;
mod records;
mod reported;
mod run;
mod show;
mod table;
mod tally;
mod trace_file;
mod words;

use folder::{names_in, run_folder};
use std::io;
use tally::Tally;

fn main(rt: HostRuntime) -> io::Result<()> {
    let mut all = Tally::new();
    for folder in names_in(&rt, "cases")?.iter() {
        let tally = run_folder(&rt, folder.as_str())?;
        println!(rt; "{folder}: {} cases, {} differ", tally.ran, tally.differing)?;
        all.add(tally);
    }
    all.conclude()
}
