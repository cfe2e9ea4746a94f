//! What a case can show of a topology text.
//!
//! | Name | Lines |
//! |---|---|
//! | `reading` | `accepted` |
//! | `network` | all that was read (module `network`) |
//! | `trace` | the records in their order (module `records`), then the lines of `counts` |
//! | `counts` | `NODE COUNTER VALUE` for each counter above 0, then `IFACE dropped VALUE` for each interface that dropped packets |
//!
//! Of a text that is refused, each of them is the line `fault N`, with the number of the first
//! fault. Each run is made with both kinds of event list, and by `one_list`: if their traces are
//! not the same, a line more says so.

use crate::counted::{Words, push_counted};
use crate::network::network_text;
use crate::records::push_records;
use crate::run::run_before;
use crate::trace_file::push_files;
use nm_base::Time;
use nm_events::{HeapList, SortedList};
use nm_sim::{Part, one_list};
use nm_topology::{Topology, fault_number};
use std::alloc::{AllocError, Global};
use std::io;

/// What is shown.
#[derive(Clone, Copy)]
pub enum Show {
    /// Whether the text is accepted.
    Reading,
    /// What was read.
    Network,
    /// What a run did.
    Run(View),
}

/// What is shown of a run.
#[derive(Clone, Copy)]
pub enum View {
    /// Its records, its counters and its drops.
    Trace,
    /// Its counters and its drops alone.
    Counts,
    /// The trace file of each interface, its counters and its drops, as the independent model
    /// writes them.
    Files,
}

/// What tables call it.
const NAMES: &[(&str, Show)] = &[
    ("reading", Show::Reading),
    ("network", Show::Network),
    ("trace", Show::Run(View::Trace)),
    ("counts", Show::Run(View::Counts)),
];

impl Show {
    /// What a table calls by this name.
    pub fn named(name: &str) -> Option<Show> {
        for (other, show) in NAMES {
            if *other == name {
                return Some(*show);
            }
        }
        None
    }

    /// The lines that are shown of a text, of what was done before a time.
    pub fn text(self, alloc: Global, text: &[u8], before: Time) -> io::Result<String> {
        match Topology::read(alloc, text) {
            Ok(topology) => self.text_of(alloc, &topology, before),
            Err(fault) => {
                let number = fault_number(fault);
                Ok(format!(in alloc; "fault {number}\n")?)
            }
        }
    }

    /// The lines that are shown of a network.
    fn text_of(self, alloc: Global, topology: &Topology, before: Time) -> io::Result<String> {
        match self {
            Show::Reading => Ok(String::from_str(alloc, "accepted\n")?),
            Show::Network => Ok(network_text(alloc, topology)?),
            Show::Run(view) => {
                let part = run_before::<SortedList>(alloc, topology, before)?;
                view.text_of(alloc, topology, &part, before)
            }
        }
    }
}

impl View {
    /// The lines that are shown of the part of a whole network after all events before a time.
    fn text_of(
        self,
        alloc: Global,
        topology: &Topology,
        part: &Part<SortedList>,
        before: Time,
    ) -> io::Result<String> {
        let mut text = String::new(alloc);
        let words = match self {
            View::Trace => {
                push_records(&mut text, alloc, topology, part.trace())?;
                Words::of_tables()
            }
            View::Counts => Words::of_tables(),
            View::Files => {
                push_files(&mut text, alloc, topology)?;
                Words::of_pairs()
            }
        };
        push_counted(&mut text, topology, part, words)?;
        push_difference(&mut text, alloc, topology, part, before)?;
        Ok(text)
    }
}

/// Adds a line if the trace of one event list is not the part's, or that of a part with its events
/// in a heap is not.
fn push_difference(
    text: &mut String,
    alloc: Global,
    topology: &Topology,
    part: &Part<SortedList>,
    before: Time,
) -> Result<(), AllocError> {
    let records = one_list(alloc, topology, before)?;
    let heap = run_before::<HeapList>(alloc, topology, before)?;
    if records.as_slice() == part.trace() && heap.trace() == part.trace() {
        return Ok(());
    }
    text.push_str("the trace of another event list is another\n")
}
