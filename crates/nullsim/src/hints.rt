//! Further lines of a fault, at a terminal or if asked for.

use crate::noted::Noted;
use crate::reasons::{file_reason, stalled_reason};
use crate::usage::usage_fault;
use nm_base::Sink;
use nm_base::sink::write_all;
use nm_command::{Command, Status};
use nm_pcap::Form;
use nm_progress::Progress;
use std::io::{self, IsTerminal};
use std::net::Net;

/// The line for a fault of the program itself.
const BROKEN: &str = "what cannot happen did: please report it, with the topology and the words\n";

/// What helps with a fault.
fn hint(status: Status) -> &'static str {
    match status {
        Status::Usage => "see nullsim help\n",
        Status::Rows(_) => "a series has at most 10,000,000 rows: take a longer STEP\n",
        Status::NoInterface => "nullsim dot TOPO shows the names of all interfaces\n",
        Status::Topology(_) => "nullsim check TOPO says where the mistake is\n",
        Status::Differs { .. } => "octets count from 0; nullsim text TOPO IFACE shows its trace\n",
        Status::NotCertified(_) => "see Runs in docs/FORMATS.md\n",
        _ => "",
    }
}

/// The reason of a fault in a sentence, if it is known. What cannot be read again is left out.
fn reason<N: Net>(
    rt: &HostRuntime,
    system: &N,
    words: &[String],
    status: Status,
    noted: &Noted,
) -> io::Result<Option<String>> {
    match status {
        Status::Usage => usage_fault(rt, words),
        Status::File => file_reason(rt, system, words, noted),
        _ => Ok(None),
    }
}

/// The line after a trace file went to a terminal.
const OCTETS: &str =
    "that was a trace file: nullsim one TOPO IFACE > FILE saves one, and nullsim text \
    TOPO IFACE shows it in words\n";

/// Whether the words ask for a trace file as it is.
fn asks_for_octets(words: &[String]) -> bool {
    match Command::of(words) {
        Some(Command::Trace(arguments)) => matches!(arguments.form, Form::Octets),
        _ => false,
    }
}

/// Prints how a trace file is saved, if one went to a terminal.
pub fn say_octets<E: Sink>(rt: &HostRuntime, words: &[String], status: Status, errors: &mut E) {
    if status == Status::Done && rt.stdout().is_terminal() && asks_for_octets(words) {
        let _ = write_all(errors, OCTETS.as_bytes());
    }
}

/// Says why a node was stalled, if that is known.
pub fn say_stalled<E: Sink>(
    rt: &HostRuntime,
    words: &[String],
    progress: &Progress,
    errors: &mut E,
) {
    if let Ok(Some(text)) = stalled_reason(rt, words, progress) {
        let _ = write_all(errors, text.as_str().as_bytes());
        let _ = write_all(errors, b"\n");
    }
}

/// Says more of a fault: that it is the program's own, its reason, or what helps.
pub fn say_more<N: Net, E: Sink>(
    rt: &HostRuntime,
    system: &N,
    words: &[String],
    status: Status,
    noted: &Noted,
    errors: &mut E,
) {
    if status == Status::File && noted.notes.is_broken.get() {
        let _ = write_all(errors, BROKEN.as_bytes());
    }
    if let Ok(Some(text)) = reason(rt, system, words, status, noted) {
        let _ = write_all(errors, text.as_str().as_bytes());
        let _ = write_all(errors, b"\n");
    }
    let _ = write_all(errors, hint(status).as_bytes());
}
