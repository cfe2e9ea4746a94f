//! nullsim: a distributed simulator of IPv4 networks whose answers are proved.
//!
//! This is its edge: the words, the files and the exit status. All else is `nm_program::run`.
#![tactic(auto)]

ghost use Rattle.std.specs.Prelude.{◌≡◌, ◌⊎◌, IfSome, None, length, map, string_bytes};
ghost use Rattle.nm_command.specs.Command.{command_of};

mod addresses;
mod differing;
mod help;
mod hints;
mod meetings;
mod noted;
mod parts;
mod reasons;
mod rereading;
mod stats;
mod system;
mod uncertified;
mod usage;
mod watching;

use addresses::absent_of;
use differing::say_difference;
use help::{HELP, asked};
use hints::{say_more, say_octets, say_stalled};
use meetings::Meetings;
use nm_base::sink::write_all;
use nm_base::{MemSink, Sink, StdSink};
use nm_command::{Command, Status};
use nm_program::{Means, NamedInputs, Runtime, conclude, report, run};
use nm_progress::Progress;
use noted::{Noted, NotedWriter};
use stats::{take_stats, tell_figures};
use std::env::Env;
use std::io::{BufWriter, ErrorKind, IsTerminal, Stderr, Write};
use std::net::Net;
use std::process::ExitCode;
use std::sync::Wait;
use std::thread::Threads;
use std::time::Clock;
use std::{env, io, net, thread};
use system::{SystemInputs, SystemOutputs};
use uncertified::say_fault;
use watching::{Over, watch};

/// The most octets of the lines on errors.
const MAX_ERROR_OCTETS: usize = 8_192;

/// The C library gives memory back to the system when 128 KiB at the end of its heap are free, and
/// takes it again for the next packets. Once a block of this size was given back it waits for twice
/// as much (mallopt(3), `M_MMAP_THRESHOLD`). Its pages are never touched.
const FREED_OCTETS: usize = 16_777_216;

/// The words after the program's name.
fn words<R: Env + Alloc>(rt: &R) -> io::Result<Vec<String<R::A>, R::A>> {
    let mut words = Vec::new(rt.alloc());
    for word in env::args(rt)?.skip(1) {
        words.push(word)?;
    }
    Ok(words)
}

/// How the program ended, and whether it is silent: nobody reads its output any more.
#[derive(Clone, Copy)]
struct Ended {
    status: Status,
    is_silent: bool,
}

/// Prints where a fault is, if it is of a file that differs or of books that are not certified.
/// What cannot be read again is left out.
fn say_where<E: Sink>(
    rt: &HostRuntime,
    words: &[String],
    status: Status,
    noted: &Noted,
    errors: &mut E,
) {
    if let Status::Differs { iface, octet } = status {
        let _ = say_difference(rt, words, iface.as_str(), octet, errors);
    }
    if let Some(fault) = noted.notes.cert_fault.get() {
        let _ = say_fault(rt, words, fault, errors);
    }
}

/// The variable of the environment with which further lines of a fault are printed anywhere.
const EXPLAIN: &str = "NULLSIM_EXPLAIN";

/// Whether to print further lines of a fault: standard error is a terminal, or they were asked for.
fn explains(rt: &HostRuntime) -> bool {
    rt.stderr().is_terminal()
        || match env::var(rt, EXPLAIN) {
            Ok(value) => value.as_str() == "1",
            Err(_) => false,
        }
}

/// Says which partitions are missing in the list of a node, before it begins.
fn say_absent<E: Sink>(rt: &HostRuntime, words: &[String], errors: &mut E) {
    let Some(Command::Node(node)) = Command::of(words) else {
        return;
    };
    if let Ok(Some(text)) = absent_of(rt, &node) {
        let _ = write_all(errors, text.as_str().as_bytes());
        let _ = write_all(errors, b"\n");
    }
}

/// The program up to its exit status. Further lines of a fault are printed on a terminal, or if
/// asked for.
fn with_hint<N: Runtime, E: Sink>(
    rt: &HostRuntime,
    system: &N,
    words: &[String],
    errors: &mut E,
    progress: &Progress,
) -> Ended {
    let noted = Noted::new();
    let explains = explains(rt);
    if explains {
        say_absent(rt, words, &mut StdSink::new(rt.stderr()));
    }
    let status = over_system(rt, system, words, errors, progress, &noted);
    if explains {
        if status == Status::Stalled {
            say_stalled(rt, words, progress, errors);
        }
        say_more(rt, system, words, status, &noted, errors);
        say_where(rt, words, status, &noted, errors);
        say_octets(rt, words, status, errors);
    }
    Ended {
        status,
        is_silent: status == Status::File && noted.is_closed(),
    }
}

/// The program over the files and the network of the system, which note what went wrong.
fn over_system<N: Runtime, E: Sink>(
    rt: &HostRuntime,
    system: &N,
    words: &[String],
    errors: &mut E,
    progress: &Progress,
    noted: &Noted,
) -> Status {
    let writer = rt.stdout();
    let alloc = rt.alloc();
    let writer = NotedWriter {
        writer,
        alloc,
        noted,
    };
    let Ok(writer) = BufWriter::new(alloc, writer) else {
        return report(Status::Memory, errors);
    };
    let mut inputs = NamedInputs::new(SystemInputs { runtime: rt, noted });
    let mut outputs = SystemOutputs::new(rt, noted);
    let means = Means {
        rt: system,
        alloc: rt.alloc(),
        progress,
        notes: &noted.notes,
    };
    let out = StdSink::new(writer);
    let (status, mut out) = run(&means, words, &mut inputs, &mut outputs, out, errors);
    outputs.note_writing();
    conclude(status, out.flush().is_ok(), errors)
}

/// The same; meanwhile whom a node has met is said, and on a terminal a line shows how far it is.
fn with_line<N: Runtime>(
    rt: &HostRuntime,
    system: &N,
    words: &[String],
    said: &mut MemSink,
) -> Ended {
    let (progress, over) = (Progress::new(), Over::new());
    let has_line = rt.stderr().is_terminal();
    let (_, ended) = thread::join(
        system,
        || {
            let mut meetings = Meetings::new(rt, words);
            watch(
                system,
                &progress,
                &over,
                &mut meetings,
                has_line,
                &mut rt.stderr(),
            )
        },
        || {
            let ended = with_hint(rt, system, words, said, &progress);
            over.tell(system);
            ended
        },
    );
    ended
}

/// The same, with counts of what each replica does, which it prints.
fn with_stats<N: Runtime>(
    rt: &HostRuntime,
    system: &N,
    words: &[String],
    said: &mut MemSink,
) -> Ended {
    let Ok(progress) = Progress::with_figures(rt.alloc()) else {
        return Ended {
            status: report(Status::Memory, said),
            is_silent: false,
        };
    };
    let over = Over::new();
    let (_, ended) = thread::join(
        system,
        || tell_figures(system, rt, &progress, words, &over, &mut rt.stderr()),
        || {
            let ended = with_hint(rt, system, words, said, &progress);
            over.tell(system);
            ended
        },
    );
    ended
}

/// The same. Lines on errors follow at the end, after the line on the terminal is gone; there are
/// none if nobody reads the output any more.
fn unless_closed<N: Runtime>(
    rt: &HostRuntime,
    system: &N,
    words: &mut Vec<String>,
    said: &mut MemSink,
    errors: &mut StdSink<Stderr>,
) -> Status {
    let tells = take_stats(words);
    let words = words.as_slice();
    let ended = if tells {
        with_stats(rt, system, words, said)
    } else if explains(rt) {
        with_line(rt, system, words, said)
    } else {
        with_hint(rt, system, words, said, &Progress::new())
    };
    if !ended.is_silent {
        let _ = write_all(errors, said.octets());
    }
    ended.status
}

/// Says something of the program itself. Nothing is said of an output that nobody reads.
fn say<E: Sink>(rt: &HostRuntime, text: &str, errors: &mut E) -> Status {
    let Err(error) = rt.stdout().write_all(text.as_bytes()) else {
        return Status::Done;
    };
    if error.kind() == ErrorKind::BrokenPipe {
        return Status::File;
    }
    let status = report(Status::File, errors);
    if explains(rt) {
        if let Ok(text) = format!(in rt.alloc(); "standard output: {error}\n") {
            let _ = write_all(errors, text.as_str().as_bytes());
        }
    }
    status
}

/// The program's text on itself: if words that are no command ask for it, and if there are no words
/// and only a terminal would give a topology.
fn said_of_itself(rt: &HostRuntime, words: &[String]) -> Option<&'static str>
    ensures words { IfSome result (λ _. (length words.now ≡ 0)
        ⊎ (command_of (map (λ w. string_bytes w) words.now) ≡ None)) }
{
    if words.is_empty() {
        return if rt.reader().is_terminal() {
            Some(HELP)
        } else {
            None
        };
    }
    match Command::of(words) {
        Some(_) => None,
        None => asked(words),
    }
}

/// The program, up to its exit status. `system` is the runtime too, with what `main` alone may pass
/// on: the network, and waiting.
fn status<N>(rt: &HostRuntime, system: &N) -> Status
where
    N: Net<Stream = net::TcpStream, Listener = net::TcpListener>
        + Threads
        + Wait
        + Clock
        + Sync
        + Drop
        + Copy,
{
    let mut errors = StdSink::new(rt.stderr());
    let mut words = match words(rt) {
        Ok(words) => words,
        Err(error) if error.kind() == ErrorKind::OutOfMemory => {
            return report(Status::Memory, &mut errors);
        }
        // a word that is not UTF-8
        Err(_) => return report(Status::Usage, &mut errors),
    };
    if let Some(text) = said_of_itself(rt, words.as_slice()) {
        return say(rt, text, &mut errors);
    }
    match MemSink::new(rt.alloc(), MAX_ERROR_OCTETS) {
        Ok(mut said) => unless_closed(rt, system, &mut words, &mut said, &mut errors),
        Err(_) => report(Status::Memory, &mut errors),
    }
}

/// Has the C library keep memory that is free for the next packets.
fn keep_freed_memory(rt: &HostRuntime) {
    let _ = Vec::<u8>::with_capacity(rt.alloc(), FREED_OCTETS);
}

fn main(rt: HostRuntime) -> ExitCode {
    keep_freed_memory(&rt);
    ExitCode::from(status(&rt, &rt).code())
}
