//! The program: words and inputs in, octets and a status out.

ghost use Rattle.std.specs.Prelude.{◌≡◌, map, string_bytes};
ghost use Rattle.nm_base.specs.Sink.{HasNotFailed, HasTaken};
ghost use Rattle.nm_command.specs.Command.{command_of};
ghost use Rattle.nm_command.specs.Status.{line_of};
ghost use Rattle.nm_command.specs.declared.status.Status.TheVariants.{Done, File};
ghost use Rattle.nm_program.specs.Ending.{ProgramEnds, status_handed_on};
ghost use Rattle.nm_program.specs.Surroundings.{surroundings};

use crate::means::Means;
use crate::node::say_node;
use crate::runs::say_run;
use nm_base::Sink;
use nm_command::{Command, Status};
use nm_files::Outputs;
use nm_offline::all::write_all_traces;
use nm_offline::certify::say_certify;
use nm_offline::checking::say_check;
use nm_offline::input::NamedInputs;
use nm_offline::inputs::Inputs;
use nm_offline::packets::say_packets;
use nm_offline::path::say_path;
use nm_offline::rounds::say_rounds;
use nm_offline::script::say_script;
use nm_offline::series::write_series;
use nm_offline::shown::{say_text, say_view};
use nm_offline::traces::write_trace;
use nm_offline::verify::say_verify;
use nm_run::Runtime;

/// Does what the words say, and gives the sink back. Inputs are those that the words name. The
/// output goes to `out`, a trace file as it is made, and a line to `errors` if the program is not
/// done; if `errors` fails nobody reads it, and the status stays.
///
/// The first of these decides: the words, the inputs in the words' order, the topology, the lines
/// of a script, all else. Words that are no command open no input. Files are made by `all`, by
/// `run`, as its replicas run, and by `node`, once its replica is done; only the last two use the
/// network. Memory may be refused at any place: the sink has a prefix of a trace file or a series
/// then, which may be empty. If the sink fails it has a prefix of the output too; with every other
/// status but `Done` and `Stalled` it took nothing.
pub fn run<I: Inputs, F: Outputs, O: Sink + Drop, E: Sink, R>(
    means: &Means<'_, R>,
    words: &[String],
    inputs: &mut NamedInputs<I>,
    outputs: &mut F,
    out: O,
    errors: &mut E,
) -> (Status, O)
where
    F::File: Send,
    I::File: Send,
    R: Runtime,
    ensures ending { ProgramEnds
        (surroundings I.seen O.seen F.made inputs.old out outputs.old)
        (surroundings I.seen O.seen F.made inputs.new result.1 outputs.new)
        (command_of (map (λ w. string_bytes w) words.now)) result.0 }
    ensures line { HasNotFailed (E.seen errors.old) (E.seen errors.new)
        → HasTaken (E.seen errors.old) (E.seen errors.new) (line_of result.0) }
{
    let (status, out) = perform(means, words, inputs, outputs, out);
    (report(status, errors), out)
}

/// Does what the words say, and gives the sink back.
fn perform<I: Inputs, F: Outputs, O: Sink + Drop, R>(
    means: &Means<'_, R>,
    words: &[String],
    inputs: &mut NamedInputs<I>,
    outputs: &mut F,
    out: O,
) -> (Status, O)
where
    F::File: Send,
    I::File: Send,
    R: Runtime,
    ensures { ProgramEnds
        (surroundings I.seen O.seen F.made inputs.old out outputs.old)
        (surroundings I.seen O.seen F.made inputs.new result.1 outputs.new)
        (command_of (map (λ w. string_bytes w) words.now)) result.0 }
{
    let Means {
        alloc,
        progress,
        notes,
        ..
    } = *means;
    match Command::of(words) {
        Some(Command::Trace(words)) => write_trace(alloc, &words, inputs, out, progress),
        Some(Command::All(words)) => {
            let status = write_all_traces(alloc, &words, inputs, outputs, progress);
            (status, out)
        }
        Some(Command::Verify(words)) => say_verify(alloc, &words, inputs, out, progress),
        Some(Command::Certify(words)) => {
            say_certify(means.rt, alloc, &words, inputs, out, &notes.cert_fault)
        }
        Some(Command::Rounds { topology, max }) => {
            say_rounds(alloc, topology, max, inputs, out, progress)
        }
        Some(Command::Script { topology, steps }) => {
            say_script(alloc, topology, steps, inputs, out)
        }
        Some(Command::Check { topology }) => say_check(alloc, topology, inputs, out),
        Some(Command::Show { topology, view }) => {
            say_view(alloc, topology, view, inputs, out, progress)
        }
        Some(Command::Text { topology, iface }) => say_text(alloc, topology, iface, inputs, out),
        Some(Command::Series(words)) => write_series(alloc, &words, inputs, out, progress),
        Some(Command::Packets(words)) => say_packets(alloc, &words, inputs, out, progress),
        Some(Command::Path(words)) => say_path(alloc, &words, inputs, out),
        Some(Command::Run(words)) => say_run(means, &words, inputs, outputs, out),
        Some(Command::Node(words)) => say_node(means, &words, inputs, outputs, out),
        None => (Status::Usage, out),
    }
}

/// Ends with this status: writes its line to `errors`.
pub fn report<E: Sink>(status: Status, errors: &mut E) -> Status
    ensures status { result ≡ status }
    ensures line { HasNotFailed (E.seen errors.old) (E.seen errors.new)
        → HasTaken (E.seen errors.old) (E.seen errors.new) (line_of status) }
{
    let same = status;
    let _ = status.say(errors);
    same
}

/// The status of a run whose output may have been held back, once it was passed on or could not be.
/// If it is not passed on, the run is not done: its status is `File`, and its line is written.
pub fn conclude<E: Sink>(status: Status, handed: bool, errors: &mut E) -> Status
    ensures status { result ≡ status_handed_on handed status }
    ensures line { result ≡ File → status ≡ Done
        → HasNotFailed (E.seen errors.old) (E.seen errors.new)
        → HasTaken (E.seen errors.old) (E.seen errors.new) (line_of File) }
    ensures quiet { result ≡ status → errors.new ≡ errors.old }
{
    match status {
        Status::Done if !handed => report(Status::File, errors),
        _ => status,
    }
}
