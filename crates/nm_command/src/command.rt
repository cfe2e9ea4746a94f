//! The words of the program.

ghost use Rattle.std.specs.Prelude.{◌≡◌, ℕ, ◌≤◌, map, IfSome, Some, decimal, option_map};
ghost use Rattle.std.specs.Prelude.{string_bytes};
ghost use Rattle.nm_command.specs.Command.{AsksWithinLimits, asked_number, asks_help};
ghost use Rattle.nm_command.specs.Command.{command_of};
ghost use Rattle.nm_command.specs.Command.{certify_of, certify_or, command_value, form_of, node_of};
ghost use Rattle.nm_command.specs.Command.{of_four};
ghost use Rattle.nm_command.specs.Command.{of_number, of_six, of_three, of_two, run_of, shown_of};
ghost use Rattle.nm_command.specs.Command.{series_of, timed_of, trace_from};
ghost use Rattle.nm_base.specs.declared.limits.TheConstants.{MAX_PARTITION, MAX_REPLICA};
ghost use Rattle.nm_base.specs.declared.limits.TheConstants.{MAX_REPLICAS, MAX_SOURCE, MAX_TIME};
ghost use Rattle.nm_base.specs.declared.limits.TheConstants.{MAX_WORKERS};

use crate::arguments::{
    AllArguments, CertifyArguments, NodeArguments, PacketsArguments, PathArguments, RunArguments,
    SeriesArguments, TraceArguments,
};
use crate::view::{Subject, View};
use crate::ways::Ways;
use nm_base::limits::{
    MAX_PARTITION, MAX_REPLICA, MAX_REPLICAS, MAX_ROUNDS, MAX_SOURCE, MAX_TIME, MAX_WORKERS,
};
use nm_base::{PartNo, SourceNo, number_of};
use nm_pcap::Form;

/// The further word of `run` and `node` which has the files of what is known made.
const KEEP: &str = "keep";

/// What the program is to do. Each input is named by its file, or by `-`, which is standard input.
/// A clause sees the names as octets.
#[derive(Clone, Copy)]
pub enum Command<'a> {
    /// To write the trace file of one interface.
    Trace(TraceArguments<'a>),
    /// To write the trace files of interfaces, all by one event list.
    All(AllArguments<'a>),
    /// To see whether the trace files of interfaces that are there have their traces.
    Verify(AllArguments<'a>),
    /// To run all partitions in rounds, and to print the result.
    Rounds {
        /// The input with the topology text.
        topology: &'a str,
        /// The greatest number of rounds: 1 to 1,000,000,000.
        max: u64,
    },
    /// To do the steps of a script, and to print each answer and the books that they left.
    Script {
        /// The input with the topology text.
        topology: &'a str,
        /// The input with the script.
        steps: &'a str,
    },
    /// To print where a topology is at fault, or what it has.
    Check {
        /// The input with the topology text.
        topology: &'a str,
    },
    /// To show a run of the whole network as tables or values, or the network as a graph.
    Show {
        /// The input with the topology text.
        topology: &'a str,
        view: View,
    },
    /// To print in words what passed an interface, a line a packet.
    Text {
        /// The input with the topology text.
        topology: &'a str,
        /// The name of the interface.
        iface: &'a str,
    },
    /// To print what interfaces or sources do over time.
    Series(SeriesArguments<'a>),
    /// To print the ways of the packets of a source.
    Packets(PacketsArguments<'a>),
    /// To print the way of a packet from a node to an address, a line a hop.
    Path(PathArguments<'a>),
    /// To run all partitions at once, each as one or two replicas, and to certify them.
    Run(RunArguments<'a>),
    /// To run one replica of a partition, which talks with the others over sockets.
    Node(NodeArguments<'a>),
    /// To certify what replicas knew, by the files that they left, and to see whether the trace
    /// files beside those have their traces.
    Certify(CertifyArguments<'a>),
}

/// The form of a trace file that a first word asks for, and which ways its packets go.
fn form_of(word: &str) -> Option<(Form, Ways)>
    ensures { result ≡ form_of word.now }
{
    match word {
        "one" => Some((Form::Octets, Ways::Both)),
        "onehex" => Some((Form::Hexadecimal, Ways::Both)),
        "sent" => Some((Form::Octets, Ways::Sent)),
        "received" => Some((Form::Octets, Ways::Received)),
        _ => None,
    }
}

/// The trace file that a first word asks for, of an interface.
fn trace_of<'a>(word: &str, topology: &'a str, iface: Option<&'a str>) -> Option<Command<'a>>
    ensures value { option_map command_value result ≡ trace_from topology.now
        (option_map (λ n. n.now) iface.entry) (form_of word.now) }
    ensures limits { IfSome result AsksWithinLimits }
{
    let (form, ways) = form_of(word)?;
    Some(Command::Trace(TraceArguments {
        form,
        ways,
        topology,
        iface,
    }))
}

/// The number that a word writes in decimal without leading zeros, if it is one of these.
fn number_between(word: &str, low: u64, high: u64) -> Option<u64>
    ensures found { IfSome result
        (λ n. (low ≤ n) × (n ≤ high) × (word.now ≡ decimal n)) }
    ensures only { (n : ℕ) → low ≤ n → n ≤ high → word.now ≡ decimal n → result ≡ Some n }
{
    let number = number_of(word.as_bytes())?;
    if number < low || number > high {
        return None;
    }
    Some(number)
}

/// The number from `low` to `high` that a word asks for.
fn asked_number(word: &str, low: u64, high: u64) -> Option<u64>
    ensures value { result ≡ asked_number low high word.now }
    ensures bounds { IfSome result (λ n. (low ≤ n) × (n ≤ high)) }
{
    number_between(word, low, high)
}

/// Whether a word asks for the help of the one before it.
fn asks_help(word: &str) -> bool
    ensures { result ≡ asks_help word.now }
{
    word == "--help" || word == "-h"
}

/// The command of two words.
fn of_two<'a>(word: &str, topology: &'a str) -> Option<Command<'a>>
    ensures value { option_map command_value result ≡ of_two word.now topology.now }
    ensures limits { IfSome result AsksWithinLimits }
{
    if asks_help(topology) {
        return None;
    }
    match word {
        "check" => Some(Command::Check { topology }),
        "report" => Some(Command::Show {
            topology,
            view: View::Tables,
        }),
        "dot" => Some(Command::Show {
            topology,
            view: View::Graph,
        }),
        _ => trace_of(word, topology, None),
    }
}

/// The command `text`, `report` or `dot` of three words, or else the one of a trace file.
fn shown_of<'a>(word: &str, topology: &'a str, third: &'a str) -> Option<Command<'a>>
    ensures value { option_map command_value result ≡ shown_of word.now topology.now third.now
        (trace_from topology.now (Some third.now) (form_of word.now)) }
    ensures limits { IfSome result AsksWithinLimits }
{
    match word {
        "text" => Some(Command::Text {
            topology,
            iface: third,
        }),
        "report" if third == "csv" => Some(Command::Show {
            topology,
            view: View::Values,
        }),
        "report" if third == "delays" => Some(Command::Show {
            topology,
            view: View::Delays,
        }),
        "report" => None,
        "dot" if third == "load" => Some(Command::Show {
            topology,
            view: View::Load,
        }),
        "dot" => None,
        _ => trace_of(word, topology, Some(third)),
    }
}

/// The command `series` of interfaces or of sources, if its number is in range.
fn series_of<'a>(topology: &'a str, step: &str, subject: Subject) -> Option<Command<'a>>
    ensures value { option_map command_value result
        ≡ series_of topology.now subject (asked_number 1 MAX_TIME step.now) }
    ensures limits { IfSome result AsksWithinLimits }
{
    let step = asked_number(step, 1, MAX_TIME)?;
    Some(Command::Series(SeriesArguments {
        topology,
        step,
        subject,
    }))
}

/// The command `series` or `packets` of three words, or else one that shows or traces.
fn timed_of<'a>(word: &'a str, topology: &'a str, third: &'a str) -> Option<Command<'a>>
    ensures value { option_map command_value result ≡ timed_of word.now topology.now third.now
        (shown_of word.now topology.now third.now
        (trace_from topology.now (Some third.now) (form_of word.now))) }
    ensures limits { IfSome result AsksWithinLimits }
{
    if word == "series" {
        return series_of(topology, third, Subject::Interfaces);
    }
    if word == "packets" {
        let source = asked_number(third, 0, MAX_SOURCE)?;
        return Some(Command::Packets(PacketsArguments {
            topology,
            source: SourceNo::new(source as u32),
        }));
    }
    shown_of(word, topology, third)
}

/// The command of three words.
fn of_three<'a>(word: &'a str, topology: &'a str, third: &'a str) -> Option<Command<'a>>
    ensures value { option_map command_value result ≡ of_three word.now topology.now third.now }
    ensures limits { IfSome result AsksWithinLimits }
{
    if word == "rounds" {
        let max = asked_number(third, 1, MAX_ROUNDS)?;
        return Some(Command::Rounds { topology, max });
    }
    if word == "script" {
        return Some(Command::Script {
            topology,
            steps: third,
        });
    }
    timed_of(word, topology, third)
}

/// The command of four words.
fn of_four<'a>(
    word: &'a str,
    topology: &'a str,
    third: &'a str,
    fourth: &'a str,
) -> Option<Command<'a>>
    ensures value { option_map command_value result
        ≡ of_four word.now topology.now third.now fourth.now }
    ensures limits { IfSome result AsksWithinLimits }
{
    match word {
        "series" if fourth == "flows" => series_of(topology, third, Subject::Sources),
        "path" => Some(Command::Path(PathArguments {
            topology,
            node: third,
            address: fourth,
        })),
        "report" if third == "csv" && fourth == "delays" => Some(Command::Show {
            topology,
            view: View::Rows,
        }),
        _ => None,
    }
}

/// The command `run`, if its two numbers are in range.
fn run_of<'a>(
    topology: &'a str,
    folder: &'a str,
    workers: &str,
    replicas: &str,
    keeps: bool,
) -> Option<Command<'a>>
    ensures value { option_map command_value result ≡ run_of topology.now folder.now
        (asked_number 1 MAX_WORKERS workers.now) (asked_number 1 MAX_REPLICAS replicas.now)
        keeps }
    ensures limits { IfSome result AsksWithinLimits }
{
    let workers = asked_number(workers, 1, MAX_WORKERS)?;
    let replicas = asked_number(replicas, 1, MAX_REPLICAS as u64)?;
    Some(Command::Run(RunArguments {
        topology,
        folder,
        workers: workers as u8,
        replicas: replicas as u8,
        keeps,
    }))
}

/// The command `node`, if its two numbers are in range.
fn node_of<'a>(
    topology: &'a str,
    folder: &'a str,
    partition: &str,
    replica: &str,
    addresses: &'a str,
    keeps: bool,
) -> Option<Command<'a>>
    ensures value { option_map command_value result ≡ node_of topology.now folder.now
        (asked_number 0 MAX_PARTITION partition.now) (asked_number 0 MAX_REPLICA replica.now)
        addresses.now keeps }
    ensures limits { IfSome result AsksWithinLimits }
{
    let partition = asked_number(partition, 0, MAX_PARTITION)?;
    let replica = asked_number(replica, 0, MAX_REPLICA)?;
    Some(Command::Node(NodeArguments {
        topology,
        folder,
        partition: PartNo::new(partition as u32),
        replica: replica as u8,
        addresses,
        keeps,
    }))
}

/// The command of six words: `node`, or `run` with its further word.
fn of_six<'a>(
    word: &'a str,
    topology: &'a str,
    folder: &'a str,
    third: &'a str,
    fourth: &'a str,
    last: &'a str,
) -> Option<Command<'a>>
    ensures value { option_map command_value result
        ≡ of_six word.now topology.now folder.now third.now fourth.now last.now }
    ensures limits { IfSome result AsksWithinLimits }
{
    match word {
        "run" if last == KEEP => run_of(topology, folder, third, fourth, true),
        "node" => node_of(topology, folder, third, fourth, last, false),
        _ => None,
    }
}

/// The command `certify`, if its number is in range, and there is a folder.
fn certify_of<'a>(topology: &'a str, workers: &str, folders: &'a [String]) -> Option<Command<'a>>
    ensures value { option_map command_value result ≡ certify_of topology.now
        (asked_number 1 MAX_WORKERS workers.now) (map (λ f. string_bytes f) folders.now) }
    ensures limits { IfSome result AsksWithinLimits }
{
    if folders.is_empty() {
        return None;
    }
    let workers = asked_number(workers, 1, MAX_WORKERS)?;
    Some(Command::Certify(CertifyArguments {
        topology,
        workers: workers as u8,
        folders,
    }))
}

/// The command of words that are neither `all` nor `verify` with a topology and a folder, nor
/// `certify`.
fn of_number<'a>(words: &'a [String]) -> Option<Command<'a>>
    ensures value { option_map command_value result
        ≡ of_number (map (λ w. string_bytes w) words.now) }
    ensures limits { IfSome result AsksWithinLimits }
{
    match words {
        [] => Some(Command::Trace(TraceArguments {
            form: Form::Hexadecimal,
            ways: Ways::Both,
            topology: "-",
            iface: None,
        })),
        [word, topology] => of_two(word.as_str(), topology.as_str()),
        [word, topology, third] => of_three(word.as_str(), topology.as_str(), third.as_str()),
        [word, topology, node, address] => of_four(
            word.as_str(),
            topology.as_str(),
            node.as_str(),
            address.as_str(),
        ),
        [word, topology, folder, workers, replicas] if word.as_str() == "run" => run_of(
            topology.as_str(),
            folder.as_str(),
            workers.as_str(),
            replicas.as_str(),
            false,
        ),
        [word, topology, folder, third, fourth, last] => of_six(
            word.as_str(),
            topology.as_str(),
            folder.as_str(),
            third.as_str(),
            fourth.as_str(),
            last.as_str(),
        ),
        [word, topology, folder, partition, replica, addresses, last]
            if word.as_str() == "node" && last.as_str() == KEEP => {
            node_of(
                topology.as_str(),
                folder.as_str(),
                partition.as_str(),
                replica.as_str(),
                addresses.as_str(),
                true,
            )
        }
        _ => None,
    }
}

/// The command `certify`, or else the one of words of a number.
fn certify_or<'a>(words: &'a [String]) -> Option<Command<'a>>
    ensures value { option_map command_value result
        ≡ certify_or (map (λ w. string_bytes w) words.now)
        (of_number (map (λ w. string_bytes w) words.now)) }
    ensures limits { IfSome result AsksWithinLimits }
{
    match words {
        [word, topology, workers, folders @ ..] => match word.as_str() {
            "certify" => certify_of(topology.as_str(), workers.as_str(), folders),
            _ => of_number(words),
        },
        _ => of_number(words),
    }
}

impl<'a> Command<'a> {
    /// The command of the words after the program's name: `one TOPO IFACE`, `onehex TOPO IFACE`,
    /// `sent TOPO IFACE` or `received TOPO IFACE`, where IFACE may be left out, `all TOPO DIR` or
    /// `verify TOPO DIR` with or without names of interfaces behind it, `rounds TOPO MAX`, `script
    /// TOPO STEPS`, `check TOPO`, `report TOPO`, `report TOPO csv`, `report TOPO csv delays` or
    /// `report TOPO delays`, `dot TOPO` or `dot TOPO load`, `text TOPO IFACE`, `series TOPO STEP`
    /// or `series TOPO STEP flows`, `packets TOPO SOURCE`, `path TOPO NODE ADDRESS`, `run TOPO DIR
    /// WORKERS REPLICAS` or `node TOPO DIR PARTITION REPLICA ADDRESSES` with or without `keep`
    /// behind it, or `certify TOPO WORKERS` with one folder or more behind it. No words are `onehex
    /// -`. `None` if the words are no command: of two words the second may ask for help.
    #[tactic(auto, unfolding(crate::specs::Command::command_of))]
    pub fn of(words: &'a [String]) -> Option<Command<'a>>
        ensures value { option_map command_value result
            ≡ command_of (map (λ w. string_bytes w) words.now) }
        ensures limits { IfSome result AsksWithinLimits }
    {
        match words {
            [word, topology, folder, ifaces @ ..] => match word.as_str() {
                "all" => Some(Command::All(AllArguments {
                    topology: topology.as_str(),
                    folder: folder.as_str(),
                    ifaces,
                })),
                "verify" => Some(Command::Verify(AllArguments {
                    topology: topology.as_str(),
                    folder: folder.as_str(),
                    ifaces,
                })),
                _ => certify_or(words),
            },
            _ => certify_or(words),
        }
    }
}
