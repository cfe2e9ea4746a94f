//! The program's texts on itself.

/// All words.
pub const HELP: &str = "\
nullsim simulates an IPv4 network; its traces are proved to be those of one event list.

  nullsim one TOPO [IFACE]        the trace of an interface as a pcap file; onehex: hexadecimal
  nullsim sent TOPO [IFACE]       the same, of what leaves alone; received: of what arrives
  nullsim all TOPO DIR [IFACE..]  the traces of all interfaces, or of these, as files in DIR
  nullsim verify TOPO DIR [IFACE..]
                                  whether files in DIR, whoever wrote them, are those traces
  nullsim check TOPO              what is in a topology, or where its mistakes are
  nullsim report TOPO [csv]       drops, queues, use and delays as tables; delays: their spread
  nullsim series TOPO STEP        what interfaces do over time; STEP flows: what sources do
  nullsim packets TOPO SOURCE     the way of each packet of a source, and where it ended
  nullsim text TOPO IFACE         the packets of an interface, a line each
  nullsim path TOPO NODE ADDRESS  the way of a packet, a line a hop
  nullsim dot TOPO [load]         the network as a graph for Graphviz, coloured by use
  nullsim run TOPO DIR WORKERS REPLICAS
                                  all partitions at once, certified, with their trace files in DIR
  nullsim node TOPO DIR PARTITION REPLICA ADDRESSES
                                  one replica of a partition as a process of its own
  nullsim certify TOPO WORKERS DIR..
                                  whether what nodes left in folders is what one event list makes
  nullsim rounds TOPO MAX         all partitions in at most MAX rounds
  nullsim script TOPO STEPS       what replicas do step by step
  nullsim help [WORD]             this, or more of a word

TOPO is a file, or - for standard input. The manual page is nullsim(1).
";

/// More of each word.
const MORE: &[(&str, &str)] = &[
    (
        "one",
        "\
nullsim one TOPO [IFACE]
Writes the trace of an interface, or of the first one, to standard output: a pcap file
with nanosecond times and link type raw IP, for tcpdump, tshark or Wireshark.
",
    ),
    (
        "onehex",
        "\
nullsim onehex TOPO [IFACE]
Writes the trace file of an interface in hexadecimal and a line feed. No words at all
are: onehex -
",
    ),
    (
        "sent",
        "\
nullsim sent TOPO [IFACE]
Writes the trace file of an interface with the packets that leave by it alone.
",
    ),
    (
        "received",
        "\
nullsim received TOPO [IFACE]
Writes the trace file of an interface with the packets that arrive there alone.
",
    ),
    (
        "all",
        "\
nullsim all TOPO DIR [IFACE..]
Simulates the network once and writes DIR/NAME.pcap for each interface, or for these.
",
    ),
    (
        "verify",
        "\
nullsim verify TOPO DIR [IFACE..]
Simulates the network once and compares DIR/NAME.pcap of each interface, or of these, with
its trace, octet for octet. Prints verified, and a line for each. Where one differs: status
8, its name, and the first octet, counted from 0.
",
    ),
    (
        "check",
        "\
nullsim check TOPO
Prints how much there is in a topology, and what may be a mistake. Where it is refused:
status 3, and where its mistakes are.
",
    ),
    (
        "report",
        "\
nullsim report TOPO [csv | csv delays | delays]
Runs the network and prints what nodes counted, what interfaces carried and dropped, and
what became of the packets of each source. The others print comma-separated values; csv: a
line for each value; csv delays: a row for each source; delays: how often each delay came.
",
    ),
    (
        "series",
        "\
nullsim series TOPO STEP [flows]
Prints a row for each interface and STEP nanoseconds, as comma-separated values: what
came, went and was dropped, its queue, and its use. flows: a row for each source.
",
    ),
    (
        "packets",
        "\
nullsim packets TOPO SOURCE
Prints a row for each packet of the source with this number, as comma-separated values:
when it was sent, each interface that it passed and when, and where and why it ended.
",
    ),
    (
        "text",
        "\
nullsim text TOPO IFACE
Prints a line for each packet of an interface, in the manner of tcpdump. Times are
nanoseconds.
",
    ),
    (
        "path",
        "\
nullsim path TOPO NODE ADDRESS
Prints the way of a packet that NODE sends to ADDRESS, a line a hop as traceroute does,
and what ends it: no packet moves.
",
    ),
    (
        "dot",
        "\
nullsim dot TOPO [load]
Prints the network as a graph: nullsim dot TOPO load | dot -Tsvg > network.svg. load:
coloured by use.
",
    ),
    (
        "run",
        "\
nullsim run TOPO DIR WORKERS REPLICAS [stats] [keep]
Simulates all partitions at once, 1 or 2 REPLICAS of each, each in a thread; up to
WORKERS (1 to 64) more threads do what these leave. Writes DIR/NAME.pcap for each
interface, and prints certified where all came to the trace of the one event list. stats:
then a table on standard error of what each did. keep: DIR/P-0.known too, for certify.
",
    ),
    (
        "node",
        "\
nullsim node TOPO DIR PARTITION REPLICA ADDRESSES [stats] [keep]
Runs one replica (0 or 1) of a partition as a process. ADDRESSES is a file with a line P
R A.B.C.D:PORT for each replica. It certifies nothing. stats: a line a second on standard
error of how far it is. keep: DIR/PARTITION-REPLICA.known too, for certify.
",
    ),
    (
        "certify",
        "\
nullsim certify TOPO WORKERS DIR..
Takes of each partition P the first DIR/P-0.known or DIR/P-1.known, as run and node leave
it with keep, simulates the partition by it, WORKERS (1 to 64) at a time, and compares the
trace files beside it, octet for octet. Prints certified, and a line for each interface,
where all came to the trace of the one event list. Where they did not: status 6, and why.
Where a trace file differs: status 8, its name, and the first octet, counted from 0.
",
    ),
    (
        "rounds",
        "\
nullsim rounds TOPO MAX
Simulates all partitions in at most MAX rounds, one after another, and prints a line for
each interface.
",
    ),
    (
        "script",
        "\
nullsim script TOPO STEPS
Does what the lines of the file STEPS say: runs, lost and repeated frames, merges,
restarts.
",
    ),
];

/// The version, and what the program reads.
const VERSION: &str =
    "nullsim 1.0.0: topologies of formats 1 and 2, sessions of versions 1 and 2\n";

/// More of a word, if there is such a word.
fn more_of(word: &str) -> Option<&'static str> {
    for (name, text) in MORE {
        if *name == word {
            return Some(*text);
        }
    }
    None
}

/// The form of a command: the first line of its help.
pub fn form_of(word: &str) -> Option<&'static str> {
    more_of(word)?.lines().next()
}

/// Whether a word asks for help.
fn asks(word: &str) -> bool {
    ["help", "--help", "-h"].contains(&word)
}

/// More of a word, or all words if the word is of the help itself.
fn about(word: &str) -> Option<&'static str> {
    if asks(word) || word == "version" || word == "--version" {
        return Some(HELP);
    }
    more_of(word)
}

/// The text on itself that these words ask for, if they do: `help`, `help WORD` or `WORD --help`,
/// also as `-h`, and `--version`.
pub fn asked(words: &[String]) -> Option<&'static str> {
    match words {
        [word] if word.as_str() == "--version" => Some(VERSION),
        [word] if asks(word.as_str()) => Some(HELP),
        [first, second] if asks(first.as_str()) => about(second.as_str()),
        [first, second] if asks(second.as_str()) => about(first.as_str()),
        _ => None,
    }
}
