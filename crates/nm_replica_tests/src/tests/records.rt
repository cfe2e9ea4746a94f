//! Records that are left to write, and who learns of them.

use crate::tests::scripted::{NEVER, Scripted};
use crate::tests::sides::{book_of, topology_of};
use nm_base::{MemSink, PartNo};
use nm_files::TraceFiles;
use nm_replica::acts::Stand;
use nm_replica::limits::{MAX_HAND_OUTS, MAX_HANDED};
use nm_replica::{Holdings, OwnSeats, Running, Service, poll_replica};
use nm_shared::{ClockBoard, Lending, Plain, SharedBook};
use nm_topology::Topology;
use std::alloc::Global;
use std::process::Abort;
use std::sync::{Arc, Wait};

/// One partition, with 10,000 packets, each recorded where it is sent and where it arrives: more
/// records than are written after one poll, and fewer than after two.
const MANY: &str = r#"format = 1
stop = 20000000000
mtu = 1500
node = [ {name = "a", kind = "host", partition = 0},
  {name = "b", kind = "host", partition = 0, ports = [9]} ]
iface = [ {name = "a0", node = "a", address = "10.0.0.1", queue = 4},
  {name = "b0", node = "b", address = "10.0.0.2", queue = 4} ]
link = [ {a = "a0", b = "b0", rate = 8000000, delay = 1000000} ]
route = [ {node = "a", to = "10.0.0.0/24", via = "a0"} ]
[[source]]
kind = "cbr"
node = "a"
to = "10.0.0.2"
sport = 1000
dport = 9
size = 72
start = 0
interval = 1000000
count = 10000
"#;

/// What a poll left: how many waits ran out so far, how many records were handed out, and whether a
/// pool gets news.
#[derive(Clone, Copy)]
struct Left {
    waited: u64,
    handed: u64,
    has_news: bool,
}

/// A replica without peers, whose book a pool runs.
fn alone<'x>(
    topology: &'x Arc<Topology>,
    book: &'x SharedBook<Plain>,
    lending: &'x Lending,
) -> Service<'x, Plain> {
    Service {
        topology,
        book,
        peers: &[],
        callers: &[],
        books: &[],
        idle_limit: 100,
        run_limit: 4_096,
        lending,
        progress: None,
        notes_progress: false,
        keeps_records: false,
    }
}

/// Whether a pool has news of its book, which are taken.
fn has_news(lending: &Lending) -> bool {
    match lending.take_news() {
        Some(news) => {
            news.pass_on();
            true
        }
        None => false,
    }
}

/// What each of three polls left, once all events of the book are done.
fn three_polls<R: Wait + Abort>(rt: &R, alloc: Global, topology: &Arc<Topology>) -> [Left; 3] {
    let book = book_of(rt, alloc, topology, 0, 0);
    let mut pass = book.pass(rt).expect(rt, "memory");
    let _ran = book.run(rt, &mut pass, alloc, u64::MAX);
    let (board, owners, _) = ClockBoard::new(alloc, topology).expect(rt, "memory");
    let seats = OwnSeats::of_replica(alloc, topology, &board, PartNo::new(0), 0, owners);
    let mut holdings: Holdings<'_, Plain, MemSink> = Holdings {
        pass,
        passes: Vec::new(alloc),
        seats: seats.expect(rt, "memory"),
        files: TraceFiles::new(alloc),
    };
    let lending = Lending::new();
    let _first = has_news(&lending);
    let service = alone(topology, &book, &lending);
    let mut running = Running::new(alloc, &service).expect(rt, "memory");
    let mut transport = Scripted::new(alloc, Vec::new(alloc), true, NEVER);
    let mut left = [Left {
        waited: 0,
        handed: 0,
        has_news: false,
    }; 3];
    for number in 0..3 {
        let polled = poll_replica(
            rt,
            alloc,
            &service,
            &mut holdings,
            &mut transport,
            &mut running,
        );
        assert!(rt; polled.is_ok());
        left[number] = Left {
            waited: transport.waited,
            handed: book.act(rt, &mut holdings.pass, Stand).handed,
            has_news: has_news(&lending),
        };
    }
    left
}

/// A poll does not wait while records are left to write, and a pool gets news as long as some were.
#[test]
fn records_are_left(rt: HostRuntime) {
    let alloc = rt.alloc();
    let topology = topology_of(&rt, alloc, MANY);
    let [first, second, third] = three_polls(&rt, alloc, &topology);
    let most = MAX_HANDED as u64 * MAX_HAND_OUTS as u64;
    assert!(rt; first.waited == 0 && first.handed == most && first.has_news);
    assert!(rt; second.waited == 0 && second.handed == 20_000 && second.has_news);
    assert!(rt; third.waited == 1 && third.handed == 20_000 && !third.has_news);
}
