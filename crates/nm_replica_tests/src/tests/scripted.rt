//! A transport in memory with a script, which fails at some calls.

ghost use Rattle.std.specs.Prelude.{◌≡◌, ◌+◌, [], IfSome, Some};

use crate::tests::cut_transport::CutWire;
use nm_base::MemWire;
use nm_base::failures::FailureCount;
use nm_base::mem_wire::{Ending, ScriptedRead};
use nm_transport::{AskLog, Reported, Transport, Waited};
use std::alloc::Global;
use std::collections::VecDeque;

/// Which calls of a transport fail: one, or all from it on. Calls are counted from 1.
#[derive(Clone, Copy)]
pub struct Fails {
    pub at: u64,
    pub for_good: bool,
}

/// No call fails.
pub const NEVER: Fails = Fails {
    at: 0,
    for_good: false,
};

/// How connections give their octets.
#[derive(Clone, Copy, PartialEq, Eq)]
pub enum Manner {
    /// All at once, and then nothing.
    Whole,
    /// All at once, and then the other side sends no more.
    Cut,
    /// So many octets at once, and then one at each tenth poll.
    Slow(usize),
}

/// How often a read of a slow connection finds nothing before the next octet: at ten polls, each of
/// which reads twice.
const QUIET_READS: usize = 20;

/// How many octets a slow connection gives singly.
const SINGLE_OCTETS: usize = 60;

/// What the reads of a slow connection do, or `None` if memory was refused.
fn slow_reads(alloc: Global, first: usize) -> Option<VecDeque<ScriptedRead>> {
    let mut reads = VecDeque::new(alloc);
    reads.push_back(ScriptedRead::Gives(first)).ok()?;
    for _ in 0..SINGLE_OCTETS {
        for _ in 0..QUIET_READS {
            reads.push_back(ScriptedRead::Answers(Ending::Later)).ok()?;
        }
        reads.push_back(ScriptedRead::Gives(1)).ok()?;
    }
    Some(reads)
}

/// A transport whose connections give these octets, one after the other from the last on, and then
/// nothing. They are of peers that the replica calls, or of callers.
#[derive(Drop)]
pub struct Scripted {
    alloc: Global,
    sources: Vec<Vec<u8>>,
    called: bool,
    calls: u64,
    fails: Fails,
    /// How its connections give their octets.
    pub manner: Manner,
    /// A wait reports no connection.
    pub is_silent: bool,
    /// The system has too little for one more connection.
    pub is_short: bool,
    /// The last wait was asked to wait.
    was_to_wait: bool,
    idle: FailureCount,
    log: AskLog,
    /// How many connections were given, and how many waits ran out.
    pub given: u64,
    pub waited: u64,
    /// How many connections are watched, and the most that were at one time.
    pub watched: u64,
    pub most_watched: u64,
}

impl Scripted {
    /// Connections with these octets, of callers, or else of peers that are called.
    pub fn new(alloc: Global, sources: Vec<Vec<u8>>, called: bool, fails: Fails) -> Self {
        Scripted {
            alloc,
            sources,
            called,
            calls: 0,
            fails,
            manner: Manner::Whole,
            is_silent: false,
            is_short: false,
            was_to_wait: false,
            idle: FailureCount::new(),
            log: AskLog::new(),
            given: 0,
            waited: 0,
            watched: 0,
            most_watched: 0,
        }
    }

    /// Whether this call fails.
    fn fails(&mut self) -> bool
        ensures { (self.new.idle ≡ self.old.idle) × (self.new.log ≡ self.old.log) }
    {
        self.calls = self.calls.saturating_add(1);
        self.calls == self.fails.at || self.fails.for_good && self.calls > self.fails.at
    }

    /// The next connection, to this peer or by somebody else. It is never cut.
    fn wire(&mut self, peer: Option<usize>) -> Option<CutWire<MemWire>>
        ensures fresh { IfSome result
            (λ w. (w.wire.at ≡ 0) × (w.wire.taken ≡ []) × (w.wire.ends ≡ 0)
            × (w.wire.failures ≡ 0) × (w.failed ≡ 0)) }
        ensures leads { IfSome result (λ w. w.peer ≡ peer) }
        ensures idle { (self.new.idle ≡ self.old.idle) × (self.new.log ≡ self.old.log) }
    {
        let source = self.sources.pop()?;
        self.given = self.given.saturating_add(1);
        let ending = if self.manner == Manner::Cut {
            Ending::End
        } else {
            Ending::Later
        };
        let Ok(mut wire) = MemWire::new(self.alloc, source, ending, 2_000, 7) else {
            return None;
        };
        if let Manner::Slow(first) = self.manner {
            let reads = slow_reads(self.alloc, first)?;
            wire = wire.with_script(reads, VecDeque::new(self.alloc));
        }
        Some(CutWire {
            wire,
            peer,
            left: usize::MAX,
            failed: FailureCount::new(),
        })
    }
}

impl Transport for Scripted {
    type Connection = CutWire<MemWire>;

    ghost use Rattle.std.specs.Prelude.{None, Some, if◌then◌else◌};

    ghost asked = { λ n. n.log };

    ghost has_too_little = { λ n. n.is_short };

    ghost reported = { λ n number. if n.is_silent then None else Some number };

    ghost elapsed_periods = { λ n. n.idle };

    ghost was_to_wait = { λ n. n.was_to_wait };

    ghost leads_to = { λ w. w.peer };

    fn connect(&mut self, peer: usize) -> Option<CutWire<MemWire>> {
        self.log.note_call();
        if self.fails() || self.called {
            return None;
        }
        self.wire(Some(peer))
    }

    fn accept(&mut self) -> Option<CutWire<MemWire>> {
        self.log.note_accept();
        if self.fails() || !self.called {
            return None;
        }
        self.wire(None)
    }

    fn is_short(&self) -> bool {
        self.is_short
    }

    fn watch(&mut self, connection: CutWire<MemWire>, _key: usize) -> Option<CutWire<MemWire>> {
        self.log.note_watch();
        if self.fails() {
            return None;
        }
        self.watched = self.watched.saturating_add(1);
        self.most_watched = self.most_watched.max(self.watched);
        Some(connection)
    }

    fn unwatch(&mut self, _connection: &mut CutWire<MemWire>) {
        self.log.note_unwatch();
        self.watched = self.watched.saturating_sub(1);
    }

    fn wait(&mut self, may_wait: bool) -> Waited {
        self.log.note_wait().wait();
        let fails = self.fails();
        self.was_to_wait = may_wait;
        if !may_wait && !fails {
            return Waited::Ready;
        }
        self.waited = self.waited.saturating_add(1);
        self.idle.rise();
        if fails { Waited::Fault } else { Waited::RanOut }
    }

    fn report(&self, number: usize) -> Option<Reported> {
        if self.is_silent {
            return None;
        }
        Some(Reported { key: number })
    }
}
