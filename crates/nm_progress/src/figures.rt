//! What the replicas of a run did, noted by their threads while they run.

use nm_base::limits::{MAX_CHANNELS, MAX_PARTITIONS};
use nm_base::{ChanNo, PartNo};
use std::alloc::{AllocError, Global};
use std::sync::atomic::{AtomicU64, Ordering};

/// What is counted of a replica.
#[derive(Clone, Copy)]
pub enum Figure {
    /// Polls.
    Polls,
    /// Polls that waited, since nothing was left to do.
    Waits,
    /// Polls at which its book had done events.
    Windows,
    /// Jobs that a pool did of its book.
    Jobs,
    /// Events that its book did.
    Events,
    /// Records that its book made.
    Records,
    /// The safe time of its book, in nanoseconds.
    Safe,
    /// Messages that it wrote, those that were written again among them.
    Messages,
    /// Null messages that it wrote.
    Nulls,
    /// Connections that it began or accepted and on which the peer sent Hello.
    Begun,
    /// Those of them that broke.
    Broken,
    /// Messages that it wrote and had written to the same replica on an earlier connection.
    Resent,
    /// It waits for others: 1, or 0.
    IsWaiting,
    /// A pool runs its book: 1, or 0.
    IsLent,
    /// How often it was looked at while neither its thread nor a pool waited for others.
    Busy,
}

/// How many figures there are.
const COUNT: usize = 15;

/// The replicas of a partition, at most.
const REPLICAS: usize = 2;

/// What all replicas of a run did. Threads note it, and others look at it; it affects no result.
#[derive(Drop)]
pub struct Figures {
    /// By partition, replica and figure.
    all: Vec<AtomicU64>,
    /// By channel and replica: how often its clock was the least when the replica waited.
    held: Vec<AtomicU64>,
    /// By channel: the partition into which it comes, and one more.
    receivers: Vec<AtomicU64>,
    /// How often all were looked at.
    looks: AtomicU64,
}

/// The figures of one replica.
#[derive(Clone, Copy)]
pub struct ReplicaFigures<'a> {
    figures: &'a Figures,
    partition: PartNo,
    replica: u8,
}

/// So many zeros.
fn zeros(alloc: Global, count: usize) -> Result<Vec<AtomicU64>, AllocError> {
    let mut all = Vec::new(alloc);
    for _ in 0..count {
        all.push(AtomicU64::new(0))?;
    }
    Ok(all)
}

/// The index of the first figure of a replica.
fn first_of(partition: PartNo, replica: u8) -> usize {
    let place = (partition.index() % MAX_PARTITIONS) * REPLICAS + usize::from(replica) % REPLICAS;
    place * COUNT
}

/// The index of a channel's count of a replica.
fn held_at(channel: ChanNo, replica: u8) -> usize {
    (channel.index() % MAX_CHANNELS) * REPLICAS + usize::from(replica) % REPLICAS
}

/// The value at an index, or 0.
fn load(all: &[AtomicU64], index: usize) -> u64 {
    match all.get(index) {
        Some(found) => found.load(Ordering::Relaxed),
        None => 0,
    }
}

/// Puts a value at an index.
fn store(all: &[AtomicU64], index: usize, value: u64) {
    if let Some(found) = all.get(index) {
        found.store(value, Ordering::Relaxed);
    }
}

/// Adds to the value at an index.
fn add(all: &[AtomicU64], index: usize, more: u64) {
    if let Some(found) = all.get(index) {
        let _ = found.fetch_add(more, Ordering::Relaxed);
    }
}

impl Figures {
    /// Nothing was done.
    ///
    /// # Errors
    ///
    /// If memory was refused.
    pub fn new(alloc: Global) -> Result<Self, AllocError> {
        Ok(Figures {
            all: zeros(alloc, MAX_PARTITIONS * REPLICAS * COUNT)?,
            held: zeros(alloc, MAX_CHANNELS * REPLICAS)?,
            receivers: zeros(alloc, MAX_CHANNELS)?,
            looks: AtomicU64::new(0),
        })
    }

    /// Those of one replica.
    pub fn of(&self, partition: PartNo, replica: u8) -> ReplicaFigures<'_> {
        ReplicaFigures {
            figures: self,
            partition,
            replica,
        }
    }

    /// Looks at all replicas: counts which of them work.
    pub fn look(&self) {
        let _ = self.looks.fetch_add(1, Ordering::Relaxed);
        for partition in 0..MAX_PARTITIONS as u32 {
            for replica in 0..REPLICAS as u8 {
                let one = self.of(PartNo::new(partition), replica);
                if one.is_there() && one.is_busy() {
                    one.add(Figure::Busy, 1);
                }
            }
        }
    }

    /// How often all were looked at.
    pub fn looks(&self) -> u64 {
        self.looks.load(Ordering::Relaxed)
    }
}

impl<'a> ReplicaFigures<'a> {
    /// The index of a figure.
    fn index_of(&self, figure: Figure) -> usize {
        first_of(self.partition, self.replica).saturating_add(figure as usize)
    }

    /// A figure, as it is now.
    pub fn get(&self, figure: Figure) -> u64 {
        load(self.figures.all.as_slice(), self.index_of(figure))
    }

    /// A figure is so much.
    pub fn set(&self, figure: Figure, value: u64) {
        let index = self.index_of(figure);
        store(self.figures.all.as_slice(), index, value);
    }

    /// A figure is so much more.
    pub fn add(&self, figure: Figure, more: u64) {
        let index = self.index_of(figure);
        add(self.figures.all.as_slice(), index, more);
    }

    /// It waits, and the clock of this channel is the least of those that come in.
    pub fn hold(&self, channel: ChanNo) {
        let partition = u64::from(self.partition.number());
        store(
            self.figures.receivers.as_slice(),
            channel.index(),
            partition + 1,
        );
        add(
            self.figures.held.as_slice(),
            held_at(channel, self.replica),
            1,
        );
    }

    /// Which channel held it back most often, and how many waits in a hundred that was.
    pub fn held_by(&self) -> Option<(ChanNo, u64)> {
        let own = u64::from(self.partition.number()) + 1;
        let (mut most, mut all, mut found) = (0u64, 0u64, None);
        for number in 0..MAX_CHANNELS as u32 {
            let channel = ChanNo::new(number);
            if load(self.figures.receivers.as_slice(), channel.index()) == own {
                let count = load(self.figures.held.as_slice(), held_at(channel, self.replica));
                all = all.saturating_add(count);
                if count > most {
                    most = count;
                    found = Some(channel);
                }
            }
        }
        let channel = found?;
        Some((channel, most.saturating_mul(100) / all.max(1)))
    }

    /// Whether there is such a replica.
    pub fn is_there(&self) -> bool {
        self.get(Figure::Polls) > 0
    }

    /// Whether its own thread or a pool does something.
    fn is_busy(&self) -> bool {
        self.get(Figure::IsWaiting) == 0 || self.get(Figure::IsLent) > 0
    }
}
